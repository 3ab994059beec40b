//! The texts of several values.

ghost use Rattle.std.specs.Prelude.{◌≡◌, ℕ, List, Option, flat_map, map};
ghost use Rattle.std.specs.Iterator.{Drains, IsFinite};
ghost use Rattle.std.specs.List.{join_with_byte};
ghost use Rattle.rtcp_print.specs.Pages.{Adds};

use crate::page::Page;

/// A value that has a text in the line of `rtcp check`.
pub(crate) trait Shown {
    // the text of a value
    ghost text: { Self → List ℕ };

    /// Appends the text of the value.
    fn push_text(&self, page: &mut Page<'_>)
        ensures same { page.new.room.ghost_name ≡ page.old.room.ghost_name }
        ensures adds { Adds page.old page.new (text self.now) };
}

/// A value that has a text in plain words.
pub(crate) trait Told {
    // the text of a value, where the jitter of report blocks has so many units a second
    ghost words: { Option ℕ → Self → List ℕ };

    /// Appends the text of the value.
    fn push_words(&self, page: &mut Page<'_>, rate: Option<u32>)
        ensures same { page.new.room.ghost_name ≡ page.old.room.ghost_name }
        ensures adds { Adds page.old page.new (words rate self.now) };
}

/// Appends the texts of the values that an iterator gives, with the separator between each two of them.
pub(crate) fn push_joined<I: Iterator + Drop>(page: &mut Page<'_>, separator: u8, values: I)
where
    I::Item: Shown + Drop,
    requires can { I.can_next values }
    requires ends { IsFinite (I.remaining values) }
    ensures same { page.new.room.ghost_name ≡ page.old.room.ghost_name }
    ensures adds { (given : List I.Item) × Drains I.next_gives values given
        × Adds page.old page.new (join_with_byte separator (map I.Item.text given)) }
{
    let mut is_first = true;
    for value in values {
        if !is_first {
            page.push(&[separator]);
        }
        is_first = false;
        value.push_text(page);
    }
}

/// Appends the texts in plain words of the values that an iterator gives.
pub(crate) fn push_each<I: Iterator + Drop>(page: &mut Page<'_>, values: I, rate: Option<u32>)
where
    I::Item: Told + Drop,
    requires can { I.can_next values }
    requires ends { IsFinite (I.remaining values) }
    ensures same { page.new.room.ghost_name ≡ page.old.room.ghost_name }
    ensures adds { (given : List I.Item) × Drains I.next_gives values given
        × Adds page.old page.new (flat_map (I.Item.words rate) given) }
{
    for value in values {
        value.push_words(page, rate);
    }
}
