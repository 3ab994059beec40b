//! Texts with a separator between each two of them.

ghost use Rattle.std.specs.Prelude.{◌≡◌, ◌++◌, ℕ, List, map, OnOk};
ghost use Rattle.std.specs.Iterator.{Drains, IsFinite};
ghost use Rattle.std.specs.List.{join_with_byte};

use std::alloc::AllocError;

/// Appends the texts of the values that an iterator gives, with the separator between each two of them.
pub(super) fn push_joined<I: Iterator + Drop>(
    out: &mut Vec<u8>,
    separator: u8,
    values: I,
) -> Result<(), AllocError>
where
    I::Item: Shown + Drop,
    requires can { I.can_next values }
    requires ends { IsFinite (I.remaining values) }
    ensures { OnOk result ((given : List I.Item) × Drains I.next_gives values given
        × (out.new.items ≡ out.old.items ++ join_with_byte separator (map I.Item.text given))) }
{
    let mut is_first = true;
    for value in values {
        if !is_first {
            out.push(separator)?;
        }
        is_first = false;
        value.push_text(out)?;
    }
    Ok(())
}

/// A value that has a text.
pub(super) trait Shown {
    // the text of a value
    ghost text: { Self → List ℕ };

    /// Appends the text of the value.
    fn push_text(&self, out: &mut Vec<u8>) -> Result<(), AllocError>
        ensures { OnOk result (out.new.items ≡ out.old.items ++ text self.now) };
}
