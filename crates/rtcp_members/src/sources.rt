//! The sources of a table, one after the other.

ghost use Rattle.std.specs.Prelude.{◌≡◌, [], None};
ghost use Rattle.std.specs.Iterator.{YieldsFirstBy, item_count};
ghost use Rattle.rtcp_members.specs.ListViews.{state_value};
ghost use Rattle.rtcp_members.specs.Listings.{states_above};

use crate::state::SourceState;
use crate::table::MemberTable;
use std::marker::Model;

/// What is known of each source of a table, by rising SSRC: an iterator that asks the table.
#[derive(Drop)]
pub struct Sources<'a, T: MemberTable> {
    table: Option<&'a T>,
    after: Option<u32>,
    /// Where the last one stands, as far as the table said so.
    rank: usize,
}

impl<'a, T: MemberTable> Model for Sources<'a, T> {
    ghost use Rattle.std.specs.Prelude.{List, option_map};
    ghost use Rattle.rtcp_members.specs.Listings.{StateValue, states_of};

    ghost Value = { List StateValue };

    ghost view = { λ sources.
        states_of sources.after (option_map (λ table. T.content table.now) sources.table) };
}

impl<'a, T: MemberTable> Sources<'a, T> {
    /// All sources of a table.
    pub fn of(table: &'a T) -> Sources<'a, T>
        ensures { result ≡ states_above None (T.content table.now) }
    {
        Sources {
            table: Some(table),
            after: None,
            rank: 0,
        }
    }

    /// None at all.
    pub fn none() -> Sources<'a, T>
        ensures { result ≡ [] }
    {
        Sources {
            table: None,
            after: None,
            rank: 0,
        }
    }
}

impl<'a, T: MemberTable> Iterator for Sources<'a, T> {
    type Item = SourceState;

    ghost next_gives = { YieldsFirstBy state_value (λ sources. sources) };

    ghost remaining = { item_count (λ sources. sources) };

    fn next(&mut self) -> Option<SourceState> {
        match self.table {
            Some(table) => match table.source_from(self.after, &mut self.rank) {
                Some(state) => {
                    self.after = Some(state.ssrc);
                    Some(state)
                }
                None => None,
            },
            None => None,
        }
    }
}
