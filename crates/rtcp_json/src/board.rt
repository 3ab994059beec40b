//! Who is there, once a second.

ghost use Rattle.std.specs.Prelude.{◌≡◌, ◌++◌, [], ℕ, List, OnOk};
ghost use Rattle.rtcp_json.specs.Watchers.{dated_line, news_text};

use crate::sources::push_listing;
use rtcp_engine::Participant;
use rtcp_members::MemberTable;
use rtcp_text::text::digits::push_decimal;
use std::alloc::{AllocError, Global};
use std::mem;

/// Microseconds in a second.
const SECOND: u64 = 1_000_000;

/// Who was there, as it was written last.
#[derive(Drop)]
pub(crate) struct Board {
    /// The line, without its moment.
    rows: Vec<u8>,
    /// Room for the next one.
    next_rows: Vec<u8>,
    /// The last second in which it was due.
    second: u64,
}

impl Board {
    ghost use Rattle.rtcp_json.specs.Watchers.{NewsIf, is_due, second_after};

    /// Nothing was written yet.
    pub(crate) fn new(alloc: Global) -> Board
        ensures rows { result.rows.items ≡ [] }
        ensures second { result.second ≡ 0 }
    {
        Board {
            rows: Vec::new(alloc),
            next_rows: Vec::new(alloc),
            second: 0,
        }
    }

    /// Appends who is there, where that is due and is not as it was written last.
    pub(crate) fn compose<T: MemberTable>(
        &mut self,
        out: &mut Vec<u8>,
        moment: u64,
        participant: &Participant<T>,
    ) -> Result<(), AllocError>
        ensures news { OnOk result ((news : List ℕ) × NewsIf (is_due self.old.second moment) participant.now moment
            self.old.rows.items self.new.rows.items news × (out.new.items ≡ out.old.items ++ news)) }
        ensures second { self.new.second ≡ second_after self.old.second moment }
    {
        if moment / SECOND <= self.second {
            return Ok(());
        }
        self.second = moment / SECOND;
        self.next_rows.clear();
        push_listing(&mut self.next_rows, participant)?;
        push_news(out, moment, &self.rows, &self.next_rows)?;
        mem::swap(&mut self.rows, &mut self.next_rows);
        Ok(())
    }
}

/// Appends a line with its moment, where it is not as it was.
fn push_news(
    out: &mut Vec<u8>,
    moment: u64,
    before: &Vec<u8>,
    after: &Vec<u8>,
) -> Result<(), AllocError>
    ensures { OnOk result (out.new.items ≡ out.old.items ++ news_text moment before.now.items after.now.items) }
{
    if after == before {
        return Ok(());
    }
    push_dated(out, moment, after)
}

/// Appends the line of an object, with a moment before its other fields.
fn push_dated(out: &mut Vec<u8>, moment: u64, line: &[u8]) -> Result<(), AllocError>
    ensures { OnOk result (out.new.items ≡ out.old.items ++ dated_line moment line.now) }
{
    out.extend_from_slice(b"{\"moment\":")?;
    push_decimal(out, moment)?;
    out.push(b',')?;
    match line.split_first() {
        Some((_, rest)) => out.extend_from_slice(rest),
        None => Ok(()),
    }
}
