//! A table under test, whichever it is, and the cursor of its reports.

ghost use Rattle.std.specs.Prelude.{◌≡◌, ◌≤◌, ◌<◌, length};
ghost use Rattle.std.specs.Option.{ForSome};
ghost use Rattle.rtcp_wire.specs.Writing.{IsWritableItem};
ghost use Rattle.rtcp_members.specs.Tables.{HasFew};
ghost use Rattle.rtcp_report.specs.Views.{extra_of};

use arrayvec::ArrayVec;
use rtcp_members::{InlineTable, MemberTable};
use rtcp_report::{Item, Sender, report};
use rtcp_wire::{Fact, MAX_COMPOUND};
use std::process::Abort;

/// A table, how many facts came to it, few, so that no source was given too many packets, and the last SSRC
/// reported.
#[derive(Drop)]
pub(crate) struct Session<T: MemberTable> {
    table: T,
    facts: u32,
    pub(crate) cursor: Option<u32>,
    ghost few: { HasFew facts (T.content table) },
}

impl<T: InlineTable> Session<T> {
    /// A session without members.
    pub(crate) fn new() -> Session<T> {
        Session {
            table: T::empty(1024),
            facts: 0,
            cursor: None,
        }
    }
}

impl<T: MemberTable> Session<T> {
    /// An RTP packet of the source with this number, of a clock of 8,000 units a second.
    pub(crate) fn packet(&mut self, rt: &impl Abort, ssrc: u32, seq: u16) {
        assert!(rt; self.facts < 10_000);
        let _ = self.table.apply(Fact::Media(ssrc, seq, 0, 0, 8_000), 0);
        self.facts += 1;
    }

    /// A first packet of each source from 1 on, and a second one, which is counted.
    pub(crate) fn sources(&mut self, rt: &impl Abort, count: u32) {
        for ssrc in 0..count {
            self.packet(rt, ssrc + 1, 10);
            self.packet(rt, ssrc + 1, 11);
        }
    }

    /// A report at the moment 0.
    pub(crate) fn report(
        &mut self,
        sender: &Sender<'_>,
        limit: u32,
        extra: Option<&Item>,
    ) -> ArrayVec<u8, MAX_COMPOUND>
        requires least { 576 ≤ limit }
        requires most { limit ≤ 1472 }
        requires cname { length sender.now.cname.now ≤ 255 }
        requires extra { ForSome (extra_of extra) IsWritableItem }
    {
        let mut cursor = self.cursor;
        let octets = report(sender, &mut self.table, 0, limit, &mut cursor, extra);
        self.cursor = cursor;
        octets
    }
}
