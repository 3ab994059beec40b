//! What a participant does as its host says that another source is gone (RFC 3550, 6.3.4, 6.3.5).

ghost use Rattle.std.specs.Prelude.{◌≡◌};
ghost use Rattle.rtcp_engine.specs.state.States.{Does, MovesOthers};
ghost use Rattle.rtcp_engine.specs.answers.Ticks.{with_forgotten, without_source};

use super::Presence;
use crate::table::forget;
use rtcp_members::MemberTable;

impl<T: MemberTable> Presence<T> {
    /// Lets a source go at the moment of the latest call, as one that was silent for too long. Returns whether that
    /// changed who of the others is a member or who sends.
    pub(crate) fn forget(&mut self, ssrc: u32) -> bool
        ensures new { Does self.old self.new (λ setup. without_source setup self.old.latest ssrc) }
        ensures moved { MovesOthers self.old result (λ setup. without_source setup self.old.latest ssrc) }
    {
        let moved = self.drop_source(ssrc);
        self.recount();
        moved
    }

    /// Drops a source from the table.
    fn drop_source(&mut self, ssrc: u32) -> bool
        ensures new { Does self.old self.new (λ setup. with_forgotten ssrc) }
        ensures moved { MovesOthers self.old result (λ setup. with_forgotten ssrc) }
    {
        forget(&mut self.table, ssrc)
    }
}
