//! Where a participant stands, and what it answers to a call that was taken.

ghost use Rattle.std.specs.Prelude.{◌≡◌, ℕ, List, None};
ghost use Rattle.rtcp_engine.specs.answers.Leaving.{Life};
ghost use Rattle.rtcp_engine.specs.answers.Lives.{standing_in_life, step_into};
ghost use Rattle.rtcp_engine.specs.state.Promises.{SaysStanding};
ghost use Rattle.rtcp_engine.specs.state.States.{IsAt, taking_part};
ghost use Rattle.rtcp_engine.specs.state.Views.{out_in, written_step_value};

use super::{Participant, Phase};
use crate::step::{Brought, Standing, WrittenStep};
use rtcp_members::MemberTable;

impl<T: MemberTable> Participant<T> {
    /// Who is there and when to call `tick` next: all that each answer tells of it.
    // Inlined, so that each call writes its answer once, where its caller keeps that.
    #[inline(always)]
    pub fn standing(&self) -> Standing
        ensures says { SaysStanding result self.now }
        ensures in_life { (life : Life) → IsAt self.now life →
            result ≡ standing_in_life self.now.presence.setup life }
    {
        let presence = &self.presence;
        let (members, next) = match self.phase {
            Phase::Present => return self.standing_in_session(),
            Phase::BackingOff(members) => (members, Some(presence.next_moment())),
            Phase::Finished => (0, None),
        };
        let ssrc = presence.ssrc();
        Standing {
            members,
            senders: 0,
            entries: 0,
            ssrc,
            next,
        }
    }

    /// The same of one that takes part.
    #[inline(always)]
    fn standing_in_session(&self) -> Standing
        requires { self.now.phase ≡ taking_part }
        ensures says { SaysStanding result self.now }
        ensures in_life { (life : Life) → IsAt self.now life →
            result ≡ standing_in_life self.now.presence.setup life }
    {
        let presence = &self.presence;
        Standing {
            members: presence.member_count(),
            senders: presence.sender_count(),
            entries: presence.entries(),
            ssrc: presence.ssrc(),
            next: Some(presence.next_moment()),
        }
    }

    /// The answer of a call that was taken, and handed out nothing, of one that takes part.
    #[inline(always)]
    pub(super) fn written_step_in_session(&self, others_changed: bool) -> WrittenStep
        requires { self.now.phase ≡ taking_part }
        ensures exact { (octets : List ℕ) (life : Life) → IsAt self.now life → written_step_value octets result
            ≡ step_into self.now.presence.setup None others_changed life }
        ensures standing { SaysStanding result.standing self.now }
        ensures out { result.out ≡ None }
    {
        WrittenStep {
            standing: self.standing_in_session(),
            changed: None,
            others_changed,
            out: None,
        }
    }

    /// The answer of a call that was taken, and brought this.
    #[inline(always)]
    pub(super) fn written_step(&self, brought: Brought) -> WrittenStep
        ensures exact { (octets : List ℕ) (life : Life) → IsAt self.now life → written_step_value octets result
            ≡ step_into self.now.presence.setup (out_in octets brought.out) brought.others_changed life }
        ensures standing { SaysStanding result.standing self.now }
        ensures out { result.out ≡ brought.out }
    {
        WrittenStep {
            standing: self.standing(),
            changed: None,
            others_changed: brought.others_changed,
            out: brought.out,
        }
    }
}
