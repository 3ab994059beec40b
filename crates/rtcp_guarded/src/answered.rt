//! The calls of a guarded participant by events, with the compound in the answer.

ghost use Rattle.std.specs.Prelude.{◌≡◌, ◌≤◌, option_map};
ghost use Rattle.rtcp_engine.specs.state.Views.{event_value, out_in, out_value, size_written};
ghost use Rattle.rtcp_guarded.specs.Promises.{Answers};
ghost use Rattle.rtcp_guarded.specs.Views.{guarded_value, out_written, reply_value};

use crate::guarded::GuardedParticipant;
use crate::untaken::{GuardedAnswer, GuardedReply};
use arrayvec::ArrayVec;
use rtcp_engine::{Event, Out, Step, Written};
use rtcp_members::MemberTable;
use rtcp_wire::MAX_COMPOUND;

impl<T: MemberTable> GuardedParticipant<T> {
    /// [`tell_into`](GuardedParticipant::tell_into), with the compound in the answer.
    ///
    /// # Errors
    ///
    /// Those of the call. Then the participant is unchanged.
    pub fn tell(&mut self, event: &Event<'_>) -> GuardedAnswer
        ensures { Answers self.old (event_value event.now) result self.new }
    {
        let mut octets = [0; MAX_COMPOUND];
        let reply = self.tell_into(event, &mut octets);
        answer_with(reply, &octets)
    }
}

/// The answer of a call whose reply is this, and whose compound stands in these octets, if it has one.
fn answer_with(reply: GuardedReply, octets: &[u8; MAX_COMPOUND]) -> GuardedAnswer
    requires { size_written (out_written reply) ≤ 1472 }
    ensures { guarded_value result ≡ reply_value octets.now reply }
{
    match reply {
        Ok(told) => Ok(Step {
            members: told.standing.members,
            senders: told.standing.senders,
            entries: told.standing.entries,
            next: told.standing.next,
            changed: told.changed,
            others_changed: told.others_changed,
            out: out_of(told.out, octets),
        }),
        Err(untaken) => Err(untaken),
    }
}

/// The compound that stands in these octets, if one was written.
fn out_of(written: Option<Written>, octets: &[u8; MAX_COMPOUND]) -> Option<Out>
    requires { size_written written ≤ 1472 }
    ensures { option_map out_value result ≡ out_in octets.now written }
{
    let written = written?;
    let mut bytes = ArrayVec::new();
    let fits = bytes.try_extend_from_slice(&octets[..written.size]).is_ok();
    prove!(fits);
    Some(Out {
        kind: written.kind,
        bytes,
    })
}
