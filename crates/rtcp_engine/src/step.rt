//! What a participant answers.

ghost use Rattle.std.specs.Prelude.{◌≡◌, ◌≤◌, option_map};
ghost use Rattle.rtcp_engine.specs.state.Views.{answer_value, out_in, out_written, out_value, reply_value, size_written};

use crate::refusal::Refusal;
use arrayvec::ArrayVec;
use rtcp_wire::MAX_COMPOUND;

/// What a compound is that a participant hands out.
#[derive(Clone, Copy, Debug, PartialEq, Eq)]
pub enum OutKind {
    /// A report (RFC 3550, 6.4).
    Report,
    /// A BYE, with an empty report before it (RFC 3550, 6.3.7, 6.6): the participant's, or that of an SSRC
    /// that it gives up (8.2).
    Bye,
}

/// A compound to send, in one datagram, to the other participants.
#[derive(Debug, Drop)]
pub struct Out {
    /// What it is.
    pub kind: OutKind,
    /// Its octets, without the headers of UDP and IP: at most the limit of the configuration.
    pub bytes: ArrayVec<u8, MAX_COMPOUND>,
}

/// What a call that was taken answers.
// The compound is last: then a refusal lies over none of its octets, and the compiler copies no answer without one.
#[derive(Debug, Drop)]
pub struct Step {
    /// The members of the session, the participant included (RFC 3550, 6.2.1). In a backoff it and one for each
    /// BYE packet that came, at most 65,535 (6.3.7); 0 once it has left.
    pub members: u32,
    /// Those of them that send RTP packets, the participant included where it does: 0 from a leave on.
    pub senders: u32,
    /// How many places of the table are taken, as [`Participant::entries`](crate::Participant::entries) says: 0
    /// from a leave on.
    pub entries: u32,
    /// When to call `tick` next, in microseconds since the session began, or `None` once the participant has
    /// left. It may lie before the moment of the call: then a report or the BYE is overdue.
    pub next: Option<u64>,
    /// The participant's new SSRC, where the call changed it (RFC 3550, 8.2).
    pub changed: Option<u32>,
    /// Whether the call changed the [`Role`](crate::Role) of another source, if only for a moment of the call.
    /// Where it did not, each source that [`Participant::sources`](crate::Participant::sources) tells of has
    /// the role that it had. A leave changes it of each member, as nobody is told of from then on.
    pub others_changed: bool,
    /// A compound to send now, if there is one. A datagram brings one where it changes the identifier
    /// (`changed`): the BYE of the old one.
    pub out: Option<Out>,
}

/// A step, or why the call was refused.
pub type Answer = Result<Step, Refusal>;

/// A compound that a call wrote to the start of its caller's octets, to be sent in one datagram to the other
/// participants.
#[derive(Clone, Copy, Debug, PartialEq, Eq)]
pub struct Written {
    /// What it is.
    pub kind: OutKind,
    /// How many octets it has: at most the limit of the configuration.
    pub size: usize,
}

/// Who is there, and when to ask again.
#[derive(Clone, Copy, Debug, PartialEq, Eq)]
pub struct Standing {
    /// The members of the session, as in [`Step::members`].
    pub members: u32,
    /// Those of them that send RTP packets, as in [`Step::senders`].
    pub senders: u32,
    /// How many places of the table are taken, as in [`Step::entries`].
    pub entries: u32,
    /// The SSRC under which the participant takes part, or did last.
    pub ssrc: u32,
    /// When to call `tick` next, as in [`Step::next`].
    pub next: Option<u64>,
}

/// What a call that was taken answers, where its compound stands in the caller's octets: a [`Step`] that tells of the
/// compound in place of having it.
// The flag is first: then a refusal lies over none of the other fields, and the compiler takes none of them apart.
#[derive(Clone, Copy, Debug, PartialEq, Eq)]
pub struct WrittenStep {
    /// Whether the call changed the role of another source, as in [`Step::others_changed`].
    pub others_changed: bool,
    /// The participant's new SSRC, where the call changed it, as in [`Step::changed`].
    pub changed: Option<u32>,
    /// The compound that the call wrote, and that is to be sent now, if there is one.
    pub out: Option<Written>,
    /// Where the participant stands after the call.
    pub standing: Standing,
}

/// What was told, or why the call was refused.
pub type Reply = Result<WrittenStep, Refusal>;

/// What an act brought, beside what it left of the participant.
#[derive(Clone, Copy)]
pub(crate) struct Brought {
    /// The compound that was written, if one was.
    pub(crate) out: Option<Written>,
    /// Whether the act changed the role of another source.
    pub(crate) others_changed: bool,
}

/// What an act brings that brings nothing.
pub(crate) const NOTHING: Brought = Brought {
    out: None,
    others_changed: false,
};

/// The answer of a call whose reply is this, and whose compound stands in these octets, if it has one.
pub(crate) fn answer_with(reply: Reply, octets: &[u8; MAX_COMPOUND]) -> Answer
    requires { size_written (out_written reply) ≤ 1472 }
    ensures { answer_value result ≡ reply_value octets.now reply }
{
    match reply {
        Ok(told) => Ok(Step {
            members: told.standing.members,
            senders: told.standing.senders,
            entries: told.standing.entries,
            next: told.standing.next,
            changed: told.changed,
            others_changed: told.others_changed,
            out: out_of(told.out, octets),
        }),
        Err(refusal) => Err(refusal),
    }
}

/// The compound that stands in these octets, if one was written.
fn out_of(written: Option<Written>, octets: &[u8; MAX_COMPOUND]) -> Option<Out>
    requires { size_written written ≤ 1472 }
    ensures { option_map out_value result ≡ out_in octets.now written }
{
    let written = written?;
    let mut bytes = ArrayVec::new();
    let fits = bytes.try_extend_from_slice(&octets[..written.size]).is_ok();
    prove!(fits);
    Some(Out {
        kind: written.kind,
        bytes,
    })
}
