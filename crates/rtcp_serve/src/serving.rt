//! A session over a link.

ghost use Rattle.std.specs.Prelude.{◌≡◌, ◌≤◌, ◌<◌, ◌^◌};
ghost use Rattle.rtcp_engine.specs.answers.Histories.{History};
ghost use Rattle.rtcp_engine.specs.state.States.{StandsAt};
ghost use Rattle.rtcp_guarded.specs.Guarded.{GuardedHistory};
ghost use Rattle.rtcp_guarded.specs.Views.{StandsAt as IsAtGuarded};
ghost use Rattle.rtcp_serve.specs.Observers.{unwatched};
ghost use Rattle.rtcp_serve.specs.Served.{Served, StandsServed, behind_guard, guarded};
ghost use Rattle.rtcp_serve.specs.Serving.{IsReader, Reader, SessionState, at_the_start, ended};
ghost use Rattle.rtcp_serve.specs.Sessions.{EndsAs, RunsCut, RunsCutOf, RunsSession, keeps, keeps_served, run_of};

mod tally;
mod turns;

use crate::attendant::Attendant;
use crate::ending::{Ending, Until};
use crate::link::Link;
use crate::observer::Observer;
use rand_core::Rng;
use rtcp_engine::Participant;
use rtcp_guarded::GuardedParticipant;
use rtcp_members::MemberTable;
use tally::Tally;

/// The most turns that [`serve_until`] makes before the leave: at a microsecond each they last for 18,000 years.
pub const MOST_TURNS: u64 = 1 << 59;

/// Why a session over a link ended.
#[derive(Clone, Copy, Debug, PartialEq, Eq)]
pub enum Cause {
    /// All turns were made, or the participant has left.
    Done,
    /// 64 receives in a row failed. No BYE was sent.
    LinkDown,
    /// The participant met a limit (E3, E4). No BYE was sent for it.
    Limit,
}

/// What became of a session over a link.
#[derive(Clone, Copy, Debug, PartialEq, Eq)]
pub struct End {
    /// Why it ended.
    pub cause: Cause,
    /// How many datagrams came.
    pub received: u64,
    /// How many of them the participant refused, or its guard held back: not as a compound, by their head, or for
    /// naming its own SSRC where they could not change it.
    pub refused: u64,
    /// How many compounds were handed to the link, those that it failed to send included.
    pub sent: u64,
    /// How many of them it failed to send.
    pub send_failures: u64,
    /// How many receives failed.
    pub recv_failures: u64,
    /// Whether the BYE of leaving was handed to the link. The BYE of an SSRC that was given up does not count.
    pub bye: bool,
}

/// Runs a participant on a link, for so many turns, and then lets it leave: with as many turns more, where it
/// backs off before its BYE.
///
/// A turn reads the clock, listens to the port of RTCP and then to that of RTP, for 20 milliseconds each, reads the
/// clock again, draws two words, asks the participant what is due, and sends what it answers. For a datagram that
/// came it draws a word too, before the participant is told. Where one changes the SSRC (RFC 3550, 8.2), the BYE of
/// the old one goes out at once, before the turn goes on. The moment is the greatest that the clock gave, and a
/// compound goes to the link once, whether or not it failed to send it. After the last turn a word is drawn for the
/// leave, at that moment. Once the participant has left, there is no further call.
///
/// It ends early where the 64th receive in a row failed, over both ports, and where the participant met a limit.
pub fn serve<L: Link, T: MemberTable, R: Rng>(
    link: &mut L,
    participant: &mut Participant<T>,
    rng: &mut R,
    turns: u32,
    buf: &mut [u8; 65_535],
) -> End
    requires turns { (1 ≤ turns) × (turns ≤ 1000000) }
    requires receives { (L.value link.old).failed_receives < 2 ^ 63 }
    requires sends { (L.value link.old).failed_sends < 2 ^ 63 }
    // The calls of the link were those that a session makes, each the one that came next, up to its end. The
    // participant stands where they left it, and the result says what they came to.
    ensures serves { (reader : Reader) (history : History) → IsReader reader → StandsAt participant.old history →
        RunsSession unwatched (run_of reader turns (tt {0})) (at_the_start history (R.stream rng.old) turns)
        (L.value link.old) (keeps (L.value link.new) participant.new (R.stream rng.new) (tt {0})) result }
{
    let mut tally = Tally::new();
    let ending = &mut None::<Until>;
    let most = u64::from(turns);
    let returned = turns::session(
        link,
        participant,
        rng,
        &mut (),
        &mut tally,
        ending,
        most,
        buf,
    );
    tally.end(cause_of(returned))
}

/// Runs a participant on a link as [`serve`] does, until an ending is met, and then lets it leave. The ending is asked
/// before each turn, with the greatest moment so far. It is asked again before each of the turns that are made after
/// the leave, where the participant backs off before its BYE.
///
/// The observer is told each event with its answer, before the compound of the answer goes out, and then whether that
/// failed.
///
/// It leaves after so many turns too, at most [`MOST_TURNS`], so that it ends whatever the clock and the ending say.
pub fn serve_until<L: Link, T: MemberTable, R: Rng, E: Ending, O: Observer>(
    link: &mut L,
    participant: &mut Participant<T>,
    rng: &mut R,
    ending: &mut E,
    turns: u64,
    observer: &mut O,
    buf: &mut [u8; 65_535],
) -> End
    requires turns { turns ≤ 2 ^ 59 }
    requires receives { (L.value link.old).failed_receives < 2 ^ 63 }
    requires sends { (L.value link.old).failed_sends < 2 ^ 63 }
    // The session is one of some number of turns before the leave, and of some number at most after it. It pauses
    // before each turn and before the leave. A turn is made only at a moment at which the ending may have said that
    // they are not over, and fewer turns than may be only if it may have said, at the moment at which they end, that
    // they are. The observer took what happened in that session: the events that the participant was told, each with
    // its answer, and the sends, in their order.
    ensures serves { (reader : Reader) (history : History) → IsReader reader → StandsAt participant.old history →
        RunsCut O.takes reader (E.known ending.old) turns history
        (keeps (L.value link.old) participant.old (R.stream rng.old) observer.old)
        (keeps (L.value link.new) participant.new (R.stream rng.new) observer.new) result }
{
    serve_attended(link, participant, rng, ending, turns, observer, buf)
}

/// Runs a participant with a guard before it on a link as [`serve_until`] does. What the guard holds back is told the
/// observer as what is refused, and counts so.
pub fn serve_guarded_until<L: Link, T: MemberTable, R: Rng, E: Ending, O: Observer>(
    link: &mut L,
    participant: &mut GuardedParticipant<T>,
    rng: &mut R,
    ending: &mut E,
    turns: u64,
    observer: &mut O,
    buf: &mut [u8; 65_535],
) -> End
    requires turns { turns ≤ 2 ^ 59 }
    requires receives { (L.value link.old).failed_receives < 2 ^ 63 }
    requires sends { (L.value link.old).failed_sends < 2 ^ 63 }
    // As the clause of `serve_until`, over all that the guarded participant was told.
    ensures serves { (reader : Reader) (history : GuardedHistory) → IsReader reader →
        IsAtGuarded participant.old history → RunsCutOf O.takes reader (E.known ending.old) turns (guarded history)
        (keeps_served (L.value link.old) (behind_guard participant.old) (R.stream rng.old) observer.old)
        (keeps_served (L.value link.new) (behind_guard participant.new) (R.stream rng.new) observer.new) result }
{
    serve_attended(link, participant, rng, ending, turns, observer, buf)
}

/// Runs what takes part in a session on a link, until an ending is met, and then lets it leave.
fn serve_attended<L: Link, P: Attendant, R: Rng, E: Ending, O: Observer>(
    link: &mut L,
    participant: &mut P,
    rng: &mut R,
    ending: &mut E,
    turns: u64,
    observer: &mut O,
    buf: &mut [u8; 65_535],
) -> End
    requires turns { turns ≤ 2 ^ 59 }
    requires receives { (L.value link.old).failed_receives < 2 ^ 63 }
    requires sends { (L.value link.old).failed_sends < 2 ^ 63 }
    ensures serves { (reader : Reader) (history : Served) → IsReader reader →
        StandsServed (P.value participant.old) history → RunsCutOf O.takes reader (E.known ending.old) turns history
        (keeps_served (L.value link.old) (P.value participant.old) (R.stream rng.old) observer.old)
        (keeps_served (L.value link.new) (P.value participant.new) (R.stream rng.new) observer.new) result }
{
    let mut tally = Tally::new();
    let returned = turns::session(
        link,
        participant,
        rng,
        observer,
        &mut tally,
        ending,
        turns,
        buf,
    );
    tally.end(cause_of(returned))
}

/// Why a session ended, by what it returned.
fn cause_of(returned: Result<(), Cause>) -> Cause
    ensures { (t : SessionState) → EndsAs returned t → t.stage ≡ ended result }
{
    match returned {
        Ok(()) => Cause::Done,
        Err(cause) => cause,
    }
}
