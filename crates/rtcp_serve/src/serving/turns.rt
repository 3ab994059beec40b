//! The turns of a session over a link, and its leave.

ghost use Rattle.std.specs.Prelude.{◌≡◌, ◌≤◌, ◌<◌, ◌+◌, ◌*◌, ℕ, Bool, true, false, List, [], ◌∷◌, OnOk};
ghost use Rattle.rand_core.specs.Stream.{Stream, next_u32};
ghost use Rattle.rtcp_guarded.specs.Views.{guarded_value};
ghost use Rattle.rtcp_serve.specs.Served.{ServedValue};
ghost use Rattle.rtcp_engine.specs.state.Views.{event_value};
ghost use Rattle.rtcp_serve.specs.Endings.{AreHeeded, IsCut, Pause, pause};
ghost use Rattle.rtcp_serve.specs.Links.{WereCalled, clock_read};
ghost use Rattle.rtcp_serve.specs.Observers.{event_told, telling};
ghost use Rattle.rtcp_serve.specs.Serving.{IsReader, Stage, SessionState, after_port, deciding, event_at, hearing, resting, stage_to_send};
ghost use Rattle.rtcp_serve.specs.Sessions.{Closes, EndsAs, EndsTurns, HasTurn, Holds, IsLeaveDue, Reaches, Run, Walks, keeps_served, led_to, turns_of, turns_with};
ghost use Rattle.rtcp_serve.specs.Tallies.{HasRoom, with_moment};

use crate::attendant::Attendant;
use crate::ending::Ending;
use crate::link::{Link, Port, Received};
use crate::observer::Observer;
use crate::serving::Cause;
use crate::serving::tally::{Tally, ends_session};
use rand_core::Rng;
use rtcp_engine::Event;
use rtcp_guarded::GuardedAnswer;

/// How long a port is listened to in a turn, in microseconds.
const WAIT: u64 = 20_000;

/// Makes a session: turns, then the leave, and as many turns again at most while the participant backs off. The ending
/// may end either.
pub(crate) fn session<L: Link, P: Attendant, R: Rng, O: Observer, E: Ending>(
    link: &mut L,
    participant: &mut P,
    rng: &mut R,
    observer: &mut O,
    tally: &mut Tally,
    ending: &mut E,
    turns: u64,
    buf: &mut [u8],
) -> Result<(), Cause>
    requires row { tally.old.failures < 64 }
    requires room { HasRoom (turns * 10 + 1) tally.old (L.value link.old) }
    ensures serves { (made further left_at : ℕ) × IsCut (E.known ending.old false left_at) turns made
        × (left_at ≤ tally.new.moment) × IsCut (E.known ending.old true tally.new.moment) turns further
        × ((run : Run O) (s : SessionState) → IsReader run.reader → run.total ≡ further →
        Holds O.takes run s (keeps_served (L.value link.old) (P.value participant.old)
        (R.stream rng.old) observer.old) tally.old →
        s.stage ≡ resting → s.turns ≡ made → s.leaving ≡ false → s.pauses ≡ [] →
        (pauses : List Pause) × AreHeeded (E.known ending.old) turns made pauses
        × Closes O.takes run s (L.value link.old)
        (keeps_served (L.value link.new) (P.value participant.new) (R.stream rng.new) observer.new)
        tally.new (EndsAs result) pauses) }
{
    make_turns(
        link,
        participant,
        rng,
        observer,
        tally,
        ending,
        false,
        turns,
        buf,
    )?;
    if participant.next_tick().is_none() {
        return Ok(());
    }
    leave(link, participant, rng, observer, tally, ending, turns, buf)
}

/// Draws a word, and asks the participant to leave at the greatest moment so far. While it backs off it is given as
/// many turns again, unless the ending does.
fn leave<L: Link, P: Attendant, R: Rng, O: Observer, E: Ending>(
    link: &mut L,
    participant: &mut P,
    rng: &mut R,
    observer: &mut O,
    tally: &mut Tally,
    ending: &mut E,
    turns: u64,
    buf: &mut [u8],
) -> Result<(), Cause>
    requires row { tally.old.failures < 64 }
    requires room { HasRoom (turns * 5 + 1) tally.old (L.value link.old) }
    ensures serves { (further : ℕ) × IsCut (E.known ending.old true tally.new.moment) turns further
        × ((run : Run O) (s : SessionState) → IsReader run.reader → run.total ≡ further →
        Holds O.takes run s (keeps_served (L.value link.old) (P.value participant.old)
        (R.stream rng.old) observer.old) tally.old →
        IsLeaveDue s → (pauses : List Pause)
        × ((most before : ℕ) → AreHeeded (E.known ending.old) most before (pause false tally.old.moment true ∷ s.pauses)
        → AreHeeded (E.known ending.old) most before pauses)
        × Closes O.takes run s (L.value link.old)
        (keeps_served (L.value link.new) (P.value participant.new) (R.stream rng.new) observer.new)
        tally.new (EndsAs result) pauses) }
    ensures later { tally.old.moment ≤ tally.new.moment }
{
    let event = Event::Leave {
        now: tally.moment,
        w: rng.next_u32(),
    };
    let answer = participant.take(&event);
    let was_taken = answer.is_ok();
    tell(link, observer, tally, &event, answer, participant)?;
    if was_taken {
        make_turns(
            link,
            participant,
            rng,
            observer,
            tally,
            ending,
            true,
            turns,
            buf,
        )
    } else {
        Ok(())
    }
}

/// Makes turns, until the participant has left, or the ending ends them.
fn make_turns<L: Link, P: Attendant, R: Rng, O: Observer, E: Ending>(
    link: &mut L,
    participant: &mut P,
    rng: &mut R,
    observer: &mut O,
    tally: &mut Tally,
    ending: &mut E,
    has_left: bool,
    turns: u64,
    buf: &mut [u8],
) -> Result<(), Cause>
    requires row { tally.old.failures < 64 }
    requires room { HasRoom (turns * 5) tally.old (L.value link.old) }
    ensures leads { (made : ℕ) × IsCut (E.known ending.old has_left tally.new.moment) turns made
        × ((run : Run O) (s : SessionState) → IsReader run.reader →
        Holds O.takes run s (keeps_served (L.value link.old) (P.value participant.old)
        (R.stream rng.old) observer.old) tally.old →
        s.stage ≡ resting → s.turns ≡ made → s.leaving ≡ has_left → (left : ℕ) × (pauses : List Pause)
        × ((most before : ℕ) → AreHeeded (E.known ending.old) most before s.pauses →
        AreHeeded (E.known ending.old) most before pauses)
        × Walks O.takes run s (L.value link.old)
        (keeps_served (L.value link.new) (P.value participant.new) (R.stream rng.new) observer.new)
        tally.new (EndsTurns result)
        (turns_with left s.leaving pauses)) }
    ensures row { OnOk result (tally.new.failures < 64) }
    ensures later { tally.old.moment ≤ tally.new.moment }
    ensures room { (more : ℕ) → HasRoom (more + turns * 5) tally.old (L.value link.old) →
        HasRoom more tally.new (L.value link.new) }
    ensures ending { (left : Bool) (at : ℕ) → E.known ending.new left at ≡ E.known ending.old left at }
{
    'turns: for _ in 0..turns {
        if participant.next_tick().is_none() {
            return Ok(());
        }
        if ending.is_over(tally.moment, has_left) {
            return Ok(());
        }
        turn(link, participant, rng, observer, tally, buf)?;
    }
    Ok(())
}

/// Makes a turn: listens to both ports, and asks the participant what is due.
///
/// # Errors
///
/// [`Cause::LinkDown`] where the 64th receive in a row failed, and [`Cause::Limit`] where the participant met a
/// limit.
fn turn<L: Link, P: Attendant, R: Rng, O: Observer>(
    link: &mut L,
    participant: &mut P,
    rng: &mut R,
    observer: &mut O,
    tally: &mut Tally,
    buf: &mut [u8],
) -> Result<(), Cause>
    requires row { tally.old.failures < 64 }
    requires room { HasRoom 5 tally.old (L.value link.old) }
    ensures leads { (run : Run O) (left : ℕ) (s : SessionState) → IsReader run.reader →
        Holds O.takes run s (keeps_served (L.value link.old) (P.value participant.old)
        (R.stream rng.old) observer.old) tally.old →
        HasTurn left s → Walks O.takes run s (L.value link.old)
        (keeps_served (L.value link.new) (P.value participant.new) (R.stream rng.new) observer.new)
        tally.new (Reaches resting result)
        (turns_with left s.leaving (pause s.leaving s.tally.moment false ∷ s.pauses)) }
    ensures row { OnOk result (tally.new.failures < 64) }
    ensures later { tally.old.moment ≤ tally.new.moment }
    ensures room { (more : ℕ) → HasRoom (more + 5) tally.old (L.value link.old) →
        HasRoom more tally.new (L.value link.new) }
{
    read_clock(link, tally);
    hear(Port::Rtcp, link, participant, rng, observer, tally, buf)?;
    hear(Port::Rtp, link, participant, rng, observer, tally, buf)?;
    tick(link, participant, rng, observer, tally)
}

/// Listens to a port, and tells the participant what came, with a random word. Sends the BYE of an SSRC that it gives
/// up for that.
fn hear<L: Link, P: Attendant, R: Rng, O: Observer>(
    port: Port,
    link: &mut L,
    participant: &mut P,
    rng: &mut R,
    observer: &mut O,
    tally: &mut Tally,
    buf: &mut [u8],
) -> Result<(), Cause>
    requires row { tally.old.failures < 64 }
    requires room { HasRoom 2 tally.old (L.value link.old) }
    ensures leads { (run : Run O) (s : SessionState) → IsReader run.reader →
        Holds O.takes run s (keeps_served (L.value link.old) (P.value participant.old)
        (R.stream rng.old) observer.old) tally.old →
        s.stage ≡ hearing port → Walks O.takes run s (L.value link.old)
        (keeps_served (L.value link.new) (P.value participant.new) (R.stream rng.new) observer.new)
        tally.new (Reaches (after_port port) result) (turns_of s) }
    ensures row { OnOk result (tally.new.failures < 64) }
    ensures later { tally.old.moment ≤ tally.new.moment }
    ensures room { (more : ℕ) → HasRoom (more + 2) tally.old (L.value link.old) →
        HasRoom more tally.new (L.value link.new) }
{
    match link.recv(port, buf, WAIT) {
        Received::Got(count, peer) => {
            tally.datagram();
            let (octets, _) = buf.split_at(count);
            let event = arrival(port, tally.moment, peer, rng.next_u32(), octets);
            let answer = participant.take(&event);
            tally.arrival(&answer);
            tell(link, observer, tally, &event, answer, participant)
        }
        Received::Nothing => {
            tally.silence();
            Ok(())
        }
        Received::Failed => tally.failed_receive(),
    }
}

/// The event of a datagram that came to a port.
fn arrival(port: Port, now: u64, peer: u64, w: u32, bytes: &[u8]) -> Event<'_>
    ensures { event_value result ≡ event_at port now peer w bytes.now }
{
    match port {
        Port::Rtcp => Event::ArriveRtcp {
            now,
            peer,
            w,
            bytes,
        },
        Port::Rtp => Event::ArriveRtp {
            now,
            peer,
            w,
            bytes,
        },
    }
}

/// Reads the clock, and asks the participant at the greatest moment so far, with two words, what is due.
fn tick<L: Link, P: Attendant, R: Rng, O: Observer>(
    link: &mut L,
    participant: &mut P,
    rng: &mut R,
    observer: &mut O,
    tally: &mut Tally,
) -> Result<(), Cause>
    requires room { HasRoom 1 tally.old (L.value link.old) }
    ensures leads { (run : Run O) (s : SessionState) →
        Holds O.takes run s (keeps_served (L.value link.old) (P.value participant.old)
        (R.stream rng.old) observer.old) tally.old →
        s.stage ≡ deciding → Walks O.takes run s (L.value link.old)
        (keeps_served (L.value link.new) (P.value participant.new) (R.stream rng.new) observer.new)
        tally.new (Reaches resting result) (turns_of s) }
    ensures row { tally.new.failures ≡ tally.old.failures }
    ensures later { tally.old.moment ≤ tally.new.moment }
    ensures room { (more : ℕ) → HasRoom (more + 1) tally.old (L.value link.old) →
        HasRoom more tally.new (L.value link.new) }
{
    read_clock(link, tally);
    let event = Event::Tick {
        now: tally.moment,
        w1: rng.next_u32(),
        w2: rng.next_u32(),
    };
    let answer = participant.take(&event);
    tell(link, observer, tally, &event, answer, participant)
}

/// Tells the observer of an event with its answer, and then sends the compound of the answer, if there is one.
///
/// # Errors
///
/// [`Cause::Limit`] where the participant met a limit.
fn tell<L: Link, P: Attendant, O: Observer>(
    link: &mut L,
    observer: &mut O,
    tally: &mut Tally,
    event: &Event<'_>,
    answer: GuardedAnswer,
    participant: &P,
) -> Result<(), Cause>
    requires room { HasRoom 1 tally.old (L.value link.old) }
    ensures leads { (run : Run O) (next refused : Stage) (kept : ServedValue) (words : Stream) (s : SessionState) →
        ((after : O) →
        O.takes (event_told (telling (event_value event.now) (guarded_value answer))) observer.old after →
        Holds O.takes run s (keeps_served (L.value link.old) kept words after) tally.old) →
        s.stage ≡ stage_to_send next refused (guarded_value answer) → Walks O.takes run s
        (L.value link.old) (keeps_served (L.value link.new) kept words observer.new) tally.new
        (Reaches (led_to next refused (guarded_value answer)) result) (turns_of s) }
    ensures row { tally.new.failures ≡ tally.old.failures }
    ensures later { tally.old.moment ≤ tally.new.moment }
    ensures room { (more : ℕ) → HasRoom (more + 1) tally.old (L.value link.old) →
        HasRoom more tally.new (L.value link.new) }
{
    observer.told(event, &answer, participant.participant());
    hand_over(link, observer, tally, answer)
}

/// Sends the compound that an answer hands out, if there is one, and tells the observer whether that failed.
fn hand_over<L: Link, O: Observer>(
    link: &mut L,
    observer: &mut O,
    tally: &mut Tally,
    answer: GuardedAnswer,
) -> Result<(), Cause>
    requires room { HasRoom 1 tally.old (L.value link.old) }
    ensures leads { (run : Run O) (next refused : Stage) (kept : ServedValue) (words : Stream) (s : SessionState) →
        Holds O.takes run s (keeps_served (L.value link.old) kept words observer.old) tally.old →
        s.stage ≡ stage_to_send next refused (guarded_value answer) → Walks O.takes run s
        (L.value link.old) (keeps_served (L.value link.new) kept words observer.new) tally.new
        (Reaches (led_to next refused (guarded_value answer)) result) (turns_of s) }
    ensures row { tally.new.failures ≡ tally.old.failures }
    ensures later { tally.old.moment ≤ tally.new.moment }
    ensures room { (more : ℕ) → HasRoom (more + 1) tally.old (L.value link.old) →
        HasRoom more tally.new (L.value link.new) }
{
    match answer {
        Ok(step) => {
            let changed = step.changed;
            match step.out {
                Some(out) => {
                    let sent = link.send(out.bytes.as_slice());
                    let failed = sent.is_err();
                    tally.send(out.kind, changed, failed);
                    observer.sent(failed);
                }
                None => {}
            }
            Ok(())
        }
        Err(untaken) if ends_session(untaken) => Err(Cause::Limit),
        Err(_) => Ok(()),
    }
}

/// Reads the clock.
fn read_clock<L: Link>(link: &mut L, tally: &mut Tally)
    ensures called { (moment : ℕ) × WereCalled (clock_read moment ∷ []) (L.value link.old) (L.value link.new)
        × (tally.new ≡ with_moment moment tally.old) }
    ensures later { tally.old.moment ≤ tally.new.moment }
    ensures room { (more : ℕ) → HasRoom more tally.old (L.value link.old) →
        HasRoom more tally.new (L.value link.new) }
{
    tally.clock(link.now());
}
