//! The lines of an event and its answer.

ghost use Rattle.std.specs.Prelude.{◌≡◌, ◌++◌, ◌∷◌, [], List, ℕ, IfSome, OnOk, if◌then◌else◌, option_map, unwrap_or};
ghost use Rattle.rtcp_wire.specs.Grammar.{IsAccepted};
ghost use Rattle.rtcp_wire.specs.Values.{RtcpPacket};
ghost use Rattle.rtcp_engine.specs.state.Views.{event_value, out_value, step_value};
ghost use Rattle.rtcp_guarded.specs.Views.{guarded_value};
ghost use Rattle.rtcp_text.specs.Check.{IsAnswerBy};
ghost use Rattle.rtcp_show.specs.Silences.{silence_text};
ghost use Rattle.rtcp_show.specs.Times.{told_by, when_text};
ghost use Rattle.rtcp_show.specs.Wordings.{shown_in};
ghost use Rattle.rtcp_show.specs.Lines.{ArePackets, HasPackets, ReadsAs, ShowsAnswer, ShowsBoth, ShowsBothBy, ShowsEvent, ShowsOut, ShowsRtcp, changed_text, moment_of_event as moment_in, passing_text, rtp_text, told_text, unsent_text};

use crate::numbers::push_peer;
use crate::times::{Clock, When, push_when};
use crate::wording::{Wording, push_compound, push_octets};
use rtcp_engine::{Event, Out};
use rtcp_guarded::GuardedAnswer;
use rtcp_guarded_text::text::push_untaken;
use rtcp_text::text::digits::push_word;
use rtcp_wire::Compound;
use std::alloc::AllocError;

/// Appends the lines of an event and its answer. `to` is the number of the peer to which compounds go.
///
/// - `0.250000 in 127.0.0.1:5007 ok RR(00000007,[],0)`: an RTCP datagram came, at this moment in seconds, from this
///   peer. The rest is what `rtcp check` says of it, or `refused` and why, as `rtcp replay` says it.
/// - `0.250000 rtp 127.0.0.1:5006 refused E6 Rtp: G1 Short`: an RTP datagram was refused, or held back. Those that are
///   taken are not shown.
/// - `0.250000 refused E3 TooFar`: something else was refused, as a tick.
/// - `0.250000 ssrc=00000007`: the participant changed its SSRC to this one.
/// - `0.250000 out 127.0.0.1:5007 ok RR(000000aa,[],0)`: a compound went out.
///
/// # Errors
///
/// `AllocError` where memory is refused. It is then left open how much of the text was appended.
pub fn push_lines(
    out: &mut Vec<u8>,
    to: u64,
    event: &Event<'_>,
    answer: &GuardedAnswer,
) -> Result<(), AllocError>
    ensures { OnOk result ((text : List ℕ) × ShowsBoth to (event_value event.now) (guarded_value answer.now) text
        × (out.new.items ≡ out.old.items ++ text)) }
{
    push_read_lines(
        out,
        Clock::Session,
        Wording::Brief,
        to,
        event,
        answer,
        &None,
    )
}

/// The same by a clock and in a wording, with the compound of the datagram where it is read already.
pub(crate) fn push_read_lines(
    out: &mut Vec<u8>,
    clock: Clock,
    wording: Wording,
    to: u64,
    event: &Event<'_>,
    answer: &GuardedAnswer,
    compound: &Option<Compound<'_>>,
) -> Result<(), AllocError>
    requires { IfSome compound.now (ReadsAs (event_value event.now)) }
    ensures { OnOk result ((text : List ℕ)
        × ShowsBothBy (told_by clock) (shown_in wording) to (event_value event.now) (guarded_value answer.now) text
        × (out.new.items ≡ out.old.items ++ text)) }
{
    push_event(out, clock, wording, event, answer, compound)?;
    let when = When {
        clock,
        moment: moment_of(event),
    };
    push_answered(out, wording, when, to, answer)
}

/// The compound of an event, where it brought a datagram that was taken.
pub(crate) fn compound_of<'a>(event: &Event<'a>, answer: &GuardedAnswer) -> Option<Compound<'a>>
    ensures read { IfSome result (ReadsAs (event_value event.now)) }
    ensures packets { (packets : List RtcpPacket) →
        HasPackets (event_value event.now) (guarded_value answer.now) packets → unwrap_or result [] ≡ packets }
{
    match event {
        Event::ArriveRtcp { bytes, .. } => compound_in(bytes, answer),
        Event::ArriveRtp { .. }
        | Event::SentRtp { .. }
        | Event::Tick { .. }
        | Event::Leave { .. }
        | Event::Configure { .. }
        | Event::Forget { .. } => None,
    }
}

/// The compound of a datagram, where it was taken.
fn compound_in<'a>(bytes: &'a [u8], answer: &GuardedAnswer) -> Option<Compound<'a>>
    ensures read { IfSome result (IsAccepted bytes.now) }
    ensures packets { (packets : List RtcpPacket) → ArePackets bytes.now (guarded_value answer.now) packets →
        unwrap_or result [] ≡ packets }
{
    match answer {
        Ok(_) => match Compound::read(bytes) {
            Ok(compound) => Some(compound),
            Err(_) => None,
        },
        Err(_) => None,
    }
}

/// The moment of an event.
pub(crate) fn moment_of(event: &Event<'_>) -> u64
    ensures { result ≡ moment_in (event_value event.now) }
{
    match event {
        Event::ArriveRtcp { now, .. }
        | Event::ArriveRtp { now, .. }
        | Event::SentRtp { now, .. }
        | Event::Tick { now, .. }
        | Event::Leave { now, .. }
        | Event::Configure { now, .. }
        | Event::Forget { now, .. } => *now,
    }
}

/// Appends what is shown of an event.
fn push_event(
    out: &mut Vec<u8>,
    clock: Clock,
    wording: Wording,
    event: &Event<'_>,
    answer: &GuardedAnswer,
    compound: &Option<Compound<'_>>,
) -> Result<(), AllocError>
    requires { IfSome compound.now (ReadsAs (event_value event.now)) }
    ensures { OnOk result ((text : List ℕ)
        × ShowsEvent (told_by clock) (shown_in wording) (event_value event.now) (guarded_value answer.now) text
        × (out.new.items ≡ out.old.items ++ text)) }
{
    let when = When {
        clock,
        moment: moment_of(event),
    };
    match event {
        Event::ArriveRtcp { peer, bytes, .. } => {
            push_rtcp(out, wording, when, *peer, bytes, answer, compound)
        }
        Event::ArriveRtp { peer, .. } => push_rtp(out, when, *peer, answer),
        Event::SentRtp { .. }
        | Event::Tick { .. }
        | Event::Leave { .. }
        | Event::Configure { .. }
        | Event::Forget { .. } => push_told(out, when, answer),
    }
}

/// Appends the line of an RTCP datagram.
fn push_rtcp(
    out: &mut Vec<u8>,
    wording: Wording,
    when: When,
    peer: u64,
    bytes: &[u8],
    answer: &GuardedAnswer,
    compound: &Option<Compound<'_>>,
) -> Result<(), AllocError>
    requires { IfSome compound.now (IsAccepted bytes.now) }
    ensures { OnOk result ((text : List ℕ)
        × ShowsRtcp (shown_in wording) (when_text when) peer bytes.now (guarded_value answer.now) text
        × (out.new.items ≡ out.old.items ++ text)) }
{
    push_passing(out, when, b" in ", peer)?;
    match answer {
        Ok(_) => push_datagram(out, wording, bytes, compound),
        Err(untaken) => push_untaken(out, untaken),
    }
}

/// Appends the text of `check` of a datagram, by its compound where it is read already.
fn push_datagram(
    out: &mut Vec<u8>,
    wording: Wording,
    bytes: &[u8],
    compound: &Option<Compound<'_>>,
) -> Result<(), AllocError>
    requires { IfSome compound.now (IsAccepted bytes.now) }
    ensures { OnOk result ((text : List ℕ) × IsAnswerBy (shown_in wording) bytes.now text
        × (out.new.items ≡ out.old.items ++ text)) }
{
    match compound {
        Some(compound) => push_compound(out, compound, wording),
        None => push_octets(out, bytes, wording),
    }
}

/// Appends the line of an RTP datagram, where it was refused.
fn push_rtp(
    out: &mut Vec<u8>,
    when: When,
    peer: u64,
    answer: &GuardedAnswer,
) -> Result<(), AllocError>
    ensures { OnOk result (out.new.items ≡ out.old.items ++ rtp_text (when_text when) peer (guarded_value answer.now)) }
{
    match answer {
        Ok(_) => Ok(()),
        Err(untaken) => {
            push_passing(out, when, b" rtp ", peer)?;
            push_untaken(out, untaken)
        }
    }
}

/// Appends the line of another call, where it was refused.
fn push_told(out: &mut Vec<u8>, when: When, answer: &GuardedAnswer) -> Result<(), AllocError>
    ensures { OnOk result (out.new.items ≡ out.old.items ++ told_text (when_text when) (guarded_value answer.now)) }
{
    match answer {
        Ok(_) => Ok(()),
        Err(untaken) => {
            push_when(out, when)?;
            out.push(b' ')?;
            push_untaken(out, untaken)
        }
    }
}

/// Appends what is shown of an answer.
fn push_answered(
    out: &mut Vec<u8>,
    wording: Wording,
    when: When,
    to: u64,
    answer: &GuardedAnswer,
) -> Result<(), AllocError>
    ensures { OnOk result ((text : List ℕ)
        × ShowsAnswer (shown_in wording) (when_text when) to (guarded_value answer.now) text
        × (out.new.items ≡ out.old.items ++ text)) }
{
    match answer {
        Ok(step) => {
            push_changed(out, when, step.changed)?;
            push_out(out, wording, when, to, &step.out)
        }
        Err(_) => Ok(()),
    }
}

/// Appends the line of a change of the SSRC, where there is one.
fn push_changed(out: &mut Vec<u8>, when: When, changed: Option<u32>) -> Result<(), AllocError>
    ensures { OnOk result (out.new.items ≡ out.old.items ++ changed_text (when_text when) changed) }
{
    let Some(ssrc) = changed else {
        return Ok(());
    };
    push_when(out, when)?;
    out.extend_from_slice(b" ssrc=")?;
    push_word(out, ssrc)?;
    out.push(b'\n')?;
    Ok(())
}

/// Appends the line of a compound that goes out, where there is one.
fn push_out(
    out: &mut Vec<u8>,
    wording: Wording,
    when: When,
    to: u64,
    sent: &Option<Out>,
) -> Result<(), AllocError>
    ensures { OnOk result ((text : List ℕ)
        × ShowsOut (shown_in wording) (when_text when) to (option_map out_value sent.now) text
        × (out.new.items ≡ out.old.items ++ text)) }
{
    match sent {
        Some(sent) => {
            push_passing(out, when, b" out ", to)?;
            push_octets(out, &sent.bytes, wording)
        }
        None => Ok(()),
    }
}

/// Appends the line of a compound that was not handed to the network.
pub(crate) fn push_unsent(out: &mut Vec<u8>, when: When, to: u64) -> Result<(), AllocError>
    ensures { OnOk result (out.new.items ≡ out.old.items ++ unsent_text (when_text when) to) }
{
    push_when(out, when)?;
    out.extend_from_slice(b" unsent ")?;
    push_peer(out, to)?;
    out.push(b'\n')?;
    Ok(())
}

/// Appends the line that nothing was heard so far, if that is said.
pub(crate) fn push_silence(out: &mut Vec<u8>, says: bool, when: When) -> Result<(), AllocError>
    ensures { OnOk result (out.new.items ≡ out.old.items ++ (if says then silence_text (when_text when) else [])) }
{
    if says {
        push_words(out, when, b" nothing heard yet")
    } else {
        Ok(())
    }
}

/// Appends a line with a moment and these words.
fn push_words(out: &mut Vec<u8>, when: When, words: &[u8]) -> Result<(), AllocError>
    ensures { OnOk result (out.new.items ≡ out.old.items ++ (when_text when ++ words.now ++ 10 ∷ [])) }
{
    push_when(out, when)?;
    out.extend_from_slice(words)?;
    out.push(b'\n')?;
    Ok(())
}

/// Appends a moment, a word and a peer.
fn push_passing(out: &mut Vec<u8>, when: When, word: &[u8], peer: u64) -> Result<(), AllocError>
    ensures { OnOk result (out.new.items ≡ out.old.items ++ passing_text (when_text when) word.now peer) }
{
    push_when(out, when)?;
    out.extend_from_slice(word)?;
    push_peer(out, peer)?;
    out.push(b' ')?;
    Ok(())
}
