//! The line of an event, as `rtcp replay` reads it.

ghost use Rattle.std.specs.Prelude.{◌≡◌, ◌++◌, ◌∷◌, [], OnOk, codes};
ghost use Rattle.std.specs.Fmt.{decimal};
ghost use Rattle.rtcp_engine.specs.state.Views.{event_value};
ghost use Rattle.rtcp_text.specs.EventLines.{arrival_fields, datagram_text, event_text, spaced};

use super::digits::{push_decimal, push_octets, push_word};
use super::settings::push_settings;
use rtcp_engine::Event;
use std::alloc::AllocError;

/// Appends the line of an event, with its line feed. [`read_event`](crate::event_line::read_event) reads the line as
/// the same event.
///
/// # Errors
///
/// `AllocError` where memory is refused.
pub fn push_event(out: &mut Vec<u8>, event: &Event<'_>) -> Result<(), AllocError>
    ensures { OnOk result (out.new.items ≡ out.old.items ++ event_text (event_value event.now) ++ 10 ∷ []) }
{
    push_fields(out, event)?;
    out.push(b'\n')?;
    Ok(())
}

/// Appends the line of an event without its line feed.
fn push_fields(out: &mut Vec<u8>, event: &Event<'_>) -> Result<(), AllocError>
    ensures { OnOk result (out.new.items ≡ out.old.items ++ event_text (event_value event.now)) }
{
    match *event {
        Event::ArriveRtcp {
            now,
            peer,
            w,
            bytes,
        } => {
            out.extend_from_slice(b"rtcp ")?;
            push_arrival(out, now, peer, w, bytes)
        }
        Event::ArriveRtp {
            now,
            peer,
            w,
            bytes,
        } => {
            out.extend_from_slice(b"rtp ")?;
            push_arrival(out, now, peer, w, bytes)
        }
        Event::SentRtp {
            now,
            rtp_ts,
            octets,
        } => {
            push_start(out, b"sent ", now)?;
            push_decimal(out, u64::from(rtp_ts))?;
            out.push(b' ')?;
            push_decimal(out, u64::from(octets))
        }
        Event::Tick { now, w1, w2 } => {
            push_start(out, b"tick ", now)?;
            push_word(out, w1)?;
            out.push(b' ')?;
            push_word(out, w2)
        }
        Event::Leave { now, w } => {
            push_start(out, b"leave ", now)?;
            push_word(out, w)
        }
        Event::Configure { now, settings } => {
            push_start(out, b"configure ", now)?;
            push_settings(out, settings)
        }
        Event::Forget { now, ssrc } => {
            push_start(out, b"forget ", now)?;
            push_word(out, ssrc)
        }
    }
}

/// Appends the name of an event, which ends with a space, its moment and a space.
fn push_start(out: &mut Vec<u8>, name: &[u8], now: u64) -> Result<(), AllocError>
    ensures { OnOk result (out.new.items ≡ out.old.items ++ name.now ++ decimal now ++ codes " ") }
{
    out.extend_from_slice(name)?;
    push_decimal(out, now)?;
    out.push(b' ')?;
    Ok(())
}

/// Appends the fields of an arrival.
fn push_arrival(
    out: &mut Vec<u8>,
    now: u64,
    peer: u64,
    word: u32,
    datagram: &[u8],
) -> Result<(), AllocError>
    ensures { OnOk result (out.new.items ≡ out.old.items ++ spaced (arrival_fields now peer word datagram.now)) }
{
    push_decimal(out, now)?;
    out.push(b' ')?;
    push_decimal(out, peer)?;
    out.push(b' ')?;
    push_word(out, word)?;
    out.push(b' ')?;
    push_datagram(out, datagram)
}

/// Appends a datagram as a field.
fn push_datagram(out: &mut Vec<u8>, datagram: &[u8]) -> Result<(), AllocError>
    ensures { OnOk result (out.new.items ≡ out.old.items ++ datagram_text datagram.now) }
{
    if datagram.is_empty() {
        out.push(b'-')?;
        Ok(())
    } else {
        push_octets(out, datagram)
    }
}
