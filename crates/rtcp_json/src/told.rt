//! What a participant on a link was told, with its answer.

ghost use Rattle.std.specs.Prelude.{◌≡◌, ◌++◌, ℕ, List, OnOk, codes, option_copied};
ghost use Rattle.std.specs.Net.Text.{socket_v4_text};
ghost use Rattle.json.specs.Json.{Json};
ghost use Rattle.rtcp_engine.specs.state.Views.{event_value};
ghost use Rattle.rtcp_guarded.specs.Views.{guarded_value};
ghost use Rattle.rtcp_json.specs.Adding.{AddsField, AddsJson};
ghost use Rattle.rtcp_json.specs.JsonValues.{json_line, optional_json};
ghost use Rattle.rtcp_json.specs.ToldValues.{IsShownIfSome, TellsInJson, datagram_of_event, event_text, is_shown as shown, moment_of_event, peer_json, peer_of_event, peer_text, says_something as says, told_json, unsent_json};

use crate::answers::write_guarded_answer;
use crate::fields::{write_long_number, write_name, write_null};
use crate::lines::{begin_line, end_line};
use crate::packets::write_reading;
use json::Writer;
use rtcp_engine::Event;
use rtcp_guarded::GuardedAnswer;
use std::alloc::{AllocError, Global};
use std::net::{Ipv4Addr, SocketAddrV4};

/// Appends the line of an event that a participant on a link was told, and of its answer. Each RTCP datagram has one,
/// taken or not. Any other event has one where the answer refuses it or holds it back, has a compound to send, changes
/// the participant's SSRC, or tells that others changed their roles.
///
/// # Errors
///
/// `AllocError` where memory is refused. It is then left open how much of the text was appended.
pub fn push_told_json(
    out: &mut Vec<u8>,
    event: &Event<'_>,
    answer: &GuardedAnswer,
) -> Result<(), AllocError>
    ensures { OnOk result ((text : List ℕ) × TellsInJson (event_value event.now) (guarded_value answer.now) text
        × (out.new.items ≡ out.old.items ++ text)) }
{
    if !is_shown(event, answer) {
        return Ok(());
    }
    let alloc = *out.allocator();
    let mut writer = begin_line(alloc, out);
    let written = write_told(&mut writer, alloc, event, answer);
    end_line(out, writer, written)
}

/// Appends the line of a compound that the link did not send, after an event of this moment.
///
/// # Errors
///
/// As of [`push_told_json`].
pub(crate) fn push_unsent_json(out: &mut Vec<u8>, moment: u64) -> Result<(), AllocError>
    ensures { OnOk result (out.new.items ≡ out.old.items ++ json_line (unsent_json moment)) }
{
    let alloc = *out.allocator();
    let mut writer = begin_line(alloc, out);
    let written = write_unsent(&mut writer, moment);
    end_line(out, writer, written)
}

/// Whether an event and its answer have a line.
fn is_shown(event: &Event<'_>, answer: &GuardedAnswer) -> bool
    ensures { result ≡ shown (event_value event.now) (guarded_value answer.now) }
{
    datagram_of(event).is_some() || says_something(answer)
}

/// Whether an answer tells more than who is there and when to ask again.
fn says_something(answer: &GuardedAnswer) -> bool
    ensures { result ≡ says (guarded_value answer.now) }
{
    match answer {
        Ok(step) => step.out.is_some() || step.changed.is_some() || step.others_changed,
        Err(_) => true,
    }
}

/// Writes an event and its answer.
fn write_told(
    writer: &mut Writer,
    alloc: Global,
    event: &Event<'_>,
    answer: &GuardedAnswer,
) -> Result<(), AllocError>
    ensures { OnOk result ((datagram : Json) × IsShownIfSome (datagram_of_event (event_value event.now)) datagram
        × AddsJson writer.old writer.new (told_json (event_value event.now) datagram (guarded_value answer.now))) }
{
    writer.begin_object()?;
    write_long_number(writer, "moment", moment_of(event))?;
    write_name(writer, "event", event_name(event))?;
    write_peer(writer, alloc, peer_of(event))?;
    writer.key("datagram")?;
    write_datagram(writer, alloc, datagram_of(event))?;
    writer.key("answer")?;
    write_guarded_answer(writer, alloc, answer)?;
    writer.end_object()?;
    Ok(())
}

/// Writes that a compound was not sent.
fn write_unsent(writer: &mut Writer, moment: u64) -> Result<(), AllocError>
    ensures { OnOk result (AddsJson writer.old writer.new (unsent_json moment)) }
{
    writer.begin_object()?;
    write_long_number(writer, "moment", moment)?;
    write_name(writer, "event", "unsent")?;
    write_null(writer, "peer")?;
    write_null(writer, "datagram")?;
    write_null(writer, "answer")?;
    writer.end_object()?;
    Ok(())
}

/// Writes the peer from which a datagram came, if one came.
fn write_peer(writer: &mut Writer, alloc: Global, peer: Option<u64>) -> Result<(), AllocError>
    ensures { OnOk result (AddsField writer.old writer.new (codes "peer") (optional_json peer_json peer)) }
{
    match peer {
        Some(peer) => {
            let endpoint = endpoint_of(peer);
            let text = format!(in alloc; "{endpoint}")?;
            write_name(writer, "peer", &text)
        }
        None => write_null(writer, "peer"),
    }
}

/// Writes what a datagram says, if there is one.
fn write_datagram(
    writer: &mut Writer,
    alloc: Global,
    octets: Option<&[u8]>,
) -> Result<(), AllocError>
    ensures { OnOk result ((datagram : Json) × IsShownIfSome (option_copied octets.entry) datagram
        × AddsJson writer.old writer.new datagram) }
{
    match octets {
        Some(octets) => write_reading(writer, alloc, octets),
        None => {
            writer.null()?;
            Ok(())
        }
    }
}

/// The word for an event in the lines that a replay reads.
fn event_name(event: &Event<'_>) -> &'static str
    ensures { result.now ≡ event_text (event_value event.now) }
{
    match event {
        Event::ArriveRtcp { .. } => "rtcp",
        Event::ArriveRtp { .. } => "rtp",
        Event::SentRtp { .. } => "sent",
        Event::Tick { .. } => "tick",
        Event::Leave { .. } => "leave",
        Event::Configure { .. } => "configure",
        Event::Forget { .. } => "forget",
    }
}

/// The moment of an event.
pub(crate) fn moment_of(event: &Event<'_>) -> u64
    ensures { result ≡ moment_of_event (event_value event.now) }
{
    match event {
        Event::ArriveRtcp { now, .. }
        | Event::ArriveRtp { now, .. }
        | Event::SentRtp { now, .. }
        | Event::Tick { now, .. }
        | Event::Leave { now, .. }
        | Event::Configure { now, .. }
        | Event::Forget { now, .. } => *now,
    }
}

/// The number of the peer from which a datagram came.
fn peer_of(event: &Event<'_>) -> Option<u64>
    ensures { result ≡ peer_of_event (event_value event.now) }
{
    match event {
        Event::ArriveRtcp { peer, .. } | Event::ArriveRtp { peer, .. } => Some(*peer),
        Event::SentRtp { .. }
        | Event::Tick { .. }
        | Event::Leave { .. }
        | Event::Configure { .. }
        | Event::Forget { .. } => None,
    }
}

/// The octets of the RTCP datagram that an event brought.
fn datagram_of<'a>(event: &Event<'a>) -> Option<&'a [u8]>
    ensures { option_copied result ≡ datagram_of_event (event_value event.now) }
{
    match event {
        Event::ArriveRtcp { bytes, .. } => Some(bytes),
        Event::ArriveRtp { .. }
        | Event::SentRtp { .. }
        | Event::Tick { .. }
        | Event::Leave { .. }
        | Event::Configure { .. }
        | Event::Forget { .. } => None,
    }
}

/// The address and the port that have this number ([`endpoint_number`](rtcp_serve::endpoint_number)).
fn endpoint_of(peer: u64) -> SocketAddrV4
    ensures { socket_v4_text result ≡ peer_text peer }
{
    let first = (peer / (1 << 40) % 256) as u8;
    let second = (peer / (1 << 32) % 256) as u8;
    let third = (peer / (1 << 24) % 256) as u8;
    let fourth = (peer / (1 << 16) % 256) as u8;
    let address = Ipv4Addr::new(first, second, third, fourth);
    SocketAddrV4::new(address, (peer % (1 << 16)) as u16)
}
