//! A line of a session, as `rtcp replay` reads it.

ghost use Rattle.std.specs.Prelude.{◌≡◌, ℕ, List, Ok, Err, IfOk, IfErr};
ghost use Rattle.rtcp_engine.specs.answers.Acts.{EventValue, settings_given, settings_value};
ghost use Rattle.rtcp_engine.specs.state.Views.{event_value};
ghost use Rattle.rtcp_text.specs.EventLines.{arrival, configuring, event_in, fields_left, forgetting, kind_named, leave, moment_in, octets_in, seldom_named, sending, tick};
ghost use Rattle.rtcp_text.specs.declared.event_line.EventFault.TheVariants.{Line};
ghost use Rattle.rtcp_text.specs.declared.fault.LineFault.{LineFault as Fault};

use crate::digit_pairs::{DecodeFault, decode};
use crate::fault::LineFault;
use crate::numerals::{read_decimal, read_long, read_short_decimal, read_word};
use crate::parts::{Parts, split_part};
use crate::settings_fields::{read_clocks, read_items};
use arrayvec::ArrayVec;
use rtcp_engine::{Event, Settings};
use std::alloc::Global;
use thiserror::Error;

/// The fields that are left of a line.
type Fields<'a> = Parts<'a, b' '>;

/// Why a line gives no event.
#[derive(Clone, Copy, Debug, PartialEq, Eq, Error)]
pub enum EventFault {
    /// The line has this fault.
    #[error("{0}")]
    Line(LineFault),
    /// Memory was asked for and refused.
    #[error("memory")]
    Memory,
}

impl From<LineFault> for EventFault {
    ghost from_gives = { λ fault gives. gives ≡ Line fault };

    fn from(fault: LineFault) -> EventFault {
        EventFault::Line(fault)
    }
}

/// What an event borrows that a line says, kept from line to line: the octets of its datagram, and settings.
#[derive(Drop)]
pub struct EventBuffers {
    datagram: Vec<u8>,
    settings: Settings,
}

impl EventBuffers {
    /// Buffers without octets and settings.
    pub fn new(alloc: Global) -> EventBuffers {
        EventBuffers {
            datagram: Vec::new(alloc),
            settings: Settings {
                sender_bw: 0,
                receiver_bw: 0,
                rate: 0,
                clocks: ArrayVec::new(),
                ntp_base: 0,
                extras: ArrayVec::new(),
            },
        }
    }
}

/// The event that a line says. What it borrows goes into `buffers`.
///
/// # Errors
///
/// - [`EventFault::Line`] where the line has a fault: the first one.
/// - [`EventFault::Memory`] where memory is refused.
///
/// After an error it is left open what the buffers hold.
pub fn read_event<'a>(line: &[u8], buffers: &'a mut EventBuffers) -> Result<Event<'a>, EventFault>
    ensures event { IfOk result (λ event. event_in line.now ≡ Ok (event_value event)) }
    ensures fault { (fault : Fault) → result ≡ Err (Line fault) → event_in line.now ≡ Err fault }
{
    let (name, rest) = split_part::<b' '>(line);
    let fields = Fields { rest };
    match kind_of(name).ok_or(LineFault::Words)? {
        LineKind::Rtcp => {
            let came = read_arrival(fields, &mut buffers.datagram)?;
            Ok(Event::ArriveRtcp {
                now: came.now,
                peer: came.peer,
                w: came.word,
                bytes: came.bytes,
            })
        }
        LineKind::Rtp => {
            let came = read_arrival(fields, &mut buffers.datagram)?;
            Ok(Event::ArriveRtp {
                now: came.now,
                peer: came.peer,
                w: came.word,
                bytes: came.bytes,
            })
        }
        LineKind::Sent => Ok(read_sending(fields)?),
        LineKind::Ticked => Ok(read_tick(fields)?),
        LineKind::Left => Ok(read_leave(fields)?),
        LineKind::Configured => {
            let now = read_configuring(fields, &mut buffers.settings)?;
            Ok(Event::Configure {
                now,
                settings: &buffers.settings,
            })
        }
        LineKind::Forgotten => Ok(read_forgetting(fields)?),
    }
}

/// What a line says that happened.
#[derive(Clone, Copy, Debug, PartialEq, Eq)]
enum LineKind {
    /// An RTCP datagram came.
    Rtcp,
    /// An RTP datagram came.
    Rtp,
    /// The host sent an RTP packet.
    Sent,
    /// Time passed.
    Ticked,
    /// The participant is to leave.
    Left,
    /// The host gave other settings.
    Configured,
    /// A source is gone.
    Forgotten,
}

/// What the first field of a line names.
fn kind_of(name: &[u8]) -> Option<LineKind>
    ensures { result ≡ kind_named name.now }
{
    match name {
        b"rtcp" => Some(LineKind::Rtcp),
        b"rtp" => Some(LineKind::Rtp),
        b"sent" => Some(LineKind::Sent),
        b"tick" => Some(LineKind::Ticked),
        b"leave" => Some(LineKind::Left),
        _ => seldom_kind_of(name),
    }
}

/// What the first field of a line names, of what a host seldom tells.
fn seldom_kind_of(name: &[u8]) -> Option<LineKind>
    ensures { result ≡ seldom_named name.now }
{
    if name == b"configure".as_slice() {
        Some(LineKind::Configured)
    } else if name == b"forget".as_slice() {
        Some(LineKind::Forgotten)
    } else {
        None
    }
}

/// A datagram that came.
#[derive(Clone, Copy, Debug)]
struct Came<'a> {
    /// When, in microseconds since the session began.
    now: u64,
    /// A number for where it came from.
    peer: u64,
    /// A random word, for a new SSRC.
    word: u32,
    bytes: &'a [u8],
}

/// The datagram that a line says came.
fn read_arrival<'a>(
    mut fields: Fields<'_>,
    datagram: &'a mut Vec<u8>,
) -> Result<Came<'a>, EventFault>
    ensures arrival { IfOk result (λ came. (arrived : (moment peer word : ℕ) → List ℕ → EventValue) →
        arrival arrived (fields_left fields.entry.rest) ≡ Ok (arrived came.now came.peer came.word came.bytes.now)) }
    ensures fault { (fault : Fault) → result ≡ Err (Line fault) →
        (arrived : (moment peer word : ℕ) → List ℕ → EventValue) →
        arrival arrived (fields_left fields.entry.rest) ≡ Err fault }
{
    let (Some(moment), Some(peer), Some(word), Some(octets), None) = (
        fields.next(),
        fields.next(),
        fields.next(),
        fields.next(),
        fields.next(),
    ) else {
        return Err(EventFault::Line(LineFault::Words));
    };
    let now = read_moment(moment)?;
    let peer = read_decimal(peer).ok_or(LineFault::Number)?;
    let word = read_word(word).ok_or(LineFault::Hex)?;
    let bytes = read_octets(octets, datagram)?;
    Ok(Came {
        now,
        peer,
        word,
        bytes,
    })
}

/// The event of a packet that the host sent.
fn read_sending(mut fields: Fields<'_>) -> Result<Event<'static>, LineFault>
    ensures event { IfOk result (λ event. sending (fields_left fields.entry.rest) ≡ Ok (event_value event)) }
    ensures fault { IfErr result (λ fault. sending (fields_left fields.entry.rest) ≡ Err fault) }
{
    let (Some(moment), Some(timestamp), Some(octets), None) = (
        fields.next(),
        fields.next(),
        fields.next(),
        fields.next(),
    ) else {
        return Err(LineFault::Words);
    };
    Ok(Event::SentRtp {
        now: read_moment(moment)?,
        rtp_ts: read_short_decimal(timestamp).ok_or(LineFault::Number)?,
        octets: read_short_decimal(octets).ok_or(LineFault::Number)?,
    })
}

/// The event of a tick.
fn read_tick(mut fields: Fields<'_>) -> Result<Event<'static>, LineFault>
    ensures event { IfOk result (λ event. tick (fields_left fields.entry.rest) ≡ Ok (event_value event)) }
    ensures fault { IfErr result (λ fault. tick (fields_left fields.entry.rest) ≡ Err fault) }
{
    let (Some(moment), Some(first), Some(second), None) = (
        fields.next(),
        fields.next(),
        fields.next(),
        fields.next(),
    ) else {
        return Err(LineFault::Words);
    };
    Ok(Event::Tick {
        now: read_moment(moment)?,
        w1: read_word(first).ok_or(LineFault::Hex)?,
        w2: read_word(second).ok_or(LineFault::Hex)?,
    })
}

/// The event of a leave.
fn read_leave(mut fields: Fields<'_>) -> Result<Event<'static>, LineFault>
    ensures event { IfOk result (λ event. leave (fields_left fields.entry.rest) ≡ Ok (event_value event)) }
    ensures fault { IfErr result (λ fault. leave (fields_left fields.entry.rest) ≡ Err fault) }
{
    let (Some(moment), Some(word), None) = (fields.next(), fields.next(), fields.next()) else {
        return Err(LineFault::Words);
    };
    Ok(Event::Leave {
        now: read_moment(moment)?,
        w: read_word(word).ok_or(LineFault::Hex)?,
    })
}

/// The moment of a line that gives settings, which go into `settings`.
// Out of line: no other line makes room for settings.
#[cold]
#[inline(never)]
fn read_configuring(mut fields: Fields<'_>, settings: &mut Settings) -> Result<u64, LineFault>
    ensures given { IfOk result (λ now. configuring (fields_left fields.entry.rest)
        ≡ Ok (settings_given now (settings_value settings.new))) }
    ensures fault { IfErr result (λ fault. configuring (fields_left fields.entry.rest) ≡ Err fault) }
{
    let (
        Some(moment),
        Some(senders),
        Some(others),
        Some(clocks),
        Some(items),
        Some(rate),
        Some(ntp),
        None,
    ) = (
        fields.next(),
        fields.next(),
        fields.next(),
        fields.next(),
        fields.next(),
        fields.next(),
        fields.next(),
        fields.next(),
    ) else {
        return Err(LineFault::Words);
    };
    let now = read_moment(moment)?;
    *settings = Settings {
        sender_bw: read_short_decimal(senders).ok_or(LineFault::Number)?,
        receiver_bw: read_short_decimal(others).ok_or(LineFault::Number)?,
        clocks: read_clocks(clocks).ok_or(LineFault::Number)?,
        extras: read_items(items).ok_or(LineFault::Hex)?,
        rate: read_short_decimal(rate).ok_or(LineFault::Number)?,
        ntp_base: read_long(ntp).ok_or(LineFault::Hex)?,
    };
    Ok(now)
}

/// The event of a source that is gone.
fn read_forgetting(mut fields: Fields<'_>) -> Result<Event<'static>, LineFault>
    ensures event { IfOk result (λ event. forgetting (fields_left fields.entry.rest) ≡ Ok (event_value event)) }
    ensures fault { IfErr result (λ fault. forgetting (fields_left fields.entry.rest) ≡ Err fault) }
{
    let (Some(moment), Some(ssrc), None) = (fields.next(), fields.next(), fields.next()) else {
        return Err(LineFault::Words);
    };
    Ok(Event::Forget {
        now: read_moment(moment)?,
        ssrc: read_word(ssrc).ok_or(LineFault::Hex)?,
    })
}

fn read_moment(field: &[u8]) -> Result<u64, LineFault>
    ensures { result ≡ moment_in field.now }
{
    read_decimal(field).ok_or(LineFault::Number)
}

/// The octets that a field says, in a buffer that is kept from line to line.
fn read_octets<'a>(field: &[u8], datagram: &'a mut Vec<u8>) -> Result<&'a [u8], EventFault>
    ensures octets { IfOk result (λ octets. octets_in field.now ≡ Ok octets.now) }
    ensures fault { (fault : Fault) → result ≡ Err (Line fault) → octets_in field.now ≡ Err fault }
{
    match field {
        b"-" => Ok(&[]),
        b"" => Err(EventFault::Line(LineFault::Hex)),
        _ => match decode(field, datagram) {
            Ok(()) => Ok(datagram.as_slice()),
            Err(DecodeFault::NotHex) => Err(EventFault::Line(LineFault::Hex)),
            Err(DecodeFault::Memory) => Err(EventFault::Memory),
        },
    }
}
