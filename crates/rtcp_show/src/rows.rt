//! The row of a source.

ghost use Rattle.std.specs.Prelude.{◌≡◌, ◌++◌, ◌∷◌, ◌*◌, ◌/◌, [], List, OnOk, max, option_map};
ghost use Rattle.std.specs.Fmt.{decimal};
ghost use Rattle.rtcp_source.specs.Views.{last_block_value, reception_value};
ghost use Rattle.rtcp_members.specs.ListViews.{state_value};
ghost use Rattle.rtcp_members.specs.Listings.{StateValue};
ghost use Rattle.rtcp_engine.specs.answers.Histories.{History, life_at, setup_at};
ghost use Rattle.rtcp_engine.specs.answers.Lives.{WalksInLife, members_in_life, senders_in_life};
ghost use Rattle.rtcp_engine.specs.state.States.{StandsAt};
ghost use Rattle.rtcp_plain.specs.Numbers.{time_text};
ghost use Rattle.rtcp_show.specs.Flows.{flow_in};
ghost use Rattle.rtcp_show.specs.Notes.{note_value, noted_in};
ghost use Rattle.rtcp_show.specs.Numbers.{moment_text};
ghost use Rattle.rtcp_show.specs.Times.{told_by};
ghost use Rattle.rtcp_show.specs.Rows.{cname_text, counts_text, facts_text, flow_text, full_row_text, interval_text, origin_text, tenths_text, sources_text, left_text, reception_text, row_text, standing_text, trip_text};

use crate::by_source::BySource;
use crate::flows::Flow;
use crate::notes::Note;
use crate::numbers::push_peer;
use crate::times::{Clock, When, push_when};
use arrayvec::ArrayVec;
use rtcp_engine::Participant;
use rtcp_members::{MemberTable, SourceState};
use rtcp_plain::numbers::{self, push_fixed, push_quoted};
use rtcp_source::{LastBlock, Reception};
use rtcp_text::text::digits::{push_decimal, push_signed, push_word};
use std::alloc::AllocError;

/// Which rows are written of the sources.
#[derive(Clone, Copy, Debug)]
pub(crate) enum Rows {
    /// A full row of each.
    Full,
    /// Short rows of so many sources at most, the worst ones.
    Short(u32),
}

/// Appends the members, the senders and the rows of all sources.
pub(crate) fn push_sources<T: MemberTable>(
    out: &mut Vec<u8>,
    clock: Clock,
    participant: &Participant<T>,
    notes: &BySource<Note>,
    flows: &BySource<Flow>,
) -> Result<(), AllocError>
    ensures { (history : History) → StandsAt participant.now history →
        OnOk result ((states : List StateValue) × WalksInLife (setup_at history) (life_at history) states
        × (out.new.items ≡ out.old.items ++ sources_text (told_by clock)
        (members_in_life (setup_at history) (life_at history)) (senders_in_life (setup_at history) (life_at history))
        (noted_in notes.now) (flow_in flows.now) states)) }
{
    let standing = participant.standing();
    push_counts(out, standing.members, standing.senders)?;
    for state in participant.sources() {
        push_noted_row(out, clock, &state, notes, flows)?;
    }
    Ok(())
}

/// Appends the members and the senders.
fn push_counts(out: &mut Vec<u8>, members: u32, senders: u32) -> Result<(), AllocError>
    ensures { OnOk result (out.new.items ≡ out.old.items ++ counts_text members senders) }
{
    out.extend_from_slice(b"members=")?;
    push_decimal(out, u64::from(members))?;
    out.extend_from_slice(b" senders=")?;
    push_decimal(out, u64::from(senders))?;
    out.push(b'\n')?;
    Ok(())
}

/// Appends the row of a source, with what is noted of it and how its packets come.
fn push_noted_row(
    out: &mut Vec<u8>,
    clock: Clock,
    state: &SourceState,
    notes: &BySource<Note>,
    flows: &BySource<Flow>,
) -> Result<(), AllocError>
    ensures { OnOk result (out.new.items ≡ out.old.items ++ full_row_text (told_by clock) (state_value state.now)
        (noted_in notes.now state.now.ssrc) (flow_in flows.now state.now.ssrc)) }
{
    push_noted_facts(out, clock, state, notes)?;
    push_flow(out, state, flows.flow(state.ssrc))?;
    out.push(b'\n')?;
    Ok(())
}

/// Appends what is told and noted of a source.
fn push_noted_facts(
    out: &mut Vec<u8>,
    clock: Clock,
    state: &SourceState,
    notes: &BySource<Note>,
) -> Result<(), AllocError>
    ensures { OnOk result (out.new.items
        ≡ out.old.items ++ facts_text (told_by clock) (state_value state.now) (noted_in notes.now state.now.ssrc)) }
{
    match notes.get(state.ssrc) {
        Some(note) => push_facts(out, clock, state, note),
        None => push_facts(out, clock, state, &Note::new()),
    }
}

/// Appends how the packets of a source come, as the row of a watcher has it after the facts of [`push_row`]:
/// ` total-loss=1.2% interval-loss=0.0% pace=50.0/s peer=127.0.0.1:5004`. Each is left out where it is not known.
///
/// # Errors
///
/// `AllocError` where memory is refused. It is then left open how much of the text was appended.
pub fn push_flow(out: &mut Vec<u8>, state: &SourceState, flow: Flow) -> Result<(), AllocError>
    ensures { OnOk result (out.new.items ≡ out.old.items ++ flow_text (state_value state.now) flow) }
{
    push_tenths(out, b" total-loss=", flow.loss, b"%")?;
    push_interval(out, state.last_block)?;
    push_tenths(out, b" pace=", flow.packet_rate, b"/s")?;
    push_origin(out, flow.rtp_peer, flow.rtcp_peer)
}

/// Appends a word, and tenths with what they are tenths of, if they are known.
pub(crate) fn push_tenths(
    out: &mut Vec<u8>,
    word: &[u8],
    tenths: Option<u64>,
    unit: &[u8],
) -> Result<(), AllocError>
    ensures { OnOk result (out.new.items ≡ out.old.items ++ tenths_text word.now tenths unit.now) }
{
    let Some(tenths) = tenths else {
        return Ok(());
    };
    out.extend_from_slice(word)?;
    push_fixed(out, tenths, 10)?;
    out.extend_from_slice(unit)
}

/// Appends the fraction lost of the last block of a source, if one was made of it.
fn push_interval(out: &mut Vec<u8>, block: Option<LastBlock>) -> Result<(), AllocError>
    ensures { OnOk result (out.new.items
        ≡ out.old.items ++ interval_text (option_map last_block_value block)) }
{
    let Some(block) = block else {
        return Ok(());
    };
    out.extend_from_slice(b" interval-loss=")?;
    push_fixed(out, u64::from(block.fraction) * 1_000 / 256, 10)?;
    out.push(b'%')?;
    Ok(())
}

/// Appends where a source sends from: its RTP, or else its RTCP.
pub(crate) fn push_origin(
    out: &mut Vec<u8>,
    rtp_peer: Option<u64>,
    rtcp_peer: Option<u64>,
) -> Result<(), AllocError>
    ensures { OnOk result (out.new.items ≡ out.old.items ++ origin_text rtp_peer rtcp_peer) }
{
    match (rtp_peer, rtcp_peer) {
        (Some(peer), _) | (None, Some(peer)) => {
            out.extend_from_slice(b" peer=")?;
            push_peer(out, peer)
        }
        (None, None) => Ok(()),
    }
}

/// Appends the row of a source:
///
/// ```text
/// source=00000007 sends=yes packets=150 lost=2 jitter=0.413ms round-trip=12.110ms cname="a@b"
/// ```
///
/// A source that is no member has ` valid=no` or, where it left, ` left=` and when, in seconds, after `sends=no`. The
/// three facts of its packets stand there if one was counted, and the last two if they are known. The CNAME is escaped
/// as Rust's `escape_ascii` does it.
///
/// # Errors
///
/// `AllocError` where memory is refused. It is then left open how much of the text was appended.
pub fn push_row(out: &mut Vec<u8>, state: &SourceState, note: &Note) -> Result<(), AllocError>
    ensures { OnOk result (out.new.items
        ≡ out.old.items ++ row_text (state_value state.now) (note_value note.now)) }
{
    push_facts(out, Clock::Session, state, note)?;
    out.push(b'\n')?;
    Ok(())
}

/// Appends what is told of a source, and noted of it.
fn push_facts(
    out: &mut Vec<u8>,
    clock: Clock,
    state: &SourceState,
    note: &Note,
) -> Result<(), AllocError>
    ensures { OnOk result (out.new.items
        ≡ out.old.items ++ facts_text (told_by clock) (state_value state.now) (note_value note.now)) }
{
    out.extend_from_slice(b"source=")?;
    push_word(out, state.ssrc)?;
    push_standing(out, clock, state)?;
    push_reception(out, state.reception)?;
    push_trip(out, note.trip)?;
    push_cname(out, &note.cname)
}

/// Appends what a source is.
fn push_standing(out: &mut Vec<u8>, clock: Clock, state: &SourceState) -> Result<(), AllocError>
    ensures { OnOk result (out.new.items ≡ out.old.items ++ standing_text (told_by clock) (state_value state.now)) }
{
    let sends: &[u8] = if state.is_sender {
        b" sends=yes"
    } else {
        b" sends=no"
    };
    out.extend_from_slice(sends)?;
    if state.is_member {
        return Ok(());
    }
    push_left(out, clock, state.left)
}

/// Appends when a source left, or that it is not yet valid.
fn push_left(out: &mut Vec<u8>, clock: Clock, left: Option<u64>) -> Result<(), AllocError>
    ensures { OnOk result (out.new.items ≡ out.old.items ++ left_text (told_by clock) left) }
{
    match left {
        Some(moment) => {
            out.extend_from_slice(b" left=")?;
            push_when(out, When { clock, moment })
        }
        None => out.extend_from_slice(b" valid=no"),
    }
}

/// Appends how the packets of a source are received, if one was counted.
fn push_reception(out: &mut Vec<u8>, reception: Option<Reception>) -> Result<(), AllocError>
    ensures { OnOk result (out.new.items
        ≡ out.old.items ++ reception_text (option_map reception_value reception)) }
{
    let Some(reception) = reception else {
        return Ok(());
    };
    out.extend_from_slice(b" packets=")?;
    push_decimal(out, reception.received)?;
    out.extend_from_slice(b" lost=")?;
    push_signed(out, reception.lost)?;
    push_time(out, b" jitter=", jitter_time(reception))
}

/// The jitter of a source in microseconds, rounded down.
pub(crate) fn jitter_time(reception: Reception) -> u64
    ensures { result ≡ (reception_value reception).jitter * 1000000 / max (reception_value reception).rate 1 }
{
    u64::from(reception.jitter) * 1_000_000 / u64::from(reception.rate.max(1))
}

/// Appends the round trip of a source, if it reported one.
pub(crate) fn push_trip(out: &mut Vec<u8>, trip: Option<u32>) -> Result<(), AllocError>
    ensures { OnOk result (out.new.items ≡ out.old.items ++ trip_text trip) }
{
    match trip {
        Some(trip) => push_time(out, b" round-trip=", u64::from(trip) * 1_000_000 / 65_536),
        None => Ok(()),
    }
}

/// Appends a word and a time of so many microseconds.
pub(crate) fn push_time(out: &mut Vec<u8>, word: &[u8], time: u64) -> Result<(), AllocError>
    ensures { OnOk result (out.new.items ≡ out.old.items ++ word.now ++ time_text time) }
{
    out.extend_from_slice(word)?;
    numbers::push_time(out, time)
}

/// Appends the CNAME of a source, if one was read.
pub(crate) fn push_cname(
    out: &mut Vec<u8>,
    cname: &Option<ArrayVec<u8, 255>>,
) -> Result<(), AllocError>
    ensures { OnOk result (out.new.items
        ≡ out.old.items ++ cname_text (option_map (λ cname. cname.items) cname.now)) }
{
    let Some(cname) = cname else {
        return Ok(());
    };
    out.extend_from_slice(b" cname=")?;
    push_quoted(out, cname)
}
