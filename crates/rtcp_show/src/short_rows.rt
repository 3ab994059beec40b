//! The short rows of the sources that lose most.

ghost use Rattle.std.specs.Prelude.{◌≡◌, ◌≤◌, ◌++◌, ◌∷◌, [], List, OnOk, drop, length, map, option_map, take, vec_len};
ghost use Rattle.std.specs.List.{flat_map};
ghost use Rattle.rtcp_source.specs.Views.{last_block_value, reception_value};
ghost use Rattle.rtcp_members.specs.ListViews.{state_value};
ghost use Rattle.rtcp_members.specs.Listings.{StateValue};
ghost use Rattle.rtcp_engine.specs.answers.Histories.{History, life_at, setup_at};
ghost use Rattle.rtcp_engine.specs.answers.Lives.{WalksInLife, members_in_life, senders_in_life};
ghost use Rattle.rtcp_engine.specs.state.States.{StandsAt};
ghost use Rattle.rtcp_show.specs.Flows.{flow_in};
ghost use Rattle.rtcp_show.specs.Notes.{note_value, noted_in};
ghost use Rattle.rtcp_show.specs.ShortRows.{cut_text, fraction_tenths, is_shown, is_worse, jitter_text, losses_text, past_text, rank_of, role_text, short_counts_text, short_facts_text, short_row_text, short_sources_text, shown_count, shown_row_text, shown_text, worse_than};

use crate::by_source::BySource;
use crate::changes::push_listing;
use crate::flows::Flow;
use crate::notes::Note;
use crate::rows::{jitter_time, push_cname, push_origin, push_tenths, push_time, push_trip};
use rtcp_engine::{Participant, Standing};
use rtcp_members::{MemberTable, SourceState};
use rtcp_source::{LastBlock, Reception};
use rtcp_text::text::digits::{push_decimal, push_word};
use std::alloc::{AllocError, Global};

/// The most octets of a short row, without its line feed.
const WIDTH: usize = 100;

/// How much a source lost of late, and its SSRC.
#[derive(Clone, Copy, Debug)]
pub(crate) struct Rank {
    /// The fraction lost of the last block that was made of it, in 1/256, or 0 where none was.
    fraction: u8,
    ssrc: u32,
}

/// Appends the members, the senders and the short rows of so many sources at most, the worst ones.
pub(crate) fn push_short_sources<T: MemberTable>(
    alloc: Global,
    out: &mut Vec<u8>,
    most: u32,
    participant: &Participant<T>,
    notes: &BySource<Note>,
    flows: &BySource<Flow>,
) -> Result<(), AllocError>
    ensures { (history : History) → StandsAt participant.now history →
        OnOk result ((states : List StateValue) × WalksInLife (setup_at history) (life_at history) states
        × (out.new.items ≡ out.old.items ++ short_sources_text most
        (members_in_life (setup_at history) (life_at history)) (senders_in_life (setup_at history) (life_at history))
        (noted_in notes.now) (flow_in flows.now) states)) }
{
    let standing = participant.standing();
    let mut listing = Vec::new(alloc);
    push_listing(&mut listing, participant)?;
    push_short_listing(alloc, out, most, &standing, &listing, notes, flows)
}

/// Appends the same of these sources.
fn push_short_listing(
    alloc: Global,
    out: &mut Vec<u8>,
    most: u32,
    standing: &Standing,
    listing: &[SourceState],
    notes: &BySource<Note>,
    flows: &BySource<Flow>,
) -> Result<(), AllocError>
    ensures { OnOk result (out.new.items ≡ out.old.items ++ short_sources_text most standing.now.members
        standing.now.senders (noted_in notes.now) (flow_in flows.now) (map state_value listing.now)) }
{
    let mut ranks = Vec::new(alloc);
    push_ranks(&mut ranks, listing)?;
    let shown = shown_count(most, &ranks);
    push_short_counts(
        out,
        standing.members,
        standing.senders,
        shown,
        listing.len(),
    )?;
    push_shown_rows(out, most, &ranks, listing, notes, flows)
}

/// Appends the members and the senders, and how many sources are shown, where not all are.
fn push_short_counts(
    out: &mut Vec<u8>,
    members: u32,
    senders: u32,
    shown: usize,
    all: usize,
) -> Result<(), AllocError>
    ensures { OnOk result (out.new.items ≡ out.old.items ++ short_counts_text members senders shown all) }
{
    out.extend_from_slice(b"members=")?;
    push_decimal(out, u64::from(members))?;
    out.extend_from_slice(b" senders=")?;
    push_decimal(out, u64::from(senders))?;
    push_shown(out, shown, all)?;
    out.push(b'\n')?;
    Ok(())
}

/// Appends how many sources are shown, where not all are.
fn push_shown(out: &mut Vec<u8>, shown: usize, all: usize) -> Result<(), AllocError>
    ensures { OnOk result (out.new.items ≡ out.old.items ++ shown_text shown all) }
{
    if shown >= all {
        return Ok(());
    }
    out.extend_from_slice(b" shown=")?;
    push_decimal(out, shown as u64)
}

/// Appends the short rows of the sources that are shown.
fn push_shown_rows(
    out: &mut Vec<u8>,
    most: u32,
    ranks: &[Rank],
    listing: &[SourceState],
    notes: &BySource<Note>,
    flows: &BySource<Flow>,
) -> Result<(), AllocError>
    ensures { OnOk result (out.new.items ≡ out.old.items
        ++ flat_map (shown_row_text most ranks.now (noted_in notes.now) (flow_in flows.now))
        (map state_value listing.now)) }
{
    for state in listing {
        push_shown_row(out, most, ranks, state, notes, flows)?;
    }
    Ok(())
}

/// Appends the short row of a source, if it is shown.
fn push_shown_row(
    out: &mut Vec<u8>,
    most: u32,
    ranks: &[Rank],
    state: &SourceState,
    notes: &BySource<Note>,
    flows: &BySource<Flow>,
) -> Result<(), AllocError>
    ensures { OnOk result (out.new.items ≡ out.old.items
        ++ shown_row_text most ranks.now (noted_in notes.now) (flow_in flows.now) (state_value state.now)) }
{
    if !is_shown(most, ranks, rank_of(state)) {
        return Ok(());
    }
    let flow = flows.flow(state.ssrc);
    match notes.get(state.ssrc) {
        Some(note) => push_short_row(out, state, note, flow),
        None => push_short_row(out, state, &Note::new(), flow),
    }
}

// ---- Ranks

/// Appends the ranks of sources.
fn push_ranks(ranks: &mut Vec<Rank>, listing: &[SourceState]) -> Result<(), AllocError>
    requires { ranks.old.items ≡ [] }
    ensures { OnOk result (ranks.new.items ≡ map rank_of (map state_value listing.now)) }
{
    for state in listing {
        ranks.push(rank_of(state))?;
    }
    Ok(())
}

/// The rank of a source.
fn rank_of(state: &SourceState) -> Rank
    ensures { result ≡ rank_of (state_value state.now) }
{
    let fraction = match state.last_block {
        Some(block) => block.fraction,
        None => 0,
    };
    Rank {
        fraction,
        ssrc: state.ssrc,
    }
}

/// How many of these sources are shown.
fn shown_count(most: u32, ranks: &[Rank]) -> usize
    ensures { result ≡ shown_count most ranks.now }
{
    let mut count = 0;
    for rank in ranks {
        if is_shown(most, ranks, *rank) {
            count += 1;
        }
    }
    count
}

/// Whether a source is shown: fewer than so many of these are worse.
fn is_shown(most: u32, ranks: &[Rank], one: Rank) -> bool
    ensures { result ≡ is_shown most ranks.now one }
{
    worse_than(one, ranks) < most as usize
}

/// How many of these sources are worse than one.
fn worse_than(one: Rank, ranks: &[Rank]) -> usize
    ensures { result ≡ worse_than one ranks.now }
{
    let mut count = 0;
    for other in ranks {
        if is_worse(*other, one) {
            count += 1;
        }
    }
    count
}

/// Whether a source is worse than another: it lost more, or as much and its SSRC is lower.
fn is_worse(one: Rank, other: Rank) -> bool
    ensures { result ≡ is_worse one other }
{
    one.fraction > other.fraction || one.fraction == other.fraction && one.ssrc < other.ssrc
}

// ---- A row

/// Appends the short row of a source:
///
/// ```text
/// 00000007 sends loss=1.1% total-loss=0.4% jitter=0.413ms round-trip=12.110ms pace=50.0/s peer=10.0.0.1:5004 cname="a"
/// ```
fn push_short_row(
    out: &mut Vec<u8>,
    state: &SourceState,
    note: &Note,
    flow: Flow,
) -> Result<(), AllocError>
    ensures { OnOk result (out.new.items
        ≡ out.old.items ++ short_row_text (state_value state.now) (note_value note.now) flow) }
{
    let start = out.len();
    push_short_facts(out, state, note, flow)?;
    cut_line(out, start)?;
    out.push(b'\n')?;
    Ok(())
}

/// Ends the line that begins here with three points, where it is too long.
fn cut_line(out: &mut Vec<u8>, start: usize) -> Result<(), AllocError>
    requires { start ≤ vec_len out.old }
    ensures { OnOk result (out.new.items ≡ take start out.old.items ++ cut_text (drop start out.old.items)) }
{
    if out.len() - start <= WIDTH {
        return Ok(());
    }
    out.truncate(start + WIDTH - 3);
    out.extend_from_slice(b"...")?;
    Ok(())
}

/// Appends what is told and noted of a source, and how its packets come.
fn push_short_facts(
    out: &mut Vec<u8>,
    state: &SourceState,
    note: &Note,
    flow: Flow,
) -> Result<(), AllocError>
    ensures { OnOk result (out.new.items
        ≡ out.old.items ++ short_facts_text (state_value state.now) (note_value note.now) flow) }
{
    push_word(out, state.ssrc)?;
    push_role(out, state)?;
    push_losses(out, state, flow)?;
    push_jitter(out, state.reception)?;
    push_trip(out, note.trip)?;
    push_tenths(out, b" pace=", flow.packet_rate, b"/s")?;
    push_origin(out, flow.rtp_peer, flow.rtcp_peer)?;
    push_cname(out, &note.cname)
}

/// Appends what a source is.
fn push_role(out: &mut Vec<u8>, state: &SourceState) -> Result<(), AllocError>
    ensures { OnOk result (out.new.items ≡ out.old.items ++ role_text (state_value state.now)) }
{
    if state.is_sender {
        return out.extend_from_slice(b" sends");
    }
    if state.is_member {
        return out.extend_from_slice(b" member");
    }
    push_past(out, state.left)
}

/// Appends that a source left, or that it is not yet valid.
fn push_past(out: &mut Vec<u8>, left: Option<u64>) -> Result<(), AllocError>
    ensures { OnOk result (out.new.items ≡ out.old.items ++ past_text left) }
{
    match left {
        Some(_) => out.extend_from_slice(b" left"),
        None => out.extend_from_slice(b" invalid"),
    }
}

/// Appends what was lost of a source's packets, of late and in all.
fn push_losses(out: &mut Vec<u8>, state: &SourceState, flow: Flow) -> Result<(), AllocError>
    ensures { OnOk result (out.new.items ≡ out.old.items ++ losses_text (state_value state.now) flow) }
{
    push_tenths(out, b" loss=", fraction_tenths(state.last_block), b"%")?;
    push_tenths(out, b" total-loss=", flow.loss, b"%")
}

/// The fraction lost of the last block of a source, in tenths of a per cent, if one was made of it.
fn fraction_tenths(block: Option<LastBlock>) -> Option<u64>
    ensures { result ≡ fraction_tenths (option_map last_block_value block) }
{
    match block {
        Some(block) => Some(u64::from(block.fraction) * 1_000 / 256),
        None => None,
    }
}

/// Appends the jitter of a source's packets, if one was counted.
fn push_jitter(out: &mut Vec<u8>, reception: Option<Reception>) -> Result<(), AllocError>
    ensures { OnOk result (out.new.items
        ≡ out.old.items ++ jitter_text (option_map reception_value reception)) }
{
    match reception {
        Some(reception) => push_time(out, b" jitter=", jitter_time(reception)),
        None => Ok(()),
    }
}
