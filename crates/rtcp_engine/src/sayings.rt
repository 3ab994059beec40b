//! What a compound says. Where it is about one source it is not read again: its reading has seen whose it is. Else it
//! is read packet after packet. Each loop reads its part once and keeps nothing between its turns: it costs less than
//! an iterator over all facts, which begins anew at each of them.

ghost use Rattle.std.specs.Prelude.{◌≡◌, ◌==◌, ◌∷◌, [], false};
ghost use Rattle.std.specs.List.{list_any};
ghost use Rattle.rtcp_wire.specs.Facts.{facts_of, facts_of_chunk, facts_of_packet, is_media, subject};
ghost use Rattle.rtcp_wire.specs.Sole.{facts_of_sole};
ghost use Rattle.rtcp_wire.specs.Views.{packet_value};
ghost use Rattle.rtcp_wire.specs.declared.fact.Fact.TheVariants.{Named, Told};
ghost use Rattle.rtcp_members.specs.Roles.{facts_move};
ghost use Rattle.rtcp_members.specs.Tables.{after_facts};
ghost use Rattle.rtcp_engine.specs.state.Sayings.{facts_of_chunks, facts_of_byes};

use crate::table::apply_said;
use rtcp_members::MemberTable;
use rtcp_wire::{Chunk, Chunks, Compound, Fact, Ids, PacketView, Packets, SoleSource};

// ---- What is said, applied to a table at one moment

/// Applies what this compound says, and returns whether that changed who is a member or who sends.
pub(crate) fn apply_compound<T: MemberTable>(table: &mut T, compound: &Compound<'_>, t: u64) -> bool
    ensures content { T.content table.new ≡ after_facts (facts_of compound.now) t (T.content table.old) }
    ensures moved { result ≡ facts_move (facts_of compound.now) t (T.content table.old) }
{
    match compound.sole() {
        Some(source) => apply_sole(table, source, t),
        None => apply_packets(table, compound.packets(), t),
    }
}

/// Applies what a compound says that is about this source alone.
fn apply_sole<T: MemberTable>(table: &mut T, source: SoleSource, t: u64) -> bool
    ensures content { T.content table.new ≡ after_facts (facts_of_sole source) t (T.content table.old) }
    ensures moved { result ≡ facts_move (facts_of_sole source) t (T.content table.old) }
{
    match (source.timestamps, source.is_named) {
        (Some((ntp, rtp)), true) => apply_introduction(table, source.ssrc, ntp, rtp, t),
        (Some((ntp, rtp)), false) => apply_one(table, Fact::Told(source.ssrc, ntp, rtp), t),
        (None, true) => apply_name(table, source.ssrc, t),
        (None, false) => apply_one(table, Fact::Heard(source.ssrc), t),
    }
}

/// Applies a sender report and a CNAME of one source.
// Inlined, as `apply_name`: each kind of fact is known here, and none is written to memory. The second fact finds the
// entry of the first by its hint.
#[inline(always)]
fn apply_introduction<T: MemberTable>(table: &mut T, ssrc: u32, ntp: u64, rtp: u32, t: u64) -> bool
    ensures content { T.content table.new
        ≡ after_facts (Told ssrc ntp rtp ∷ Named ssrc ∷ []) t (T.content table.old) }
    ensures moved { result ≡ facts_move (Told ssrc ntp rtp ∷ Named ssrc ∷ []) t (T.content table.old) }
{
    let by_clock = table.apply_fact(Fact::Told(ssrc, ntp, rtp), t).moved;
    let by_name = table.apply_fact(Fact::Named(ssrc), t).moved;
    by_clock | by_name
}

/// Applies the CNAME of a source.
#[inline(always)]
fn apply_name<T: MemberTable>(table: &mut T, ssrc: u32, t: u64) -> bool
    ensures content { T.content table.new ≡ after_facts (Named ssrc ∷ []) t (T.content table.old) }
    ensures moved { result ≡ facts_move (Named ssrc ∷ []) t (T.content table.old) }
{
    table.apply_fact(Fact::Named(ssrc), t).moved
}

/// Applies what these packets say, and returns whether that changed who is a member or who sends.
fn apply_packets<T: MemberTable>(table: &mut T, packets: Packets<'_>, t: u64) -> bool
    ensures content { T.content table.new ≡ after_facts (facts_of packets.entry) t (T.content table.old) }
    ensures moved { result ≡ facts_move (facts_of packets.entry) t (T.content table.old) }
{
    let mut moved = false;
    'packets: for packet in packets {
        let by_this = apply_packet(table, &packet, t);
        moved |= by_this;
    }
    moved
}

#[inline(always)]
fn apply_packet<T: MemberTable>(table: &mut T, packet: &PacketView<'_>, t: u64) -> bool
    ensures content { T.content table.new
        ≡ after_facts (facts_of_packet (packet_value packet.now)) t (T.content table.old) }
    ensures moved { result ≡ facts_move (facts_of_packet (packet_value packet.now)) t (T.content table.old) }
{
    match packet {
        // What it tells of its clock says that it is heard, too.
        PacketView::Sr(report) => {
            let told = Fact::Told(report.ssrc, report.ntp, report.rtp);
            apply_one(table, told, t)
        }
        PacketView::Rr(report) => apply_one(table, Fact::Heard(report.ssrc), t),
        PacketView::Sdes(description) => apply_chunks(table, description.chunks(), t),
        PacketView::Bye(goodbye) => apply_byes(table, goodbye.ids(), t),
        PacketView::App(packet) => apply_one(table, Fact::Heard(packet.ssrc), t),
        PacketView::Other(_) => false,
    }
}

fn apply_chunks<T: MemberTable>(table: &mut T, chunks: Chunks<'_>, t: u64) -> bool
    ensures content { T.content table.new
        ≡ after_facts (facts_of_chunks chunks.entry) t (T.content table.old) }
    ensures moved { result ≡ facts_move (facts_of_chunks chunks.entry) t (T.content table.old) }
{
    let mut moved = false;
    'chunks: for chunk in chunks {
        let by_this = apply_chunk(table, &chunk, t);
        moved |= by_this;
    }
    moved
}

#[inline(always)]
fn apply_chunk<T: MemberTable>(table: &mut T, chunk: &Chunk<'_>, t: u64) -> bool
    ensures content { T.content table.new ≡ after_facts (facts_of_chunk chunk.now) t (T.content table.old) }
    ensures moved { result ≡ facts_move (facts_of_chunk chunk.now) t (T.content table.old) }
{
    if chunk.has_cname() {
        // Its name says that it is heard, too.
        return apply_one(table, Fact::Named(chunk.id()), t);
    }
    apply_one(table, Fact::Heard(chunk.id()), t)
}

fn apply_byes<T: MemberTable>(table: &mut T, ids: Ids<'_>, t: u64) -> bool
    ensures content { T.content table.new
        ≡ after_facts (facts_of_byes ids.entry) t (T.content table.old) }
    ensures moved { result ≡ facts_move (facts_of_byes ids.entry) t (T.content table.old) }
{
    let mut moved = false;
    'ids: for id in ids {
        let by_this = apply_one(table, Fact::Gone(id), t);
        moved |= by_this;
    }
    moved
}

/// Applies one fact of a compound. It is a call of its own so that the fact is written to memory once, for
/// `apply_said`, and not at each place that makes one.
fn apply_one<T: MemberTable>(table: &mut T, fact: Fact, t: u64) -> bool
    requires { is_media fact ≡ false }
    ensures content { T.content table.new ≡ after_facts (fact ∷ []) t (T.content table.old) }
    ensures moved { result ≡ facts_move (fact ∷ []) t (T.content table.old) }
{
    apply_said(table, fact, t)
}

// ---- Whether something is said of a source

/// Whether this compound says something of this source.
// Inlined, as in `Arrival::is_of`.
#[inline(always)]
pub(crate) fn tells_of(compound: &Compound<'_>, ssrc: u32) -> bool
    ensures { result ≡ list_any (λ fact. subject fact == ssrc) (facts_of compound.now) }
{
    match compound.sole() {
        Some(source) => source.ssrc == ssrc,
        None => speak_of(compound.packets(), ssrc),
    }
}

/// Whether these packets say something of this source.
fn speak_of(packets: Packets<'_>, ssrc: u32) -> bool
    ensures { result ≡ list_any (λ fact. subject fact == ssrc) (facts_of packets.entry) }
{
    'packets: for packet in packets {
        if speaks_of(&packet, ssrc) {
            return true;
        }
    }
    false
}

#[inline(always)]
fn speaks_of(packet: &PacketView<'_>, ssrc: u32) -> bool
    ensures { result ≡ list_any (λ fact. subject fact == ssrc) (facts_of_packet (packet_value packet.now)) }
{
    match packet {
        PacketView::Sr(report) => report.ssrc == ssrc,
        PacketView::Rr(report) => report.ssrc == ssrc,
        PacketView::Sdes(description) => describe(description.chunks(), ssrc),
        PacketView::Bye(goodbye) => are_among(goodbye.ids(), ssrc),
        PacketView::App(packet) => packet.ssrc == ssrc,
        PacketView::Other(_) => false,
    }
}

/// Whether a chunk describes this source.
fn describe(chunks: Chunks<'_>, ssrc: u32) -> bool
    ensures { result ≡ list_any (λ fact. subject fact == ssrc) (facts_of_chunks chunks.entry) }
{
    'chunks: for chunk in chunks {
        if chunk.id() == ssrc {
            return true;
        }
    }
    false
}

/// Whether this source is among them.
fn are_among(ids: Ids<'_>, ssrc: u32) -> bool
    ensures { result ≡ list_any (λ fact. subject fact == ssrc) (facts_of_byes ids.entry) }
{
    'ids: for id in ids {
        if id == ssrc {
            return true;
        }
    }
    false
}
