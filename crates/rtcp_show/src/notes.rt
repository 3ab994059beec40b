//! What is kept of sources beside their table.

ghost use Rattle.std.specs.Prelude.{◌≡◌, ◌≤◌, [], ◌∷◌, ℕ, OnOk, Some, false, true, flat_map, if◌then◌else◌, nat_eq, unwrap_or};
ghost use Rattle.rtcp_engine.specs.answers.Histories.{History, setup_at};
ghost use Rattle.rtcp_engine.specs.state.States.{StandsAt};
ghost use Rattle.rtcp_members.specs.News.{is_after};
ghost use Rattle.rtcp_wire.specs.About.{blocks_about};
ghost use Rattle.rtcp_wire.specs.Views.{block_value, packet_value};
ghost use Rattle.rtcp_wire.specs.WriterViews.{item_ref_of};
ghost use Rattle.rtcp_show.specs.Kept.{kept_of};
ghost use Rattle.rtcp_show.specs.Listings.{if_listed, lists};
ghost use Rattle.rtcp_show.specs.Notes.{cnames_by, cnames_of, cnames_of_chunk, cnames_of_packet, names_report, note_value, noted_after, noted_in, nothing, with_cnames, with_trips};

use crate::by_source::BySource;
use arrayvec::ArrayVec;
use rtcp_clock::round_trip;
use rtcp_engine::Participant;
use rtcp_members::MemberTable;
use rtcp_wire::{Block, CNAME, Chunk, Compound, ItemRef, PacketView, SourceDescription};
use std::alloc::AllocError;

/// What came from a source and its table does not keep.
#[derive(Debug, Drop)]
pub struct Note {
    /// Its CNAME, if one was read.
    pub cname: Option<ArrayVec<u8, 255>>,
    /// The round trip by its last report block about the participant that has an LSR, if there is one, in 1/65,536 of a
    /// second (RFC 3550, 6.4.1).
    pub trip: Option<u32>,
}

impl Note {
    /// Nothing.
    pub fn new() -> Note
        ensures { note_value result ≡ nothing }
    {
        Note {
            cname: None,
            trip: None,
        }
    }
}

impl BySource<Note> {
    /// Keeps what a compound says of sources that the participant tells of: so what is kept is bounded as its table is.
    /// It arrived at this moment, by the middle 32 bits of an NTP timestamp.
    ///
    /// # Errors
    ///
    /// `AllocError` where memory is refused. Then what was noted of a source is lost.
    pub(crate) fn note_compound<T: MemberTable>(
        &mut self,
        arrived: u32,
        compound: &Option<Compound<'_>>,
        participant: &Participant<T>,
    ) -> Result<(), AllocError>
        ensures { (history : History) → StandsAt participant.now history → OnOk result ((ssrc : ℕ) →
            noted_in self.new ssrc ≡ if_listed (lists history ssrc)
            (noted_after arrived (setup_at history).ssrc (unwrap_or compound.now []) ssrc) (noted_in self.old ssrc)) }
    {
        let Some(compound) = compound else {
            return Ok(());
        };
        self.note_trips(arrived, compound, participant)?;
        self.note_packets(compound, participant)
    }

    /// Keeps the round trips by the blocks about the participant that name one of its sender reports.
    fn note_trips<T: MemberTable>(
        &mut self,
        arrived: u32,
        compound: &Compound<'_>,
        participant: &Participant<T>,
    ) -> Result<(), AllocError>
        ensures { (history : History) → StandsAt participant.now history → OnOk result ((ssrc : ℕ) →
            noted_in self.new ssrc ≡ if_listed (lists history ssrc)
            (with_trips arrived (blocks_about (setup_at history).ssrc compound.now) ssrc) (noted_in self.old ssrc)) }
    {
        for reported in compound.about(participant.ssrc()) {
            self.note_block(arrived, reported.0, &reported.1, participant)?;
        }
        Ok(())
    }

    /// Keeps the round trip by a block about the participant, if it names one of its sender reports and the participant
    /// tells of who reports.
    fn note_block<T: MemberTable>(
        &mut self,
        arrived: u32,
        reporter: u32,
        block: &Block,
        participant: &Participant<T>,
    ) -> Result<(), AllocError>
        ensures { (history : History) → StandsAt participant.now history → OnOk result ((ssrc : ℕ) →
            noted_in self.new ssrc ≡ if_listed (lists history ssrc)
            (with_trips arrived ((reporter, block_value block.now) ∷ []) ssrc) (noted_in self.old ssrc)) }
    {
        if !names_report(block) {
            return Ok(());
        }
        if !is_listed(reporter, participant) {
            return Ok(());
        }
        self.set_trip(reporter, round_trip(arrived, block.lsr, block.dlsr))
    }

    /// Keeps the CNAMEs of a compound.
    fn note_packets<T: MemberTable>(
        &mut self,
        compound: &Compound<'_>,
        participant: &Participant<T>,
    ) -> Result<(), AllocError>
        ensures { (history : History) → StandsAt participant.now history → OnOk result ((ssrc : ℕ) →
            noted_in self.new ssrc ≡ if_listed (lists history ssrc) (with_cnames (cnames_of compound.now) ssrc)
            (noted_in self.old ssrc)) }
    {
        for packet in compound.packets() {
            self.note_packet(&packet, participant)?;
        }
        Ok(())
    }

    /// Keeps the CNAMEs of a packet.
    fn note_packet<T: MemberTable>(
        &mut self,
        packet: &PacketView<'_>,
        participant: &Participant<T>,
    ) -> Result<(), AllocError>
        ensures { (history : History) → StandsAt participant.now history → OnOk result ((ssrc : ℕ) →
            noted_in self.new ssrc ≡ if_listed (lists history ssrc)
            (with_cnames (cnames_of_packet (packet_value packet.now)) ssrc)
            (noted_in self.old ssrc)) }
    {
        match packet {
            PacketView::Sdes(description) => self.note_chunks(description, participant),
            _ => Ok(()),
        }
    }

    /// Keeps the CNAMEs of a source description.
    fn note_chunks<T: MemberTable>(
        &mut self,
        description: &SourceDescription<'_>,
        participant: &Participant<T>,
    ) -> Result<(), AllocError>
        ensures { (history : History) → StandsAt participant.now history → OnOk result ((ssrc : ℕ) →
            noted_in self.new ssrc ≡ if_listed (lists history ssrc)
            (with_cnames (flat_map cnames_of_chunk description.now) ssrc)
            (noted_in self.old ssrc)) }
    {
        for chunk in description.chunks() {
            self.note_chunk(&chunk, participant)?;
        }
        Ok(())
    }

    /// Keeps the CNAMEs of a chunk, if the participant tells of its source.
    fn note_chunk<T: MemberTable>(
        &mut self,
        chunk: &Chunk<'_>,
        participant: &Participant<T>,
    ) -> Result<(), AllocError>
        ensures { (history : History) → StandsAt participant.now history → OnOk result ((ssrc : ℕ) →
            noted_in self.new ssrc ≡ if_listed (lists history ssrc) (with_cnames (cnames_of_chunk chunk.now) ssrc)
            (noted_in self.old ssrc)) }
    {
        if is_listed(chunk.id(), participant) {
            self.note_items(chunk)
        } else {
            Ok(())
        }
    }

    /// Keeps the CNAMEs of a chunk.
    fn note_items(&mut self, chunk: &Chunk<'_>) -> Result<(), AllocError>
        ensures { OnOk result ((ssrc : ℕ) →
            noted_in self.new ssrc ≡ with_cnames (cnames_of_chunk chunk.now) ssrc (noted_in self.old ssrc)) }
    {
        for item in chunk.items() {
            self.note_item(chunk.id(), &item)?;
        }
        Ok(())
    }

    /// Keeps an item of a source, if it is a CNAME.
    fn note_item(&mut self, ssrc: u32, item: &ItemRef<'_>) -> Result<(), AllocError>
        ensures { OnOk result ((other : ℕ) → noted_in self.new other
            ≡ with_cnames (cnames_by ssrc (item_ref_of item.now ∷ [])) other (noted_in self.old other)) }
    {
        if item.kind == CNAME {
            self.set_cname(ssrc, item.text)
        } else {
            Ok(())
        }
    }

    /// Keeps the CNAME of a source.
    ///
    /// # Errors
    ///
    /// `AllocError` where memory is refused. Then what was known of the source is lost. So where the CNAME has more
    /// than 255 octets, which no item has.
    fn set_cname(&mut self, ssrc: u32, text: &[u8]) -> Result<(), AllocError>
        ensures { OnOk result ((other : ℕ) → noted_in self.new other
            ≡ (if nat_eq ssrc other then record (noted_in self.old other) { cname = Some text.now }
            else noted_in self.old other)) }
    {
        let mut cname = ArrayVec::new();
        if cname.try_extend_from_slice(text).is_err() {
            return Err(AllocError);
        }
        let note = self.take_note(ssrc);
        self.put(
            ssrc,
            Note {
                cname: Some(cname),
                trip: note.trip,
            },
        )
    }

    /// Keeps the round trip of a source.
    ///
    /// # Errors
    ///
    /// `AllocError` where memory is refused. Then what was known of the source is lost.
    fn set_trip(&mut self, ssrc: u32, trip: u32) -> Result<(), AllocError>
        ensures { OnOk result ((other : ℕ) → noted_in self.new other
            ≡ (if nat_eq ssrc other then record (noted_in self.old other) { trip = Some trip }
            else noted_in self.old other)) }
    {
        let note = self.take_note(ssrc);
        self.put(
            ssrc,
            Note {
                cname: note.cname,
                trip: Some(trip),
            },
        )
    }

    /// Takes the note of a source out, or a new one.
    fn take_note(&mut self, ssrc: u32) -> Note
        ensures taken { note_value result ≡ noted_in self.old ssrc }
        ensures others { (other : ℕ) → nat_eq ssrc other ≡ false → kept_of self.new other ≡ kept_of self.old other }
    {
        match self.take(ssrc) {
            Some(note) => note,
            None => Note::new(),
        }
    }
}

/// Whether a block names a sender report of its subject: its LSR is not 0.
fn names_report(block: &Block) -> bool
    ensures { result ≡ names_report (block_value block.now) }
{
    block.lsr != 0
}

/// Whether the participant tells of a source.
pub(crate) fn is_listed<T: MemberTable>(ssrc: u32, participant: &Participant<T>) -> bool
    ensures { (history : History) → StandsAt participant.now history → result ≡ lists history ssrc }
{
    match participant.source_above(just_below(ssrc)) {
        Some(state) => state.ssrc == ssrc,
        None => false,
    }
}

/// The SSRC after which a source of this one comes first, if one is needed for that.
fn just_below(ssrc: u32) -> Option<u32>
    ensures behind { is_after result ssrc ≡ true }
    ensures first { (other : ℕ) → is_after result other ≡ true → ssrc ≤ other }
{
    if ssrc == 0 { None } else { Some(ssrc - 1) }
}
