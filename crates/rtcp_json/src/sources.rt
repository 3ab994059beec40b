//! The sources of a session.

ghost use Rattle.std.specs.Prelude.{◌≡◌, ◌++◌, OnOk, codes, map, option_map};
ghost use Rattle.rtcp_source.specs.Views.{reception_value};
ghost use Rattle.rtcp_members.specs.ListViews.{state_value};
ghost use Rattle.rtcp_json.specs.Adding.{AddsField, AddsFields, AddsJson};
ghost use Rattle.rtcp_json.specs.JsonValues.{array_of, json_line, number_json, optional_json};
ghost use Rattle.rtcp_json.specs.SourceValues.{Listing, Lists, listing_json, reception_fields, source_json};

use crate::fields::{write_long_number, write_null, write_number, write_signed, write_word};
use crate::lines::{begin_line, end_line};
use json::Writer;
use rtcp_engine::Participant;
use rtcp_members::{MemberTable, SourceState, Sources};
use rtcp_source::Reception;
use std::alloc::{AllocError, Global};

/// Appends the line of who is there, without a moment.
///
/// # Errors
///
/// `AllocError` where memory is refused. It is then left open how much of the text was appended.
pub(crate) fn push_listing<T: MemberTable>(
    out: &mut Vec<u8>,
    participant: &Participant<T>,
) -> Result<(), AllocError>
    ensures { OnOk result ((listing : Listing) × Lists participant.now listing
        × (out.new.items ≡ out.old.items ++ json_line (listing_json listing))) }
{
    let alloc = *out.allocator();
    let mut writer = begin_line(alloc, out);
    let written = write_listing(&mut writer, alloc, participant);
    end_line(out, writer, written)
}

/// Writes who is there.
fn write_listing<T: MemberTable>(
    writer: &mut Writer,
    alloc: Global,
    participant: &Participant<T>,
) -> Result<(), AllocError>
    ensures { OnOk result ((listing : Listing) × Lists participant.now listing
        × AddsJson writer.old writer.new (listing_json listing)) }
{
    writer.begin_object()?;
    write_number(writer, "members", participant.members())?;
    write_number(writer, "senders", participant.senders())?;
    writer.key("sources")?;
    write_sources(writer, alloc, participant.sources())?;
    writer.end_object()?;
    Ok(())
}

/// Writes sources.
fn write_sources<T: MemberTable>(
    writer: &mut Writer,
    alloc: Global,
    sources: Sources<'_, T>,
) -> Result<(), AllocError>
    ensures { OnOk result (AddsJson writer.old writer.new (array_of (map source_json sources.entry))) }
{
    writer.begin_array()?;
    for state in sources {
        write_source(writer, alloc, &state)?;
    }
    writer.end_array()?;
    Ok(())
}

/// Writes what is told of a source.
fn write_source(writer: &mut Writer, alloc: Global, state: &SourceState) -> Result<(), AllocError>
    ensures { OnOk result (AddsJson writer.old writer.new (source_json (state_value state.now))) }
{
    writer.begin_object()?;
    write_word(writer, alloc, "ssrc", state.ssrc)?;
    writer.key("member")?;
    writer.boolean(state.is_member)?;
    writer.key("sender")?;
    writer.boolean(state.is_sender)?;
    write_left(writer, state.left)?;
    write_reception(writer, state.reception)?;
    writer.end_object()?;
    Ok(())
}

/// Writes when a source left, if it did.
fn write_left(writer: &mut Writer, left: Option<u64>) -> Result<(), AllocError>
    ensures { OnOk result (AddsField writer.old writer.new (codes "left") (optional_json number_json left)) }
{
    match left {
        Some(moment) => write_long_number(writer, "left", moment),
        None => write_null(writer, "left"),
    }
}

/// Writes how the packets of a source come, if one was counted.
fn write_reception(writer: &mut Writer, reception: Option<Reception>) -> Result<(), AllocError>
    ensures { OnOk result
        (AddsFields writer.old writer.new (reception_fields (option_map reception_value reception))) }
{
    match reception {
        Some(reception) => {
            write_long_number(writer, "packets", reception.received)?;
            write_signed(writer, "lost", reception.lost)?;
            write_number(writer, "jitter", reception.jitter)?;
            write_number(writer, "rate", reception.rate)
        }
        None => {
            write_null(writer, "packets")?;
            write_null(writer, "lost")?;
            write_null(writer, "jitter")?;
            write_null(writer, "rate")
        }
    }
}
