//! Source descriptions and BYEs.

ghost use Rattle.std.specs.Prelude.{◌≡◌, ◌∷◌, OnOk, codes, map, option_copied};
ghost use Rattle.rtcp_wire.specs.Views.{packet_value};
ghost use Rattle.rtcp_wire.specs.declared.packet.PacketView.TheVariants.{Bye, Sdes};
ghost use Rattle.rtcp_wire.specs.WriterViews.{item_ref_of};
ghost use Rattle.rtcp_json.specs.Adding.{AddsField, AddsJson};
ghost use Rattle.rtcp_json.specs.JsonValues.{array_of, optional_json, text_json, word_json};
ghost use Rattle.rtcp_json.specs.PacketValues.{chunk_json, item_json, item_type_json, packet_json};

use crate::fields::{
    write_name, write_null, write_number, write_text, write_word, write_word_value,
};
use json::Writer;
use rtcp_wire::{Chunk, Goodbye, Ids, ItemRef, Items, SourceDescription};
use std::alloc::{AllocError, Global};

/// Writes a source description.
pub(crate) fn write_description(
    writer: &mut Writer,
    alloc: Global,
    description: &SourceDescription<'_>,
) -> Result<(), AllocError>
    ensures { OnOk result (AddsJson writer.old writer.new (packet_json (packet_value (Sdes description.now)))) }
{
    writer.begin_object()?;
    write_name(writer, "type", "SDES")?;
    writer.key("chunks")?;
    write_chunks(writer, alloc, description)?;
    writer.end_object()?;
    Ok(())
}

/// Writes the chunks of a source description.
fn write_chunks(
    writer: &mut Writer,
    alloc: Global,
    description: &SourceDescription<'_>,
) -> Result<(), AllocError>
    ensures { OnOk result (AddsJson writer.old writer.new (array_of (map chunk_json description.now))) }
{
    writer.begin_array()?;
    for chunk in description.chunks() {
        write_chunk(writer, alloc, &chunk)?;
    }
    writer.end_array()?;
    Ok(())
}

/// Writes a chunk.
fn write_chunk(writer: &mut Writer, alloc: Global, chunk: &Chunk<'_>) -> Result<(), AllocError>
    ensures { OnOk result (AddsJson writer.old writer.new (chunk_json chunk.now)) }
{
    writer.begin_object()?;
    write_word(writer, alloc, "ssrc", chunk.id())?;
    writer.key("items")?;
    write_items(writer, alloc, chunk.items())?;
    writer.end_object()?;
    Ok(())
}

/// Writes items.
fn write_items(writer: &mut Writer, alloc: Global, items: Items<'_>) -> Result<(), AllocError>
    ensures { OnOk result (AddsJson writer.old writer.new (array_of (map item_json items.entry))) }
{
    writer.begin_array()?;
    for item in items {
        write_item(writer, alloc, &item)?;
    }
    writer.end_array()?;
    Ok(())
}

/// Writes an item.
fn write_item(writer: &mut Writer, alloc: Global, item: &ItemRef<'_>) -> Result<(), AllocError>
    ensures { OnOk result (AddsJson writer.old writer.new (item_json (item_ref_of item.now))) }
{
    writer.begin_object()?;
    write_item_type(writer, item.kind)?;
    write_text(writer, alloc, "text", item.text)?;
    writer.end_object()?;
    Ok(())
}

/// Writes the name of an item's type (RFC 3550, 6.5), or the type where it has none.
fn write_item_type(writer: &mut Writer, kind: u8) -> Result<(), AllocError>
    ensures { OnOk result (AddsField writer.old writer.new (codes "type") (item_type_json kind)) }
{
    match kind {
        1 => write_name(writer, "type", "cname"),
        2 => write_name(writer, "type", "name"),
        3 => write_name(writer, "type", "email"),
        4 => write_name(writer, "type", "phone"),
        5 => write_name(writer, "type", "loc"),
        6 => write_name(writer, "type", "tool"),
        7 => write_name(writer, "type", "note"),
        8 => write_name(writer, "type", "priv"),
        _ => write_number(writer, "type", u32::from(kind)),
    }
}

/// Writes a BYE.
pub(crate) fn write_bye(
    writer: &mut Writer,
    alloc: Global,
    goodbye: &Goodbye<'_>,
) -> Result<(), AllocError>
    ensures { OnOk result (AddsJson writer.old writer.new (packet_json (packet_value (Bye goodbye.now)))) }
{
    writer.begin_object()?;
    write_name(writer, "type", "BYE")?;
    writer.key("ssrcs")?;
    write_ids(writer, alloc, goodbye.ids())?;
    write_reason(writer, alloc, goodbye.reason)?;
    writer.end_object()?;
    Ok(())
}

/// Writes identifiers.
fn write_ids(writer: &mut Writer, alloc: Global, ids: Ids<'_>) -> Result<(), AllocError>
    ensures { OnOk result (AddsJson writer.old writer.new (array_of (map word_json ids.entry))) }
{
    writer.begin_array()?;
    for id in ids {
        write_word_value(writer, alloc, id)?;
    }
    writer.end_array()?;
    Ok(())
}

/// Writes a BYE's reason, if it has one.
fn write_reason(writer: &mut Writer, alloc: Global, reason: Option<&[u8]>) -> Result<(), AllocError>
    ensures { OnOk result (AddsField writer.old writer.new (codes "reason")
        (optional_json text_json (option_copied reason.entry))) }
{
    match reason {
        Some(text) => write_text(writer, alloc, "reason", text),
        None => write_null(writer, "reason"),
    }
}
