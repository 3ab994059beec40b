//! Source descriptions and BYEs in plain words.

ghost use Rattle.std.specs.Prelude.{◌≡◌, ◌++◌, OnOk, option_copied};
ghost use Rattle.rtcp_wire.specs.Views.{packet_value};
ghost use Rattle.rtcp_wire.specs.declared.packet.PacketView.TheVariants.{Bye, Sdes};
ghost use Rattle.rtcp_wire.specs.WriterViews.{item_ref_of};
ghost use Rattle.rtcp_plain.specs.Plain.{chunk_text, bye_reason_text, item_name, item_text, packet_text};

use crate::numbers::push_quoted;
use crate::packets::push_source;
use rtcp_text::text::digits::push_decimal;
use rtcp_wire::{Chunk, Goodbye, ItemRef, SourceDescription};
use std::alloc::AllocError;

/// Appends a source description.
pub(crate) fn push_description(
    out: &mut Vec<u8>,
    description: &SourceDescription<'_>,
    rate: Option<u32>,
) -> Result<(), AllocError>
    ensures { OnOk result
        (out.new.items ≡ out.old.items ++ packet_text rate (packet_value (Sdes description.now))) }
{
    out.extend_from_slice(b" SDES")?;
    for chunk in description.chunks() {
        push_chunk(out, &chunk)?;
    }
    Ok(())
}

/// Appends a chunk.
fn push_chunk(out: &mut Vec<u8>, chunk: &Chunk<'_>) -> Result<(), AllocError>
    ensures { OnOk result (out.new.items ≡ out.old.items ++ chunk_text chunk.now) }
{
    push_source(out, chunk.id())?;
    for item in chunk.items() {
        push_item(out, &item)?;
    }
    Ok(())
}

/// Appends an item.
fn push_item(out: &mut Vec<u8>, item: &ItemRef<'_>) -> Result<(), AllocError>
    ensures { OnOk result (out.new.items ≡ out.old.items ++ item_text (item_ref_of item.now)) }
{
    out.push(b' ')?;
    push_item_name(out, item.kind)?;
    out.push(b'=')?;
    push_quoted(out, item.text)
}

/// Appends the name of an item's type (RFC 3550, 6.5).
fn push_item_name(out: &mut Vec<u8>, kind: u8) -> Result<(), AllocError>
    ensures { OnOk result (out.new.items ≡ out.old.items ++ item_name kind) }
{
    match kind {
        1 => out.extend_from_slice(b"cname"),
        2 => out.extend_from_slice(b"name"),
        3 => out.extend_from_slice(b"email"),
        4 => out.extend_from_slice(b"phone"),
        5 => out.extend_from_slice(b"loc"),
        6 => out.extend_from_slice(b"tool"),
        7 => out.extend_from_slice(b"note"),
        8 => out.extend_from_slice(b"priv"),
        _ => {
            out.extend_from_slice(b"item")?;
            push_decimal(out, u64::from(kind))
        }
    }
}

/// Appends a BYE.
pub(crate) fn push_bye(
    out: &mut Vec<u8>,
    goodbye: &Goodbye<'_>,
    rate: Option<u32>,
) -> Result<(), AllocError>
    ensures { OnOk result (out.new.items ≡ out.old.items ++ packet_text rate (packet_value (Bye goodbye.now))) }
{
    out.extend_from_slice(b" BYE")?;
    for id in goodbye.ids() {
        push_source(out, id)?;
    }
    push_reason(out, goodbye.reason)
}

/// Appends a BYE's reason, if it has one.
fn push_reason(out: &mut Vec<u8>, reason: Option<&[u8]>) -> Result<(), AllocError>
    ensures { OnOk result
        (out.new.items ≡ out.old.items ++ bye_reason_text (option_copied reason.entry)) }
{
    match reason {
        Some(text) => {
            out.extend_from_slice(b" reason=")?;
            push_quoted(out, text)
        }
        None => Ok(()),
    }
}
