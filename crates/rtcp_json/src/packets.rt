//! The packets of a datagram, and why one is refused.

ghost use Rattle.std.specs.Prelude.{◌≡◌, ◌++◌, OnOk, map};
ghost use Rattle.json.specs.Json.{Json};
ghost use Rattle.rtcp_wire.specs.Views.{packet_value};
ghost use Rattle.rtcp_wire.specs.declared.packet.PacketView.TheVariants.{App, Other};
ghost use Rattle.rtcp_json.specs.Adding.{Adds, AddsJson};
ghost use Rattle.rtcp_json.specs.JsonValues.{array_of, json_line};
ghost use Rattle.rtcp_json.specs.PacketValues.{IsShownAs, datagram_json, fault_json, packet_json};
ghost use Rattle.rtcp_text.specs.Text.{reason_text};

use crate::descriptions::{write_bye, write_description};
use crate::fields::{
    write_long_number, write_name, write_number, write_octets, write_text, write_word,
};
use crate::lines::{begin_line, end_line};
use crate::reports::{write_receiver_report, write_sender_report};
use json::Writer;
use rtcp_wire::{Application, Compound, FaultReason, OtherPacket, PacketView, WireFault};
use std::alloc::{AllocError, Global};

/// Appends the line of an accepted datagram in JSON, with a line feed.
///
/// # Errors
///
/// `AllocError` where memory is refused. It is then left open how much of the text was appended.
pub fn push_json(out: &mut Vec<u8>, compound: &Compound<'_>) -> Result<(), AllocError>
    ensures { OnOk result (out.new.items ≡ out.old.items ++ json_line (datagram_json compound.now)) }
{
    let alloc = *out.allocator();
    let mut writer = begin_line(alloc, out);
    let written = write_datagram(&mut writer, alloc, compound);
    end_line(out, writer, written)
}

/// Appends the line of a refused datagram in JSON, with a line feed.
///
/// # Errors
///
/// `AllocError` where memory is refused. It is then left open how much of the text was appended.
pub fn push_fault_json(out: &mut Vec<u8>, fault: &WireFault) -> Result<(), AllocError>
    ensures { OnOk result (out.new.items ≡ out.old.items ++ json_line (fault_json fault.now)) }
{
    let alloc = *out.allocator();
    let mut writer = begin_line(alloc, out);
    let written = write_fault(&mut writer, fault);
    end_line(out, writer, written)
}

/// Writes what the octets of a datagram say: its packets, or its first fault.
pub(crate) fn write_reading(
    writer: &mut Writer,
    alloc: Global,
    octets: &[u8],
) -> Result<(), AllocError>
    ensures { OnOk result ((value : Json) × IsShownAs octets.now value × AddsJson writer.old writer.new value) }
{
    match Compound::read(octets) {
        Ok(compound) => write_datagram(writer, alloc, &compound),
        Err(fault) => write_fault(writer, &fault),
    }
}

/// Writes an accepted datagram.
fn write_datagram(
    writer: &mut Writer,
    alloc: Global,
    compound: &Compound<'_>,
) -> Result<(), AllocError>
    ensures { OnOk result (AddsJson writer.old writer.new (datagram_json compound.now)) }
{
    writer.begin_object()?;
    writer.key("packets")?;
    write_packets(writer, alloc, compound)?;
    writer.end_object()?;
    Ok(())
}

/// Writes the packets of a datagram.
fn write_packets(
    writer: &mut Writer,
    alloc: Global,
    compound: &Compound<'_>,
) -> Result<(), AllocError>
    ensures { OnOk result (AddsJson writer.old writer.new (array_of (map packet_json compound.now))) }
{
    writer.begin_array()?;
    for packet in compound.packets() {
        write_packet(writer, alloc, &packet)?;
    }
    writer.end_array()?;
    Ok(())
}

/// Writes a packet.
fn write_packet(
    writer: &mut Writer,
    alloc: Global,
    packet: &PacketView<'_>,
) -> Result<(), AllocError>
    ensures { OnOk result (AddsJson writer.old writer.new (packet_json (packet_value packet.now))) }
{
    match packet {
        PacketView::Sr(report) => write_sender_report(writer, alloc, report),
        PacketView::Rr(report) => write_receiver_report(writer, alloc, report),
        PacketView::Sdes(description) => write_description(writer, alloc, description),
        PacketView::Bye(goodbye) => write_bye(writer, alloc, goodbye),
        PacketView::App(packet) => write_application(writer, alloc, packet),
        PacketView::Other(packet) => write_other(writer, alloc, packet),
    }
}

/// Writes an application's packet.
fn write_application(
    writer: &mut Writer,
    alloc: Global,
    packet: &Application<'_>,
) -> Result<(), AllocError>
    ensures { OnOk result (AddsJson writer.old writer.new (packet_json (packet_value (App packet.now)))) }
{
    writer.begin_object()?;
    write_name(writer, "type", "APP")?;
    write_word(writer, alloc, "ssrc", packet.ssrc)?;
    write_number(writer, "subtype", u32::from(packet.subtype))?;
    write_text(writer, alloc, "name", &packet.name)?;
    write_octets(writer, alloc, "data", packet.data)?;
    writer.end_object()?;
    Ok(())
}

/// Writes a packet of another type.
fn write_other(
    writer: &mut Writer,
    alloc: Global,
    packet: &OtherPacket<'_>,
) -> Result<(), AllocError>
    ensures { OnOk result (AddsJson writer.old writer.new (packet_json (packet_value (Other packet.now)))) }
{
    writer.begin_object()?;
    write_number(writer, "type", u32::from(packet.kind))?;
    write_number(writer, "count", u32::from(packet.count))?;
    write_octets(writer, alloc, "body", packet.body)?;
    writer.end_object()?;
    Ok(())
}

/// Writes why a datagram is refused.
fn write_fault(writer: &mut Writer, fault: &WireFault) -> Result<(), AllocError>
    ensures { OnOk result (AddsJson writer.old writer.new (fault_json fault.now)) }
{
    writer.begin_object()?;
    write_name(writer, "refused", reason_name(fault.reason))?;
    write_long_number(writer, "at", fault.place as u64)?;
    writer.end_object()?;
    Ok(())
}

/// The number of a rule and its name.
pub(crate) fn reason_name(reason: FaultReason) -> &'static str
    ensures { result.now ≡ reason_text reason }
{
    match reason {
        FaultReason::Short => "F1 Short",
        FaultReason::Version => "F2 Version",
        FaultReason::FirstType => "F3 FirstType",
        FaultReason::FirstPadding => "F4 FirstPadding",
        FaultReason::Length => "F5 Length",
        FaultReason::Padding => "F6 Padding",
        FaultReason::Body => "F7 Body",
        FaultReason::Item => "F8 Item",
        FaultReason::Reason => "F9 Reason",
        FaultReason::TooLong => "F10 TooLong",
    }
}
