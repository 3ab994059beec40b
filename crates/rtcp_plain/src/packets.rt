//! The packets of a datagram in plain words.

ghost use Rattle.std.specs.Prelude.{◌≡◌, ◌++◌, OnOk};
ghost use Rattle.rtcp_wire.specs.Views.{packet_value};
ghost use Rattle.rtcp_wire.specs.declared.packet.PacketView.TheVariants.{App, Other};
ghost use Rattle.rtcp_plain.specs.Plain.{packet_text, plain_text, source_text};

use crate::descriptions::{push_bye, push_description};
use crate::numbers::{push_number, push_quoted};
use crate::reports::{push_receiver_report, push_sender_report};
use rtcp_text::text::digits::push_word;
use rtcp_wire::{Application, Compound, OtherPacket, PacketView};
use std::alloc::AllocError;

/// Appends the line of an accepted datagram in plain words, with a line feed. `rate` is how many units a second the
/// jitter of report blocks has, where that is known: it is then shown in milliseconds, and otherwise in units.
///
/// # Errors
///
/// `AllocError` where memory is refused. It is then left open how much of the text was appended.
pub fn push_plain(
    out: &mut Vec<u8>,
    compound: &Compound<'_>,
    rate: Option<u32>,
) -> Result<(), AllocError>
    ensures { OnOk result (out.new.items ≡ out.old.items ++ plain_text rate compound.now) }
{
    out.extend_from_slice(b"ok")?;
    for packet in compound.packets() {
        push_packet(out, &packet, rate)?;
    }
    out.push(b'\n')?;
    Ok(())
}

/// Appends a packet, after a space.
fn push_packet(
    out: &mut Vec<u8>,
    packet: &PacketView<'_>,
    rate: Option<u32>,
) -> Result<(), AllocError>
    ensures { OnOk result (out.new.items ≡ out.old.items ++ packet_text rate (packet_value packet.now)) }
{
    match packet {
        PacketView::Sr(report) => push_sender_report(out, report, rate),
        PacketView::Rr(report) => push_receiver_report(out, report, rate),
        PacketView::Sdes(description) => push_description(out, description, rate),
        PacketView::Bye(goodbye) => push_bye(out, goodbye, rate),
        PacketView::App(packet) => push_application(out, packet, rate),
        PacketView::Other(packet) => push_other(out, packet, rate),
    }
}

/// Appends an application's packet: of its data the length, in octets.
fn push_application(
    out: &mut Vec<u8>,
    packet: &Application<'_>,
    rate: Option<u32>,
) -> Result<(), AllocError>
    ensures { OnOk result (out.new.items ≡ out.old.items ++ packet_text rate (packet_value (App packet.now))) }
{
    out.extend_from_slice(b" APP")?;
    push_source(out, packet.ssrc)?;
    push_number(out, b" subtype=", u64::from(packet.subtype))?;
    out.extend_from_slice(b" name=")?;
    push_quoted(out, &packet.name)?;
    push_number(out, b" data=", packet.data.len() as u64)?;
    Ok(())
}

/// Appends a packet of another type: of its body the length, in octets.
fn push_other(
    out: &mut Vec<u8>,
    packet: &OtherPacket<'_>,
    rate: Option<u32>,
) -> Result<(), AllocError>
    ensures { OnOk result (out.new.items ≡ out.old.items ++ packet_text rate (packet_value (Other packet.now))) }
{
    push_number(out, b" OTHER type=", u64::from(packet.kind))?;
    push_number(out, b" count=", u64::from(packet.count))?;
    push_number(out, b" body=", packet.body.len() as u64)?;
    Ok(())
}

/// Appends an SSRC.
pub(crate) fn push_source(out: &mut Vec<u8>, ssrc: u32) -> Result<(), AllocError>
    ensures { OnOk result (out.new.items ≡ out.old.items ++ source_text ssrc) }
{
    out.extend_from_slice(b" ssrc=")?;
    push_word(out, ssrc)
}
