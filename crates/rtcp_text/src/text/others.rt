//! The text of packets of applications, and of types that are not looked into.

ghost use Rattle.std.specs.Prelude.{◌≡◌, ◌++◌, OnOk};
ghost use Rattle.rtcp_wire.specs.Views.{packet_value};
ghost use Rattle.rtcp_wire.specs.declared.packet.PacketView.TheVariants.{App, Other};
ghost use Rattle.rtcp_text.specs.Text.{packet_text};

use super::digits::{push_decimal, push_octets, push_word};
use rtcp_wire::{Application, OtherPacket};
use std::alloc::AllocError;

/// Appends the text of an application's packet: of its data the length, in octets.
pub(super) fn push_application(
    out: &mut Vec<u8>,
    packet: &Application<'_>,
) -> Result<(), AllocError>
    ensures { OnOk result (out.new.items ≡ out.old.items ++ packet_text (packet_value (App packet.now))) }
{
    out.extend_from_slice(b"APP(")?;
    push_decimal(out, u64::from(packet.subtype))?;
    out.push(b',')?;
    push_word(out, packet.ssrc)?;
    out.push(b',')?;
    push_octets(out, &packet.name)?;
    out.push(b',')?;
    push_decimal(out, packet.data.len() as u64)?;
    out.push(b')')?;
    Ok(())
}

/// Appends the text of a packet of another type: of its body the length, in octets.
pub(super) fn push_other(out: &mut Vec<u8>, packet: &OtherPacket<'_>) -> Result<(), AllocError>
    ensures { OnOk result (out.new.items ≡ out.old.items ++ packet_text (packet_value (Other packet.now))) }
{
    out.extend_from_slice(b"OTHER(")?;
    push_decimal(out, u64::from(packet.kind))?;
    out.push(b',')?;
    push_decimal(out, u64::from(packet.count))?;
    out.push(b',')?;
    push_decimal(out, packet.body.len() as u64)?;
    out.push(b')')?;
    Ok(())
}
