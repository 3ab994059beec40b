//! The BYE packets of a compound (RFC 3550, 6.6).

ghost use Rattle.std.specs.Prelude.{◌≡◌, min};
ghost use Rattle.rtcp_wire.specs.Views.{packet_value};
ghost use Rattle.rtcp_engine.specs.answers.Leaving.{bye_count, is_bye as is_bye_value};

use rtcp_wire::{PacketView, Packets};

/// The most members of a backoff.
pub(crate) const MAX_LEAVING: u32 = 65_535;

/// How many of these packets are BYE packets, at most 65,535.
pub(crate) fn count_byes(packets: Packets<'_>) -> u32
    ensures { result ≡ min 65535 (bye_count packets.entry) }
{
    let mut count = 0;
    'packets: for packet in packets {
        if is_bye(&packet) && count < MAX_LEAVING {
            count += 1;
        }
    }
    count
}

/// Whether a packet is a BYE packet.
fn is_bye(packet: &PacketView<'_>) -> bool
    ensures { result ≡ is_bye_value (packet_value packet.now) }
{
    matches!(packet, PacketView::Bye(_))
}
