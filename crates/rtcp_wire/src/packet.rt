//! Packets of any type.

ghost use Rattle.std.specs.Prelude.{◌≡◌};
ghost use Rattle.rtcp_wire.specs.Validity.{IsSomeBody};
ghost use Rattle.rtcp_wire.specs.Views.{packet_value};
ghost use Rattle.rtcp_wire.specs.Walks.{body_says};

use crate::app::{Application, application_from};
use crate::bye::{Goodbye, goodbye_from};
use crate::layout::{APPLICATION, GOODBYE, RECEIVER_REPORT, SENDER_REPORT, SOURCE_DESCRIPTION};
use crate::other::OtherPacket;
use crate::rr::{ReceiverReport, receiver_report_from};
use crate::sdes::SourceDescription;
use crate::sr::{SenderReport, sender_report_from};

/// An RTCP packet, which borrows from the datagram that was read.
#[derive(Debug, Drop)]
pub enum PacketView<'a> {
    /// A sender report, type 200 (RFC 3550, 6.4.1).
    Sr(SenderReport<'a>),
    /// A receiver report, type 201 (RFC 3550, 6.4.2).
    Rr(ReceiverReport<'a>),
    /// A source description, type 202 (RFC 3550, 6.5).
    Sdes(SourceDescription<'a>),
    /// A BYE, type 203 (RFC 3550, 6.6).
    Bye(Goodbye<'a>),
    /// A packet that an application defines, type 204 (RFC 3550, 6.7).
    App(Application<'a>),
    /// A packet of any other type, whose body is kept as it is.
    Other(OtherPacket<'a>),
}

/// What a body says, under its packet's type and count.
pub(crate) fn packet_from(kind: u8, count: u8, body: &[u8]) -> PacketView<'_>
    requires { IsSomeBody kind count body.now }
    ensures { packet_value result ≡ body_says kind count body.now }
{
    match kind {
        SENDER_REPORT => PacketView::Sr(sender_report_from(count, body)),
        RECEIVER_REPORT => PacketView::Rr(receiver_report_from(count, body)),
        SOURCE_DESCRIPTION => PacketView::Sdes(SourceDescription::new(count, body)),
        GOODBYE => PacketView::Bye(goodbye_from(count, body)),
        APPLICATION => PacketView::App(application_from(count, body)),
        _ => PacketView::Other(OtherPacket { kind, count, body }),
    }
}
