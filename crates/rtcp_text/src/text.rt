//! The text of packets, faults and answers, as `rtcp check` and `rtcp replay` show them, and of events, as
//! `rtcp replay` reads them.
//!
//! # Errors
//!
//! Each function here and in the modules below returns `AllocError` where memory is refused. It is then left
//! open how much of the text was appended.

ghost use Rattle.std.specs.Prelude.{◌≡◌, ◌++◌, ℕ, List, OnOk};
ghost use Rattle.rtcp_wire.specs.Views.{packet_value};
ghost use Rattle.rtcp_text.specs.Check.{IsAnswerBy};
ghost use Rattle.rtcp_text.specs.Text.{packet_text, accepted_text, reason_text, fault_text, fault_words};

mod answers;
mod byes;
mod descriptions;
pub mod digits;
mod events;
mod joined;
mod others;
mod reports;
mod settings;
mod tail;

use crate::showing::Showing;
pub use answers::{push_refusal, push_reply, push_start};
use byes::push_bye;
use descriptions::push_description;
use digits::push_decimal;
pub use events::push_event;
use others::{push_application, push_other};
use reports::{push_receiver_report, push_sender_report};
use rtcp_wire::{Compound, FaultReason, PacketView, WireFault};
use std::alloc::AllocError;

/// Appends the line that answers a datagram: its packets as they are shown, or its first fault.
pub(crate) fn push_shown<S: Showing>(
    out: &mut Vec<u8>,
    datagram: &[u8],
    showing: &S,
) -> Result<(), AllocError>
    ensures { OnOk result ((text : List ℕ) × IsAnswerBy S.line datagram.now text
        × (out.new.items ≡ out.old.items ++ text)) }
{
    match Compound::read(datagram) {
        Ok(compound) => showing.push_line(out, &compound),
        Err(fault) => push_fault(out, &fault),
    }
}

/// Appends the line for an accepted datagram.
pub fn push_accepted(out: &mut Vec<u8>, compound: &Compound<'_>) -> Result<(), AllocError>
    ensures { OnOk result (out.new.items ≡ out.old.items ++ accepted_text compound.now) }
{
    out.extend_from_slice(b"ok")?;
    for packet in compound.packets() {
        out.push(b' ')?;
        push_packet(out, &packet)?;
    }
    out.push(b'\n')?;
    Ok(())
}

/// Appends the text of a packet.
pub fn push_packet(out: &mut Vec<u8>, packet: &PacketView<'_>) -> Result<(), AllocError>
    ensures { OnOk result (out.new.items ≡ out.old.items ++ packet_text (packet_value packet.now)) }
{
    match packet {
        PacketView::Sr(report) => push_sender_report(out, report),
        PacketView::Rr(report) => push_receiver_report(out, report),
        PacketView::Sdes(description) => push_description(out, description),
        PacketView::Bye(goodbye) => push_bye(out, goodbye),
        PacketView::App(packet) => push_application(out, packet),
        PacketView::Other(packet) => push_other(out, packet),
    }
}

/// Appends the line for a refused datagram.
pub fn push_fault(out: &mut Vec<u8>, fault: &WireFault) -> Result<(), AllocError>
    ensures { OnOk result (out.new.items ≡ out.old.items ++ fault_text fault.now) }
{
    push_fault_words(out, fault)?;
    out.push(b'\n')?;
    Ok(())
}

/// Appends the rule that a datagram breaks, and where.
fn push_fault_words(out: &mut Vec<u8>, fault: &WireFault) -> Result<(), AllocError>
    ensures { OnOk result (out.new.items ≡ out.old.items ++ fault_words fault.now) }
{
    out.extend_from_slice(reason_name(fault.reason).as_bytes())?;
    out.extend_from_slice(b" at ")?;
    push_decimal(out, fault.place as u64)
}

/// The number of a rule and its name.
fn reason_name(reason: FaultReason) -> &'static str
    ensures { result.now ≡ reason_text reason }
{
    match reason {
        FaultReason::Short => "F1 Short",
        FaultReason::Version => "F2 Version",
        FaultReason::FirstType => "F3 FirstType",
        FaultReason::FirstPadding => "F4 FirstPadding",
        FaultReason::Length => "F5 Length",
        FaultReason::Padding => "F6 Padding",
        FaultReason::Body => "F7 Body",
        FaultReason::Item => "F8 Item",
        FaultReason::Reason => "F9 Reason",
        FaultReason::TooLong => "F10 TooLong",
    }
}
