//! The line of `rtcp check`: packets, or a fault.

ghost use Rattle.std.specs.Prelude.{◌≡◌, option_copied};
ghost use Rattle.rtcp_wire.specs.Views.{block_value, packet_value, sender_value};
ghost use Rattle.rtcp_wire.specs.WriterViews.{item_ref_of};
ghost use Rattle.rtcp_wire.specs.declared.packet.PacketView.TheVariants.{App, Bye, Other, Rr, Sdes, Sr};
ghost use Rattle.rtcp_text.specs.Text.{block_text, bye_reason_text, chunk_text, fault_words, hex_word, item_text, packet_text, reason_text, report_end_text, sender_text};
ghost use Rattle.rtcp_print.specs.Lines.{accepted_words};
ghost use Rattle.rtcp_print.specs.Pages.{Adds};

use crate::joined::{Shown, push_joined};
use crate::page::Page;
use rtcp_wire::{
    Application, Block, Blocks, Chunk, Compound, FaultReason, Goodbye, ItemRef, OtherPacket,
    PacketView, ReceiverReport, SenderReport, SourceDescription, WireFault,
};

/// Appends the packets of an accepted datagram.
pub(crate) fn push_accepted(page: &mut Page<'_>, compound: &Compound<'_>)
    ensures same { page.new.room.ghost_name ≡ page.old.room.ghost_name }
    ensures adds { Adds page.old page.new (accepted_words compound.now) }
{
    page.push(b"ok");
    for packet in compound.packets() {
        page.push(b" ");
        push_packet(page, &packet);
    }
}

/// Appends the rule that a refused datagram breaks, and where.
pub(crate) fn push_fault(page: &mut Page<'_>, fault: &WireFault)
    ensures same { page.new.room.ghost_name ≡ page.old.room.ghost_name }
    ensures adds { Adds page.old page.new (fault_words fault.now) }
{
    page.push(reason_name(fault.reason).as_bytes());
    page.push(b" at ");
    page.push_decimal(fault.place as u64);
}

/// The number of a rule and its name.
fn reason_name(reason: FaultReason) -> &'static str
    ensures { result.now ≡ reason_text reason }
{
    match reason {
        FaultReason::Short => "F1 Short",
        FaultReason::Version => "F2 Version",
        FaultReason::FirstType => "F3 FirstType",
        FaultReason::FirstPadding => "F4 FirstPadding",
        FaultReason::Length => "F5 Length",
        FaultReason::Padding => "F6 Padding",
        FaultReason::Body => "F7 Body",
        FaultReason::Item => "F8 Item",
        FaultReason::Reason => "F9 Reason",
        FaultReason::TooLong => "F10 TooLong",
    }
}

/// Appends a packet.
fn push_packet(page: &mut Page<'_>, packet: &PacketView<'_>)
    ensures same { page.new.room.ghost_name ≡ page.old.room.ghost_name }
    ensures adds { Adds page.old page.new (packet_text (packet_value packet.now)) }
{
    match packet {
        PacketView::Sr(report) => push_sender_report(page, report),
        PacketView::Rr(report) => push_receiver_report(page, report),
        PacketView::Sdes(description) => push_description(page, description),
        PacketView::Bye(goodbye) => push_bye(page, goodbye),
        PacketView::App(packet) => push_application(page, packet),
        PacketView::Other(packet) => push_other(page, packet),
    }
}

/// Appends a sender report.
fn push_sender_report(page: &mut Page<'_>, report: &SenderReport<'_>)
    ensures same { page.new.room.ghost_name ≡ page.old.room.ghost_name }
    ensures adds { Adds page.old page.new (packet_text (packet_value (Sr report.now))) }
{
    page.push(b"SR(");
    push_sender(page, report);
    page.push(b",");
    push_report_end(page, report.blocks(), report.extension);
    page.push(b")");
}

/// Appends what a sender report says of its sender.
fn push_sender(page: &mut Page<'_>, report: &SenderReport<'_>)
    ensures same { page.new.room.ghost_name ≡ page.old.room.ghost_name }
    ensures adds { Adds page.old page.new (sender_text (sender_value report.now)) }
{
    page.push_word(report.ssrc);
    page.push(b",");
    page.push_long(report.ntp);
    page.push(b",");
    page.push_word(report.rtp);
    page.push(b",");
    page.push_decimal(u64::from(report.packets));
    page.push(b",");
    page.push_decimal(u64::from(report.octets));
}

/// Appends a receiver report.
fn push_receiver_report(page: &mut Page<'_>, report: &ReceiverReport<'_>)
    ensures same { page.new.room.ghost_name ≡ page.old.room.ghost_name }
    ensures adds { Adds page.old page.new (packet_text (packet_value (Rr report.now))) }
{
    page.push(b"RR(");
    page.push_word(report.ssrc);
    page.push(b",");
    push_report_end(page, report.blocks(), report.extension);
    page.push(b")");
}

/// Appends blocks, and the length of an extension in octets.
fn push_report_end(page: &mut Page<'_>, blocks: Blocks<'_>, extension: &[u8])
    ensures same { page.new.room.ghost_name ≡ page.old.room.ghost_name }
    ensures adds { Adds page.old page.new (report_end_text blocks.entry extension.now) }
{
    page.push(b"[");
    push_joined(page, b';', blocks);
    page.push(b"],");
    page.push_decimal(extension.len() as u64);
}

impl Shown for Block {
    ghost text = { λ block. block_text (block_value block) };

    fn push_text(&self, page: &mut Page<'_>) {
        page.push_word(self.ssrc);
        page.push(b"/");
        page.push_decimal(u64::from(self.fraction));
        page.push(b"/");
        page.push_signed(self.lost);
        page.push(b"/");
        page.push_decimal(u64::from(self.highest));
        page.push(b"/");
        page.push_decimal(u64::from(self.jitter));
        page.push(b"/");
        page.push_word(self.lsr);
        page.push(b"/");
        page.push_word(self.dlsr);
    }
}

/// Appends a source description.
fn push_description(page: &mut Page<'_>, description: &SourceDescription<'_>)
    ensures same { page.new.room.ghost_name ≡ page.old.room.ghost_name }
    ensures adds { Adds page.old page.new (packet_text (packet_value (Sdes description.now))) }
{
    page.push(b"SDES([");
    push_joined(page, b';', description.chunks());
    page.push(b"])");
}

impl Shown for Chunk<'_> {
    ghost text = { chunk_text };

    fn push_text(&self, page: &mut Page<'_>) {
        page.push_word(self.id());
        page.push(b"{");
        push_joined(page, b',', self.items());
        page.push(b"}");
    }
}

impl Shown for ItemRef<'_> {
    ghost text = { λ item. item_text (item_ref_of item) };

    fn push_text(&self, page: &mut Page<'_>) {
        page.push_decimal(u64::from(self.kind));
        page.push(b"=");
        page.push_hex(self.text);
    }
}

/// Appends a BYE.
fn push_bye(page: &mut Page<'_>, goodbye: &Goodbye<'_>)
    ensures same { page.new.room.ghost_name ≡ page.old.room.ghost_name }
    ensures adds { Adds page.old page.new (packet_text (packet_value (Bye goodbye.now))) }
{
    page.push(b"BYE([");
    push_joined(page, b';', goodbye.ids());
    page.push(b"],");
    push_reason(page, goodbye.reason);
    page.push(b")");
}

/// An identifier.
impl Shown for u32 {
    ghost text = { hex_word };

    fn push_text(&self, page: &mut Page<'_>) {
        page.push_word(*self);
    }
}

/// Appends a BYE's reason, or a dash where it has none.
fn push_reason(page: &mut Page<'_>, reason: Option<&[u8]>)
    ensures same { page.new.room.ghost_name ≡ page.old.room.ghost_name }
    ensures adds { Adds page.old page.new (bye_reason_text (option_copied reason.entry)) }
{
    match reason {
        Some(text) => {
            page.push(b"=");
            page.push_hex(text);
        }
        None => page.push(b"-"),
    }
}

/// Appends a packet of an application: of its data the length, in octets.
fn push_application(page: &mut Page<'_>, packet: &Application<'_>)
    ensures same { page.new.room.ghost_name ≡ page.old.room.ghost_name }
    ensures adds { Adds page.old page.new (packet_text (packet_value (App packet.now))) }
{
    page.push(b"APP(");
    page.push_decimal(u64::from(packet.subtype));
    page.push(b",");
    page.push_word(packet.ssrc);
    page.push(b",");
    page.push_hex(&packet.name);
    page.push(b",");
    page.push_decimal(packet.data.len() as u64);
    page.push(b")");
}

/// Appends a packet of another type: of its body the length, in octets.
fn push_other(page: &mut Page<'_>, packet: &OtherPacket<'_>)
    ensures same { page.new.room.ghost_name ≡ page.old.room.ghost_name }
    ensures adds { Adds page.old page.new (packet_text (packet_value (Other packet.now))) }
{
    page.push(b"OTHER(");
    page.push_decimal(u64::from(packet.kind));
    page.push(b",");
    page.push_decimal(u64::from(packet.count));
    page.push(b",");
    page.push_decimal(packet.body.len() as u64);
    page.push(b")");
}
