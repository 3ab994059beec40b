//! The line of `rtcp check --plain`: packets in plain words.

ghost use Rattle.std.specs.Prelude.{◌≡◌, ◌≤◌, option_copied};
ghost use Rattle.std.specs.List.{flat_map};
ghost use Rattle.core.specs.Char.Escape.{escape_ascii};
ghost use Rattle.rtcp_wire.specs.Views.{block_value, packet_value, sender_value};
ghost use Rattle.rtcp_wire.specs.WriterViews.{item_ref_of};
ghost use Rattle.rtcp_wire.specs.declared.packet.PacketView.TheVariants.{App, Bye, Other, Rr, Sdes, Sr};
ghost use Rattle.rtcp_plain.specs.Numbers.{fixed_text, quoted_text, seconds_text, time_text};
ghost use Rattle.rtcp_plain.specs.Plain.{block_text, bye_reason_text, chunk_text, extension_text, item_name, item_text, jitter_text, last_report_text, loss_text, packet_text, reception_text, report_end_text, sender_text, source_text};
ghost use Rattle.rtcp_print.specs.Lines.{plain_words};
ghost use Rattle.rtcp_print.specs.Pages.{Adds};

use crate::joined::{Told, push_each};
use crate::page::Page;
use itoa::Buffer;
use rtcp_plain::numbers::{middle_time, ntp_time};
use rtcp_wire::{
    Application, Block, Blocks, Chunk, Compound, Goodbye, ItemRef, OtherPacket, PacketView,
    ReceiverReport, SenderReport, SourceDescription,
};

/// Appends the packets of an accepted datagram in plain words.
pub(crate) fn push_plain(page: &mut Page<'_>, compound: &Compound<'_>, rate: Option<u32>)
    ensures same { page.new.room.ghost_name ≡ page.old.room.ghost_name }
    ensures adds { Adds page.old page.new (plain_words rate compound.now) }
{
    page.push(b"ok");
    push_each(page, compound.packets(), rate);
}

impl Told for PacketView<'_> {
    ghost words = { λ rate packet. packet_text rate (packet_value packet) };

    fn push_words(&self, page: &mut Page<'_>, rate: Option<u32>) {
        match self {
            PacketView::Sr(report) => push_sender_report(page, report, rate),
            PacketView::Rr(report) => push_receiver_report(page, report, rate),
            PacketView::Sdes(description) => push_description(page, description, rate),
            PacketView::Bye(goodbye) => push_bye(page, goodbye, rate),
            PacketView::App(packet) => push_application(page, packet, rate),
            PacketView::Other(packet) => push_other(page, packet, rate),
        }
    }
}

/// Appends a sender report.
fn push_sender_report(page: &mut Page<'_>, report: &SenderReport<'_>, rate: Option<u32>)
    ensures same { page.new.room.ghost_name ≡ page.old.room.ghost_name }
    ensures adds { Adds page.old page.new (packet_text rate (packet_value (Sr report.now))) }
{
    push_sender(page, report);
    push_report_end(page, report.blocks(), report.extension, rate);
}

/// Appends what a sender report says of its sender.
fn push_sender(page: &mut Page<'_>, report: &SenderReport<'_>)
    ensures same { page.new.room.ghost_name ≡ page.old.room.ghost_name }
    ensures adds { Adds page.old page.new (sender_text (sender_value report.now)) }
{
    page.push(b" SR");
    push_source(page, report.ssrc);
    page.push(b" ntp=");
    push_seconds(page, ntp_time(report.ntp));
    page.push(b" rtp=");
    page.push_decimal(u64::from(report.rtp));
    page.push(b" packets=");
    page.push_decimal(u64::from(report.packets));
    page.push(b" octets=");
    page.push_decimal(u64::from(report.octets));
}

/// Appends a receiver report.
fn push_receiver_report(page: &mut Page<'_>, report: &ReceiverReport<'_>, rate: Option<u32>)
    ensures same { page.new.room.ghost_name ≡ page.old.room.ghost_name }
    ensures adds { Adds page.old page.new (packet_text rate (packet_value (Rr report.now))) }
{
    page.push(b" RR");
    push_source(page, report.ssrc);
    push_report_end(page, report.blocks(), report.extension, rate);
}

/// Appends blocks, and the length of an extension in octets.
fn push_report_end(page: &mut Page<'_>, blocks: Blocks<'_>, extension: &[u8], rate: Option<u32>)
    ensures same { page.new.room.ghost_name ≡ page.old.room.ghost_name }
    ensures adds { Adds page.old page.new (report_end_text rate blocks.entry extension.now) }
{
    push_each(page, blocks, rate);
    push_extension(page, extension);
}

/// Appends the length of an extension, if it has one.
fn push_extension(page: &mut Page<'_>, extension: &[u8])
    ensures same { page.new.room.ghost_name ≡ page.old.room.ghost_name }
    ensures adds { Adds page.old page.new (extension_text extension.now) }
{
    if extension.is_empty() {
        return;
    }
    page.push_number(b" extension=", extension.len() as u64);
}

impl Told for Block {
    ghost words = { λ rate block. block_text rate (block_value block) };

    fn push_words(&self, page: &mut Page<'_>, rate: Option<u32>) {
        page.push(b" block about=");
        page.push_word(self.ssrc);
        push_reception(page, self, rate);
        push_last_report(page, self.lsr);
        page.push(b" dlsr=");
        push_seconds(page, middle_time(self.dlsr));
    }
}

/// Appends what a report block says of losses and jitter.
fn push_reception(page: &mut Page<'_>, block: &Block, rate: Option<u32>)
    ensures same { page.new.room.ghost_name ≡ page.old.room.ghost_name }
    ensures adds { Adds page.old page.new (reception_text rate (block_value block.now)) }
{
    push_loss(page, block.fraction);
    page.push(b" lost=");
    page.push_signed(block.lost);
    page.push(b" highest=");
    page.push_decimal(u64::from(block.highest));
    push_jitter(page, block.jitter, rate);
}

/// Appends a fraction lost, in per cent.
fn push_loss(page: &mut Page<'_>, fraction: u8)
    ensures same { page.new.room.ghost_name ≡ page.old.room.ghost_name }
    ensures adds { Adds page.old page.new (loss_text fraction) }
{
    page.push(b" loss=");
    push_fixed(page, u64::from(fraction) * 1_000 / 256, 10);
    page.push(b"%");
}

/// Appends jitter, in milliseconds where its units are known.
fn push_jitter(page: &mut Page<'_>, jitter: u32, rate: Option<u32>)
    ensures same { page.new.room.ghost_name ≡ page.old.room.ghost_name }
    ensures adds { Adds page.old page.new (jitter_text rate jitter) }
{
    page.push(b" jitter=");
    match rate {
        Some(rate) => push_time(page, u64::from(jitter) * 1_000_000 / u64::from(rate.max(1))),
        None => {
            page.push_decimal(u64::from(jitter));
            page.push(b"units");
        }
    }
}

/// Appends the moment of the last sender report, if there is one.
fn push_last_report(page: &mut Page<'_>, lsr: u32)
    ensures same { page.new.room.ghost_name ≡ page.old.room.ghost_name }
    ensures adds { Adds page.old page.new (last_report_text lsr) }
{
    page.push(b" lsr=");
    if lsr == 0 {
        page.push(b"none");
    } else {
        push_seconds(page, middle_time(lsr));
    }
}

/// Appends a source description.
fn push_description(page: &mut Page<'_>, description: &SourceDescription<'_>, rate: Option<u32>)
    ensures same { page.new.room.ghost_name ≡ page.old.room.ghost_name }
    ensures adds { Adds page.old page.new (packet_text rate (packet_value (Sdes description.now))) }
{
    page.push(b" SDES");
    push_each(page, description.chunks(), rate);
}

impl Told for Chunk<'_> {
    ghost words = { λ rate chunk. chunk_text chunk };

    fn push_words(&self, page: &mut Page<'_>, rate: Option<u32>) {
        push_source(page, self.id());
        push_each(page, self.items(), rate);
    }
}

impl Told for ItemRef<'_> {
    ghost words = { λ rate item. item_text (item_ref_of item) };

    fn push_words(&self, page: &mut Page<'_>, _rate: Option<u32>) {
        page.push(b" ");
        push_item_name(page, self.kind);
        page.push(b"=");
        push_quoted(page, self.text);
    }
}

/// Appends the name of an item's type (RFC 3550, 6.5).
fn push_item_name(page: &mut Page<'_>, kind: u8)
    ensures same { page.new.room.ghost_name ≡ page.old.room.ghost_name }
    ensures adds { Adds page.old page.new (item_name kind) }
{
    match kind {
        1 => page.push(b"cname"),
        2 => page.push(b"name"),
        3 => page.push(b"email"),
        4 => page.push(b"phone"),
        5 => page.push(b"loc"),
        6 => page.push(b"tool"),
        7 => page.push(b"note"),
        8 => page.push(b"priv"),
        _ => page.push_number(b"item", u64::from(kind)),
    }
}

/// Appends a BYE.
fn push_bye(page: &mut Page<'_>, goodbye: &Goodbye<'_>, rate: Option<u32>)
    ensures same { page.new.room.ghost_name ≡ page.old.room.ghost_name }
    ensures adds { Adds page.old page.new (packet_text rate (packet_value (Bye goodbye.now))) }
{
    page.push(b" BYE");
    push_each(page, goodbye.ids(), rate);
    push_reason(page, goodbye.reason);
}

/// An identifier.
impl Told for u32 {
    ghost words = { λ rate. source_text };

    fn push_words(&self, page: &mut Page<'_>, _rate: Option<u32>) {
        push_source(page, *self);
    }
}

/// Appends a BYE's reason, if it has one.
fn push_reason(page: &mut Page<'_>, reason: Option<&[u8]>)
    ensures same { page.new.room.ghost_name ≡ page.old.room.ghost_name }
    ensures adds { Adds page.old page.new (bye_reason_text (option_copied reason.entry)) }
{
    match reason {
        Some(text) => {
            page.push(b" reason=");
            push_quoted(page, text);
        }
        None => (),
    }
}

/// Appends a packet of an application: of its data the length, in octets.
fn push_application(page: &mut Page<'_>, packet: &Application<'_>, rate: Option<u32>)
    ensures same { page.new.room.ghost_name ≡ page.old.room.ghost_name }
    ensures adds { Adds page.old page.new (packet_text rate (packet_value (App packet.now))) }
{
    page.push(b" APP");
    push_source(page, packet.ssrc);
    page.push(b" subtype=");
    page.push_decimal(u64::from(packet.subtype));
    page.push(b" name=");
    push_quoted(page, &packet.name);
    page.push(b" data=");
    page.push_decimal(packet.data.len() as u64);
}

/// Appends a packet of another type: of its body the length, in octets.
fn push_other(page: &mut Page<'_>, packet: &OtherPacket<'_>, rate: Option<u32>)
    ensures same { page.new.room.ghost_name ≡ page.old.room.ghost_name }
    ensures adds { Adds page.old page.new (packet_text rate (packet_value (Other packet.now))) }
{
    page.push(b" OTHER type=");
    page.push_decimal(u64::from(packet.kind));
    page.push(b" count=");
    page.push_decimal(u64::from(packet.count));
    page.push(b" body=");
    page.push_decimal(packet.body.len() as u64);
}

/// Appends an SSRC.
fn push_source(page: &mut Page<'_>, ssrc: u32)
    ensures same { page.new.room.ghost_name ≡ page.old.room.ghost_name }
    ensures adds { Adds page.old page.new (source_text ssrc) }
{
    page.push(b" ssrc=");
    page.push_word(ssrc);
}

// ---- Numbers and texts

/// Appends a number of tenths, thousandths or millionths, by its unit, with as many digits after the point.
fn push_fixed(page: &mut Page<'_>, number: u64, unit: u64)
    requires some { 1 ≤ unit }
    requires few { unit ≤ 1000000 }
    ensures same { page.new.room.ghost_name ≡ page.old.room.ghost_name }
    ensures adds { Adds page.old page.new (fixed_text unit number) }
{
    page.push_decimal(number / unit);
    page.push(b".");
    let mut digits = Buffer::new();
    // The leading 1 keeps the zeros after it.
    match digits.format(unit + number % unit).as_bytes().split_first() {
        Some((_, fraction)) => page.push(fraction),
        None => (),
    }
}

/// Appends a time of so many microseconds, in milliseconds.
fn push_time(page: &mut Page<'_>, time: u64)
    ensures same { page.new.room.ghost_name ≡ page.old.room.ghost_name }
    ensures adds { Adds page.old page.new (time_text time) }
{
    push_fixed(page, time, 1_000);
    page.push(b"ms");
}

/// Appends a time of so many microseconds, in seconds.
fn push_seconds(page: &mut Page<'_>, time: u64)
    ensures same { page.new.room.ghost_name ≡ page.old.room.ghost_name }
    ensures adds { Adds page.old page.new (seconds_text time) }
{
    push_fixed(page, time, 1_000_000);
    page.push(b"s");
}

/// Appends a text between double quotes, with the escapes of Rust's `escape_ascii` for what is not printed.
fn push_quoted(page: &mut Page<'_>, text: &[u8])
    ensures same { page.new.room.ghost_name ≡ page.old.room.ghost_name }
    ensures adds { Adds page.old page.new (quoted_text text.now) }
{
    page.push(b"\"");
    push_escaped(page, text);
    page.push(b"\"");
}

/// Appends a text, with escapes for what is not printed.
fn push_escaped(page: &mut Page<'_>, text: &[u8])
    ensures same { page.new.room.ghost_name ≡ page.old.room.ghost_name }
    ensures adds { Adds page.old page.new (flat_map escape_ascii text.now) }
{
    for octet in text {
        push_octet(page, *octet);
    }
}

/// Appends an octet of a text, with an escape if it is not printed.
fn push_octet(page: &mut Page<'_>, octet: u8)
    ensures same { page.new.room.ghost_name ≡ page.old.room.ghost_name }
    ensures adds { Adds page.old page.new (escape_ascii octet) }
{
    for part in octet.escape_ascii() {
        page.push(&[part]);
    }
}
