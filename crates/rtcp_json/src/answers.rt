//! What a participant answers, alone or with a guard before it.
//!
//! # Errors
//!
//! Each function here returns `AllocError` where memory is refused. It is then left open how much of the text was
//! appended.

ghost use Rattle.std.specs.Prelude.{◌≡◌, ◌≤◌, ◌++◌, [], Ok, OnOk, codes, option_map};
ghost use Rattle.rtcp_engine.specs.state.Views.{out_in, out_value, out_written, reply_value, size_written, step_value, written_step_value};
ghost use Rattle.rtcp_guarded.specs.Views as guarded;
ghost use Rattle.rtcp_text.specs.AnswerText.{kind_text};
ghost use Rattle.rtcp_json.specs.Adding.{AddsField, AddsFields, AddsJson};
ghost use Rattle.rtcp_json.specs.AnswerValues.{answer_json, counts_fields, guarded_answer_json, out_json, start_json, step_json};
ghost use Rattle.rtcp_json.specs.JsonValues.{json_line, number_json, optional_json, word_json};

use crate::fields::{
    write_long_number, write_name, write_null, write_number, write_octets, write_word,
};
use crate::lines::{begin_line, end_line};
use crate::refusals::{write_refusal, write_untaken};
use json::Writer;
use rtcp_engine::{Out, OutKind, Reply, Step, Written, WrittenStep};
use rtcp_guarded::{GuardedAnswer, GuardedReply};
use rtcp_wire::MAX_COMPOUND;
use std::alloc::{AllocError, Global};

/// Appends the line for the start of a session, with the moment of its first tick.
pub fn push_start_json(out: &mut Vec<u8>, next: Option<u64>) -> Result<(), AllocError>
    ensures { OnOk result (out.new.items ≡ out.old.items ++ json_line (start_json next)) }
{
    let alloc = *out.allocator();
    let mut writer = begin_line(alloc, out);
    let written = write_start(&mut writer, next);
    end_line(out, writer, written)
}

/// Appends the line for a reply, whose compound, if it has one, stands at the start of these octets.
pub fn push_answer_json(
    out: &mut Vec<u8>,
    reply: &Reply,
    octets: &[u8; MAX_COMPOUND],
) -> Result<(), AllocError>
    requires { size_written (out_written reply.now) ≤ 1472 }
    ensures { OnOk result
        (out.new.items ≡ out.old.items ++ json_line (answer_json (reply_value octets.now reply.now))) }
{
    let alloc = *out.allocator();
    let mut writer = begin_line(alloc, out);
    let written = match reply {
        Ok(told) => write_written_step(&mut writer, alloc, told, octets),
        Err(refusal) => write_refusal(&mut writer, refusal),
    };
    end_line(out, writer, written)
}

/// The same for the reply of a guarded participant.
pub fn push_guarded_json(
    out: &mut Vec<u8>,
    reply: &GuardedReply,
    octets: &[u8; MAX_COMPOUND],
) -> Result<(), AllocError>
    requires { size_written (guarded.out_written reply.now) ≤ 1472 }
    ensures { OnOk result (out.new.items
        ≡ out.old.items ++ json_line (guarded_answer_json (guarded.reply_value octets.now reply.now))) }
{
    let alloc = *out.allocator();
    let mut writer = begin_line(alloc, out);
    let written = match reply {
        Ok(told) => write_written_step(&mut writer, alloc, told, octets),
        Err(untaken) => write_untaken(&mut writer, untaken),
    };
    end_line(out, writer, written)
}

/// Writes what a guarded participant answers.
pub(crate) fn write_guarded_answer(
    writer: &mut Writer,
    alloc: Global,
    answer: &GuardedAnswer,
) -> Result<(), AllocError>
    ensures { OnOk result
        (AddsJson writer.old writer.new (guarded_answer_json (guarded.guarded_value answer.now))) }
{
    match answer {
        Ok(step) => write_step(writer, alloc, step),
        Err(untaken) => write_untaken(writer, untaken),
    }
}

/// Writes the start of a session.
fn write_start(writer: &mut Writer, next: Option<u64>) -> Result<(), AllocError>
    ensures { OnOk result (AddsJson writer.old writer.new (start_json next)) }
{
    writer.begin_object()?;
    writer.key("start")?;
    writer.begin_object()?;
    write_counts(writer, 1, 0, next)?;
    writer.end_object()?;
    writer.end_object()?;
    Ok(())
}

/// Writes a call that was taken, whose compound, if it has one, stands at the start of these octets.
fn write_written_step(
    writer: &mut Writer,
    alloc: Global,
    told: &WrittenStep,
    octets: &[u8; MAX_COMPOUND],
) -> Result<(), AllocError>
    requires { size_written told.now.out ≤ 1472 }
    ensures { OnOk result
        (AddsJson writer.old writer.new (step_json (written_step_value octets.now told.now))) }
{
    writer.begin_object()?;
    let standing = told.standing;
    write_counts(writer, standing.members, standing.senders, standing.next)?;
    write_sent(writer, alloc, told.out, octets)?;
    write_changed(writer, alloc, told.changed)?;
    writer.end_object()?;
    Ok(())
}

/// The same, where the step has its compound.
fn write_step(writer: &mut Writer, alloc: Global, step: &Step) -> Result<(), AllocError>
    ensures { OnOk result (AddsJson writer.old writer.new (step_json (step_value step.now))) }
{
    writer.begin_object()?;
    write_counts(writer, step.members, step.senders, step.next)?;
    write_compound(writer, alloc, &step.out)?;
    write_changed(writer, alloc, step.changed)?;
    writer.end_object()?;
    Ok(())
}

/// Writes the members, the senders, and the moment of the next tick.
fn write_counts(
    writer: &mut Writer,
    members: u32,
    senders: u32,
    next: Option<u64>,
) -> Result<(), AllocError>
    ensures { OnOk result (AddsFields writer.old writer.new (counts_fields members senders next)) }
{
    write_number(writer, "members", members)?;
    write_number(writer, "senders", senders)?;
    write_next(writer, next)?;
    Ok(())
}

/// Writes the moment of the next tick, if there is one.
fn write_next(writer: &mut Writer, next: Option<u64>) -> Result<(), AllocError>
    ensures { OnOk result (AddsField writer.old writer.new (codes "next") (optional_json number_json next)) }
{
    match next {
        Some(next) => write_long_number(writer, "next", next),
        None => write_null(writer, "next"),
    }
}

/// Writes a compound to send, which stands at the start of these octets, if there is one.
fn write_sent(
    writer: &mut Writer,
    alloc: Global,
    written: Option<Written>,
    octets: &[u8; MAX_COMPOUND],
) -> Result<(), AllocError>
    requires { size_written written ≤ 1472 }
    ensures { OnOk result
        (AddsField writer.old writer.new (codes "out") (optional_json out_json (out_in octets.now written))) }
{
    match written {
        Some(sent) => write_out(writer, alloc, sent.kind, &octets[..sent.size]),
        None => write_null(writer, "out"),
    }
}

/// The same of a compound with its octets.
fn write_compound(writer: &mut Writer, alloc: Global, sent: &Option<Out>) -> Result<(), AllocError>
    ensures { OnOk result
        (AddsField writer.old writer.new (codes "out") (optional_json out_json (option_map out_value sent.now))) }
{
    match sent {
        Some(sent) => write_out(writer, alloc, sent.kind, &sent.bytes),
        None => write_null(writer, "out"),
    }
}

/// Writes a compound to send.
fn write_out(
    writer: &mut Writer,
    alloc: Global,
    kind: OutKind,
    octets: &[u8],
) -> Result<(), AllocError>
    ensures { OnOk result (AddsField writer.old writer.new (codes "out")
        (out_json (record { kind = kind; octets = octets.now }))) }
{
    writer.key("out")?;
    writer.begin_object()?;
    write_name(writer, "kind", kind_name(kind))?;
    write_octets(writer, alloc, "octets", octets)?;
    writer.end_object()?;
    Ok(())
}

/// Writes the new SSRC, where the call changed it.
fn write_changed(writer: &mut Writer, alloc: Global, changed: Option<u32>) -> Result<(), AllocError>
    ensures { OnOk result (AddsField writer.old writer.new (codes "ssrc") (optional_json word_json changed)) }
{
    match changed {
        Some(ssrc) => write_word(writer, alloc, "ssrc", ssrc),
        None => write_null(writer, "ssrc"),
    }
}

fn kind_name(kind: OutKind) -> &'static str
    ensures { result.now ≡ kind_text kind }
{
    match kind {
        OutKind::Report => "report",
        OutKind::Bye => "bye",
    }
}
