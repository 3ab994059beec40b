//! The end of a session on a link.

ghost use Rattle.std.specs.Prelude.{◌≡◌, ◌++◌, OnOk};
ghost use Rattle.rtcp_json.specs.Adding.{AddsJson};
ghost use Rattle.rtcp_json.specs.JsonValues.{json_line};
ghost use Rattle.rtcp_json.specs.ToldValues.{cause_text, end_json};

use crate::fields::{write_long_number, write_name};
use crate::lines::{begin_line, end_line};
use json::Writer;
use rtcp_serve::{Cause, End};
use std::alloc::AllocError;

/// Appends the line for the end of a session.
///
/// # Errors
///
/// `AllocError` where memory is refused. It is then left open how much of the text was appended.
pub fn push_end_json(out: &mut Vec<u8>, end: &End) -> Result<(), AllocError>
    ensures { OnOk result (out.new.items ≡ out.old.items ++ json_line (end_json end.now)) }
{
    let alloc = *out.allocator();
    let mut writer = begin_line(alloc, out);
    let written = write_end(&mut writer, end);
    end_line(out, writer, written)
}

/// Writes what a session came to.
fn write_end(writer: &mut Writer, end: &End) -> Result<(), AllocError>
    ensures { OnOk result (AddsJson writer.old writer.new (end_json end.now)) }
{
    writer.begin_object()?;
    write_name(writer, "end", cause_name(end.cause))?;
    write_long_number(writer, "received", end.received)?;
    write_long_number(writer, "refused", end.refused)?;
    write_long_number(writer, "sent", end.sent)?;
    write_long_number(writer, "send_failures", end.send_failures)?;
    write_long_number(writer, "recv_failures", end.recv_failures)?;
    writer.key("bye")?;
    writer.boolean(end.bye)?;
    writer.end_object()?;
    Ok(())
}

fn cause_name(cause: Cause) -> &'static str
    ensures { result.now ≡ cause_text cause }
{
    match cause {
        Cause::Done => "Done",
        Cause::LinkDown => "LinkDown",
        Cause::Limit => "Limit",
    }
}
