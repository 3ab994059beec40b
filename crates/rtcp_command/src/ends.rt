//! The end of a session, as `rtcp listen` shows it and in its status.

ghost use Rattle.std.specs.Prelude.{◌≡◌, ◌++◌, IfOk, OnOk};
ghost use Rattle.std.specs.Fmt.{decimal};
ghost use Rattle.rtcp_command.specs.EndText.{arrivals_text, cause_text, end_text, sendings_text, yes_or_no};
ghost use Rattle.rtcp_command.specs.Status.{listen_status, watched_status};

use crate::fault::{RunFault, fail};
use rtcp_serve::{Cause, End};
use rtcp_text::text::digits::push_decimal;
use std::alloc::{AllocError, Global};
use std::io::Write;

/// Writes a line to `faults` where a session failed, and returns the status to end with. A failed write is
/// ignored.
pub fn conclude<F: Write>(outcome: &Result<End, RunFault>, faults: &mut F) -> u8
    ensures { result ≡ listen_status outcome.now }
{
    match outcome {
        Ok(end) => match end.cause {
            Cause::Done | Cause::Limit => 0,
            Cause::LinkDown => 1,
        },
        Err(fault) => fail(*fault, faults),
    }
}

/// The status to end with where a session was watched: 3 in place of 0, if an alarm was raised.
pub fn watched(is_raised: bool, status: u8) -> u8
    ensures { result ≡ watched_status is_raised status }
{
    if is_raised && status == 0 { 3 } else { status }
}

/// The line for the end of a session.
pub fn end_line(alloc: Global, end: &End) -> Result<Vec<u8>, AllocError>
    ensures { IfOk result (λ line. line.items ≡ end_text end.now) }
{
    let mut line = Vec::new(alloc);
    line.extend_from_slice(b"end ")?;
    line.extend_from_slice(cause_name(end.cause).as_bytes())?;
    push_arrivals(&mut line, end)?;
    push_sendings(&mut line, end)?;
    push_count(&mut line, b" recv-failures=", end.recv_failures)?;
    line.extend_from_slice(b" bye=")?;
    line.extend_from_slice(answer_name(end.bye).as_bytes())?;
    line.push(b'\n')?;
    Ok(line)
}

/// Appends what came.
fn push_arrivals(out: &mut Vec<u8>, end: &End) -> Result<(), AllocError>
    ensures { OnOk result (out.new.items ≡ out.old.items ++ arrivals_text end.now) }
{
    push_count(out, b" received=", end.received)?;
    push_count(out, b" refused=", end.refused)
}

/// Appends what went out.
fn push_sendings(out: &mut Vec<u8>, end: &End) -> Result<(), AllocError>
    ensures { OnOk result (out.new.items ≡ out.old.items ++ sendings_text end.now) }
{
    push_count(out, b" sent=", end.sent)?;
    push_count(out, b" send-failures=", end.send_failures)
}

/// Appends words and a count.
fn push_count(out: &mut Vec<u8>, words: &[u8], count: u64) -> Result<(), AllocError>
    ensures { OnOk result (out.new.items ≡ out.old.items ++ words.now ++ decimal count) }
{
    out.extend_from_slice(words)?;
    push_decimal(out, count)
}

fn cause_name(cause: Cause) -> &'static str
    ensures { result.now ≡ cause_text cause }
{
    match cause {
        Cause::Done => "Done",
        Cause::LinkDown => "LinkDown",
        Cause::Limit => "Limit",
    }
}

fn answer_name(answer: bool) -> &'static str
    ensures { result.now ≡ yes_or_no answer }
{
    if answer { "yes" } else { "no" }
}
