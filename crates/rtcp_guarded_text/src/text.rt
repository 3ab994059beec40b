//! The text of what a guarded participant answers, as `rtcp replay --guard` shows it.
//!
//! # Errors
//!
//! Each function here returns `AllocError` where memory is refused. It is then left open how much of the text was
//! appended.

ghost use Rattle.std.specs.Prelude.{◌≡◌, ◌≤◌, ◌++◌, Err, OnOk};
ghost use Rattle.rtcp_engine.specs.state.Views.{size_written};
ghost use Rattle.rtcp_guarded.specs.Views.{out_written, reply_value};
ghost use Rattle.rtcp_guarded_text.specs.GuardedText.{guarded_answer_text, held_back_text, reason_text};

use rtcp_engine::Reply;
use rtcp_guarded::{GuardedReply, Reason, Untaken};
use rtcp_text::text::{push_refusal, push_reply};
use rtcp_wire::MAX_COMPOUND;
use std::alloc::AllocError;

/// Appends the line for a reply, whose compound, if it has one, stands at the start of these octets.
pub fn push_guarded_reply(
    out: &mut Vec<u8>,
    reply: &GuardedReply,
    octets: &[u8; MAX_COMPOUND],
) -> Result<(), AllocError>
    requires { size_written (out_written reply.now) ≤ 1472 }
    ensures { OnOk result (out.new.items ≡ out.old.items ++ guarded_answer_text (reply_value octets.now reply.now)) }
{
    match reply {
        Ok(told) => {
            let taken: Reply = Ok(*told);
            push_reply(out, &taken, octets)
        }
        Err(untaken) => push_untaken(out, untaken),
    }
}

/// Appends the line for a call that was refused, or for a datagram that was held back.
pub fn push_untaken(out: &mut Vec<u8>, untaken: &Untaken) -> Result<(), AllocError>
    ensures { OnOk result (out.new.items ≡ out.old.items ++ guarded_answer_text (Err untaken.now)) }
{
    match untaken {
        Untaken::Refused(refusal) => push_refusal(out, refusal),
        Untaken::HeldBack(reason) => push_held_back(out, *reason),
    }
}

/// Appends the line for a datagram that was held back.
pub fn push_held_back(out: &mut Vec<u8>, reason: Reason) -> Result<(), AllocError>
    ensures { OnOk result (out.new.items ≡ out.old.items ++ held_back_text reason) }
{
    out.extend_from_slice(b"refused ")?;
    out.extend_from_slice(reason_name(reason).as_bytes())?;
    out.push(b'\n')?;
    Ok(())
}

/// The number of a guard's reason and its name.
pub fn reason_name(reason: Reason) -> &'static str
    ensures { result.now ≡ reason_text reason }
{
    match reason {
        Reason::Stranger => "H1 Stranger",
        Reason::Crowd => "H2 Crowd",
    }
}
