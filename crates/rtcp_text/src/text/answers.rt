//! The text of what a participant answers, as `rtcp replay` shows it.

ghost use Rattle.std.specs.Prelude.{◌≡◌, ◌+◌, ◌≤◌, ◌++◌, Err, Ok, OnOk, Some, codes, drop};
ghost use Rattle.rtcp_engine.specs.state.Views.{out_in, out_written, reply_value, size_written, written_step_value};
ghost use Rattle.rtcp_engine.specs.declared.refusal.Refusal.TheVariants.{Settings};
ghost use Rattle.rtcp_text.specs.AnswerText.{answer_text, changed_text, counts_text, kind_text, next_text, out_text, refusal_text, rtp_fault_text, start_text};

use super::digits::{push_octets, push_word};
use super::push_fault_words;
use super::tail::Tail;
use crate::fault::config_name;
use rtcp_engine::{ConfigError, OutKind, Refusal, Reply, Written, WrittenStep};
use rtcp_wire::{MAX_COMPOUND, RtpFault};
use std::alloc::AllocError;

/// Appends the line for the start of a session, with the moment of its first tick.
pub fn push_start(out: &mut Vec<u8>, next: Option<u64>) -> Result<(), AllocError>
    ensures { OnOk result (out.new.items ≡ out.old.items ++ start_text next) }
{
    let mut text = Tail::new();
    text.put(b'\n');
    put_counts(&mut text, 1, 0, next);
    text.put_text(b"start ");
    out.extend_from_slice(text.as_slice())
}

/// Appends the line for a reply, whose compound, if it has one, stands at the start of these octets.
pub fn push_reply(
    out: &mut Vec<u8>,
    reply: &Reply,
    octets: &[u8; MAX_COMPOUND],
) -> Result<(), AllocError>
    requires { size_written (out_written reply.now) ≤ 1472 }
    ensures { OnOk result (out.new.items ≡ out.old.items ++ answer_text (reply_value octets.now reply.now)) }
{
    match reply {
        Ok(told) => push_told(out, told, octets),
        Err(refusal) => push_refusal(out, refusal),
    }
}

/// Appends the line for a call that was taken, whose compound, if it has one, stands at the start of these octets.
fn push_told(
    out: &mut Vec<u8>,
    told: &WrittenStep,
    octets: &[u8; MAX_COMPOUND],
) -> Result<(), AllocError>
    requires { size_written told.now.out ≤ 1472 }
    ensures { OnOk result (out.new.items ≡ out.old.items ++ answer_text (Ok (written_step_value octets.now told.now))) }
{
    let standing = told.standing;
    push_taken(out, standing.members, standing.senders, standing.next)?;
    push_written(out, told.out, octets)?;
    push_changed(out, told.changed)?;
    out.push(b'\n')?;
    Ok(())
}

/// Appends that a call was taken, up to its compound.
fn push_taken(
    out: &mut Vec<u8>,
    members: u32,
    senders: u32,
    next: Option<u64>,
) -> Result<(), AllocError>
    ensures { OnOk result
        (out.new.items ≡ out.old.items ++ codes "ok " ++ counts_text members senders next ++ codes " out=") }
{
    let mut text = Tail::new();
    text.put_text(b" out=");
    put_counts(&mut text, members, senders, next);
    text.put_text(b"ok ");
    out.extend_from_slice(text.as_slice())
}

/// Puts the members, the senders and the moment of the next tick in front of a text.
#[inline(always)]
fn put_counts(text: &mut Tail, members: u32, senders: u32, next: Option<u64>)
    requires room { 63 ≤ text.old.start }
    requires within { text.old.start ≤ 80 }
    ensures text { drop text.new.start text.new.octets
        ≡ counts_text members senders next ++ drop text.old.start text.old.octets }
    ensures start { text.new.start ≤ text.old.start }
    ensures room { text.old.start ≤ text.new.start + 63 }
{
    put_next(text, next);
    text.put_text(b" next=");
    text.put_decimal(senders);
    text.put_text(b" senders=");
    text.put_decimal(members);
    text.put_text(b"members=");
}

/// Puts a moment in front of a text, or a hyphen where there is none.
#[inline(always)]
fn put_next(text: &mut Tail, next: Option<u64>)
    requires room { 20 ≤ text.old.start }
    requires within { text.old.start ≤ 80 }
    ensures text { drop text.new.start text.new.octets
        ≡ next_text next ++ drop text.old.start text.old.octets }
    ensures start { text.new.start ≤ text.old.start }
    ensures room { text.old.start ≤ text.new.start + 20 }
{
    match next {
        Some(next) => text.put_long_decimal(next),
        None => text.put(b'-'),
    }
}

/// Appends what a compound to send is and its octets, which stand at the start of these, or a hyphen where there is
/// none.
fn push_written(
    out: &mut Vec<u8>,
    written: Option<Written>,
    octets: &[u8; MAX_COMPOUND],
) -> Result<(), AllocError>
    requires { size_written written ≤ 1472 }
    ensures { OnOk result (out.new.items ≡ out.old.items ++ out_text (out_in octets.now written)) }
{
    match written {
        Some(sent) => push_compound(out, sent.kind, &octets[..sent.size]),
        None => out.extend_from_slice(b"-"),
    }
}

/// Appends what a compound to send is and its octets.
fn push_compound(out: &mut Vec<u8>, kind: OutKind, octets: &[u8]) -> Result<(), AllocError>
    ensures { OnOk result (out.new.items
        ≡ out.old.items ++ out_text (Some (record { kind = kind; octets = octets.now }))) }
{
    out.extend_from_slice(kind_name(kind).as_bytes())?;
    out.push(b':')?;
    push_octets(out, octets)
}

/// Appends the new SSRC, where the call changed it.
fn push_changed(out: &mut Vec<u8>, changed: Option<u32>) -> Result<(), AllocError>
    ensures { OnOk result (out.new.items ≡ out.old.items ++ changed_text changed) }
{
    if let Some(ssrc) = changed {
        out.extend_from_slice(b" ssrc=")?;
        push_word(out, ssrc)?;
    }
    Ok(())
}

fn kind_name(kind: OutKind) -> &'static str
    ensures { result.now ≡ kind_text kind }
{
    match kind {
        OutKind::Report => "report",
        OutKind::Bye => "bye",
    }
}

/// Appends the line for a call that was refused.
pub fn push_refusal(out: &mut Vec<u8>, refusal: &Refusal) -> Result<(), AllocError>
    ensures { OnOk result (out.new.items ≡ out.old.items ++ answer_text (Err refusal.now)) }
{
    out.extend_from_slice(b"refused ")?;
    push_refusal_words(out, refusal)?;
    out.push(b'\n')?;
    Ok(())
}

/// Appends why a call was refused.
fn push_refusal_words(out: &mut Vec<u8>, refusal: &Refusal) -> Result<(), AllocError>
    ensures { OnOk result (out.new.items ≡ out.old.items ++ refusal_text refusal.now) }
{
    match refusal {
        Refusal::Left => out.extend_from_slice(b"E1 Left"),
        Refusal::Backwards => out.extend_from_slice(b"E2 Backwards"),
        Refusal::TooFar => out.extend_from_slice(b"E3 TooFar"),
        Refusal::TooMany => out.extend_from_slice(b"E4 TooMany"),
        Refusal::Wire(fault) => {
            out.extend_from_slice(b"E5 Wire: ")?;
            push_fault_words(out, fault)
        }
        Refusal::Rtp(fault) => {
            out.extend_from_slice(b"E6 Rtp: ")?;
            out.extend_from_slice(rtp_fault_name(*fault).as_bytes())
        }
        Refusal::OwnSsrc => out.extend_from_slice(b"E7 OwnSsrc"),
        Refusal::Settings(error) => push_settings_refusal(out, *error),
    }
}

/// Appends that settings were refused, and why.
fn push_settings_refusal(out: &mut Vec<u8>, error: ConfigError) -> Result<(), AllocError>
    ensures { OnOk result (out.new.items ≡ out.old.items ++ refusal_text (Settings error)) }
{
    out.extend_from_slice(b"E8 Settings: ")?;
    out.extend_from_slice(config_name(error).as_bytes())?;
    Ok(())
}

/// The number of a rule of RTP heads and its name.
fn rtp_fault_name(fault: RtpFault) -> &'static str
    ensures { result.now ≡ rtp_fault_text fault }
{
    match fault {
        RtpFault::Short => "G1 Short",
        RtpFault::Version => "G2 Version",
        RtpFault::PayloadType => "G3 PayloadType",
        RtpFault::Extension => "G4 Extension",
        RtpFault::Padding => "G5 Padding",
    }
}
