//! Why a call was not taken.

ghost use Rattle.std.specs.Prelude.{◌≡◌, ◌∷◌, [], Err, OnOk, codes};
ghost use Rattle.rtcp_engine.specs.declared.refusal.Refusal.TheVariants.{Wire};
ghost use Rattle.rtcp_text.specs.AnswerText.{rtp_fault_text};
ghost use Rattle.rtcp_json.specs.Adding.{AddsJson};
ghost use Rattle.rtcp_json.specs.AnswerValues.{caused_json, guarded_answer_json, held_back_json, refusal_json, refused_json};

use crate::fields::{write_long_number, write_name};
use crate::packets::reason_name;
use json::Writer;
use rtcp_engine::Refusal;
use rtcp_guarded::{Reason, Untaken};
use rtcp_guarded_text::text;
use rtcp_text::config_name;
use rtcp_wire::{RtpFault, WireFault};
use std::alloc::AllocError;

/// Writes why a guarded participant did not take a call.
pub(crate) fn write_untaken(writer: &mut Writer, untaken: &Untaken) -> Result<(), AllocError>
    ensures { OnOk result (AddsJson writer.old writer.new (guarded_answer_json (Err untaken.now))) }
{
    match untaken {
        Untaken::Refused(refusal) => write_refusal(writer, refusal),
        Untaken::HeldBack(reason) => write_held_back(writer, *reason),
    }
}

/// Writes why a participant refused a call.
pub(crate) fn write_refusal(writer: &mut Writer, refusal: &Refusal) -> Result<(), AllocError>
    ensures { OnOk result (AddsJson writer.old writer.new (refusal_json refusal.now)) }
{
    match refusal {
        Refusal::Left => write_rule(writer, "E1 Left"),
        Refusal::Backwards => write_rule(writer, "E2 Backwards"),
        Refusal::TooFar => write_rule(writer, "E3 TooFar"),
        Refusal::TooMany => write_rule(writer, "E4 TooMany"),
        Refusal::Wire(fault) => write_wire_refusal(writer, fault),
        Refusal::Rtp(fault) => write_caused(writer, "E6 Rtp", rtp_fault_name(*fault)),
        Refusal::OwnSsrc => write_rule(writer, "E7 OwnSsrc"),
        Refusal::Settings(error) => write_caused(writer, "E8 Settings", config_name(*error)),
    }
}

/// Writes why a guard held a datagram back.
fn write_held_back(writer: &mut Writer, reason: Reason) -> Result<(), AllocError>
    ensures { OnOk result (AddsJson writer.old writer.new (held_back_json reason)) }
{
    write_rule(writer, text::reason_name(reason))
}

/// Writes the rule that a call breaks.
fn write_rule(writer: &mut Writer, rule: &str) -> Result<(), AllocError>
    ensures { OnOk result (AddsJson writer.old writer.new (refused_json rule.now [])) }
{
    writer.begin_object()?;
    write_name(writer, "refused", rule)?;
    writer.end_object()?;
    Ok(())
}

/// Writes the rule that a call breaks, and that of what is in it.
fn write_caused(writer: &mut Writer, rule: &str, fault: &str) -> Result<(), AllocError>
    ensures { OnOk result (AddsJson writer.old writer.new (caused_json rule.now fault.now)) }
{
    writer.begin_object()?;
    write_name(writer, "refused", rule)?;
    write_name(writer, "fault", fault)?;
    writer.end_object()?;
    Ok(())
}

/// Writes that an RTCP datagram was refused, and its fault.
fn write_wire_refusal(writer: &mut Writer, fault: &WireFault) -> Result<(), AllocError>
    ensures { OnOk result (AddsJson writer.old writer.new (refusal_json (Wire fault.now))) }
{
    writer.begin_object()?;
    write_name(writer, "refused", "E5 Wire")?;
    write_name(writer, "fault", reason_name(fault.reason))?;
    write_long_number(writer, "at", fault.place as u64)?;
    writer.end_object()?;
    Ok(())
}

/// The number of a rule of RTP heads and its name.
fn rtp_fault_name(fault: RtpFault) -> &'static str
    ensures { result.now ≡ rtp_fault_text fault }
{
    match fault {
        RtpFault::Short => "G1 Short",
        RtpFault::Version => "G2 Version",
        RtpFault::PayloadType => "G3 PayloadType",
        RtpFault::Extension => "G4 Extension",
        RtpFault::Padding => "G5 Padding",
    }
}
