//! What an alarm is, and its line.

ghost use Rattle.std.specs.Prelude.{◌≡◌, ◌++◌, OnOk};
ghost use Rattle.rtcp_alarm.specs.AlarmTexts.{alarm_text, cause_text, loss_text};

use rtcp_plain::numbers::push_fixed;
use rtcp_text::text::digits::push_word;
use std::alloc::AllocError;

/// When an alarm is raised. Each limit is off where it is `None`.
#[derive(Clone, Copy, Debug, PartialEq, Eq)]
pub struct AlarmLimits {
    /// The loss that is borne, in per cent, from 0 to 99: an alarm is raised where the last report block of a source
    /// says that more of its packets were lost.
    pub loss: Option<u32>,
    /// For how long no RTP packet is taken until an alarm is raised, in seconds, from 1 on.
    pub silence: Option<u32>,
}

/// Why an alarm was raised.
#[derive(Clone, Copy, Debug, PartialEq, Eq)]
pub enum Alarm {
    /// Too many packets of a source were lost.
    Loss {
        /// The SSRC of the source.
        ssrc: u32,
        /// The fraction lost by its last report block, in 1/256 (RFC 3550, 6.4.1).
        fraction: u8,
    },
    /// No RTP packet was taken for too long.
    Silence,
}

/// An alarm that was raised.
#[derive(Clone, Copy, Debug, PartialEq, Eq)]
pub struct Raised {
    /// When, in microseconds since the session began.
    pub moment: u64,
    /// Why.
    pub alarm: Alarm,
}

/// Appends the line of an alarm, with the moment in seconds: `alarm 12.403000 loss=5efa318e 12.5%`, of a source and the
/// fraction lost, or `alarm 65.000411 silence`. Tenths of a per cent are rounded down.
///
/// # Errors
///
/// `AllocError` where memory is refused. It is then left open how much of the text was appended.
pub fn push_alarm(out: &mut Vec<u8>, raised: &Raised) -> Result<(), AllocError>
    ensures { OnOk result (out.new.items ≡ out.old.items ++ alarm_text raised.now) }
{
    out.extend_from_slice(b"alarm ")?;
    push_fixed(out, raised.moment, 1_000_000)?;
    push_cause(out, raised.alarm)?;
    out.push(b'\n')?;
    Ok(())
}

/// Appends why an alarm was raised.
fn push_cause(out: &mut Vec<u8>, alarm: Alarm) -> Result<(), AllocError>
    ensures { OnOk result (out.new.items ≡ out.old.items ++ cause_text alarm) }
{
    match alarm {
        Alarm::Loss { ssrc, fraction } => push_loss(out, ssrc, fraction),
        Alarm::Silence => out.extend_from_slice(b" silence"),
    }
}

/// Appends a source, and the fraction of its packets that were lost.
fn push_loss(out: &mut Vec<u8>, ssrc: u32, fraction: u8) -> Result<(), AllocError>
    ensures { OnOk result (out.new.items ≡ out.old.items ++ loss_text ssrc fraction) }
{
    out.extend_from_slice(b" loss=")?;
    push_word(out, ssrc)?;
    out.push(b' ')?;
    push_fixed(out, u64::from(fraction) * 1_000 / 256, 10)?;
    out.push(b'%')?;
    Ok(())
}
