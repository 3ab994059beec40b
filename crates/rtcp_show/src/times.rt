//! How moments are written.

ghost use Rattle.std.specs.Prelude.{◌≡◌, ◌++◌, OnOk};
ghost use Rattle.rtcp_show.specs.Times.{clock_of, day_text, day_time, two_digits, when_text};

use crate::numbers::push_moment;
use rtcp_clock::ntp_of;
use rtcp_plain::numbers::{ntp_time, push_fixed};
use rtcp_text::text::digits::push_decimal;
use std::alloc::AllocError;

/// The microseconds of a day. It has no leap second, as NTP counts.
const DAY: u64 = 86_400_000_000;

/// How the moments of a session are written.
#[derive(Clone, Copy, Debug, PartialEq, Eq)]
pub enum Times {
    /// In seconds since the session began: `0.250000`.
    SinceStart,
    /// As the time of day in UTC: `08:05:22.123456Z`.
    OfDay,
}

/// What moments are written by.
#[derive(Clone, Copy, Debug)]
pub(crate) enum Clock {
    /// The session, from its start.
    Session,
    /// UTC, by the NTP timestamp of moment 0.
    Utc(u64),
}

/// A moment, and what it is written by.
#[derive(Clone, Copy, Debug)]
pub(crate) struct When {
    pub(crate) clock: Clock,
    pub(crate) moment: u64,
}

/// What moments are written by, in a session whose moment 0 has this NTP timestamp.
pub(crate) fn clock_of(times: Times, ntp_base: u64) -> Clock
    ensures { result ≡ clock_of times ntp_base }
{
    match times {
        Times::SinceStart => Clock::Session,
        Times::OfDay => Clock::Utc(ntp_base),
    }
}

/// Appends a moment.
pub(crate) fn push_when(out: &mut Vec<u8>, when: When) -> Result<(), AllocError>
    ensures { OnOk result (out.new.items ≡ out.old.items ++ when_text when) }
{
    match when.clock {
        Clock::Session => push_moment(out, when.moment),
        Clock::Utc(ntp_base) => push_day(out, day_time(ntp_base, when.moment)),
    }
}

/// The microseconds of the day at a moment.
fn day_time(ntp_base: u64, moment: u64) -> u64
    ensures { result ≡ day_time ntp_base moment }
{
    ntp_time(ntp_of(ntp_base, moment)) % DAY
}

/// Appends the time of day at so many of its microseconds.
fn push_day(out: &mut Vec<u8>, time: u64) -> Result<(), AllocError>
    ensures { OnOk result (out.new.items ≡ out.old.items ++ day_text time) }
{
    push_two_digits(out, time / 3_600_000_000)?;
    out.push(b':')?;
    push_two_digits(out, time / 60_000_000 % 60)?;
    out.push(b':')?;
    push_decimal(out, time / 10_000_000 % 6)?;
    push_fixed(out, time % 10_000_000, 1_000_000)?;
    out.push(b'Z')?;
    Ok(())
}

/// Appends a number below 100 with two digits.
fn push_two_digits(out: &mut Vec<u8>, number: u64) -> Result<(), AllocError>
    ensures { OnOk result (out.new.items ≡ out.old.items ++ two_digits number) }
{
    push_decimal(out, number / 10)?;
    push_decimal(out, number % 10)
}
