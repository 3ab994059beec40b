//! A run of counted packets (RFC 3550, 6.4.1, appendices A.1, A.3 and A.8).

ghost use Rattle.std.specs.Prelude.{◌≡◌, ◌==◌, ◌+◌, ◌≤◌, ◌<◌, ◌^◌, ◌≤ℤ◌, pos, negsuc, Some};
ghost use Rattle.rtcp_wire.specs.Views.{block_value};
ghost use Rattle.rtcp_wire.specs.Writing.{IsWritableBlock};
ghost use Rattle.rtcp_source.specs.ReportBlocks.{transit_distance};
ghost use Rattle.rtcp_source.specs.Fields.{fraction_of, lost_of, jitter_on};
ghost use Rattle.rtcp_source.specs.Blocks.{expected_in, block_of_run};
ghost use Rattle.rtcp_source.specs.Bounds.{IsRunBounded};
ghost use Rattle.rtcp_source.specs.Steps.{run_from, run_after, run_reported};
ghost use Rattle.rtcp_source.specs.Receptions.{reception_of_run};
ghost use Rattle.rtcp_source.specs.Views.{run_value, reception_value};

use crate::reception::Reception;
use crate::sequence::{FIRST, greatest_with};
use rtcp_wire::Block;

/// The counted packets of a run, in numbers. Ordinals are those of `sequence`.
#[derive(Clone, Copy)]
pub(crate) struct Run {
    /// The ordinal of the first packet.
    pub(crate) first: u32,
    /// The transit of the newest packet: its arrival less its timestamp, modulo 2^32.
    pub(crate) transit: u32,
    /// The units a second of the clock in which its transit is counted.
    pub(crate) rate: u32,
    /// The greatest ordinal.
    pub(crate) greatest: u64,
    /// How many packets were counted, late and repeated ones included.
    pub(crate) received: u64,
    /// How many packets were expected at the last block of this run, 0 if there was none.
    pub(crate) expected_before: u64,
    /// How many packets were counted at the last block of this run, 0 if there was none.
    pub(crate) received_before: u64,
    /// The jitter, in 1/16 of a unit of that clock.
    pub(crate) jitter: u64,
    /// How many octets of payload were counted, modulo 2^64.
    pub(crate) octets: u64,
}

impl Run {
    /// The run that starts with this packet. Its jitter is 0, after a restart too: this is the project's
    /// choice, since A.1 leaves it open.
    pub(crate) fn started(seq: u16, transit: u32, octets: u64, rate: u32) -> Run
        ensures run { run_value result ≡ run_from seq transit octets rate }
        ensures bounded { IsRunBounded 1 (run_value result) }
    {
        Run {
            first: FIRST as u32 + seq as u32,
            greatest: FIRST + seq as u64,
            received: 1,
            expected_before: 0,
            received_before: 0,
            transit,
            rate,
            jitter: 0,
            octets,
        }
    }

    /// The run with one more packet, whose number is near the greatest ordinal.
    pub(crate) fn with(self, seq: u16, transit: u32, octets: u64, rate: u32) -> Run
        requires few { self.received < 2 ^ 40 }
        requires bounded { IsRunBounded self.received (run_value self) }
        ensures run { run_value result ≡ run_after seq transit octets rate (run_value self) }
        ensures bounded { IsRunBounded (self.received + 1) (run_value result) }
    {
        Run {
            greatest: greatest_with(self.greatest, seq),
            received: self.received + 1,
            transit,
            rate,
            jitter: self.jitter_with(transit, rate),
            octets: self.octets.wrapping_add(octets),
            ..self
        }
    }

    /// The jitter with one packet more, of this transit in units of a clock of this rate: it begins anew where the
    /// packet before was counted in units of another clock (RFC 7160, 4.3).
    #[inline(always)]
    fn jitter_with(self, transit: u32, rate: u32) -> u64
        requires { self.jitter ≤ 2 ^ 35 + 7 }
        ensures exact { result
            ≡ jitter_on (rate == self.rate) self.jitter (transit_distance transit self.transit) }
        ensures bounded { result ≤ 2 ^ 35 + 7 }
    {
        let distance = distance(transit, self.transit) as u64;
        let continued = self.jitter + distance - (self.jitter + 8) / 16;
        if rate == self.rate { continued } else { 0 }
    }

    /// The run after a block was made of it.
    pub(crate) fn reported(self) -> Run
        requires few { self.received ≤ 2 ^ 40 }
        requires bounded { IsRunBounded self.received (run_value self) }
        ensures run { Some (run_value result) ≡ run_reported (Some (run_value self)) }
        ensures bounded { IsRunBounded self.received (run_value result) }
    {
        Run {
            expected_before: self.expected(),
            received_before: self.received,
            ..self
        }
    }

    /// The block of the run's source, with what is known of its last sender report.
    pub(crate) fn block(self, ssrc: u32, lsr: u32, dlsr: u32) -> Block
        requires few { self.received ≤ 2 ^ 40 }
        requires bounded { IsRunBounded self.received (run_value self) }
        ensures block { block_value result ≡ block_of_run ssrc lsr dlsr (run_value self) }
        ensures writable { IsWritableBlock (block_value result) }
    {
        let expected = self.expected();
        let reception = self.reception();
        Block {
            ssrc,
            fraction: fraction(
                expected - self.expected_before,
                self.received - self.received_before,
            ),
            lost: reception.lost,
            highest: reception.highest,
            jitter: reception.jitter,
            lsr,
            dlsr,
        }
    }

    /// How the run's packets are received.
    pub(crate) fn reception(self) -> Reception
        requires few { self.received ≤ 2 ^ 40 }
        requires bounded { IsRunBounded self.received (run_value self) }
        ensures reception { reception_value result ≡ reception_of_run (run_value self) }
        ensures low { negsuc 8388607 ≤ℤ result.lost }
        ensures high { result.lost ≤ℤ pos 8388607 }
    {
        Reception {
            received: self.received,
            octets: self.octets,
            lost: lost(self.expected(), self.received),
            highest: ((self.greatest - FIRST) % (1 << 32)) as u32,
            jitter: (self.jitter / 16) as u32,
            rate: self.rate,
        }
    }

    /// The packets expected, from the first one to the greatest.
    fn expected(self) -> u64
        requires ordered { self.first ≤ self.greatest }
        requires high { self.greatest < 2 ^ 55 }
        ensures { result ≡ expected_in (run_value self) }
    {
        self.greatest - self.first as u64 + 1
    }
}

/// The distance of two transits, whose difference is a signed number of 32 bits.
fn distance(transit: u32, before: u32) -> u32
    ensures exact { result ≡ transit_distance transit before }
    ensures half { result ≤ 2 ^ 31 }
{
    transit
        .wrapping_sub(before)
        .min(before.wrapping_sub(transit))
}

/// The fraction lost of the packets expected, in 1/256. Where some were expected, some were counted, so the
/// fraction is below 1.
fn fraction(expected: u64, received: u64) -> u8
    requires high { expected < 2 ^ 55 }
    requires counted { 1 ≤ expected → 1 ≤ received }
    ensures { result ≡ fraction_of expected received }
{
    if expected == 0 || expected <= received {
        0
    } else {
        (256 * (expected - received) / expected) as u8
    }
}

/// The packets lost, as a signed number of 24 bits. It is negative where more came than were expected:
/// repeated packets, and late ones from before the first.
fn lost(expected: u64, received: u64) -> i32
    requires expected { expected < 2 ^ 55 }
    requires received { received < 2 ^ 55 }
    ensures { result ≡ lost_of expected received }
{
    (expected as i64 - received as i64).clamp(-8_388_608, 8_388_607) as i32
}
