//! How a host is told why a datagram is not a compound, and what a report block says.

ghost use Rattle.std.specs.Prelude.{◌≡◌};
ghost use Rattle.rtcp_wire.specs.Views.{block_value};
ghost use Rattle.rtcp_parts.specs.Cursors.{ShowsReported};
ghost use Rattle.jalwedd_host.specs.Readings.{ShowsBlock, number_of};
ghost use Rattle.jalwedd_host.specs.Walks.{Carries};

use crate::walks::Shown;
use rtcp_parts::Reported;
use rtcp_wire::{Block, FaultReason};

/// Why a datagram is not a compound, or has no valid RTP head: its first fault.
#[repr(C)]
#[derive(Clone, Copy, Debug, PartialEq, Eq)]
pub struct Fault {
    /// Where the packet at fault begins, in octets: 0 for an RTP datagram.
    pub offset: u64,
    /// 1 to 10, for F1 to F10; 11 to 15, for G1 to G5.
    pub reason: u32,
}

/// What a report says of one source (RFC 3550, 6.4.1).
#[repr(C)]
#[derive(Clone, Copy, Debug, PartialEq, Eq)]
pub struct Report {
    /// The SSRC of the source that sent it.
    pub reporter: u32,
    /// The SSRC of the source that it speaks of.
    pub ssrc: u32,
    /// The fraction of its packets lost since the last report, in units of 1/256.
    pub fraction: u32,
    /// How many packets were lost since the beginning.
    pub lost: i32,
    /// The highest sequence number received, extended by how often they wrapped.
    pub highest: u32,
    /// The jitter of the packets' arrival, in units of their RTP timestamps.
    pub jitter: u32,
    /// The middle 32 bits of the NTP timestamp of the source's last sender report, or 0.
    pub lsr: u32,
    /// The time since that report, in units of 1/65,536 of a second, or 0.
    pub dlsr: u32,
}

/// 1 to 10, for F1 to F10.
pub fn reason_number(reason: FaultReason) -> u32
    ensures { result ≡ number_of reason }
{
    match reason {
        FaultReason::Short => 1,
        FaultReason::Version => 2,
        FaultReason::FirstType => 3,
        FaultReason::FirstPadding => 4,
        FaultReason::Length => 5,
        FaultReason::Padding => 6,
        FaultReason::Body => 7,
        FaultReason::Item => 8,
        FaultReason::Reason => 9,
        FaultReason::TooLong => 10,
    }
}

/// What a block says of its source, and who sent it.
pub fn shown(reporter: u32, block: &Block) -> Report
    ensures { ShowsBlock result (reporter, block_value block.now) }
{
    Report {
        reporter,
        ssrc: block.ssrc,
        fraction: u32::from(block.fraction),
        lost: block.lost,
        highest: block.highest,
        jitter: block.jitter,
        lsr: block.lsr,
        dlsr: block.dlsr,
    }
}

impl Shown for Reported {
    type Place = Report;

    ghost shows_given = { Carries (λ datagram. ShowsReported) (λ datagram. ShowsBlock) };

    fn shown(&self) -> Report {
        shown(self.0, &self.1)
    }
}
