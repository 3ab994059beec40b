//! What is told of one source.

ghost use Rattle.std.specs.Prelude.{◌≡◌, ◌<◌, ◌+◌, ◌-◌, ◌^◌, ℕ, IfSome, option_map};
ghost use Rattle.rtcp_members.specs.ListViews.{state_value};
ghost use Rattle.rtcp_members.specs.Past.{IsKnownBy};
ghost use Rattle.rtcp_source.specs.Views.{last_block_value, reception_value, last_report_value};
ghost use Rattle.jalwedd_host.specs.Answers.{moment_shown, one_if};
ghost use Rattle.jalwedd_host.specs.Sources.{IsBlockShown, IsReceived, ShowsLastReport, IsShown, after_of};

use crate::step::{NEVER, on_clock};
use rtcp_members::SourceState;
use rtcp_source::{LastBlock, LastReport, Reception};

/// What is known of a source.
#[repr(C)]
#[derive(Clone, Copy, Debug, PartialEq, Eq)]
pub struct HostSource {
    /// When it was last heard before it left, in microseconds of the host's clock.
    pub heard: u64,
    /// When it sent a BYE, by that clock: 2^64 - 1 where it did not leave.
    pub left: u64,
    /// When its last sender report came, by that clock: 2^64 - 1 where none came.
    pub told: u64,
    /// The NTP timestamp of that report, or 0.
    pub ntp: u64,
    /// How many of its packets were counted, since it came or its sequence numbers jumped: 0 where none was, and then
    /// the next four are 0 too.
    pub received: u64,
    /// The octets of payload in those packets, without headers and padding, modulo 2^64.
    pub octets: u64,
    /// How many were lost.
    pub lost: i32,
    /// The highest sequence number received, extended by how often they wrapped.
    pub highest: u32,
    /// The jitter of their arrival, in units of their RTP timestamps.
    pub jitter: u32,
    /// The RTP timestamp of its last sender report, or 0: the moment of `ntp` in units of its RTP timestamps.
    pub rtp: u32,
    /// 1 if a report block about it was made, else 0, and then the next two are 0 too.
    pub has_block: u32,
    /// The fraction lost that the last such block said, in 1/256.
    pub fraction: u32,
    /// The extended highest sequence number that it said.
    pub block_highest: u32,
    /// Its SSRC.
    pub ssrc: u32,
    /// 1 if it is a member, else 0: it is not yet valid, or it left.
    pub member: u32,
    /// 1 if it sends RTP packets, else 0.
    pub sender: u32,
    /// The units a second of the clock of its newest packet that was counted, in which `jitter` is: 0 where none was.
    pub rate: u32,
    /// 0: with it the size is a multiple of 8.
    pub reserved: u32,
}

/// What is told of the last report block about a source.
#[derive(Clone, Copy)]
struct BlockShown {
    has_block: u32,
    fraction: u32,
    highest: u32,
}

impl HostSource {
    /// How what is known of a source is told, where the host's clock showed `start` at moment 0.
    pub(crate) fn of(state: &SourceState, start: u64) -> HostSource
        ensures { (latest : ℕ) → start + latest < 2 ^ 64 - 1 → IsKnownBy latest (state_value state.now) →
            IsShown start result (state_value state.now) }
    {
        let reception = received(state.reception);
        let told = last_report_of(state.told, start);
        let block = last_block(state.last_block);
        HostSource {
            heard: start.saturating_add(state.heard),
            left: on_clock(start, state.left),
            told: told.moment,
            ntp: told.ntp,
            received: reception.received,
            octets: reception.octets,
            lost: reception.lost,
            highest: reception.highest,
            jitter: reception.jitter,
            rtp: told.rtp,
            has_block: block.has_block,
            fraction: block.fraction,
            block_highest: block.highest,
            ssrc: state.ssrc,
            member: u32::from(state.is_member),
            sender: u32::from(state.is_sender),
            rate: reception.rate,
            reserved: 0,
        }
    }
}

/// The SSRC above which the sources from `from` on are, if there is one. From 2^32 on there is no source.
pub(crate) fn before(from: u64) -> Option<u32>
    ensures { result ≡ after_of from }
{
    if from == 0 {
        return None;
    }
    Some((from - 1).min(4_294_967_295) as u32)
}

/// Zeros where no packet was counted.
fn received(reception: Option<Reception>) -> Reception
    ensures { IsReceived result (option_map reception_value reception) }
{
    match reception {
        Some(reception) => reception,
        None => Reception {
            received: 0,
            octets: 0,
            lost: 0,
            highest: 0,
            jitter: 0,
            rate: 0,
        },
    }
}

/// 2^64 - 1 and zeros where no sender report came.
fn last_report_of(told: Option<LastReport>, start: u64) -> LastReport
    ensures { IfSome told (λ t. start + t.moment < 2 ^ 64 - 1) →
        ShowsLastReport start result (option_map last_report_value told) }
{
    match told {
        Some(told) => LastReport {
            moment: start.saturating_add(told.moment),
            ..told
        },
        None => LastReport {
            ntp: 0,
            rtp: 0,
            moment: NEVER,
        },
    }
}

/// 1 and what the last report block said, and zeros where none was made.
fn last_block(block: Option<LastBlock>) -> BlockShown
    ensures { IsBlockShown result (option_map last_block_value block) }
{
    match block {
        Some(block) => BlockShown {
            has_block: 1,
            fraction: u32::from(block.fraction),
            highest: block.highest,
        },
        None => BlockShown {
            has_block: 0,
            fraction: 0,
            highest: 0,
        },
    }
}
