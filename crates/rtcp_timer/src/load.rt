//! The deterministic interval (RFC 3550, 6.3.1).

ghost use Rattle.std.specs.Prelude.{◌≡◌, ◌≤◌, ◌<◌, ◌*◌, ◌^◌};
ghost use Rattle.rtcp_timer.specs.Loads.{sharers_of, bandwidth_of, count_of, interval_of, minimum_of};

use crate::average::PARTS;

/// Microseconds in a second.
const SECOND: u64 = 1_000_000;

/// The least interval before the participant's first report, in microseconds (RFC 3550, 6.2).
const INITIAL_MINIMUM: u64 = 2_500_000;

/// The least interval from then on.
const MINIMUM: u64 = 5_000_000;

/// What the interval depends on (RFC 3550, 6.3).
#[derive(Clone, Copy, Debug, PartialEq, Eq)]
pub struct Load {
    /// The members of the session, the participant included.
    pub members: u32,
    /// Those members that send RTP packets, the participant included if it does.
    pub senders: u32,
    /// Whether the participant is one of the senders.
    pub we_sent: bool,
    /// Whether the participant has sent no report yet.
    pub initial: bool,
    /// The average size of compounds in 1/256 octet, as `Average::value` returns it.
    pub avg: u32,
    /// The session's bandwidth for the RTCP of senders, in octets a second (RFC 3556).
    pub sender_bw: u32,
    /// That for the RTCP of the others.
    pub receiver_bw: u32,
}

/// The deterministic interval, in microseconds (RFC 3550, 6.3.1): the time in which all who share a part of
/// the bandwidth with the participant can send one compound of average size each, rounded up, or the minimum
/// where that is longer.
///
/// There are at most 65,535 members, the average is at most that of compounds of 65,535 octets, and each
/// bandwidth is at least 16 octets a second.
pub fn interval(load: &Load) -> u64
    requires members_fit { load.now.members ≤ 65535 }
    requires average_fits { load.now.avg ≤ 256 * 65563 }
    requires some_for_senders { 16 ≤ load.now.sender_bw }
    requires some_for_others { 16 ≤ load.now.receiver_bw }
    ensures exact { result ≡ interval_of load.now }
    ensures bounded { result < 2 ^ 49 }
{
    let minimum = minimum(load.initial);
    let share = share_of(load);
    let parts = SECOND * share.sharers * load.avg as u64;
    let rate = PARTS as u64 * share.bandwidth;
    // Compared first: where few members share much, the minimum is longer, and nothing is divided.
    if parts <= minimum * rate {
        return minimum;
    }
    parts.div_ceil(rate)
}

/// The least interval, in microseconds: half as long as long as the participant has sent no report, `initial` (RFC
/// 3550, 6.2).
#[inline(always)]
pub fn minimum(initial: bool) -> u64
    ensures { result ≡ minimum_of initial }
{
    if initial { INITIAL_MINIMUM } else { MINIMUM }
}

/// A part of the bandwidth.
#[derive(Clone, Copy)]
struct Share {
    /// How many members share it.
    sharers: u64,
    /// How many octets a second it is.
    bandwidth: u64,
}

/// The part of the bandwidth that the participant shares: senders share theirs and the others the rest, unless
/// senders are more of the members than their part is of the bandwidth; then everyone shares all of it (RFC 3550,
/// 6.3.1).
fn share_of(load: &Load) -> Share
    requires members_fit { load.now.members ≤ 65535 }
    requires some_for_senders { 16 ≤ load.now.sender_bw }
    requires some_for_others { 16 ≤ load.now.receiver_bw }
    ensures sharers { result.sharers ≡ count_of (sharers_of load.now) load.now }
    ensures bandwidth { result.bandwidth ≡ bandwidth_of (sharers_of load.now) load.now }
    ensures some { 16 ≤ result.bandwidth }
    ensures few { result.sharers ≤ load.now.members }
{
    let members = load.members as u64;
    let senders = load.senders as u64;
    let (for_senders, for_others) = (load.sender_bw as u64, load.receiver_bw as u64);
    let all = for_senders + for_others;
    // Nothing bounds the senders, so that this product may need 65 bits.
    let (sharers, bandwidth) = if senders as u128 * all as u128 > (members * for_senders) as u128 {
        (members, all)
    } else if load.we_sent {
        (senders, for_senders)
    } else {
        (members - senders, for_others)
    };
    Share { sharers, bandwidth }
}
