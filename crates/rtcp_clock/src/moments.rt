//! Moments as RTCP carries them (RFC 3550, section 4, 5.1 and 6.4.1).

ghost use Rattle.std.specs.Prelude.{◌≡◌};
ghost use Rattle.rtcp_clock.specs.Moments.{ntp_moment, media_units, short_seconds, time_of_trip};

/// Microseconds in a second.
const SECOND: u64 = 1_000_000;

/// The NTP timestamp of the moment `t`, in microseconds, of a session that began at the NTP timestamp `base`:
/// 64 bits, the upper 32 in seconds and the lower 32 in 1/2^32 of a second. It wraps around as NTP's seconds
/// do (RFC 3550, section 4).
pub fn ntp_of(base: u64, t: u64) -> u64
    ensures { result ≡ ntp_moment base t }
{
    // Seconds and the rest apart, since a product of 128 bits is dear to divide.
    let seconds = (t / SECOND).wrapping_mul(1 << 32);
    let fraction = (t % SECOND << 32) / SECOND;
    base.wrapping_add(seconds).wrapping_add(fraction)
}

/// The units by which a media clock of `rate` units a second advances in `t` microseconds, modulo 2^32 as in
/// RTP timestamps (RFC 3550, 5.1).
pub fn rtp_units(t: u64, rate: u32) -> u32
    ensures { result ≡ media_units t rate }
{
    let rate = rate as u64;
    let of_rest = t % SECOND * rate / SECOND;
    ((t / SECOND).wrapping_mul(rate).wrapping_add(of_rest) % (1 << 32)) as u32
}

/// A time of `us` microseconds in 1/65,536 of a second, capped at 2^32 - 1: the form of DLSR in a report
/// block (RFC 3550, 6.4.1).
pub fn short_delay(us: u64) -> u32
    ensures { result ≡ short_seconds us }
{
    if us >= SECOND << 16 {
        return u32::MAX;
    }
    ((us << 16) / SECOND) as u32
}

/// The round-trip time by a report block, in 1/65,536 of a second and modulo 2^32: `a` is the middle 32 bits
/// of the NTP timestamp at which the block arrived, and `lsr` and `dlsr` are the block's fields (RFC 3550,
/// 6.4.1).
pub fn round_trip(a: u32, lsr: u32, dlsr: u32) -> u32
    ensures { result ≡ time_of_trip a lsr dlsr }
{
    a.wrapping_sub(lsr).wrapping_sub(dlsr)
}
