//! Formulas of the transmission interval (RFC 3550, 6.3.1, 6.3.4 and appendix A.7).

ghost use Rattle.std.specs.Prelude.{◌≡◌, ◌≤◌, ◌<◌, ◌^◌};
ghost use Rattle.rtcp_clock.specs.Intervals.{scaled_down, drawn_interval, longest_draw};

/// The distance `d` scaled by the members now, `m`, over those before, `pm`, and rounded down (reverse
/// reconsideration, RFC 3550, 6.3.4). There was at least one member before, and there are no more now.
pub fn scale_down(d: u64, m: u32, pm: u32) -> u64
    requires fewer { m ≤ pm }
    requires some { 1 ≤ pm }
    ensures { result ≡ scaled_down d m pm }
{
    // By quotient and rest, so that no product of 128 bits is divided.
    let (m, pm) = (m as u64, pm as u64);
    d / pm * m + d % pm * m / pm
}

/// The drawn interval, in microseconds and rounded up: the deterministic interval `td`, below 2^49, times
/// `1/2 + w/2^32`, where `w` is a random word, over 1.21828. The divisor compensates for reconsideration
/// (RFC 3550, 6.3.1; appendix A.7).
pub fn draw(td: u64, w: u32) -> u64
    requires { td < 2 ^ 49 }
    ensures { result ≡ drawn_interval td w }
{
    // Both sides of the fraction over 2^5, and then by quotient and rest, so that no product of 128 bits is divided.
    let stretched = ((td * 3_125) as u128) * ((1 << 31) + w as u128);
    let whole = (stretched >> 30) as u64;
    let rest = (stretched % (1 << 30)) as u64;
    2 * (whole / 30_457) + ((whole % 30_457 << 30) + rest).div_ceil(30_457 << 29)
}

/// The longest draw, in microseconds and rounded up: `3/2 · td / 1.21828`. No draw from the deterministic
/// interval `td`, below 2^49, is longer (RFC 3550, 6.3.1; law `draw_within_bounds`).
pub fn longest(td: u64) -> u64
    requires { td < 2 ^ 49 }
    ensures { result ≡ longest_draw td }
{
    // Both sides of the fraction over 2^3, and then by quotient and rest: the product may have more than 64 bits.
    td / 30_457 * 37_500 + (td % 30_457 * 37_500).div_ceil(30_457)
}
