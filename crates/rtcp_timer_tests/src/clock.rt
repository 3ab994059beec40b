//! Moments and intervals.

use rtcp_clock::{draw, longest, ntp_of, round_trip, rtp_units, scale_down, short_delay};
use std::test::*;

/// The example at the head of `rtcp_clock`.
#[test]
fn example(rt: HostRuntime) {
    assert_eq!(rt; ntp_of(0, 1_500_000), 0x0000_0001_8000_0000);
    assert_eq!(rt; draw(5_000_000, 0), 2_052_074);
}

#[test]
fn moments(rt: HostRuntime) {
    assert_eq!(rt; rtp_units(60_000, 8000), 480);
    // in 150 hours a clock of 8,000 units a second passes 2^32 units
    assert_eq!(rt; rtp_units(540_000_000_000, 8000), 25_032_704);
    assert_eq!(rt;
        round_trip(0xb710_8000, 0xb705_2000, 0x0005_4000),
        0x0006_2000
    );
    assert_eq!(rt; round_trip(0, 1, 1), 0xffff_fffe);
    // an NTP timestamp wraps in 2036
    assert_eq!(rt; ntp_of(0xffff_ffff_8000_0000, 500_000), 0);
}

#[test]
fn delays_have_a_cap(rt: HostRuntime) {
    for (delay, expected) in [
        (5_250_000, 0x0005_4000),
        (65_535_999_984, 0xffff_fffe),
        (65_536_000_000, 0xffff_ffff),
        (1 << 50, 0xffff_ffff),
    ] {
        assert_eq!(rt; short_delay(delay), expected, "after {delay} microseconds");
    }
}

#[test]
fn intervals(rt: HostRuntime) {
    let draws = [
        draw(2_500_000, 0),
        draw(2_500_000, 0xffff_ffff),
        draw(20_000_000, 0x8000_0000),
    ];
    assert_eq!(rt; draws, [1_026_037, 3_078_111, 16_416_588]);
    assert_eq!(rt;
        [longest(2_500_000), longest(5_000_000)],
        [3_078_111, 6_156_221]
    );
    assert_eq!(rt;
        [scale_down(1_999_999, 3, 4), scale_down(2_000_003, 3, 4)],
        [1_499_999, 1_500_002]
    );
}
