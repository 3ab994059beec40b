//! What report blocks say.

use super::*;
use rtcp_clock::rtp_units;
use std::test::*;

/// A block of source 9 with no jitter and no sender report.
fn block_of_nine(fraction: u8, lost: i32, highest: u32) -> Block {
    Block {
        ssrc: 9,
        fraction,
        lost,
        highest,
        jitter: 0,
        lsr: 0,
        dlsr: 0,
    }
}

#[test]
fn lost_packets(rt: HostRuntime) {
    let mut source = Source::new();
    let _ = source.take(1, 0, 0, 0, 8_000);
    let _ = source.take(2, 0, 0, 0, 8_000);
    let _ = source.take(3, 0, 0, 0, 8_000);
    let _ = source.take(6, 0, 0, 0, 8_000);
    assert!(rt; source.block(9, 0) == block_of_nine(0x66, 2, 6));
}

#[test]
fn repeated_packets_are_received(rt: HostRuntime) {
    let mut source = Source::new();
    let _ = source.take(1, 0, 0, 0, 8_000);
    let _ = source.take(2, 0, 0, 0, 8_000);
    let _ = source.take(2, 0, 0, 0, 8_000);
    let _ = source.take(2, 0, 0, 0, 8_000);
    // lost is ff fffe in 24 bits
    assert!(rt; source.block(9, 0) == block_of_nine(0, -2, 2));
}

/// The fraction is that of the packets since the last block.
#[test]
fn a_second_block(rt: HostRuntime) {
    let mut source = Source::new();
    let _ = source.take(1, 0, 0, 0, 8_000);
    let _ = source.take(2, 0, 0, 0, 8_000);
    let _ = source.take(3, 0, 0, 0, 8_000);
    assert!(rt; source.has_news());
    assert!(rt; source.block(9, 0) == block_of_nine(0, 0, 3));
    assert!(rt; !source.has_news());
    let _ = source.take(4, 0, 0, 0, 8_000);
    let _ = source.take(8, 0, 0, 0, 8_000);
    assert!(rt; source.has_news());
    assert!(rt; source.block(9, 0) == block_of_nine(0x99, 3, 8));
}

/// A restart begins the counts anew, those of the last block too, and keeps the last sender report.
#[test]
fn a_restart_keeps_the_sender_report(rt: HostRuntime) {
    let mut source = Source::new();
    let _ = source.take(1, 0, 0, 0, 8_000);
    let _ = source.take(2, 0, 0, 0, 8_000);
    source.saw_sr(0x0000_b705_2000_0000, 0, 1_000_000);
    assert_eq!(rt; source.block(9, 1_000_000).lsr, 0xb705_2000);
    let _ = source.take(5000, 0, 0, 0, 8_000);
    assert!(rt; !source.has_news());
    assert_eq!(rt; source.take(5001, 0, 0, 0, 8_000), Taken::Restarted);
    assert!(rt; source.has_news());
    let _ = source.take(5003, 0, 0, 0, 8_000);
    let block = source.block(9, 6_250_000);
    // two of 5001 to 5003 came, 5.25 seconds after the sender report
    assert_eq!(rt;
        (block.fraction, block.lost, block.lsr, block.dlsr),
        (85, 1, 0xb705_2000, 0x0005_4000)
    );
}

/// With a clock of 8,000 units a second: packets are sent 20 ms apart, and from the third one on they are
/// 20 ms late.
#[test]
fn jitter(rt: HostRuntime) {
    let mut source = Source::new();
    let _ = source.take(1, 0, rtp_units(0, 8000), 0, 8_000);
    let _ = source.take(2, 160, rtp_units(20_000, 8000), 0, 8_000);
    assert_eq!(rt; source.block(9, 0).jitter, 0);
    let _ = source.take(3, 320, rtp_units(60_000, 8000), 0, 8_000);
    assert_eq!(rt; source.block(9, 0).jitter, 10);
    let _ = source.take(4, 480, rtp_units(80_000, 8000), 0, 8_000);
    assert_eq!(rt; source.block(9, 0).jitter, 9);
}

/// A transit just below 2^32 is 32 units from a transit of 16.
#[test]
fn jitter_over_a_wrap(rt: HostRuntime) {
    let mut source = Source::new();
    let _ = source.take(1, 0, 0, 0, 8_000);
    let _ = source.take(2, 16, 0, 0, 8_000);
    assert_eq!(rt; source.block(9, 0).jitter, 0);
    let _ = source.take(3, 0, 16, 0, 8_000);
    assert_eq!(rt; source.block(9, 0).jitter, 2);
}
