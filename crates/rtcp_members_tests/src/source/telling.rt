//! What is told of a source.

use super::*;
use rtcp_source::{LastBlock, LastReport};
use std::test::*;

/// The octets of the packets that are counted, from the first one on, or from the last restart.
#[test]
fn octets_of_counted_packets(rt: HostRuntime) {
    let mut source = Source::new();
    let _ = source.take(1, 0, 0, 1_000, 8_000);
    assert!(rt; source.reception().is_none());
    let _ = source.take(2, 0, 0, 20, 8_000);
    let _ = source.take(3, 0, 0, 33, 8_000);
    // a packet that comes twice is received twice
    let _ = source.take(3, 0, 0, 33, 8_000);
    assert!(rt;
        source
            .reception()
            .is_some_and(|told| (told.received, told.octets) == (3, 86))
    );
    let _ = source.take(5000, 0, 0, 500, 8_000);
    assert!(rt; source.reception().is_some_and(|told| told.octets == 86));
    assert_eq!(rt; source.take(5001, 0, 0, 7, 8_000), Taken::Restarted);
    assert!(rt;
        source
            .reception()
            .is_some_and(|told| (told.received, told.octets) == (1, 7))
    );
    // a block changes nothing of it
    let _ = source.block(9, 0);
    let _ = source.take(5002, 0, 0, 8, 8_000);
    assert!(rt;
        source
            .reception()
            .is_some_and(|told| (told.received, told.octets) == (2, 15))
    );
}

#[test]
fn octets_modulo_two_to_the_64(rt: HostRuntime) {
    let mut source = Source::new();
    let _ = source.take(1, 0, 0, 0, 8_000);
    let _ = source.take(2, 0, 0, u64::MAX, 8_000);
    let _ = source.take(3, 0, 0, 5, 8_000);
    assert!(rt; source.reception().is_some_and(|told| told.octets == 4));
}

/// Both timestamps are those of the last report.
#[test]
fn timestamps_of_the_last_report(rt: HostRuntime) {
    let mut source = Source::new();
    assert!(rt; source.last_report().is_none());
    source.saw_sr(7, 8, 0);
    let first = LastReport {
        ntp: 7,
        rtp: 8,
        moment: 0,
    };
    assert!(rt; source.last_report() == Some(first));
    source.saw_sr(0x0000_b705_2000_0000, 0xffff_ffff, 1_000_000);
    let second = LastReport {
        ntp: 0x0000_b705_2000_0000,
        rtp: 0xffff_ffff,
        moment: 1_000_000,
    };
    assert!(rt; source.last_report() == Some(second));
}

/// It stands until the next block is made, over a restart too.
#[test]
fn what_the_last_block_said(rt: HostRuntime) {
    let mut source = Source::new();
    let _ = source.take(65_534, 0, 0, 0, 8_000);
    let _ = source.take(65_535, 0, 0, 0, 8_000);
    let _ = source.take(2, 0, 0, 0, 8_000);
    assert!(rt; source.last_block().is_none());
    let _ = source.block(9, 0);
    // of 65,535 to 65,538 two came: 128 in 256 were lost
    let first = LastBlock {
        fraction: 128,
        highest: 65_538,
    };
    assert!(rt; source.last_block() == Some(first));
    let _ = source.take(3, 0, 0, 0, 8_000);
    source.saw_sr(7, 8, 0);
    let _ = source.take(5000, 0, 0, 0, 8_000);
    assert_eq!(rt; source.take(5001, 0, 0, 0, 8_000), Taken::Restarted);
    assert!(rt; source.last_block() == Some(first));
    let _ = source.block(9, 0);
    let second = LastBlock {
        fraction: 0,
        highest: 5001,
    };
    assert!(rt; source.last_block() == Some(second));
}
