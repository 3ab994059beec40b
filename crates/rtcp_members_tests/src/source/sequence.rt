//! Which packets are counted, and with which places.

use super::*;
use std::test::*;

/// What a source makes of this packet after 10 and 11, and its block then.
fn after_eleven(seq: u16) -> (Taken, Block) {
    let mut source = Source::new();
    let _ = source.take(10, 0, 0, 0, 8_000);
    let _ = source.take(11, 0, 0, 0, 8_000);
    let taken = source.take(seq, 0, 0, 0, 8_000);
    (taken, source.block(9, 0))
}

#[test]
fn edges_of_a_run(rt: HostRuntime) {
    let taken = [
        after_eleven(3010).0,
        after_eleven(3011).0,
        after_eleven(65447).0,
    ];
    assert_eq!(rt; taken, [Taken::Counted, Taken::Bad, Taken::Bad]);
    let (taken, late) = after_eleven(65448);
    // one packet was expected, 11, and two came: lost is negative for a late packet too
    assert_eq!(rt; (taken, late.lost, late.highest), (Taken::Counted, -1, 11));
}

#[test]
fn a_run_wraps(rt: HostRuntime) {
    let mut source = Source::new();
    let taken = [
        source.take(65534, 0, 0, 0, 8_000),
        source.take(65535, 0, 0, 0, 8_000),
        source.take(0, 0, 0, 0, 8_000),
    ];
    assert_eq!(rt; taken, [Taken::Probation, Taken::Became, Taken::Counted]);
    let block = source.block(9, 0);
    assert_eq!(rt; (block.lost, block.highest), (0, 65536));
}

#[test]
fn a_run_starts_after_a_wrap(rt: HostRuntime) {
    let mut source = Source::new();
    let taken = [
        source.take(65535, 0, 0, 0, 8_000),
        source.take(0, 0, 0, 0, 8_000),
    ];
    assert_eq!(rt; taken, [Taken::Probation, Taken::Became]);
    assert_eq!(rt; source.block(9, 0).highest, 0);
}

/// Each packet whose number is no successor begins probation anew.
#[test]
fn probation_takes_two_in_a_row(rt: HostRuntime) {
    let mut source = Source::new();
    let taken = [
        source.take(10, 0, 0, 0, 8_000),
        source.take(12, 0, 0, 0, 8_000),
        source.take(11, 0, 0, 0, 8_000),
        source.take(12, 0, 0, 0, 8_000),
    ];
    let in_order = [
        Taken::Probation,
        Taken::Probation,
        Taken::Probation,
        Taken::Became,
    ];
    assert_eq!(rt; taken, in_order);
}

#[test]
fn strays_in_a_row_restart(rt: HostRuntime) {
    let mut source = Source::new();
    let taken = [
        source.take(10, 0, 0, 0, 8_000),
        source.take(11, 0, 0, 0, 8_000),
        source.take(5000, 0, 0, 0, 8_000),
        source.take(5001, 0, 0, 0, 8_000),
    ];
    assert_eq!(rt;
        taken,
        [
            Taken::Probation,
            Taken::Became,
            Taken::Bad,
            Taken::Restarted,
        ]
    );
    let block = source.block(9, 0);
    assert_eq!(rt; (block.lost, block.highest), (0, 5001));
}

#[test]
fn a_counted_packet_keeps_the_stray(rt: HostRuntime) {
    let mut source = Source::new();
    let taken = [
        source.take(10, 0, 0, 0, 8_000),
        source.take(11, 0, 0, 0, 8_000),
        source.take(5000, 0, 0, 0, 8_000),
        source.take(12, 0, 0, 0, 8_000),
        source.take(5001, 0, 0, 0, 8_000),
    ];
    assert_eq!(rt;
        taken,
        [
            Taken::Probation,
            Taken::Became,
            Taken::Bad,
            Taken::Counted,
            Taken::Restarted,
        ]
    );
}

/// A stray before a restart does not restart again: 5001 is once more the successor of 5000, which was
/// forgotten.
#[test]
fn a_restart_forgets_earlier_strays(rt: HostRuntime) {
    let mut source = Source::new();
    let taken = [
        source.take(10, 0, 0, 0, 8_000),
        source.take(11, 0, 0, 0, 8_000),
        source.take(5000, 0, 0, 0, 8_000),
        source.take(5001, 0, 0, 0, 8_000),
        source.take(8000, 0, 0, 0, 8_000),
        source.take(5001, 0, 0, 0, 8_000),
        source.take(5002, 0, 0, 0, 8_000),
    ];
    assert_eq!(rt;
        taken,
        [
            Taken::Probation,
            Taken::Became,
            Taken::Bad,
            Taken::Restarted,
            Taken::Counted, // 2,999 after the greatest one
            Taken::Bad, // 2,999 before the greatest one
            Taken::Restarted, // the successor of the stray that came since
        ]
    );
}
