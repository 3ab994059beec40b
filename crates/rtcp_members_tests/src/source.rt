//! Sources.

use rtcp_clock::round_trip;
use rtcp_source::{Source, Taken};
use rtcp_wire::{Block, Compound};
use std::test::*;

mod blocks;
mod sequence;
mod telling;

/// The example at the head of `rtcp_source`.
#[test]
fn example(rt: HostRuntime) {
    let mut source = Source::new();
    assert_eq!(rt; source.take(10, 0, 0, 160, 8_000), Taken::Probation);
    assert_eq!(rt; source.take(11, 160, 160, 160, 8_000), Taken::Became);
    assert_eq!(rt; source.block(9, 0).highest, 11);
}

/// How others receive a source's packets, and how far away they are. The moments are
/// those of RFC 3550, figure 2.
#[test]
fn what_others_receive(rt: HostRuntime) -> Result<(), Fail> {
    let datagram = [
        0x81, 0xc9, 0, 7, // a receiver report of eight words, with one block
        0, 0, 0, 7, // its SSRC
        0, 0, 0, 0xaa, // the block's SSRC
        25, 0, 0, 3, // fraction lost 25, packets lost 3
        0, 0, 0, 11, // highest sequence number
        0, 0, 0, 0, // jitter
        0xb7, 5, 0x20, 0, // LSR
        0, 5, 0x40, 0, // DLSR
    ];
    let compound = Compound::read(&datagram)?;
    let mut reports = 0u8;
    for (reporter, block) in compound.about(0xaa) {
        let delay = round_trip(0xb710_8000, block.lsr, block.dlsr);
        assert_eq!(rt; (reporter, block.lost, delay), (7, 3, 0x0006_2000));
        reports = reports.saturating_add(1);
    }
    assert_eq!(rt; reports, 1);
    Ok(())
}
