//! What reports say of one source.

use super::*;

/// A receiver report of source 7 with a block about source 0xaa.
const ONE_BLOCK: [u8; 32] = [
    0x81, 0xc9, 0, 7, // a receiver report of eight words, with one block
    0, 0, 0, 7, // its SSRC
    0, 0, 0, 0xaa, // the block's SSRC
    25, 0, 0, 3, // fraction lost 25, packets lost 3
    0, 0, 0, 11, // highest sequence number
    0, 0, 0, 0, // jitter
    0xb7, 5, 0x20, 0, // LSR
    0, 5, 0x40, 0, // DLSR
];

/// A sender report of source 9 with a block about source 5 and one about 13; a source description of no
/// chunks; and a receiver report of source 11 with a block about 13 and one about 5.
const TWO_REPORTS: [u8; 136] = [
    0x82, 0xc8, 0, 18, // a sender report of 19 words, with two blocks
    0, 0, 0, 9, // its SSRC
    0, 0, 0, 1, // NTP timestamp, the upper word
    0, 0, 0, 5, // NTP timestamp, the lower word
    0, 0, 0, 2, // RTP timestamp
    0, 0, 0, 3, // packets sent
    0, 0, 0, 4, // octets sent
    0, 0, 0, 5, // the first block's SSRC
    0, 0, 0, 0, // fraction lost and packets lost
    0, 0, 0, 21, // highest sequence number
    0, 0, 0, 0, // jitter
    0, 0, 0, 0, // LSR
    0, 0, 0, 0, // DLSR
    0, 0, 0, 13, // the second block's SSRC
    0, 0, 0, 0, // fraction lost and packets lost
    0, 0, 0, 22, // highest sequence number
    0, 0, 0, 0, // jitter
    0, 0, 0, 0, // LSR
    0, 0, 0, 0, // DLSR
    0x80, 0xca, 0, 0, // a source description of no chunks
    0x82, 0xc9, 0, 13, // a receiver report of 14 words, with two blocks
    0, 0, 0, 11, // its SSRC
    0, 0, 0, 13, // the first block's SSRC
    0, 0, 0, 0, // fraction lost and packets lost
    0, 0, 0, 23, // highest sequence number
    0, 0, 0, 0, // jitter
    0, 0, 0, 0, // LSR
    0, 0, 0, 0, // DLSR
    0, 0, 0, 5, // the second block's SSRC
    0, 0, 0, 0, // fraction lost and packets lost
    0, 0, 0, 24, // highest sequence number
    0, 0, 0, 0, // jitter
    0, 0, 0, 0, // LSR
    0, 0, 0, 0, // DLSR
];

/// A block with nothing but a source and its highest sequence number.
const BLANK: Block = Block {
    ssrc: 0,
    fraction: 0,
    lost: 0,
    highest: 0,
    jitter: 0,
    lsr: 0,
    dlsr: 0,
};

/// A datagram, a source, and who reports what of it, in the order of the datagram.
type About = (&'static [u8], u32, &'static [(u32, Block)]);

static ABOUT: [About; 5] = [
    (
        &ONE_BLOCK,
        0xaa,
        &[(
            7,
            Block {
                ssrc: 0xaa,
                fraction: 25,
                lost: 3,
                highest: 11,
                jitter: 0,
                lsr: 0xb705_2000,
                dlsr: 0x0005_4000,
            },
        )],
    ),
    // The source that reports is not one that it reports of.
    (&ONE_BLOCK, 7, &[]),
    // Blocks of two reports, with others before and after them.
    (
        &TWO_REPORTS,
        13,
        &[
            (
                9,
                Block {
                    ssrc: 13,
                    highest: 22,
                    ..BLANK
                },
            ),
            (
                11,
                Block {
                    ssrc: 13,
                    highest: 23,
                    ..BLANK
                },
            ),
        ],
    ),
    (
        &TWO_REPORTS,
        5,
        &[
            (
                9,
                Block {
                    ssrc: 5,
                    highest: 21,
                    ..BLANK
                },
            ),
            (
                11,
                Block {
                    ssrc: 5,
                    highest: 24,
                    ..BLANK
                },
            ),
        ],
    ),
    (&TWO_REPORTS, 9, &[]),
];

/// Each block about a source, and then none.
#[test]
fn each_block(rt: HostRuntime) -> Result<(), Fail> {
    for (datagram, ssrc, wanted) in &ABOUT {
        let compound = Compound::read(datagram)?;
        let mut about = compound.about(*ssrc);
        for block in *wanted {
            assert_eq!(rt; about.next(), Some(*block), "about {ssrc}");
        }
        let ends = (about.next().is_none(), about.next().is_none());
        assert_eq!(rt; ends, (true, true), "about {ssrc}");
    }
    Ok(())
}
