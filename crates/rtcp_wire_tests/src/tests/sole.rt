ghost use Rattle.std.specs.Prelude.{◌<◌};

use super::*;

/// A sender report of source 9 without blocks, and its CNAME.
const INTRODUCED: [u8; 40] = [
    0x80, 0xc8, 0, 6, // a sender report of seven words
    0, 0, 0, 9, // its SSRC
    0, 0, 0, 1, // NTP timestamp, the upper word
    0, 0, 0, 5, // NTP timestamp, the lower word
    0, 0, 0, 2, // RTP timestamp
    0, 0, 0, 3, // packets sent
    0, 0, 0, 4, // octets sent
    0x81, 0xca, 0, 2, // a source description of three words, with one chunk
    0, 0, 0, 9, // the chunk's SSRC
    1, 1, 0x61, 0, // a CNAME of one octet, and the zero octet
];

/// Source 9, by `INTRODUCED`.
const NINE: SoleSource = SoleSource {
    ssrc: 9,
    timestamps: Some((0x1_0000_0005, 2)),
    is_named: true,
};

/// Source 7, which sent a receiver report.
const SEVEN: SoleSource = SoleSource {
    ssrc: 7,
    timestamps: None,
    is_named: false,
};

/// A receiver report of source 7, twice, and packets that say nothing of a source.
const TWICE: [u8; 28] = [
    0x80, 0xc9, 0, 1, 0, 0, 0, 7, // a receiver report
    0x80, 0xc9, 0, 1, 0, 0, 0, 7, // and another
    0x80, 0xcb, 0, 0, // a goodbye of no sources
    0x80, 0xcd, 0, 1, 0, 0, 0, 8, // a packet of type 205
];

/// A receiver report of source 7, and its goodbye.
const LEAVING: [u8; 16] = [
    0x80, 0xc9, 0, 1, 0, 0, 0, 7, // a receiver report
    0x81, 0xcb, 0, 1, 0, 0, 0, 7, // a goodbye of one source
];

/// A receiver report of source 7, and its CNAME after an item of another type.
const NAMED_SECOND: [u8; 24] = [
    0x80, 0xc9, 0, 1, 0, 0, 0, 7, // a receiver report
    0x81, 0xca, 0, 3, 0, 0, 0, 7, // a source description of four words, with one chunk
    2, 1, 0x62, 1, 1, 0x61, 0, 0, // a NAME, a CNAME, and the zero octet
];

/// Compounds, and the one source that each is about.
static SOLE: [(&[u8], Option<SoleSource>); 5] = [
    (&[0x80, 0xc9, 0, 1, 0, 0, 0, 7], Some(SEVEN)),
    (&INTRODUCED, Some(NINE)),
    (&TWICE, Some(SEVEN)),
    (
        &NAMED_SECOND,
        Some(SoleSource {
            is_named: true,
            ..SEVEN
        }),
    ),
    (&LEAVING, None),
];

#[test]
fn sole_sources(rt: HostRuntime) -> Result<(), Fail> {
    for (octets, wanted) in &SOLE {
        let compound = Compound::read(octets)?;
        assert_eq!(rt; compound.sole(), *wanted, "{octets:?}");
    }
    Ok(())
}

/// The one source of `INTRODUCED` with an octet changed.
fn sole_with(offset: usize, octet: u8) -> Result<Option<SoleSource>, WireFault>
    requires { offset < 40 }
{
    let mut datagram = INTRODUCED;
    datagram[offset] = octet;
    Ok(Compound::read(&datagram)?.sole())
}

/// With another SSRC of the report or of the chunk it is about two sources, and with another item about one without a
/// name.
#[test]
fn changed_sources(rt: HostRuntime) -> Result<(), Fail> {
    let unnamed = Some(SoleSource {
        is_named: false,
        ..NINE
    });
    assert_eq!(rt; sole_with(7, 8)?, None, "the report's SSRC");
    assert_eq!(rt; sole_with(35, 8)?, None, "the chunk's SSRC");
    assert_eq!(rt; sole_with(36, 2)?, unnamed, "a NAME");
    assert_eq!(rt; sole_with(36, 0)?, unnamed, "no item");
    Ok(())
}
