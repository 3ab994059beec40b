//! Each packet and each part of one.

use super::same;
use rtcp_plain::push_plain;
use rtcp_wire::Compound;
use std::alloc::Global;
use std::process::Abort;
use std::test::Fail;

/// Asserts that a datagram is shown so, where jitter has so many units a second.
fn shows(
    rt: &impl Abort,
    alloc: Global,
    datagram: &[u8],
    rate: Option<u32>,
    want: &str,
) -> Result<(), Fail> {
    let Ok(compound) = Compound::read(datagram) else {
        return Err("it is refused")?;
    };
    let mut text = Vec::new(alloc);
    push_plain(&mut text, &compound, rate)?;
    same(rt, &text, want.as_bytes(), want);
    Ok(())
}

/// A sender report of source b, at 3,900,000,000.5 seconds of NTP: 232 times 2^24, 117 times 2^16 and 18,176 are
/// 0xe8754700. One packet of 160 octets was sent, at the RTP timestamp 160.
#[test]
fn sender(rt: HostRuntime) -> Result<(), Fail> {
    let datagram = [
        0x80, 0xc8, 0, 6, 0, 0, 0, 0x0b, 0xe8, 0x75, 0x47, 0x00, 0x80, 0, 0, 0, 0, 0, 0, 0xa0, 0,
        0, 0, 1, 0, 0, 0, 0xa0,
    ];
    let want = "ok SR ssrc=0000000b ntp=3900000000.500000s rtp=160 packets=1 octets=160\n";
    shows(&rt, rt.alloc(), &datagram, None, want)
}

/// The least fraction of a second is below a microsecond, and the greatest is below a second.
#[test]
fn moments(rt: HostRuntime) -> Result<(), Fail> {
    let least = [
        0x80, 0xc8, 0, 6, 0, 0, 0, 0x0b, 0, 0, 0, 1, 0, 0, 0, 1, 0, 0, 0, 0, 0, 0, 0, 0, 0, 0, 0, 0,
    ];
    let want = "ok SR ssrc=0000000b ntp=1.000000s rtp=0 packets=0 octets=0\n";
    shows(&rt, rt.alloc(), &least, None, want)?;
    let greatest = [
        0x80, 0xc8, 0, 6, 0xff, 0xff, 0xff, 0xff, 0xff, 0xff, 0xff, 0xff, 0xff, 0xff, 0xff, 0xff,
        0xff, 0xff, 0xff, 0xff, 0xff, 0xff, 0xff, 0xff, 0xff, 0xff, 0xff, 0xff,
    ];
    let want = "ok SR ssrc=ffffffff ntp=4294967295.999999s rtp=4294967295 packets=4294967295 \
        octets=4294967295\n";
    shows(&rt, rt.alloc(), &greatest, None, want)
}

/// A block about source aa: 85/256 are 33.2 per cent, a packet is lost in all, the jitter is 1 unit, and the last
/// sender report was the one of 2 seconds, half a second ago.
const BLOCK: [u8; 32] = [
    0x81, 0xc9, 0, 7, 0, 0, 0, 0x0b, 0, 0, 0, 0xaa, 85, 0, 0, 1, 0, 0, 0, 4, 0, 0, 0, 1, 0, 2, 0,
    0, 0, 0, 0x80, 0,
];

#[test]
fn block(rt: HostRuntime) -> Result<(), Fail> {
    let want =
        "ok RR ssrc=0000000b block about=000000aa loss=33.2% lost=1 highest=4 jitter=0.125ms \
        lsr=2.000000s dlsr=0.500000s\n";
    shows(&rt, rt.alloc(), &BLOCK, Some(8_000), want)?;
    let want = "ok RR ssrc=0000000b block about=000000aa loss=33.2% lost=1 highest=4 jitter=1units \
        lsr=2.000000s dlsr=0.500000s\n";
    shows(&rt, rt.alloc(), &BLOCK, None, want)?;
    // a clock of no units is taken as one of a unit a second
    let want = "ok RR ssrc=0000000b block about=000000aa loss=33.2% lost=1 highest=4 \
        jitter=1000.000ms lsr=2.000000s dlsr=0.500000s\n";
    shows(&rt, rt.alloc(), &BLOCK, Some(0), want)
}

/// Two blocks and an extension. Of the first, 255/256 are lost lately, and 3 packets more came than were expected; 91
/// units of 90,000 a second are 1.011 milliseconds; no sender report came. Of the second 1/256 is lost, and its last
/// moments are the least and the greatest: 1/65,536 of a second, and as much short of 65,536 seconds.
#[test]
fn blocks(rt: HostRuntime) -> Result<(), Fail> {
    let datagram = [
        0x82, 0xc9, 0, 14, 0, 0, 0, 0x0b, // the head, with its source
        0, 0, 0, 1, 255, 0xff, 0xff, 0xfd, 0, 1, 0, 0, 0, 0, 0, 91, 0, 0, 0, 0, 0, 0, 0, 0, // a block
        0, 0, 0, 2, 1, 0, 0, 0, 0, 0, 0, 9, 0, 0, 0, 0, 0, 0, 0, 1, 0xff, 0xff, 0xff, 0xff, // another
        1, 2, 3, 4, // the extension
    ];
    let want = "ok RR ssrc=0000000b \
        block about=00000001 loss=99.6% lost=-3 highest=65536 jitter=1.011ms lsr=none dlsr=0.000000s \
        block about=00000002 loss=0.3% lost=0 highest=9 jitter=0.000ms lsr=0.000015s dlsr=65535.999984s \
        extension=4\n";
    shows(&rt, rt.alloc(), &datagram, Some(90_000), want)
}

/// An item of each type, of one that has no name, and a text that clears a terminal and ends its quotes.
#[test]
fn description(rt: HostRuntime) -> Result<(), Fail> {
    let datagram = [
        0x80, 0xc9, 0, 1, 0, 0, 0, 7, // a receiver report
        0x82, 0xca, 0, 13, 0, 0, 0, 7, // a description of two, of which the first is 7
        1, 1, b'a', 2, 1, b'b', 3, 1, b'c', 4, 1, b'd', 5, 1, b'e', 6, 1, b'f', 7, 1, b'g', 8, 3,
        1, b'h', b'i', 9, 1, b'j', 0, 0, 0, // the items and zeros up to a word
        0, 0, 0, 8, 1, 6, 0x1b, b'[', b'2', b'J', b'"', 0xe9, 0, 0, 0, 0, // and 8
    ];
    let want =
        "ok RR ssrc=00000007 SDES ssrc=00000007 cname=\"a\" name=\"b\" email=\"c\" phone=\"d\" \
        loc=\"e\" tool=\"f\" note=\"g\" priv=\"\\x01hi\" item9=\"j\" \
        ssrc=00000008 cname=\"\\x1b[2J\\\"\\xe9\"\n";
    shows(&rt, rt.alloc(), &datagram, None, want)
}

/// BYEs with and without a reason, of two sources and of none.
#[test]
fn goodbyes(rt: HostRuntime) -> Result<(), Fail> {
    let datagram = [
        0x80, 0xc9, 0, 1, 0, 0, 0, 7, // a receiver report
        0x82, 0xcb, 0, 3, 0, 0, 0, 7, 0, 0, 0, 8, 3, b'e', b'n', b'd', // with a reason
        0x80, 0xcb, 0, 0, // of none
        0x81, 0xcb, 0, 2, 0, 0, 0, 9, 0, 0, 0, 0, // with a reason without text
    ];
    let want = "ok RR ssrc=00000007 BYE ssrc=00000007 ssrc=00000008 reason=\"end\" BYE \
        BYE ssrc=00000009 reason=\"\"\n";
    shows(&rt, rt.alloc(), &datagram, None, want)
}

/// An application's packet, and one of another type.
#[test]
fn others(rt: HostRuntime) -> Result<(), Fail> {
    let datagram = [
        0x80, 0xc9, 0, 1, 0, 0, 0, 7, // a receiver report
        0x9f, 0xcc, 0, 3, 0, 0, 0, 7, b'a', b'b', 0, b'\'', 1, 2, 3, 4, // an application's
        0x81, 0xcd, 0, 2, 0, 0, 0, 7, 0xaa, 0xbb, 0xcc, 0xdd, // of type 205
    ];
    let want = "ok RR ssrc=00000007 APP ssrc=00000007 subtype=31 name=\"ab\\x00\\'\" data=4 \
        OTHER type=205 count=1 body=8\n";
    shows(&rt, rt.alloc(), &datagram, None, want)
}
