use rtcp_wire::*;
use std::alloc::{AllocError, Global};
use std::process::Abort;
use std::test::*;

mod about;
mod changes;
mod damage;
mod facts;
mod rtp;
mod samples;
mod sole;
mod types;
mod writing;

/// A receiver report of source 7 with no blocks, and its CNAME, `a`.
const NAMED: [u8; 20] = [
    0x80, 0xc9, 0, 1, // a receiver report of two words, with no blocks
    0, 0, 0, 7, // its SSRC
    0x81, 0xca, 0, 2, // a source description of three words, with one chunk
    0, 0, 0, 7, // the chunk's SSRC
    1, 1, 0x61, 0, // a CNAME of one octet, and the zero octet
];

/// The second packet of a datagram.
fn second_packet<'a>(rt: &impl Abort, datagram: &'a [u8]) -> PacketView<'a> {
    match Compound::read(datagram) {
        Ok(compound) => match compound.packets().nth(1) {
            Some(packet) => packet,
            None => panic!(rt; "there is one packet"),
        },
        Err(fault) => panic!(rt; "{fault}"),
    }
}

/// The example at the head of rtcp_wire.
#[test]
fn example(rt: HostRuntime) {
    let datagram = [
        0x81, 0xc9, 0, 7, 0, 0, 0, 7, // a receiver report of source 7, with one block
        0, 0, 0, 0xaa, 25, 0, 0, 3, 0, 0, 0, 11, // of source 0xaa: 3 packets lost
        0, 0, 0, 0, 0xb7, 5, 0x20, 0, 0, 5, 0x40, 0, // jitter, LSR, DLSR
    ];
    match Compound::read(&datagram) {
        Ok(compound) => {
            for (reporter, block) in compound.about(0xaa) {
                assert_eq!(rt; (reporter, block.lost), (7, 3));
            }
        }
        Err(fault) => panic!(rt; "{fault}"),
    }
}

/// A receiver report of source 7 with no blocks, and its CNAME: its text is the octet at offset 18 of the datagram,
/// whatever it is.
#[test]
fn named_report(rt: HostRuntime) -> Result<(), Fail> {
    for octet in 0..=255u8 {
        let mut datagram = NAMED;
        datagram[18] = octet;
        let compound = Compound::read(&datagram)?;
        let mut packets = compound.packets();
        assert!(rt;
            matches!(packets.next(), Some(PacketView::Rr(_))),
            "octet {octet}"
        );
        match packets.next() {
            Some(PacketView::Sdes(names)) => check_cname(&rt, &names, &datagram[18..19])?,
            _ => panic!(rt; "the second packet is a source description"),
        }
        let ends = (packets.next().is_none(), packets.next().is_none());
        assert_eq!(rt; ends, (true, true), "octet {octet}");
    }
    Ok(())
}

/// A description has one chunk, of source 7, with one item, a CNAME with this text.
fn check_cname(rt: &impl Abort, names: &SourceDescription<'_>, text: &[u8]) -> Result<(), Fail> {
    let mut chunks = names.chunks();
    let chunk = chunks.next().ok_or("no chunk")?;
    let mut items = chunk.items();
    let item = items.next().ok_or("no item")?;
    assert_eq!(rt; (chunk.id(), item.kind, item.text), (7, 1, text));
    let ends = (items.next().is_none(), items.next().is_none());
    assert_eq!(rt; (ends, chunks.next().is_none()), ((true, true), true));
    Ok(())
}

/// Datagrams, and the first fault of each.
static FAULTS: [(&[u8], FaultReason, usize); 17] = [
    (&[], FaultReason::Short, 0),
    (&[0x40, 0xc9, 0, 1, 0, 0, 0, 7], FaultReason::Version, 0),
    (&[0x80, 0xca, 0, 0], FaultReason::FirstType, 0),
    (
        &[0xa0, 0xc9, 0, 2, 0, 0, 0, 7, 0, 0, 0, 4],
        FaultReason::FirstPadding,
        0,
    ),
    (&[0x80, 0xc9, 0, 1, 0, 0, 0], FaultReason::Length, 0),
    (&[0x81, 0xc9, 0, 1, 0, 0, 0, 7], FaultReason::Body, 0),
    (
        &[
            0x80, 0xc9, 0, 1, // a receiver report of two words
            0, 0, 0, 7, // its SSRC
            0xa0, 0xcc, 0, 1, // an application's packet of two words, with padding
            0, 0, 0, 8, // eight octets of padding, the header's among them
        ],
        FaultReason::Padding,
        8,
    ),
    (
        &[
            0x80, 0xc9, 0, 1, // a receiver report of two words
            0, 0, 0, 7, // its SSRC
            0x81, 0xca, 0, 2, // a source description of three words, with one chunk
            0, 0, 0, 7, // the chunk's SSRC
            1, 5, 0x61, 0, // a CNAME of five octets, but only two follow
        ],
        FaultReason::Item,
        8,
    ),
    // A sender report has 24 octets, and 24 more for each block.
    (
        &[
            0x80, 0xc8, 0, 5, // a sender report of six words, with no blocks
            0, 0, 0, 9, // its SSRC
            0, 0, 0, 0, // NTP timestamp, the upper word
            0, 0, 0, 0, // NTP timestamp, the lower word
            0, 0, 0, 0, // RTP timestamp
            0, 0, 0, 0, // packets sent
        ],
        FaultReason::Body,
        0,
    ),
    (
        &[
            0x81, 0xc8, 0, 6, // a sender report of seven words, with one block
            0, 0, 0, 9, // its SSRC
            0, 0, 0, 0, // NTP timestamp, the upper word
            0, 0, 0, 0, // NTP timestamp, the lower word
            0, 0, 0, 0, // RTP timestamp
            0, 0, 0, 0, // packets sent
            0, 0, 0, 0, // octets sent
        ],
        FaultReason::Body,
        0,
    ),
    // A BYE has each identifier that it counts.
    (
        &[
            0x80, 0xc9, 0, 1, 0, 0, 0, 7, // a receiver report of source 7
            0x82, 0xcb, 0, 1, // a goodbye of two words, of two sources
            0, 0, 0, 7, // the first
        ],
        FaultReason::Body,
        8,
    ),
    // An application's packet has a source and a name.
    (
        &[
            0x80, 0xc9, 0, 1, 0, 0, 0, 7, // a receiver report of source 7
            0x80, 0xcc, 0, 1, // an application's packet of two words
            0, 0, 0, 7, // its source
        ],
        FaultReason::Body,
        8,
    ),
    (
        &[
            0x80, 0xc9, 0, 1, 0, 0, 0, 7, // a receiver report of source 7
            0x80, 0xcc, 0, 0, // an application's packet of one word
        ],
        FaultReason::Body,
        8,
    ),
    // A reason's text ends within the body.
    (
        &[
            0x80, 0xc9, 0, 1, 0, 0, 0, 7, // a receiver report of source 7
            0x81, 0xcb, 0, 2, // a goodbye of three words, of one source
            0, 0, 0, 7, // its SSRC
            5, 0x61, 0x62, 0x63, // a reason of five octets, but only three follow
        ],
        FaultReason::Reason,
        8,
    ),
    (
        &[
            0x80, 0xc9, 0, 1, 0, 0, 0, 7, // a receiver report of source 7
            0x80, 0xcb, 0, 1, // a goodbye of two words, of no source
            4, 0x61, 0x62, 0x63, // a reason of four octets, but only three follow
        ],
        FaultReason::Reason,
        8,
    ),
    // No word is left after a reason.
    (
        &[
            0x80, 0xc9, 0, 1, 0, 0, 0, 7, // a receiver report of source 7
            0x80, 0xcb, 0, 2, // a goodbye of three words, of no source
            2, 0x61, 0x62, 0, // a reason of two octets, and its fill
            0, 0, 0, 0, // a word more
        ],
        FaultReason::Reason,
        8,
    ),
    (
        &[
            0x80, 0xc9, 0, 1, 0, 0, 0, 7, // a receiver report of source 7
            0x80, 0xcb, 0, 2, // a goodbye of three words, of no source
            3, 0x61, 0x62, 0x63, // a reason of three octets
            0, 0, 0, 0, // a word more
        ],
        FaultReason::Reason,
        8,
    ),
];

/// Each fault, by the rule that a datagram breaks.
#[test]
fn first_faults(rt: HostRuntime) {
    for (octets, reason, place) in &FAULTS {
        let (reason, place) = (*reason, *place);
        let found = Compound::read(octets).err();
        assert_eq!(rt; found, Some(WireFault { reason, place }), "{octets:?}");
    }
}

#[test]
fn too_long(rt: HostRuntime) -> Result<(), Fail> {
    let octets = vec![in rt.alloc(); 0; MAX_DATAGRAM + 1]?;
    let fault = WireFault {
        reason: FaultReason::TooLong,
        place: 0,
    };
    assert_eq!(rt; Compound::read(octets.as_slice()).err(), Some(fault));
    Ok(())
}

/// From a size on, the fault that a prefix of the named report has: whole packets are read, and any other prefix has
/// a fault at the packet that is cut.
static PREFIXES: [(usize, Option<(FaultReason, usize)>); 5] = [
    (0, Some((FaultReason::Short, 0))),
    (4, Some((FaultReason::Length, 0))),
    (8, None),
    (9, Some((FaultReason::Short, 8))),
    (12, Some((FaultReason::Length, 8))),
];

/// Each prefix of the named report but the whole.
#[test]
fn prefixes(rt: HostRuntime) {
    let mut expected = None;
    for size in 0..NAMED.len() {
        let (prefix, _) = NAMED.split_at(size);
        if let Some((_, fault)) = PREFIXES.iter().find(|(first, _)| *first == size) {
            expected = *fault;
        }
        let found = Compound::read(prefix).err();
        assert_eq!(rt;
            found.map(|fault| (fault.reason, fault.place)),
            expected,
            "{size} octets"
        );
    }
}

/// What has a text.
#[derive(Clone, Copy)]
enum Said {
    /// A fault of a packet at octet 8.
    Packet(FaultReason),
    /// A reason without its place.
    Reason(FaultReason),
    Head(RtpFault),
    Full,
}

/// Errors, and what they say.
static MESSAGES: [(Said, &str); 16] = [
    (
        Said::Packet(FaultReason::Short),
        "fewer than 4 octets for a packet's header (RFC 3550, 6.4.1), in the packet at octet 8",
    ),
    (
        Said::Packet(FaultReason::Version),
        "version is not 2 (RFC 3550, 6.4.1), in the packet at octet 8",
    ),
    (
        Said::Packet(FaultReason::FirstType),
        "first packet is not a report (RFC 3550, 6.1), in the packet at octet 8",
    ),
    (
        Said::Packet(FaultReason::FirstPadding),
        "first packet has its padding bit set (RFC 3550, A.2), in the packet at octet 8",
    ),
    (
        Said::Packet(FaultReason::Length),
        "packet runs past the end of the datagram (RFC 3550, A.2), in the packet at octet 8",
    ),
    (
        Said::Packet(FaultReason::Item),
        "SDES item runs past its body (RFC 3550, 6.5), in the packet at octet 8",
    ),
    (
        Said::Reason(FaultReason::Padding),
        "number of padding octets is 0, not a multiple of 4, or too large (RFC 3550, 6.4.1)",
    ),
    (
        Said::Reason(FaultReason::Body),
        "body does not have the size that its type and count ask for (RFC 3550, 6.4 to 6.7)",
    ),
    (
        Said::Reason(FaultReason::Reason),
        "BYE reason does not end in the last word of its body (RFC 3550, 6.6)",
    ),
    (
        Said::Reason(FaultReason::TooLong),
        "datagram has more than 65,535 octets",
    ),
    (
        Said::Head(RtpFault::Short),
        "fewer octets than the fixed part and its CSRC list (RFC 3550, 5.1)",
    ),
    (
        Said::Head(RtpFault::Version),
        "version is not 2 (RFC 3550, 5.1)",
    ),
    (
        Said::Head(RtpFault::PayloadType),
        "payload type is reserved, from 72 to 76 (RFC 3551, 6)",
    ),
    (
        Said::Head(RtpFault::Extension),
        "header extension runs past the packet (RFC 3550, 5.3.1)",
    ),
    (
        Said::Head(RtpFault::Padding),
        "number of padding octets is missing, 0, or too large (RFC 3550, 5.1)",
    ),
    (Said::Full, "packets do not fit in the buffer"),
];

/// What the errors say.
#[test]
fn messages(rt: HostRuntime) -> Result<(), Fail> {
    for (said, message) in &MESSAGES {
        let text = match *said {
            Said::Packet(reason) => WireFault { reason, place: 8 }.to_string(rt.alloc())?,
            Said::Reason(reason) => reason.to_string(rt.alloc())?,
            Said::Head(fault) => fault.to_string(rt.alloc())?,
            Said::Full => Full.to_string(rt.alloc())?,
        };
        assert_eq!(rt; text.as_str(), *message);
    }
    Ok(())
}
