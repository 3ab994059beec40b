//! Texts of packets, faults and answers.

use super::same;
use rtcp_engine::{ConfigError, Event, OutKind, Refusal, Standing, Written, WrittenStep};
use rtcp_text::text::digits::{push_decimal, push_octets, push_signed};
use rtcp_text::text::{
    push_accepted, push_event, push_fault, push_packet, push_refusal, push_reply, push_start,
};
use rtcp_wire::{Compound, FaultReason, MAX_COMPOUND, RtpFault, WireFault};
use std::alloc::{AllocError, Global};
use std::test::Fail;

/// A report by a receiver that hears no source, which may begin a datagram.
const EMPTY_REPORT: [u8; 8] = [0x80, 201, 0, 1, 0x01, 0x23, 0x45, 0x67];

/// A report on a source of which one packet too many came.
const REPEATED: [u8; 24] = [
    0, 0, 0, 10, 25, 0xff, 0xff, 0xff, 0, 0, 0, 11, 0, 0, 0, 0, 0xb7, 0x05, 0x20, 0x00, 0x00, 0x05,
    0x40, 0x00,
];

/// A report with the most of each number, or nearly.
const GREATEST: [u8; 24] = [
    0xde, 0xad, 0xbe, 0xef, 255, 0x7f, 0xff, 0xff, 0xff, 0xff, 0xff, 0xff, 0, 0, 0, 100, 0, 0, 0,
    0, 0, 0, 0, 1,
];

/// A source description of two chunks, the second without items.
const DESCRIPTION: [u8; 24] = [
    0x82, 202, 0, 5, 0, 0, 0, 7, 1, 1, b'a', 2, 0, 0, 0, 0, 0, 0, 0, 8, 0, 0, 0, 0,
];

/// A packet of a type that is not looked into, with a body of twelve octets.
const OTHER: [u8; 16] = [0x9f, 205, 0, 3, 0, 0, 0, 0, 0, 0, 0, 0, 0, 0, 0, 0];

/// A report by a sender that hears none.
const HEARS_NONE: [u8; 28] = [
    0x80, 200, 0, 6, 0, 0, 0, 9, 0x00, 0x00, 0xb7, 0x05, 0x20, 0x00, 0x00, 0x00, 0, 0, 0, 10, 0, 0,
    0, 3, 0, 0, 0x01, 0xe0,
];

/// The beginning of a report by one that hears one source, with the most of some numbers.
const HEARS_ONE: [u8; 28] = [
    0x81, 200, 0, 13, 0xde, 0xad, 0xbe, 0xef, 0xff, 0xff, 0xff, 0xff, 0xff, 0xff, 0xff, 0xff, 0, 0,
    0, 0, 0xff, 0xff, 0xff, 0xff, 0, 0, 0, 0,
];

/// A packet of an application.
const APPLICATION: [u8; 16] = [
    0x85, 204, 0, 3, 0, 0, 0, 7, b'A', b'B', b'C', b'D', 1, 1, 1, 1,
];

/// What has a text.
enum Said {
    /// A number in decimal.
    Number(u64),
    /// A number that may have a sign.
    Signed(i32),
    Octets(&'static [u8]),
    /// The last packet of the datagram that these parts make.
    Packet(&'static [&'static [u8]]),
    /// The line of that datagram.
    Accepted(&'static [&'static [u8]]),
    Fault(FaultReason, usize),
    /// The line of a start, with the next moment.
    Start(u64),
    /// The line of a call that was taken, by its members, its senders, the next moment, the new SSRC and the octets of
    /// the report to be sent, if there are these.
    Step(u32, u32, Option<u64>, Option<u32>, Option<&'static [u8; 8]>),
    /// The line of one that was refused.
    Refused(Refusal),
}

/// A fault of an item in the packet at octet 8.
const ITEM: WireFault = WireFault {
    reason: FaultReason::Item,
    place: 8,
};

/// Each kind of text, as docs/FORMATS.md describes them.
static TEXTS: [(Said, &str); 50] = [
    // numbers
    (Said::Number(0), "0"),
    (Said::Number(9), "9"),
    (Said::Number(10), "10"),
    (Said::Number(99), "99"),
    (Said::Number(100), "100"),
    (Said::Number(4_294_967_295), "4294967295"),
    (Said::Number(u64::MAX), "18446744073709551615"),
    (Said::Signed(0), "0"),
    (Said::Signed(-1), "-1"),
    (Said::Signed(8_388_607), "8388607"),
    (Said::Signed(-8_388_608), "-8388608"),
    (Said::Signed(i32::MIN), "-2147483648"),
    (Said::Octets(&[0x00, 0x0f, 0xa5, 0xff]), "000fa5ff"),
    // a report with an extension
    (
        Said::Packet(&[
            &[0x82, 201, 0, 15, 0, 0, 0, 1],
            &REPEATED,
            &GREATEST,
            &[0; 8],
        ]),
        "RR(00000001,[0000000a/25/-1/11/0/b7052000/00054000;deadbeef/255/8388607/4294967295/100/00000000/00000001],8)",
    ),
    // a sender that hears none, and one that hears one source
    (
        Said::Packet(&[&HEARS_NONE]),
        "SR(00000009,0000b70520000000,0000000a,3,480,[],0)",
    ),
    (
        Said::Packet(&[&HEARS_ONE, &REPEATED, &[0; 4]]),
        "SR(deadbeef,ffffffffffffffff,00000000,4294967295,0,[0000000a/25/-1/11/0/b7052000/00054000],4)",
    ),
    // a BYE with a reason, with an empty one, and with none
    (
        Said::Packet(&[
            &EMPTY_REPORT,
            &[0x81, 203, 0, 2, 0, 0, 0, 7, 2, b'a', b'b', 0],
        ]),
        "BYE([00000007],=6162)",
    ),
    (
        Said::Packet(&[
            &EMPTY_REPORT,
            &[0x82, 203, 0, 3, 0, 0, 0, 7, 0, 0, 0, 8, 0, 0, 0, 0],
        ]),
        "BYE([00000007;00000008],=)",
    ),
    (
        Said::Packet(&[&EMPTY_REPORT, &[0x80, 203, 0, 0]]),
        "BYE([],-)",
    ),
    // a packet of an application, a description with an empty chunk, and another type
    (
        Said::Packet(&[&EMPTY_REPORT, &APPLICATION]),
        "APP(5,00000007,41424344,4)",
    ),
    (
        Said::Packet(&[&EMPTY_REPORT, &DESCRIPTION]),
        "SDES([00000007{1=61,2=};00000008{}])",
    ),
    (Said::Packet(&[&EMPTY_REPORT, &OTHER]), "OTHER(205,31,12)"),
    (
        Said::Accepted(&[&EMPTY_REPORT, &DESCRIPTION, &OTHER]),
        "ok RR(01234567,[],0) SDES([00000007{1=61,2=};00000008{}]) OTHER(205,31,12)\n",
    ),
    // faults
    (Said::Fault(FaultReason::Short, 0), "F1 Short at 0\n"),
    (Said::Fault(FaultReason::Version, 4), "F2 Version at 4\n"),
    (
        Said::Fault(FaultReason::FirstType, 0),
        "F3 FirstType at 0\n",
    ),
    (
        Said::Fault(FaultReason::FirstPadding, 0),
        "F4 FirstPadding at 0\n",
    ),
    (
        Said::Fault(FaultReason::Length, 65_532),
        "F5 Length at 65532\n",
    ),
    (Said::Fault(FaultReason::Padding, 8), "F6 Padding at 8\n"),
    (Said::Fault(FaultReason::Body, 12), "F7 Body at 12\n"),
    (Said::Fault(FaultReason::Item, 100), "F8 Item at 100\n"),
    (Said::Fault(FaultReason::Reason, 20), "F9 Reason at 20\n"),
    (Said::Fault(FaultReason::TooLong, 0), "F10 TooLong at 0\n"),
    // answers
    (
        Said::Start(1_026_037),
        "start members=1 senders=0 next=1026037\n",
    ),
    (
        Said::Step(2, 1, Some(1_125_899_908_894_698), None, None),
        "ok members=2 senders=1 next=1125899908894698 out=-\n",
    ),
    (
        Said::Step(1, 0, None, Some(0x89ab_cdef), Some(&EMPTY_REPORT)),
        "ok members=1 senders=0 next=- out=report:80c9000101234567 ssrc=89abcdef\n",
    ),
    (Said::Refused(Refusal::Left), "refused E1 Left\n"),
    (Said::Refused(Refusal::Backwards), "refused E2 Backwards\n"),
    (Said::Refused(Refusal::TooFar), "refused E3 TooFar\n"),
    (Said::Refused(Refusal::TooMany), "refused E4 TooMany\n"),
    (
        Said::Refused(Refusal::Wire(ITEM)),
        "refused E5 Wire: F8 Item at 8\n",
    ),
    (
        Said::Refused(Refusal::Rtp(RtpFault::Short)),
        "refused E6 Rtp: G1 Short\n",
    ),
    (
        Said::Refused(Refusal::Rtp(RtpFault::Version)),
        "refused E6 Rtp: G2 Version\n",
    ),
    (
        Said::Refused(Refusal::Rtp(RtpFault::PayloadType)),
        "refused E6 Rtp: G3 PayloadType\n",
    ),
    (
        Said::Refused(Refusal::Rtp(RtpFault::Extension)),
        "refused E6 Rtp: G4 Extension\n",
    ),
    (
        Said::Refused(Refusal::Rtp(RtpFault::Padding)),
        "refused E6 Rtp: G5 Padding\n",
    ),
    (Said::Refused(Refusal::OwnSsrc), "refused E7 OwnSsrc\n"),
    (
        Said::Refused(Refusal::Settings(ConfigError::Bandwidth)),
        "refused E8 Settings: C4 Bandwidth\n",
    ),
    (
        Said::Refused(Refusal::Settings(ConfigError::Rate)),
        "refused E8 Settings: C5 Rate\n",
    ),
    (
        Said::Refused(Refusal::Settings(ConfigError::Item)),
        "refused E8 Settings: C6 Item\n",
    ),
];

/// The octets of these parts, one after the other.
fn datagram(alloc: Global, parts: &[&[u8]]) -> Result<Vec<u8>, AllocError> {
    let mut octets = Vec::new(alloc);
    for part in parts {
        octets.extend_from_slice(part)?;
    }
    Ok(octets)
}

/// Writes the last packet of the datagram that these parts make.
fn push_last(alloc: Global, out: &mut Vec<u8>, parts: &[&[u8]]) -> Result<(), Fail> {
    let octets = datagram(alloc, parts)?;
    for packet in Compound::read(&octets)?.packets() {
        out.clear();
        push_packet(out, &packet)?;
    }
    Ok(())
}

/// Writes the answer to a call that was taken.
fn push_taken(
    out: &mut Vec<u8>,
    (members, senders): (u32, u32),
    next: Option<u64>,
    changed: Option<u32>,
    report: Option<&[u8; 8]>,
) -> Result<(), Fail> {
    let mut octets = [0; MAX_COMPOUND];
    octets[..8].copy_from_slice(report.unwrap_or(&[0; 8]));
    let told = WrittenStep {
        others_changed: changed.is_none(),
        changed,
        out: report.is_some().then_some(Written {
            kind: OutKind::Report,
            size: 8,
        }),
        standing: Standing {
            members,
            senders,
            entries: members.saturating_sub(1),
            ssrc: 0,
            next,
        },
    };
    push_reply(out, &Ok(told), &octets)?;
    Ok(())
}

/// The text of this.
fn text_of(alloc: Global, said: &Said) -> Result<Vec<u8>, Fail> {
    let mut out = Vec::new(alloc);
    match *said {
        Said::Number(number) => push_decimal(&mut out, number)?,
        Said::Signed(number) => push_signed(&mut out, number)?,
        Said::Octets(octets) => push_octets(&mut out, octets)?,
        Said::Packet(parts) => push_last(alloc, &mut out, parts)?,
        Said::Accepted(parts) => {
            push_accepted(&mut out, &Compound::read(&datagram(alloc, parts)?)?)?
        }
        Said::Fault(reason, place) => push_fault(&mut out, &WireFault { reason, place })?,
        Said::Start(next) => push_start(&mut out, Some(next))?,
        Said::Step(members, senders, next, changed, report) => {
            push_taken(&mut out, (members, senders), next, changed, report)?
        }
        Said::Refused(refusal) => push_refusal(&mut out, &refusal)?,
    }
    Ok(out)
}

/// Numbers, packets, faults, events and answers.
#[test]
fn texts(rt: HostRuntime) -> Result<(), Fail> {
    for (said, want) in &TEXTS {
        let out = text_of(rt.alloc(), said)?;
        same(&rt, out.as_slice(), want.as_bytes(), want);
    }
    Ok(())
}

/// Datagrams that came, each with its line.
fn arrivals() -> [(Event<'static>, &'static str); 2] {
    [
        (
            Event::ArriveRtcp {
                now: 0,
                peer: 139_637_976_798_093,
                w: 0xbb,
                bytes: &EMPTY_REPORT,
            },
            "rtcp 0 139637976798093 000000bb 80c9000101234567\n",
        ),
        (
            Event::ArriveRtp {
                now: 1_125_899_906_842_624,
                peer: u64::MAX,
                w: u32::MAX,
                bytes: &[],
            },
            "rtp 1125899906842624 18446744073709551615 ffffffff -\n",
        ),
    ]
}

/// What else a participant is told, each with its line.
fn calls() -> [(Event<'static>, &'static str); 4] {
    let sent = Event::SentRtp {
        now: 20_000,
        rtp_ts: u32::MAX,
        octets: 160,
    };
    let tick = Event::Tick {
        now: 1_026_037,
        w1: 0,
        w2: 0x89ab_cdef,
    };
    let leave = Event::Leave {
        now: 2_000_000,
        w: 1,
    };
    let forget = Event::Forget {
        now: 3_000_000,
        ssrc: 0x89ab_cdef,
    };
    [
        (sent, "sent 20000 4294967295 160\n"),
        (tick, "tick 1026037 00000000 89abcdef\n"),
        (leave, "leave 2000000 00000001\n"),
        (forget, "forget 3000000 89abcdef\n"),
    ]
}

/// The line of each kind of event, alone and after others. Settings are in `records`.
#[test]
fn events(rt: HostRuntime) -> Result<(), Fail> {
    let (mut all, mut want_all) = (Vec::new(rt.alloc()), Vec::new(rt.alloc()));
    for (event, want) in arrivals().iter().chain(&calls()) {
        let mut out = Vec::new(rt.alloc());
        push_event(&mut out, event)?;
        same(&rt, &out, want.as_bytes(), want);
        push_event(&mut all, event)?;
        want_all.extend_from_slice(want.as_bytes())?;
        same(&rt, &all, &want_all, want);
    }
    Ok(())
}
