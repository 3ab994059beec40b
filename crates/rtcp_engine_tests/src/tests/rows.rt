//! Worked sessions, over any table.

use super::session::Call::*;
use super::session::Seen::*;
use super::*;

/// The named compound of source 3.
const REPORT_OF_3: &[u8] = &[
    0x80, 0xc9, 0x00, 0x01, 0x00, 0x00, 0x00, 0x03, 0x81, 0xca, 0x00, 0x02, 0x00, 0x00, 0x00, 0x03,
    0x01, 0x01, 0x61, 0x00,
];

/// The report of the participant with SSRC 000000ab.
const REPORT_OF_AB: &[u8] = &[
    0x80, 0xc9, 0x00, 0x01, 0x00, 0x00, 0x00, 0xab, 0x81, 0xca, 0x00, 0x02, 0x00, 0x00, 0x00, 0xab,
    0x01, 0x01, 0x61, 0x00,
];

/// The report of one sender, source 9.
const ONE_SENDER: &[u8] = &[
    0x81, 0xc9, 0x00, 0x07, 0x00, 0x00, 0x00, 0xaa, 0x00, 0x00, 0x00, 0x09, 0x00, 0x00, 0x00, 0x00,
    0x00, 0x00, 0x00, 0x0b, 0x00, 0x00, 0x00, 0x00, 0x00, 0x00, 0x00, 0x00, 0x00, 0x00, 0x00, 0x00,
    0x81, 0xca, 0x00, 0x02, 0x00, 0x00, 0x00, 0xaa, 0x01, 0x01, 0x61, 0x00,
];

/// The participant's report as a sender, at 1,026,037.
const OWN_REPORT: &[u8] = &[
    0x80, 0xc8, 0x00, 0x06, 0x00, 0x00, 0x00, 0xaa, 0x00, 0x00, 0x00, 0x01, 0x06, 0xaa, 0x5c, 0x5f,
    0x00, 0x00, 0x23, 0xf8, 0x00, 0x00, 0x00, 0x01, 0x00, 0x00, 0x00, 0xa0, 0x81, 0xca, 0x00, 0x02,
    0x00, 0x00, 0x00, 0xaa, 0x01, 0x01, 0x61, 0x00,
];

/// The same at 10,000,000.
const LATER_OWN_REPORT: &[u8] = &[
    0x80, 0xc8, 0x00, 0x06, 0x00, 0x00, 0x00, 0xaa, 0x00, 0x00, 0x00, 0x0a, 0x00, 0x00, 0x00, 0x00,
    0x00, 0x01, 0x3c, 0x68, 0x00, 0x00, 0x00, 0x01, 0x00, 0x00, 0x00, 0xa0, 0x81, 0xca, 0x00, 0x02,
    0x00, 0x00, 0x00, 0xaa, 0x01, 0x01, 0x61, 0x00,
];

/// The report of the participant with its extra item.
const WITH_TOOL: &[u8] = &[
    0x80, 0xc9, 0x00, 0x01, 0x00, 0x00, 0x00, 0xaa, 0x81, 0xca, 0x00, 0x03, 0x00, 0x00, 0x00, 0xaa,
    0x01, 0x01, 0x61, 0x06, 0x01, 0x74, 0x00, 0x00,
];

/// Source 1 leaves.
const GOODBYE: &[u8] = &[0x80, 0xc9, 0, 1, 0, 0, 0, 1, 0x81, 0xcb, 0, 1, 0, 0, 0, 1];

/// A packet of source 9 with the CSRCs aa and 5.
const MIXED: &[u8] = &[
    0x82, 0, 0, 10, 0, 0, 0, 0, 0, 0, 0, 9, 0, 0, 0, 0xaa, 0, 0, 0, 5,
];

/// The next one.
const NEXT_MIXED: &[u8] = &[
    0x82, 0, 0, 11, 0, 0, 0, 0, 0, 0, 0, 9, 0, 0, 0, 0xaa, 0, 0, 0, 5,
];

/// An empty datagram's fault.
const SHORT: WireFault = WireFault {
    reason: FaultReason::Short,
    place: 0,
};

/// Reports, members, senders and refusals, while the participant is present.
pub(crate) static SESSIONS: [Script; 18] = [
    Script {
        name: "the first interval is drawn by the start word, the least one",
        setup: USUAL,
        rows: &[(Ask, Is(1, 0, 1_026_037))],
    },
    Script {
        name: "and the greatest one",
        setup: Setup {
            word: u32::MAX,
            ..USUAL
        },
        rows: &[(Ask, Is(1, 0, 3_078_111))],
    },
    Script {
        name: "a report goes out when its moment has come and no sooner, and once",
        setup: USUAL,
        rows: &[
            (Tick(1_026_036, 0, 0), Is(1, 0, 1_026_037)),
            (Tick(1_026_037, 0, 0), Sends(1, 0, 3_078_111, &REPORT)),
            (Tick(1_026_037, 0, 0), Is(1, 0, 3_078_111)),
        ],
    },
    Script {
        name: "the interval drawn at the tick has not passed",
        setup: USUAL,
        rows: &[(Tick(1_026_037, u32::MAX, 0), Is(1, 0, 3_078_111))],
    },
    Script {
        name: "a receiver report names no member until its source gives a CNAME",
        setup: USUAL,
        rows: &[
            (
                Rtcp(0, 1, 0, &[0x80, 0xc9, 0, 1, 0, 0, 0, 7]),
                Is(1, 0, 1_026_037),
            ),
            (Named(0, 7), Is(2, 0, 1_026_037)),
        ],
    },
    Script {
        name: "a source is a member and a sender once a packet of it is counted, and then it is reported",
        setup: USUAL,
        rows: &[
            (Packet(0, 9, 10), Is(1, 0, 1_026_037)),
            (Packet(0, 9, 11), Is(2, 1, 1_026_037)),
            (Tick(1_026_037, 0, 0), Sends(2, 1, 3_078_111, ONE_SENDER)),
        ],
    },
    Script {
        name: "the participant sends a packet, and reports as a sender; it is one for two intervals of a receiver, the \
            moment of the last packet included",
        setup: USUAL,
        rows: &[
            (Sent(0, 1_000), Counts(1, 1)),
            (Tick(1_026_037, 0, 0), Sends(1, 1, 3_078_111, OWN_REPORT)),
            (
                Tick(10_000_000, 0, 0),
                Sends(1, 1, 12_052_074, LATER_OWN_REPORT),
            ),
        ],
    },
    Script {
        name: "and then it is none",
        setup: USUAL,
        rows: &[
            (Sent(0, 1_000), Counts(1, 1)),
            (Tick(1_026_037, 0, 0), Sends(1, 1, 3_078_111, OWN_REPORT)),
            (Tick(10_000_001, 0, 0), Sends(1, 0, 12_052_075, &REPORT)),
        ],
    },
    Script {
        name: "a source is held for five intervals of a receiver after its last sighting",
        setup: USUAL,
        rows: &[
            (Named(1_000_000, 7), Is(2, 0, 1_026_037)),
            (Tick(13_500_000, 0, 0), Sends(2, 0, 15_552_074, &REPORT)),
        ],
    },
    Script {
        name: "and then it is dropped, in the tick that finds it so",
        setup: USUAL,
        rows: &[
            (Named(1_000_000, 7), Is(2, 0, 1_026_037)),
            (Tick(13_500_001, 0, 0), Sends(1, 0, 15_552_075, &REPORT)),
        ],
    },
    Script {
        name: "a full table takes nobody until one that left is no longer held",
        setup: Setup {
            capacity: 2,
            ..USUAL
        },
        rows: &[
            (Named(0, 1), Is(2, 0, 1_026_037)),
            (Named(0, 2), Is(3, 0, 1_026_037)),
            (Named(0, 3), Is(3, 0, 1_026_037)),
            (Rtcp(1_000_000, 1, 0, GOODBYE), Counts(2, 0)),
            (Rtcp(1_000_000, 1, 0, REPORT_OF_3), Counts(2, 0)),
            (
                Tick(6_000_000, 1 << 31, 1 << 31),
                Sends(2, 0, 10_104_147, &REPORT),
            ),
            (Rtcp(6_000_000, 1, 0, REPORT_OF_3), Counts(3, 0)),
        ],
    },
    Script {
        name: "the last moment that is taken, one beyond it, and one before it",
        setup: USUAL,
        rows: &[
            (
                Tick(1 << 50, 0, 0),
                Sends(1, 0, 1_125_899_908_894_698, &REPORT),
            ),
            (Tick((1 << 50) + 1, 0, 0), Refused(Refusal::TooFar)),
            (Tick(0, 0, 0), Refused(Refusal::Backwards)),
            (Tick(1 << 50, 0, 0), Is(1, 0, 1_125_899_908_894_698)),
        ],
    },
    // After what is refused at 9 the last moment is still 0, and the average that of the start.
    Script {
        name: "what is refused changes nothing",
        setup: USUAL,
        rows: &[
            (Rtcp(0, 1, 0xab, &OURS), Changes(0xab, 1, 0, 1_026_037, &[])),
            (
                Rtcp(9, 1, 0, &[0x80, 0xc9, 0, 1, 0, 0, 0, 0xab]),
                Refused(Refusal::OwnSsrc),
            ),
            (Rtcp(9, 1, 0, &[]), Refused(Refusal::Wire(SHORT))),
            (
                Rtp(9, 1, 0, &[0x80, 0x48, 0, 1, 0, 0, 0, 0, 0, 0, 0, 10]),
                Refused(Refusal::Rtp(RtpFault::PayloadType)),
            ),
            (Packet(9, 0xab, 1), Refused(Refusal::OwnSsrc)),
            (Tick(0, 0, 0), Is(1, 0, 1_026_037)),
            (Tick(1_026_037, 0, 0), Sends(1, 0, 3_078_111, REPORT_OF_AB)),
        ],
    },
    Script {
        name: "the third report carries the extra item",
        setup: Setup {
            has_tool: true,
            ..USUAL
        },
        rows: &[
            (Tick(1_026_037, 0, 0), Sends(1, 0, 3_078_111, &REPORT)),
            (Tick(3_078_111, 0, 0), Sends(1, 0, 5_130_185, &REPORT)),
            (Tick(5_130_185, 0, 0), Sends(1, 0, 7_182_259, WITH_TOOL)),
        ],
    },
    // The first packet is not counted, and so 5 is not heard. Then the table is full with 9 and 5, so that 6 is not
    // admitted and 5 is.
    Script {
        name: "contributing sources are heard where their packet is counted, and the participant is none of them",
        setup: Setup {
            capacity: 2,
            ..USUAL
        },
        rows: &[
            (Rtp(0, 1, 0, MIXED), Is(1, 0, 1_026_037)),
            (Rtp(0, 1, 0, NEXT_MIXED), Is(2, 1, 1_026_037)),
            (Named(0, 6), Is(2, 1, 1_026_037)),
            (Named(0, 5), Is(3, 1, 1_026_037)),
        ],
    },
    // The average is that of a compound of 65,532 octets for a sixteenth then, and so the report is put off.
    Script {
        name: "the largest compound, of 16,382 packets, is taken: a source that is heard, and goodbyes of nobody",
        setup: USUAL,
        rows: &[
            (Byes(0, 65_532), Is(1, 0, 1_026_037)),
            (Tick(1_026_037, 0, 0), Is(1, 0, 5_667_144)),
        ],
    },
    // After the first report the deterministic interval is 5 seconds, and its longest draw
    // 3 · 5,000,000 / (2 · 1.21828) microseconds, rounded up: 6,156,221.
    Script {
        name: "a tick so long after a report sends the next one, whatever its words are, and one a microsecond sooner \
            does not",
        setup: USUAL,
        rows: &[
            (
                Tick(1_026_037, 0, u32::MAX),
                Sends(1, 0, 7_182_258, &REPORT),
            ),
            (Tick(7_182_257, u32::MAX, 0), Is(1, 0, 7_182_258)),
            (
                Tick(7_182_258, u32::MAX, 0),
                Sends(1, 0, 9_234_332, &REPORT),
            ),
        ],
    },
    Script {
        name: "one of two members leaves between two reports, and the second comes sooner for it",
        setup: USUAL,
        rows: &[
            (Named(0, 1), Is(2, 0, 1_026_037)),
            (
                Tick(1_026_037, 0, u32::MAX),
                Sends(2, 0, 7_182_258, &REPORT),
            ),
            (Goodbye(3_026_037, 1), Is(1, 0, 5_104_147)),
            (Tick(5_104_147, u32::MAX, 0), Is(1, 0, 8_182_258)),
            (
                Tick(8_182_258, u32::MAX, 0),
                Sends(1, 0, 10_234_332, &REPORT),
            ),
        ],
    },
];
