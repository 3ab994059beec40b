//! Worked changes of identifier, over any table (RFC 3550, 8.2).

use super::leaving::{BACKS_OFF, FIFTY, REPORTED};
use super::session::Call::*;
use super::session::Seen::*;
use super::*;

/// The moment of the first report, where the start word is 0.
const FIRST: u64 = 1_026_037;

/// The moment of the second one.
const SECOND: u64 = 3_078_111;

/// A receiver report of source 000000bb, without blocks and without a name.
const HEARD_BB: &[u8] = &[0x80, 0xc9, 0, 1, 0, 0, 0, 0xbb];

/// The report of the participant as a sender, with SSRC 000000bb and no packet sent under it.
const SENDER_REPORT_OF_BB: &[u8] = &[
    0x80, 0xc8, 0x00, 0x06, 0x00, 0x00, 0x00, 0xbb, 0x00, 0x00, 0x00, 0x01, 0x06, 0xaa, 0x5c, 0x5f,
    0x00, 0x00, 0x23, 0xf8, 0x00, 0x00, 0x00, 0x00, 0x00, 0x00, 0x00, 0x00, 0x81, 0xca, 0x00, 0x02,
    0x00, 0x00, 0x00, 0xbb, 0x01, 0x01, 0x61, 0x00,
];

/// A report of the participant, and a BYE of sources 000000bb and 000000bc.
const GOODBYE_OF_TWO: &[u8] = &[
    0x80, 0xc9, 0, 1, 0, 0, 0, 0xaa, 0x82, 0xcb, 0, 2, 0, 0, 0, 0xbb, 0, 0, 0, 0xbc,
];

/// An RTP packet of source 000000bd with the CSRCs 000000c1 and 000000c2.
const MIXED: &[u8] = &[
    0x82, 0, 0, 1, 0, 0, 0, 0, 0, 0, 0, 0xbd, 0, 0, 0, 0xc1, 0, 0, 0, 0xc2,
];

/// The BYE of the participant with SSRC 52.
const BYE_OF_52: &[u8] = &[
    0x80, 0xc9, 0x00, 0x01, 0x00, 0x00, 0x00, 52, 0x81, 0xca, 0x00, 0x02, 0x00, 0x00, 0x00, 52,
    0x01, 0x01, 0x61, 0x00, 0x81, 0xcb, 0x00, 0x01, 0x00, 0x00, 0x00, 52,
];

/// Datagrams that name the participant's SSRC, while it is present and in a backoff.
pub(crate) static CHANGES: [Script; 11] = [
    Script {
        name: "a peer changes the identifier once, and one that was given up is not taken again",
        setup: USUAL,
        rows: &[
            (Rtcp(0, 7, 0xbb, &OURS), Changes(0xbb, 1, 0, FIRST, &[])),
            (Rtcp(0, 7, 0xbb, &OURS), Is(1, 0, FIRST)),
            (Rtcp(0, 7, 0xcc, HEARD_BB), Refused(Refusal::OwnSsrc)),
            (Rtcp(0, 8, 0xaa, HEARD_BB), Changes(0xab, 1, 0, FIRST, &[])),
        ],
    },
    // It is another source from then on, and the next report is sent when it would have been.
    Script {
        name: "the participant's own report comes back: the BYE of its old identifier goes out",
        setup: USUAL,
        rows: &[
            REPORTED,
            (
                Rtcp(FIRST, 7, 0xbb, &REPORT),
                Changes(0xbb, 2, 0, SECOND, &BYE),
            ),
            (Tick(SECOND, 0, 0), Sends(2, 0, 5_130_185, &REPORT_OF_BB)),
        ],
    },
    Script {
        name: "a leave after a change, with nothing said since, is silent",
        setup: USUAL,
        rows: &[
            REPORTED,
            (
                Rtcp(FIRST, 7, 0xbb, &REPORT),
                Changes(0xbb, 2, 0, SECOND, &BYE),
            ),
            (Leave(FIRST, 0), LeavesSilently),
        ],
    },
    // But its stream goes on: the NTP timestamp is that of 1.026037 seconds, and the RTP timestamp 1000 + 8,208.296,
    // rounded down.
    Script {
        name: "what was sent under the old identifier is not counted in a sender report of the new one",
        setup: USUAL,
        rows: &[
            (Sent(0, 1_000), Taken),
            (Rtcp(0, 7, 0xbb, &OURS), Changes(0xbb, 1, 1, FIRST, &BYE)),
            (Tick(FIRST, 0, 0), Sends(1, 1, SECOND, SENDER_REPORT_OF_BB)),
        ],
    },
    Script {
        name: "eight peers change the identifier, and a ninth does not",
        setup: USUAL,
        rows: &[
            (
                Rtcp(0, 1, 0xaa, &[0x80, 0xc9, 0, 1, 0, 0, 0, 0xaa]),
                Changes(0xab, 1, 0, FIRST, &[]),
            ),
            (
                Rtcp(0, 2, 0xaa, &[0x80, 0xc9, 0, 1, 0, 0, 0, 0xab]),
                Changes(0xac, 1, 0, FIRST, &[]),
            ),
            (
                Rtcp(0, 3, 0xaa, &[0x80, 0xc9, 0, 1, 0, 0, 0, 0xac]),
                Changes(0xad, 1, 0, FIRST, &[]),
            ),
            (
                Rtcp(0, 4, 0xaa, &[0x80, 0xc9, 0, 1, 0, 0, 0, 0xad]),
                Changes(0xae, 1, 0, FIRST, &[]),
            ),
            (
                Rtcp(0, 5, 0xaa, &[0x80, 0xc9, 0, 1, 0, 0, 0, 0xae]),
                Changes(0xaf, 1, 0, FIRST, &[]),
            ),
            (
                Rtcp(0, 6, 0xaa, &[0x80, 0xc9, 0, 1, 0, 0, 0, 0xaf]),
                Changes(0xb0, 1, 0, FIRST, &[]),
            ),
            (
                Rtcp(0, 7, 0xaa, &[0x80, 0xc9, 0, 1, 0, 0, 0, 0xb0]),
                Changes(0xb1, 1, 0, FIRST, &[]),
            ),
            (
                Rtcp(0, 8, 0xaa, &[0x80, 0xc9, 0, 1, 0, 0, 0, 0xb1]),
                Changes(0xb2, 1, 0, FIRST, &[]),
            ),
            (
                Rtcp(0, 9, 0, &[0x80, 0xc9, 0, 1, 0, 0, 0, 0xb2]),
                Refused(Refusal::OwnSsrc),
            ),
            (
                Rtp(0, 9, 0, &[0x80, 0, 0, 1, 0, 0, 0, 0, 0, 0, 0, 0xb2]),
                Refused(Refusal::OwnSsrc),
            ),
        ],
    },
    Script {
        name: "an identifier is not taken that a source of the table has, whether it is a member or only heard",
        setup: USUAL,
        rows: &[
            (Named(0, 0xbb), Is(2, 0, FIRST)),
            (
                Rtcp(0, 1, 0, &[0x80, 0xc9, 0, 1, 0, 0, 0, 0xbc]),
                Is(2, 0, FIRST),
            ),
            (Goodbye(0, 0xbb), Is(1, 0, FIRST)),
            (Rtcp(0, 7, 0xbb, &OURS), Changes(0xbd, 1, 0, FIRST, &[])),
        ],
    },
    // By a BYE, which tells the table nothing, or as a contributing source, of a packet that is not counted.
    Script {
        name: "nor one that the datagram names",
        setup: USUAL,
        rows: &[
            (
                Rtcp(0, 7, 0xbb, GOODBYE_OF_TWO),
                Changes(0xbd, 1, 0, FIRST, &[]),
            ),
            (Rtp(0, 8, 0xc1, MIXED), Changes(0xc3, 1, 0, FIRST, &[])),
        ],
    },
    Script {
        name: "after the greatest number comes 0",
        setup: USUAL,
        rows: &[
            (
                Rtcp(0, 1, 0, &[0x80, 0xc9, 0, 1, 0xff, 0xff, 0xff, 0xff]),
                Is(1, 0, FIRST),
            ),
            (Rtcp(0, 7, u32::MAX, &OURS), Changes(0, 1, 0, FIRST, &[])),
        ],
    },
    // With 16 octets a second the draw at the second report is made from 2 members and an average of 12,408, which is
    // 6,058,594 microseconds, so that the next moment is 1,231,245 + 2,486,536. Without that BYE the average would be
    // 12,288, and the moment 3,693,734.
    Script {
        name: "the BYE of the old identifier moves the average",
        setup: Setup {
            bandwidths: (16, 16),
            ..USUAL
        },
        rows: &[
            (Tick(1_231_245, 0, 0), Sends(1, 0, 3_283_319, &REPORT)),
            (
                Rtcp(1_231_245, 7, 0xbb, &REPORT),
                Changes(0xbb, 2, 0, 3_283_319, &BYE),
            ),
            (Tick(3_283_319, 0, 0), Is(2, 0, 3_717_781)),
        ],
    },
    // It counts for nothing else. The table stands as it stood at the leave: sources 1 to 50 are in it. A packet that
    // the host sends then is not sent under the identifier, so that the next change is silent, and the BYE at the end
    // is of the last one.
    Script {
        name: "in a backoff an RTP datagram changes the identifier too",
        setup: USUAL,
        rows: &[
            REPORTED,
            FIFTY,
            BACKS_OFF,
            (
                Rtp(
                    10_000_000,
                    7,
                    1,
                    &[0x80, 0, 0, 1, 0, 0, 0, 0, 0, 0, 0, 0xaa],
                ),
                Changes(51, 1, 0, 11_026_037, &BYE),
            ),
            (Sent(10_000_000, 0), Is(1, 0, 11_026_037)),
            (
                Rtcp(10_000_000, 8, 1, &[0x80, 0xc9, 0, 1, 0, 0, 0, 51]),
                Changes(52, 1, 0, 11_026_037, &[]),
            ),
            (
                Rtp(10_000_000, 7, 1, &[0x80, 0, 0, 1, 0, 0, 0, 0, 0, 0, 0, 52]),
                Refused(Refusal::OwnSsrc),
            ),
            (Tick(11_026_037, 0, 0), SaysBye(BYE_OF_52)),
        ],
    },
    Script {
        name: "in a backoff the BYE packets of the datagram that brings a change count, and the participant's does not",
        setup: USUAL,
        rows: &[
            REPORTED,
            FIFTY,
            BACKS_OFF,
            (
                Rtcp(10_000_000, 7, 0xbb, &BYE),
                Changes(0xbb, 2, 0, 11_026_037, &BYE),
            ),
        ],
    },
];
