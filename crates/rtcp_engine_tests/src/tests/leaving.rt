//! Worked leaves, over any table (RFC 3550, 6.3.7).

use super::session::Call::*;
use super::session::Seen::*;
use super::*;

/// Source 1 says that the participant leaves: an empty report of it, and a BYE packet with SSRC 000000aa.
const GOODBYE_OF_OURS: &[u8] = &[
    0x80, 0xc9, 0x00, 0x01, 0x00, 0x00, 0x00, 0x01, 0x81, 0xcb, 0x00, 0x01, 0x00, 0x00, 0x00, 0xaa,
];

/// The same with SSRC 000000ab.
const GOODBYE_OF_AB: &[u8] = &[
    0x80, 0xc9, 0x00, 0x01, 0x00, 0x00, 0x00, 0x01, 0x81, 0xcb, 0x00, 0x01, 0x00, 0x00, 0x00, 0xab,
];

/// The BYE of the participant with SSRC 000000ab.
const BYE_OF_AB: &[u8] = &[
    0x80, 0xc9, 0x00, 0x01, 0x00, 0x00, 0x00, 0xab, 0x81, 0xca, 0x00, 0x02, 0x00, 0x00, 0x00, 0xab,
    0x01, 0x01, 0x61, 0x00, 0x81, 0xcb, 0x00, 0x01, 0x00, 0x00, 0x00, 0xab,
];

/// An RTP packet of the participant.
const OUR_PACKET: &[u8] = &[0x80, 0, 0, 1, 0, 0, 0, 0, 0, 0, 0, 0xaa];

/// The participant sends a report.
pub(super) const REPORTED: Row = (Tick(1_026_037, 0, 0), Sends(1, 0, 3_078_111, &REPORT));

/// Then sources 1 to 50 give their names.
pub(super) const FIFTY: Row = (Join(10_000_000, 1, 50), Counts(51, 0));

/// And then, as one of 51 members, it leaves with the word 0. The compound with its BYE packet has 28 octets, so that
/// the average begins with 256 · (28 + 28) = 14,336. One member that leaves needs 4,000,000 · 14,336 / (3 · 256 · 400)
/// microseconds, less than 0.2 seconds, so that the interval is the initial minimum of 2,500,000, and the draw by the
/// word 0 is 2,500,000 / (2 · 1.21828), rounded up, 1,026,037.
pub(super) const BACKS_OFF: Row = (Leave(10_000_000, 0), Is(1, 0, 11_026_037));

/// A session in which the participant backs off.
pub(super) fn backing_off<T: InlineTable + Drop>(rt: &impl Abort) -> Session<T> {
    let mut session = Session::<T>::usual(rt);
    session.plays(rt, "backs off", &[REPORTED, FIFTY, BACKS_OFF]);
    session
}

/// Leaves, and backoffs before them.
pub(crate) static LEAVES: [Script; 14] = [
    Script {
        name: "with 50 members the BYE goes out at once",
        setup: USUAL,
        rows: &[
            REPORTED,
            (Join(10_000_000, 1, 49), Counts(50, 0)),
            (Leave(10_000_000, 0), SaysBye(&BYE)),
        ],
    },
    Script {
        name: "with 51 it goes out once its moment has come",
        setup: USUAL,
        rows: &[
            REPORTED,
            FIFTY,
            BACKS_OFF,
            (Tick(11_026_036, 0, 0), Is(1, 0, 11_026_037)),
            (Tick(11_026_037, 0, 0), SaysBye(&BYE)),
        ],
    },
    // 3/2 of 2,500,000 over 1.21828, rounded up
    Script {
        name: "the word of a leave draws the first interval: the greatest one",
        setup: USUAL,
        rows: &[
            REPORTED,
            FIFTY,
            (Leave(10_000_000, u32::MAX), Is(1, 0, 13_078_111)),
        ],
    },
    Script {
        name: "BYE packets of others are counted, and a second leave changes nothing",
        setup: USUAL,
        rows: &[
            REPORTED,
            FIFTY,
            BACKS_OFF,
            (Goodbye(10_000_000, 1), Is(2, 0, 11_026_037)),
            (Leave(10_000_000, u32::MAX), Is(2, 0, 11_026_037)),
            (Tick(11_026_037, 0, 0), SaysBye(&BYE)),
            (Tick(11_026_037, 0, 0), Refused(Refusal::Left)),
        ],
    },
    Script {
        name: "one that sent nothing leaves silently, and then takes nothing more, whatever else is wrong with it",
        setup: USUAL,
        rows: &[
            (Leave(0, 0), LeavesSilently),
            (Named(0, 7), Refused(Refusal::Left)),
            (Rtcp(0, 1, 0, &[]), Refused(Refusal::Left)),
            (Rtcp(0, 1, 0, GOODBYE_OF_OURS), Refused(Refusal::Left)),
            (Packet(0, 9, 1), Refused(Refusal::Left)),
            (Packet(0, 0xaa, 1), Refused(Refusal::Left)),
            (Rtp(0, 1, 0, &[]), Refused(Refusal::Left)),
            (Sent(0, 0), Refused(Refusal::Left)),
            (Tick(0, 0, 0), Refused(Refusal::Left)),
            (Leave(0, 0), Refused(Refusal::Left)),
            (Named((1 << 50) + 1, 7), Refused(Refusal::Left)),
            (Rtcp((1 << 50) + 1, 1, 0, &[]), Refused(Refusal::Left)),
            (
                Rtcp((1 << 50) + 1, 1, 0, GOODBYE_OF_OURS),
                Refused(Refusal::Left),
            ),
            (Packet((1 << 50) + 1, 9, 1), Refused(Refusal::Left)),
            (Packet((1 << 50) + 1, 0xaa, 1), Refused(Refusal::Left)),
            (Rtp((1 << 50) + 1, 1, 0, &[]), Refused(Refusal::Left)),
            (Sent((1 << 50) + 1, 0), Refused(Refusal::Left)),
            (Tick((1 << 50) + 1, 0, 0), Refused(Refusal::Left)),
            (Leave((1 << 50) + 1, 0), Refused(Refusal::Left)),
        ],
    },
    Script {
        name: "having left is the reason given for a moment that goes back, too",
        setup: USUAL,
        rows: &[
            (Named(0, 7), Is(2, 0, 1_026_037)),
            (Leave(9, 0), LeavesSilently),
            (Named(8, 7), Refused(Refusal::Left)),
            (Rtcp(8, 1, 0, &[]), Refused(Refusal::Left)),
            (Rtcp(8, 1, 0, GOODBYE_OF_OURS), Refused(Refusal::Left)),
            (Packet(8, 9, 1), Refused(Refusal::Left)),
            (Packet(8, 0xaa, 1), Refused(Refusal::Left)),
            (Rtp(8, 1, 0, &[]), Refused(Refusal::Left)),
            (Sent(8, 0), Refused(Refusal::Left)),
            (Tick(8, 0, 0), Refused(Refusal::Left)),
            (Leave(8, 0), Refused(Refusal::Left)),
        ],
    },
    Script {
        name: "a tick that sends no report is heard by nobody: the participant still leaves silently",
        setup: USUAL,
        rows: &[
            (Tick(1_026_037, u32::MAX, 0), Is(1, 0, 3_078_111)),
            (Leave(1_026_037, 0), LeavesSilently),
        ],
    },
    Script {
        name: "one that sent an RTP packet, and no report, says that it leaves",
        setup: USUAL,
        rows: &[
            (Sent(0, 0), Is(1, 1, 1_026_037)),
            (Leave(0, 0), SaysBye(&BYE)),
        ],
    },
    // The tick at 10,000,000 finds that it is none: its packet was sent more than two intervals of 2,500,000 before.
    // That tick sends no report. Nine of ten members have departed, which moves the last transmission from 0 to
    // 10,000,000 less a tenth, 9,000,000, and the interval by the word 0 lasts 1,026,037 from there.
    Script {
        name: "so does one that is no sender any more",
        setup: USUAL,
        rows: &[
            (Sent(0, 0), Is(1, 1, 1_026_037)),
            (Join(0, 1, 9), Taken),
            (Tick(1_026_037, u32::MAX, 0), Is(10, 1, 3_078_111)),
            (Part(10_000_000, 1, 9), Taken),
            (Tick(10_000_000, 0, 0), Is(1, 0, 10_026_037)),
            (Leave(10_000_000, 0), SaysBye(&BYE)),
        ],
    },
    // A check at the leave would drop the one of these 51 that gave its name at 1,100,000. The average is that of
    // compounds of 20 octets, 256 · (20 + 28) = 12,288, so that the interval is
    // 4,000,000 · 51 · 12,288 / (3 · 256 · 400) = 8,160,000, and 5 of them are less than 41 seconds.
    Script {
        name: "sources that are silent for too long are members until a tick finds them so",
        setup: USUAL,
        rows: &[
            REPORTED,
            (Named(1_100_000, 1), Taken),
            (Join(100_000_000, 2, 50), Counts(51, 0)),
            (Leave(100_000_000, 0), Is(1, 0, 101_026_037)),
        ],
    },
    Script {
        name: "the members that leave are counted with 16 bits",
        setup: USUAL,
        rows: &[
            REPORTED,
            FIFTY,
            BACKS_OFF,
            (Byes(10_000_000, 65_532), Is(16_382, 0, 11_026_037)),
            (Byes(10_000_000, 65_532), Is(32_763, 0, 11_026_037)),
            (Byes(10_000_000, 65_532), Is(49_144, 0, 11_026_037)),
            (Byes(10_000_000, 65_532), Is(65_525, 0, 11_026_037)),
            (Byes(10_000_000, 65_532), Is(65_535, 0, 11_026_037)),
        ],
    },
    Script {
        name: "nothing else counts in a backoff",
        setup: USUAL,
        rows: &[
            REPORTED,
            FIFTY,
            BACKS_OFF,
            (Sent(10_000_000, 0), Is(1, 0, 11_026_037)),
            (Named(10_000_000, 7), Is(1, 0, 11_026_037)),
            (Packet(10_000_000, 9, 10), Is(1, 0, 11_026_037)),
            (Packet(10_000_000, 9, 11), Is(1, 0, 11_026_037)),
        ],
    },
    Script {
        name: "what is refused in a backoff changes nothing of it",
        setup: USUAL,
        rows: &[
            REPORTED,
            FIFTY,
            BACKS_OFF,
            (
                Rtp(10_000_000, 1, 0xab, OUR_PACKET),
                Changes(0xab, 1, 0, 11_026_037, &BYE),
            ),
            (
                Rtcp(10_000_000, 1, 0, GOODBYE_OF_AB),
                Refused(Refusal::OwnSsrc),
            ),
            (Packet(10_000_000, 0xab, 1), Refused(Refusal::OwnSsrc)),
            (Goodbye(9_999_999, 1), Refused(Refusal::Backwards)),
            (Sent(9_999_999, 0), Refused(Refusal::Backwards)),
            (Tick((1 << 50) + 1, 0, 0), Refused(Refusal::TooFar)),
            (Leave(9_999_999, 0), Refused(Refusal::Backwards)),
            (Tick(11_026_037, 0, 0), SaysBye(BYE_OF_AB)),
        ],
    },
    // A compound of 404 octets with 99 BYE packets moves the average from 14,336 to
    // (256 · (404 + 28) + 15 · 14,336) / 16 = 20,352, and then a named compound leaves it there. With 100 members that
    // leave the interval is 4,000,000 · 100 · 20,352 / (3 · 256 · 400) = 26,500,000, and the draw by the word 0 is
    // 26,500,000 / (2 · 1.21828), rounded up, 10,875,990. If the named compound, of 20 octets, counted too, the average
    // would be 19,848, and the draw 10,606,655.
    Script {
        name: "the average of a backoff is that of compounds with BYE packets",
        setup: USUAL,
        rows: &[
            REPORTED,
            FIFTY,
            BACKS_OFF,
            (Byes(10_000_000, 404), Is(100, 0, 11_026_037)),
            (Named(10_000_000, 7), Is(100, 0, 11_026_037)),
            (Tick(11_026_037, 0, 0), Is(100, 0, 20_875_990)),
            (Tick(20_875_989, 0, 0), Is(100, 0, 20_875_990)),
            (Tick(20_875_990, 0, 0), SaysBye(&BYE)),
        ],
    },
];
