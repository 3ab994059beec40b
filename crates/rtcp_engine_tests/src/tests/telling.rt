//! Sessions whose host changes the settings, or says that a source is gone, over any table.

use super::session::Call::*;
use super::session::Seen::*;
use super::*;

/// 16 octets a second of RTCP for senders and for others: the interval of two members is 6 seconds, and that of one is
/// 3.
const SLOW: Setup = Setup {
    bandwidths: (16, 16),
    ..USUAL
};

/// The report of the participant with its extra item.
const WITH_TOOL: &[u8] = &[
    0x80, 0xc9, 0x00, 0x01, 0x00, 0x00, 0x00, 0xaa, 0x81, 0xca, 0x00, 0x03, 0x00, 0x00, 0x00, 0xaa,
    0x01, 0x01, 0x61, 0x06, 0x01, 0x74, 0x00, 0x00,
];

/// Settings that change, and sources that are gone.
pub(crate) static TELLING: [Script; 10] = [
    Script {
        name: "less bandwidth puts the report off",
        setup: USUAL,
        rows: &[
            (Configure(500_000, 16, 16, false), Is(1, 0, 1_026_037)),
            (Tick(1_026_037, 0, 0), Is(1, 0, 1_231_245)),
            (Tick(1_231_245, 0, 0), Sends(1, 0, 3_283_319, &REPORT)),
        ],
    },
    Script {
        name: "more brings it no sooner",
        setup: USUAL,
        rows: &[
            (Configure(500_000, 16, 16, false), Is(1, 0, 1_026_037)),
            (Tick(1_026_037, 4_294_967_295, 0), Is(1, 0, 3_693_733)),
            (Configure(1_026_037, 16, 300, false), Is(1, 0, 3_693_733)),
            (Tick(3_693_732, 0, 0), Is(1, 0, 3_693_733)),
            (Tick(3_693_733, 0, 0), Sends(1, 0, 5_745_807, &REPORT)),
        ],
    },
    Script {
        name: "the third report says an item that was given after the second",
        setup: USUAL,
        rows: &[
            (Tick(1_026_037, 0, 0), Sends(1, 0, 3_078_111, &REPORT)),
            (Tick(3_078_111, 0, 0), Sends(1, 0, 5_130_185, &REPORT)),
            (Configure(3_078_111, 100, 300, true), Is(1, 0, 5_130_185)),
            (Tick(5_130_185, 0, 0), Sends(1, 0, 7_182_259, WITH_TOOL)),
        ],
    },
    Script {
        name: "settings of no configuration change nothing",
        setup: USUAL,
        rows: &[
            (
                Configure(0, 16, 15, false),
                Refused(Refusal::Settings(ConfigError::Bandwidth)),
            ),
            (
                Configure(0, (1 << 30) + 1, 16, false),
                Refused(Refusal::Settings(ConfigError::Bandwidth)),
            ),
            (Tick(5, 0, 0), Taken),
            // any other call's reasons come first
            (Configure(4, 16, 15, false), Refused(Refusal::Backwards)),
            (Tick(1_026_037, 0, 0), Sends(1, 0, 3_078_111, &REPORT)),
        ],
    },
    Script {
        name: "more bandwidth drops nobody for five of the former intervals",
        setup: SLOW,
        rows: &[
            (Named(0, 9), Is(2, 0, 1_231_245)),
            (Configure(20_000_000, 160, 160, false), Is(2, 0, 1_231_245)),
            (Configure(20_000_000, 160, 160, true), OthersChanged(false)),
            (Tick(20_000_000, 0, 0), Sends(2, 0, 22_052_074, &REPORT)),
            (Named(20_000_001, 9), OthersChanged(false)),
            (Tick(49_999_999, 0, 0), Sends(2, 0, 52_052_073, &REPORT)),
            (Tick(50_000_000, 0, 0), Is(1, 0, 51_026_036)),
        ],
    },
    Script {
        name: "settings without other bandwidths do not prolong the former pace",
        setup: SLOW,
        rows: &[
            (Named(0, 9), Is(2, 0, 1_231_245)),
            (Configure(20_000_000, 160, 160, false), Is(2, 0, 1_231_245)),
            (Tick(20_000_000, 0, 0), Sends(2, 0, 22_052_074, &REPORT)),
            (Named(20_000_001, 9), OthersChanged(false)),
            (Configure(45_000_000, 160, 160, true), OthersChanged(false)),
            (Tick(49_999_999, 0, 0), Sends(2, 0, 52_052_073, &REPORT)),
            (Configure(49_999_999, 160, 160, true), OthersChanged(false)),
            (Tick(50_000_000, 0, 0), Is(1, 0, 51_026_036)),
        ],
    },
    Script {
        name: "a source that is gone is no member, and the members are counted again",
        setup: USUAL,
        rows: &[
            (Named(0, 9), Is(2, 0, 1_026_037)),
            (Tick(1_026_037, 0, 0), Sends(2, 0, 3_078_111, &REPORT)),
            (Forget(2_000_000, 9), Is(1, 0, 2_539_055)),
            (Ask, Entries(0)),
            (Forget(2_000_000, 9), OthersChanged(false)),
            (Named(2_000_000, 9), OthersChanged(true)),
        ],
    },
    Script {
        name: "nobody is gone who is not there, who said goodbye, or who is told",
        setup: USUAL,
        rows: &[
            (Named(0, 9), Is(2, 0, 1_026_037)),
            (Forget(0, 8), OthersChanged(false)),
            (Forget(0, 0xaa), OthersChanged(false)),
            (Ask, Counts(2, 0)),
            (Goodbye(0, 9), Counts(1, 0)),
            (Forget(0, 9), OthersChanged(false)),
            (Ask, Entries(1)),
            (Named(0, 9), Counts(1, 0)),
        ],
    },
    Script {
        name: "the place of a source that is gone is free",
        setup: Setup {
            capacity: 1,
            ..USUAL
        },
        rows: &[
            // on probation
            (Packet(0, 7, 1), Entries(1)),
            (Named(0, 9), Counts(1, 0)),
            (Forget(0, 7), OthersChanged(false)),
            (Ask, Entries(0)),
            (Named(0, 9), Counts(2, 0)),
            (Forget(0, 7), Entries(1)),
            (Packet(0, 9, 1), Counts(2, 0)),
            (Packet(0, 9, 2), Counts(2, 1)),
            (Forget(1, 9), Counts(1, 0)),
        ],
    },
    Script {
        name: "one that has left takes neither",
        setup: USUAL,
        rows: &[
            (Leave(0, 0), LeavesSilently),
            (Configure(0, 100, 300, false), Refused(Refusal::Left)),
            (Forget(0, 9), Refused(Refusal::Left)),
        ],
    },
];

/// A sender that goes from payload type 0 and 8,000 units a second to 96 and 48,000, its timestamps beginning anew: its
/// jitter is in units of the newest packet's clock, and begins at 0 there (RFC 7160).
pub(crate) fn clocks<T: InlineTable + Drop>(rt: &impl Abort) {
    let mut given = config();
    let clock = Clock {
        payload_type: 96,
        rate: 48_000,
    };
    let _ = given.clocks.try_push(clock);
    let mut session = Session::<T>::new(rt, given, 0);
    // 20 milliseconds apart, and the third 10 late: 80 units of 8,000 a second, of which a sixteenth is 5
    let slow: [(u64, u8, u16); 3] = [(0, 10, 0), (20_000, 11, 160), (50_000, 12, 320)];
    for (now, sequence, timestamp) in slow {
        arrives(rt, &mut session, now, 0, sequence, timestamp);
    }
    told(rt, &session, 5, 8_000);
    let fast: [(u64, u8, u16); 2] = [(60_000, 13, 40_000), (80_000, 14, 40_960)];
    for (now, sequence, timestamp) in fast {
        arrives(rt, &mut session, now, 96, sequence, timestamp);
        told(rt, &session, 0, 48_000);
    }
    // 2 milliseconds late: 96 units of 48,000 a second, of which a sixteenth is 6
    arrives(rt, &mut session, 102_000, 96, 15, 41_920);
    told(rt, &session, 6, 48_000);
    // Without its clock, type 96 counts as the others.
    let settings = session::settings(100, 300, false);
    assert!(rt; session.participant.configure(102_000, &settings).is_ok());
    arrives(rt, &mut session, 122_000, 96, 16, 42_080);
    told(rt, &session, 0, 8_000);
}

/// An RTP packet of source 9 comes.
fn arrives<T: MemberTable>(
    rt: &impl Abort,
    session: &mut Session<T>,
    now: u64,
    payload_type: u8,
    sequence: u8,
    timestamp: u16,
) {
    let [high, low] = timestamp.to_be_bytes();
    let bytes = [0x80, payload_type, 0, sequence, 0, 0, high, low, 0, 0, 0, 9];
    assert!(rt; session.participant.arrive_rtp(now, 1, 0, &bytes).is_ok());
}

/// Source 9 is told of with this jitter, in units of a clock of this rate.
fn told<T: MemberTable>(rt: &impl Abort, session: &Session<T>, jitter: u32, rate: u32) {
    let reception = match session.participant.source_above(None) {
        Some(source) => source.reception,
        None => None,
    };
    match reception {
        Some(reception) => assert!(rt; (reception.jitter, reception.rate) == (jitter, rate)),
        None => panic!(rt; "no packet was counted"),
    }
}
