//! Worked sessions, and what is seen of each.

use super::log::Made;
use super::memory_link::{Coming, MemoryLink};
use super::reader::reads;
use super::session::{BYE, REPORT, participant, served, watched};
use super::watch::Watch;
use super::*;
use std::alloc::{AllocError, Global};
use std::cell::Cell;
use std::rc::Rc;

/// A session over a link in memory.
#[derive(Drop)]
pub(super) struct Case<'a> {
    /// What it shows.
    pub(super) name: &'a str,
    /// The moments that the clock gives, and from the last one on that.
    pub(super) moments: &'a [u64],
    /// What comes, so often each, and what comes once that is used up.
    pub(super) coming: &'a [(usize, Coming)],
    pub(super) in_the_end: Coming,
    /// The numbers of the sends that fail.
    pub(super) failing: &'a [u64],
    /// Whether the participant has sent an RTP packet, so that its reports tell their moments.
    pub(super) is_sender: bool,
    pub(super) turns: u32,
    pub(super) seen: Seen<'a>,
}

/// What is seen of a session. None: anything.
#[derive(Drop)]
pub(super) struct Seen<'a> {
    pub(super) end: Option<End>,
    /// How many words were drawn.
    pub(super) drawn: Option<u32>,
    /// The SSRC of the participant after it, and whether it is gone.
    pub(super) ssrc: Option<u32>,
    pub(super) is_gone: Option<bool>,
    /// How many calls the link had, and which ones.
    pub(super) calls: Option<usize>,
    pub(super) log: &'a [Noted<'a>],
    /// How many events the watch was told.
    pub(super) tellings: Option<usize>,
}

/// A call of a link.
pub(super) enum Noted<'a> {
    /// Any.
    Any,
    Clock(u64),
    /// A datagram of the peer of this number.
    Came(Port, u64, u64),
    /// A datagram of these octets.
    Whole(&'a [u8]),
    Silence(Port, u64),
    Sent(&'a [u8], bool),
}

/// Anything.
pub(super) const ANYTHING: Seen<'static> = Seen {
    end: None,
    drawn: None,
    ssrc: None,
    is_gone: None,
    calls: None,
    log: &[],
    tellings: None,
};

/// A session of one turn over an idle link whose clock stands.
pub(super) const PLAIN: Case<'static> = Case {
    name: "",
    moments: &[0],
    coming: &[],
    in_the_end: Coming::Nothing,
    failing: &[],
    is_sender: false,
    turns: 1,
    seen: ANYTHING,
};

/// What a session of an idle link comes to.
pub(super) const IDLE: End = End {
    cause: Cause::Done,
    received: 0,
    refused: 0,
    sent: 0,
    send_failures: 0,
    recv_failures: 0,
    bye: false,
};

/// The link went down.
const DOWN: End = End {
    cause: Cause::LinkDown,
    ..IDLE
};

/// The largest datagram, an RTP packet.
const PACKET: [u8; 65_535] = [0x80; 65_535];

/// The moments of a first turn that sends a report, of a second one and of a third.
const MOMENTS: &[u64] = &[0, 1_026_037, 1_026_037, 1_026_037, 1_026_037, 3_078_111];

/// The report of the participant with SSRC 0 and CNAME `a`.
const REPORT_OF_ZERO: &[u8] = &[
    0x80, 0xc9, 0x00, 0x01, 0x00, 0x00, 0x00, 0x00, 0x81, 0xca, 0x00, 0x02, 0x00, 0x00, 0x00, 0x00,
    0x01, 0x01, 0x61, 0x00,
];

/// Its BYE.
const BYE_OF_ZERO: &[u8] = &[
    0x80, 0xc9, 0x00, 0x01, 0x00, 0x00, 0x00, 0x00, 0x81, 0xca, 0x00, 0x02, 0x00, 0x00, 0x00, 0x00,
    0x01, 0x01, 0x61, 0x00, 0x81, 0xcb, 0x00, 0x01, 0x00, 0x00, 0x00, 0x00,
];

/// An RTP packet of the own SSRC.
const OUR_PACKET: &[u8] = &[0x80, 0, 0, 1, 0, 0, 0, 0, 0, 0, 0, 0xaa];

/// What comes to a sender, whose clock goes back.
const TO_SENDER: &[(usize, Coming)] = &[
    (1, Coming::Named(7)),
    (1, Coming::Nothing),
    (1, Coming::Failure),
    (
        1,
        Coming::Datagram(1, &[0x80, 0, 0, 1, 0, 0, 0, 0, 0, 0, 0, 9]),
    ),
    (1, Coming::Nothing),
    (
        1,
        Coming::Datagram(1, &[0x80, 0, 0, 2, 0, 0, 0, 0, 0, 0, 0, 9]),
    ),
];

/// What its session comes to where two of its four sends fail.
const FOUR_SENT: End = End {
    received: 3,
    sent: 4,
    send_failures: 2,
    recv_failures: 1,
    bye: true,
    ..IDLE
};

/// Its session. Each turn asks both ports once, in their order, and each compound goes to the link once, though the
/// clock goes back and sends fail.
const OF_SENDER: Case<'static> = Case {
    moments: &[
        0, 1_026_037, 500_000, 3_200_000, 3_100_000, 3_000_000, 5_500_000, 100, 0, 1,
    ],
    coming: TO_SENDER,
    is_sender: true,
    turns: 5,
    seen: Seen {
        end: Some(FOUR_SENT),
        drawn: Some(14),
        ..ANYTHING
    },
    ..PLAIN
};

/// What comes where the own report comes back after it was sent.
const OURS_BACK: &[(usize, Coming)] = &[(2, Coming::Nothing), (1, Coming::Datagram(7, &REPORT))];

/// The session then. The BYE of the old SSRC goes out at once and once, whether or not sending it fails, before the
/// other port is listened to. Nothing was sent under the new SSRC, so that the leave is silent: that one BYE went out
/// and none of leaving. Two words a turn, one for the datagram and one to leave.
const GIVES_UP: Case<'static> = Case {
    name: "gives up with a BYE",
    moments: MOMENTS,
    coming: OURS_BACK,
    turns: 2,
    ..PLAIN
};

/// What is seen of it.
const GAVE_UP: Seen<'static> = Seen {
    drawn: Some(6),
    ssrc: Some(0),
    ..ANYTHING
};

static CASES: [Case<'static>; 16] = [
    // Two words a turn, and one to leave.
    Case {
        name: "a report that the link fails to send is sent once, and the BYE follows",
        moments: &[0, 1_026_037, 500_000, 2_000_000],
        failing: &[0],
        turns: 2,
        seen: Seen {
            end: Some(End {
                sent: 2,
                send_failures: 1,
                bye: true,
                ..IDLE
            }),
            drawn: Some(5),
            tellings: Some(3),
            log: &[
                Noted::Clock(0),
                Noted::Silence(Port::Rtcp, 20_000),
                Noted::Silence(Port::Rtp, 20_000),
                Noted::Clock(1_026_037),
                Noted::Sent(&REPORT, true),
                Noted::Clock(500_000),
                Noted::Silence(Port::Rtcp, 20_000),
                Noted::Silence(Port::Rtp, 20_000),
                Noted::Clock(2_000_000),
                Noted::Sent(&BYE, false),
            ],
            ..ANYTHING
        },
        ..PLAIN
    },
    // Its 31 ticks drew two words each.
    Case {
        name: "the 64th failed receive in a row ends a session",
        in_the_end: Coming::Failure,
        turns: 100,
        seen: Seen {
            end: Some(End {
                recv_failures: 64,
                ..DOWN
            }),
            drawn: Some(62),
            calls: Some(127),
            ..ANYTHING
        },
        ..PLAIN
    },
    // By one word more.
    Case {
        name: "with 62 it leaves",
        in_the_end: Coming::Failure,
        turns: 31,
        seen: Seen {
            end: Some(End {
                recv_failures: 62,
                ..IDLE
            }),
            drawn: Some(63),
            calls: Some(124),
            ..ANYTHING
        },
        ..PLAIN
    },
    Case {
        name: "a moment above 2^50 ends a session at its first tick",
        moments: &[1_125_899_906_842_625],
        turns: 100,
        seen: Seen {
            end: Some(End {
                cause: Cause::Limit,
                ..IDLE
            }),
            drawn: Some(2),
            calls: Some(4),
            tellings: Some(1),
            ..ANYTHING
        },
        ..PLAIN
    },
    Case {
        name: "a datagram breaks a row of failed receives",
        coming: &[
            (63, Coming::Failure),
            (
                1,
                Coming::Datagram(1, &[0x80, 0, 0, 1, 0, 0, 0, 0, 0, 0, 0, 9]),
            ),
            (63, Coming::Failure),
        ],
        turns: 64,
        seen: Seen {
            end: Some(End {
                received: 1,
                recv_failures: 126,
                ..IDLE
            }),
            ..ANYTHING
        },
        ..PLAIN
    },
    Case {
        name: "so does a silence",
        coming: &[
            (63, Coming::Failure),
            (1, Coming::Nothing),
            (63, Coming::Failure),
        ],
        turns: 64,
        seen: Seen {
            end: Some(End {
                recv_failures: 126,
                ..IDLE
            }),
            ..ANYTHING
        },
        ..PLAIN
    },
    Case {
        name: "and ports do not",
        coming: &[
            (63, Coming::Failure),
            (1, Coming::Failure),
            (63, Coming::Failure),
        ],
        turns: 64,
        seen: Seen {
            end: Some(End {
                recv_failures: 64,
                ..DOWN
            }),
            ..ANYTHING
        },
        ..PLAIN
    },
    Case {
        name: "the 64th failure in a row ends a session after others, too",
        coming: &[
            (63, Coming::Failure),
            (1, Coming::Nothing),
            (64, Coming::Failure),
        ],
        turns: 100,
        seen: Seen {
            end: Some(End {
                recv_failures: 127,
                ..DOWN
            }),
            calls: Some(64 * 4 - 1),
            ..ANYTHING
        },
        ..PLAIN
    },
    // The own SSRC: another one is taken, and none of the old one was heard. No compound has an odd number of octets.
    // Five datagrams, two of them refused, three ticks and the leave.
    Case {
        name: "a datagram on the port of RTCP is told as a compound, and one on that of RTP as a packet",
        coming: &[
            (1, Coming::Named(7)),
            (1, Coming::Datagram(1, &[0x80])),
            (1, Coming::Datagram(1, &REPORT)),
            (2, Coming::Datagram(1, &PACKET)),
        ],
        turns: 3,
        seen: Seen {
            end: Some(End {
                received: 5,
                refused: 2,
                ..IDLE
            }),
            drawn: Some(12),
            tellings: Some(9),
            log: &[
                Noted::Any,
                Noted::Any,
                Noted::Any,
                Noted::Any,
                Noted::Any,
                Noted::Any,
                Noted::Whole(&PACKET),
                Noted::Any,
                Noted::Any,
                Noted::Whole(&PACKET),
                Noted::Any,
                Noted::Any,
            ],
            ..ANYTHING
        },
        ..PLAIN
    },
    Case {
        failing: &[9],
        seen: Seen {
            end: Some(End {
                received: 1,
                sent: 2,
                ..IDLE
            }),
            log: &[
                Noted::Any,
                Noted::Any,
                Noted::Any,
                Noted::Any,
                Noted::Sent(&REPORT, false),
                Noted::Any,
                Noted::Came(Port::Rtcp, 20_000, 7),
                Noted::Sent(&BYE, false),
                Noted::Silence(Port::Rtp, 20_000),
                Noted::Clock(1_026_037),
            ],
            ..GAVE_UP
        },
        ..GIVES_UP
    },
    Case {
        name: "gives up with a BYE that the link fails to send",
        failing: &[1],
        seen: Seen {
            end: Some(End {
                received: 1,
                sent: 2,
                send_failures: 1,
                ..IDLE
            }),
            log: &[
                Noted::Any,
                Noted::Any,
                Noted::Any,
                Noted::Any,
                Noted::Sent(&REPORT, false),
                Noted::Any,
                Noted::Came(Port::Rtcp, 20_000, 7),
                Noted::Sent(&BYE, true),
                Noted::Silence(Port::Rtp, 20_000),
                Noted::Clock(1_026_037),
            ],
            ..GAVE_UP
        },
        ..GIVES_UP
    },
    // Under the new SSRC a report goes out in the third turn, and the leave has a BYE of its own. A report of the new
    // SSRC that comes from the same peer is refused.
    Case {
        name: "the same by an RTP packet, and a leave with another BYE",
        moments: MOMENTS,
        coming: &[
            (3, Coming::Nothing),
            (1, Coming::Datagram(7, OUR_PACKET)),
            (1, Coming::Datagram(7, BYE_OF_ZERO)),
        ],
        turns: 3,
        seen: Seen {
            end: Some(End {
                received: 2,
                refused: 1,
                sent: 4,
                bye: true,
                ..IDLE
            }),
            drawn: Some(9),
            log: &[
                Noted::Any,
                Noted::Any,
                Noted::Any,
                Noted::Any,
                Noted::Sent(&REPORT, false),
                Noted::Any,
                Noted::Any,
                Noted::Came(Port::Rtp, 20_000, 7),
                Noted::Sent(&BYE, false),
                Noted::Any,
                Noted::Any,
                Noted::Any,
                Noted::Any,
                Noted::Any,
                Noted::Sent(REPORT_OF_ZERO, false),
                Noted::Sent(BYE_OF_ZERO, false),
            ],
            ..ANYTHING
        },
        ..PLAIN
    },
    Case {
        name: "a sender whose clock goes back, and whose first two sends fail",
        failing: &[0, 1],
        ..OF_SENDER
    },
    Case {
        name: "a sender whose clock goes back, and whose second and third sends fail",
        failing: &[1, 2],
        ..OF_SENDER
    },
    Case {
        name: "a sender whose clock goes back, and whose last two sends fail",
        failing: &[2, 3],
        ..OF_SENDER
    },
    Case {
        name: "a sender whose clock goes back, and whose last send fails",
        failing: &[3, 4],
        seen: Seen {
            end: Some(End {
                send_failures: 1,
                ..FOUR_SENT
            }),
            drawn: Some(14),
            ..ANYTHING
        },
        ..OF_SENDER
    },
];

/// Each session comes to what it shows.
#[test]
fn sessions(rt: HostRuntime) -> Result<(), Fail> {
    for case in &CASES {
        play(&rt, rt.alloc(), case)?;
    }
    Ok(())
}

/// Plays a session: it comes to what is seen of it, and the reader of its log finds why it ended. Unwatched it makes the
/// same calls.
pub(super) fn play(rt: &impl Abort, alloc: Global, case: &Case<'_>) -> Result<(), Fail> {
    let coming = repeated(alloc, case.coming)?;
    let made = Rc::new(alloc, Cell::new(0))?;
    let mut link = MemoryLink::new(alloc, case.moments, &coming, case.failing, 300, &made)?;
    link.in_the_end = case.in_the_end;
    let mut again = MemoryLink::new(alloc, case.moments, &coming, case.failing, 300, &made)?;
    again.in_the_end = case.in_the_end;
    assert!(rt; 1 <= case.turns && case.turns <= 1_000);
    let mut present = begun(rt, case);
    let mut watch = Watch::new(alloc, 300, made.clone()?);
    let (end, drawn) = watched(&mut link, &mut present, &mut watch, case.turns);
    check_end(rt, case, (end, drawn), &present);
    check_log(rt, case, &link, &watch);
    let cause = reads(rt, alloc, (&link, &watch), begun(rt, case), case.turns);
    assert_eq!(rt; cause, end.cause, "{}", case.name);
    let unwatched = served(&mut again, &mut begun(rt, case), case.turns);
    assert_eq!(rt; unwatched, (end, drawn), "{}", case.name);
    assert_eq!(rt; again.log.calls, link.log.calls, "{}", case.name);
    Ok(())
}

/// The participant of a session.
fn begun(rt: &impl Abort, case: &Case<'_>) -> Participant<SortedTable> {
    let mut participant = participant(rt);
    if case.is_sender {
        assert!(rt; participant.sent_rtp(0, 1_000, 160).is_ok());
    }
    participant
}

/// What comes, each so often.
fn repeated(alloc: Global, coming: &[(usize, Coming)]) -> Result<Vec<Coming>, AllocError> {
    let mut all = Vec::new(alloc);
    for (times, one) in coming {
        all.resize(all.len().saturating_add(*times), *one)?;
    }
    Ok(all)
}

/// The session ended so, and left the participant so.
fn check_end(
    rt: &impl Abort,
    case: &Case<'_>,
    (end, drawn): (End, u32),
    left: &Participant<SortedTable>,
) {
    let wanted = &case.seen;
    let found = (end, drawn, left.ssrc(), left.next().is_none());
    let wanted = (
        wanted.end.unwrap_or(found.0),
        wanted.drawn.unwrap_or(found.1),
        wanted.ssrc.unwrap_or(found.2),
        wanted.is_gone.unwrap_or(found.3),
    );
    assert_eq!(rt; found, wanted, "{}", case.name);
}

/// The link had these calls, and the watch was told so much.
fn check_log(rt: &impl Abort, case: &Case<'_>, link: &MemoryLink, watch: &Watch) {
    let (wanted, made) = (&case.seen, &link.log.calls);
    let found = (link.log.is_whole, made.len(), watch.tellings.len());
    let calls = if wanted.log.is_empty() {
        found.1
    } else {
        wanted.log.len()
    };
    let wanted_counts = (
        true,
        wanted.calls.unwrap_or(calls),
        wanted.tellings.unwrap_or(found.2),
    );
    assert_eq!(rt; found, wanted_counts, "{}", case.name);
    for (place, (made, noted)) in made.iter().zip(wanted.log).enumerate() {
        assert!(rt; is(made, noted), "{}: call {place}", case.name);
    }
}

/// The call is this one.
fn is(made: &Made, noted: &Noted<'_>) -> bool {
    match (made, noted) {
        (_, Noted::Any) => true,
        (Made::Clock(moment), Noted::Clock(wanted)) => moment == wanted,
        (Made::Came(port, wait, peer, _), Noted::Came(at, most, from)) => {
            (port, wait, peer) == (at, most, from)
        }
        (Made::Came(_, _, _, octets), Noted::Whole(wanted)) => octets.as_slice() == *wanted,
        (Made::Silence(port, wait), Noted::Silence(at, most)) => (port, wait) == (at, most),
        (Made::Sent(octets, failed), Noted::Sent(wanted, fails)) => {
            octets.as_slice() == *wanted && failed == fails
        }
        _ => false,
    }
}
