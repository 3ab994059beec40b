//! Damage, over any table: two participants are told the same, but for what is refused, which only the first
//! one is told. They answer the next event alike, octet for octet.

use super::*;

/// A receiver report of source 7, and its CNAME.
const NAMED: &[u8] = &[
    0x80, 0xc9, 0, 1, 0, 0, 0, 7, 0x81, 0xca, 0, 2, 0, 0, 0, 7, 1, 1, 0x61, 0,
];

/// An RTP packet of source 9.
const PACKET: &[u8] = &[0x80, 0, 0, 10, 0, 0, 0, 0, 0, 0, 0, 9];

/// A receiver report of the participant's first SSRC, which makes it 000000ab.
const OURS_AT_FIRST: &[u8] = &[0x80, 0xc9, 0, 1, 0, 0, 0, 0xaa];

/// A receiver report of the participant from then on.
const OURS: &[u8] = &[0x80, 0xc9, 0, 1, 0, 0, 0, 0xab];

/// An RTP packet of it.
const OUR_PACKET: &[u8] = &[0x80, 0, 0, 1, 0, 0, 0, 0, 0, 0, 0, 0xab];

/// Datagrams to damage, of which some are read whole and some have a fault already, and what comes of it. The numbers
/// are those of the model in compare/, which is written from docs/ alone, for participants that begin with this part.
pub(crate) struct Part {
    samples: &'static [&'static [u8]],
    /// How many of the damaged samples are refused as RTCP, and how many as RTP, for a fault or for the own SSRC.
    refused: (u32, u32),
    /// How many compounds are handed out while the participant is present.
    reports: u32,
}

/// A report, alone and with a name.
pub(crate) static NAMES: Part = Part {
    samples: &[
        // a receiver report with no blocks
        &[0x80, 0xc9, 0, 1, 0, 0, 0, 7],
        // with a CNAME, and with an octet more
        NAMED,
        &[
            0x80, 0xc9, 0, 1, 0, 0, 0, 7, 0x81, 0xca, 0, 2, 0, 0, 0, 7, 1, 1, 0x61, 0, 0,
        ],
    ],
    refused: (8_721, 12_055),
    reports: 206,
};

/// Padding: of the first packet, and of a BYE.
pub(crate) static PADDING: Part = Part {
    samples: &[
        &[0xa0, 0xc9, 0, 2, 0, 0, 0, 7, 0, 0, 0, 4],
        &[
            0x80, 0xc9, 0, 1, 0, 0, 0, 7, 0xa1, 0xcb, 0, 2, 0, 0, 0, 7, 0, 0, 0, 4,
        ],
    ],
    refused: (5_133, 7_948),
    reports: 126,
};

/// What is cut short, and a sender report.
pub(crate) static CUT_SHORT: Part = Part {
    samples: &[
        // a report that lacks its last octet, and one that lacks its block
        &[0x80, 0xc9, 0, 1, 0, 0, 0],
        &[0x81, 0xc9, 0, 1, 0, 0, 0, 7],
        // an item, and a reason, that run past their bodies
        &[
            0x80, 0xc9, 0, 1, 0, 0, 0, 7, 0x81, 0xca, 0, 2, 0, 0, 0, 7, 1, 5, 0x61, 0,
        ],
        &[
            0x80, 0xc9, 0, 1, 0, 0, 0, 7, 0x81, 0xcb, 0, 2, 0, 0, 0, 7, 5, 0x61, 0x62, 0x63,
        ],
        // a sender report
        &[
            0x80, 0xc8, 0, 6, 0, 0, 0, 9, 0, 0, 0xb7, 5, 0x20, 0, 0, 0, 0, 0, 0, 10, 0, 0, 0, 3, 0,
            0, 1, 0xe0,
        ],
    ],
    refused: (14_615, 20_515),
    reports: 341,
};

/// RTP packets, a BYE, and a packet of an application.
pub(crate) static PACKETS: Part = Part {
    samples: &[
        PACKET,
        &[0x80, 0, 0, 11, 0, 0, 0, 0, 0, 0, 0, 9],
        &[0x80, 0xc9, 0, 1, 0, 0, 0, 1, 0x81, 0xcb, 0, 1, 0, 0, 0, 1],
        &[
            0x80, 0xc9, 0, 1, 0, 0, 0, 7, 0x85, 0xcc, 0, 3, 0, 0, 0, 7, 0x41, 0x42, 0x43, 0x44, 1,
            2, 3, 4,
        ],
    ],
    refused: (9_700, 10_306),
    reports: 196,
};

/// BYEs with a reason, with an empty one, and of nobody.
pub(crate) static GOODBYES: Part = Part {
    samples: &[
        &[
            0x80, 0xc9, 0, 1, 0, 0, 0, 7, 0x81, 0xcb, 0, 2, 0, 0, 0, 7, 2, 0x61, 0x62, 0,
        ],
        &[
            0x80, 0xc9, 0, 1, 0, 0, 0, 7, 0x81, 0xcb, 0, 2, 0, 0, 0, 7, 0, 0, 0, 0,
        ],
        &[0x80, 0xc9, 0, 1, 0, 0, 0, 7, 0x80, 0xcb, 0, 0],
    ],
    refused: (5_916, 12_577),
    reports: 183,
};

/// Two participants that are told the same, but for what is refused.
#[derive(Drop)]
struct Pair<T: MemberTable> {
    harmed: Session<T>,
    spared: Session<T>,
    /// whether some of the ticks are to be due
    reports: bool,
    /// the moment of the last event that was taken
    now: u64,
    /// how many events were refused
    refused: u32,
    /// how many damaged datagrams were refused as RTCP, and how many as RTP
    damaged: (u32, u32),
    /// how many compounds were handed out
    sent: u32,
}

/// While a participant is present, and the table is often full.
pub(crate) fn present<T: InlineTable + Drop>(rt: &impl Abort, part: &Part) {
    let harmed = Session::new(rt, small(), 0);
    let spared = Session::new(rt, small(), 0);
    let mut pair = Pair::<T>::new(harmed, spared, 0, true);
    pair.change_ssrc(rt);
    pair.damage_samples(rt, part.samples);
    assert_eq!(rt; (pair.damaged, pair.sent), (part.refused, part.reports));
}

/// The usual configuration, but for a table of 60 sources and the least bandwidth, so that the interval shows
/// the average already with two members.
fn small() -> Config {
    Config {
        capacity: 60,
        sender_bw: 16,
        receiver_bw: 16,
        ..config()
    }
}

/// While a participant backs off, until both send a BYE.
pub(crate) fn backing_off<T: InlineTable + Drop>(rt: &impl Abort, part: &Part) {
    let harmed = leaving::backing_off::<T>(rt);
    let spared = leaving::backing_off::<T>(rt);
    let mut pair = Pair::new(harmed, spared, 10_000_000, false);
    pair.change_ssrc(rt);
    assert_eq!(rt; pair.sent, 1);
    pair.damage_samples(rt, part.samples);
    assert_eq!(rt; (pair.damaged, pair.sent), (part.refused, 1));
    pair.wait(rt);
    assert_eq!(rt; pair.sent, 2);
    pair.harmed
        .plays(rt, "gone", &[(Call::Ask, Seen::LeavesSilently)]);
}

impl<T: MemberTable + Drop> Pair<T> {
    fn new(harmed: Session<T>, spared: Session<T>, now: u64, reports: bool) -> Pair<T> {
        Pair {
            harmed,
            spared,
            reports,
            now,
            refused: 0,
            damaged: (0, 0),
            sent: 0,
        }
    }

    /// Both change their SSRC, as the peer that sends all datagrams names it. So from now on what names it is
    /// refused.
    fn change_ssrc(&mut self, rt: &impl Abort) {
        self.tell_both(rt, Call::Rtcp(self.now, 1, 0xab, OURS_AT_FIRST));
        assert_eq!(rt; self.harmed.participant.ssrc(), 0xab);
    }

    /// Damages each sample. What is whole is a sample that is read, or else the named report.
    fn damage_samples(&mut self, rt: &impl Abort, samples: &[&[u8]]) {
        for octets in samples {
            let whole = if Compound::read(octets).is_ok() {
                octets
            } else {
                NAMED
            };
            self.refuse_own(rt, whole);
            self.cut(rt, octets, whole);
            self.change(rt, octets, whole);
        }
    }

    /// Calls that are refused for their moment, or for the participant's own SSRC.
    fn refuse_own(&mut self, rt: &impl Abort, whole: &[u8]) {
        self.go_on(rt, whole);
        let before = self.now.saturating_sub(1);
        self.refuse_moment(rt, before, whole, Refusal::Backwards);
        self.refuse_moment(rt, (1 << 50) + 1, whole, Refusal::TooFar);
        let ours = self.harm(rt, Call::Rtcp(self.later(), 1, 0xab, OURS), whole);
        assert!(rt; ours == Some(Refusal::OwnSsrc));
        let ours = self.harm(rt, Call::Rtp(self.later(), 1, 0xab, OUR_PACKET), whole);
        assert!(rt; ours == Some(Refusal::OwnSsrc));
    }

    /// Each call at a moment for which it is refused.
    fn refuse_moment(&mut self, rt: &impl Abort, now: u64, whole: &[u8], refusal: Refusal) {
        for call in [
            Call::Rtcp(now, 1, 0xab, NAMED),
            Call::Rtp(now, 1, 0xab, PACKET),
            Call::Sent(now, 0),
            Call::Tick(now, 0, 0),
            Call::Leave(now, 0),
        ] {
            let found = self.harm(rt, call, whole);
            assert!(rt; found == Some(refusal));
        }
    }

    /// Each prefix of a sample comes.
    fn cut(&mut self, rt: &impl Abort, octets: &[u8], whole: &[u8]) {
        for size in 0..=octets.len() {
            self.come(rt, octets.split_at(size).0, whole);
        }
    }

    /// Each change of one octet of a sample comes.
    fn change(&mut self, rt: &impl Abort, octets: &[u8], whole: &[u8]) {
        for place in 0..octets.len() {
            self.change_at(rt, octets, place, whole);
        }
    }

    /// The sample comes with each of the other 255 values of an octet.
    fn change_at(&mut self, rt: &impl Abort, octets: &[u8], place: usize, whole: &[u8]) {
        for mask in 1..=255u8 {
            let mut changed = ArrayVec::<u8, 28>::new();
            let _ = changed.try_extend_from_slice(octets);
            if let Some(octet) = changed.as_mut_slice().get_mut(place) {
                *octet ^= mask;
            }
            self.come(rt, changed.as_slice(), whole);
        }
    }

    /// A datagram comes as RTCP, and as RTP.
    fn come(&mut self, rt: &impl Abort, bytes: &[u8], whole: &[u8]) {
        let refusal = self.harm(rt, Call::Rtcp(self.later(), 1, 0xab, bytes), whole);
        if refusal.is_some() {
            self.damaged.0 = self.damaged.0.saturating_add(1);
        }
        let refusal = self.harm(rt, Call::Rtp(self.later(), 1, 0xab, bytes), whole);
        if refusal.is_some() {
            self.damaged.1 = self.damaged.1.saturating_add(1);
        }
    }

    /// A moment after that of the next event: where it is refused, it is not to be the last one.
    fn later(&self) -> u64 {
        self.now.saturating_add(10)
    }

    /// Tells the first one an event. Where it refuses it, nothing of it is seen, and both go on; where it
    /// takes it, the other one takes it too.
    fn harm(&mut self, rt: &impl Abort, call: Call<'_>, whole: &[u8]) -> Option<Refusal> {
        let before = self.harmed.counts();
        match self.harmed.call(call) {
            Err(refusal) => {
                assert!(rt; self.harmed.counts() == before);
                self.refused = self.refused.saturating_add(1);
                self.go_on(rt, whole);
                Some(refusal)
            }
            Ok(step) => {
                self.now = self.later();
                self.repeat(rt, &step, call);
                None
            }
        }
    }

    /// Tells both an event that they take: in turn the whole datagram, a packet that is sent, a packet that
    /// comes, and a tick. One tick in 25 is due where reports are to be sent.
    fn go_on(&mut self, rt: &impl Abort, whole: &[u8]) {
        self.now = self.now.saturating_add(1);
        if self.reports && self.refused % 100 == 99 {
            self.now = self.now.max(self.spared.participant.next().unwrap_or(0));
        }
        let now = self.now;
        let [high, low] = ((self.refused / 4 % 65_536) as u16).to_be_bytes();
        let packet = [0x80, 0, high, low, 0, 0, 0, 0, 0, 0, 0, 9];
        match self.refused % 4 {
            0 => self.tell_both(rt, Call::Rtcp(now, 1, 0xab, whole)),
            1 => self.tell_both(rt, Call::Sent(now, 0)),
            2 => self.tell_both(rt, Call::Rtp(now, 1, 0xab, &packet)),
            _ => self.tell_both(rt, Call::Tick(now, 0, 0)),
        }
    }

    /// Asks both when they want to be asked, until they are gone.
    fn wait(&mut self, rt: &impl Abort) {
        for _ in 0..100 {
            if let Some(now) = self.spared.participant.next() {
                self.tell_both(rt, Call::Tick(now, 0, 0));
            }
        }
    }

    /// Tells both an event that they take.
    fn tell_both(&mut self, rt: &impl Abort, call: Call<'_>) {
        match self.harmed.call(call) {
            Ok(step) => self.repeat(rt, &step, call),
            Err(_) => panic!(rt; "it is refused"),
        }
    }

    /// Tells the second one the event too. Its answer is this step.
    fn repeat(&mut self, rt: &impl Abort, step: &Step, call: Call<'_>) {
        let seen = seen_of(step);
        match self.spared.call(call) {
            Ok(other) => assert!(rt; seen != Seen::Odd && seen == seen_of(&other)),
            Err(_) => panic!(rt; "the second one refuses it"),
        }
        if step.out.is_some() {
            self.sent = self.sent.saturating_add(1);
        }
    }
}
