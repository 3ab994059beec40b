//! A participant under test, whichever its table, and the sessions that it plays.

use super::*;

/// The report of a participant with SSRC 000000aa and CNAME `a` that has no news.
pub(crate) const REPORT: [u8; 20] = [
    0x80, 0xc9, 0x00, 0x01, 0x00, 0x00, 0x00, 0xaa, 0x81, 0xca, 0x00, 0x02, 0x00, 0x00, 0x00, 0xaa,
    0x01, 0x01, 0x61, 0x00,
];

/// The same with SSRC 000000bb.
pub(crate) const REPORT_OF_BB: [u8; 20] = [
    0x80, 0xc9, 0x00, 0x01, 0x00, 0x00, 0x00, 0xbb, 0x81, 0xca, 0x00, 0x02, 0x00, 0x00, 0x00, 0xbb,
    0x01, 0x01, 0x61, 0x00,
];

/// The BYE of the participant with SSRC 000000aa: its report, and a BYE packet.
pub(crate) const BYE: [u8; 28] = [
    0x80, 0xc9, 0x00, 0x01, 0x00, 0x00, 0x00, 0xaa, 0x81, 0xca, 0x00, 0x02, 0x00, 0x00, 0x00, 0xaa,
    0x01, 0x01, 0x61, 0x00, 0x81, 0xcb, 0x00, 0x01, 0x00, 0x00, 0x00, 0xaa,
];

/// A receiver report of that participant, without blocks and without a name.
pub(crate) const OURS: [u8; 8] = [0x80, 0xc9, 0x00, 0x01, 0x00, 0x00, 0x00, 0xaa];

/// A session from its start.
pub(crate) struct Script {
    /// What it shows.
    pub(crate) name: &'static str,
    /// How the participant begins.
    pub(crate) setup: Setup,
    /// The calls, and what is seen of each.
    pub(crate) rows: &'static [Row],
}

/// A call, and what is seen of it.
pub(crate) type Row = (Call<'static>, Seen<'static>);

/// How a participant begins.
#[derive(Clone, Copy)]
pub(crate) struct Setup {
    /// The word of its start.
    pub(crate) word: u32,
    /// How many sources its table takes.
    pub(crate) capacity: u32,
    /// Octets a second of RTCP for senders, and for others.
    pub(crate) bandwidths: (u32, u32),
    /// Whether it has an extra item: a TOOL with the text `t`.
    pub(crate) has_tool: bool,
}

/// The usual one: SSRC 000000aa, CNAME `a`, and a clock of 8,000 units a second.
pub(crate) const USUAL: Setup = Setup {
    word: 0,
    capacity: 1_024,
    bandwidths: (100, 300),
    has_tool: false,
};

/// A call.
#[derive(Clone, Copy)]
pub(crate) enum Call<'a> {
    /// None: what the participant says between calls.
    Ask,
    /// A tick at a moment, with two words.
    Tick(u64, u32, u32),
    /// A leave at a moment, with a word.
    Leave(u64, u32),
    /// An RTP packet of 160 octets that the host sent at a moment, with a timestamp.
    Sent(u64, u32),
    /// Other settings: their moment, octets a second of RTCP for senders and for others, and whether a TOOL `t` is
    /// said.
    Configure(u64, u32, u32, bool),
    /// A source is gone: a moment, and its SSRC.
    Forget(u64, u32),
    /// An RTCP datagram: its moment, its peer, a word, and its octets.
    Rtcp(u64, u64, u32, &'a [u8]),
    /// An RTP datagram.
    Rtp(u64, u64, u32, &'a [u8]),
    /// A compound of peer 1 in which a source gives its name.
    Named(u64, u8),
    /// A compound of peer 1 in which a source leaves.
    Goodbye(u64, u8),
    /// An RTP packet of a source, which is peer 1, with a sequence number and a timestamp of 0.
    Packet(u64, u8, u8),
    /// Each source from one to another gives its name.
    Join(u64, u8, u8),
    /// Each of them leaves.
    Part(u64, u8, u8),
    /// An empty report of source 1, and BYE packets of nobody up to so many octets.
    Byes(u64, usize),
}

/// What is seen of a call.
#[derive(Clone, Copy, PartialEq, Eq)]
pub(crate) enum Seen<'a> {
    /// It was taken.
    Taken,
    /// It was taken, and these are the members and the senders.
    Counts(u32, u32),
    /// It was taken, and so many places of the table are taken.
    Entries(u32),
    /// It was taken, and changed the role of another source or did not.
    OthersChanged(bool),
    /// It was taken, there is nothing to send, and these are the members, the senders and the next moment.
    Is(u32, u32, u64),
    /// The same, but a report of these octets is to be sent.
    Sends(u32, u32, u64, &'a [u8]),
    /// The participant has a new SSRC. These are the counts, the next moment, and the BYE of the old one, if one is
    /// to be sent.
    Changes(u32, u32, u32, u64, &'a [u8]),
    /// The participant is gone, and has nothing to send.
    LeavesSilently,
    /// The participant is gone, and this BYE is to be sent.
    SaysBye(&'a [u8]),
    /// It was refused for this reason.
    Refused(Refusal),
    /// It was taken, and is none of these.
    Odd,
}

/// A configuration with SSRC 000000aa, CNAME `a`, 100 and 300 octets a second of RTCP for senders and for
/// others, and a clock of 8,000 units a second.
pub(crate) fn config() -> Config {
    let mut cname = ArrayVec::new();
    let _ = cname.try_push(b'a');
    Config {
        ssrc: 0xaa,
        cname,
        extras: ArrayVec::new(),
        capacity: 1_024,
        limit: 1_472,
        sender_bw: 100,
        receiver_bw: 300,
        rate: 8_000,
        clocks: ArrayVec::new(),
        ntp_base: 0,
    }
}

/// The configuration of a participant that begins so.
fn configured(setup: &Setup) -> Config {
    let mut config = config();
    config.capacity = setup.capacity;
    (config.sender_bw, config.receiver_bw) = setup.bandwidths;
    config.extras = tool(setup.has_tool);
    config
}

/// Settings without clocks.
pub(crate) fn settings(sender_bw: u32, receiver_bw: u32, has_tool: bool) -> Settings {
    Settings {
        sender_bw,
        receiver_bw,
        rate: 8_000,
        clocks: ArrayVec::new(),
        ntp_base: 0,
        extras: tool(has_tool),
    }
}

/// A TOOL with the text `t`, or no item.
fn tool(is_there: bool) -> ArrayVec<Item, 7> {
    let mut items = ArrayVec::new();
    if is_there {
        let mut text = ArrayVec::new();
        let _ = text.try_push(b't');
        let _ = items.try_push(Item { kind: 6, text });
    }
    items
}

/// Each session, over a table of this type.
pub(crate) fn play<T: InlineTable + Drop>(rt: &impl Abort, scripts: &[Script]) {
    for script in scripts {
        let mut session = Session::<T>::new(rt, configured(&script.setup), script.setup.word);
        session.plays(rt, script.name, script.rows);
    }
}

/// A participant under test.
#[derive(Drop)]
pub(crate) struct Session<T: MemberTable> {
    pub(crate) participant: Participant<T>,
}

impl<T: InlineTable> Session<T> {
    /// A session of this configuration, with this start word.
    pub(crate) fn new(rt: &impl Abort, config: Config, word: u32) -> Session<T> {
        match Participant::new(config, word) {
            Ok(participant) => Session { participant },
            Err(_) => panic!(rt; "the configuration is refused"),
        }
    }

    /// A session of the usual configuration.
    pub(crate) fn usual(rt: &impl Abort) -> Session<T> {
        Session::new(rt, config(), 0)
    }
}

impl<T: MemberTable> Session<T> {
    /// The calls of these rows are seen to do what the rows say, and between them the participant says what the
    /// last one answered.
    pub(crate) fn plays(&mut self, rt: &impl Abort, name: &str, rows: &[Row]) {
        for (number, (call, wanted)) in rows.iter().enumerate() {
            let before = self.participant.ssrc();
            let answer = self.call(*call);
            let found = seen_in(&answer, wanted);
            assert!(rt; found == *wanted, "{name}: row {number}");
            if let Ok(step) = &answer {
                let told = (step.members, step.senders, step.entries, step.next);
                assert!(rt; self.counts() == told, "{name}: counts after row {number}");
            }
            let ssrc = match &answer {
                Ok(step) => step.changed.unwrap_or(before),
                Err(_) => before,
            };
            assert_eq!(rt; self.participant.ssrc(), ssrc, "{name}: row {number}");
        }
    }

    /// What the participant says between calls: members, senders, entries, and the next moment.
    pub(crate) fn counts(&self) -> (u32, u32, u32, Option<u64>) {
        (
            self.participant.members(),
            self.participant.senders(),
            self.participant.entries(),
            self.participant.next(),
        )
    }

    /// The answer to a call: of several, that to the last one, or to the first one that is refused.
    pub(crate) fn call(&mut self, call: Call<'_>) -> Answer {
        match call {
            Call::Ask => Ok(self.said()),
            Call::Tick(now, w1, w2) => self.participant.tick(now, w1, w2),
            Call::Leave(now, w) => self.participant.leave(now, w),
            Call::Sent(now, rtp_ts) => self.participant.sent_rtp(now, rtp_ts, 160),
            Call::Configure(now, senders, others, has_tool) => {
                let settings = settings(senders, others, has_tool);
                self.participant.configure(now, &settings)
            }
            Call::Forget(now, ssrc) => self.participant.forget(now, ssrc),
            Call::Rtcp(now, peer, w, bytes) => self.participant.arrive_rtcp(now, peer, w, bytes),
            Call::Rtp(now, peer, w, bytes) => self.participant.arrive_rtp(now, peer, w, bytes),
            Call::Named(now, ssrc) => self.named(now, ssrc),
            Call::Goodbye(now, ssrc) => self.goodbye(now, ssrc),
            Call::Packet(now, ssrc, sequence) => self.packet(now, ssrc, sequence),
            Call::Join(now, first, last) => self.join(now, first, last),
            Call::Part(now, first, last) => self.part(now, first, last),
            Call::Byes(now, size) => self.byes(now, size),
        }
    }

    /// What the participant says between calls, as if a call had changed nothing.
    fn said(&self) -> Step {
        let (members, senders, entries, next) = self.counts();
        Step {
            members,
            senders,
            entries,
            next,
            changed: None,
            others_changed: false,
            out: None,
        }
    }

    fn named(&mut self, now: u64, ssrc: u8) -> Answer {
        let bytes = [
            0x80, 0xc9, 0x00, 0x01, 0x00, 0x00, 0x00, ssrc, 0x81, 0xca, 0x00, 0x02, 0x00, 0x00,
            0x00, ssrc, 0x01, 0x01, 0x61, 0x00,
        ];
        self.participant.arrive_rtcp(now, 1, 0, &bytes)
    }

    fn goodbye(&mut self, now: u64, ssrc: u8) -> Answer {
        let bytes = [
            0x80, 0xc9, 0x00, 0x01, 0x00, 0x00, 0x00, ssrc, 0x81, 0xcb, 0x00, 0x01, 0x00, 0x00,
            0x00, ssrc,
        ];
        self.participant.arrive_rtcp(now, 1, 0, &bytes)
    }

    fn packet(&mut self, now: u64, ssrc: u8, sequence: u8) -> Answer {
        let bytes = [0x80, 0, 0, sequence, 0, 0, 0, 0, 0, 0, 0, ssrc];
        self.participant.arrive_rtp(now, 1, 0, &bytes)
    }

    fn join(&mut self, now: u64, first: u8, last: u8) -> Answer {
        for ssrc in first..last {
            if let Err(refusal) = self.named(now, ssrc) {
                return Err(refusal);
            }
        }
        self.named(now, last)
    }

    fn part(&mut self, now: u64, first: u8, last: u8) -> Answer {
        for ssrc in first..last {
            if let Err(refusal) = self.goodbye(now, ssrc) {
                return Err(refusal);
            }
        }
        self.goodbye(now, last)
    }

    fn byes(&mut self, now: u64, size: usize) -> Answer {
        let mut bytes = [0; 65_532];
        for (octets, packet) in bytes.chunks_exact_mut(4).zip(0..16_383) {
            octets.copy_from_slice(match packet {
                0 => &[0x80, 0xc9, 0, 1],
                1 => &[0, 0, 0, 1],
                _ => &[0x80, 0xcb, 0, 0],
            });
        }
        let datagram = bytes.get(..size).unwrap_or(&[]);
        self.participant.arrive_rtcp(now, 1, 0, datagram)
    }
}

/// What is seen of an answer, said as the row says it.
fn seen_in<'a>(answer: &'a Answer, row: &Seen<'_>) -> Seen<'a> {
    match (answer, row) {
        (Err(refusal), _) => Seen::Refused(*refusal),
        (Ok(_), Seen::Taken) => Seen::Taken,
        (Ok(step), Seen::Counts(..)) => Seen::Counts(step.members, step.senders),
        (Ok(step), Seen::Entries(_)) => Seen::Entries(step.entries),
        (Ok(step), Seen::OthersChanged(_)) => Seen::OthersChanged(step.others_changed),
        (Ok(step), _) => seen_of(step),
    }
}

/// What is seen of a call that was taken, all of it.
pub(crate) fn seen_of(step: &Step) -> Seen<'_> {
    let (members, senders) = (step.members, step.senders);
    let (kind, octets) = match &step.out {
        Some(out) => (Some(out.kind), out.bytes.as_slice()),
        None => (None, [].as_slice()),
    };
    match (step.next, step.changed, kind) {
        (Some(next), None, None) => Seen::Is(members, senders, next),
        (Some(next), None, Some(OutKind::Report)) => Seen::Sends(members, senders, next, octets),
        (Some(next), Some(ssrc), None | Some(OutKind::Bye)) => {
            Seen::Changes(ssrc, members, senders, next, octets)
        }
        (None, None, None) if (members, senders) == (0, 0) => Seen::LeavesSilently,
        (None, None, Some(OutKind::Bye)) if (members, senders) == (0, 0) => Seen::SaysBye(octets),
        _ => Seen::Odd,
    }
}
