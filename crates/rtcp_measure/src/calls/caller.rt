//! The calls, and what comes to a participant with them.

use crate::calls::mixing::{mix_reply, mix_source};
use crate::calls::shape::Shape;
use crate::digest::Digest;
use crate::random::Random;
use rtcp_engine::Participant;
use rtcp_members::MemberTable;

/// How many microseconds lie between two descriptions, where the sources describe themselves in turn. A thousand of
/// them take just under 25 seconds, after which a source would be dropped.
const BETWEEN: u64 = 25_000;

/// The state that the random numbers begin in.
const START: u64 = 0x243f_6a88_85a3_08d3;

/// A kind of call.
#[derive(Clone, Copy, Debug)]
pub enum Call {
    /// A packet of a source comes.
    Present,
    /// A packet of an SSRC comes that is no source's.
    Absent,
    /// Two descriptions come, and a tick.
    Tick,
    /// The next source of a walk is asked for.
    Walk,
    /// How many members there are is asked for.
    Members,
}

/// What a call is made with, and how often.
#[derive(Clone, Copy, Debug)]
pub struct Row {
    /// How the SSRCs of the sources lie among each other.
    pub shape: Shape,
    /// How many sources there are.
    pub sources: u32,
    /// How many calls are made.
    pub count: u32,
}

/// Makes calls, and mixes what is answered.
#[derive(Drop)]
pub struct Caller {
    row: Row,
    random: Random,
    now: u64,
    packet: [u8; 172],
    description: [u8; 36],
    sequences: [u16; 1024],
    room: [u8; 1472],
    digest: Digest,
}

impl Call {
    /// The call of this name, if there is one.
    pub fn named(name: &str) -> Option<Call> {
        match name {
            "present" => Some(Call::Present),
            "absent" => Some(Call::Absent),
            "tick" => Some(Call::Tick),
            "walk" => Some(Call::Walk),
            "members" => Some(Call::Members),
            _ => None,
        }
    }
}

impl Caller {
    /// One that made no call yet.
    pub fn new(row: Row) -> Caller {
        Caller {
            row,
            random: Random::begun_at(START),
            now: 0,
            packet: packet(),
            description: description(),
            sequences: [0; 1024],
            room: [0; 1472],
            digest: Digest::new(),
        }
    }

    /// The digest of what is answered to all calls, and of what is known of each source after them.
    pub fn answers<T: MemberTable>(
        mut self,
        call: Call,
        participant: &mut Participant<T>,
    ) -> Digest {
        self.begin(participant);
        match call {
            Call::Present => self.present(participant),
            Call::Absent => self.absent(participant),
            Call::Tick => self.ticks(participant),
            Call::Walk => self.walk(participant),
            Call::Members => self.members(participant),
        }
        for state in participant.sources() {
            mix_source(&mut self.digest, &state);
        }
        self.digest
    }

    /// The first report goes out, from which on a source may be silent for 25 seconds. Then all sources describe
    /// themselves, and send two packets each.
    fn begin<T: MemberTable>(&mut self, participant: &mut Participant<T>) {
        self.now = participant.next().unwrap_or(0);
        let reply = participant.tick_into(self.now, 0, 0, &mut self.room);
        mix_reply(&mut self.digest, &reply);
        for source in 0..self.row.sources {
            self.describe(source, participant);
            self.speak(source, participant);
            self.speak(source, participant);
        }
    }

    /// Packets of sources.
    fn present<T: MemberTable>(&mut self, participant: &mut Participant<T>) {
        for _ in 0..self.row.count {
            let source = self.any_source();
            self.speak(source, participant);
        }
    }

    /// Packets of others, to a full table.
    fn absent<T: MemberTable>(&mut self, participant: &mut Participant<T>) {
        for _ in 0..self.row.count {
            let ssrc = self.random.word();
            self.come(ssrc, 1, participant);
        }
    }

    /// Two sources describe themselves, and a tick comes.
    fn ticks<T: MemberTable>(&mut self, participant: &mut Participant<T>) {
        let mut source = 0;
        for _ in 0..self.row.count {
            for _ in 0..2 {
                self.now = self.now.wrapping_add(BETWEEN);
                self.describe(source, participant);
                source = self.after(source);
            }
            // A little later, so that the oldest moment that the last tick saw is no longer recent.
            let now = self.now.wrapping_add(BETWEEN - 1);
            let words = [self.random.word(), self.random.word()];
            let reply = participant.tick_into(now, words[0], words[1], &mut self.room);
            mix_reply(&mut self.digest, &reply);
        }
    }

    /// The sources, one after the other, and again from the first.
    fn walk<T: MemberTable>(&mut self, participant: &mut Participant<T>) {
        let mut after = None;
        for _ in 0..self.row.count {
            let state = participant.source_above(after);
            after = state.map(|told| told.ssrc);
            if let Some(told) = state {
                mix_source(&mut self.digest, &told);
            }
        }
    }

    /// How many members there are, after a datagram that changes nothing.
    fn members<T: MemberTable>(&mut self, participant: &mut Participant<T>) {
        for _ in 0..self.row.count {
            let reply = participant.arrive_rtp_into(self.now, 1, 0, &[], &mut self.room);
            mix_reply(&mut self.digest, &reply);
            self.digest.number(u64::from(participant.members()));
        }
    }

    /// A source describes itself.
    fn describe<T: MemberTable>(&mut self, source: u32, participant: &mut Participant<T>) {
        let ssrc = self.row.shape.ssrc_of(source, self.row.sources);
        self.description[4..8].copy_from_slice(&ssrc.to_be_bytes());
        self.description[12..16].copy_from_slice(&ssrc.to_be_bytes());
        let octets = &self.description;
        let reply = participant.arrive_rtcp_into(self.now, 1, 0, octets, &mut self.room);
        mix_reply(&mut self.digest, &reply);
    }

    /// A source sends its next packet.
    fn speak<T: MemberTable>(&mut self, source: u32, participant: &mut Participant<T>) {
        let ssrc = self.row.shape.ssrc_of(source, self.row.sources);
        let sequence = &mut self.sequences[(source % 1_024) as usize];
        *sequence = sequence.wrapping_add(1);
        let number = *sequence;
        self.come(ssrc, number, participant);
    }

    /// A packet comes.
    fn come<T: MemberTable>(&mut self, ssrc: u32, sequence: u16, participant: &mut Participant<T>) {
        self.packet[2..4].copy_from_slice(&sequence.to_be_bytes());
        self.packet[8..12].copy_from_slice(&ssrc.to_be_bytes());
        let octets = &self.packet;
        let reply = participant.arrive_rtp_into(self.now, 1, 0, octets, &mut self.room);
        mix_reply(&mut self.digest, &reply);
    }

    /// A source chosen at random.
    fn any_source(&mut self) -> u32 {
        ((u64::from(self.random.word()) * u64::from(self.row.sources)) >> 32) as u32
    }

    /// The source whose turn it is after another.
    fn after(&self, source: u32) -> u32 {
        let next = source.wrapping_add(1);
        if next < self.row.sources { next } else { 0 }
    }
}

/// An RTP packet of 20 ms of audio of nobody: the head, and 160 octets of payload (RFC 3550, 5.1).
fn packet() -> [u8; 172] {
    let mut octets = [0x55; 172];
    octets[0] = 0x80;
    octets[1] = 0;
    octets
}

/// An empty receiver report and a CNAME, of nobody (RFC 3550, 6.4.2 and 6.5).
fn description() -> [u8; 36] {
    let mut octets = [0; 36];
    octets[0..4].copy_from_slice(&[0x80, 0xc9, 0, 1]);
    octets[8..12].copy_from_slice(&[0x81, 0xca, 0, 6]);
    octets[16..34].copy_from_slice(b"\x01\x10jalwedd.example.");
    octets
}
