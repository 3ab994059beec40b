//! A session that is watched.

use arrayvec::ArrayVec;
use rtcp_alarm::{AlarmLimits, AlarmWatcher, Bell, Raised};
use rtcp_engine::{Answer, Config, Event, Participant};
use rtcp_guarded::Untaken;
use rtcp_members::SortedTable;
use rtcp_serve::Observer;
use std::test::Fail;

/// The configuration of `--ssrc 000000aa --cname a`.
fn config() -> Config {
    let mut cname = ArrayVec::new();
    let _ = cname.try_push(b'a');
    Config {
        ssrc: 0xaa,
        cname,
        extras: ArrayVec::new(),
        capacity: 1_024,
        limit: 1_472,
        sender_bw: 100,
        receiver_bw: 300,
        rate: 8_000,
        clocks: ArrayVec::new(),
        ntp_base: 0,
    }
}

/// A participant at its start, with the start word 0. Its first report is due at 1,026,037.
pub(crate) fn participant() -> Result<Participant<SortedTable>, Fail> {
    match Participant::new(config(), 0) {
        Ok(participant) => Ok(participant),
        Err(_) => Err("the configuration is refused")?,
    }
}

/// Limits of a loss, and of a silence.
pub(crate) fn limits(loss: Option<u32>, silence: Option<u32>) -> AlarmLimits {
    AlarmLimits { loss, silence }
}

/// A participant, and what watches it.
#[derive(Drop)]
pub(crate) struct Session<'b> {
    participant: Participant<SortedTable>,
    watcher: AlarmWatcher<'b>,
}

impl<'b> Session<'b> {
    /// A session that begins.
    pub(crate) fn new(limits: AlarmLimits, bell: &'b Bell) -> Result<Session<'b>, Fail> {
        Ok(Session {
            participant: participant()?,
            watcher: AlarmWatcher::new(limits, bell),
        })
    }

    /// What was raised.
    pub(crate) fn raised(&self) -> Option<Raised> {
        self.watcher.raised()
    }

    fn watch(&mut self, event: &Event<'_>, answer: Answer) {
        let answer = answer.map_err(Untaken::Refused);
        self.watcher.told(event, &answer, &self.participant);
    }

    /// A packet of a source below 256, of 20 milliseconds.
    pub(crate) fn rtp(&mut self, now: u64, ssrc: u8, number: u8) {
        let [_, _, high, low] = (u32::from(number) * 160).to_be_bytes();
        self.datagram(now, &[0x80, 0, 0, number, 0, 0, high, low, 0, 0, 0, ssrc]);
    }

    /// The packets from 1 to 9 of a source but the sixth: the first makes it valid, and of the eight packets after it
    /// one is lost.
    pub(crate) fn lossy(&mut self, now: u64, ssrc: u8) {
        for number in [1, 2, 3, 4, 5, 7, 8, 9] {
            self.rtp(now, ssrc, number);
        }
    }

    /// What comes to the port of RTP.
    pub(crate) fn datagram(&mut self, now: u64, bytes: &[u8]) {
        let answer = self.participant.arrive_rtp(now, 0, 0, bytes);
        let event = Event::ArriveRtp {
            now,
            peer: 0,
            w: 0,
            bytes,
        };
        self.watch(&event, answer);
    }

    /// The compound of a source, a receiver report without blocks.
    pub(crate) fn rtcp(&mut self, now: u64) {
        let bytes = [0x80, 0xc9, 0, 1, 0, 0, 0, 7];
        let answer = self.participant.arrive_rtcp(now, 0, 0, &bytes);
        let event = Event::ArriveRtcp {
            now,
            peer: 0,
            w: 0,
            bytes: &bytes,
        };
        self.watch(&event, answer);
    }

    /// What was raised up to a tick at this moment.
    pub(crate) fn tick(&mut self, now: u64) -> Option<Raised> {
        let answer = self.participant.tick(now, 0, 0);
        self.watch(&Event::Tick { now, w1: 0, w2: 0 }, answer);
        self.raised()
    }

    pub(crate) fn leave(&mut self, now: u64) {
        let answer = self.participant.leave(now, 0);
        self.watch(&Event::Leave { now, w: 0 }, answer);
    }
}
