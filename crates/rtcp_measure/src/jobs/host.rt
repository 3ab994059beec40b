//! One participant as a host keeps it: its table on the heap, and the room for its compounds.

use crate::digest::Digest;
use crate::random::Random;
use arrayvec::ArrayVec;
use rtcp_engine::{Config, Participant, Reply};
use rtcp_members::{HeapTable, SourceState};
use std::alloc::{AllocError, Global};

/// A session's host.
#[derive(Drop)]
pub struct Host {
    participant: Participant<HeapTable>,
    room: [u8; 1472],
    next: u64,
}

/// How a session is set up.
#[derive(Clone, Copy, Debug)]
pub struct Setup {
    /// The own SSRC.
    pub ssrc: u32,
    /// How many others it follows at most.
    pub capacity: u32,
    /// The bandwidth of all RTCP in octets a second.
    pub bandwidth: u32,
    /// The random word of the start.
    pub word: u32,
}

/// The configuration of a setup.
pub fn configured(setup: Setup) -> Config {
    let mut cname = ArrayVec::new();
    let _ = cname.try_extend_from_slice(b"jalwedd@example.com");
    let senders = setup.bandwidth / 4;
    Config {
        ssrc: setup.ssrc,
        cname,
        extras: ArrayVec::new(),
        capacity: setup.capacity,
        limit: 1_472,
        sender_bw: senders,
        receiver_bw: setup.bandwidth - senders,
        rate: 8_000,
        clocks: ArrayVec::new(),
        ntp_base: 0xeead_0eea_0000_0000,
    }
}

impl Host {
    /// The host of a session that begins, or `None` where the setup is refused.
    ///
    /// # Errors
    ///
    /// There is no memory.
    pub fn new(alloc: Global, setup: Setup) -> Result<Option<Host>, AllocError> {
        let config = configured(setup);
        if let Some(_) = config.error() {
            return Ok(None);
        }
        let table = HeapTable::with_room(alloc, config.capacity)?;
        let participant = Participant::with_table(config, table, setup.word);
        let next = participant.next().unwrap_or(u64::MAX);
        Ok(Some(Host {
            participant,
            room: [0; 1472],
            next,
        }))
    }

    /// An RTP datagram came. Returns whether who is there changed.
    pub fn rtp(
        &mut self,
        now: u64,
        peer: u64,
        word: u32,
        octets: &[u8],
        digest: &mut Digest,
    ) -> bool {
        let reply = self
            .participant
            .arrive_rtp_into(now, peer, word, octets, &mut self.room);
        self.take(&reply, digest)
    }

    /// An RTCP datagram came. Returns whether who is there changed.
    pub fn rtcp(
        &mut self,
        now: u64,
        peer: u64,
        word: u32,
        octets: &[u8],
        digest: &mut Digest,
    ) -> bool {
        let reply = self
            .participant
            .arrive_rtcp_into(now, peer, word, octets, &mut self.room);
        self.take(&reply, digest)
    }

    /// The host sent a packet of 160 octets.
    pub fn sent(&mut self, now: u64, timestamp: u32, digest: &mut Digest) {
        let reply = self
            .participant
            .sent_rtp_into(now, timestamp, 160, &mut self.room);
        digest.reply(&reply, &self.room);
    }

    /// A tick. Returns whether who is there changed.
    pub fn tick(&mut self, now: u64, random: &mut Random, digest: &mut Digest) -> bool {
        let first = random.word();
        let second = random.word();
        let reply = self
            .participant
            .tick_into(now, first, second, &mut self.room);
        self.take(&reply, digest)
    }

    /// Mixes a reply. Returns whether who is there changed.
    fn take(&mut self, reply: &Reply, digest: &mut Digest) -> bool {
        digest.reply(reply, &self.room);
        match reply {
            Ok(told) => {
                self.next = told.standing.next.unwrap_or(u64::MAX);
                told.others_changed
            }
            Err(_) => false,
        }
    }

    /// A tick, where the moment for it has come.
    pub fn tick_if_due(&mut self, now: u64, random: &mut Random, digest: &mut Digest) -> bool {
        self.next <= now && self.tick(now, random, digest)
    }

    /// Leaves.
    pub fn leave(&mut self, now: u64, word: u32, digest: &mut Digest) {
        let reply = self.participant.leave_into(now, word, &mut self.room);
        digest.reply(&reply, &self.room);
    }

    /// Mixes who is there.
    pub fn look(&self, digest: &mut Digest) {
        for state in self.participant.sources() {
            digest.source(&state);
        }
    }

    /// Makes `listing` who is there.
    ///
    /// # Errors
    ///
    /// There is no memory.
    pub fn list(&self, listing: &mut Vec<SourceState>) -> Result<(), AllocError> {
        listing.clear();
        for state in self.participant.sources() {
            listing.push(state)?;
        }
        Ok(())
    }
}
