//! The awkward one: sessions that are flooded. A thousand join at once, then come invented SSRCs by the thousand to
//! a full table, damaged datagrams, compounds about 31 sources in no order, CSRC lists and the own SSRC, all leave at
//! once, and hundreds are timed out by one tick.

use crate::digest::Digest;
use crate::jobs::datagram::{Datagram, Media};
use crate::jobs::host::{Host, Setup};
use crate::random::{Random, ssrc_of};
use std::alloc::{AllocError, Global};

/// How many join.
const MEMBERS: u32 = 1_000;

/// One flooded session.
#[derive(Drop)]
struct Flood<'a> {
    seed: u32,
    number: u32,
    random: &'a mut Random,
    own: u32,
    now: u64,
    datagram: Datagram,
    media: Media,
}

/// The digest of so many floods.
///
/// # Errors
///
/// There is no memory.
pub fn run(alloc: Global, floods: u32, seed: u32) -> Result<Digest, AllocError> {
    let mut random = Random::new(seed);
    let mut digest = Digest::new();
    for number in 0..floods {
        let own = random.word();
        let setup = Setup {
            ssrc: own,
            capacity: 1_024,
            bandwidth: 12_800,
            word: random.word(),
        };
        if let Some(mut host) = Host::new(alloc, setup)? {
            let mut flood = Flood {
                seed,
                number,
                random: &mut random,
                own,
                now: 0,
                datagram: Datagram::new(),
                media: Media::new(),
            };
            flood.pass(&mut host, &mut digest);
        }
    }
    Ok(digest)
}

impl<'a> Flood<'a> {
    /// All of a flood.
    fn pass(&mut self, host: &mut Host, digest: &mut Digest) {
        self.join(host, digest);
        self.invent(host, digest);
        self.damage(host, digest);
        self.tell_many(host, digest);
        self.contribute(host, digest);
        self.collide(host, digest);
        self.depart(host, digest);
        self.time_out(host, digest);
        host.leave(self.now, self.random.word(), digest);
        host.tick(self.now, self.random, digest);
    }

    /// Time goes on.
    fn step(&mut self, microseconds: u64, host: &mut Host, digest: &mut Digest) {
        self.now = self.now.saturating_add(microseconds);
        if host.tick_if_due(self.now, self.random, digest) {
            host.look(digest);
        }
    }

    /// All members report for the first time, and send a packet.
    fn join(&mut self, host: &mut Host, digest: &mut Digest) {
        for member in 0..MEMBERS {
            self.step(50, host, digest);
            let ssrc = ssrc_of(self.seed, self.number, member);
            self.datagram.describe(ssrc, 7, self.random);
            host.rtcp(self.now, 1, 0, self.datagram.as_slice(), digest);
            self.media.of(ssrc, 1, member);
            host.rtp(self.now, 1, 0, self.media.as_slice(), digest);
        }
    }

    /// SSRCs are invented, by packets and by reports.
    fn invent(&mut self, host: &mut Host, digest: &mut Digest) {
        for count in 0..2_000 {
            self.step(20, host, digest);
            let ssrc = self.random.word();
            if count % 4 == 0 {
                self.datagram.describe(ssrc, 7, self.random);
                host.rtcp(self.now, 1, 0, self.datagram.as_slice(), digest);
            } else {
                self.media.of(ssrc, 1, count);
                host.rtp(self.now, 1, 0, self.media.as_slice(), digest);
            }
        }
    }

    /// Datagrams come with a changed octet.
    fn damage(&mut self, host: &mut Host, digest: &mut Digest) {
        for _ in 0..1_000 {
            self.step(50, host, digest);
            self.chunks();
            self.datagram.damage(self.random);
            host.rtcp(self.now, 1, 0, self.datagram.as_slice(), digest);
        }
    }

    /// Compounds come that describe 31 sources, in no order.
    fn tell_many(&mut self, host: &mut Host, digest: &mut Digest) {
        for _ in 0..500 {
            self.step(50, host, digest);
            self.chunks();
            host.rtcp(self.now, 1, 0, self.datagram.as_slice(), digest);
        }
    }

    /// Makes the datagram an empty report and 31 chunks.
    fn chunks(&mut self) {
        self.datagram.clear();
        self.datagram.word(0x80c9_0001);
        let reporter = self.member();
        self.datagram.word(reporter);
        self.datagram.word(0x9fca_00ba);
        for _ in 0..31 {
            let ssrc = self.member();
            self.datagram.chunk(ssrc);
        }
    }

    /// Packets come that were mixed of 15.
    fn contribute(&mut self, host: &mut Host, digest: &mut Digest) {
        for count in 0..1_000 {
            self.step(50, host, digest);
            self.datagram.clear();
            self.datagram.word(0x8f00_0000 ^ (2 + count));
            self.datagram.word(count);
            let mixer = ssrc_of(self.seed, self.number, 5);
            self.datagram.word(mixer);
            for _ in 0..15 {
                let ssrc = self.member();
                self.datagram.word(ssrc);
            }
            host.rtp(self.now, 1, 0, self.datagram.as_slice(), digest);
        }
    }

    /// Peers use the own SSRC.
    fn collide(&mut self, host: &mut Host, digest: &mut Digest) {
        for peer in 0..64 {
            self.step(50, host, digest);
            let word = self.member();
            self.datagram.describe(self.own, 7, self.random);
            host.rtcp(self.now, peer, word, self.datagram.as_slice(), digest);
        }
    }

    /// Half of the members leave.
    fn depart(&mut self, host: &mut Host, digest: &mut Digest) {
        for member in 0..MEMBERS / 2 {
            self.step(50, host, digest);
            self.datagram.leave(ssrc_of(self.seed, self.number, member));
            host.rtcp(self.now, 1, 0, self.datagram.as_slice(), digest);
        }
        host.look(digest);
    }

    /// The others are silent for long.
    fn time_out(&mut self, host: &mut Host, digest: &mut Digest) {
        for _ in 0..200 {
            self.step(1_000_000, host, digest);
            host.tick(self.now, self.random, digest);
        }
    }

    /// The SSRC of a member.
    fn member(&mut self) -> u32 {
        ssrc_of(self.seed, self.number, self.random.below(MEMBERS))
    }
}
