//! A conference server: many sessions of 20 sources that speak, 50 packets a second each, on one core. Packets come
//! from any source of any session, one in 64 is lost, and each source reports every five seconds.

use crate::digest::Digest;
use crate::jobs::datagram::{Datagram, Media};
use crate::jobs::host::{Host, Setup};
use crate::random::{Random, share, ssrc_of};
use std::alloc::{AllocError, Global};

/// How many sessions there are.
const SESSIONS: u32 = 200;

/// How many sources a session has.
const SOURCES: u32 = 20;

/// How many microseconds lie between two packets of all.
const BETWEEN: u64 = 5;

/// One session of the server.
#[derive(Drop)]
struct Conference {
    host: Host,
    ssrcs: [u32; 32],
    sequences: [u16; 32],
}

/// What comes in.
#[derive(Drop)]
struct Traffic {
    random: Random,
    now: u64,
    media: Media,
    report: Datagram,
}

/// The digest of so many thousand packets.
///
/// # Errors
///
/// There is no memory.
pub fn run(alloc: Global, thousands: u32, seed: u32) -> Result<Digest, AllocError> {
    let mut random = Random::new(seed);
    let mut conferences = Vec::new(alloc);
    for number in 0..SESSIONS {
        let setup = Setup {
            ssrc: ssrc_of(seed, number, 32),
            capacity: 32,
            bandwidth: 12_800,
            word: random.word(),
        };
        if let Some(host) = Host::new(alloc, setup)? {
            conferences.push(Conference {
                host,
                ssrcs: ssrcs_of(seed, number),
                sequences: [0; 32],
            })?;
        }
    }
    let mut traffic = Traffic {
        random,
        now: 0,
        media: Media::new(),
        report: Datagram::new(),
    };
    let mut digest = Digest::new();
    for _ in 0..thousands {
        for _ in 0..1_000 {
            let bits = traffic.random.long();
            let number = share(bits, SESSIONS) as usize;
            if let Some(conference) = conferences.as_mut_slice().get_mut(number) {
                traffic.come(bits, conference, &mut digest);
            }
        }
    }
    Ok(digest)
}

impl Traffic {
    /// A datagram comes to a session, or its host sends.
    fn come(&mut self, bits: u64, conference: &mut Conference, digest: &mut Digest) {
        self.now = self.now.saturating_add(BETWEEN);
        let source = (share(bits >> 16, SOURCES) % 32) as usize;
        let ssrc = conference.ssrcs[source];
        let word = ((bits >> 32) & 0xffff_ffff) as u32;
        let host = &mut conference.host;
        let changed = match word % 256 {
            0 => {
                self.report.describe(ssrc, word, &mut self.random);
                host.rtcp(self.now, 1, word, self.report.as_slice(), digest)
            }
            1 => {
                self.report.send(ssrc, word, &mut self.random);
                host.rtcp(self.now, 1, word, self.report.as_slice(), digest)
            }
            2..=13 => {
                host.sent(self.now, word, digest);
                false
            }
            _ => {
                let next = &mut conference.sequences[source];
                *next = next.wrapping_add(if (word >> 8) % 64 == 0 { 2 } else { 1 });
                let timestamp = ((self.now >> 7) & 0xffff_ffff) as u32;
                self.media.of(ssrc, *next, timestamp);
                host.rtp(self.now, 1, word, self.media.as_slice(), digest)
            }
        };
        let ticked = host.tick_if_due(self.now, &mut self.random, digest);
        if changed || ticked {
            host.look(digest);
        }
    }
}

/// The SSRCs of a session's sources.
fn ssrcs_of(seed: u32, session: u32) -> [u32; 32] {
    let mut ssrcs = [0; 32];
    for source in 0..32 {
        ssrcs[source] = ssrc_of(seed, session, source as u32);
    }
    ssrcs
}
