//! Who is there: each second, sessions of 1,000 sources are listed, and what changed since the last listing is told.

use crate::digest::Digest;
use crate::jobs::datagram::Traffic;
use crate::jobs::host::{Host, Setup};
use crate::random::{Random, ssrc_of};
use rtcp_engine::{Changes, is_rising};
use rtcp_members::SourceState;
use std::alloc::{AllocError, Global};

/// How many sessions there are.
const SESSIONS: u32 = 4;

/// How many sources a session has.
const SOURCES: u32 = 1_000;

/// A session, and its last two listings.
#[derive(Drop)]
struct Watched {
    host: Host,
    before: Vec<SourceState>,
    after: Vec<SourceState>,
}

/// The digest of so many seconds.
///
/// # Errors
///
/// There is no memory.
pub fn run(alloc: Global, seconds: u32, seed: u32) -> Result<Digest, AllocError> {
    let mut random = Random::new(seed);
    let mut all = Vec::new(alloc);
    for number in 0..SESSIONS {
        let setup = Setup {
            ssrc: ssrc_of(seed, number, SOURCES),
            capacity: 1_024,
            bandwidth: 12_800,
            word: random.word(),
        };
        if let Some(host) = Host::new(alloc, setup)? {
            all.push(Watched {
                host,
                before: Vec::new(alloc),
                after: Vec::new(alloc),
            })?;
        }
    }
    let mut traffic = Traffic::new(seed, random);
    let mut digest = Digest::new();
    for second in 0..seconds {
        for number in 0..SESSIONS {
            if let Some(watched) = all.as_mut_slice().get_mut(number as usize) {
                traffic.second(second, number, &mut watched.host, &mut digest);
                watched.look(&mut digest)?;
            }
        }
    }
    Ok(digest)
}

impl Traffic {
    /// What comes to a session in a second: descriptions of most, packets of some, and a BYE now and then.
    fn second(&mut self, second: u32, number: u32, host: &mut Host, digest: &mut Digest) {
        let now = u64::from(second) * 1_000_000;
        let count = if second == 0 { SOURCES } else { 60 };
        for turn in 0..count {
            let source = if second == 0 {
                turn
            } else {
                self.random.below(SOURCES)
            };
            let ssrc = ssrc_of(self.seed, number, source);
            if turn % 16 == 15 {
                self.media.of(ssrc, (second & 0xffff) as u16, second);
                host.rtp(now, 1, 0, self.media.as_slice(), digest);
            } else if turn % 64 == 8 {
                self.report.leave(ssrc);
                host.rtcp(now, 1, 0, self.report.as_slice(), digest);
            } else {
                self.report.describe(ssrc, number, &mut self.random);
                host.rtcp(now, 1, 0, self.report.as_slice(), digest);
            }
        }
        host.tick(now, &mut self.random, digest);
    }
}

impl Watched {
    /// Lists who is there, and mixes what changed.
    fn look(&mut self, digest: &mut Digest) -> Result<(), AllocError> {
        self.host.list(&mut self.after)?;
        let (before, after) = (self.before.as_slice(), self.after.as_slice());
        if is_rising(before) && is_rising(after) {
            for change in Changes::of(before, after) {
                digest.change(&change);
            }
        }
        for state in after {
            digest.source(state);
        }
        std::mem::swap(&mut self.before, &mut self.after);
        Ok(())
    }
}
