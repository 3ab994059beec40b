//! A broadcast: sessions of 1,000 members who come slowly, describe themselves every 80 seconds and seldom leave, two
//! that speak, and hosts that ask every 20 milliseconds whether a report is due.

use crate::digest::Digest;
use crate::jobs::datagram::Traffic;
use crate::jobs::host::{Host, Setup};
use crate::random::{Random, ssrc_of};
use std::alloc::{AllocError, Global};

/// How many sessions there are.
const SESSIONS: u32 = 8;

/// How many members a session has.
const MEMBERS: u32 = 1_000;

/// How many microseconds lie between two calls of a session's timer.
const TURN: u64 = 20_000;

/// The digest of so many turns of 20 milliseconds.
///
/// # Errors
///
/// There is no memory.
pub fn run(alloc: Global, turns: u32, seed: u32) -> Result<Digest, AllocError> {
    let mut random = Random::new(seed);
    let mut hosts = Vec::new(alloc);
    for number in 0..SESSIONS {
        let setup = Setup {
            ssrc: ssrc_of(seed, number, MEMBERS),
            capacity: 1_024,
            bandwidth: 1_600,
            word: random.word(),
        };
        if let Some(host) = Host::new(alloc, setup)? {
            hosts.push(host)?;
        }
    }
    let mut traffic = Traffic::new(seed, random);
    let mut digest = Digest::new();
    for turn in 0..turns {
        for number in 0..SESSIONS {
            if let Some(host) = hosts.as_mut_slice().get_mut(number as usize) {
                traffic.turn(turn, number, host, &mut digest);
            }
        }
    }
    Ok(digest)
}

impl Traffic {
    /// What comes to a session in one turn, and the tick.
    fn turn(&mut self, turn: u32, number: u32, host: &mut Host, digest: &mut Digest) {
        let now = u64::from(turn) * TURN;
        for speaker in 0..2 {
            let timestamp = turn.wrapping_mul(160);
            let sequence = (turn & 0xffff) as u16;
            self.media
                .of(ssrc_of(self.seed, number, speaker), sequence, timestamp);
            host.rtp(now, 1, 0, self.media.as_slice(), digest);
        }
        if turn % 4 == 0 || turn < MEMBERS {
            let member = if turn < MEMBERS {
                turn
            } else {
                self.random.below(MEMBERS)
            };
            let ssrc = ssrc_of(self.seed, number, member);
            if turn > MEMBERS && self.random.below(512) == 0 {
                self.report.leave(ssrc);
            } else {
                self.report.describe(ssrc, number, &mut self.random);
            }
            host.rtcp(now, 1, 0, self.report.as_slice(), digest);
        }
        if host.tick(now, &mut self.random, digest) {
            host.look(digest);
        }
    }
}
