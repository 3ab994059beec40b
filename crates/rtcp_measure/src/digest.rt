//! A digest of results.

ghost use Rattle.std.specs.Prelude.{◌<◌};

use rtcp_engine::{Change, OutKind, Reply, Role, WrittenStep};
use rtcp_members::SourceState;
use std::fmt;
use std::fmt::Write;

/// What was mixed so far, each number at its place.
#[derive(Clone, Copy, Debug)]
pub struct Digest {
    value: u64,
}

impl Digest {
    /// The digest of nothing.
    pub fn new() -> Digest {
        Digest {
            value: 0x243f_6a88_85a3_08d3,
        }
    }

    /// What was mixed so far.
    pub fn value(self) -> u64 {
        self.value
    }

    /// Mixes a number.
    pub fn number(&mut self, number: u64) {
        let mixed = (self.value ^ number).wrapping_mul(0x9e37_79b9_7f4a_7c15);
        self.value = mixed ^ (mixed >> 29);
    }

    /// Mixes octets, eight at a time, and how many there are.
    pub fn octets(&mut self, octets: &[u8]) {
        self.number(octets.len() as u64);
        let words = octets.len() / 8;
        for number in 0..words {
            let at = 8 * number;
            self.number(u64::from_le_bytes([
                octets[at],
                octets[at + 1],
                octets[at + 2],
                octets[at + 3],
                octets[at + 4],
                octets[at + 5],
                octets[at + 6],
                octets[at + 7],
            ]));
        }
        for octet in &octets[8 * words..] {
            self.number(u64::from(*octet));
        }
    }

    /// Mixes what a call answered, and the compound that it wrote, if it did.
    pub fn reply(&mut self, reply: &Reply, room: &[u8; 1472]) {
        match reply {
            Ok(told) => self.told(told, room),
            Err(refusal) => self.error(refusal),
        }
    }

    /// Mixes how a run ended: well, or with which error.
    pub fn outcome<E: fmt::Display>(&mut self, outcome: &Result<(), E>) {
        match outcome {
            Ok(()) => self.number(0),
            Err(error) => self.error(error),
        }
    }

    /// Mixes an error, by the words that tell it from all others.
    fn error<E: fmt::Display>(&mut self, error: &E) {
        self.number(u64::MAX);
        let _ = write!(self, "{error}");
    }

    /// Mixes what a call that was taken answered.
    fn told(&mut self, told: &WrittenStep, room: &[u8; 1472]) {
        let standing = told.standing;
        self.numbers(&[
            pair(standing.members, standing.senders),
            (u64::from(standing.entries) << 1) ^ u64::from(told.others_changed),
            standing.next.unwrap_or(u64::MAX),
            told.changed.map_or(u64::MAX, u64::from),
            told.out.map_or(0, |out| kind_number(out.kind)),
        ]);
        if let Some(out) = told.out {
            self.octets(&room[..out.size.min(1472)]);
        }
    }

    /// Mixes what is told of a source.
    pub fn source(&mut self, state: &SourceState) {
        let roles = (u64::from(state.is_member) << 1) ^ u64::from(state.is_sender);
        let received = state.reception.map_or([u64::MAX, 0, 0, 0], |reception| {
            let lost = u32::from_ne_bytes(reception.lost.to_ne_bytes());
            [
                reception.received,
                pair(reception.highest, reception.jitter),
                pair(lost, reception.rate),
                reception.octets,
            ]
        });
        let told = state.told.map_or([u64::MAX, 0, 0], |told| {
            [told.moment, told.ntp, u64::from(told.rtp)]
        });
        let block = state.last_block.map_or(u64::MAX, |block| {
            pair(u32::from(block.fraction), block.highest)
        });
        self.numbers(&[
            (u64::from(state.ssrc) << 2) ^ roles,
            state.heard,
            state.left.unwrap_or(u64::MAX),
            received[0],
            received[1],
            received[2],
            received[3],
            told[0],
            told[1],
            told[2],
            block,
        ]);
    }

    /// Mixes a change.
    pub fn change(&mut self, change: &Change) {
        let roles = role_number(change.was) * 3 + role_number(change.is);
        self.number((u64::from(change.ssrc) << 8) ^ (roles * 2 + u64::from(change.has_left)));
    }

    /// Mixes numbers, each at its place.
    #[inline(always)]
    fn numbers(&mut self, numbers: &[u64]) {
        let mut sum: u64 = 0;
        let mut factor: u64 = 0x9e37_79b9_7f4a_7c15;
        for number in numbers {
            sum = sum.wrapping_add(number.wrapping_mul(factor));
            factor = factor.wrapping_mul(0xd134_2543_de82_ef95);
        }
        self.number(sum);
    }
}

impl fmt::Write for Digest {
    fn write_str(&mut self, text: &str) -> fmt::Result {
        self.octets(text.as_bytes());
        Ok(())
    }
}

/// A number for a role, below 3.
fn role_number(role: Role) -> u64
    ensures { result < 3 }
{
    match role {
        Role::Away => 0,
        Role::Member => 1,
        Role::Sender => 2,
    }
}

/// A number for what a compound is, above 0.
fn kind_number(kind: OutKind) -> u64 {
    match kind {
        OutKind::Report => 1,
        OutKind::Bye => 2,
    }
}

/// Two words as a number.
fn pair(high: u32, low: u32) -> u64 {
    (u64::from(high) << 32) ^ u64::from(low)
}
