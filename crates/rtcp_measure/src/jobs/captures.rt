//! An engineer's captures: texts of hex lines for a check. Half of the lines are a short report with a description,
//! a fifth are sender reports with 31 blocks, a fifth have several packets, and a tenth have a damaged octet.

use crate::digest::Digest;
use crate::jobs::datagram::Datagram;
use crate::jobs::digits::HexLine;
use crate::random::Random;
use rtcp_text::Counted;
use rtcp_text::check::check;
use std::alloc::{AllocError, Global};

/// How many lines a text has.
const LINES: u32 = 4_096;

/// A kind of line: the words that stay, and which may change.
#[derive(Drop)]
struct Kind {
    line: HexLine,
    first_block: usize,
    blocks: u32,
}

/// What the lines are made of.
#[derive(Drop)]
struct Capture {
    random: Random,
    short: HexLine,
    full: Kind,
    several: Kind,
    damaged: Kind,
}

/// The digest of so many texts.
///
/// # Errors
///
/// There is no memory.
pub fn run(alloc: Global, texts: u32, seed: u32) -> Result<Digest, AllocError> {
    let mut random = Random::new(seed);
    let mut capture = Capture {
        random,
        short: short_line(),
        full: full_kind(&mut random),
        several: several_kind(&mut random),
        damaged: several_kind(&mut random),
    };
    let mut digest = Digest::new();
    let mut text = Vec::new(alloc);
    for _ in 0..texts {
        text.clear();
        for _ in 0..LINES {
            capture.push_line(&mut text)?;
        }
        let mut reader = Counted::new(text.as_slice());
        let mut writer = Counted::new(Vec::new(alloc));
        let checked = check(alloc, &mut reader, &mut writer);
        digest.outcome(&checked);
        let answers = writer.into_inner();
        digest.octets(answers.as_slice());
    }
    Ok(digest)
}

impl Capture {
    /// Appends a line, which differs from each before it.
    fn push_line(&mut self, text: &mut Vec<u8>) -> Result<(), AllocError> {
        match self.random.below(10) {
            0..=4 => {
                let ssrc = self.random.word();
                self.short.set(1, ssrc);
                self.short.set(3, ssrc);
                text.extend_from_slice(self.short.as_slice())
            }
            5 | 6 => {
                self.full.vary(&mut self.random);
                text.extend_from_slice(self.full.line.as_slice())
            }
            7 | 8 => {
                self.several.vary(&mut self.random);
                text.extend_from_slice(self.several.line.as_slice())
            }
            _ => self.push_damaged(text),
        }
    }

    /// Appends a line with a random octet.
    fn push_damaged(&mut self, text: &mut Vec<u8>) -> Result<(), AllocError> {
        self.damaged.vary(&mut self.random);
        let start = text.len();
        text.extend_from_slice(self.damaged.line.as_slice())?;
        let at = start.saturating_add(self.random.below(2_700) as usize);
        let word = self.random.word();
        if let Some(digit) = text.as_mut_slice().get_mut(at) {
            *digit = b"0123456789abcdef"[(word % 16) as usize];
        }
        // The line feed is put again, where the digit took its place.
        if let Some(last) = text.as_mut_slice().last_mut() {
            *last = b'\n';
        }
        Ok(())
    }
}

impl Kind {
    /// Changes the sender's timestamps and a quarter of the blocks.
    fn vary(&mut self, random: &mut Random) {
        self.line.set(1, random.word());
        self.line.set(3, random.word());
        self.line.set(4, random.word());
        let from = random.below(4) as usize;
        for number in 0..self.blocks / 4 {
            let at = self
                .first_block
                .saturating_add(24 * number as usize)
                .saturating_add(6 * from);
            self.line.set(at, random.word());
            self.line
                .set(at.saturating_add(1), random.word() & 0x0700_007f);
            self.line
                .set(at.saturating_add(2), random.word() & 0x0003_ffff);
            self.line
                .set(at.saturating_add(3), random.word() & 0x0000_03ff);
            self.line.set(at.saturating_add(4), random.word());
            self.line
                .set(at.saturating_add(5), random.word() & 0x0007_ffff);
        }
    }
}

/// An empty report with a description: 20 octets.
fn short_line() -> HexLine {
    let mut line = HexLine::new();
    line.push(0x80c9_0001);
    line.push(0);
    line.push(0x81ca_0002);
    line.push(0);
    line.push(0x0101_6100);
    line
}

/// A sender report with 31 blocks, and a description.
fn full_kind(random: &mut Random) -> Kind {
    let mut datagram = Datagram::new();
    put_full(&mut datagram, random);
    datagram.description(7);
    kind_of(&datagram)
}

/// A sender report with 31 blocks, a receiver report with 17, eight descriptions and a BYE.
fn several_kind(random: &mut Random) -> Kind {
    let mut datagram = Datagram::new();
    put_full(&mut datagram, random);
    datagram.word(0x91c9_0067);
    datagram.word(random.word());
    for _ in 0..17 {
        let about = random.word();
        datagram.block(about, random);
    }
    datagram.word(0x88ca_0030);
    for _ in 0..8 {
        datagram.chunk(random.word());
    }
    datagram.word(0x82cb_0004);
    datagram.word(random.word());
    datagram.word(random.word());
    datagram.word(0x0662_7965);
    datagram.word(0x2062_7965);
    kind_of(&datagram)
}

/// A datagram that begins with a sender report with 31 blocks.
fn kind_of(datagram: &Datagram) -> Kind {
    let mut line = HexLine::new();
    line.push_octets(datagram.as_slice());
    Kind {
        line,
        first_block: 7,
        blocks: 31,
    }
}

/// Puts a sender report with 31 blocks.
fn put_full(datagram: &mut Datagram, random: &mut Random) {
    datagram.word(0x9fc8_00c0);
    datagram.word(random.word());
    datagram.sender(random);
    for _ in 0..31 {
        let about = random.word();
        datagram.block(about, random);
    }
}
