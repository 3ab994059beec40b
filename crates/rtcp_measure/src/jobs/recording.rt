//! A recorded session that is played again: mostly RTP packets of 20 sources, a compound now and then, what the host
//! sent, and ticks.

use crate::digest::Digest;
use crate::jobs::datagram::{Datagram, Media};
use crate::jobs::digits::{HexLine, hex_word};
use crate::jobs::host::{Setup, configured};
use crate::random::{Random, ssrc_of};
use itoa::Buffer;
use rtcp_text::Counted;
use rtcp_text::replay::replay;
use std::alloc::{AllocError, Global};

/// How many lines a recording has.
const LINES: u32 = 60_000;

/// How many sources speak.
const SOURCES: u32 = 20;

/// What a recording is made of.
#[derive(Drop)]
struct Recorder {
    seed: u32,
    random: Random,
    now: u64,
    packet: HexLine,
    report: HexLine,
    sequences: [u16; 32],
}

/// The digest of so many recordings, played again.
///
/// # Errors
///
/// There is no memory.
pub fn run(alloc: Global, recordings: u32, seed: u32) -> Result<Digest, AllocError> {
    let mut random = Random::new(seed);
    let mut recorder = Recorder {
        seed,
        random,
        now: 0,
        packet: packet_line(),
        report: report_line(&mut random),
        sequences: [0; 32],
    };
    let mut digest = Digest::new();
    let mut text = Vec::new(alloc);
    for _ in 0..recordings {
        text.clear();
        recorder.now = 0;
        for _ in 0..LINES {
            recorder.push_line(&mut text)?;
        }
        let setup = Setup {
            ssrc: ssrc_of(seed, 0, SOURCES),
            capacity: 64,
            bandwidth: 12_800,
            word: recorder.random.word(),
        };
        let mut reader = Counted::new(text.as_slice());
        let mut writer = Counted::new(Vec::new(alloc));
        let played = replay(
            alloc,
            &mut reader,
            &mut writer,
            configured(setup),
            setup.word,
        );
        digest.outcome(&played);
        let answers = writer.into_inner();
        digest.octets(answers.as_slice());
    }
    Ok(digest)
}

impl Recorder {
    /// Appends a line.
    fn push_line(&mut self, text: &mut Vec<u8>) -> Result<(), AllocError> {
        self.now = self.now.saturating_add(1_000);
        match self.random.below(64) {
            0 => self.push_report(text),
            1 => {
                text.extend_from_slice(b"tick ")?;
                self.push_moment(text)?;
                text.extend_from_slice(&hex_word(self.random.word()))?;
                text.extend_from_slice(b" ")?;
                text.extend_from_slice(&hex_word(self.random.word()))?;
                text.extend_from_slice(b"\n")
            }
            2 | 3 => {
                text.extend_from_slice(b"sent ")?;
                self.push_moment(text)?;
                text.extend_from_slice(b"123456789 160\n")
            }
            _ => self.push_packet(text),
        }
    }

    /// Appends the moment and a space.
    fn push_moment(&mut self, text: &mut Vec<u8>) -> Result<(), AllocError> {
        let mut digits = Buffer::new();
        text.extend_from_slice(digits.format(self.now).as_bytes())?;
        text.extend_from_slice(b" ")
    }

    /// Appends a packet of a source, of which some words of the payload differ.
    fn push_packet(&mut self, text: &mut Vec<u8>) -> Result<(), AllocError> {
        text.extend_from_slice(b"rtp ")?;
        self.push_moment(text)?;
        text.extend_from_slice(b"2130706433 00000000 ")?;
        let source = self.random.below(SOURCES);
        let next = &mut self.sequences[(source % 32) as usize];
        *next = next.wrapping_add(1);
        self.packet.set(0, 0x8000_0000 ^ u32::from(*next));
        self.packet.set(1, ((self.now / 125) & 0xffff_ffff) as u32);
        self.packet.set(2, ssrc_of(self.seed, 0, source));
        for _ in 0..4 {
            let at = self.random.below(40) as usize;
            self.packet.set(at.saturating_add(3), self.random.word());
        }
        text.extend_from_slice(self.packet.as_slice())
    }

    /// Appends a sender report of a source with its description.
    fn push_report(&mut self, text: &mut Vec<u8>) -> Result<(), AllocError> {
        text.extend_from_slice(b"rtcp ")?;
        self.push_moment(text)?;
        text.extend_from_slice(b"2130706434 00000000 ")?;
        let source = self.random.below(SOURCES);
        let ssrc = ssrc_of(self.seed, 0, source);
        self.report.set(1, ssrc);
        self.report.set(2, self.random.word());
        self.report.set(3, self.random.word());
        self.report.set(14, ssrc);
        text.extend_from_slice(self.report.as_slice())
    }
}

/// An RTP packet of 172 octets.
fn packet_line() -> HexLine {
    let mut line = HexLine::new();
    line.push_octets(Media::new().as_slice());
    line
}

/// A sender report with a block, and a description.
fn report_line(random: &mut Random) -> HexLine {
    let mut datagram = Datagram::new();
    datagram.send(7, 7, random);
    let mut line = HexLine::new();
    line.push_octets(datagram.as_slice());
    line
}
