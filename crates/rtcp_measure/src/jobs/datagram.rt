//! Datagrams as hosts get them (RFC 3550, 5.1 and 6.4 to 6.6).

use crate::random::Random;
use arrayvec::ArrayVec;

/// The most octets of a datagram here.
pub const ROOM: usize = 1_472;

/// The octets of one datagram.
#[derive(Drop)]
pub struct Datagram {
    octets: ArrayVec<u8, ROOM>,
}

impl Datagram {
    /// One without octets.
    pub fn new() -> Datagram {
        Datagram {
            octets: ArrayVec::new(),
        }
    }

    /// The octets.
    pub fn as_slice(&self) -> &[u8] {
        self.octets.as_slice()
    }

    /// Takes all octets away.
    pub fn clear(&mut self) {
        self.octets.clear();
    }

    /// Puts a word at the end.
    pub fn word(&mut self, word: u32) {
        let _ = self.octets.try_extend_from_slice(&word.to_be_bytes());
    }

    /// Makes it a receiver report with a block about `about`, and the source's description.
    pub fn describe(&mut self, ssrc: u32, about: u32, random: &mut Random) {
        self.clear();
        self.word(0x81c9_0007);
        self.word(ssrc);
        self.block(about, random);
        self.description(ssrc);
    }

    /// Makes it a sender report with a block about `about`, and the source's description.
    pub fn send(&mut self, ssrc: u32, about: u32, random: &mut Random) {
        self.clear();
        self.word(0x81c8_000c);
        self.word(ssrc);
        self.sender(random);
        self.block(about, random);
        self.description(ssrc);
    }

    /// Makes it an empty report, the description and the BYE of a source.
    pub fn leave(&mut self, ssrc: u32) {
        self.clear();
        self.word(0x80c9_0001);
        self.word(ssrc);
        self.description(ssrc);
        self.word(0x81cb_0001);
        self.word(ssrc);
    }

    /// Puts what a sender report says of its sender.
    pub fn sender(&mut self, random: &mut Random) {
        self.word(0xec00_0000 ^ (random.word() >> 12));
        self.word(random.word());
        self.word(random.word());
        self.word(random.word() >> 16);
        self.word(random.word() >> 8);
    }

    /// Puts a report block.
    pub fn block(&mut self, about: u32, random: &mut Random) {
        self.word(about);
        self.word(random.word() & 0x0700_007f);
        self.word(random.word() & 0x0003_ffff);
        self.word(random.word() & 0x0000_03ff);
        self.word(random.word());
        self.word(random.word() & 0x0007_ffff);
    }

    /// Puts a source description with one chunk.
    pub fn description(&mut self, ssrc: u32) {
        self.word(0x81ca_0006);
        self.chunk(ssrc);
    }

    /// Puts a chunk with a CNAME of 16 octets: six words.
    pub fn chunk(&mut self, ssrc: u32) {
        self.word(ssrc);
        self.word(0x0110_6d65);
        self.word(0x6d62_6572);
        self.word(letters(ssrc));
        self.word(letters(ssrc >> 4));
        self.word(0x2e61_0000);
    }

    /// Changes one octet.
    pub fn damage(&mut self, random: &mut Random) {
        let at = random.below(ROOM as u32) as usize;
        let octets = self.octets.as_mut_slice();
        if at < octets.len() {
            octets[at] = (random.long() & 0xff) as u8;
        }
    }
}

/// Four lower-case letters.
pub fn letters(word: u32) -> u32 {
    (word & 0x0f0f_0f0f).wrapping_add(0x6161_6161)
}

/// An RTP packet of 20 ms of audio: the header, and 160 octets of payload.
#[derive(Drop)]
pub struct Media {
    octets: [u8; 172],
}

impl Media {
    /// A packet of nobody.
    pub fn new() -> Media {
        let mut octets = [0x55; 172];
        octets[0] = 0x80;
        octets[1] = 0;
        Media { octets }
    }

    /// The octets.
    pub fn as_slice(&self) -> &[u8] {
        &self.octets
    }

    /// Makes it a packet of this source.
    pub fn of(&mut self, ssrc: u32, sequence: u16, timestamp: u32) {
        self.octets[2..4].copy_from_slice(&sequence.to_be_bytes());
        self.octets[4..8].copy_from_slice(&timestamp.to_be_bytes());
        self.octets[8..12].copy_from_slice(&ssrc.to_be_bytes());
    }
}

/// What comes to several sessions in turn.
#[derive(Drop)]
pub struct Traffic {
    pub seed: u32,
    pub random: Random,
    pub media: Media,
    pub report: Datagram,
}

impl Traffic {
    /// Nothing yet.
    pub fn new(seed: u32, random: Random) -> Traffic {
        Traffic {
            seed,
            random,
            media: Media::new(),
            report: Datagram::new(),
        }
    }
}
