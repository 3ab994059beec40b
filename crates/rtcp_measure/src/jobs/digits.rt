//! Text in hex, made fast.

ghost use Rattle.std.specs.Prelude.{◌≤◌};

/// The eight hex digits of a word.
pub fn hex_word(word: u32) -> [u8; 8] {
    let mut spread = u64::from(word);
    spread = (spread ^ (spread << 16)) & 0x0000_ffff_0000_ffff;
    spread = (spread ^ (spread << 8)) & 0x00ff_00ff_00ff_00ff;
    spread = (spread ^ (spread << 4)) & 0x0f0f_0f0f_0f0f_0f0f;
    let letters = (spread.wrapping_add(0x0606_0606_0606_0606) >> 4) & 0x0101_0101_0101_0101;
    let digits = spread.wrapping_add(0x3030_3030_3030_3030);
    digits.wrapping_add(letters.wrapping_mul(39)).to_be_bytes()
}

/// The most words of a line.
pub const WORDS: usize = 368;

/// A line of hex words, which can be changed in place.
#[derive(Drop)]
pub struct HexLine {
    digits: [u8; 2_952],
    words: usize,
    ghost room: { words ≤ 368 },
}

impl HexLine {
    /// A line without words.
    pub fn new() -> HexLine {
        HexLine {
            digits: [b'\n'; 2_952],
            words: 0,
        }
    }

    /// The digits and a line feed.
    pub fn as_slice(&self) -> &[u8] {
        &self.digits[..8 * self.words + 1]
    }

    /// Puts a word at the end, where there is room.
    pub fn push(&mut self, word: u32) {
        if self.words < WORDS {
            let at = 8 * self.words;
            self.digits[at..at + 8].copy_from_slice(&hex_word(word));
            self.words += 1;
        }
    }

    /// Changes a word, if there is one at `at`.
    pub fn set(&mut self, at: usize, word: u32) {
        if at < self.words {
            let first = 8 * at;
            self.digits[first..first + 8].copy_from_slice(&hex_word(word));
        }
    }

    /// How many words there are.
    pub fn len(&self) -> usize {
        self.words
    }

    /// Puts the words of octets at the end.
    pub fn push_octets(&mut self, octets: &[u8]) {
        for number in 0..octets.len() / 4 {
            let at = 4 * number;
            self.push(u32::from_be_bytes([
                octets[at],
                octets[at + 1],
                octets[at + 2],
                octets[at + 3],
            ]));
        }
    }
}
