//! A text in a room of the caller's octets.

ghost use Rattle.std.specs.Prelude.{◌≡◌, ◌++◌};
ghost use Rattle.std.specs.Fmt.{decimal, signed_decimal};
ghost use Rattle.hex.specs.Hex.{encode_lower};
ghost use Rattle.rtcp_text.specs.Text.{hex_long, hex_word};
ghost use Rattle.rtcp_print.specs.Pages.{Adds, ended};

use itoa::Buffer;

/// The hex digits, by their values.
static DIGITS: [u8; 16] = *b"0123456789abcdef";

/// A room, over which a text is laid from its start on. What does not fit is only counted.
#[derive(Drop)]
pub(crate) struct Page<'a> {
    room: &'a mut [u8],
    /// The octets of the whole text: 2^64 - 1 where there are more.
    count: usize,
}

impl<'a> Page<'a> {
    /// No text yet.
    pub(crate) fn over(room: &'a mut [u8]) -> Page<'a>
        ensures same { result.room.ghost_name ≡ room.entry.ghost_name }
        ensures room { result.room.now ≡ room.old }
        ensures count { result.count ≡ 0 }
    {
        Page { room, count: 0 }
    }

    /// Appends octets.
    // Out of line, as the next ones are: what appends them is many times shorter so.
    #[inline(never)]
    pub(crate) fn push(&mut self, piece: &[u8])
        ensures same { self.new.room.ghost_name ≡ self.old.room.ghost_name }
        ensures adds { Adds self.old self.new piece.now }
    {
        let start = self.count.min(self.room.len());
        let taken = piece.len().min(self.room.len() - start);
        self.room[start..start + taken].copy_from_slice(&piece[..taken]);
        self.count = self.count.saturating_add(piece.len());
    }

    /// Appends a number in decimal, with no leading zero.
    #[inline(never)]
    pub(crate) fn push_decimal(&mut self, number: u64)
        ensures same { self.new.room.ghost_name ≡ self.old.room.ghost_name }
        ensures adds { Adds self.old self.new (decimal number) }
    {
        let mut digits = Buffer::new();
        self.push(digits.format(number).as_bytes());
    }

    /// Appends a number in decimal, with a minus sign if it is below 0.
    #[inline(never)]
    pub(crate) fn push_signed(&mut self, number: i32)
        ensures same { self.new.room.ghost_name ≡ self.old.room.ghost_name }
        ensures adds { Adds self.old self.new (signed_decimal number) }
    {
        let mut digits = Buffer::new();
        self.push(digits.format(number).as_bytes());
    }

    /// Appends octets, each as two hex digits.
    #[inline(never)]
    pub(crate) fn push_hex(&mut self, octets: &[u8])
        ensures same { self.new.room.ghost_name ≡ self.old.room.ghost_name }
        ensures adds { Adds self.old self.new (encode_lower octets.now) }
    {
        for octet in octets {
            let (high, low) = (*octet / 16, *octet % 16);
            self.push(&[DIGITS[high as usize], DIGITS[low as usize]]);
        }
    }

    /// Appends a word as eight hex digits.
    pub(crate) fn push_word(&mut self, word: u32)
        ensures same { self.new.room.ghost_name ≡ self.old.room.ghost_name }
        ensures adds { Adds self.old self.new (hex_word word) }
    {
        self.push_hex(&word.to_be_bytes());
    }

    /// Appends a number of 64 bits as sixteen hex digits.
    pub(crate) fn push_long(&mut self, number: u64)
        ensures same { self.new.room.ghost_name ≡ self.old.room.ghost_name }
        ensures adds { Adds self.old self.new (hex_long number) }
    {
        self.push_hex(&number.to_be_bytes());
    }

    /// Appends a word, and a number in decimal.
    pub(crate) fn push_number(&mut self, word: &[u8], number: u64)
        ensures same { self.new.room.ghost_name ≡ self.old.room.ghost_name }
        ensures adds { Adds self.old self.new (word.now ++ decimal number) }
    {
        self.push(word);
        self.push_decimal(number);
    }

    /// Ends the text with a zero octet, for which the last octet of the room is used where the text leaves none. Returns
    /// the octets of the whole text.
    pub(crate) fn end(self) -> usize
        ensures room { self.exit.0.now ≡ ended self.entry.count self.entry.room.now }
        ensures count { result ≡ self.entry.count }
    {
        let Page { room, count } = self;
        if let Some(last) = room.len().checked_sub(1) {
            room[count.min(last)] = 0;
        }
        count
    }
}
