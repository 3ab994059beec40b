//! A short text that is written from its end to its start.

ghost use Rattle.std.specs.Prelude.{◌≡◌, ◌+◌, ◌≤◌, ◌++◌, [], ◌∷◌, drop, length};
ghost use Rattle.std.specs.Fmt.{decimal, signed_decimal};
ghost use Rattle.rtcp_text.specs.Text.{hex_word};

use super::digits::{word_digits, words_digits};
use itoa::write_digits;
use std::simd::prelude::*;

/// The most octets of a text.
const ROOM: usize = 80;

/// A text of at most 80 octets, to which parts are put in front. In this order the digits of a decimal stand
/// where they belong as they are found, and the text is appended to a buffer as a whole.
#[derive(Drop)]
pub(super) struct Tail {
    octets: [u8; ROOM],
    /// Where the text begins in the octets. It ends where they end.
    start: usize,
}

impl Tail {
    /// An empty text.
    #[inline(always)]
    pub(super) fn new() -> Self
        ensures text { drop result.start result.octets ≡ [] }
        ensures start { result.start ≡ 80 }
    {
        Tail {
            octets: [0; ROOM],
            start: ROOM,
        }
    }

    /// The whole text.
    #[inline(always)]
    pub(super) fn as_slice(&self) -> &[u8]
        requires { self.now.start ≤ 80 }
        ensures { result.now ≡ drop self.now.start self.now.octets }
    {
        &self.octets[self.start..]
    }

    /// Puts an octet in front.
    #[inline(always)]
    pub(super) fn put(&mut self, octet: u8)
        requires room { 1 ≤ self.old.start }
        requires within { self.old.start ≤ 80 }
        ensures text { drop self.new.start self.new.octets ≡ octet ∷ drop self.old.start self.old.octets }
        ensures start { self.new.start + 1 ≡ self.old.start }
    {
        self.start -= 1;
        self.octets[self.start] = octet;
    }

    /// Puts a text in front.
    #[inline(always)]
    pub(super) fn put_text(&mut self, text: &[u8])
        requires room { length text.now ≤ self.old.start }
        requires within { self.old.start ≤ 80 }
        ensures text { drop self.new.start self.new.octets
            ≡ text.now ++ drop self.old.start self.old.octets }
        ensures start { self.new.start + length text.now ≡ self.old.start }
    {
        let end = self.start;
        self.start -= text.len();
        self.octets[self.start..end].copy_from_slice(text);
    }

    /// Puts a word in front, as eight hex digits.
    #[inline(always)]
    pub(super) fn put_word(&mut self, word: u32)
        requires room { 8 ≤ self.old.start }
        requires within { self.old.start ≤ 80 }
        ensures text { drop self.new.start self.new.octets
            ≡ hex_word word ++ drop self.old.start self.old.octets }
        ensures start { self.new.start + 8 ≡ self.old.start }
    {
        self.put_digits(word_digits(word));
    }

    /// Puts two words in front, as eight hex digits each, with an octet between them.
    #[inline(always)]
    pub(super) fn put_words(&mut self, first: u32, between: u8, second: u32)
        requires room { 17 ≤ self.old.start }
        requires within { self.old.start ≤ 80 }
        ensures text { drop self.new.start self.new.octets
            ≡ hex_word first ++ between ∷ (hex_word second ++ drop self.old.start self.old.octets) }
        ensures start { self.new.start + 17 ≡ self.old.start }
    {
        let (first_digits, second_digits) = words_digits(first, second);
        self.put_digits(second_digits);
        self.put(between);
        self.put_digits(first_digits);
    }

    /// Puts eight digits in front.
    #[inline(always)]
    fn put_digits(&mut self, digits: u8x8)
        requires room { 8 ≤ self.old.start }
        requires within { self.old.start ≤ 80 }
        ensures text { drop self.new.start self.new.octets
            ≡ digits ++ drop self.old.start self.old.octets }
        ensures start { self.new.start + 8 ≡ self.old.start }
    {
        let end = self.start;
        self.start -= 8;
        digits.copy_to_slice(&mut self.octets[self.start..end]);
    }

    /// Puts a number in front, in decimal with no leading zero.
    #[inline(always)]
    pub(super) fn put_decimal(&mut self, number: u32)
        requires room { 10 ≤ self.old.start }
        requires within { self.old.start ≤ 80 }
        ensures text { drop self.new.start self.new.octets
            ≡ decimal number ++ drop self.old.start self.old.octets }
        ensures start { self.new.start ≤ self.old.start }
        ensures room { self.old.start ≤ self.new.start + 10 }
    {
        self.start = write_digits(u64::from(number), &mut self.octets, self.start);
    }

    /// The same of a number of 64 bits.
    #[inline(always)]
    pub(super) fn put_long_decimal(&mut self, number: u64)
        requires room { 20 ≤ self.old.start }
        requires within { self.old.start ≤ 80 }
        ensures text { drop self.new.start self.new.octets
            ≡ decimal number ++ drop self.old.start self.old.octets }
        ensures start { self.new.start ≤ self.old.start }
        ensures room { self.old.start ≤ self.new.start + 20 }
    {
        self.start = write_digits(number, &mut self.octets, self.start);
    }

    /// Puts a number in front, in decimal with a minus sign if it is below 0.
    #[inline(always)]
    pub(super) fn put_signed(&mut self, number: i32)
        requires room { 11 ≤ self.old.start }
        requires within { self.old.start ≤ 80 }
        ensures text { drop self.new.start self.new.octets
            ≡ signed_decimal number ++ drop self.old.start self.old.octets }
        ensures start { self.new.start ≤ self.old.start }
        ensures room { self.old.start ≤ self.new.start + 11 }
    {
        self.put_decimal(number.unsigned_abs());
        if number < 0 {
            self.put(b'-');
        }
    }
}
