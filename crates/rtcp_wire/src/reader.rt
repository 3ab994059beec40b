//! A cursor over octets, which all offsets go through.

ghost use Rattle.std.specs.Prelude.{◌≡◌, ◌≤◌, ◌<◌, [], ◌∷◌, length, take, drop, slice_index, MatchOption};
ghost use Rattle.byteorder.specs.Endian.{big_number, twos_complement};

use byteorder::{BigEndian, ByteOrder};
use std::marker::Model;

/// The octets that are still to be read. A call that takes some requires that so many are left.
#[derive(Drop)]
pub(crate) struct Reader<'a> {
    rest: &'a [u8],
}

impl<'a> Model for Reader<'a> {
    ghost use Rattle.std.specs.Prelude.{List, ℕ};

    ghost Value = { List ℕ };

    ghost view = { λ reader. reader.rest.now };
}

impl<'a> Reader<'a> {
    /// A cursor at the first of the octets.
    pub(crate) fn new(octets: &'a [u8]) -> Reader<'a>
        ensures { result ≡ octets.now }
    {
        Reader { rest: octets }
    }

    /// How many octets are left.
    pub(crate) fn left(&self) -> usize
        ensures { result ≡ length self.now }
    {
        self.rest.len()
    }

    /// What is left. It stays so.
    pub(crate) fn rest(&self) -> &'a [u8]
        ensures { result.now ≡ self.now }
    {
        self.rest
    }

    /// The next `count` octets.
    pub(crate) fn take(&mut self, count: usize) -> &'a [u8]
        requires { count ≤ length self.old }
        ensures taken { result.now ≡ take count self.old }
        ensures rest { self.new ≡ drop count self.old }
    {
        let (prefix, rest) = self.rest.split_at(count);
        self.rest = rest;
        prefix
    }

    /// The next octet, if one is left.
    pub(crate) fn next_octet(&mut self) -> Option<u8>
        ensures { MatchOption result
            ((self.old ≡ []) × (self.new ≡ []))
            (λ octet. self.old ≡ octet ∷ self.new) }
    {
        let (octet, rest) = self.rest.split_first()?;
        self.rest = rest;
        Some(*octet)
    }

    /// Passes over the next `count` octets, if so many are left.
    pub(crate) fn pass(&mut self, count: usize) -> Option<()>
        ensures { MatchOption result
            (length self.old < count)
            (λ _. (count ≤ length self.old) × (self.new ≡ drop count self.old)) }
    {
        let (_, rest) = self.rest.split_at_checked(count)?;
        self.rest = rest;
        Some(())
    }

    /// The next octet.
    pub(crate) fn octet(&mut self) -> u8
        requires { 1 ≤ length self.old }
        ensures value { result ≡ slice_index self.old 0 }
        ensures rest { self.new ≡ drop 1 self.old }
    {
        let octet = self.rest[0];
        self.take(1);
        octet
    }

    /// The next 16 bits as a number.
    pub(crate) fn u16(&mut self) -> u16
        requires { 2 ≤ length self.old }
        ensures value { result ≡ big_number 2 self.old }
        ensures rest { self.new ≡ drop 2 self.old }
    {
        let number = BigEndian::read_u16(self.rest);
        self.take(2);
        number
    }

    /// The next 24 bits as a signed number, in two's complement.
    pub(crate) fn i24(&mut self) -> i32
        requires { 3 ≤ length self.old }
        ensures value { result ≡ twos_complement 3 (big_number 3 self.old) }
        ensures rest { self.new ≡ drop 3 self.old }
    {
        let number = BigEndian::read_i24(self.rest);
        self.take(3);
        number
    }

    /// The next 32 bits as a number.
    pub(crate) fn u32(&mut self) -> u32
        requires { 4 ≤ length self.old }
        ensures value { result ≡ big_number 4 self.old }
        ensures rest { self.new ≡ drop 4 self.old }
    {
        let number = BigEndian::read_u32(self.rest);
        self.take(4);
        number
    }

    /// The next 64 bits as a number.
    pub(crate) fn u64(&mut self) -> u64
        requires { 8 ≤ length self.old }
        ensures value { result ≡ big_number 8 self.old }
        ensures rest { self.new ≡ drop 8 self.old }
    {
        let number = BigEndian::read_u64(self.rest);
        self.take(8);
        number
    }

    /// The next four octets.
    pub(crate) fn word(&mut self) -> [u8; 4]
        requires { 4 ≤ length self.old }
        ensures taken { result ≡ take 4 self.old }
        ensures rest { self.new ≡ drop 4 self.old }
    {
        let mut word = [0; 4];
        word.copy_from_slice(self.take(4));
        word
    }
}
