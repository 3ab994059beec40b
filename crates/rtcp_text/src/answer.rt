//! The answer to a line of hex: what the octets are that it spells.

use crate::answerer::Answerer;
use crate::digit_pairs::{DecodeFault, decode};
use crate::fault::{LineFault, TextFault};
use crate::showing::Showing;
use crate::text::push_shown;
use std::alloc::{AllocError, Global};

/// Answers each line of hex by itself. The buffer of the octets is kept from line to line.
#[derive(Drop)]
pub(crate) struct Checker<S> {
    datagram: Vec<u8>,
    showing: S,
}

impl<S: Showing> Checker<S> {
    /// A checker with an empty buffer, which shows datagrams so.
    pub(crate) fn new(alloc: Global, showing: S) -> Self {
        Checker {
            datagram: Vec::new(alloc),
            showing,
        }
    }
}

impl<S: Showing> Answerer for Checker<S> {
    ghost use Rattle.rtcp_text.specs.Check.{AnswersHexBy, IsNotHex};

    ghost answers = { λ before line text after. AnswersHexBy S.line line text };

    ghost refuses = { IsNotHex };

    fn compose(&mut self, number: u64, line: &[u8], text: &mut Vec<u8>) -> Result<(), TextFault> {
        match decode(line, &mut self.datagram) {
            Ok(()) => (),
            Err(DecodeFault::Memory) => return Err(TextFault::Memory),
            Err(DecodeFault::NotHex) => {
                return Err(TextFault::Text {
                    line: number,
                    fault: LineFault::Hex,
                });
            }
        }
        match push_shown(text, &self.datagram, &self.showing) {
            Ok(()) => Ok(()),
            Err(AllocError) => Err(TextFault::Memory),
        }
    }
}
