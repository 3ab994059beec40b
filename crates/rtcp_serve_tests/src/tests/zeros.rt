//! A generator of zeros that counts its words.

ghost use Rattle.std.specs.Prelude.{ℕ, ◌+◌, ◌%◌, ◌^◌};
ghost use Rattle.rand_core.specs.Steps.{stream_of, steps_u32};

use rand_core::utils::NextWord;
use rand_core::{Rng, utils};
use std::marker::Model;

/// Each word is 0. A contract sees how many were drawn.
#[derive(Drop)]
pub(crate) struct Zeros(pub(crate) u32);

impl Model for Zeros {
    ghost Value = { ℕ };

    ghost view = { λ zeros. zeros.0 };
}

impl NextWord<u32> for Zeros {
    ghost step = { λ drawn. (0, (drawn + 1) % 2 ^ 32) };

    fn next_word(&mut self) -> u32 {
        self.0 = self.0.wrapping_add(1);
        0
    }
}

impl Rng for Zeros {
    ghost stream = { stream_of (steps_u32 (λ drawn. (0, (drawn + 1) % 2 ^ 32))) };

    fn next_u32(&mut self) -> u32 {
        self.next_word()
    }

    fn next_u64(&mut self) -> u64 {
        utils::next_u64_via_u32(self)
    }

    fn fill_bytes(&mut self, dst: &mut [u8]) {
        utils::fill_bytes_via_u32(self, dst)
    }
}
