//! The average size of compounds (RFC 3550, 6.3.3).

ghost use Rattle.std.specs.Prelude.{◌≡◌, ◌≤◌, ◌*◌, ℕ, List, [], ◌∷◌};
ghost use Rattle.rtcp_timer.specs.Averages.{moved_average};
ghost use Rattle.rtcp_timer.specs.Loads.{with_headers, average_of};

use std::marker::Model;

/// Octets of the UDP and IPv4 headers before a compound, which count as part of it (RFC 3550, 6.2).
const LOWER_HEADERS: u32 = 28;

/// The parts of an octet in which the average is kept.
pub(crate) const PARTS: u32 = 256;

/// The average size of the compounds that were accepted or sent, in 1/256 octet and with their UDP and IPv4
/// headers (RFC 3550, 6.3.3). A new compound weighs 1/16; the average is rounded down.
#[derive(Debug, Drop)]
pub struct Average {
    /// in 1/256 octet
    parts: u32,
}

impl Model for Average {
    ghost Value = { ℕ };

    ghost view = { λ average. average.parts };

    ghost invariant = { λ average. average.parts ≤ 256 * 65563 };
}

impl Average {
    /// The average over one compound of `size` octets, without the headers of UDP and IPv4, at most 65,535. A
    /// session starts with the compound that the participant is to send first (RFC 3550, 6.3.2).
    pub fn start(size: u32) -> Average
        requires { size ≤ 65535 }
        ensures { result ≡ average_of size [] }
    {
        Average {
            parts: parts_of(size),
        }
    }

    /// Takes one more compound of `size` octets, without the headers of UDP and IPv4, at most 65,535, into the
    /// average. Call it once for each compound that is accepted or sent.
    pub fn add(&mut self, size: u32)
        requires { size ≤ 65535 }
        ensures moves { self.new ≡ moved_average self.old size }
        ensures stands { (first : ℕ) (sizes : List ℕ) → self.old ≡ average_of first sizes →
            self.new ≡ average_of first (size ∷ sizes) }
    {
        self.parts = (parts_of(size) + 15 * self.parts) / 16;
    }

    /// The average, in 1/256 octet and with headers. It never exceeds that of compounds of 65,535 octets.
    pub fn value(&self) -> u32
        ensures exact { result ≡ self.now }
        ensures bounded { result ≤ 256 * 65563 }
    {
        self.parts
    }
}

/// A compound's size with headers, in 1/256 octet.
fn parts_of(size: u32) -> u32
    requires { size ≤ 65535 }
    ensures { result ≡ 256 * with_headers size }
{
    PARTS * (size + LOWER_HEADERS)
}
