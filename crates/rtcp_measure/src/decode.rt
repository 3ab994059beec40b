//! The mode `decode`: it reads datagrams from standard input, decodes all of them a number of times, and prints the
//! sums of their fields.
//!
//!     rtcp_measure decode PASSES
//!
//! Each datagram follows its length in two octets (RFC 4571, section 2).

ghost use Rattle.std.specs.Prelude.{◌<◌, length, IfSome};

mod tally;

use std::io::{Read, Write};
use tally::Tally;

/// The octets of a datagram's length.
const LENGTH_SIZE: usize = 2;

/// Decodes the input so many times, and prints what was summed, or returns `None` where the input or memory is missing.
pub fn run(rt: &HostRuntime, passes: u32) -> Option<()> {
    let mut datagrams = Vec::new(rt.alloc());
    rt.stdin().read_to_end(&mut datagrams).ok()?;
    let mut tally = Tally::default();
    for _ in 0..passes {
        pass_over(&mut tally, &datagrams);
    }
    // A copy, since numbers whose address is taken are not kept in registers.
    let total = tally;
    writeln!(rt.stdout(), "{total}").ok()
}

/// Decodes each datagram, up to one that is cut short.
fn pass_over(tally: &mut Tally, datagrams: &[u8]) {
    let mut left = datagrams;
    'datagrams: while let Some((datagram, others)) = split_datagram(left) {
        tally.add_datagram(datagram);
        left = others;
    }
}

/// The first datagram, and the octets after it.
fn split_datagram(octets: &[u8]) -> Option<(&[u8], &[u8])>
    ensures { IfSome result (λ split. length split.1.now < length octets.now) }
{
    let (length, rest) = octets.split_at_checked(LENGTH_SIZE)?;
    rest.split_at_checked(usize::from(u16::from_be_bytes([length[0], length[1]])))
}
