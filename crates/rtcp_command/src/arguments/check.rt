//! The subcommand `check` of the command line.

ghost use Rattle.std.specs.Prelude.{codes};
ghost use Rattle.clap.specs.Matches.{found_of};
ghost use Rattle.rtcp_command.specs.Options.{IsCheckOrder, is_set as is_set_in, lines_in, text_found};

use super::rows::{Absent, LINES, Row, with_options};
use crate::options::{given, is_set, read_lines};
use crate::orders::{OrderFault, TextOrder};
use clap::{ArgMatches, Command};
use std::alloc::{AllocError, Global};

const ABOUT: &str = "Show what RTCP datagrams are, or why they are refused";

const LONG: &str = "\
Show what RTCP datagrams are, or why they are refused.

Pipe in one datagram a line, its octets in hex of either case: for instance the UDP payloads
that tshark prints of a capture.

    tshark -r call.pcap -Y 'rtcp && !icmp' -T fields -e udp.payload | rtcp check

One line comes out for each line that goes in: ok and the packets, or the first fault and the
offset of the packet that has it.

    ok RR(11223344,[],0) SDES([11223344{1=616263}])
    F2 Version at 8

With --plain the packets are in plain words: losses in per cent, times in seconds, texts as
text, the jitter of report blocks in units of the RTP timestamp.

    ok RR ssrc=11223344 SDES ssrc=11223344 cname=\"abc\"

With --blocks a row comes out for each report block, with who reports and about whom, in the order
in which they came; a datagram without one has none, and one that is refused its fault.

    by=11223344 about=55667788 loss=33.2% lost=1 highest=4 jitter=1units lsr=none dlsr=0.000000s

With --json each line is an object of JSON, for scripts: octets and SSRCs in hex, all other
numbers exact, texts as text, with U+FFFD for what is not UTF-8.

    {\"packets\":[{\"type\":\"RR\",\"ssrc\":\"11223344\",\"blocks\":[],\"extension\":\"\"}]}
    {\"refused\":\"F2 Version\",\"at\":8}

A line of more than 131200 characters, a line after the first N of --lines and a line that is
not hex end the run: the number of the line and its fault are written to standard error.

The status is 0 if every line was answered, 2 if the command line, an option or a line of the
text was refused, and 1 if reading, writing or memory failed.";

/// The option of plain words.
const PLAIN: Row = ("plain", "", Absent::IsFlag, "Show datagrams in plain words");

/// The option of report blocks.
const BLOCKS: Row = (
    "blocks",
    "",
    Absent::IsFlagBeside(&["plain"]),
    "Show a row for each report block",
);

/// The option of JSON.
const JSON: Row = (
    "json",
    "",
    Absent::IsFlagBeside(&["plain", "blocks"]),
    "Show datagrams as lines of JSON",
);

/// The subcommand, as `clap` reads it.
pub(super) fn subcommand<'a>(alloc: Global) -> Result<Command<'a>, AllocError> {
    let command = Command::new(alloc, "check").about(ABOUT).long_about(LONG);
    with_options(alloc, command, &[LINES, PLAIN, BLOCKS, JSON])
}

/// What the words after `check` ask for.
///
/// # Errors
///
/// [`OrderFault::Option`] where the number of lines is refused.
pub(super) fn order(matches: &ArgMatches<'_>) -> Result<TextOrder, OrderFault>
    ensures { IsCheckOrder result (is_set_in (found_of matches.now) (codes "plain"))
        (is_set_in (found_of matches.now) (codes "blocks")) (is_set_in (found_of matches.now) (codes "json"))
        (lines_in (text_found (found_of matches.now) (codes "lines"))) }
{
    match read_lines(given(matches, "lines")) {
        Some(lines) if is_set(matches, "json") => Ok(TextOrder::CheckJson { lines }),
        Some(lines) if is_set(matches, "blocks") => Ok(TextOrder::CheckBlocks { lines }),
        Some(lines) if is_set(matches, "plain") => Ok(TextOrder::CheckPlain { lines }),
        Some(lines) => Ok(TextOrder::Check { lines }),
        None => Err(OrderFault::Option("lines")),
    }
}
