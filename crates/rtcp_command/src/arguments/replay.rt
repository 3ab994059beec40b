//! The subcommand `replay` of the command line.

ghost use Rattle.std.specs.Prelude.{Ok, true, false, codes};
ghost use Rattle.rtcp_engine.specs.state.Views.{setup_of};
ghost use Rattle.clap.specs.Matches.{found_of};
ghost use Rattle.rtcp_command.specs.Options.{IsReplayOrder, is_set as is_set_in, replay_in};

use super::rows::{Absent, GUARD, JSON, LINES, PARTICIPANT, Row, with_options};
use crate::options::{is_set, read_replay};
use crate::orders::{OrderFault, TextOrder};
use clap::{ArgMatches, Command};
use rtcp_engine::Config;
use rtcp_guarded_text::GuardLimits;
use std::alloc::{AllocError, Global};

const ABOUT: &str = "Show what a participant answers to the events of a session";

const LONG: &str = "\
Show what a participant answers to the events of a session.

Pipe in one event a line, with its moment in microseconds since the session began:

    rtcp MOMENT PEER WORD HEX     an RTCP datagram came, in hex, - for the empty one
    rtp MOMENT PEER WORD HEX      an RTP datagram came
    sent MOMENT TIMESTAMP OCTETS  the host sent an RTP packet with so many octets of payload
    tick MOMENT WORD WORD         the host asks what is due, with two random words
    leave MOMENT WORD             the host asks the participant to leave, with a random word
    configure MOMENT SENDERS OTHERS CLOCKS ITEMS RATE NTP
                                  the host gives other settings: the two bandwidths in octets a
                                  second, clocks as 96:90000, and items as 6:72617474, in hex,
                                  each list with commas, or - where it is empty; and what --rate
                                  and --ntp are from then on
    forget MOMENT SSRC            the host says that a source is gone

PEER is a number below 2^64 for where a datagram came from, and its random word is for a new SSRC.

For instance:

    rtcp 0 1 00000000 80c900010000000781ca00020000000701016100
    tick 1026037 00000000 00000000
    rtcp 1026037 1 00000000 -
    leave 2000000 00000000

A line for the start comes out, and then one line for each line that goes in: the members and
senders, the moment to tick next, - once the participant has left, and the report or BYE to send
now, or why the event was refused. Where a datagram named the participant's own SSRC and so
changed it, the line ends in ssrc= and the new one.

    start members=1 senders=0 next=1026037
    ok members=2 senders=0 next=1026037 out=-
    ok members=2 senders=0 next=3078111 out=report:80c90001000000aa81ca0002000000aa01016100
    refused E5 Wire: F1 Short at 0
    ok members=0 senders=0 next=- out=bye:80c90001000000aa81ca0002000000aa0101610081cb0001000000aa

These are the answers of --ssrc 000000aa --cname a.

With --guard NAMES[,SECONDS] a source belongs to the origin that named it first, until it was silent
for so long, 60 seconds unless told. The origin is PEER without its lower 16 bits, the port. What
another origin says of it is held back, and so is what would give an origin more than NAMES sources,
or more than NAMES of their BYEs in that time:

    refused H1 Stranger
    refused H2 Crowd

With --json each line is an object of JSON, for scripts:

    {\"start\":{\"members\":1,\"senders\":0,\"next\":1026037}}
    {\"members\":2,\"senders\":0,\"next\":1026037,\"out\":null,\"ssrc\":null}
    {\"refused\":\"E5 Wire\",\"fault\":\"F1 Short\",\"at\":0}

A line of more than 131200 characters, a line after the first N of --lines and a line that is
not as above end the run: the number of the line and its fault are written to standard error.

The status is 0 if every line was answered, 2 if the command line, an option, the configuration
or a line of the text was refused, and 1 if reading, writing or memory failed.";

/// The options after those of the participant, in the order in which they are looked at.
const OWN: [Row; 4] = [
    (
        "word",
        "HEX",
        Absent::Is("00000000"),
        "Random word of the start, 8 hex digits",
    ),
    LINES,
    GUARD,
    JSON,
];

/// The subcommand, as `clap` reads it.
pub(super) fn subcommand<'a>(alloc: Global) -> Result<Command<'a>, AllocError> {
    let command = Command::new(alloc, "replay").about(ABOUT).long_about(LONG);
    let command = with_options(alloc, command, &PARTICIPANT)?;
    with_options(alloc, command, &OWN)
}

/// What the words after `replay` ask for.
///
/// # Errors
///
/// [`OrderFault::Option`] with the first option whose value is refused.
pub(super) fn order(matches: &ArgMatches<'_>) -> Result<TextOrder, OrderFault>
    ensures { IsReplayOrder result (is_set_in (found_of matches.now) (codes "json"))
        (replay_in (found_of matches.now)) }
{
    match read_replay(matches) {
        Ok((config, word, lines, guard)) if is_set(matches, "json") => {
            Ok(json_order(config, word, lines, guard))
        }
        Ok((config, word, lines, guard)) => Ok(replay_order(config, word, lines, guard)),
        Err(name) => Err(OrderFault::Option(name)),
    }
}

/// A replay, with a guard or without.
fn replay_order(config: Config, word: u32, lines: u32, guard: Option<GuardLimits>) -> TextOrder
    ensures { IsReplayOrder (Ok result) false (Ok (setup_of config, word, lines, guard)) }
{
    match guard {
        None => TextOrder::Replay {
            config,
            word,
            lines,
        },
        Some(limits) => TextOrder::ReplayGuarded {
            config,
            word,
            lines,
            limits,
        },
    }
}

/// The same in JSON.
fn json_order(config: Config, word: u32, lines: u32, guard: Option<GuardLimits>) -> TextOrder
    ensures { IsReplayOrder (Ok result) true (Ok (setup_of config, word, lines, guard)) }
{
    match guard {
        None => TextOrder::ReplayJson {
            config,
            word,
            lines,
        },
        Some(limits) => TextOrder::ReplayGuardedJson {
            config,
            word,
            lines,
            limits,
        },
    }
}
