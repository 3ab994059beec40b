//! The arguments of the program, and the order that they give.

ghost use Rattle.std.specs.Prelude.{◌≡◌, ◌⊎◌, IfOk};
ghost use Rattle.std.specs.Io.KnownBytes.{Appends};
ghost use Rattle.rtcp_command.specs.Listening.{HasTurns};
ghost use Rattle.rtcp_command.specs.Status.{order_status};

mod check;
mod listen;
mod replay;
mod rows;

use crate::fault::{RunFault, fail};
use crate::options::read_listen;
use crate::orders::{Order, OrderFault};
use clap::Command;
use clap::error::ErrorKind as ClapErrorKind;
use std::alloc::{AllocError, Global};
use std::io::{ErrorKind, Write};

/// The version of the program, which is that of the package.
const VERSION: &str = "0.7.0";

const ABOUT: &str = "The control half of an RTP participant (RFC 3550)";

const AFTER_HELP: &str = "\
Run `rtcp check --help` or `rtcp replay --help` for what to pipe in and what comes out, and
`rtcp listen --help` for a session over UDP.";

const NON_UTF8: &str = "\
error: invalid UTF-8 was detected in one or more arguments

For more information, try '--help'.
";

/// What the words of a command line ask for. The first word is the name of the program.
///
/// # Errors
///
/// - [`OrderFault::Clap`] where a subcommand or an option that is required is missing, a word is unknown, or
///   help is asked for.
/// - [`OrderFault::Option`] where the value of an option is refused: the first one, in the order in which
///   docs/FORMATS.md has them.
/// - [`OrderFault::Memory`] where memory is refused.
pub fn order<'a>(alloc: Global, words: &'a [&'a str]) -> Result<Order, OrderFault>
    ensures turns { IfOk result HasTurns }
{
    let Ok(mut program) = program(alloc) else {
        return Err(OrderFault::Memory);
    };
    match program.try_get_matches_from_mut(words) {
        Ok(matches) => match matches.subcommand() {
            Some(("check", matches)) => Ok(Order::Text(check::order(matches)?)),
            Some(("replay", matches)) => Ok(Order::Text(replay::order(matches)?)),
            Some(("listen", matches)) => read_listen(alloc, matches),
            _ => Err(shown(program.render_help())),
        },
        Err(error) => match error.kind() {
            ClapErrorKind::OutOfMemory => Err(OrderFault::Memory),
            ClapErrorKind::DisplayVersion => match format!(in alloc; "{error}") {
                Ok(line) => Ok(Order::Version(line)),
                Err(AllocError) => Err(OrderFault::Memory),
            },
            _ => Err(shown(format!(in alloc; "{error}"))),
        },
    }
}

/// The fault of arguments that could not be read, by the kind of the error: they are non-UTF-8 arguments,
/// unless memory was refused.
pub fn unreadable(alloc: Global, kind: ErrorKind) -> OrderFault {
    match kind {
        ErrorKind::OutOfMemory => OrderFault::Memory,
        _ => shown(String::from_str(alloc, NON_UTF8)),
    }
}

/// Writes a line that was asked for, and returns the status to end with: 0, or 1 where writing failed. A failed write
/// of the fault line is ignored.
pub fn tell<W: Write, F: Write>(line: &str, writer: &mut W, faults: &mut F) -> u8
    ensures whole { result ≡ 0 → Appends (W.contents writer.old) (W.contents writer.new) line.now }
    ensures status { (result ≡ 0) ⊎ (result ≡ 1) }
{
    match writer.write_all(line.as_bytes()) {
        Ok(()) => 0,
        Err(_) => fail(RunFault::Write, faults),
    }
}

/// Writes why there is no order, and returns the status to end with: 2 where the words are refused or ask for
/// help, 1 where memory is refused. A failed write is ignored.
pub fn refuse<W: Write>(fault: &OrderFault, faults: &mut W) -> u8
    ensures { result ≡ order_status fault.now }
{
    match fault {
        OrderFault::Clap(text) => {
            let _ = faults.write_all(text.as_bytes());
            2
        }
        OrderFault::Option(name) => {
            let _ = writeln!(faults, "option {name}");
            2
        }
        OrderFault::Memory => {
            let _ = faults.write_all(b"memory\n");
            1
        }
    }
}

/// The command line, as `clap` reads it.
fn program<'a>(alloc: Global) -> Result<Command<'a>, AllocError> {
    Command::new(alloc, "rtcp")
        .bin_name("rtcp")?
        .version(VERSION)
        .about(ABOUT)
        .after_help(AFTER_HELP)
        .disable_help_subcommand(true)
        .subcommand_required(true)
        .subcommand(check::subcommand(alloc)?)?
        .subcommand(replay::subcommand(alloc)?)?
        .subcommand(listen::subcommand(alloc)?)
}

/// The fault that shows a text, unless there was no memory for the text.
fn shown(text: Result<String, AllocError>) -> OrderFault {
    match text {
        Ok(text) => OrderFault::Clap(text),
        Err(AllocError) => OrderFault::Memory,
    }
}
