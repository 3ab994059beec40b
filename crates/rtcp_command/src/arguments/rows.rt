//! Options of subcommands, as `clap` is told of them, and those that configure a participant.

use clap::{Arg, ArgAction, Command};
use std::alloc::{AllocError, Global};

/// What stands for an option that is not given.
#[derive(Clone, Copy)]
pub(super) enum Absent {
    /// It has to be given.
    Refused,
    /// This text.
    Is(&'static str),
    /// Nothing.
    Nothing,
    /// No texts: the option may be given again, and then has one more.
    IsEmpty,
    /// The option takes no value: it is a flag, whose text is `true` where it is given, and else `false`.
    IsFlag,
    /// The same of a flag that is refused beside the flags of these names.
    IsFlagBeside(&'static [&'static str]),
}

/// An option: the name, the value, what stands for it, and the help.
pub(super) type Row = (&'static str, &'static str, Absent, &'static str);

/// The options that configure a participant, in the order in which they are looked at.
pub(super) const PARTICIPANT: [Row; 17] = [
    ("ssrc", "HEX", Absent::Refused, "SSRC, 8 hex digits"),
    ("cname", "TEXT", Absent::Refused, "CNAME, 1 to 255 octets"),
    (
        "capacity",
        "N",
        Absent::Is("1024"),
        "Other sources that are kept track of, 1 to 1024",
    ),
    (
        "limit",
        "N",
        Absent::Is("1472"),
        "Most octets of a report, a multiple of 4 from 576 to 1472",
    ),
    (
        "session-bps",
        "N",
        Absent::Is("64000"),
        "Bandwidth of the session in bits a second, from 10240",
    ),
    (
        "sender-bw",
        "N",
        Absent::Nothing,
        "RTCP of senders in octets a second, 16 to 2^30, for a quarter of 5 per cent of the session",
    ),
    (
        "receiver-bw",
        "N",
        Absent::Nothing,
        "RTCP of the others in octets a second, 16 to 2^30, for the rest of these 5 per cent",
    ),
    (
        "rate",
        "N",
        Absent::Is("8000"),
        "Units a second of the media's clock, 1 to 1048576",
    ),
    (
        "clock",
        "PT:RATE",
        Absent::IsEmpty,
        "Clock of a payload type, 0 to 127, in units a second, up to 16 times",
    ),
    (
        "ntp",
        "HEX",
        Absent::Is("0000000000000000"),
        "NTP timestamp of moment 0, 16 hex digits",
    ),
    (
        "name",
        "TEXT",
        Absent::Nothing,
        "NAME, told in every third report, in turn with the others below",
    ),
    ("email", "TEXT", Absent::Nothing, "EMAIL"),
    ("phone", "TEXT", Absent::Nothing, "PHONE"),
    ("loc", "TEXT", Absent::Nothing, "LOC"),
    ("tool", "TEXT", Absent::Nothing, "TOOL"),
    ("note", "TEXT", Absent::Nothing, "NOTE"),
    ("priv", "HEX", Absent::Nothing, "PRIV, its octets in hex"),
];

/// The option of a run over text.
pub(super) const LINES: Row = (
    "lines",
    "N",
    Absent::Is("65536"),
    "Most lines that are answered, 1 to 4294967295",
);

/// The option of JSON, of a run over text that has no other form.
pub(super) const JSON: Row = ("json", "", Absent::IsFlag, "Show answers as lines of JSON");

/// The option of a guard.
pub(super) const GUARD: Row = (
    "guard",
    "NAMES[,SECONDS]",
    Absent::Nothing,
    "Hold back who speaks for another's source, or for more than 1 to 1024, for 60 seconds",
);

/// A subcommand with these options too.
pub(super) fn with_options<'a>(
    alloc: Global,
    mut command: Command<'a>,
    options: &[Row],
) -> Result<Command<'a>, AllocError> {
    for (name, value, absent, help) in options {
        let option = Arg::new(alloc, name).long(name).help(help);
        command = command.arg(match absent {
            Absent::Refused => valued(option, value).required(true),
            Absent::Is(text) => valued(option, value).default_value(text),
            Absent::Nothing => valued(option, value),
            Absent::IsEmpty => option.value_name(value).action(ArgAction::Append),
            Absent::IsFlag => option.action(ArgAction::SetTrue),
            Absent::IsFlagBeside(others) => flag_beside(option, others)?,
        })?;
    }
    Ok(command)
}

/// A flag that is refused beside others.
fn flag_beside<'a>(option: Arg<'a>, others: &[&'a str]) -> Result<Arg<'a>, AllocError> {
    let mut flag = option.action(ArgAction::SetTrue);
    for other in others {
        flag = flag.conflicts_with(other)?;
    }
    Ok(flag)
}

/// An option that takes a value.
fn valued<'a>(option: Arg<'a>, value: &'a str) -> Arg<'a> {
    option.value_name(value).action(ArgAction::Set)
}
