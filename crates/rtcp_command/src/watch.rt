//! The options of `rtcp listen` for its end, and for what it shows of sources.

ghost use Rattle.std.specs.Prelude.{◌≡◌, Err, IfErr, IfOk, None, Ok, Some, codes};
ghost use Rattle.clap.specs.Matches.{found_of, first_value};
ghost use Rattle.rtcp_command.specs.Watches.{counts_turns, ends_otherwise, is_given, seconds_given, watch_in};

use crate::numbers::read_given_number;
use crate::options::is_set;
use crate::orders::Watch;
use clap::ArgMatches;

/// The most seconds of a session: they stay below the greatest moment of a participant.
const MAX_SECONDS: u32 = 1_000_000_000;

/// The greatest limit of a loss, in per cent: no loss is above 100.
const MAX_LOSS: u32 = 99;

/// The most sources that are shown: as many as the greatest table.
const MAX_ROWS: u32 = 1_024;

/// How many seconds a session lasts, if it is told.
///
/// # Errors
///
/// `()` where it is told, but is refused.
pub(crate) fn read_seconds(matches: &ArgMatches<'_>) -> Result<Option<u32>, ()>
    ensures read { IfOk result (λ seconds.
        seconds_given (first_value (found_of matches.now) (codes "seconds")) ≡ Some seconds) }
    ensures refused { IfErr result (λ _.
        seconds_given (first_value (found_of matches.now) (codes "seconds")) ≡ None) }
{
    read_given_number(matches.get_str("seconds"), 1, MAX_SECONDS)
}

/// Whether turns are counted: they are asked for, or nothing else ends the session.
pub(crate) fn counts_turns(matches: &ArgMatches<'_>) -> bool
    ensures { result ≡ counts_turns (found_of matches.now) }
{
    is_given(matches, "turns") || !ends_otherwise(matches)
}

/// Whether something else than turns ends the session.
fn ends_otherwise(matches: &ArgMatches<'_>) -> bool
    ensures { result ≡ ends_otherwise (found_of matches.now) }
{
    is_given(matches, "seconds")
        || is_given(matches, "stop")
        || is_given(matches, "until-loss")
        || is_given(matches, "until-silence")
}

/// Whether an option is given.
fn is_given(matches: &ArgMatches<'_>, name: &str) -> bool
    ensures { result ≡ is_given (found_of matches.now) name.now }
{
    matches.get_str(name).is_some()
}

/// What a session is watched for, and how its sources are shown.
///
/// # Errors
///
/// The name of the first option that is refused, without its dashes.
pub(crate) fn read_watch(matches: &ArgMatches<'_>) -> Result<Watch, &'static str>
    ensures read { IfOk result (λ watch. watch_in (found_of matches.now) ≡ Ok watch) }
    ensures refused { IfErr result (λ name. watch_in (found_of matches.now) ≡ Err name.now) }
{
    let loss = matches.get_str("until-loss");
    let loss = read_given_number(loss, 0, MAX_LOSS).map_err(|()| "until-loss")?;
    let silence = matches.get_str("until-silence");
    let silence = read_given_number(silence, 1, MAX_SECONDS).map_err(|()| "until-silence")?;
    let rows = matches.get_str("rows");
    let rows = read_given_number(rows, 1, MAX_ROWS).map_err(|()| "rows")?;
    Ok(Watch {
        loss,
        silence,
        rows,
        summary: is_set(matches, "summary"),
    })
}
