//! The option of a guard.

ghost use Rattle.std.specs.Prelude.{◌≡◌, IfOk, IfErr, None, Some};
ghost use Rattle.rtcp_command.specs.Guards.{guard_given, guard_in, guard_with, hold_in, names_in};
ghost use Rattle.rtcp_command.specs.Options.{text_given};

use rtcp_guarded_text::GuardLimits;
use rtcp_text::numerals::read_short_decimal;

/// The most sources that an origin may have: as many as the greatest table.
const MAX_NAMES: u32 = 1_024;

/// The most seconds of a hold.
const MAX_SECONDS: u32 = 1_000_000_000;

/// The hold that is not told, in microseconds.
const HOLD: u64 = 60_000_000;

/// What an origin may do before it is held back, if a guard is asked for.
///
/// # Errors
///
/// `()` where one is asked for, but the text is refused.
pub(crate) fn read_given_guard(given: Option<&str>) -> Result<Option<GuardLimits>, ()>
    ensures read { IfOk result (λ guard. guard_given (text_given given.entry) ≡ Some guard) }
    ensures refused { IfErr result (λ _. guard_given (text_given given.entry) ≡ None) }
{
    let Some(text) = given else {
        return Ok(None);
    };
    match read_guard(text) {
        Some(limits) => Ok(Some(limits)),
        None => Err(()),
    }
}

/// What an origin may do before it is held back, as `8` or `8,60`: so many sources, and a hold of so many seconds.
fn read_guard(text: &str) -> Option<GuardLimits>
    ensures { result ≡ guard_in text.now }
{
    match text.split_once(',') {
        Some((names, seconds)) => {
            let hold = read_hold(seconds)?;
            held_for(names, hold)
        }
        None => held_for(text, HOLD),
    }
}

/// So many sources, with this hold.
fn held_for(names: &str, hold: u64) -> Option<GuardLimits>
    ensures { result ≡ guard_with names.now hold }
{
    let names = read_names(names)?;
    Some(GuardLimits { names, hold })
}

/// How many sources an origin may have: 1 to 1,024.
fn read_names(text: &str) -> Option<u16>
    ensures { result ≡ names_in text.now }
{
    let names = read_short_decimal(text.as_bytes())?;
    if (1..=MAX_NAMES).contains(&names) {
        Some(names as u16)
    } else {
        None
    }
}

/// How long a hold is, in microseconds: 1 to 1,000,000,000 seconds.
fn read_hold(text: &str) -> Option<u64>
    ensures { result ≡ hold_in text.now }
{
    let seconds = read_short_decimal(text.as_bytes())?;
    if (1..=MAX_SECONDS).contains(&seconds) {
        Some(u64::from(seconds) * 1_000_000)
    } else {
        None
    }
}
