//! Options that are numbers.

ghost use Rattle.std.specs.Prelude.{◌≡◌, ◌≤◌, IfErr, IfOk, IfSome, None, Some};
ghost use Rattle.rtcp_command.specs.Numbers.{number_given, number_in};
ghost use Rattle.rtcp_command.specs.Options.{text_given};

use rtcp_text::numerals::read_short_decimal;

/// A number within bounds, if one is given.
///
/// # Errors
///
/// `()` where one is given, but the text is refused.
pub(crate) fn read_given_number(
    given: Option<&str>,
    least: u32,
    most: u32,
) -> Result<Option<u32>, ()>
    ensures read { IfOk result (λ number. number_given least most (text_given given.entry) ≡ Some number) }
    ensures refused { IfErr result (λ _. number_given least most (text_given given.entry) ≡ None) }
{
    let Some(text) = given else {
        return Ok(None);
    };
    match read_number(text, least, most) {
        Some(number) => Ok(Some(number)),
        None => Err(()),
    }
}

/// A number within bounds.
pub(crate) fn read_number(text: &str, least: u32, most: u32) -> Option<u32>
    ensures read { result ≡ number_in least most text.now }
    ensures within { IfSome result (λ number. (least ≤ number) × (number ≤ most)) }
{
    let number = read_short_decimal(text.as_bytes())?;
    if least <= number && number <= most {
        Some(number)
    } else {
        None
    }
}
