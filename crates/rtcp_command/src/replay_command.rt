//! The command that plays a record again.

ghost use Rattle.std.specs.Prelude.{◌≡◌, ◌++◌, IfOk, OnOk, codes};
ghost use Rattle.std.specs.Fmt.{decimal};
ghost use Rattle.std.specs.List.{flat_map};
ghost use Rattle.rtcp_engine.specs.state.Views.{setup_of};
ghost use Rattle.rtcp_report.specs.Reports.{item_value};
ghost use Rattle.rtcp_text.specs.Text.{hex_long, hex_word};
ghost use Rattle.rtcp_command.specs.ReplayCommand.{bandwidths_text, clock_option_text, clocks_text, guard_text, item_name, item_text, name_text, quoted, quoted_octet, replay_command, replay_guarded_command, setup_text, sizes_text};
ghost use Rattle.rtcp_engine.specs.answers.Acts.{clock_value};

use rtcp_engine::{Clock, Config, Item};
use rtcp_guarded_text::GuardLimits;
use rtcp_text::text::digits::{push_decimal, push_long, push_octets, push_word};
use std::alloc::{AllocError, Global};

/// The line of a shell that plays a record again: `rtcp replay` with the options of the configuration, the random word
/// of the start, as many lines as `replay` may answer, and the file of the record, each text in quotes.
///
/// # Errors
///
/// `AllocError` where memory is refused.
pub fn replay_line(
    alloc: Global,
    config: &Config,
    word: u32,
    file: &str,
) -> Result<Vec<u8>, AllocError>
    ensures { IfOk result (λ line. line.items ≡ replay_command (setup_of config.now) word file.now) }
{
    let mut line = begun(alloc, config, word)?;
    push_end(&mut line, file)?;
    Ok(line)
}

/// The same of a session with a guard.
///
/// # Errors
///
/// `AllocError` where memory is refused.
pub fn replay_guarded_line(
    alloc: Global,
    config: &Config,
    word: u32,
    limits: GuardLimits,
    file: &str,
) -> Result<Vec<u8>, AllocError>
    ensures { IfOk result (λ line.
        line.items ≡ replay_guarded_command (setup_of config.now) word limits file.now) }
{
    let mut line = begun(alloc, config, word)?;
    push_guard(&mut line, limits)?;
    push_end(&mut line, file)?;
    Ok(line)
}

/// The start of a command, with the options of a configuration and the random word.
fn begun(alloc: Global, config: &Config, word: u32) -> Result<Vec<u8>, AllocError>
    ensures { IfOk result (λ line.
        line.items ≡ codes "rtcp replay" ++ setup_text (setup_of config.now) ++ codes " --word " ++ hex_word word) }
{
    let mut line = Vec::new(alloc);
    line.extend_from_slice(b"rtcp replay")?;
    push_setup(&mut line, config)?;
    push_hex(&mut line, b" --word ", word)?;
    Ok(line)
}

/// Appends the end of a command: the most lines and the file.
fn push_end(out: &mut Vec<u8>, file: &str) -> Result<(), AllocError>
    ensures { OnOk result (out.new.items
        ≡ out.old.items ++ codes " --lines 4294967295 < " ++ quoted file.now ++ codes "\n") }
{
    push_text(out, b" --lines 4294967295 < ", file.as_bytes())?;
    out.push(b'\n')?;
    Ok(())
}

/// Appends the option of a guard.
fn push_guard(out: &mut Vec<u8>, limits: GuardLimits) -> Result<(), AllocError>
    ensures { OnOk result (out.new.items ≡ out.old.items ++ guard_text limits) }
{
    out.extend_from_slice(b" --guard ")?;
    push_decimal(out, u64::from(limits.names))?;
    out.push(b',')?;
    push_decimal(out, limits.hold / 1_000_000)
}

/// Appends the options of a configuration.
fn push_setup(out: &mut Vec<u8>, config: &Config) -> Result<(), AllocError>
    ensures { OnOk result (out.new.items ≡ out.old.items ++ setup_text (setup_of config.now)) }
{
    push_name(out, config)?;
    push_sizes(out, config)?;
    push_bandwidths(out, config)?;
    push_clocks(out, config)?;
    push_items(out, &config.extras)
}

/// Appends the options of who the participant is.
fn push_name(out: &mut Vec<u8>, config: &Config) -> Result<(), AllocError>
    ensures { OnOk result (out.new.items ≡ out.old.items ++ name_text (setup_of config.now)) }
{
    push_hex(out, b" --ssrc ", config.ssrc)?;
    push_text(out, b" --cname ", &config.cname)
}

/// Appends the options of the table and of compounds.
fn push_sizes(out: &mut Vec<u8>, config: &Config) -> Result<(), AllocError>
    ensures { OnOk result (out.new.items ≡ out.old.items ++ sizes_text (setup_of config.now)) }
{
    push_number(out, b" --capacity ", config.capacity)?;
    push_number(out, b" --limit ", config.limit)
}

/// Appends the options of RTCP's bandwidths.
fn push_bandwidths(out: &mut Vec<u8>, config: &Config) -> Result<(), AllocError>
    ensures { OnOk result (out.new.items ≡ out.old.items ++ bandwidths_text (setup_of config.now)) }
{
    push_number(out, b" --sender-bw ", config.sender_bw)?;
    push_number(out, b" --receiver-bw ", config.receiver_bw)
}

/// Appends the options of the media's clocks and of the wall clock.
fn push_clocks(out: &mut Vec<u8>, config: &Config) -> Result<(), AllocError>
    ensures { OnOk result (out.new.items ≡ out.old.items ++ clocks_text (setup_of config.now)) }
{
    push_number(out, b" --rate ", config.rate)?;
    push_payload_clocks(out, &config.clocks)?;
    push_timestamp(out, b" --ntp ", config.ntp_base)
}

/// Appends the options of payload types' clocks.
fn push_payload_clocks(out: &mut Vec<u8>, clocks: &[Clock]) -> Result<(), AllocError>
    ensures { OnOk result (out.new.items
        ≡ out.old.items ++ flat_map (λ clock. clock_option_text (clock_value clock)) clocks.now) }
{
    for clock in clocks {
        push_payload_clock(out, *clock)?;
    }
    Ok(())
}

/// Appends the option of a payload type's clock.
fn push_payload_clock(out: &mut Vec<u8>, clock: Clock) -> Result<(), AllocError>
    ensures { OnOk result (out.new.items ≡ out.old.items ++ clock_option_text (clock_value clock)) }
{
    out.extend_from_slice(b" --clock ")?;
    push_decimal(out, u64::from(clock.payload_type))?;
    out.push(b':')?;
    push_decimal(out, u64::from(clock.rate))
}

/// Appends an option and its word in hex.
fn push_hex(out: &mut Vec<u8>, option: &[u8], word: u32) -> Result<(), AllocError>
    ensures { OnOk result (out.new.items ≡ out.old.items ++ option.now ++ hex_word word) }
{
    out.extend_from_slice(option)?;
    push_word(out, word)
}

/// Appends an option and its NTP timestamp.
fn push_timestamp(out: &mut Vec<u8>, option: &[u8], ntp: u64) -> Result<(), AllocError>
    ensures { OnOk result (out.new.items ≡ out.old.items ++ option.now ++ hex_long ntp) }
{
    out.extend_from_slice(option)?;
    push_long(out, ntp)
}

/// Appends an option and its text in quotes.
fn push_text(out: &mut Vec<u8>, option: &[u8], text: &[u8]) -> Result<(), AllocError>
    ensures { OnOk result (out.new.items ≡ out.old.items ++ option.now ++ quoted text.now) }
{
    out.extend_from_slice(option)?;
    push_quoted(out, text)
}

/// Appends an option and its number.
fn push_number(out: &mut Vec<u8>, option: &[u8], number: u32) -> Result<(), AllocError>
    ensures { OnOk result (out.new.items ≡ out.old.items ++ option.now ++ decimal number) }
{
    out.extend_from_slice(option)?;
    push_decimal(out, u64::from(number))
}

/// Appends the options of the extra items.
fn push_items(out: &mut Vec<u8>, items: &[Item]) -> Result<(), AllocError>
    ensures { OnOk result (out.new.items
        ≡ out.old.items ++ flat_map (λ item. item_text (item_value item)) items.now) }
{
    for item in items {
        push_item(out, item)?;
    }
    Ok(())
}

/// Appends the option of an extra item.
fn push_item(out: &mut Vec<u8>, item: &Item) -> Result<(), AllocError>
    ensures { OnOk result (out.new.items ≡ out.old.items ++ item_text (item_value item.now)) }
{
    out.extend_from_slice(b" --")?;
    out.extend_from_slice(option_name(item.kind).as_bytes())?;
    out.push(b' ')?;
    if item.kind < 8 {
        push_quoted(out, &item.text)
    } else {
        push_octets(out, &item.text)
    }
}

/// The option of an item's type.
fn option_name(kind: u8) -> &'static str
    ensures { result.now ≡ item_name kind }
{
    match kind {
        2 => "name",
        3 => "email",
        4 => "phone",
        5 => "loc",
        6 => "tool",
        7 => "note",
        _ => "priv",
    }
}

/// Appends a text in quotes, which a shell takes as it is.
fn push_quoted(out: &mut Vec<u8>, text: &[u8]) -> Result<(), AllocError>
    ensures { OnOk result (out.new.items ≡ out.old.items ++ quoted text.now) }
{
    out.push(b'\'')?;
    for octet in text {
        push_quoted_octet(out, *octet)?;
    }
    out.push(b'\'')?;
    Ok(())
}

/// Appends an octet of a text in quotes.
fn push_quoted_octet(out: &mut Vec<u8>, octet: u8) -> Result<(), AllocError>
    ensures { OnOk result (out.new.items ≡ out.old.items ++ quoted_octet octet) }
{
    if octet == b'\'' {
        out.extend_from_slice(b"'\\''")?;
    } else {
        out.push(octet)?;
    }
    Ok(())
}
