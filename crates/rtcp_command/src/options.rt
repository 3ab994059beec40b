//! The options of `rtcp replay` and of `rtcp listen`.

ghost use Rattle.std.specs.Prelude.{◌≡◌, ◌≤◌, ◌<◌, ◌+◌, ◌++◌, ◌⊎◌, ℕ, List, Ok, Err, Some, None, OnOk, IfOk, IfErr, IfSome, [], length, map, option_map, string_bytes, codes};
ghost use Rattle.clap.specs.Matches.{found_of, first_value};
ghost use Rattle.rtcp_wire.specs.Values.{ItemValue};
ghost use Rattle.rtcp_engine.specs.state.Views.{setup_of};
ghost use Rattle.rtcp_command.specs.Listening.{HasTurns, IsListenOrder, listen_in, listening_of, seed_in, settled as settled_text, settled_ntp as settled_time, turns_given};
ghost use Rattle.rtcp_command.specs.Options.{bandwidth_in, clock_given, clocks_given, extras_in, is_set as is_set_in, item_in, lines_in, replay_in, setup_in, text_found, text_given, text_in, texts_given, texts_in, with_extras};
ghost use Rattle.rtcp_text.specs.Numerals.{hex_text_in};
ghost use Rattle.rtcp_engine.specs.answers.Acts.{clock_value};

use crate::endpoint::read_endpoint;
use crate::guard::read_given_guard;
use crate::numbers::read_number;
use crate::orders::{ListenOrder, Order, OrderFault};
use crate::watch::{counts_turns, read_seconds, read_watch};
use arrayvec::ArrayVec;
use clap::ArgMatches;
use rtcp_engine::{Clock, Config, Item, rtcp_bw_of, shares_of};
use rtcp_guarded_text::GuardLimits;
use rtcp_text::numerals::{read_decimal, read_hex_text, read_long, read_short_decimal, read_word};
use rtcp_text::settings_fields::read_clock;
use std::alloc::{AllocError, Global};
use std::net::SocketAddrV4;

/// The text that stands for what the system draws.
const RANDOM: &str = "random";

/// The text that stands for the time of the system's clock.
const NOW: &str = "now";

/// The most turns of a session.
const MAX_TURNS: u32 = 1_000_000;

/// The turns of a session that is given neither these nor another end.
const TURNS: u32 = 1_000;

/// The text of an option that is required or has a default.
pub(crate) fn given<'a>(matches: &ArgMatches<'a>, name: &str) -> &'a str
    ensures { result.now ≡ text_found (found_of matches.now) name.now }
{
    matches.get_str(name).unwrap_or("")
}

/// Whether a flag is given.
pub(crate) fn is_set(matches: &ArgMatches<'_>, name: &str) -> bool
    ensures { result ≡ is_set_in (found_of matches.now) name.now }
{
    given(matches, name) == "true"
}

/// The configuration, the word of the start, the number of lines and the guard that the options of `replay` say.
/// Whether a participant takes the configuration is not tested here.
///
/// # Errors
///
/// The name of the first option that is refused, in the order of the rows that `clap` is told of, without its dashes.
pub(crate) fn read_replay(
    matches: &ArgMatches<'_>,
) -> Result<(Config, u32, u32, Option<GuardLimits>), &'static str>
    ensures read { IfOk result (λ read.
        replay_in (found_of matches.now) ≡ Ok (setup_of read.0, read.1, read.2, read.3)) }
    ensures refused { IfErr result (λ name. replay_in (found_of matches.now) ≡ Err name.now) }
{
    let config = read_config(matches, given(matches, "ssrc"), given(matches, "ntp"))?;
    let word = read_word(given(matches, "word").as_bytes()).ok_or("word")?;
    let lines = read_lines(given(matches, "lines")).ok_or("lines")?;
    let guard = read_given_guard(matches.get_str("guard")).map_err(|()| "guard")?;
    Ok((config, word, lines, guard))
}

/// How many lines of a text are answered at most: 1 to 2^32 - 1.
pub(crate) fn read_lines(text: &str) -> Option<u32>
    ensures { result ≡ lines_in text.now }
{
    let lines = read_short_decimal(text.as_bytes())?;
    if lines >= 1 { Some(lines) } else { None }
}

/// The session over UDP that the options of `listen` say. Whether a participant takes the configuration is not
/// tested here.
///
/// # Errors
///
/// - [`OrderFault::Option`] with the name of the first option that is refused, in the order of the rows that `clap` is
///   told of, without its dashes.
/// - [`OrderFault::Memory`] where memory for the name of a file is refused.
pub(crate) fn read_listen(alloc: Global, matches: &ArgMatches<'_>) -> Result<Order, OrderFault>
    ensures read { IsListenOrder result (listen_in (found_of matches.now)) }
    ensures turns { IfOk result HasTurns }
{
    let mut order = read_session(matches).map_err(OrderFault::Option)?;
    let (recording, stop) = (matches.get_str("record"), matches.get_str("stop"));
    match read_paths(alloc, recording, stop) {
        Ok((recording, stop)) => {
            order.recording = recording;
            order.stop = stop;
            Ok(Order::Listen(order))
        }
        Err(AllocError) => Err(OrderFault::Memory),
    }
}

/// The same, without the names of files.
///
/// # Errors
///
/// The name of the first option that is refused, without its dashes.
fn read_session(matches: &ArgMatches<'_>) -> Result<ListenOrder, &'static str>
    ensures read { IfOk result (λ order. listen_in (found_of matches.now)
        ≡ Ok (listening_of order (first_value (found_of matches.now) (codes "record"))
        (first_value (found_of matches.now) (codes "stop")))) }
    ensures turns { IfOk result (λ order. (1 ≤ order.turns) × (order.turns ≤ 1000000)) }
    ensures refused { IfErr result (λ name. listen_in (found_of matches.now) ≡ Err name.now) }
{
    let (ssrc, ntp) = (given(matches, "ssrc"), given(matches, "ntp"));
    let config = read_config(matches, settled(ssrc), settled_ntp(ntp))?;
    let rtp = read_endpoint(given(matches, "rtp")).ok_or("rtp")?;
    let rtcp = read_endpoint(given(matches, "rtcp")).ok_or("rtcp")?;
    let peer = read_endpoint(given(matches, "peer")).ok_or("peer")?;
    let (seed, draws_seed) = read_seed(given(matches, "seed")).ok_or("seed")?;
    let turns = read_given_turns(matches.get_str("turns")).ok_or("turns")?;
    let seconds = read_seconds(matches).map_err(|()| "seconds")?;
    let guard = read_given_guard(matches.get_str("guard")).map_err(|()| "guard")?;
    let watch = read_watch(matches)?;
    Ok(ListenOrder {
        config,
        draws_ssrc: ssrc == RANDOM,
        reads_ntp: ntp == NOW,
        rtp,
        rtcp,
        peer,
        seed,
        draws_seed,
        turns,
        counts_turns: counts_turns(matches),
        seconds,
        recording: None,
        overwrites: is_set(matches, "force"),
        stop: None,
        show: is_set(matches, "show"),
        plain: is_set(matches, "plain"),
        json: is_set(matches, "json"),
        guard,
        watch,
    })
}

/// The names of two files, each if it is given.
fn read_paths(
    alloc: Global,
    recording: Option<&str>,
    stop: Option<&str>,
) -> Result<(Option<String>, Option<String>), AllocError>
    ensures recording { IfOk result (λ paths. option_map string_bytes paths.0 ≡ text_given recording.entry) }
    ensures stop { IfOk result (λ paths. option_map string_bytes paths.1 ≡ text_given stop.entry) }
    ensures given { IfErr result (λ _. (path : List ℕ)
        × ((text_given recording.entry ≡ Some path) ⊎ (text_given stop.entry ≡ Some path))) }
{
    match read_path(alloc, recording) {
        Ok(recording) => match read_path(alloc, stop) {
            Ok(stop) => Ok((recording, stop)),
            Err(AllocError) => Err(AllocError),
        },
        Err(AllocError) => Err(AllocError),
    }
}

/// The name of a file, if one is given.
fn read_path(alloc: Global, given: Option<&str>) -> Result<Option<String>, AllocError>
    ensures path { IfOk result (λ path. option_map string_bytes path ≡ text_given given.entry) }
    ensures given { IfErr result (λ _. (path : List ℕ) × (text_given given.entry ≡ Some path)) }
{
    match given {
        Some(path) => match String::from_str(alloc, path) {
            Ok(path) => Ok(Some(path)),
            Err(AllocError) => Err(AllocError),
        },
        None => Ok(None),
    }
}

/// The text of an SSRC, or that of 0 in place of one that is to be drawn.
fn settled(ssrc: &str) -> &str
    ensures { result.now ≡ settled_text ssrc.now }
{
    if ssrc == RANDOM { "00000000" } else { ssrc }
}

/// The text of an NTP timestamp, or that of 0 in place of one that is to be read.
fn settled_ntp(ntp: &str) -> &str
    ensures { result.now ≡ settled_time ntp.now }
{
    if ntp == NOW { "0000000000000000" } else { ntp }
}

/// The seed of the random words, and whether one is to be drawn in place of it.
fn read_seed(text: &str) -> Option<(u64, bool)>
    ensures { result ≡ seed_in text.now }
{
    if text == RANDOM {
        return Some((1, true));
    }
    let seed = read_decimal(text.as_bytes())?;
    Some((seed, false))
}

/// How many turns a session has: 1 to 1,000,000, or 1,000 if it is not told.
fn read_given_turns(given: Option<&str>) -> Option<u32>
    ensures read { result ≡ turns_given (text_given given.entry) }
    ensures within { IfSome result (λ turns. (1 ≤ turns) × (turns ≤ 1000000)) }
{
    match given {
        Some(text) => read_number(text, 1, MAX_TURNS),
        None => Some(TURNS),
    }
}

/// The configuration that options say, with the texts of its SSRC and of its NTP timestamp.
fn read_config(matches: &ArgMatches<'_>, ssrc: &str, ntp: &str) -> Result<Config, &'static str>
    ensures read { IfOk result (λ config. setup_in (found_of matches.now) ssrc.now ntp.now ≡ Ok (setup_of config)) }
    ensures refused { IfErr result (λ name. setup_in (found_of matches.now) ssrc.now ntp.now ≡ Err name.now) }
{
    let ssrc = read_word(ssrc.as_bytes()).ok_or("ssrc")?;
    let cname = read_text(given(matches, "cname")).ok_or("cname")?;
    let capacity = read_short_decimal(given(matches, "capacity").as_bytes()).ok_or("capacity")?;
    let limit = read_short_decimal(given(matches, "limit").as_bytes()).ok_or("limit")?;
    let session_bps = read_decimal(given(matches, "session-bps").as_bytes()).ok_or("session-bps")?;
    let (senders, others) = shares_of(rtcp_bw_of(session_bps));
    let sender_bw = read_bandwidth(matches.get_str("sender-bw"), "sender-bw", senders)?;
    let receiver_bw = read_bandwidth(matches.get_str("receiver-bw"), "receiver-bw", others)?;
    let rate = read_short_decimal(given(matches, "rate").as_bytes()).ok_or("rate")?;
    let clocks = read_given_clocks(matches.get_strs("clock")).ok_or("clock")?;
    let ntp_base = read_long(ntp.as_bytes()).ok_or("ntp")?;
    let mut config = Config {
        ssrc,
        cname,
        extras: ArrayVec::new(),
        capacity,
        limit,
        sender_bw,
        receiver_bw,
        rate,
        clocks,
        ntp_base,
    };
    add_extras(&mut config, matches)?;
    Ok(config)
}

/// The clocks that options give, at most 16: none where there is no such option.
fn read_given_clocks(given: Option<&[&str]>) -> Option<ArrayVec<Clock, 16>>
    ensures { option_map (λ clocks. map clock_value clocks.items) result
        ≡ clocks_given (texts_given given.entry) }
{
    match given {
        Some(given) => read_clocks(given),
        None => Some(ArrayVec::new()),
    }
}

/// The clocks that options give, at most 16.
fn read_clocks(given: &[&str]) -> Option<ArrayVec<Clock, 16>>
    ensures { option_map (λ clocks. map clock_value clocks.items) result ≡ clocks_given (texts_in given.entry) }
{
    let mut clocks = ArrayVec::new();
    'clocks: for text in given {
        let clock = read_given_clock(text)?;
        clocks.try_push(clock).ok()?;
    }
    Some(clocks)
}

/// The clock that an option gives: its payload type is below 128.
fn read_given_clock(text: &str) -> Option<Clock>
    ensures { option_map clock_value result ≡ clock_given text.now }
{
    let clock = read_clock(text.as_bytes())?;
    if clock.payload_type <= 127 {
        Some(clock)
    } else {
        None
    }
}

/// A bandwidth, in octets a second: what the option says, if it is given, or else this share. The greatest number
/// of 32 bits stands for one that does not fit those.
fn read_bandwidth(given: Option<&str>, name: &'static str, share: u64) -> Result<u32, &'static str>
    ensures read { IfOk result (λ bandwidth.
        bandwidth_in name.now share (text_given given.entry) ≡ Ok bandwidth) }
    ensures refused { IfErr result (λ refused.
        bandwidth_in name.now share (text_given given.entry) ≡ Err refused.now) }
{
    let bandwidth = match given {
        Some(text) => read_decimal(text.as_bytes()).ok_or(name)?,
        None => share,
    };
    Ok(u32::try_from(bandwidth).unwrap_or(u32::MAX))
}

/// Adds the extra items of the options that are given, in the order of their types.
fn add_extras(config: &mut Config, matches: &ArgMatches<'_>) -> Result<(), &'static str>
    requires { (setup_of config.old).settings.extras ≡ [] }
    ensures added { OnOk result ((items : List ItemValue) × (extras_in (found_of matches.now) ≡ Ok items)
        × (setup_of config.new ≡ with_extras (setup_of config.old) items)) }
    ensures refused { IfErr result (λ name. extras_in (found_of matches.now) ≡ Err name.now) }
{
    add_text(config, 2, "name", matches.get_str("name"))?;
    add_text(config, 3, "email", matches.get_str("email"))?;
    add_text(config, 4, "phone", matches.get_str("phone"))?;
    add_text(config, 5, "loc", matches.get_str("loc"))?;
    add_text(config, 6, "tool", matches.get_str("tool"))?;
    add_text(config, 7, "note", matches.get_str("note"))?;
    add_private(config, matches.get_str("priv"))
}

/// Adds the item of an option that is text, if it is given.
fn add_text(
    config: &mut Config,
    kind: u8,
    name: &'static str,
    given: Option<&str>,
) -> Result<(), &'static str>
    requires { length (setup_of config.old).settings.extras < 7 }
    ensures added { OnOk result ((items : List ItemValue)
        × (item_in kind name.now text_in (text_given given.entry) ≡ Ok items)
        × (setup_of config.new ≡ with_extras (setup_of config.old) items)) }
    ensures refused { IfErr result (λ refused.
        item_in kind name.now text_in (text_given given.entry) ≡ Err refused.now) }
    ensures one { length (setup_of config.new).settings.extras ≤ length (setup_of config.old).settings.extras + 1 }
{
    let Some(given) = given else {
        return Ok(());
    };
    let text = read_text(given).ok_or(name)?;
    config.extras.push(Item { kind, text });
    Ok(())
}

/// Adds the item of `--priv`, which is octets in hex, if it is given.
fn add_private(config: &mut Config, given: Option<&str>) -> Result<(), &'static str>
    requires { length (setup_of config.old).settings.extras < 7 }
    ensures added { OnOk result ((items : List ItemValue)
        × (item_in 8 (codes "priv") hex_text_in (text_given given.entry) ≡ Ok items)
        × (setup_of config.new ≡ with_extras (setup_of config.old) items)) }
    ensures refused { IfErr result (λ refused.
        item_in 8 (codes "priv") hex_text_in (text_given given.entry) ≡ Err refused.now) }
{
    let Some(given) = given else {
        return Ok(());
    };
    let text = read_hex_text(given.as_bytes()).ok_or("priv")?;
    config.extras.push(Item { kind: 8, text });
    Ok(())
}

/// A text of at most 255 octets.
fn read_text(text: &str) -> Option<ArrayVec<u8, 255>>
    ensures { option_map (λ read. read.items) result ≡ text_in text.now }
{
    let mut octets = ArrayVec::new();
    octets.try_extend_from_slice(text.as_bytes()).ok()?;
    Some(octets)
}
