//! How a host in C configures a participant.

ghost use Rattle.std.specs.Prelude.{◌≡◌, ◌↔◌, ◌≤◌, [], map, length, IfSome, IsTrue, Some, None};
ghost use Rattle.rtcp_report.specs.Reports.{item_value};
ghost use Rattle.rtcp_engine.specs.state.Views.{setup_of};
ghost use Rattle.jalwedd_host.specs.Configs.{clock_given, clocks_given, item_given, settings_given, setup_given};
ghost use Rattle.jalwedd_host.specs.Configs.{do_clocks_fit, oversize, oversize_of_settings};
ghost use Rattle.rtcp_engine.specs.answers.Acts.{clock_value, settings_value};

use crate::status::{CNAME, ITEM, RATE};
use arrayvec::ArrayVec;

/// A start is below this.
pub const START_LIMIT: u64 = 9_223_372_036_854_775_808;

/// The session as its host knows it, beside the CNAME and the items.
#[repr(C)]
#[derive(Clone, Copy, Debug)]
pub struct Config {
    /// The NTP timestamp of the start: seconds since 1900 in the upper 32 bits, their fraction in the lower (RFC 3550,
    /// section 4).
    pub ntp_base: u64,
    /// What the host's clock shows at the start, in microseconds, below 2^63. That clock may count from anywhere, and
    /// must not go back. Each call is given what it shows, and each moment that is told is one of it.
    pub start: u64,
    /// The SSRC, which is to be chosen at random (RFC 3550, 8.1).
    pub ssrc: u32,
    /// How many other sources can be kept track of, from 1 to 1,024.
    pub capacity: u32,
    /// The most octets of a compound, from 576 to 1,472 and a multiple of 4.
    pub limit: u32,
    /// The bandwidth for the RTCP of senders, in octets a second, from 16 to 2^30 (RFC 3556).
    pub sender_bw: u32,
    /// That for the RTCP of the others.
    pub receiver_bw: u32,
    /// The units a second of the clock of RTP timestamps of its own media, and of those payload types that are none of
    /// `clocks`, from 1 to 2^20.
    pub rate: u32,
    /// How many of `clocks` there are, at most 16.
    pub clock_count: u32,
    /// The clocks of other payload types, of which the first counts where several are of one type.
    pub clocks: [Clock; 16],
    /// Not read: with it what follows lies at a multiple of 8.
    pub reserved: u32,
    /// The guard before the participant.
    pub guard: GuardConfig,
}

/// Which datagrams are held back from the participant, by where they come from (RFC 3550, 8.2).
#[repr(C)]
#[derive(Clone, Copy, Debug)]
pub struct GuardConfig {
    /// How many sources an origin may have, at most 1,024, those included that left within the hold; 0 for no guard.
    pub names: u32,
    /// How many sources a trusted origin may have, at most 1,024, where that is more.
    pub trusted_names: u32,
    /// For how long a source belongs to its origin after it was last named, in microseconds.
    pub hold: u64,
}

/// The clock in which the RTP timestamps of a payload type count (RFC 3550, 5.1).
#[repr(C)]
#[derive(Clone, Copy, Debug)]
pub struct Clock {
    /// The payload type, below 256.
    pub payload_type: u32,
    /// The units a second, from 1 to 2^20.
    pub rate: u32,
}

/// What a host may change in a running session, beside the items.
#[repr(C)]
#[derive(Clone, Copy, Debug)]
pub struct Settings {
    /// The bandwidth for the RTCP of senders, in octets a second, from 16 to 2^30 (RFC 3556).
    pub sender_bw: u32,
    /// That for the RTCP of the others.
    pub receiver_bw: u32,
    /// How many of `clocks` there are, at most 16.
    pub clock_count: u32,
    /// The clocks of payload types, as in [`Config`].
    pub clocks: [Clock; 16],
    /// The units a second of the clock of RTP timestamps, as in [`Config`].
    pub rate: u32,
    /// The NTP timestamp of the start, as in [`Config`]: another one where the time of day was set.
    pub ntp_base: u64,
}

/// What the participant says of itself beside its CNAME (RFC 3550, 6.5.2 to 6.5.8).
#[repr(C)]
#[derive(Clone, Copy)]
pub struct Item {
    /// The item's type, from 2 to 8.
    pub kind: u8,
    /// How many octets of `text` it has.
    pub size: u8,
    /// The text, and anything after it.
    pub text: [u8; 255],
}

/// A configuration before a host gives one.
pub fn blank() -> rtcp_engine::Config
    ensures cname { result.cname.items ≡ [] }
    ensures extras { result.extras.items ≡ [] }
    ensures clocks { result.clocks.items ≡ [] }
{
    rtcp_engine::Config {
        ssrc: 0,
        cname: ArrayVec::new(),
        extras: ArrayVec::new(),
        capacity: 0,
        limit: 0,
        sender_bw: 0,
        receiver_bw: 0,
        rate: 0,
        clocks: ArrayVec::new(),
        ntp_base: 0,
    }
}

/// Settings before a host gives some.
pub fn blank_settings() -> rtcp_engine::Settings
    ensures extras { result.extras.items ≡ [] }
    ensures clocks { result.clocks.items ≡ [] }
{
    rtcp_engine::Settings {
        sender_bw: 0,
        receiver_bw: 0,
        rate: 0,
        clocks: ArrayVec::new(),
        ntp_base: 0,
        extras: ArrayVec::new(),
    }
}

/// Makes a blank configuration the one that a host gives. Returns the status of what does not fit: a CNAME of more than
/// 255 octets, or else more than 7 items, or else more than 16 clocks or one of a payload type above 255.
// Out of line, so that it is written where its caller keeps it, and its 2 KB lie on the stack once.
#[inline(never)]
pub fn fill(
    given: &mut rtcp_engine::Config,
    config: &Config,
    cname: &[u8],
    items: &[Item],
) -> Option<u32>
    requires cname { given.old.cname.items ≡ [] }
    requires extras { given.old.extras.items ≡ [] }
    requires clocks { given.old.clocks.items ≡ [] }
    ensures given { result ≡ None → setup_of given.new ≡ setup_given config.now cname.now items.now }
    ensures fits { result ≡ None → oversize config.now cname.now items.now ≡ None }
    ensures refused { IfSome result (λ status. oversize config.now cname.now items.now ≡ Some status) }
{
    if !put_text(&mut given.cname, cname) {
        return Some(CNAME);
    }
    if items.len() > 7 {
        return Some(ITEM);
    }
    if !put_clocks(&mut given.clocks, &config.clocks, config.clock_count) {
        return Some(RATE);
    }
    put_items(&mut given.extras, items);
    given.ssrc = config.ssrc;
    given.capacity = config.capacity;
    given.limit = config.limit;
    given.sender_bw = config.sender_bw;
    given.receiver_bw = config.receiver_bw;
    given.rate = config.rate;
    given.ntp_base = config.ntp_base;
    None
}

/// Makes blank settings those that a host gives. Returns the status of what does not fit: more than 7 items, or else
/// more than 16 clocks or one of a payload type above 255.
// Out of line, as `fill`.
#[inline(never)]
pub fn fill_settings(
    given: &mut rtcp_engine::Settings,
    settings: &Settings,
    items: &[Item],
) -> Option<u32>
    requires extras { given.old.extras.items ≡ [] }
    requires clocks { given.old.clocks.items ≡ [] }
    ensures given { result ≡ None → settings_value given.new ≡ settings_given settings.now items.now }
    ensures fits { result ≡ None → oversize_of_settings settings.now items.now ≡ None }
    ensures refused { IfSome result (λ status. oversize_of_settings settings.now items.now ≡ Some status) }
{
    if items.len() > 7 {
        return Some(ITEM);
    }
    if !put_clocks(&mut given.clocks, &settings.clocks, settings.clock_count) {
        return Some(RATE);
    }
    put_items(&mut given.extras, items);
    given.sender_bw = settings.sender_bw;
    given.receiver_bw = settings.receiver_bw;
    given.rate = settings.rate;
    given.ntp_base = settings.ntp_base;
    None
}

/// Puts a text of at most 255 octets where there is none, or returns `false`.
fn put_text(text: &mut ArrayVec<u8, 255>, octets: &[u8]) -> bool
    requires { text.old.items ≡ [] }
    ensures put { IsTrue result → text.new.items ≡ octets.now }
    ensures few { IsTrue result ↔ (length octets.now ≤ 255) }
{
    text.try_extend_from_slice(octets).is_ok()
}

/// Puts the first `count` clocks where there are none, or returns `false` where there is no room for so many, or the
/// payload type of one is above 255.
fn put_clocks(
    given: &mut ArrayVec<rtcp_engine::Clock, 16>,
    clocks: &[Clock; 16],
    count: u32,
) -> bool
    requires { given.old.items ≡ [] }
    ensures put { IsTrue result → map clock_value given.new.items ≡ clocks_given count clocks.now }
    ensures fits { result ≡ do_clocks_fit count clocks.now }
{
    if count > 16 {
        return false;
    }
    'clocks: for clock in &clocks[..count as usize] {
        if clock.payload_type > 255 {
            return false;
        }
        given.push(clock_of(clock));
    }
    true
}

fn clock_of(clock: &Clock) -> rtcp_engine::Clock
    requires { clock.now.payload_type ≤ 255 }
    ensures { clock_value result ≡ clock_given clock.now }
{
    rtcp_engine::Clock {
        payload_type: clock.payload_type as u8,
        rate: clock.rate,
    }
}

/// Puts at most 7 items where there are none.
fn put_items(extras: &mut ArrayVec<rtcp_engine::Item, 7>, items: &[Item])
    requires empty { extras.old.items ≡ [] }
    requires few { length items.now ≤ 7 }
    ensures { map item_value extras.new.items ≡ map item_given items.now }
{
    'items: for item in items {
        extras.push(item_of(item));
    }
}

fn item_of(item: &Item) -> rtcp_engine::Item
    ensures { item_value result ≡ item_given item.now }
{
    let mut text = ArrayVec::new();
    let _ = put_text(&mut text, &item.text[..item.size as usize]);
    rtcp_engine::Item {
        kind: item.kind,
        text,
    }
}
