//! The bandwidths that checks go by after a change of settings.

ghost use Rattle.std.specs.Prelude.{◌≡◌, ◌≤◌, IfSome};
ghost use Rattle.rtcp_engine.specs.answers.Outcomes.{end_of as end_of_pace, slowed_by, IsPace};

use rtcp_timer::Load;

/// The bandwidths of a session before they changed, and until when checks go by them too: as long as others may still
/// report at the former pace, nobody is to be dropped by a shorter interval (RFC 3550, 6.3.5).
#[derive(Clone, Copy)]
pub(crate) struct Pace {
    /// For the RTCP of senders, in octets a second.
    pub(crate) sender_bw: u32,
    /// For that of the others.
    pub(crate) receiver_bw: u32,
    /// The moment from which checks go by the present bandwidths alone, in microseconds.
    pub(crate) until: u64,
}

/// What the interval of a check at the moment `now` depends on: each bandwidth is the lesser of the present one and of
/// the former one, until the latter no longer counts.
pub(crate) fn slowed(pace: Option<Pace>, now: u64, load: Load) -> Load
    requires pace { IfSome pace IsPace }
    requires some_for_senders { 16 ≤ load.sender_bw }
    requires some_for_others { 16 ≤ load.receiver_bw }
    ensures exact { result ≡ slowed_by now pace load }
    ensures members { result.members ≡ load.members }
    ensures average { result.avg ≡ load.avg }
    ensures some_for_senders { 16 ≤ result.sender_bw }
    ensures some_for_others { 16 ≤ result.receiver_bw }
{
    match pace {
        Some(pace) if now < pace.until => Load {
            sender_bw: load.sender_bw.min(pace.sender_bw),
            receiver_bw: load.receiver_bw.min(pace.receiver_bw),
            ..load
        },
        _ => load,
    }
}

/// Until when a former pace counts, 0 where there is none.
pub(crate) fn end_of(pace: Option<Pace>) -> u64
    ensures { result ≡ end_of_pace pace }
{
    match pace {
        Some(pace) => pace.until,
        None => 0,
    }
}
