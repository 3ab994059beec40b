//! Statuses: what a call answers.

ghost use Rattle.std.specs.Prelude.{◌≡◌};
ghost use Rattle.jalwedd_host.specs.Answers.{status_of_refusal};
ghost use Rattle.jalwedd_host.specs.Configs.{status_of_error};
ghost use Rattle.jalwedd_host.specs.Guards.{status_of_judged, status_of_untaken};

use rtcp_engine::{ConfigError, Refusal};
use rtcp_guarded::{Reason, Untaken};

/// The call was taken.
pub const TAKEN: u32 = 0;

/// The participant has left (E1).
pub(crate) const LEFT: u32 = 1;

/// The call comes before the start (E2).
pub(crate) const BACKWARDS: u32 = 2;

/// The datagram is not a compound.
pub const NO_COMPOUND: u32 = 5;

/// The datagram has no RTP head.
pub const NO_RTP: u32 = 6;

/// The datagram names the participant's SSRC, which it cannot change (E7).
pub(crate) const OWN_SSRC: u32 = 7;

/// There is no such block.
pub const NO_BLOCK: u32 = 8;

/// The datagram has no such part.
pub const NO_PART: u32 = 8;

/// There is no such source.
pub const NO_SOURCE: u32 = 9;

/// No other source changed.
pub const NO_CHANGE: u32 = 9;

/// The SSRCs of a listing do not rise.
pub const NOT_RISING: u32 = 10;

/// The CNAME is refused (C1).
pub const CNAME: u32 = 11;

/// A clock is refused (C5), or there are too many.
pub const RATE: u32 = 15;

/// An item is refused (C6), or there are too many.
pub const ITEM: u32 = 16;

/// The start is refused (C7).
pub const START: u32 = 17;

/// The guard is refused (C8).
pub const GUARD: u32 = 18;

/// The session has no guard.
pub const UNGUARDED: u32 = 19;

/// The handle holds no participant.
pub const EMPTY: u32 = 20;

/// The handle holds a participant already.
pub const LIVE: u32 = 21;

/// There is no memory for a participant.
pub const NO_MEMORY: u32 = 22;

/// The datagram has more octets than UDP carries.
pub const TOO_LONG: u32 = 23;

/// The guard holds the datagram back: it names a source of another origin.
const STRANGER: u32 = 24;

/// The guard holds the datagram back, or does not expect the source: its origin would have too many sources, or too
/// many goodbyes.
pub const CROWD: u32 = 25;

/// The status of a call that a guarded participant did not take.
pub(crate) fn of_untaken(untaken: &Untaken) -> u32
    ensures { result ≡ status_of_untaken untaken.now }
{
    match untaken {
        Untaken::Refused(refusal) => of_refusal(refusal),
        Untaken::HeldBack(Reason::Stranger) => STRANGER,
        Untaken::HeldBack(Reason::Crowd) => CROWD,
    }
}

/// The status of a datagram that was judged: 0 where nothing keeps it from the participant.
pub(crate) fn of_judged(judged: &Option<Untaken>) -> u32
    ensures { result ≡ status_of_judged judged.now }
{
    match judged {
        None => TAKEN,
        Some(untaken) => of_untaken(untaken),
    }
}

/// The status of a call that the participant refused.
pub(crate) fn of_refusal(refusal: &Refusal) -> u32
    ensures { result ≡ status_of_refusal refusal.now }
{
    match refusal {
        Refusal::Left => 1,
        Refusal::Backwards => BACKWARDS,
        Refusal::TooFar => 3,
        Refusal::TooMany => 4,
        Refusal::Wire(_) => NO_COMPOUND,
        Refusal::Rtp(_) => NO_RTP,
        Refusal::OwnSsrc => OWN_SSRC,
        Refusal::Settings(error) => of_error(*error),
    }
}

/// The status of a configuration that is refused.
pub fn of_error(error: ConfigError) -> u32
    ensures { result ≡ status_of_error error }
{
    match error {
        ConfigError::Cname => CNAME,
        ConfigError::Capacity => 12,
        ConfigError::Limit => 13,
        ConfigError::Bandwidth => 14,
        ConfigError::Rate => RATE,
        ConfigError::Item => ITEM,
    }
}
