//! Sequence numbers (RFC 3550, appendix A.1). An ordinal stands for an integer that is congruent to a packet's
//! sequence number modulo 65536, and that counts the wraps. It is 65536 above that integer, so that it is
//! never negative.

ghost use Rattle.std.specs.Prelude.{◌≡◌, ◌≤◌, ◌<◌, ◌^◌, max, option_map};
ghost use Rattle.rtcp_source.specs.Packets.{ahead, is_near, ordinal_near, follows};
ghost use Rattle.rtcp_source.specs.Takings.{taken_as};

use crate::taken::Taken;

/// How far the ordinal of a run's first packet is above its number.
pub(crate) const FIRST: u64 = 65_536;

/// MAX_DROPOUT (A.1): a packet that is less far ahead than this is counted.
const MAX_DROPOUT: u16 = 3000;

/// MAX_MISORDER (A.1): a packet that is less far behind than this is late, and counted.
const MAX_MISORDER: u16 = 100;

/// 65536 less MAX_MISORDER: a packet that is further ahead than this, modulo 65536, is late.
const LATE: u16 = u16::MAX - MAX_MISORDER + 1;

/// What a packet is, by the greatest ordinal of the run, if one was started, and by the number of the last
/// stray.
pub(crate) fn judge(greatest: Option<u64>, stray: Option<u16>, seq: u16) -> Taken
    ensures { result ≡ taken_as greatest stray seq }
{
    match greatest {
        Some(greatest) => {
            let distance = distance_ahead(greatest, seq);
            if distance < MAX_DROPOUT || LATE < distance {
                Taken::Counted
            } else if follows_stray(stray, seq) {
                Taken::Restarted
            } else {
                Taken::Bad
            }
        }
        None => {
            if follows_stray(stray, seq) {
                Taken::Became
            } else {
                Taken::Probation
            }
        }
    }
}

/// Whether the number is the successor of the last stray's, modulo 65536.
fn follows_stray(stray: Option<u16>, seq: u16) -> bool
    ensures { result ≡ follows stray seq }
{
    match stray {
        Some(last) => seq == last.wrapping_add(1),
        None => false,
    }
}

/// The greatest ordinal with one packet more, whose number is near it: that of a late packet is lesser.
pub(crate) fn greatest_with(greatest: u64, seq: u16) -> u64
    requires low { 65536 ≤ greatest }
    requires high { greatest < 2 ^ 60 }
    ensures { result ≡ max (ordinal_near greatest seq) greatest }
{
    let distance = distance_ahead(greatest, seq);
    if distance < MAX_DROPOUT {
        greatest + distance as u64
    } else {
        greatest
    }
}

/// How far the number is ahead of the ordinal, modulo 65536.
fn distance_ahead(greatest: u64, seq: u16) -> u16
    ensures { result ≡ ahead greatest seq }
{
    seq.wrapping_sub((greatest % 65_536) as u16)
}
