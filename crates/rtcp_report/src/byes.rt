//! What a participant sends as it leaves (RFC 3550, 6.3.7, 6.6).

ghost use Rattle.std.specs.Prelude.{◌≡◌, ◌+◌, ◌≤◌, ◌<◌, ◌^◌, ℕ, length, take, drop};
ghost use Rattle.rtcp_wire.specs.Grammar.{IsAccepted};
ghost use Rattle.rtcp_wire.specs.Puts.{IsPut};
ghost use Rattle.rtcp_wire.specs.Writing.{written, written_all};
ghost use Rattle.rtcp_report.specs.Reports.{bye_of, bye_packet, receiver_named, report_size};

use crate::compound::{copy, first_size};
use crate::description::put_description;
use crate::reports::put_receiver_head;
use arrayvec::ArrayVec;
use rtcp_wire::layout::{GOODBYE, ID_SIZE};
use rtcp_wire::{MAX_COMPOUND, put_header, put_word};

/// The octets of a BYE of one source, without a reason.
const GOODBYE_SIZE: u32 = 8;

/// The compound of a participant that leaves (RFC 3550, 6.3.7): a receiver report without blocks, the
/// description by the CNAME, of at most 255 octets, and a BYE of its SSRC without a reason. It has from 28 to
/// 284 octets.
pub fn bye(ssrc: u32, cname: &[u8]) -> ArrayVec<u8, MAX_COMPOUND>
    requires { length cname.now ≤ 255 }
    ensures octets { result.items ≡ written_all (bye_of ssrc cname.now) }
    ensures size { length result.items ≡ report_size (receiver_named ssrc cname.now) 0 + 8 }
    ensures small { length result.items ≤ 284 }
    ensures reads_back { IsAccepted result.items (bye_of ssrc cname.now) }
{
    let mut octets = ArrayVec::new();
    write_bye(ssrc, cname, &mut octets);
    octets
}

/// Writes the compound of [`bye`] into the caller's room, in place of what stood there: `octets` are cleared
/// first.
pub fn write_bye(ssrc: u32, cname: &[u8], octets: &mut ArrayVec<u8, MAX_COMPOUND>)
    requires { length cname.now ≤ 255 }
    ensures octets { octets.new.items ≡ written_all (bye_of ssrc cname.now) }
    ensures size { length octets.new.items ≡ report_size (receiver_named ssrc cname.now) 0 + 8 }
    ensures small { length octets.new.items ≤ 284 }
    ensures reads_back { IsAccepted octets.new.items (bye_of ssrc cname.now) }
{
    let mut room = [0; MAX_COMPOUND];
    let size = write_bye_into(ssrc, cname, &mut room);
    copy(&room[..size], octets);
}

/// Writes the compound of [`bye`] to the start of the caller's octets, and returns how many it has: those after it
/// are left as they were.
pub fn write_bye_into(ssrc: u32, cname: &[u8], octets: &mut [u8; MAX_COMPOUND]) -> usize
    requires { length cname.now ≤ 255 }
    ensures octets { take result octets.new ≡ written_all (bye_of ssrc cname.now) }
    ensures size { result ≡ report_size (receiver_named ssrc cname.now) 0 + 8 }
    ensures small { result ≤ 284 }
    ensures reads_back { IsAccepted (take result octets.new) (bye_of ssrc cname.now) }
    ensures rest { drop result octets.new ≡ drop result octets.old }
{
    let mut end = put_receiver_head(octets, 0, ssrc, 0);
    end = put_description(octets, end, ssrc, cname, None);
    put_goodbye(octets, end, ssrc)
}

/// The octets of that compound, whatever the SSRC.
pub fn bye_size(cname: &[u8]) -> u32
    requires { length cname.now ≤ 255 }
    ensures exact { (ssrc : ℕ) → result ≡ length (written_all (bye_of ssrc cname.now)) }
    ensures small { result ≤ 284 }
{
    first_size(cname) + GOODBYE_SIZE
}

/// Writes a BYE of one source at its place. Returns where it ends.
fn put_goodbye(octets: &mut [u8; MAX_COMPOUND], at: usize, ssrc: u32) -> usize
    requires { at + 8 ≤ 1472 }
    ensures { IsPut octets.old octets.new at (written (bye_packet ssrc)) result }
{
    let end = put_header(octets, at, 1, GOODBYE, ID_SIZE);
    put_word(octets, end, ssrc)
}
