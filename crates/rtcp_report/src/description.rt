//! The description of a sender (RFC 3550, 6.5): its CNAME, and perhaps an extra item.

ghost use Rattle.std.specs.Prelude.{◌≡◌, ◌+◌, ◌≤◌, ◌<◌, ◌^◌, length, sum_by};
ghost use Rattle.std.specs.List.{flat_map};
ghost use Rattle.std.specs.Option.{ForSome};
ghost use Rattle.rtcp_wire.specs.Puts.{IsPut};
ghost use Rattle.rtcp_wire.specs.Writing.{written, written_item, IsWritableItem};
ghost use Rattle.rtcp_report.specs.Reports.{description_of, receiver_with, items_of};
ghost use Rattle.rtcp_report.specs.Sizes.{description_size, item_size};
ghost use Rattle.rtcp_report.specs.Views.{extra_of};

use crate::sender::Item;
use rtcp_wire::layout::{HEADER_SIZE, ID_SIZE, SOURCE_DESCRIPTION, WORD_SIZE};
use rtcp_wire::{CNAME, MAX_COMPOUND, put_header, put_item, put_word};

/// The octets of a source description before its items: the header, and an SSRC.
const HEAD_SIZE: usize = HEADER_SIZE + ID_SIZE;

/// The octets of an item before its text.
const ITEM_HEAD_SIZE: usize = 2;

/// Writes a source description of one chunk at its place. Returns where it ends.
pub(crate) fn put_description(
    octets: &mut [u8; MAX_COMPOUND],
    at: usize,
    ssrc: u32,
    cname: &[u8],
    extra: Option<&Item>,
) -> usize
    requires cname { length cname.now ≤ 255 }
    requires extra { ForSome (extra_of extra) IsWritableItem }
    requires room { at + description_size (items_of cname.now (extra_of extra)) ≤ 1472 }
    ensures put { IsPut octets.old octets.new at
        (written (description_of (receiver_with ssrc (items_of cname.now (extra_of extra.entry))))) result }
    ensures in_range { ssrc < 2 ^ 32 }
{
    let end = at + description_size(cname, extra);
    // The items may leave some of the last word, and at least its last octet: zeros.
    put_word(octets, end - WORD_SIZE, 0);
    put_items(octets, at + HEAD_SIZE, cname, extra);
    put_word(octets, at + HEADER_SIZE, ssrc);
    put_header(octets, at, 1, SOURCE_DESCRIPTION, end - at - HEADER_SIZE);
    end
}

fn put_items(
    octets: &mut [u8; MAX_COMPOUND],
    at: usize,
    cname: &[u8],
    extra: Option<&Item>,
) -> usize
    requires cname { length cname.now ≤ 255 }
    requires extra { ForSome (extra_of extra) IsWritableItem }
    requires room { at + sum_by item_size (items_of cname.now (extra_of extra)) ≤ 1472 }
    ensures { IsPut octets.old octets.new at
        (flat_map written_item (items_of cname.now (extra_of extra.entry))) result }
{
    let end = put_item(octets, at, CNAME, cname);
    match extra {
        Some(item) => put_item(octets, end, item.kind, item.text.as_slice()),
        None => end,
    }
}

/// The octets of a source description of one chunk, its header included.
pub(crate) fn description_size(cname: &[u8], extra: Option<&Item>) -> usize
    requires cname { length cname.now ≤ 255 }
    requires extra { ForSome (extra_of extra) IsWritableItem }
    ensures value { result ≡ description_size (items_of cname.now (extra_of extra.entry)) }
    ensures small { result ≤ 524 }
{
    HEAD_SIZE + WORD_SIZE * (items_size(cname, extra) / WORD_SIZE + 1)
}

fn items_size(cname: &[u8], extra: Option<&Item>) -> usize
    requires cname { length cname.now ≤ 255 }
    requires extra { ForSome (extra_of extra) IsWritableItem }
    ensures value { result ≡ sum_by item_size (items_of cname.now (extra_of extra.entry)) }
    ensures small { result ≤ 514 }
{
    let size = ITEM_HEAD_SIZE + cname.len();
    match extra {
        Some(item) => size + ITEM_HEAD_SIZE + item.text.len(),
        None => size,
    }
}
