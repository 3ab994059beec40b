//! The bodies of BYEs (RFC 3550, 6.6), appended.

ghost use Rattle.std.specs.Prelude.{◌≡◌, ◌+◌, ◌≤◌, ◌<◌, ◌^◌, ◌++◌, ◌∷◌, [], All, length, option_copied};
ghost use Rattle.std.specs.List.{flat_map};
ghost use Rattle.arrayvec.specs.ArrayVec.{array_vec_len};
ghost use Rattle.rtcp_wire.specs.Writing.{written_word, written_reason, IsWritableReason};

use crate::writer::MAX_COMPOUND;
use crate::writer::append::{append, append_fill, append_u32};
use arrayvec::ArrayVec;

/// Appends the identifiers of a BYE.
pub(super) fn append_ids(buffer: &mut ArrayVec<u8, MAX_COMPOUND>, ids: &[u32])
    requires { array_vec_len buffer.old + length (flat_map written_word ids.now) ≤ 1472 }
    ensures octets { buffer.new.items ≡ buffer.old.items ++ flat_map written_word ids.now }
    ensures in_range { All (λ id. id < 2 ^ 32) ids.now }
{
    for id in ids {
        append_u32(buffer, *id);
    }
}

/// Appends a reason, if there is one.
pub(super) fn append_reason(buffer: &mut ArrayVec<u8, MAX_COMPOUND>, reason: Option<&[u8]>)
    requires writable { IsWritableReason (option_copied reason) }
    requires room { array_vec_len buffer.old + length (written_reason (option_copied reason)) ≤ 1472 }
    ensures { buffer.new.items ≡ buffer.old.items ++ written_reason (option_copied reason.entry) }
{
    if let Some(text) = reason {
        append(buffer, &[text.len() as u8]);
        append(buffer, text);
        append_fill(buffer, text.len() + 1);
    }
}
