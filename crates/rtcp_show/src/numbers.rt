//! Numbers and addresses of these texts.

ghost use Rattle.std.specs.Prelude.{◌≡◌, ◌++◌, ◌∷◌, [], OnOk};
ghost use Rattle.std.specs.Fmt.{decimal};
ghost use Rattle.rtcp_show.specs.Numbers.{moment_text, peer_text};

use rtcp_plain::numbers::push_fixed;
use rtcp_text::text::digits::push_decimal;
use std::alloc::AllocError;

/// Appends a moment of so many microseconds, in seconds.
pub(crate) fn push_moment(out: &mut Vec<u8>, moment: u64) -> Result<(), AllocError>
    ensures { OnOk result (out.new.items ≡ out.old.items ++ moment_text moment) }
{
    push_fixed(out, moment, 1_000_000)
}

/// Appends the address and the port of a peer, by the number of it.
pub(crate) fn push_peer(out: &mut Vec<u8>, peer: u64) -> Result<(), AllocError>
    ensures { OnOk result (out.new.items ≡ out.old.items ++ peer_text peer) }
{
    push_part(out, peer / (1 << 40) % 256, b'.')?;
    push_part(out, peer / (1 << 32) % 256, b'.')?;
    push_part(out, peer / (1 << 24) % 256, b'.')?;
    push_part(out, peer / (1 << 16) % 256, b':')?;
    push_decimal(out, peer % (1 << 16))
}

/// Appends a part of an address, and what stands after it.
fn push_part(out: &mut Vec<u8>, part: u64, after: u8) -> Result<(), AllocError>
    ensures { OnOk result (out.new.items ≡ out.old.items ++ decimal part ++ after ∷ []) }
{
    push_decimal(out, part)?;
    out.push(after)?;
    Ok(())
}
