//! What a host says to the guard before its participant, and asks it.

ghost use Rattle.std.specs.Prelude.{◌≡◌, ℕ};
ghost use Rattle.rtcp_guarded.specs.Guarded.{GuardedHistory, guard_at};
ghost use Rattle.jalwedd_host.specs.Guards.{Expects, LeadsGuardedTo, RefusesBeforeStart, SaysUnguarded, ShowsHeldBack, Trusts};
ghost use Rattle.jalwedd_host.specs.Handles.{IsUnguarded, told_in};

use jalwedd_host::guarded::HostCounts;
use jalwedd_host::handle::Handle;
use std::alloc::Global;

/// Says, when the host's clock shows `now`, in microseconds, that a source is expected from a peer, as signalling
/// knows: it belongs to the peer's origin from now on, as if that had named it now. The participant is not told.
///
/// Statuses: 0; 20 where the handle is empty; 19 where the session has no guard; 2 before the start; 25 where the
/// origin would have more sources than it may, or all origins together would. With 2 and 25 nothing changes.
#[unsafe(no_mangle)]
pub extern "C" fn jalwedd_expect(
    alloc: Global,
    handle: &mut Handle,
    now: u64,
    ssrc: u32,
    peer: u64,
) -> u32
    ensures expects { Expects ssrc peer now handle.old.owned.held handle.new.owned.held result }
    ensures told { told_in handle.new.owned.held ≡ told_in handle.old.owned.held }
    ensures unguarded { IsUnguarded handle.old.owned.held → handle.new.owned.held ≡ handle.old.owned.held }
    ensures live { SaysUnguarded handle.old.owned.held result }
    ensures early { RefusesBeforeStart now handle.old.owned.held handle.new.owned.held result }
    ensures empty { handle.old.owned.held ≡ None → result ≡ 20 }
{
    handle.expect(alloc, now, ssrc, peer)
}

/// Trusts a peer's origin with as many sources as the configuration's `trusted_names` says: a relay, a mixer or a
/// network address translator. The participant is not told.
///
/// Statuses: 0; 20 where the handle is empty; 19 where the session has no guard; 25 where 16 others are trusted
/// already.
#[unsafe(no_mangle)]
pub extern "C" fn jalwedd_trust(alloc: Global, handle: &mut Handle, peer: u64) -> u32
    ensures trusts { Trusts peer handle.old.owned.held handle.new.owned.held result }
    ensures told { told_in handle.new.owned.held ≡ told_in handle.old.owned.held }
    ensures unguarded { IsUnguarded handle.old.owned.held → handle.new.owned.held ≡ handle.old.owned.held }
    ensures live { SaysUnguarded handle.old.owned.held result }
    ensures empty { handle.old.owned.held ≡ None → result ≡ 20 }
{
    handle.trust(alloc, peer)
}

/// Writes what the guard held back so far.
///
/// Statuses: 0; 20 where the handle is empty; 19 where the session has no guard: then nothing is written.
#[unsafe(no_mangle)]
pub extern "C" fn jalwedd_held_back(
    alloc: Global,
    handle: &mut Handle,
    counts: &mut HostCounts,
) -> u32
    ensures told { (start : ℕ) (history : GuardedHistory) → LeadsGuardedTo handle.old.owned.held start history →
        (result ≡ 0) × ShowsHeldBack counts.new (guard_at history).held_back }
    ensures unguarded { IsUnguarded handle.old.owned.held → counts.new ≡ counts.old }
    ensures live { SaysUnguarded handle.old.owned.held result }
    ensures empty { handle.old.owned.held ≡ None → result ≡ 20 }
    ensures kept { handle.new.owned.held ≡ handle.old.owned.held }
{
    handle.held_back(alloc, counts)
}
