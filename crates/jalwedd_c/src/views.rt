//! What a handle tells at any time.

ghost use Rattle.std.specs.Prelude.{◌≡◌, ◌^◌, ◌-◌, ◌↔◌, ℕ, Option, Some, None};
ghost use Rattle.rtcp_engine.specs.answers.Histories.{History, life_at, setup_at};
ghost use Rattle.rtcp_engine.specs.answers.Lives.{members_in_life, senders_in_life, entries_in_life, next_in_life, ListsInLife};
ghost use Rattle.rtcp_engine.specs.answers.OwnCounts.{own_counts_in_life};
ghost use Rattle.jalwedd_host.specs.Answers.{moment_shown};
ghost use Rattle.rtcp_members.specs.Listings.{StateValue};
ghost use Rattle.jalwedd_host.specs.Handles.{LeadsTo};
ghost use Rattle.jalwedd_host.specs.Owns.{ShowsOwn};
ghost use Rattle.jalwedd_host.specs.Promises.{AnswersOf};
ghost use Rattle.jalwedd_host.specs.Sources.{ShowsSource, after_of};

use jalwedd_host::handle::Handle;
use jalwedd_host::own::HostOwn;
use jalwedd_host::source::HostSource;
use jalwedd_host::status::{NO_SOURCE, TAKEN};
use std::alloc::Global;

/// The members of the session, the participant included (RFC 3550, 6.2.1). In the backoff after a leave, the
/// participant and one for each BYE packet that came since (6.3.7). 0 once it has left, and for an empty handle.
#[unsafe(no_mangle)]
pub extern "C" fn jalwedd_members(alloc: Global, handle: &mut Handle) -> u32
    ensures { AnswersOf (λ start history. members_in_life (setup_at history) (life_at history)) 0
        handle.old.owned.held handle.new.owned.held result }
{
    handle.step(alloc).members
}

/// The members that send RTP packets: 0 once the participant leaves, and for an empty handle.
#[unsafe(no_mangle)]
pub extern "C" fn jalwedd_senders(alloc: Global, handle: &mut Handle) -> u32
    ensures { AnswersOf (λ start history. senders_in_life (setup_at history) (life_at history)) 0
        handle.old.owned.held handle.new.owned.held result }
{
    handle.step(alloc).senders
}

/// When to call `jalwedd_tick` next, in microseconds of the host's clock: 2^64 - 1 once the participant has left, and
/// for an empty handle.
#[unsafe(no_mangle)]
pub extern "C" fn jalwedd_next(alloc: Global, handle: &mut Handle) -> u64
    ensures next { AnswersOf (λ start history. moment_shown start (next_in_life (life_at history))) (2 ^ 64 - 1)
        handle.old.owned.held handle.new.owned.held result }
    ensures never { (start : ℕ) (history : History) → LeadsTo handle.old.owned.held start history →
        (result ≡ 2 ^ 64 - 1) ↔ (next_in_life (life_at history) ≡ None) }
{
    handle.step(alloc).next
}

/// The SSRC under which the participant takes part, or did last: 0 for an empty handle.
#[unsafe(no_mangle)]
pub extern "C" fn jalwedd_ssrc(alloc: Global, handle: &mut Handle) -> u32
    ensures { AnswersOf (λ start history. (setup_at history).ssrc) 0 handle.old.owned.held handle.new.owned.held result }
{
    handle.step(alloc).ssrc
}

/// How many entries the participant's table holds: members, sources that are not yet valid, and those that left and are
/// held for a while. If this equals the configuration's `capacity` the table is full, as under a flood of invented
/// SSRCs, and admits no other source until one is dropped. 0 once the participant leaves, and for an empty handle.
#[unsafe(no_mangle)]
pub extern "C" fn jalwedd_entries(alloc: Global, handle: &mut Handle) -> u32
    ensures { AnswersOf (λ start history. entries_in_life (setup_at history) (life_at history)) 0
        handle.old.owned.held handle.new.owned.held result }
{
    handle.entries(alloc)
}

/// Gives what is known about the source of least SSRC from `from` on: among members, sources that are not yet valid,
/// and those that left and are held for a while, but not the participant itself. Begin with 0, and go on with that SSRC
/// plus 1, until the status is not 0: then each source was given once. `source` is left as it is where there is none.
///
/// Statuses: 0; 9 where there is no such source, once the participant leaves, and for an empty handle.
#[unsafe(no_mangle)]
pub extern "C" fn jalwedd_source(
    alloc: Global,
    handle: &mut Handle,
    from: u64,
    source: &mut HostSource,
) -> u32
    ensures told { (start : ℕ) (history : History) → LeadsTo handle.old.owned.held start history →
        (told : Option StateValue)
        × ListsInLife (setup_at history) (after_of from) (life_at history) told
        × ShowsSource start result source.old source.new told }
    ensures never_left { (start : ℕ) (history : History) (state : StateValue) →
        LeadsTo handle.old.owned.held start history →
        ListsInLife (setup_at history) (after_of from) (life_at history) (Some state) →
        (source.new.left ≡ 2 ^ 64 - 1) ↔ (state.left ≡ None) }
    ensures never_reported { (start : ℕ) (history : History) (state : StateValue) →
        LeadsTo handle.old.owned.held start history →
        ListsInLife (setup_at history) (after_of from) (life_at history) (Some state) →
        (source.new.told ≡ 2 ^ 64 - 1) ↔ (state.last_report ≡ None) }
    ensures empty { handle.old.owned.held ≡ None → (result ≡ 9) × (source.new ≡ source.old) }
    ensures kept { handle.new.owned.held ≡ handle.old.owned.held }
{
    match handle.source(alloc, from) {
        Some(shown) => {
            *source = shown;
            TAKEN
        }
        None => NO_SOURCE,
    }
}

/// Writes what the participant has sent under its present SSRC, as a sender report of now would tell it, and whether it
/// counts as a sender (RFC 3550, 6.3.8, 6.4.1). `own` is left as it is where the status is not 0.
///
/// Statuses: 0; 1 once the participant leaves, as it reports nothing from then on; 20 where the handle is empty.
#[unsafe(no_mangle)]
pub extern "C" fn jalwedd_own(alloc: Global, handle: &mut Handle, own: &mut HostOwn) -> u32
    ensures told { (start : ℕ) (history : History) → LeadsTo handle.old.owned.held start history →
        ShowsOwn result own.old own.new (own_counts_in_life (life_at history)) }
    ensures empty { handle.old.owned.held ≡ None → (result ≡ 20) × (own.new ≡ own.old) }
    ensures kept { handle.new.owned.held ≡ handle.old.owned.held }
{
    handle.own(alloc, own)
}
