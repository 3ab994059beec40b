//! The begin of a participant, and its end.

ghost use Rattle.std.specs.Prelude.{◌≡◌, ◌≢◌, ◌⊎◌, ◌↔◌, ◌≤◌, ℕ, IfOk, IsTrue, Some, None, option_map};
ghost use Rattle.std.specs.Box.{box_value};
ghost use Rattle.rtcp_engine.specs.answers.Histories.{History};
ghost use Rattle.rtcp_engine.specs.state.Taken.{begun};
ghost use Rattle.jalwedd_host.specs.Answers.{HandsNothing, Shows};
ghost use Rattle.jalwedd_host.specs.Configs.{guard_begun, refusal_of, refusal_of_guard, setup_given};
ghost use Rattle.jalwedd_host.specs.Guards.{LeadsGuardedTo, guarded_begun};
ghost use Rattle.jalwedd_host.specs.Handles.{IsUnguarded, Leads};
ghost use Rattle.jalwedd_host.specs.Promises.{AnswersLive, AnswersVacant, Begins};

use jalwedd_host::config::{Config, GuardConfig, Item, START_LIMIT, blank, fill};
use jalwedd_host::handle::Handle;
use jalwedd_host::session::HostSession;
use jalwedd_host::status::{EMPTY, GUARD, LIVE, NO_MEMORY, START, TAKEN, of_error};
use jalwedd_host::step::HostStep;
use rtcp_engine::Participant;
use rtcp_guard::{Guard, Settings};
use rtcp_members::HeapTable;
use std::alloc::{AllocError, Global};

/// Puts a participant of a session that begins now, when the host's clock shows the configuration's `start`, into an
/// empty handle. `word` is a random word, for the draw of the first interval. Call `jalwedd_tick` at the step's `next`.
/// This call alone takes memory, in three blocks: 136 and 8 octets for each source of the capacity, and 2,760; with a
/// guard in two more, 48 octets for each source of the capacity, and 496.
///
/// Statuses: 0; 21 where the handle holds a participant, which is then the one that the step tells of; 11 to 18 by the
/// first of C1 to C8 that applies, where a CNAME of more than 255 octets, more than 7 items, and then more than 16
/// clocks or a payload type above 255, are tested before the others; 22.
#[unsafe(no_mangle)]
pub extern "C" fn jalwedd_new(
    alloc: Global,
    handle: &mut Handle,
    config: &Config,
    cname: &[u8],
    items: &[Item],
    word: u32,
    step: &mut HostStep,
) -> u32
    ensures begins { result ≡ 0 →
        Begins config.now.start (begun (setup_given config.now cname.now items.now) word)
        handle.new.owned.held step.new }
    ensures unguarded { result ≡ 0 → config.now.guard.names ≡ 0 → IsUnguarded handle.new.owned.held }
    ensures guarded { result ≡ 0 → config.now.guard.names ≢ 0 →
        LeadsGuardedTo handle.new.owned.held config.now.start
        (guarded_begun config.now cname.now items.now word) }
    ensures vacant { handle.old.owned.held ≡ None →
        AnswersVacant (refusal_of config.now cname.now items.now) handle.new.owned.held result step.new }
    ensures live { AnswersLive handle.old.owned.held result step.new }
    ensures nothing_handed { HandsNothing step.new }
    ensures kept { result ≢ 0 → handle.new.owned.held ≡ handle.old.owned.held }
{
    if let Some(session) = handle.take(alloc) {
        *step = session.step();
        handle.put(session);
        return LIVE;
    }
    *step = HostStep::blank();
    let mut given = blank();
    if let Some(status) = fill(&mut given, config, cname, items) {
        return status;
    }
    if let Some(error) = given.error() {
        return of_error(error);
    }
    if config.start >= START_LIMIT {
        return START;
    }
    if !can_guard(&config.guard) {
        return GUARD;
    }
    let guard = match guard_of(alloc, given.capacity, &config.guard) {
        Ok(guard) => guard,
        Err(_) => return NO_MEMORY,
    };
    let table = match HeapTable::with_room(alloc, given.capacity) {
        Ok(table) => table,
        Err(_) => return NO_MEMORY,
    };
    let session = HostSession {
        participant: Participant::with_table(given, table, word),
        start: config.start,
        guard,
    };
    begin(alloc, handle, session, step)
}

/// Frees the participant of a handle, which is empty then: it is told nothing of it, and nothing goes out.
///
/// Statuses: 0; 20 where the handle is empty.
#[unsafe(no_mangle)]
pub extern "C" fn jalwedd_free(alloc: Global, handle: &mut Handle) -> u32
    ensures freed { handle.new.owned.held ≡ None }
    ensures empty { handle.old.owned.held ≡ None → result ≡ 20 }
    ensures live { (session : HostSession) → handle.old.owned.held ≡ Some session → result ≡ 0 }
{
    match handle.take(alloc) {
        Some(_) => TAKEN,
        None => EMPTY,
    }
}

/// Puts a session into an empty handle.
fn begin(alloc: Global, handle: &mut Handle, session: HostSession, step: &mut HostStep) -> u32
    requires { handle.old.owned.held ≡ None }
    ensures begun { result ≡ 0 → handle.new.owned.held ≡ Some session }
    ensures shows { (start : ℕ) (history : History) → Leads session start history → result ≡ 0 →
        Shows start step.new history }
    ensures untouched { result ≢ 0 → step.new ≡ step.old }
    ensures nothing_handed { result ≡ 0 → HandsNothing step.new }
    ensures status { (result ≡ 0) ⊎ (result ≡ 22) }
    ensures kept { result ≢ 0 → handle.new.owned.held ≡ None }
{
    match Box::new(alloc, session) {
        Ok(session) => {
            *step = session.step();
            handle.put(session);
            TAKEN
        }
        Err(_) => NO_MEMORY,
    }
}

/// Whether an origin, a trusted one too, may have so many sources (C8).
fn can_guard(given: &GuardConfig) -> bool
    ensures { IsTrue result ↔ (refusal_of_guard given.now ≡ None) }
{
    given.names <= 1_024 && given.trusted_names <= 1_024
}

/// The guard of a configuration before a participant of this capacity: none where an origin may have no source.
///
/// # Errors
///
/// There is no memory.
fn guard_of(
    alloc: Global,
    capacity: u32,
    given: &GuardConfig,
) -> Result<Option<Box<Guard>>, AllocError>
    requires few { capacity ≤ 1024 }
    requires usable { refusal_of_guard given.now ≡ None }
    ensures { IfOk result (λ guard. option_map box_value guard ≡ guard_begun capacity given.now) }
{
    if given.names == 0 {
        return Ok(None);
    }
    let settings = Settings {
        sources: capacity as u16,
        names: given.names as u16,
        trusted_names: given.trusted_names as u16,
        hold: given.hold,
    };
    let guard = Guard::new(alloc, settings)?;
    Ok(Some(Box::new(alloc, guard)?))
}
