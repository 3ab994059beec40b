//! What a host keeps.

ghost use Rattle.std.specs.Prelude.{◌≡◌, ◌≤◌, ◌+◌, ℕ, IfOk, List, MatchOption, MatchResult, Option, Some, None};
ghost use Rattle.rtcp_members.specs.Listings.{StateValue};
ghost use Rattle.rtcp_engine.specs.answers.Histories.{History, life_at, setup_at};
ghost use Rattle.rtcp_engine.specs.answers.Lives.{ListsInLife, entries_in_life};
ghost use Rattle.rtcp_engine.specs.state.Promises.{SaysStanding};
ghost use Rattle.rtcp_engine.specs.state.Views.{LeavesRest, out_written, reply_value, size_written};
ghost use Rattle.jalwedd_host.specs.Answers.{HandsNothing, HandsOut, IsBlank, Shows};
ghost use Rattle.jalwedd_host.specs.Answers.{status_of};
ghost use Rattle.jalwedd_host.specs.Handles.{Leads, LeadsTo};
ghost use Rattle.jalwedd_host.specs.Promises.{SparesSession, TurnsAway, TurnsBack};
ghost use Rattle.jalwedd_host.specs.Sources.{IsShown, after_of};

use crate::owned::Owned;
use crate::owned::loose::Loose;
use crate::session::HostSession;
use crate::source::{HostSource, before};
use crate::status::{EMPTY, OWN_SSRC, TAKEN, of_refusal};
use crate::step::{Handing, HostStep};
use rtcp_engine::laws::listed_moments_have_passed;
use rtcp_engine::{Refusal, Reply};
use std::alloc::Global;
use std::mem;

/// What the host has of a participant: zeros at first.
#[repr(C)]
pub struct Handle {
    /// The session on the heap, or none.
    pub owned: Owned,
}

impl Handle {
    /// What a host begins with.
    pub fn empty(alloc: Global) -> Handle
        ensures { result.owned.held ≡ None }
    {
        Handle {
            owned: Owned::vacant(alloc),
        }
    }

    /// Leaves it empty, and gives what was held.
    pub fn take(&mut self, alloc: Global) -> Option<Box<HostSession>>
        ensures gives { MatchOption result (self.old.owned.held ≡ None) (λ b. self.old.owned.held ≡ Some b.value) }
        ensures empty { self.new.owned.held ≡ None }
    {
        let owned = mem::replace(&mut self.owned, Owned::vacant(alloc));
        match owned.into_loose() {
            Some(loose) => Some(loose.into_box()),
            None => None,
        }
    }

    /// Fills it with a session, where it is empty.
    pub fn put(&mut self, session: Box<HostSession>)
        requires { self.old.owned.held ≡ None }
        ensures { self.new.owned.held ≡ Some session.value }
    {
        self.owned = Owned::of_loose(Loose::of(session));
    }

    /// Takes the session out for a call when the host's clock shows `now`, with the moment since the start. Where there
    /// is none, or the call comes before the start, the step and the status say so.
    #[inline(always)]
    pub fn open(
        &mut self,
        alloc: Global,
        now: u64,
        step: &mut HostStep,
    ) -> Result<(Box<HostSession>, u64), u32>
        ensures { MatchResult result
            (λ opened. (self.old.owned.held ≡ Some opened.0.value) × (self.new.owned.held ≡ None)
            × (now ≡ opened.0.value.start + opened.1))
            (λ status. TurnsBack now self.old.owned.held self.new.owned.held status step.new) }
    {
        let Some(session) = self.take(alloc) else {
            *step = HostStep::blank();
            return Err(EMPTY);
        };
        // Compared, and not subtracted with a check: that makes ready a moment for a call that has none.
        if now < session.start {
            let refusal = session.early_refusal();
            return Err(self.put_back_untold(session, of_refusal(&refusal), step));
        }
        let moment = now - session.start;
        Ok((session, moment))
    }

    /// Answers a call that came with more than it takes, whatever it tells.
    #[cold]
    #[inline(never)]
    pub fn turn_away(&mut self, alloc: Global, status: u32, step: &mut HostStep) -> u32
        ensures turns_away { (octets : List ℕ) →
            TurnsAway status self.old.owned.held result step.new octets octets }
        ensures spares { (octets : List ℕ) →
            SparesSession self.old.owned.held self.new.owned.held result step.new octets octets }
        ensures nothing { step.new.kind ≡ 0 }
        ensures kept { self.new.owned.held ≡ self.old.owned.held }
    {
        match self.take(alloc) {
            Some(session) => self.put_back_untold(session, status, step),
            None => {
                *step = HostStep::blank();
                EMPTY
            }
        }
    }

    /// Puts back a session, tells what its participant replied and how it stands now, and returns the status.
    // Inlined, so that a call writes what it tells at once. A peer may come with the own SSRC again and again, so that
    // is told in line too, and the path of a call that is taken has nothing of rare refusals to jump over.
    #[inline(always)]
    pub fn put_back(
        &mut self,
        session: Box<HostSession>,
        reply: &Reply,
        handing: Handing,
        step: &mut HostStep,
    ) -> u32
        requires vacant { self.old.owned.held ≡ None }
        requires written { size_written (out_written reply.now) ≤ 1472 }
        requires standing { IfOk reply.now (λ told. SaysStanding told.standing session.value.participant) }
        ensures held { self.new.owned.held ≡ Some session.value }
        ensures status { (octets : List ℕ) → result ≡ status_of (reply_value octets reply.now) }
        ensures handed { (was octets : List ℕ) → LeavesRest was octets (out_written reply.now) →
            HandsOut step.new was octets (reply_value octets reply.now) }
        ensures shown { (start : ℕ) (history : History) → Leads session.value start history →
            Shows start step.new history }
    {
        match reply {
            Ok(told) => {
                *step = session.step_after(told, handing);
                self.put(session);
                TAKEN
            }
            Err(Refusal::OwnSsrc) => {
                *step = session.step();
                self.put(session);
                OWN_SSRC
            }
            Err(refusal) => self.put_back_untold(session, of_refusal(refusal), step),
        }
    }

    /// Puts back a session that a call told nothing, says how its participant stands, and returns the status.
    // Out of line, so that no call that is taken pays for it.
    #[cold]
    #[inline(never)]
    pub fn put_back_untold(
        &mut self,
        session: Box<HostSession>,
        status: u32,
        step: &mut HostStep,
    ) -> u32
        requires { self.old.owned.held ≡ None }
        ensures held { self.new.owned.held ≡ Some session.value }
        ensures status { result ≡ status }
        ensures nothing { HandsNothing step.new }
        ensures shown { (start : ℕ) (history : History) → Leads session.value start history →
            Shows start step.new history }
    {
        *step = session.step();
        self.put(session);
        status
    }

    /// How many entries the table holds: none where the handle is empty.
    pub fn entries(&mut self, alloc: Global) -> u32
        ensures entries { (start : ℕ) (history : History) → LeadsTo self.old.owned.held start history →
            result ≡ entries_in_life (setup_at history) (life_at history) }
        ensures none { self.old.owned.held ≡ None → result ≡ 0 }
        ensures kept { self.new.owned.held ≡ self.old.owned.held }
    {
        match self.take(alloc) {
            Some(session) => {
                let entries = session.participant.entries();
                self.put(session);
                entries
            }
            None => 0,
        }
    }

    /// What is known of the source of least SSRC from `from` on: nothing where the handle is empty.
    pub fn source(&mut self, alloc: Global, from: u64) -> Option<HostSource>
        ensures listed { (start : ℕ) (history : History) → LeadsTo self.old.owned.held start history →
            MatchOption result (ListsInLife (setup_at history) (after_of from) (life_at history) None)
            (λ shown. (state : StateValue)
            × ListsInLife (setup_at history) (after_of from) (life_at history) (Some state)
            × IsShown start shown state) }
        ensures none { self.old.owned.held ≡ None → result ≡ None }
        ensures kept { self.new.owned.held ≡ self.old.owned.held }
    {
        match self.take(alloc) {
            Some(mut session) => {
                // what is told lies in the past, so the clock can show it
                listed_moments_have_passed();
                let state = session.participant.next_source(before(from));
                let start = session.start;
                self.put(session);
                match state {
                    Some(state) => Some(HostSource::of(&state, start)),
                    None => None,
                }
            }
            None => None,
        }
    }

    /// What there is to tell at any time: a blank step where it is empty.
    pub fn step(&mut self, alloc: Global) -> HostStep
        ensures shown { (start : ℕ) (history : History) → LeadsTo self.old.owned.held start history →
            Shows start result history }
        ensures blank { self.old.owned.held ≡ None → IsBlank result }
        ensures kept { self.new.owned.held ≡ self.old.owned.held }
    {
        match self.take(alloc) {
            Some(session) => {
                let step = session.step();
                self.put(session);
                step
            }
            None => HostStep::blank(),
        }
    }
}

// Only an empty one is let go, so that no session is lost.
impl Drop for Handle {
    fn drop(self)
        requires { self.owned.held ≡ None }
    {
        let Handle { owned } = self;
        drop(owned);
    }
}
