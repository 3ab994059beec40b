//! What a session over a link counts.

ghost use Rattle.std.specs.Prelude.{◌≡◌, ◌≤◌, ◌<◌, ◌+◌, ◌^◌};
ghost use Rattle.rtcp_guarded.specs.Views.{guarded_value};
ghost use Rattle.rtcp_serve.specs.Tallies.{end_of, ends_session, is_limit, no_calls, with_arrival, with_datagram, with_failed_receive, with_moment, with_send, with_silence, EndsRow};

use crate::serving::{Cause, End};
use rtcp_engine::{OutKind, Refusal};
use rtcp_guarded::{GuardedAnswer, Untaken};

/// So many failed receives in a row end a session.
const MOST_FAILURES: u32 = 64;

/// The counts of a session over a link.
#[derive(Clone, Copy, Debug)]
pub(crate) struct Tally {
    /// The greatest moment that the link gave, in microseconds.
    pub(crate) moment: u64,
    /// The failed receives in a row, over both ports.
    pub(crate) failures: u32,
    pub(crate) received: u64,
    pub(crate) refused: u64,
    pub(crate) sent: u64,
    pub(crate) send_failures: u64,
    pub(crate) recv_failures: u64,
    pub(crate) bye: bool,
}

impl Tally {
    /// The counts of a session that begins.
    pub(crate) fn new() -> Tally
        ensures { result ≡ no_calls }
    {
        Tally {
            moment: 0,
            failures: 0,
            received: 0,
            refused: 0,
            sent: 0,
            send_failures: 0,
            recv_failures: 0,
            bye: false,
        }
    }

    /// The clock gave a moment.
    pub(crate) fn clock(&mut self, moment: u64)
        ensures moved { self.new ≡ with_moment moment self.old }
        ensures later { self.old.moment ≤ self.new.moment }
    {
        self.moment = self.moment.max(moment);
    }

    /// A datagram came.
    pub(crate) fn datagram(&mut self)
        requires { self.old.received + 1 < 2 ^ 64 }
        ensures moved { self.new ≡ with_datagram self.old }
        ensures still { self.new.moment ≡ self.old.moment }
    {
        self.received += 1;
        self.failures = 0;
    }

    /// Nothing came in time.
    pub(crate) fn silence(&mut self)
        ensures moved { self.new ≡ with_silence self.old }
        ensures still { self.new.moment ≡ self.old.moment }
    {
        self.failures = 0;
    }

    /// A receive failed.
    ///
    /// # Errors
    ///
    /// [`Cause::LinkDown`] where it is the 64th in a row.
    pub(crate) fn failed_receive(&mut self) -> Result<(), Cause>
        requires row { self.old.failures < 64 }
        requires room { self.old.recv_failures + 1 < 2 ^ 64 }
        ensures counted { self.new ≡ with_failed_receive self.old }
        ensures still { self.new.moment ≡ self.old.moment }
        ensures ends { EndsRow self.new.failures result }
    {
        self.recv_failures += 1;
        self.failures += 1;
        if self.failures == MOST_FAILURES {
            return Err(Cause::LinkDown);
        }
        Ok(())
    }

    /// An arrival was answered. One that was not taken counts, unless that is a limit.
    pub(crate) fn arrival(&mut self, answer: &GuardedAnswer)
        requires { self.old.refused + 1 < 2 ^ 64 }
        ensures moved { self.new ≡ with_arrival (guarded_value answer.now) self.old }
        ensures still { self.new.moment ≡ self.old.moment }
    {
        if let Err(untaken) = answer {
            if !ends_session(*untaken) {
                self.refused += 1;
            }
        }
    }

    /// A compound was handed to the link, of an answer that changed the SSRC or did not.
    pub(crate) fn send(&mut self, kind: OutKind, changed: Option<u32>, failed: bool)
        requires sent { self.old.sent + 1 < 2 ^ 64 }
        requires failures { self.old.send_failures + 1 < 2 ^ 64 }
        ensures moved { self.new ≡ with_send kind changed failed self.old }
        ensures still { self.new.moment ≡ self.old.moment }
    {
        self.sent += 1;
        self.send_failures += u64::from(failed);
        self.bye = self.bye || (kind == OutKind::Bye && changed.is_none());
    }

    /// What the session came to.
    pub(crate) fn end(&self, cause: Cause) -> End
        ensures { result ≡ end_of cause self.now }
    {
        End {
            cause,
            received: self.received,
            refused: self.refused,
            sent: self.sent,
            send_failures: self.send_failures,
            recv_failures: self.recv_failures,
            bye: self.bye,
        }
    }
}

/// Whether a session ends by what was not taken: a limit does, and nothing that a guard holds back.
pub(crate) fn ends_session(untaken: Untaken) -> bool
    ensures { result ≡ ends_session untaken }
{
    match untaken {
        Untaken::Refused(refusal) => is_limit(refusal),
        Untaken::HeldBack(_) => false,
    }
}

/// Whether a refusal ends a session: no later call would be taken either.
fn is_limit(refusal: Refusal) -> bool
    ensures { result ≡ is_limit refusal }
{
    matches!(refusal, Refusal::TooFar | Refusal::TooMany)
}
