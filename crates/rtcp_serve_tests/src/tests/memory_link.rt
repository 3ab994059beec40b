//! A link in memory.

ghost use Rattle.std.specs.Prelude.{◌≡◌, length, IfOk};
ghost use Rattle.rtcp_serve.specs.Links.{LinkValue, IsWithin};

use super::log::{Log, Told};
use super::session::named;
use rtcp_serve::{Link, LinkFault, Port, Received};
use std::alloc::{AllocError, Global};
use std::cell::Cell;
use std::rc::Rc;

/// What comes while a port is listened to.
#[derive(Clone, Copy, PartialEq, Eq)]
pub(crate) enum Coming {
    /// These octets, from the peer of this number.
    Datagram(u64, &'static [u8]),
    /// The named compound of a source, from the peer of the same number.
    Named(u8),
    Nothing,
    Failure,
}

/// A link that answers from lists, and keeps a log.
#[derive(Drop)]
pub(crate) struct MemoryLink {
    /// The moments that the clock gives, the last one again once they are used up.
    moments: Vec<u64>,
    reads: usize,
    /// What comes, to whichever port is listened to.
    coming: Vec<Coming>,
    /// What comes once that is used up.
    pub(crate) in_the_end: Coming,
    receives: usize,
    /// The numbers of the sends that fail. The first one has the number 0.
    failing: Vec<u64>,
    sends: u64,
    pub(crate) log: Log,
    /// How many calls were made, for who watches.
    made: Rc<Cell<usize>>,
    failed_receives: u64,
    failed_sends: u64,
}

impl MemoryLink {
    /// A link that gives these moments, to which these come and then nothing, and which fails at the sends of
    /// these numbers. Its log has room for so many calls, and `made` has how many it keeps.
    pub(crate) fn new(
        alloc: Global,
        moments: &[u64],
        coming: &[Coming],
        failing: &[u64],
        room: usize,
        made: &Rc<Cell<usize>>,
    ) -> Result<MemoryLink, AllocError>
        ensures receives { IfOk result (λ link. link.failed_receives ≡ 0) }
        ensures sends { IfOk result (λ link. link.failed_sends ≡ 0) }
    {
        Ok(MemoryLink {
            moments: Vec::from_slice(alloc, moments)?,
            reads: 0,
            coming: Vec::from_slice(alloc, coming)?,
            in_the_end: Coming::Nothing,
            receives: 0,
            failing: Vec::from_slice(alloc, failing)?,
            sends: 0,
            log: Log::new(alloc, room),
            made: made.clone()?,
            failed_receives: 0,
            failed_sends: 0,
        })
    }

    /// What comes next.
    fn next(&mut self) -> Coming
        ensures log { self.new.log ≡ self.old.log }
        ensures receives { self.new.failed_receives ≡ self.old.failed_receives }
        ensures sends { self.new.failed_sends ≡ self.old.failed_sends }
    {
        let coming = match self.coming.get(self.receives) {
            Some(coming) => *coming,
            None => self.in_the_end,
        };
        self.receives = self.receives.saturating_add(1);
        coming
    }
}

impl Link for MemoryLink {
    ghost value = { λ link. record {
      log = ⟦<Log as Told>⟧.calls link.log;
      failed_receives = link.failed_receives;
      failed_sends = link.failed_sends;
    } };

    fn now(&mut self) -> u64 {
        let last = self.moments.len().saturating_sub(1);
        let moment = match self.moments.get(self.reads.min(last)) {
            Some(moment) => *moment,
            None => 0,
        };
        self.reads = self.reads.saturating_add(1);
        self.log.clock(moment);
        self.made.set(self.log.calls.len());
        moment
    }

    fn recv(&mut self, port: Port, buf: &mut [u8], wait_us: u64) -> Received {
        let received = deliver(self.next(), buf);
        if received == Received::Failed {
            self.failed_receives += 1;
        }
        self.log.receive(port, wait_us, buf, received);
        self.made.set(self.log.calls.len());
        received
    }

    fn send(&mut self, bytes: &[u8]) -> Result<(), LinkFault> {
        let failed = self.failing.contains(&self.sends);
        self.sends = self.sends.saturating_add(1);
        self.log.send(bytes, failed);
        self.made.set(self.log.calls.len());
        if failed {
            self.failed_sends += 1;
            return Err(LinkFault);
        }
        Ok(())
    }
}

/// Puts what comes into a buffer, as much as fits.
fn deliver(coming: Coming, buf: &mut [u8]) -> Received
    ensures within { IsWithin result buf.new }
    ensures length { length buf.new ≡ length buf.old }
{
    match coming {
        Coming::Datagram(peer, octets) => put(peer, octets, buf),
        Coming::Named(ssrc) => put(u64::from(ssrc), &named(ssrc), buf),
        Coming::Nothing => Received::Nothing,
        Coming::Failure => Received::Failed,
    }
}

fn put(peer: u64, octets: &[u8], buf: &mut [u8]) -> Received
    ensures within { IsWithin result buf.new }
    ensures length { length buf.new ≡ length buf.old }
{
    let count = octets.len().min(buf.len());
    buf[..count].copy_from_slice(&octets[..count]);
    Received::Got(count, peer)
}
