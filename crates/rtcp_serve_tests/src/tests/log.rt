//! The calls of a link, as a test reads them.

ghost use Rattle.std.specs.Prelude.{ℕ, List, [], ◌∷◌, map, reverse, Option, Some, None, if◌then◌else◌};
ghost use Rattle.rtcp_serve_tests.specs.declared.tests.log.Made.TheVariants.{Clock, Came, Silence, Failure, Sent};
ghost use Rattle.rtcp_serve.specs.Links.{Call, GrowsBy, IsWithin, clock_read, port_heard, compound_sent, datagram, silence, failure, heard_in};

use rtcp_serve::{Port, Received};
use std::alloc::Global;

/// A call of a link, with what it answered.
#[derive(Drop, Debug, PartialEq, Eq)]
pub(crate) enum Made {
    /// The clock gave a moment.
    Clock(u64),
    /// A datagram came to a port, which was listened to for so long at most, from the peer of this number.
    Came(Port, u64, u64, Vec<u8>),
    /// Nothing came to it.
    Silence(Port, u64),
    /// Listening to it failed.
    Failure(Port, u64),
    /// A compound was handed over to be sent, which failed or not.
    Sent(Vec<u8>, bool),
}

/// What a clause knows of a log.
pub(crate) trait Told {
    ghost calls: { Self → Option (List Call) };
}

/// The calls of a link in their order, as long as they fit the room that was reserved for them.
#[derive(Drop)]
pub(crate) struct Log {
    alloc: Global,
    pub(crate) calls: Vec<Made>,
    /// Whether each call fitted.
    pub(crate) is_whole: bool,
}

impl Told for Log {
    ghost calls = { λ log. if log.is_whole then Some (reverse (map (λ made. elim made [
      | Clock moment ↦ clock_read moment
      | Came port wait peer octets ↦ port_heard port wait (datagram peer octets.items)
      | Silence port wait ↦ port_heard port wait silence
      | Failure port wait ↦ port_heard port wait failure
      | Sent octets failed ↦ compound_sent octets.items failed
    ]) log.calls.items)) else None };
}

impl Log {
    /// A log with room for so many calls, and none where there is no memory for them.
    pub(crate) fn new(alloc: Global, room: usize) -> Log {
        match Vec::with_capacity(alloc, room) {
            Ok(calls) => Log {
                alloc,
                calls,
                is_whole: true,
            },
            Err(_) => Log {
                alloc,
                calls: Vec::new(alloc),
                is_whole: false,
            },
        }
    }

    /// Notes a call that fits.
    fn note(&mut self, made: Made)
        ensures { GrowsBy (elim made [
          | Clock moment ↦ clock_read moment
          | Came port wait peer octets ↦ port_heard port wait (datagram peer octets.items)
          | Silence port wait ↦ port_heard port wait silence
          | Failure port wait ↦ port_heard port wait failure
          | Sent octets failed ↦ compound_sent octets.items failed
        ] ∷ [])
            (⟦<Log as Told>⟧.calls self.old) (⟦<Log as Told>⟧.calls self.new) }
    {
        self.is_whole = self.is_whole
            && self.calls.len() < self.calls.capacity()
            && self.calls.push(made).is_ok();
    }

    /// The clock gave a moment.
    pub(crate) fn clock(&mut self, moment: u64)
        ensures { GrowsBy (clock_read moment ∷ [])
            (⟦<Log as Told>⟧.calls self.old) (⟦<Log as Told>⟧.calls self.new) }
    {
        self.note(Made::Clock(moment));
    }

    /// A port was listened to.
    pub(crate) fn receive(&mut self, port: Port, wait_us: u64, buf: &[u8], received: Received)
        requires { IsWithin received buf.now }
        ensures { GrowsBy (port_heard port wait_us (heard_in buf.now received) ∷ [])
            (⟦<Log as Told>⟧.calls self.old) (⟦<Log as Told>⟧.calls self.new) }
    {
        match received {
            Received::Got(count, peer) => {
                let (octets, _) = buf.split_at(count);
                match Vec::from_slice(self.alloc, octets) {
                    Ok(octets) => self.note(Made::Came(port, wait_us, peer, octets)),
                    Err(_) => self.is_whole = false,
                }
            }
            Received::Nothing => self.note(Made::Silence(port, wait_us)),
            Received::Failed => self.note(Made::Failure(port, wait_us)),
        }
    }

    /// A compound was handed over.
    pub(crate) fn send(&mut self, bytes: &[u8], failed: bool)
        ensures { GrowsBy (compound_sent bytes.now failed ∷ [])
            (⟦<Log as Told>⟧.calls self.old) (⟦<Log as Told>⟧.calls self.new) }
    {
        match Vec::from_slice(self.alloc, bytes) {
            Ok(octets) => self.note(Made::Sent(octets, failed)),
            Err(_) => self.is_whole = false,
        }
    }
}
