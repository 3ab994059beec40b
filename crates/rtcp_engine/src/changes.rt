//! The changes of a participant's identifier (RFC 3550, 8.2).

ghost use Rattle.std.specs.Prelude.{◌≡◌, ◌∷◌, ◌<◌, [], length, map};
ghost use Rattle.rtcp_engine.specs.answers.Changes.{is_among, may_change};

use arrayvec::ArrayVec;

/// The most changes of a session.
const MAX_CHANGES: usize = 8;

/// A change of identifier.
#[derive(Clone, Copy, Debug, Default)]
pub(crate) struct IdentifierChange {
    /// Whose datagram brought it.
    peer: u64,
    /// The identifier that was given up.
    former: u32,
}

/// The changes of a session, newest first.
#[derive(Debug, Drop)]
pub(crate) struct IdentifierChanges {
    list: ArrayVec<IdentifierChange, MAX_CHANGES>,
}

impl IdentifierChanges {
    /// No change yet.
    pub(crate) fn new() -> IdentifierChanges
        ensures { result.list.items ≡ [] }
    {
        IdentifierChanges {
            list: ArrayVec::new(),
        }
    }

    /// Whether a datagram of this peer may change the identifier: it brought no change yet, and there were
    /// fewer than eight.
    pub(crate) fn allows(&self, peer: u64) -> bool
        ensures exact { result ≡ may_change (map (λ change. change.peer) self.now.list.items) peer }
    {
        self.list.len() < MAX_CHANGES && !self.list.iter().any(|change| change.peer == peer)
    }

    /// Whether the participant had this identifier, and gave it up.
    pub(crate) fn gave_up(&self, ssrc: u32) -> bool
        ensures { result ≡ is_among (map (λ change. change.former) self.now.list.items) ssrc }
    {
        self.list.iter().any(|change| change.former == ssrc)
    }

    /// Adds the change that a datagram of this peer brings.
    pub(crate) fn add(&mut self, peer: u64, former: u32)
        requires { length self.old.list.items < 8 }
        ensures { self.new.list.items ≡ record { peer = peer; former = former } ∷ self.old.list.items }
    {
        self.list.insert(0, IdentifierChange { peer, former });
    }
}
