//! What the tests of a datagram see of its sources as they pass over its octets.

ghost use Rattle.std.specs.Prelude.{◌≡◌, ◌&&◌, ◌||◌};
ghost use Rattle.rtcp_wire.specs.Summaries.{IsNone};

/// What was seen of a datagram's packets so far, against the source of the first one.
#[derive(Clone, Copy, Debug, Drop)]
pub(crate) struct Summary {
    /// Whether they say of no other source that it is there, and of none that it left.
    pub(crate) is_sole: bool,
    /// Whether a chunk begins with a CNAME. Where none does, they may still give one.
    pub(crate) is_named: bool,
}

impl Summary {
    /// Of no packets.
    pub(crate) fn of_none() -> Summary
        ensures { IsNone result }
    {
        Summary {
            is_sole: true,
            is_named: false,
        }
    }

    /// Takes in that they say something, with whether it keeps to the one source.
    pub(super) fn keep(&mut self, is_kept: bool)
        ensures sole { self.new.is_sole ≡ (self.old.is_sole && is_kept) }
        ensures named { self.new.is_named ≡ self.old.is_named }
    {
        self.is_sole &= is_kept;
    }

    /// Takes in a chunk, with whether it begins with a CNAME.
    pub(super) fn name(&mut self, is_first: bool)
        ensures sole { self.new.is_sole ≡ self.old.is_sole }
        ensures named { self.new.is_named ≡ (self.old.is_named || is_first) }
    {
        self.is_named |= is_first;
    }
}
