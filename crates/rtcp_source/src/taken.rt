//! What a source makes of a packet (RFC 3550, appendix A.1).

ghost use Rattle.std.specs.Prelude.{◌≡◌};

/// What a packet is to its source.
///
/// A number is near the greatest one of a run if it is fewer than 3,000 after it or fewer than 100 before it,
/// modulo 65536. A stray is a packet that is not counted: `Probation` or `Bad`.
#[derive(Clone, Copy, Debug, PartialEq, Eq)]
pub enum Taken {
    /// The source is on probation, and the packet's number is not the successor of the one before it. The
    /// packet is not counted. Probation begins again with it, as in A.1: only two successive numbers in a row
    /// end it.
    Probation,
    /// The packet's number is near the greatest one of the run. The packet is counted, even if it is late or
    /// repeated.
    Counted,
    /// The packet's number is the successor of the one before it, which ends probation. It is the first
    /// counted packet of the first run.
    Became,
    /// The packet's number is not near the greatest one, and is the successor of the last stray's. It is the
    /// first counted packet of a new run. A restart begins the counts anew and forgets earlier strays, as in
    /// A.1: only strays after it can lead to another one. That the jitter returns to 0 is this project's
    /// choice, since A.1 leaves it open.
    Restarted,
    /// The packet's number is neither near the greatest one nor the successor of the last stray's. The packet
    /// is a stray, and is not counted.
    Bad,
}

impl Taken {
    ghost use Rattle.rtcp_source.specs.Takings.{is_counted};

    /// Whether the packet was counted.
    pub fn is_counted(self) -> bool
        ensures { result ≡ is_counted self }
    {
        match self {
            Taken::Counted | Taken::Became | Taken::Restarted => true,
            Taken::Probation | Taken::Bad => false,
        }
    }
}
