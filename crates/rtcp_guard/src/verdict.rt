//! What becomes of a datagram, and counts of what was held back.

ghost use Rattle.std.specs.Prelude.{◌≡◌};
ghost use Rattle.rtcp_guard.specs.Guarding.{counted, nothing_held_back, unless_more};

/// What becomes of a datagram.
#[derive(Clone, Copy, Debug, PartialEq, Eq)]
pub enum Verdict {
    /// It is passed on to the participant.
    Pass,
    /// It is held back: it names a source that belongs to another origin (RFC 3550, 8.2).
    Stranger,
    /// It is held back: its origin would have more sources than it may, or all origins together would; or it says BYE,
    /// and its origin has as many goodbyes as it may have sources.
    Crowd,
}

impl Verdict {
    /// What passes is a crowd, where there is more than may be.
    #[inline(always)]
    pub(crate) fn unless_more(self, more: bool) -> Verdict
        ensures { result ≡ unless_more more self }
    {
        match self {
            Verdict::Pass if more => Verdict::Crowd,
            verdict => verdict,
        }
    }
}

/// What was held back, by reason. A count that is full stays as it is.
#[derive(Clone, Copy, Debug, PartialEq, Eq)]
pub struct HeldBack {
    /// How many datagrams named a source of another origin.
    pub strangers: u64,
    /// How many datagrams named too many sources, or said BYE too often.
    pub crowds: u64,
    /// Where the last datagram came from that named a source of another origin.
    pub last_stranger: Option<u64>,
    /// Where the last datagram came from that named too many sources, or said BYE too often.
    pub last_crowd: Option<u64>,
}

impl HeldBack {
    /// Nothing was held back.
    pub(crate) fn none() -> HeldBack
        ensures { result ≡ nothing_held_back }
    {
        HeldBack {
            strangers: 0,
            crowds: 0,
            last_stranger: None,
            last_crowd: None,
        }
    }

    /// Counts a datagram by what becomes of it, and notes where it came from.
    #[inline]
    pub(crate) fn count(&mut self, verdict: Verdict, origin: u64)
        ensures { self.new ≡ counted origin verdict self.old }
    {
        match verdict {
            Verdict::Pass => (),
            Verdict::Stranger => {
                self.strangers = self.strangers.saturating_add(1);
                self.last_stranger = Some(origin);
            }
            Verdict::Crowd => {
                self.crowds = self.crowds.saturating_add(1);
                self.last_crowd = Some(origin);
            }
        }
    }
}
