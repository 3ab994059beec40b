//! What changed of one source.

/// What part a source takes in a session.
#[derive(Clone, Copy, Debug, PartialEq, Eq)]
pub enum Role {
    /// None: it is not there, not yet valid, or it left.
    Away,
    /// It is a member, and does not send.
    Member,
    /// It is a member, and a packet of it was counted lately.
    Sender,
}

/// A source whose role is another one than before.
#[derive(Clone, Copy, Debug, PartialEq, Eq)]
pub struct Change {
    /// Its SSRC.
    pub ssrc: u32,
    /// Its role before.
    pub was: Role,
    /// Its role now.
    pub is: Role,
    /// Whether it sent a BYE, as far as is known of it now.
    pub has_left: bool,
}

impl Change {
    ghost use Rattle.std.specs.Prelude.{◌≡◌, ◌&&◌, not};
    ghost use Rattle.rtcp_listing.specs.Differences.{is_same, is_change, is_gone, went_without_bye};
    ghost use Rattle.rtcp_listing.specs.declared.change.Role.TheVariants.{Away, Sender};

    /// Whether it takes part now, and did not before.
    pub fn joined(&self) -> bool
        ensures { result ≡ (is_same self.now.was Away && not (is_same self.now.is Away)) }
    {
        self.was == Role::Away && self.is != Role::Away
    }

    /// Whether it took part, and left with a BYE (RFC 3550, 6.3.4).
    pub fn left(&self) -> bool
        ensures { result ≡ (self.now.has_left && is_gone self.now) }
    {
        self.has_left && self.is_gone()
    }

    /// Whether it took part and was dropped without a BYE: silent for too long (6.3.5), or forgotten by its host.
    pub fn went_without_bye(&self) -> bool
        ensures { result ≡ went_without_bye self.now }
    {
        !self.has_left && self.is_gone()
    }

    /// The former name of [`went_without_bye`](Change::went_without_bye), of which it is true only where the host
    /// forgets nobody.
    pub fn timed_out(&self) -> bool
        ensures { result ≡ went_without_bye self.now }
    {
        self.went_without_bye()
    }

    /// Whether it sends now, and did not before.
    pub fn began_to_send(&self) -> bool
        ensures { result ≡ (not (is_same self.now.was Sender) && is_same self.now.is Sender) }
    {
        self.was != Role::Sender && self.is == Role::Sender
    }

    /// Whether it sent, and does not send now: it stays without sending, or it is gone.
    pub fn stopped_sending(&self) -> bool
        ensures { result ≡ (is_same self.now.was Sender && not (is_same self.now.is Sender)) }
    {
        self.was == Role::Sender && self.is != Role::Sender
    }

    /// Whether its role differs at all.
    pub(crate) fn is_change(&self) -> bool
        ensures { result ≡ is_change self.now }
    {
        self.was != self.is
    }

    /// Whether it took part, and does no longer.
    fn is_gone(&self) -> bool
        ensures { result ≡ is_gone self.now }
    {
        self.was != Role::Away && self.is == Role::Away
    }
}
