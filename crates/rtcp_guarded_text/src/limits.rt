//! What the guard of a session is made with.

ghost use Rattle.std.specs.Prelude.{◌≡◌};
ghost use Rattle.rtcp_guarded_text.specs.GuardedReplay.{settings_for};

use rtcp_guard::Settings;

/// What an origin may do before it is held back. An origin is a peer's number without its lower 16 bits, and none is
/// trusted with more.
#[derive(Clone, Copy, Debug, PartialEq, Eq)]
pub struct GuardLimits {
    /// How many sources an origin may have, those included that left within the hold.
    pub names: u16,
    /// For how long a source belongs to its origin after it was last named, in microseconds.
    pub hold: u64,
}

impl GuardLimits {
    /// The settings of a guard before a participant whose table holds so many sources.
    pub fn settings(self, sources: u16) -> Settings
        ensures { result ≡ settings_for sources self }
    {
        Settings {
            sources,
            names: self.names,
            trusted_names: 0,
            hold: self.hold,
        }
    }
}
