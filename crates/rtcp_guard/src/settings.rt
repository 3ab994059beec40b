//! What a guard is made with.

/// The settings of a guard.
#[derive(Clone, Copy, Debug, PartialEq, Eq)]
pub struct Settings {
    /// How many sources the participant's table holds. The guard has room for twice as many claims, since a source
    /// that left counts for a while.
    pub sources: u16,
    /// How many sources an origin may have, those included that left within the hold, and how many goodbyes. An origin
    /// that may have more than two for each second of the hold can keep a participant from reporting.
    pub names: u16,
    /// How many sources a trusted origin may have, where that is more: a relay, a mixer or a network address
    /// translator.
    pub trusted_names: u16,
    /// For how long a source belongs to its origin after it was last named, in microseconds.
    pub hold: u64,
}
