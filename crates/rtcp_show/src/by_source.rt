//! What is kept of each source beside its table.

ghost use Rattle.std.specs.Prelude.{◌≡◌, ℕ, None, OnOk, Some, if◌then◌else◌, nat_eq, option_map};
ghost use Rattle.std.specs.Borrow.{Bor};
ghost use Rattle.std.specs.Option.{option_or};
ghost use Rattle.rtcp_show.specs.Kept.{kept_of};

use std::alloc::{AllocError, Global};
use std::collections::BTreeMap;

/// What is kept of sources, by their SSRC.
#[derive(Drop)]
pub(crate) struct BySource<V> {
    by_ssrc: BTreeMap<u32, V>,
}

impl<V: Drop> BySource<V> {
    /// Nothing is kept yet.
    pub(crate) fn new(alloc: Global) -> BySource<V>
        ensures { (ssrc : ℕ) → kept_of result ssrc ≡ None }
    {
        BySource {
            by_ssrc: BTreeMap::new(alloc),
        }
    }

    /// What is kept of a source, if anything is.
    pub(crate) fn get(&self, ssrc: u32) -> Option<&V>
        ensures { option_map (λ (kept : Bor V). kept.now) result ≡ kept_of self.now ssrc }
    {
        self.by_ssrc.get(&ssrc)
    }

    /// Takes out what is kept of a source.
    pub(crate) fn take(&mut self, ssrc: u32) -> Option<V>
        ensures taken { result ≡ kept_of self.old ssrc }
        ensures left { (other : ℕ) → kept_of self.new other
            ≡ (if nat_eq ssrc other then None else kept_of self.old other) }
    {
        self.by_ssrc.remove(&ssrc)
    }

    /// Keeps this of a source.
    ///
    /// # Errors
    ///
    /// `AllocError` where memory is refused.
    pub(crate) fn put(&mut self, ssrc: u32, value: V) -> Result<(), AllocError>
        ensures { OnOk result ((other : ℕ) → kept_of self.new other
            ≡ (if nat_eq ssrc other then Some value else kept_of self.old other)) }
    {
        match self.by_ssrc.insert(ssrc, value) {
            Ok(_) => Ok(()),
            Err(_) => Err(AllocError),
        }
    }
    /// Hands what is kept of a source to those that are kept on, if anything is.
    ///
    /// # Errors
    ///
    /// `AllocError` where memory is refused. Then it is kept nowhere.
    pub(crate) fn hand_to(&mut self, others: &mut BySource<V>, ssrc: u32) -> Result<(), AllocError>
        ensures taken { (other : ℕ) → kept_of self.new other
            ≡ (if nat_eq ssrc other then None else kept_of self.old other) }
        ensures given { OnOk result ((other : ℕ) → kept_of others.new other
            ≡ (if nat_eq ssrc other then option_or (kept_of self.old other) (kept_of others.old other)
            else kept_of others.old other)) }
    {
        match self.take(ssrc) {
            Some(value) => others.put(ssrc, value),
            None => Ok(()),
        }
    }
}
