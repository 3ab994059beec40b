//! The guard.

ghost use Rattle.std.specs.Prelude.{◌≡◌, ◌≤◌, ◌*◌, ◌<◌, ◌^◌, ◌++◌, ℕ, List, [], ◌∷◌, IfOk, None, Some, length, false, not, take, true};
ghost use Rattle.rtcp_guard.specs.Claims.{AreOwn, goodbyes_of, held, is_named, is_too_many, with_name, with_names};
ghost use Rattle.rtcp_guard.specs.Guarding.{after, after_verdict, check_made, counted, datagram_came, limit_of, may_have, may_trust, new_guard, origin_trusted, source_expected, unless_more, verdict_by, verdict_on};
ghost use Rattle.rtcp_guard.specs.Tables.{AreRising};
ghost use Rattle.rtcp_guard.specs.declared.verdict.Verdict.TheVariants.{Pass};
ghost use Rattle.rtcp_guard.specs.Naming.{but, goodbye_of_compound, names_of_compound, names_of_packet};

use crate::judging::{judge_rest, own_first};
use crate::naming::{FEW, FewNames, Gathered, MAX_NAMES, Names, of_compound, of_packet};
use crate::settings::Settings;
use crate::table::ClaimTable;
use crate::verdict::{HeldBack, Verdict};
use arrayvec::ArrayVec;
use rtcp_wire::{Compound, RtpHead};
use std::alloc::{AllocError, Global};
use std::marker::Model;

/// How many origins may be trusted.
pub const MAX_TRUSTED: usize = 16;

/// Which origins the sources belong to. An origin is a number for where a datagram comes from: a peer's address
/// without its port.
#[derive(Drop)]
pub struct Guard {
    settings: Settings,
    claims: ClaimTable,
    trusted: ArrayVec<u64, MAX_TRUSTED>,
    held_back: HeldBack,
}

impl Model for Guard {
    ghost use Rattle.rtcp_guard.specs.Guarding.{GuardValue};
    ghost use Rattle.rtcp_guard.specs.Tables.{IsGuard};

    ghost Value = { GuardValue };

    ghost view = { λ g.
        record {
          settings = g.settings;
          claims = g.claims.items;
          trusted = g.trusted.items;
          held_back = g.held_back;
        } };

    ghost invariant = { λ g. IsGuard g.settings g.trusted.items g.claims.items g.claims.room };
}

impl Guard {
    /// A guard that knows of no source. It takes all its memory here, 48 octets for each source of the participant's
    /// table, and none later.
    ///
    /// # Errors
    ///
    /// There is no memory.
    pub fn new(alloc: Global, settings: Settings) -> Result<Guard, AllocError>
        ensures { IfOk result (λ guard. guard ≡ new_guard settings) }
    {
        let claims = ClaimTable::with_room(alloc, u32::from(settings.sources) * 2)?;
        Ok(Guard {
            settings,
            claims,
            trusted: ArrayVec::new(),
            held_back: HeldBack::none(),
        })
    }

    /// A datagram of an origin comes that names these sources, and says BYE of none. Returns what becomes of it. Where
    /// it is passed on, each of the sources belongs to the origin, and was last named now; else nothing changes but
    /// what was held back. Of more names than [`MAX_NAMES`] only so many are looked at, and it is not passed on.
    #[inline]
    pub fn arrive(&mut self, names: &[u32], origin: u64, t: u64) -> Verdict
        ensures verdict { result ≡ verdict_on origin t names.now None self.old }
        ensures content { self.new ≡ after (datagram_came origin t names.now None) self.old }
    {
        if names.len() > MAX_NAMES {
            return self.decide(&names[..MAX_NAMES], true, origin, t);
        }
        self.decide(names, false, origin, t)
    }

    /// A datagram of an origin comes that names these sources, and says BYE, of the source `goodbye` first
    /// (RFC 3550, 6.6). Else as [`Guard::arrive`]; but it is held back as a crowd too where its origin has as many
    /// goodbyes already as it may have sources. Where it is passed on, the origin has one goodbye more, for as long as
    /// it has this source. A BYE of a source that is not named does not count, and is not held back for that.
    pub fn arrive_leaving(&mut self, names: &[u32], goodbye: u32, origin: u64, t: u64) -> Verdict
        ensures verdict { result ≡ verdict_on origin t names.now (Some goodbye) self.old }
        ensures content { self.new ≡ after (datagram_came origin t names.now (Some goodbye)) self.old }
    {
        if names.len() > MAX_NAMES {
            return self.decide(&names[..MAX_NAMES], true, origin, t);
        }
        self.decide_leaving(names, goodbye, origin, t)
    }

    /// A compound of an origin comes, to the participant `own`. It names the sources that its facts speak of
    /// (RFC 3550, 6.1), but the participant's own SSRC, which the guard does not look at. Else as [`Guard::arrive`], or
    /// as [`Guard::arrive_leaving`] where it says BYE of one of them.
    // Of a compound about one source no fact is read. Few names are gathered where a call has room for them at once;
    // more are not before the first ones pass.
    pub fn arrive_rtcp(&mut self, compound: &Compound<'_>, origin: u64, t: u64, own: u32) -> Verdict
        ensures verdict { result ≡ verdict_on origin t (names_of_compound own compound.now)
            (goodbye_of_compound own compound.now) self.old }
        ensures content { self.new ≡ after (datagram_came origin t (names_of_compound own compound.now)
            (goodbye_of_compound own compound.now)) self.old }
    {
        if let Some(source) = compound.sole() {
            return self.arrive_sole(source.ssrc, origin, t, own);
        }
        let mut names = FewNames::new();
        match of_compound(compound, own, &mut names) {
            Gathered::Whole(None) => self.arrive(names.as_slice(), origin, t),
            Gathered::Whole(Some(goodbye)) => {
                self.arrive_leaving(names.as_slice(), goodbye, origin, t)
            }
            Gathered::Part => self.arrive_crowded(compound, names.as_slice(), origin, t, own),
        }
    }

    /// An RTP packet of an origin comes, to the participant `own`. It names its SSRC and its CSRCs, which are treated
    /// alike (RFC 3550, 8.2), but the participant's own SSRC. Else as [`Guard::arrive`].
    #[inline]
    pub fn arrive_rtp(&mut self, head: &RtpHead<'_>, origin: u64, t: u64, own: u32) -> Verdict
        ensures verdict { result ≡ verdict_on origin t (names_of_packet own head.now) None self.old }
        ensures content { self.new ≡ after (datagram_came origin t (names_of_packet own head.now) None) self.old }
    {
        if head.csrcs().next().is_some() {
            return self.arrive_mixed(head, origin, t, own);
        }
        self.arrive_sole(head.ssrc(), origin, t, own)
    }

    /// Says that a source is expected at an origin, as signalling knows: it belongs to that origin from now on, as if
    /// the origin had named it now. Returns whether it does. It does not, and nothing changes, where the origin would
    /// have more sources than it may, or all origins together would.
    pub fn expect(&mut self, ssrc: u32, origin: u64, t: u64) -> bool
        ensures result { result ≡ may_have ssrc origin t self.old }
        ensures content { self.new ≡ after (source_expected ssrc origin t) self.old }
    {
        let (limit, room) = (self.limit_of(origin), self.room());
        if !may_put(&mut self.claims, limit, room, ssrc, origin) {
            return false;
        }
        self.claims.put(ssrc, origin, t);
        true
    }

    /// Trusts an origin with as many sources as [`Settings::trusted_names`] says. Returns whether it is trusted: at
    /// most [`MAX_TRUSTED`] are.
    pub fn trust(&mut self, origin: u64) -> bool
        ensures result { result ≡ may_trust origin self.old.trusted }
        ensures content { self.new ≡ after (origin_trusted origin) self.old }
    {
        if self.trusted.contains(&origin) {
            return true;
        }
        if self.trusted.is_full() {
            return false;
        }
        self.trusted.push(origin);
        true
    }

    /// Lets the claims lapse of the sources that were silent for the hold, and for so long that the participant's
    /// table drops them: it keeps those that were heard at `silent_before` or later (RFC 3550, 6.3.5).
    pub fn check(&mut self, t: u64, silent_before: u64)
        ensures { self.new ≡ after (check_made t silent_before) self.old }
    {
        let before = t.saturating_sub(self.settings.hold).min(silent_before);
        self.claims.lapse(before);
    }

    /// What was held back so far.
    pub fn held_back(&self) -> HeldBack
        ensures { result ≡ self.now.held_back }
    {
        self.held_back
    }

    /// A datagram that names one source.
    // If the source is its origin's already, as most are, it is looked up once.
    #[inline(always)]
    fn arrive_sole(&mut self, ssrc: u32, origin: u64, t: u64, own: u32) -> Verdict
        ensures verdict { result ≡ verdict_on origin t (but own (ssrc ∷ [])) None self.old }
        ensures content { self.new ≡ after (datagram_came origin t (but own (ssrc ∷ [])) None) self.old }
    {
        if ssrc == own {
            return self.arrive(&[], origin, t);
        }
        if self.renew_own(ssrc, origin, t) {
            return Verdict::Pass;
        }
        self.arrive_anew(ssrc, origin, t)
    }

    /// Claims a source at a moment if it is this origin's already, and returns whether it is: then a datagram that names
    /// it alone passes.
    #[inline(always)]
    fn renew_own(&mut self, ssrc: u32, origin: u64, t: u64) -> bool
        ensures passes { result ≡ true → verdict_on origin t (ssrc ∷ []) None self.old ≡ Pass }
        ensures content { result ≡ true → self.new ≡ after (datagram_came origin t (ssrc ∷ []) None) self.old }
        ensures kept { result ≡ false → self.new ≡ self.old }
    {
        self.claims.renew_own(ssrc, origin, t)
    }

    /// A datagram that names one source, which is not its origin's yet.
    #[cold]
    #[inline(never)]
    fn arrive_anew(&mut self, ssrc: u32, origin: u64, t: u64) -> Verdict
        ensures verdict { result ≡ verdict_on origin t (ssrc ∷ []) None self.old }
        ensures content { self.new ≡ after (datagram_came origin t (ssrc ∷ []) None) self.old }
    {
        self.arrive(&[ssrc], origin, t)
    }

    /// An RTP packet with CSRCs.
    #[inline(never)]
    fn arrive_mixed(&mut self, head: &RtpHead<'_>, origin: u64, t: u64, own: u32) -> Verdict
        ensures verdict { result ≡ verdict_on origin t (names_of_packet own head.now) None self.old }
        ensures content { self.new ≡ after (datagram_came origin t (names_of_packet own head.now) None) self.old }
    {
        let mut names = FewNames::new();
        of_packet(head, own, &mut names);
        self.arrive(names.as_slice(), origin, t)
    }

    /// The same as [`Guard::arrive_rtcp`], where these are the first names, and there are more.
    fn arrive_crowded(
        &mut self,
        compound: &Compound<'_>,
        first: &[u32],
        origin: u64,
        t: u64,
        own: u32,
    ) -> Verdict
        requires { first.now ≡ take 16 (names_of_compound own compound.now) }
        ensures verdict { result ≡ verdict_on origin t (names_of_compound own compound.now)
            (goodbye_of_compound own compound.now) self.old }
        ensures content { self.new ≡ after (datagram_came origin t (names_of_compound own compound.now)
            (goodbye_of_compound own compound.now)) self.old }
    {
        match self.judge(first, origin) {
            Verdict::Pass => self.arrive_many(compound, origin, t, own),
            Verdict::Stranger => self.hold_back(Verdict::Stranger, origin),
            Verdict::Crowd => self.hold_back(Verdict::Crowd, origin),
        }
    }

    /// The same as [`Guard::arrive_rtcp`], with room for many names.
    #[inline(never)]
    fn arrive_many(&mut self, compound: &Compound<'_>, origin: u64, t: u64, own: u32) -> Verdict
        ensures verdict { result ≡ verdict_on origin t (names_of_compound own compound.now)
            (goodbye_of_compound own compound.now) self.old }
        ensures content { self.new ≡ after (datagram_came origin t (names_of_compound own compound.now)
            (goodbye_of_compound own compound.now)) self.old }
    {
        let mut names = Names::new();
        match of_compound(compound, own, &mut names) {
            Gathered::Whole(None) => self.decide(names.as_slice(), false, origin, t),
            Gathered::Whole(Some(goodbye)) => {
                self.decide_leaving(names.as_slice(), goodbye, origin, t)
            }
            Gathered::Part => self.decide(names.as_slice(), true, origin, t),
        }
    }

    /// What becomes of a datagram with these names that says BYE, of the source `goodbye` first. It is noted.
    #[inline(never)]
    fn decide_leaving(&mut self, names: &[u32], goodbye: u32, origin: u64, t: u64) -> Verdict
        requires { length names.now ≤ 512 }
        ensures verdict { result ≡ verdict_on origin t names.now (Some goodbye) self.old }
        ensures content { self.new ≡ after (datagram_came origin t names.now (Some goodbye)) self.old }
    {
        if !names.contains(&goodbye) {
            return self.decide(names, false, origin, t);
        }
        if self.claims.goodbyes(origin) >= self.limit_of(origin) {
            return self.decide(names, true, origin, t);
        }
        self.decide_counting(names, goodbye, origin, t)
    }

    /// The same, where the source is named and its origin has goodbyes left.
    fn decide_counting(&mut self, names: &[u32], goodbye: u32, origin: u64, t: u64) -> Verdict
        requires short { length names.now ≤ 512 }
        requires named { is_named goodbye names.now ≡ true }
        requires rising { AreRising self.old.claims }
        requires left { goodbyes_of origin self.old.claims < limit_of origin self.old.settings self.old.trusted }
        ensures verdict { result ≡ verdict_on origin t names.now (Some goodbye) self.old }
        ensures content { self.new ≡ after (datagram_came origin t names.now (Some goodbye)) self.old }
    {
        match self.decide(names, false, origin, t) {
            Verdict::Pass => {
                self.claims.leave(goodbye);
                Verdict::Pass
            }
            Verdict::Stranger => Verdict::Stranger,
            Verdict::Crowd => Verdict::Crowd,
        }
    }

    /// What becomes of a datagram with these names, and with more where `more` says so. It is noted.
    // Its own sources alone are the common case, for which no limit is looked up. What else there is stands apart, so
    // that the common case keeps no registers free for it.
    #[inline(always)]
    fn decide(&mut self, names: &[u32], more: bool, origin: u64, t: u64) -> Verdict
        requires { length names.now ≤ 512 }
        ensures verdict { result ≡ unless_more more (verdict_by origin t names.now self.old) }
        ensures content { self.new ≡ after_verdict origin t names.now None result self.old }
    {
        if more {
            return self.decide_others(names, 0, true, origin, t);
        }
        let own = own_first(&mut self.claims, origin, names);
        if own < names.len() {
            return self.decide_others(names, own, false, origin, t);
        }
        claim_each(&mut self.claims, origin, t, names);
        Verdict::Pass
    }

    /// The same, where the first `own` of the names are the origin's.
    #[cold]
    #[inline(never)]
    fn decide_others(
        &mut self,
        names: &[u32],
        own: usize,
        more: bool,
        origin: u64,
        t: u64,
    ) -> Verdict
        requires short { length names.now ≤ 512 }
        requires within { own ≤ length names.now }
        requires own { AreOwn origin (take own names.now) self.old.claims }
        ensures verdict { result ≡ unless_more more (verdict_by origin t names.now self.old) }
        ensures content { self.new ≡ after_verdict origin t names.now None result self.old }
    {
        let verdict = self.judge_rest(names, own, origin).unless_more(more);
        match verdict {
            Verdict::Pass => claim_all(&mut self.claims, origin, t, names),
            Verdict::Stranger | Verdict::Crowd => self.held_back.count(verdict, origin),
        }
        verdict
    }

    /// Holds a datagram back.
    #[inline]
    fn hold_back(&mut self, verdict: Verdict, origin: u64) -> Verdict
        ensures verdict { result ≡ verdict }
        ensures content { self.new ≡ record self.old { held_back = counted origin verdict self.old.held_back } }
    {
        self.held_back.count(verdict, origin);
        verdict
    }

    /// What becomes of a datagram by these names alone.
    fn judge(&mut self, names: &[u32], origin: u64) -> Verdict
        requires { length names.now ≤ 512 }
        ensures verdict { (moment : ℕ) → result ≡ verdict_by origin moment names.now self.old }
        ensures kept { self.new ≡ self.old }
        ensures rising { AreRising self.old.claims }
    {
        let own = own_first(&mut self.claims, origin, names);
        self.judge_rest(names, own, origin)
    }

    /// The same, where the first `own` of the names are the origin's.
    #[inline(always)]
    fn judge_rest(&mut self, names: &[u32], own: usize, origin: u64) -> Verdict
        requires short { length names.now ≤ 512 }
        requires within { own ≤ length names.now }
        requires own { AreOwn origin (take own names.now) self.old.claims }
        ensures verdict { (moment : ℕ) → result ≡ verdict_by origin moment names.now self.old }
        ensures kept { self.new ≡ self.old }
        ensures rising { AreRising self.old.claims }
    {
        let _ = &self.claims;
        if own == names.len() {
            return Verdict::Pass;
        }
        let (limit, room) = (self.limit_of(origin), self.room());
        judge_rest(&mut self.claims, limit, room, origin, names.split_at(own).1)
    }

    /// How many sources an origin may have.
    #[inline(always)]
    fn limit_of(&self, origin: u64) -> usize
        ensures limit { result ≡ limit_of origin self.now.settings self.now.trusted }
        ensures fits { result < 2 ^ 16 }
    {
        let names = usize::from(self.settings.names);
        if self.trusted.contains(&origin) {
            return names.max(usize::from(self.settings.trusted_names));
        }
        names
    }

    /// How many sources all origins may have.
    #[inline(always)]
    fn room(&self) -> usize
        ensures { result ≡ 2 * self.now.settings.sources }
    {
        usize::from(self.settings.sources) * 2
    }
}

/// Whether an origin may have one source more, or has it already.
fn may_put(claims: &mut ClaimTable, limit: usize, room: usize, ssrc: u32, origin: u64) -> bool
    requires rising { AreRising claims.old.items }
    requires few { held origin claims.old.items ≤ limit }
    requires within { length claims.old.items ≤ room }
    ensures result { (moment : ℕ) → result ≡ not (is_too_many limit room origin
        (with_name origin moment ssrc claims.old.items)) }
    ensures kept { claims.new ≡ claims.old }
{
    match claims.owner(ssrc) {
        Some(owner) => owner == origin || claims.count(origin) < limit,
        None => claims.count(origin) < limit && claims.len() < room,
    }
}

/// An origin names these sources.
#[inline(always)]
fn claim_all(claims: &mut ClaimTable, origin: u64, t: u64, names: &[u32])
    requires short { length names.now ≤ 512 }
    requires rising { AreRising claims.old.items }
    requires room { length (with_names origin t names.now claims.old.items) ≤ claims.old.room }
    ensures items { claims.new.items ≡ with_names origin t names.now claims.old.items }
    ensures room { claims.new.room ≡ claims.old.room }
{
    if names.len() > FEW {
        claims.put_many(names, origin, t);
    } else {
        claim_each(claims, origin, t, names);
    }
}

/// The same, one after the other.
#[inline(always)]
fn claim_each(claims: &mut ClaimTable, origin: u64, t: u64, names: &[u32])
    requires rising { AreRising claims.old.items }
    requires room { length (with_names origin t names.now claims.old.items) ≤ claims.old.room }
    ensures items { claims.new.items ≡ with_names origin t names.now claims.old.items }
    ensures room { claims.new.room ≡ claims.old.room }
{
    'names: for name in names {
        claims.put(*name, origin, t);
    }
}
