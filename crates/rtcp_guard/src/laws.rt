//! Laws of who owns a source, and of what is held back. Each is an empty function whose postcondition is the law.

ghost use Rattle.std.specs.Prelude.{◌≡◌, ◌≤◌, ◌++◌, ◌<◌, ℕ, List, [], ◌∷◌, None, Option, Some, length, map, true, false};
ghost use Rattle.rtcp_wire.specs.Facts.{facts_of, subject};
ghost use Rattle.rtcp_wire.specs.Values.{RtcpPacket};
ghost use Rattle.rtcp_guard.specs.Claims.{found, goodbyes_of, held, is_named, is_of_another, owner_in, with_names};
ghost use Rattle.rtcp_guard.specs.Guarding.{GuardStep, GuardValue, after, limit_of, new_guard, room_of, verdict_on};
ghost use Rattle.rtcp_guard.specs.Histories.{AreOf, AreWithinHold, Keeps, LosesNone, NamesOnly, StandsAt, are_among, claim_of, guard_after, is_passed, owner_of, passed_about, passed_goodbyes, without};
ghost use Rattle.rtcp_guard.specs.Naming.{but, goodbye_of_compound, names_of_compound};
ghost use Rattle.rtcp_guard.specs.declared.settings.Settings.{Settings};
ghost use Rattle.rtcp_guard.specs.declared.verdict.Verdict.TheVariants.{Pass};

/// A new guard stands at no history, and one that stands at a history stands, after a step, at that history with the
/// step: so what a guard keeps is what its history says.
pub fn guards_follow_histories()
    ensures first { (settings : Settings) → StandsAt (new_guard settings) [] }
    ensures next { (guard : GuardValue) (history : List GuardStep) (step : GuardStep) → StandsAt guard history →
        StandsAt (after step guard) (step ∷ history) }
{}

/// The claims of a guard are those of its history: a source belongs to the origin of the last datagram that was passed
/// on and named it, or to that where it was expected since, unless its claim lapsed. A claim has as many goodbyes as
/// datagrams were passed on that said BYE of its source first, since it is its origin's.
pub fn claims_are_those_of_the_history()
    ensures { (settings : Settings) (history : List GuardStep) (ssrc : ℕ) →
        found ssrc (guard_after settings history).claims ≡ claim_of settings ssrc history }
{}

/// A compound names the sources that its facts speak of, but the participant's own SSRC, and no others. So it names the
/// source of which it says BYE first.
pub fn compounds_name_their_sources()
    ensures names { (own ssrc : ℕ) (packets : List RtcpPacket) →
        is_named ssrc (names_of_compound own packets) ≡ is_named ssrc (but own (map subject (facts_of packets))) }
    ensures goodbye { (own ssrc : ℕ) (packets : List RtcpPacket) → goodbye_of_compound own packets ≡ Some ssrc →
        is_named ssrc (names_of_compound own packets) ≡ true }
{}

/// No origin ever has more sources than it may, those included that left within the hold, and all origins together
/// never have more than twice the sources of the participant's table.
pub fn origins_have_few_sources()
    ensures few { (settings : Settings) (history : List GuardStep) (origin : ℕ) →
        held origin (guard_after settings history).claims
        ≤ limit_of origin settings (guard_after settings history).trusted }
    ensures within { (settings : Settings) (history : List GuardStep) →
        length (guard_after settings history).claims ≤ room_of settings }
{}

/// No origin ever has more goodbyes than it may have sources.
pub fn origins_say_few_goodbyes()
    ensures { (settings : Settings) (history : List GuardStep) (origin : ℕ) →
        goodbyes_of origin (guard_after settings history).claims
        ≤ limit_of origin settings (guard_after settings history).trusted }
{}

/// In a stretch of a history that is no longer than the hold, no more datagrams of an origin that say BYE are passed on
/// than it may have sources: of however many sources, and however often they come back. The host says meanwhile of none
/// of its sources that it expects it elsewhere.
pub fn few_goodbyes_pass()
    ensures { (settings : Settings) (origin first : ℕ) (newer older : List GuardStep) →
        AreWithinHold settings.hold first newer → LosesNone settings origin newer older →
        passed_goodbyes settings origin newer older
        ≤ limit_of origin settings (guard_after settings (newer ++ older)).trusted }
{}

/// Nothing is held back of an origin that names at most 512 sources at once, of which none belongs to another origin,
/// and by which it has no more than it may, where it says no BYE, or has goodbyes left.
pub fn few_own_sources_pass()
    ensures silent { (guard : GuardValue) (origin moment : ℕ) (names : List ℕ) → length names ≤ 512 →
        ((ssrc : ℕ) → is_named ssrc names ≡ true → is_of_another origin (owner_in ssrc guard.claims) ≡ false) →
        held origin (with_names origin moment names guard.claims) ≤ limit_of origin guard.settings guard.trusted →
        length (with_names origin moment names guard.claims) ≤ room_of guard.settings →
        verdict_on origin moment names None guard ≡ Pass }
    ensures leaving { (guard : GuardValue) (origin moment : ℕ) (names : List ℕ) (goodbye : Option ℕ) →
        goodbyes_of origin guard.claims < limit_of origin guard.settings guard.trusted → length names ≤ 512 →
        ((ssrc : ℕ) → is_named ssrc names ≡ true → is_of_another origin (owner_in ssrc guard.claims) ≡ false) →
        held origin (with_names origin moment names guard.claims) ≤ limit_of origin guard.settings guard.trusted →
        length (with_names origin moment names guard.claims) ≤ room_of guard.settings →
        verdict_on origin moment names goodbye guard ≡ Pass }
{}

/// An origin that ever names only the same few sources, as many as it may, and none of another origin, is never held
/// back, as long as there is room for all, where it says no BYE, or has goodbyes left.
pub fn few_sources_always_pass()
    ensures silent { (settings : Settings) (history : List GuardStep) (origin moment : ℕ) (few names : List ℕ) →
        NamesOnly origin few history → are_among few names ≡ true → length few ≤ settings.names →
        length names ≤ 512 →
        ((ssrc : ℕ) → is_named ssrc names ≡ true →
        is_of_another origin (owner_of settings ssrc history) ≡ false) →
        length (with_names origin moment names (guard_after settings history).claims) ≤ room_of settings →
        is_passed settings origin moment names None history ≡ true }
    ensures leaving { (settings : Settings) (history : List GuardStep) (origin moment : ℕ) (few names : List ℕ)
        (goodbye : Option ℕ) →
        goodbyes_of origin (guard_after settings history).claims
        < limit_of origin settings (guard_after settings history).trusted →
        NamesOnly origin few history → are_among few names ≡ true → length few ≤ settings.names →
        length names ≤ 512 →
        ((ssrc : ℕ) → is_named ssrc names ≡ true →
        is_of_another origin (owner_of settings ssrc history) ≡ false) →
        length (with_names origin moment names (guard_after settings history).claims) ≤ room_of settings →
        is_passed settings origin moment names goodbye history ≡ true }
{}

/// As long as an origin keeps a source, all datagrams that are passed on and name it come from that origin, and it
/// stays the origin's (RFC 3550, 8.2).
pub fn one_origin_speaks_for_a_source()
    ensures datagrams { (settings : Settings) (ssrc owner : ℕ) (newer older : List GuardStep) →
        Keeps settings ssrc owner newer older → AreOf settings ssrc owner newer older }
    ensures owner { (settings : Settings) (ssrc owner : ℕ) (newer older : List GuardStep) →
        Keeps settings ssrc owner newer older → owner_of settings ssrc (newer ++ older) ≡ Some owner }
{}

/// What other origins say of a source that an origin keeps changes nothing that is passed on about it: two histories
/// that differ only in that pass the same datagrams of it.
pub fn others_do_not_interfere()
    ensures { (settings : Settings) (ssrc owner : ℕ) (one another older : List GuardStep) →
        Keeps settings ssrc owner one older → Keeps settings ssrc owner another older →
        without ssrc owner one ≡ without ssrc owner another →
        passed_about settings ssrc one older ≡ passed_about settings ssrc another older }
{}
