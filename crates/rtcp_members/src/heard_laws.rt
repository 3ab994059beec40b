//! Laws of the trace of a session: who is heard becomes a member, and who was heard lately stays. Each is an empty
//! function whose postcondition is the law.

ghost use Rattle.std.specs.Prelude.{◌≡◌, ◌++◌, true, All, Contains, ℕ, List, Some, None};
ghost use Rattle.rtcp_wire.specs.declared.fact.Fact.{Fact};
ghost use Rattle.rtcp_wire.specs.declared.fact.Fact.TheVariants.{Named};
ghost use Rattle.rtcp_members.specs.Traces.{TraceStep, with_facts};
ghost use Rattle.rtcp_members.specs.Stays.{last_sighting, mark_of, stay_of};
ghost use Rattle.rtcp_members.specs.Lasting.{IsHeardAtChecks, IsLeftAlone, LooksBackTo, MayBring, NamesFrom};
ghost use Rattle.rtcp_members.specs.Entries.{entry_at, is_member, is_such};

/// Once the facts of a compound came, with the CNAME of a source among them, the source is a member, if these facts may
/// bring it in: it is present, or there is room for it and a source for each fact of others; and it sends no BYE
/// (RFC 3550, 6.2.1, 6.3.3).
pub fn those_named_become_members()
    ensures { (capacity ssrc moment : ℕ) (facts : List Fact) (trace : List TraceStep) →
        Contains facts (Named ssrc) → MayBring capacity ssrc facts trace →
        is_such is_member (entry_at capacity (with_facts facts moment trace) ssrc) ≡ true }
{}

/// Who was heard lately stays (RFC 3550, 6.3.5). A source is present without a mark. Since then it sent no BYE, the
/// host did not say that it is gone, and each check found its newest sighting at the horizon for silence or later: then
/// it still has that stay, with the steps since. So it does where no check since has a horizon later than its last
/// sighting at first, as long as moments do not fall. And a member is still one.
pub fn those_heard_stay()
    ensures stay { (capacity ssrc : ℕ) (since before stay : List TraceStep) →
        stay_of capacity before ssrc ≡ Some stay → mark_of ssrc stay ≡ None →
        IsLeftAlone ssrc since → IsHeardAtChecks ssrc since before →
        stay_of capacity (since ++ before) ssrc ≡ Some (since ++ stay) }
    ensures lately { (capacity ssrc : ℕ) (since before stay : List TraceStep) →
        stay_of capacity before ssrc ≡ Some stay → mark_of ssrc stay ≡ None → let sighting = last_sighting ssrc stay in
        IsLeftAlone ssrc since → All (LooksBackTo sighting) since → All (NamesFrom ssrc sighting) since →
        stay_of capacity (since ++ before) ssrc ≡ Some (since ++ stay) }
    ensures member { (capacity ssrc : ℕ) (since before : List TraceStep) →
        is_such is_member (entry_at capacity before ssrc) ≡ true →
        IsLeftAlone ssrc since → IsHeardAtChecks ssrc since before →
        is_such is_member (entry_at capacity (since ++ before) ssrc) ≡ true }
{}
