//! Laws of who is a member over the history of a session: who is heard becomes one, and who was heard lately stays one.
//! Each is an empty function whose postcondition is the law. `rtcp_members` has those of the trace alone.

ghost use Rattle.std.specs.Prelude.{◌≡◌, ◌≤◌, ◌∷◌, true, All, Contains, ℕ, List, Ok};
ghost use Rattle.rtcp_wire.specs.declared.fact.Fact.TheVariants.{Named};
ghost use Rattle.rtcp_wire.specs.Facts.{facts_of};
ghost use Rattle.rtcp_wire.specs.Values.{RtcpPacket};
ghost use Rattle.rtcp_members.specs.Stays.{last_naming};
ghost use Rattle.rtcp_members.specs.Lasting.{MayBring};
ghost use Rattle.rtcp_members.specs.Entries.{entry_at, is_member, is_such};
ghost use Rattle.rtcp_engine.specs.answers.Acts.{Act, Datagram, arrived, rtcp};
ghost use Rattle.rtcp_engine.specs.answers.Outcomes.{Outcome};
ghost use Rattle.rtcp_engine.specs.answers.Ticks.{checked};
ghost use Rattle.rtcp_engine.specs.answers.Leaving.{present};
ghost use Rattle.rtcp_engine.specs.answers.Histories.{History, life_at, setup_at, with_act};
ghost use Rattle.rtcp_engine.specs.state.Taken.{IsHistory};
ghost use Rattle.rtcp_engine.specs.bounds.Hearing.{
  IsHeardAtTicks,
  IsHeardLately,
  IsNamedAtTicks,
  LeavesAlone,
  is_member_at,
  names_source,
  with_acts,
};

/// Who was heard within five times Td stays a member (RFC 3550, 6.3.5). A source is a member. In the acts since, no
/// datagram brings its BYE, the host does not say that it is gone, and at each tick its newest fact is no older
/// than five of the intervals that the tick's check goes by. Then it is a member still, as long as the participant
/// takes part. So it is after the check of one more such tick, where the tick decides on a report.
///
/// A datagram that names a source and is taken gives such a fact at its moment: so it is enough that one came no longer
/// ago than that before each tick.
pub fn those_heard_stay_members()
    ensures stay { (history : History) (since : List Act) (ssrc : ℕ) (later : Outcome) →
        is_member_at ssrc history ≡ true → All (LeavesAlone ssrc) since → IsHeardAtTicks ssrc since history →
        life_at (with_acts since history) ≡ present later → is_member_at ssrc (with_acts since history) ≡ true }
    ensures checked { (history : History) (ssrc t : ℕ) (outcome : Outcome) →
        is_member_at ssrc history ≡ true → life_at history ≡ present outcome →
        let setup = setup_at history in IsHeardLately ssrc setup t outcome →
        is_such is_member (entry_at setup.capacity (checked setup t outcome).trace ssrc) ≡ true }
    ensures sighted { (history : History) (outcome : Outcome) (ssrc at peer word : ℕ) (datagram : Datagram) →
        IsHistory history → life_at history ≡ present outcome →
        Contains history.acts (arrived at peer word datagram) → names_source ssrc datagram ≡ true →
        at ≤ last_naming ssrc outcome.trace }
    ensures datagrams { (history : History) (since : List Act) (ssrc : ℕ) → IsHistory (with_acts since history) →
        IsNamedAtTicks ssrc since history → IsHeardAtTicks ssrc since history }
{}

/// Whose compound comes is a member (RFC 3550, 6.2.1, 6.3.3). A compound that is taken gives the CNAME of a source, and
/// may bring it in: it is present, or there is room for it and a source for each fact of others; and it says no
/// BYE. Then the source is a member after that, and as long as `those_heard_stay_members` says.
pub fn those_named_become_members()
    ensures joins { (history : History) (moment peer word size ssrc : ℕ) (packets : List RtcpPacket)
        (outcome : Outcome) → life_at history ≡ present outcome → Contains (facts_of packets) (Named ssrc) →
        MayBring (setup_at history).capacity ssrc (facts_of packets) outcome.trace →
        is_member_at ssrc (with_act history (arrived moment peer word (rtcp size (Ok packets)))) ≡ true }
    ensures remains { (history : History) (moment peer word size ssrc : ℕ) (packets : List RtcpPacket)
        (outcome later : Outcome) (since : List Act) → life_at history ≡ present outcome →
        Contains (facts_of packets) (Named ssrc) →
        MayBring (setup_at history).capacity ssrc (facts_of packets) outcome.trace →
        let named = with_act history (arrived moment peer word (rtcp size (Ok packets))) in
        All (LeavesAlone ssrc) since → IsHeardAtTicks ssrc since named →
        life_at (with_acts since named) ≡ present later → is_member_at ssrc (with_acts since named) ≡ true }
{}
