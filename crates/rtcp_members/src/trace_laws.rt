//! Laws of the trace of a session: stays and senders in other words. Each is an empty function whose
//! postcondition is the law.

ghost use Rattle.std.specs.Prelude.{◌≡◌, ◌↔◌, ◌==◌, ◌≤◌, true, is_some, ℕ, List, Some};
ghost use Rattle.std.specs.List.{list_any};
ghost use Rattle.rtcp_members.specs.Traces.{TraceStep, names};
ghost use Rattle.rtcp_source.specs.Summary.{HasOneRate};
ghost use Rattle.rtcp_members.specs.Clocks.{HasOneClock};
ghost use Rattle.rtcp_members.specs.Stays.{before_mark, present_among, stay_of, IsStay};
ghost use Rattle.rtcp_members.specs.Entries.{given_of, sending_of, is_such, is_sender, entry_at, IsSendingSince, IsSenderAt};

/// A stay is exactly a prefix of the trace, newest first, whose oldest step names the source at a moment when
/// it was absent and there was room, in which no check removes the source (RFC 3550, 6.3.3 to 6.3.5), and in which the
/// host does not say that the source is gone before the source has a mark.
pub fn stays_are_prefixes()
    ensures { (capacity : ℕ) (trace : List TraceStep) (ssrc : ℕ) (stay : List TraceStep) →
        (stay_of capacity trace ssrc ≡ Some stay) ↔ IsStay capacity trace ssrc stay }
{}

/// Who is present was named, and at most as many are present as there is room for (RFC 3550, 6.3.3).
#[tactic(auto, using(crate::proofs::stays::Naming::present_is_named, crate::proofs::stays::Crowding::present_fit))]
pub fn present_were_named_and_fit()
    ensures named { (capacity : ℕ) (trace : List TraceStep) (ssrc : ℕ) →
        is_some (stay_of capacity trace ssrc) ≡ true → list_any (λ named. named == ssrc) (names trace) ≡ true }
    ensures fit { (capacity : ℕ) (trace : List TraceStep) →
        present_among (names trace) (stay_of capacity trace) ≤ capacity }
{}

/// Among any steps, the moment since which a source sends is that of its newest counted packet, if no check
/// since it has a later horizon for packets. So a source is a sender exactly where it is present without a
/// mark, a counted packet stands in its stay, and no check since the newest one has a later horizon for
/// packets (RFC 3550, 6.3.3, 6.3.5).
pub fn senders_sent_lately()
    ensures sending { (ssrc : ℕ) (own : List TraceStep) (moment : ℕ) →
        (sending_of ssrc own ≡ Some moment) ↔ IsSendingSince ssrc own moment }
    ensures sender { (capacity : ℕ) (trace : List TraceStep) (ssrc : ℕ) →
        (is_such is_sender (entry_at capacity trace ssrc) ≡ true) ↔ IsSenderAt capacity trace ssrc }
{}

/// Where all RTP packets of a trace count in units of clocks of one rate, each source is given packets of that rate
/// alone: so its jitter is that of RFC 3550 (A.8) over the whole run (rtcp_source's law `jitter_is_of_one_rate`).
pub fn one_clock_is_one_rate()
    ensures { (capacity rate ssrc : ℕ) (trace stay : List TraceStep) → HasOneClock rate trace →
        stay_of capacity trace ssrc ≡ Some stay → HasOneRate rate (given_of ssrc (before_mark ssrc stay)) }
{}
