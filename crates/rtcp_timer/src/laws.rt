//! Laws of the average, the interval and the schedule. Each is an empty function whose postcondition is the
//! law.

ghost use Rattle.std.specs.Prelude.{ℕ, ◌≡◌, ◌+◌, ◌-◌, ◌*◌, ◌^◌, ◌<◌, ◌≤◌, max, min, true, false, List, All};
ghost use Rattle.rtcp_clock.specs.Intervals.{drawn_interval};
ghost use Rattle.rtcp_timer.specs.Averages.{IsBetween};
ghost use Rattle.rtcp_timer.specs.declared.load.Load.{Load};
ghost use Rattle.rtcp_timer.specs.Loads.{minimum_of, interval_for, interval_of, KeepsToShare, with_headers, average_of};
ghost use Rattle.rtcp_timer.specs.Quarters.{quarterly_interval};
ghost use Rattle.rtcp_timer.specs.Schedules.{Happening, transmitted, tried, recounted, Timing, IsDue, IsInOrder, IsWithin, after, schedule_at, newest_moment, newest_transmission, greatest_draw};
ghost use Rattle.rtcp_timer.specs.Departures.{members_known, last_departure, last_moment, next_moment};

/// Where all sizes lie between two numbers, so does their average, in 1/256 octet and with headers
/// (RFC 3550, 6.3.3).
pub fn average_lies_between()
    ensures { (low high first : ℕ) (sizes : List ℕ) →
        IsBetween low high first → All (IsBetween low high) sizes →
        IsBetween (256 * with_headers low) (256 * with_headers high) (average_of first sizes) }
{}

/// If each of those who share a part of the bandwidth with the participant sends one compound of average size
/// in each deterministic interval, they use at most that part (RFC 3550, 6.3.1).
#[tactic(auto, using(crate::proofs::Sharing::keeps_to_share))]
pub fn interval_keeps_to_share()
    ensures { (load : Load) → 1 ≤ load.sender_bw → 1 ≤ load.receiver_bw → KeepsToShare load (interval_of load) }
{}

/// Where the others have three times the bandwidth of the senders, senders share a quarter of it as long as they are
/// at most a quarter of the members, and the others the rest (RFC 3550, 6.3.1).
#[tactic(auto, using(crate::proofs::Quarters::by_quarters))]
pub fn quarters_are_shared()
    ensures { (load : Load) → load.receiver_bw ≡ 3 * load.sender_bw → 1 ≤ load.sender_bw →
        interval_of load ≡ quarterly_interval (4 * load.sender_bw) load }
{}

/// Without a word of who shares with whom: a sender has the shorter of two intervals, that in which the senders'
/// bandwidth carries a compound of each sender and that in which both carry one of each member; another has the longer
/// of the latter and that in which the others' bandwidth carries one of each of them (RFC 3550, 6.2; RFC 3556).
#[tactic(auto, using(crate::proofs::Sides::of_a_sender, crate::proofs::Sides::of_another))]
pub fn senders_have_the_shorter_interval()
    ensures senders { (load : Load) → 1 ≤ load.sender_bw → 1 ≤ load.receiver_bw → load.senders ≤ load.members →
        load.we_sent ≡ true → interval_of load ≡ max (minimum_of load.initial)
        (min (interval_for load.senders load.sender_bw load)
        (interval_for load.members (load.sender_bw + load.receiver_bw) load)) }
    ensures others { (load : Load) → 1 ≤ load.sender_bw → 1 ≤ load.receiver_bw → load.senders ≤ load.members →
        load.we_sent ≡ false → interval_of load ≡ max (minimum_of load.initial)
        (max (interval_for (load.members - load.senders) load.receiver_bw load)
        (interval_for load.members (load.sender_bw + load.receiver_bw) load)) }
{}

/// Of a participant that is no sender, the interval is no shorter with less bandwidth (RFC 3550, 6.3.1).
#[tactic(auto, using(crate::proofs::Sides::with_less))]
pub fn less_bandwidth_waits_longer()
    ensures { (load : Load) (sender_bw receiver_bw : ℕ) → load.we_sent ≡ false → load.senders ≤ load.members →
        1 ≤ sender_bw → 1 ≤ receiver_bw → sender_bw ≤ load.sender_bw → receiver_bw ≤ load.receiver_bw →
        interval_of load ≤ interval_of (record load { sender_bw = sender_bw; receiver_bw = receiver_bw }) }
{}

/// The deterministic interval is never below the minimum, by its definition (RFC 3550, 6.2).
#[tactic(auto, using(crate::proofs::Sharing::has_minimum))]
pub fn interval_has_minimum()
    ensures { (load : Load) → minimum_of load.initial ≤ interval_of load }
{}

/// The deterministic interval is the shortest in whole microseconds that keeps to the share and the minimum
/// (RFC 3550, 6.3.1).
#[tactic(auto, using(crate::proofs::Sharing::is_least))]
pub fn interval_is_least()
    ensures { (load : Load) (interval : ℕ) → 1 ≤ load.sender_bw → 1 ≤ load.receiver_bw →
        minimum_of load.initial ≤ interval → KeepsToShare load interval → interval_of load ≤ interval }
{}

/// The three numbers of a schedule follow from its draws and departures (RFC 3550, 6.3.4 and 6.3.6). `last`
/// is the newest transmission, and `next` what the newest draw to set it chose; each departure since brings
/// them nearer to itself, except an overdue `next`. `known` is the least of the members at the newest draw
/// and of the counts since.
pub fn schedule_follows_departures()
    ensures last { (events : List Happening) → (schedule_at events).last ≡ last_moment events }
    ensures next { (events : List Happening) → (schedule_at events).next ≡ next_moment events }
    ensures known { (events : List Happening) → (schedule_at events).known ≡ members_known events }
{}

/// Where moments do not fall, `last` is never before the newest transmission and never after the newest
/// moment, however many members depart (RFC 3550, 6.3.4). Nor is it after the later of the newest
/// transmission and the newest departure.
pub fn last_lies_between()
    ensures not_before_sent { (events : List Happening) → IsInOrder events →
        newest_transmission events ≤ (schedule_at events).last }
    ensures not_after_newest { (events : List Happening) → IsInOrder events →
        (schedule_at events).last ≤ newest_moment events }
    ensures not_after_departure { (events : List Happening) →
        (schedule_at events).last ≤ max (newest_transmission events) (last_departure events) }
{}

/// Where moments do not fall, `next` is at most `last` plus the greatest interval drawn by the newest
/// transmission and the tries since; an overdue `next` may even lie before `last`. A departure scales both
/// distances by the same fraction, or leaves an overdue `next` (RFC 3550, 6.3.4).
#[tactic(auto, using(crate::proofs::Bounding::next_near))]
pub fn next_within_greatest_draw()
    ensures { (events : List Happening) → IsInOrder events →
        (schedule_at events).next ≤ (schedule_at events).last + greatest_draw events }
{}

/// Where moments do not fall, no report is due until the interval drawn for it has passed since the newest
/// transmission (RFC 3550, 6.3.6).
#[tactic(auto, using(crate::proofs::Bounding::due_not_too_soon))]
pub fn never_due_too_soon()
    ensures { (events : List Happening) (moment interval : ℕ) → IsInOrder events →
        IsDue (schedule_at events) moment interval → newest_transmission events + interval ≤ moment }
{}

/// Where moments do not fall, a report is due at the latest when both the interval drawn for it and the
/// greatest interval drawn by the newest transmission and the tries since have passed since the newest
/// transmission and since the newest departure (RFC 3550, 6.3.4 and 6.3.6). Where there was no departure, its
/// moment is 0, and so is that of the newest transmission in an empty history.
pub fn due_in_time()
    ensures { (events : List Happening) (moment interval : ℕ) → IsInOrder events →
        newest_transmission events + max interval (greatest_draw events) ≤ moment →
        last_departure events + max interval (greatest_draw events) ≤ moment →
        IsDue (schedule_at events) moment interval }
{}

/// A transmission puts `last` at its moment, and each later call keeps it at the newest transmission or
/// departure, or before. Each keeps `next` within the longest draw from the greatest deterministic interval that
/// was drawn from at the transmission and the tries since (RFC 3550, 6.3.1, 6.3.4 and 6.3.6).
pub fn calls_keep_within_draws()
    ensures transmitted { (timing : Timing) (moment td word members : ℕ) → word < 2 ^ 32 →
        IsWithin moment td (after (transmitted moment (drawn_interval td word) members) timing) }
    ensures tried { (timing : Timing) (newest greatest moment td word members : ℕ) → word < 2 ^ 32 →
        IsWithin newest greatest timing →
        IsWithin newest (max td greatest) (after (tried moment (drawn_interval td word) members) timing) }
    ensures departed { (timing : Timing) (newest greatest moment members : ℕ) → timing.last ≤ moment →
        members < timing.known → IsWithin newest greatest timing →
        IsWithin moment greatest (after (recounted moment members) timing) }
    ensures stayed { (timing : Timing) (newest greatest moment members : ℕ) → timing.known ≤ members →
        IsWithin newest greatest timing → IsWithin newest greatest (after (recounted moment members) timing) }
{}

/// A departure never puts the next transmission later (RFC 3550, 6.3.4).
#[tactic(auto, using(crate::proofs::Bounding::next_after))]
pub fn departure_never_puts_later()
    ensures { (timing : Timing) (moment members : ℕ) →
        (after (recounted moment members) timing).next ≤ timing.next }
{}
