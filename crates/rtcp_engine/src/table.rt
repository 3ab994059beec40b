//! What arrives, applied to a table of members, and whether that changes who is a member or who sends.

ghost use Rattle.std.specs.Prelude.{◌≡◌, ◌≤◌, ◌<◌, ◌+◌, ◌^◌, ◌∷◌, [], ℕ, false};
ghost use Rattle.std.specs.FinMap as map;
ghost use Rattle.rtcp_wire.specs.Facts.{is_media};
ghost use Rattle.rtcp_members.specs.Roles.{check_moves, facts_move, forgetting_moves};
ghost use Rattle.rtcp_members.specs.Tables.{HasFew, after_check, after_forgetting, after_facts, counted, members_in, senders_in};
ghost use Rattle.rtcp_members.specs.Traces.{horizons_at};
ghost use Rattle.rtcp_engine.specs.answers.Arrivals.{facts_of_csrcs, facts_of_media, media_fact};

use rtcp_members::MemberTable;
use rtcp_wire::{Fact, RtpHead};

/// The members, the participant among them.
pub(crate) fn member_count<T: MemberTable>(table: &T) -> u32
    requires { map.len (T.content table.now).entries ≤ 1024 }
    ensures exact { result ≡ 1 + members_in (T.content table.now) }
    ensures few { result ≤ 1025 }
{
    1 + table.members()
}

/// Applies an RTP packet, whose timestamp counts in units of a clock of this rate, and its contributing sources but for
/// the participant itself, `own`, if it is counted. Returns whether that changed who is a member or who sends.
// Inlined, as `Participant::take_datagram`.
#[inline(always)]
pub(crate) fn apply_media<T: MemberTable>(
    table: &mut T,
    head: &RtpHead<'_>,
    own: u32,
    rate: u32,
    t: u64,
) -> bool
    requires { (packets : ℕ) × (packets < 2 ^ 40) × HasFew packets (T.content table.old) }
    ensures content { T.content table.new ≡ after_facts
        (facts_of_media own rate head.now (counted (T.content table.old) (media_fact rate head.now))) t
        (T.content table.old) }
    ensures moved { result ≡ facts_move
        (facts_of_media own rate head.now (counted (T.content table.old) (media_fact rate head.now))) t
        (T.content table.old) }
{
    let octets = head.payload().len() as u64;
    let packet = Fact::Media(head.ssrc(), head.sequence(), head.timestamp(), octets, rate);
    let effect = table.apply_fact(packet, t);
    if !effect.applied.counted {
        return effect.moved;
    }
    if apply_csrcs(table, head, own, t) {
        return true;
    }
    effect.moved
}

/// Applies the contributing sources of a packet but for the participant itself, `own`, and returns whether that changed
/// who is a member or who sends.
// Inlined, since most packets have none.
#[inline(always)]
fn apply_csrcs<T: MemberTable>(table: &mut T, head: &RtpHead<'_>, own: u32, t: u64) -> bool
    ensures content { T.content table.new ≡ after_facts (facts_of_csrcs own head.now.csrcs) t (T.content table.old) }
    ensures moved { result ≡ facts_move (facts_of_csrcs own head.now.csrcs) t (T.content table.old) }
{
    let mut moved = false;
    'csrcs: for csrc in head.csrcs() {
        if csrc != own {
            let by_this = apply_heard(table, csrc, t);
            moved |= by_this;
        }
    }
    moved
}

/// Makes a check, by its horizons, and returns whether it changed who is a member or who sends.
pub(crate) fn check<T: MemberTable>(
    table: &mut T,
    now: u64,
    silent_before: u64,
    data_before: u64,
    gone_before: u64,
) -> bool
    ensures content { T.content table.new
        ≡ after_check (horizons_at silent_before data_before gone_before) (T.content table.old) }
    ensures moved { result ≡ check_moves (horizons_at silent_before data_before gone_before) (T.content table.old) }
{
    let before = RoleCounts::of(table);
    table.check(now, silent_before, data_before, gone_before);
    RoleCounts::of(table) != before
}

/// Lets a source go that the host knows to be gone, and returns whether that changed who is a member or who sends.
pub(crate) fn forget<T: MemberTable>(table: &mut T, ssrc: u32) -> bool
    ensures content { T.content table.new ≡ after_forgetting ssrc (T.content table.old) }
    ensures moved { result ≡ forgetting_moves ssrc (T.content table.old) }
{
    let before = RoleCounts::of(table);
    table.forget(ssrc);
    RoleCounts::of(table) != before
}

/// Applies that a source was heard.
// Out of line, and with the fact made here, so that a packet without contributing sources makes none ready.
#[inline(never)]
fn apply_heard<T: MemberTable>(table: &mut T, ssrc: u32, t: u64) -> bool
    ensures content { T.content table.new ≡ after_facts (Fact.Heard ssrc ∷ []) t (T.content table.old) }
    ensures moved { result ≡ facts_move (Fact.Heard ssrc ∷ []) t (T.content table.old) }
{
    table.apply_fact(Fact::Heard(ssrc), t).moved
}

/// Applies a fact of any kind. As code it stands here once, where `MemberTable::apply_fact` is made for each place.
#[inline(never)]
pub(crate) fn apply_said<T: MemberTable>(table: &mut T, fact: Fact, t: u64) -> bool
    requires { is_media fact ≡ false }
    ensures content { T.content table.new ≡ after_facts (fact ∷ []) t (T.content table.old) }
    ensures moved { result ≡ facts_move (fact ∷ []) t (T.content table.old) }
{
    table.apply_fact(fact, t).moved
}

/// How many sources of a table are members, and how many send. A check changes who they are where it changes one of
/// these numbers, as it adds nobody, and so does a forget.
#[derive(Clone, Copy, PartialEq, Eq)]
struct RoleCounts {
    members: u32,
    senders: u32,
}

impl RoleCounts {
    fn of<T: MemberTable>(table: &T) -> RoleCounts
        ensures members { result.members ≡ members_in (T.content table.now) }
        ensures senders { result.senders ≡ senders_in (T.content table.now) }
    {
        RoleCounts {
            members: table.members(),
            senders: table.senders(),
        }
    }
}
