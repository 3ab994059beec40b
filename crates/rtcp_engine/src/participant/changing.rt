//! A change of the participant's identifier, for a datagram that names it (RFC 3550, 8.2).

ghost use Rattle.std.specs.Prelude.{◌≡◌, ◌||◌, ◌≤◌, ◌<◌, IfSome, None, length, map, true};
ghost use Rattle.rtcp_engine.specs.answers.Identities.{IsFirstFree};
ghost use Rattle.rtcp_engine.specs.answers.Acts.{arrived};
ghost use Rattle.rtcp_engine.specs.answers.Changes.{Session, changed_to, identifiers, is_about, is_in_table, is_taken as is_taken_of, new_identifier, is_among, may_change};
ghost use Rattle.rtcp_engine.specs.answers.Histories.{History, session_at};
ghost use Rattle.rtcp_engine.specs.answers.Lives.{own_bye};
ghost use Rattle.rtcp_engine.specs.state.Named.{AreTaken};
ghost use Rattle.rtcp_engine.specs.state.Promises.{Spares, Takes, WritesReply};
ghost use Rattle.rtcp_engine.specs.state.States.{Admits, IsIn, StandsAt, over, refusal_by, KeepsCapacity};
ghost use Rattle.rtcp_engine.specs.state.Views.{LeavesRest, NamesFewer, datagram_of, out_in, reply_value, size_of};

use super::Participant;
use crate::arrival::{Arrival, BLOCK};
use crate::refusal::Refusal;
use crate::step::{Brought, Reply, Written};
use rtcp_members::MemberTable;
use rtcp_wire::MAX_COMPOUND;

/// So many blocks have more identifiers than can be taken: at most nine are or were the participant's own, 1,024 are in
/// its table, and fewer than 2^16 are in a datagram.
const MAX_BLOCKS: u32 = 4096;

impl<T: MemberTable> Participant<T> {
    /// Takes a datagram that names the participant's SSRC, after a change of that, or refuses it.
    // Inlined, so that a refusal costs no call: a peer that is refused may send such a datagram again and again.
    #[inline(always)]
    pub(super) fn arrive_as_own(
        &mut self,
        now: u64,
        peer: u64,
        w: u32,
        arrival: Arrival<'_>,
        octets: &mut [u8; MAX_COMPOUND],
    ) -> Reply
        requires own { is_about self.old.presence.setup.ssrc (datagram_of arrival) ≡ true }
        requires admitted { refusal_by now self.old ≡ None }
        requires in_order { Admits self.old.presence now }
        requires size { size_of arrival ≤ 65535 }
        requires few { NamesFewer arrival }
        ensures takes { Takes self.old (arrived now peer w (datagram_of arrival.entry))
            (reply_value octets.new result) self.new }
        ensures spares { Spares self.old result self.new }
        ensures writes { WritesReply octets.old octets.new result self.new }
    {
        if !self.changes.allows(peer) {
            return Err(Refusal::OwnSsrc);
        }
        // Not returned at once: the compiler would keep every answer on the stack for this call.
        let reply = self.arrive_after_change(now, peer, w, arrival, octets);
        reply
    }

    /// Takes such a datagram after a change of the SSRC, where its peer may bring one.
    #[cold]
    fn arrive_after_change(
        &mut self,
        now: u64,
        peer: u64,
        w: u32,
        arrival: Arrival<'_>,
        octets: &mut [u8; MAX_COMPOUND],
    ) -> Reply
        requires own { is_about self.old.presence.setup.ssrc (datagram_of arrival) ≡ true }
        requires admitted { refusal_by now self.old ≡ None }
        requires in_order { Admits self.old.presence now }
        requires size { size_of arrival ≤ 65535 }
        requires few { NamesFewer arrival }
        requires allowed { may_change (map (λ change. change.peer) self.old.changes) peer ≡ true }
        ensures takes { Takes self.old (arrived now peer w (datagram_of arrival.entry))
            (reply_value octets.new result) self.new }
        ensures spares { Spares self.old result self.new }
        ensures writes { WritesReply octets.old octets.new result self.new }
    {
        let ssrc = self.free_ssrc(w, &arrival);
        let out = self.change(peer, ssrc, octets);
        self.take_call(now);
        let others_changed = self.take_datagram(now, &arrival);
        let mut told = self.written_step(Brought {
            out,
            others_changed,
        });
        told.changed = Some(ssrc);
        Ok(told)
    }

    /// The first of `w`, the number after it, and so on that is not taken: neither by the participant, now or
    /// before, nor by a source of its table, nor in the datagram.
    pub(super) fn free_ssrc(&self, w: u32, arrival: &Arrival<'_>) -> u32
        requires few { NamesFewer arrival.now }
        ensures { (history : History) → StandsAt self.now history → (self.now.phase ≡ over → ⊥) →
            result ≡ new_identifier w (session_at history) (datagram_of arrival.now) }
    {
        'spans: for block in 0..MAX_BLOCKS {
            let first = w.wrapping_add(block * BLOCK as u32);
            if let Some(ssrc) = self.free_in_block(first, arrival) {
                return ssrc;
            }
        }
        w
    }

    /// The first identifier of a block, from `first` on, that is not taken.
    // The datagram is read once for all of them: whoever chose the identifiers in it knew perhaps where they begin.
    fn free_in_block(&self, first: u32, arrival: &Arrival<'_>) -> Option<u32>
        ensures free { (session : Session) → IsIn self.now session → (self.now.phase ≡ over → ⊥) →
            IfSome result (IsFirstFree (is_taken_of session (datagram_of arrival.now)) first) }
        ensures none { (session : Session) → IsIn self.now session → (self.now.phase ≡ over → ⊥) → result ≡ None →
            AreTaken (is_taken_of session (datagram_of arrival.now)) first 32 }
    {
        let named = arrival.names_from(first);
        'tries: for offset in 0..BLOCK {
            let ssrc = first.wrapping_add(offset as u32);
            if !(self.holds(ssrc) || named[offset]) {
                return Some(ssrc);
            }
        }
        None
    }

    /// Whether the participant or a source of its table has this SSRC.
    fn holds(&self, ssrc: u32) -> bool
        ensures { (session : Session) → IsIn self.now session → (self.now.phase ≡ over → ⊥) →
            result ≡ (is_among (identifiers session) ssrc || is_in_table session.setup session.life ssrc) }
    {
        self.is_own(ssrc) || self.presence.knows(ssrc)
    }

    /// Whether this SSRC is the participant's, or was.
    fn is_own(&self, ssrc: u32) -> bool
        ensures { (session : Session) → IsIn self.now session →
            result ≡ is_among (identifiers session) ssrc }
    {
        self.presence.ssrc() == ssrc || self.changes.gave_up(ssrc)
    }

    /// Takes another SSRC, as a datagram of this peer names the present one. The BYE of that one is written,
    /// if something was sent under it.
    fn change(&mut self, peer: u64, ssrc: u32, octets: &mut [u8; MAX_COMPOUND]) -> Option<Written>
        requires room { length self.old.changes < 8 }
        requires present { self.old.phase ≡ over → ⊥ }
        ensures out { (session : Session) → IsIn self.old session →
            out_in octets.new result ≡ own_bye session.setup session.life }
        ensures new { (session : Session) → IsIn self.old session →
            IsIn self.new (changed_to (record { peer = peer; ssrc = ssrc }) session) }
        ensures latest { self.new.presence.latest ≡ self.old.presence.latest }
        ensures calls { self.new.presence.calls ≡ self.old.presence.calls }
        ensures within { KeepsCapacity self.new.presence }
        ensures leaves { LeavesRest octets.old octets.new result }
    {
        self.changes.add(peer, self.presence.ssrc());
        self.presence.change_identifier(ssrc, octets)
    }
}
