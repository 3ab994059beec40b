//! What a participant does as it leaves (RFC 3550, 6.3.7).

ghost use Rattle.std.specs.Prelude.{◌≡◌, ◌≤◌, ◌<◌, ◌*◌, ◌^◌, ℕ, Some, length};
ghost use Rattle.rtcp_engine.specs.answers.Leaving.{Backoff, after_wait, backoff_from, is_bye_due, sent_nothing, leaving_count, leaving_interval, leaving_load, with_byes_of};
ghost use Rattle.rtcp_engine.specs.answers.Lives.{bye_out};
ghost use Rattle.rtcp_engine.specs.answers.Outcomes.{Outcome};
ghost use Rattle.rtcp_engine.specs.answers.Reporting.{bye_octets};
ghost use Rattle.rtcp_engine.specs.state.States.{Agrees, DoesWaiting, Stays, Waits, KeepsCapacity};
ghost use Rattle.rtcp_engine.specs.state.Views.{LeavesRest, out_in};

use super::Presence;
use crate::step::{OutKind, Written};
use rtcp_members::MemberTable;
use rtcp_report::{bye_size, write_bye_into};
use rtcp_timer::{Average, Load, Verdict, interval};
use rtcp_wire::MAX_COMPOUND;

impl<T: MemberTable> Presence<T> {
    /// Whether neither a report nor an RTP packet was sent under the present SSRC.
    pub(crate) fn sent_nothing(&self) -> bool
        ensures { (outcome : Outcome) → Agrees self.now outcome → result ≡ sent_nothing outcome }
    {
        !self.own.did_send()
    }

    /// Writes the compound with the participant's BYE.
    pub(crate) fn write_bye(&self, octets: &mut [u8; MAX_COMPOUND]) -> Written
        ensures out { out_in octets.new (Some result) ≡ Some (bye_out (bye_octets self.now.setup)) }
        ensures size { result.size ≡ length (bye_octets self.now.setup) }
        ensures leaves { LeavesRest octets.old octets.new (Some result) }
        ensures small { result.size ≤ 284 }
    {
        Written {
            kind: OutKind::Bye,
            size: write_bye_into(self.config.ssrc, &self.config.cname, octets),
        }
    }

    /// Begins to back off at the moment of the latest call, with a random word for the draw.
    pub(crate) fn back_off(&mut self, w: u32)
        ensures stays { Stays self.old self.new }
        ensures waits { (outcome : Outcome) → Agrees self.old outcome →
            Waits self.new outcome (backoff_from self.old.setup self.old.latest w outcome) }
        ensures within { KeepsCapacity self.new }
    {
        self.average = Average::start(bye_size(&self.config.cname));
        let td = self.backoff_interval(1);
        self.schedule.leave(self.latest, td, w);
    }

    /// Moves the average by a compound of `size` octets with BYE packets.
    pub(crate) fn hear_byes(&mut self, size: usize)
        requires { size ≤ 65535 }
        ensures stays { Stays self.old self.new }
        ensures waits { (outcome : Outcome) (backoff : Backoff) (byes : ℕ) → Waits self.old outcome backoff →
            Waits self.new outcome (with_byes_of byes size backoff) }
        ensures within { KeepsCapacity self.new }
    {
        self.average.add(size as u32);
    }

    /// Whether the BYE of a backoff with so many members is due at the moment of the latest call, by a random word
    /// for the draw. If it is not, it is put off where its moment has come.
    pub(crate) fn expire_backoff(&mut self, w: u32, members: u32) -> bool
        requires some { 1 ≤ members }
        requires few { members ≤ 65535 }
        ensures due { (outcome : Outcome) (backoff : Backoff) → Waits self.old outcome backoff →
            members ≡ leaving_count backoff → result ≡ is_bye_due self.old.setup self.old.latest w backoff }
        ensures new { DoesWaiting members self.old self.new (λ setup. after_wait setup self.old.latest w) }
    {
        let td = self.backoff_interval(members);
        self.schedule.expire(self.latest, td, w, members) == Verdict::Due
    }

    /// The deterministic interval of a backoff with so many members.
    fn backoff_interval(&self, members: u32) -> u64
        requires some { 1 ≤ members }
        requires few { members ≤ 65535 }
        ensures exact { (outcome : Outcome) (backoff : Backoff) → Waits self.now outcome backoff →
            members ≡ leaving_count backoff → result ≡ leaving_interval self.now.setup backoff }
        ensures bounded { result < 2 ^ 49 }
    {
        interval(&self.backoff_load(members))
    }

    /// What that interval depends on: the participant counts as one that joins, and does not send.
    fn backoff_load(&self, members: u32) -> Load
        ensures exact { (outcome : Outcome) (backoff : Backoff) → Waits self.now outcome backoff →
            result ≡ leaving_load self.now.setup members backoff.bye_compounds }
        ensures members { result.members ≡ members }
        ensures average { result.avg ≤ 256 * 65563 }
        ensures some_for_senders { 16 ≤ result.sender_bw }
        ensures some_for_others { 16 ≤ result.receiver_bw }
    {
        Load {
            members,
            senders: 0,
            we_sent: false,
            initial: true,
            avg: self.average.value(),
            sender_bw: self.config.sender_bw,
            receiver_bw: self.config.receiver_bw,
        }
    }
}
