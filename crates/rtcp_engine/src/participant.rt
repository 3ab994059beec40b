//! A participant of a session, up to its leave and through it (RFC 3550, 6.2, 6.3).

ghost use Rattle.std.specs.Prelude.{option_map, ◌≡◌, ◌↔◌, ◌<◌, ◌^◌, Some, None, Err, IfOk, IfSome};
ghost use Rattle.rtcp_members.specs.Tables.{no_members};
ghost use Rattle.rtcp_members.specs.ListViews.{state_value};
ghost use Rattle.rtcp_engine.specs.declared.config.ConfigError.{ConfigError as Error};
ghost use Rattle.rtcp_engine.specs.answers.Acts.{forget_asked, leave_asked, packet_sent, rtcp_arrived, rtp_arrived, settings_given, time_passed, settings_value};
ghost use Rattle.rtcp_engine.specs.answers.Histories.{History, life_at, setup_at};
ghost use Rattle.rtcp_engine.specs.answers.Lives.{members_in_life, senders_in_life, entries_in_life, ListsInLife, WalksInLife, next_in_life, silent_in_life};
ghost use Rattle.rtcp_engine.specs.answers.OwnCounts.{own_counts_in_life};
ghost use Rattle.rtcp_engine.specs.answers.Refused.{error_in};
ghost use Rattle.rtcp_engine.specs.state.States.{StandsAt, KeepsCapacity};
ghost use Rattle.rtcp_engine.specs.state.Promises.{Answers};
ghost use Rattle.rtcp_engine.specs.state.Taken.{begun};
ghost use Rattle.rtcp_engine.specs.state.Views.{setup_of};

use crate::changes::IdentifierChanges;
use crate::config::{Config, ConfigError};
use crate::own::OwnCounts;
use crate::presence::Presence;
use crate::settings::Settings;
use crate::step::{Answer, answer_with};
use rtcp_members::{InlineTable, MemberTable, SourceState, Sources};
use rtcp_wire::MAX_COMPOUND;
use std::marker::Model;

mod answering;
mod backoff;
mod calls;
mod changing;
mod inspecting;
mod phases;

pub use inspecting::{InspectedRtcp, InspectedRtp};

/// The most members with which a BYE goes out at once (RFC 3550, 6.3.7).
const FEW_MEMBERS: u32 = 50;

/// Where a participant is in its session.
#[derive(Clone, Copy, Debug)]
pub(crate) enum Phase {
    /// It takes part.
    Present,
    /// It left, and its BYE is to come: with it, so many leave.
    BackingOff(u32),
    /// It left for good.
    Finished,
}

/// The control half of a participant: it is told what arrives, what is sent and what time it is, and it answers
/// what to send, and when to ask again.
#[derive(Drop)]
pub struct Participant<T: MemberTable> {
    phase: Phase,
    presence: Presence<T>,
    changes: IdentifierChanges,
}

impl<T: MemberTable> Model for Participant<T> {
    ghost use Rattle.rtcp_engine.specs.state.States.{ParticipantValue, IsCounted, KeepsCapacity};
    ghost use Rattle.rtcp_engine.specs.state.Views.{phase_value};
    ghost use Rattle.rtcp_engine.specs.state.Codes.{participant_code};

    ghost Value = { ParticipantValue };

    ghost coded = { participant_code };

    ghost view = { λ p. record {
      presence = p.presence;
      phase = phase_value p.phase;
      changes = p.changes.list.items;
    } };

    ghost invariant = { λ p. KeepsCapacity p.presence × IsCounted (phase_value p.phase) };
}

impl<T: InlineTable> Participant<T> {
    /// A participant of a session that begins now, at moment 0, over a table that has its room in itself. `word` is a
    /// random word, for the draw of the first interval. Call `tick` at `next`.
    ///
    /// # Errors
    ///
    /// The first of C1 to C6 that applies to the configuration.
    pub fn new(config: Config, word: u32) -> Result<Participant<T>, ConfigError>
        ensures begins { IfOk result (λ participant. StandsAt participant (begun (setup_of config) word)) }
        ensures within { IfOk result (λ participant. KeepsCapacity participant.presence) }
        ensures refused { (error : Error) → (result ≡ Err error) ↔ (error_in (setup_of config) ≡ Some error) }
    {
        if let Some(error) = config.error() {
            return Err(error);
        }
        let table = T::empty(config.capacity);
        Ok(Participant::with_table(config, table, word))
    }
}

impl<T: MemberTable> Participant<T> {
    /// A participant of a session that begins now, at moment 0, over an empty table that was made for the
    /// configuration's capacity. The configuration is one that `Config::error` does not refuse. `word` is a
    /// random word, for the draw of the first interval. Call `tick` at `next`.
    pub fn with_table(config: Config, table: T, word: u32) -> Participant<T>
        requires usable { error_in (setup_of config) ≡ None }
        requires vacant { T.content table ≡ no_members config.capacity }
        ensures begins { StandsAt result (begun (setup_of config) word) }
        ensures within { KeepsCapacity result.presence }
    {
        Participant {
            presence: Presence::with_table(config, table, word),
            phase: Phase::Present,
            changes: IdentifierChanges::new(),
        }
    }

    /// The members of the session, this participant included (RFC 3550, 6.2.1): 0 once it has left.
    pub fn members(&self) -> u32
        ensures { (history : History) → StandsAt self.now history →
            result ≡ members_in_life (setup_at history) (life_at history) }
    {
        self.standing().members
    }

    /// The members that send RTP packets, this participant included where it does.
    pub fn senders(&self) -> u32
        ensures { (history : History) → StandsAt self.now history →
            result ≡ senders_in_life (setup_at history) (life_at history) }
    {
        self.standing().senders
    }

    /// What is known of the source of least SSRC above `after`, or of all sources: members, those that are not
    /// yet valid, and those that left and are held for a while. It changes nothing. The participant itself is
    /// none of them. Begun with `None` and gone on with the SSRC of each answer, it goes through all sources, by
    /// rising SSRC. `None` where there is no such source, and once the participant leaves, as it then follows
    /// nobody any more.
    pub fn source_above(&self, after: Option<u32>) -> Option<SourceState>
        ensures { (history : History) → StandsAt self.now history →
            ListsInLife (setup_at history) after (life_at history) (option_map state_value result) }
    {
        match self.phase {
            Phase::Present => self.presence.source_above(after),
            Phase::BackingOff(_) | Phase::Finished => None,
        }
    }

    /// [`source_above`](Participant::source_above), for a host that asks for one source after the other: the participant
    /// notes where the one that it tells stands, to find the next one sooner. It is the same after it.
    pub fn next_source(&mut self, after: Option<u32>) -> Option<SourceState>
        ensures listed { (history : History) → StandsAt self.old history →
            ListsInLife (setup_at history) after (life_at history) (option_map state_value result) }
        ensures kept { self.new ≡ self.old }
    {
        if let Phase::Present = self.phase {
            return self.presence.next_source(after);
        }
        None
    }

    /// How many places of the table are taken: by members, by sources that are not yet valid, and by those that
    /// left and are held for a while. As many as the configuration's `capacity` say that the table is full, as
    /// under a flood of invented SSRCs: then no other source is taken up until a check drops one. 0 once the
    /// participant leaves.
    pub fn entries(&self) -> u32
        ensures { (history : History) → StandsAt self.now history →
            result ≡ entries_in_life (setup_at history) (life_at history) }
    {
        self.standing().entries
    }

    /// What the participant has sent under its present SSRC, and whether it counts as a sender: `None` once it leaves, as
    /// it reports nothing from then on. It changes nothing.
    pub fn own_counts(&self) -> Option<OwnCounts>
        ensures { (history : History) → StandsAt self.now history →
            result ≡ own_counts_in_life (life_at history) }
    {
        match self.phase {
            Phase::Present => Some(self.presence.own_counts()),
            Phase::BackingOff(_) | Phase::Finished => None,
        }
    }

    /// What is known of each source, by rising SSRC: an iterator over all answers of `source_above`.
    pub fn sources(&self) -> Sources<'_, T>
        ensures { (history : History) → StandsAt self.now history →
            WalksInLife (setup_at history) (life_at history) result }
    {
        if let Phase::Present = self.phase {
            return self.presence.sources();
        }
        Sources::none()
    }

    /// When to call `tick` next, in microseconds since the session began, below 2^51: `None` once the participant has
    /// left.
    pub fn next(&self) -> Option<u64>
        ensures exact { (history : History) → StandsAt self.now history →
            result ≡ next_in_life (life_at history) }
        ensures bounded { IfSome result (λ next. next < 2 ^ 51) }
    {
        self.standing().next
    }

    /// The moment before which a source has been silent for too long, by a check at the moment `now`: five intervals of
    /// a participant that does not send, before `now` (RFC 3550, 6.3.5), in microseconds since the session began. A tick
    /// at `now` drops just the sources that were last heard before it, and those whose BYE is held no longer. 0 once the
    /// participant leaves, as then nobody is dropped any more. It changes nothing.
    pub fn silent_before(&self, now: u64) -> u64
        ensures { (history : History) → StandsAt self.now history →
            result ≡ silent_in_life (setup_at history) now (life_at history) }
    {
        match self.phase {
            Phase::Present => self.presence.silent_before(now),
            Phase::BackingOff(_) | Phase::Finished => 0,
        }
    }

    /// The SSRC under which the participant takes part, or did last.
    pub fn ssrc(&self) -> u32
        ensures { (history : History) → StandsAt self.now history →
            result ≡ (setup_at history).ssrc }
    {
        self.standing().ssrc
    }

    /// An RTCP datagram came at the moment `now`, with the octets that UDP carried. `peer` is a number for where
    /// it came from, which two peers do not share, and `w` a random word for a new SSRC.
    ///
    /// A datagram that names the participant's own SSRC changes it, the first time its peer sends such a one,
    /// and at most eight times in a session (RFC 3550, 8.2): the answer has the new SSRC, and the BYE of the
    /// old one, if something was sent under that. The datagram is taken after the change, as any other.
    ///
    /// # Errors
    ///
    /// The first of E1 to E5 and E7 that applies. Then the participant is unchanged.
    pub fn arrive_rtcp(&mut self, now: u64, peer: u64, w: u32, bytes: &[u8]) -> Answer
        ensures { Answers self.old (rtcp_arrived now peer w bytes.now) result self.new }
    {
        let mut octets = [0; MAX_COMPOUND];
        let reply = self.arrive_rtcp_into(now, peer, w, bytes, &mut octets);
        answer_with(reply, &octets)
    }

    /// An RTP datagram came at the moment `now`, with the octets that UDP carried. `peer` and `w` are those of
    /// `arrive_rtcp`, and a packet with the participant's own SSRC changes that as there.
    ///
    /// # Errors
    ///
    /// The first of E1 to E4, E6 and E7 that applies. Then the participant is unchanged.
    pub fn arrive_rtp(&mut self, now: u64, peer: u64, w: u32, bytes: &[u8]) -> Answer
        ensures { Answers self.old (rtp_arrived now peer w bytes.now) result self.new }
    {
        let mut octets = [0; MAX_COMPOUND];
        let reply = self.arrive_rtp_into(now, peer, w, bytes, &mut octets);
        answer_with(reply, &octets)
    }

    /// The host sent an RTP packet at the moment `now`, with the RTP timestamp `rtp_ts` and so many octets of
    /// payload, without padding (RFC 3550, 6.3.8, 6.4.1). Once the participant leaves, it counts for nothing.
    ///
    /// # Errors
    ///
    /// The first of E1 to E4 that applies. Then the participant is unchanged.
    pub fn sent_rtp(&mut self, now: u64, rtp_ts: u32, octets: u32) -> Answer
        ensures { Answers self.old (packet_sent now rtp_ts octets) result self.new }
    {
        let mut room = [0; MAX_COMPOUND];
        let reply = self.sent_rtp_into(now, rtp_ts, octets, &mut room);
        answer_with(reply, &room)
    }

    /// Asks at the moment `now` whether a report is due, or the BYE of a participant that backs off, with two
    /// random words: `w1` for the draw that decides it, and `w2` for that of the next interval. Each tick before
    /// a leave also drops those who are silent for too long (RFC 3550, 6.3.5).
    ///
    /// A tick that comes late sends, whatever the words are (`not_too_late`): as long after the last report and
    /// the last fall of the members as the longest draw from the greatest interval since that report.
    ///
    /// # Errors
    ///
    /// The first of E1 to E4 that applies. Then the participant is unchanged.
    pub fn tick(&mut self, now: u64, w1: u32, w2: u32) -> Answer
        ensures { Answers self.old (time_passed now w1 w2) result self.new }
    {
        let mut octets = [0; MAX_COMPOUND];
        let reply = self.tick_into(now, w1, w2, &mut octets);
        answer_with(reply, &octets)
    }

    /// Leaves the session at the moment `now`, with a random word for the draw of a backoff (RFC 3550, 6.3.7).
    ///
    /// One that sent neither a report nor an RTP packet under its present SSRC leaves silently. Else, with at most 50
    /// members, the BYE goes out at once. With more the participant backs off, so that not all who leave say so at
    /// once: go on with `tick` at `next` until that is `None`. The BYE comes from one of these ticks. A leave in a
    /// backoff changes nothing of it.
    ///
    /// # Errors
    ///
    /// The first of E1 to E4 that applies. Then the participant is unchanged.
    pub fn leave(&mut self, now: u64, w: u32) -> Answer
        ensures { Answers self.old (leave_asked now w) result self.new }
    {
        let mut octets = [0; MAX_COMPOUND];
        let reply = self.leave_into(now, w, &mut octets);
        answer_with(reply, &octets)
    }

    /// Gives the participant other settings at the moment `now`: the bandwidths of the session, its clocks and its time
    /// of day, and what it says of itself beside its CNAME. They hold from then on, in a backoff too: each interval that
    /// is computed later is computed by these bandwidths, and each report that is made later says these items, and
    /// tells its moment by this rate and this time of day.
    ///
    /// What is known of the session stays: its members, the average and the schedule, so that no report comes sooner
    /// by this call. With less bandwidth the next report is put off once its moment comes, as its interval is
    /// computed anew then (RFC 3550, 6.3.6); with more it comes at its moment, and those after it sooner. Until five
    /// of the former intervals have passed, checks go by the lesser bandwidths, so that nobody who still reports at
    /// the former pace is dropped (6.3.5).
    ///
    /// # Errors
    ///
    /// The first of E1 to E4 and E8 that applies. Then the participant is unchanged.
    pub fn configure(&mut self, now: u64, settings: &Settings) -> Answer
        ensures { Answers self.old (settings_given now (settings_value settings.now)) result self.new }
    {
        let mut octets = [0; MAX_COMPOUND];
        let reply = self.configure_into(now, settings, &mut octets);
        answer_with(reply, &octets)
    }

    /// Tells that another source is gone, as its host knows by other means, such as signalling. Its entry goes as if
    /// the source had been silent for too long at the moment `now` (RFC 3550, 6.3.5): it is no member and no sender any
    /// more, the members are counted again (6.3.4), and there is room for another source. Named again, it comes as a
    /// new one.
    ///
    /// Nothing changes where the source has no entry, sent a BYE, or is the participant itself, and in a backoff.
    ///
    /// # Errors
    ///
    /// The first of E1 to E4 that applies. Then the participant is unchanged.
    pub fn forget(&mut self, now: u64, ssrc: u32) -> Answer
        ensures { Answers self.old (forget_asked now ssrc) result self.new }
    {
        let mut octets = [0; MAX_COMPOUND];
        let reply = self.forget_into(now, ssrc, &mut octets);
        answer_with(reply, &octets)
    }
}
