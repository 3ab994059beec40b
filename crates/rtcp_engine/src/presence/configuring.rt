//! What a participant does as its host gives it other settings (RFC 3550, 6.2, 6.3.1).

ghost use Rattle.std.specs.Prelude.{◌≡◌, None, IfSome};
ghost use Rattle.rtcp_engine.specs.answers.Outcomes.{Outcome, pace_at, IsPace};
ghost use Rattle.rtcp_engine.specs.answers.Setups.{settings_error};
ghost use Rattle.rtcp_engine.specs.state.States.{Agrees, IsPaceOf, with_settings_in, KeepsCapacity};
ghost use Rattle.rtcp_engine.specs.answers.Acts.{settings_value};

use super::Presence;
use crate::pace::{Pace, end_of, slowed};
use crate::settings::{Settings, copied, copied_clocks};
use rtcp_members::MemberTable;
use rtcp_timer::interval;

impl<T: MemberTable> Presence<T> {
    /// Takes other settings at the moment of the latest call. Members, average and schedule stay as they are: the next
    /// interval that is computed is the first by the new bandwidths, the next RTP packet that comes the first by the
    /// new clocks, and the next report the first by the new rate and time of day. Checks go by the former bandwidths too, until all others had time to report at the new pace.
    pub(crate) fn configure(&mut self, settings: &Settings)
        requires { settings_error (settings_value settings.now) ≡ None }
        ensures new { self.new ≡ with_settings_in (settings_value settings.now) self.new.pace self.old }
        ensures pace { IsPaceOf (settings_value settings.now) self.old self.new.pace }
        ensures within { KeepsCapacity self.new }
    {
        self.pace = self.pace_under(settings);
        self.config.sender_bw = settings.sender_bw;
        self.config.receiver_bw = settings.receiver_bw;
        self.config.rate = settings.rate;
        self.config.clocks = copied_clocks(&settings.clocks);
        self.config.ntp_base = settings.ntp_base;
        self.config.extras = copied(&settings.extras);
    }

    /// The former pace that counts once these settings are given: another one only where bandwidths change.
    fn pace_under(&self, settings: &Settings) -> Option<Pace>
        ensures exact { IsPaceOf (settings_value settings.now) self.now result }
        ensures usable { IfSome result IsPace }
    {
        let config = &self.config;
        if settings.sender_bw == config.sender_bw && settings.receiver_bw == config.receiver_bw {
            return self.pace;
        }
        Some(self.pace_now())
    }

    /// The bandwidths that checks go by now, for as long as a source may be silent.
    fn pace_now(&self) -> Pace
        ensures exact { (outcome : Outcome) → Agrees self.now outcome →
            result ≡ pace_at self.now.setup self.now.latest outcome }
        ensures usable { IsPace result }
    {
        let receiver = self.receiver_load();
        let end = self.latest + 5 * interval(&receiver);
        let load = slowed(self.pace, self.latest, receiver);
        Pace {
            sender_bw: load.sender_bw,
            receiver_bw: load.receiver_bw,
            until: end_of(self.pace).max(end),
        }
    }
}
