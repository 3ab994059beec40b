//! What a participant does as it changes its identifier (RFC 3550, 8.2).

ghost use Rattle.std.specs.Prelude.{◌≡◌, is_some, option_map};
ghost use Rattle.std.specs.FinMap as map;
ghost use Rattle.rtcp_engine.specs.answers.Lives.{bye_out};
ghost use Rattle.rtcp_engine.specs.state.States.{own_bye_in, after_change, with_own_bye, KeepsCapacity};
ghost use Rattle.rtcp_engine.specs.state.Views.{LeavesRest, out_in};

use super::Presence;
use crate::step::Written;
use rtcp_members::MemberTable;
use rtcp_wire::MAX_COMPOUND;

impl<T: MemberTable> Presence<T> {
    /// The present SSRC.
    pub(crate) fn ssrc(&self) -> u32
        ensures { result ≡ self.now.setup.ssrc }
    {
        self.config.ssrc
    }

    /// Whether the table has an entry of this source, marked or not.
    pub(crate) fn knows(&self, ssrc: u32) -> bool
        ensures { result ≡ is_some (map.get self.now.table.entries ssrc) }
    {
        self.table.holds(ssrc)
    }

    /// Gives up the SSRC for another. If something was sent under the old one, it writes a BYE of that, which
    /// moves the average. The own stream's counts begin anew, and nothing else does.
    pub(crate) fn change_identifier(
        &mut self,
        ssrc: u32,
        octets: &mut [u8; MAX_COMPOUND],
    ) -> Option<Written>
        ensures bye { out_in octets.new result ≡ option_map bye_out (own_bye_in self.old) }
        ensures leaves { LeavesRest octets.old octets.new result }
        ensures new { self.new ≡ after_change ssrc self.old }
        ensures within { KeepsCapacity self.new }
    {
        let bye = self.bye_if_sent(octets);
        self.config.ssrc = ssrc;
        self.own.count_anew();
        bye
    }

    /// Writes the BYE of the present SSRC, if something was sent under it. It moves the average.
    fn bye_if_sent(&mut self, octets: &mut [u8; MAX_COMPOUND]) -> Option<Written>
        ensures bye { out_in octets.new result ≡ option_map bye_out (own_bye_in self.old) }
        ensures leaves { LeavesRest octets.old octets.new result }
        ensures new { self.new ≡ with_own_bye self.old }
    {
        if !self.own.did_send() {
            return None;
        }
        let bye = self.write_bye(octets);
        self.average.add(bye.size as u32);
        Some(bye)
    }
}
