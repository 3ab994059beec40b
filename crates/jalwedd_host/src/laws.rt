//! Laws of what a host is told. Each is a function that does nothing, whose postcondition is the law.

ghost use Rattle.std.specs.Prelude.{◌≡◌, ◌+◌, ◌%◌, ◌^◌, ◌<◌, ◌≤◌, ◌≤ℤ◌, ℕ, pos, negsuc, List, length, Option, Some, slice_get};
ghost use Rattle.rtcp_wire.specs.Contents.{all_apps, all_blocks, all_goodbyes, all_items};
ghost use Rattle.rtcp_wire.specs.Contents.{packet_apps, packet_blocks, packet_goodbyes, packet_items, packet_senders};
ghost use Rattle.rtcp_wire.specs.Grammar.{AreOctets, IsAccepted};
ghost use Rattle.rtcp_wire.specs.RtpHeads.{IsReserved, IsRtpHead};
ghost use Rattle.rtcp_wire.specs.declared.fault.FaultReason.{FaultReason as Rule};
ghost use Rattle.rtcp_wire.specs.declared.rtp.fault.RtpFault.{RtpFault as HeadRule};
ghost use Rattle.rtcp_wire.specs.Values.{AppValue, ItemValue, ReportBlock, RtcpPacket, RtpValue};
ghost use Rattle.rtcp_members.specs.Listings.{StateValue};
ghost use Rattle.rtcp_listing.specs.Differences.{listed_of};
ghost use Rattle.rtcp_engine.specs.answers.Histories.{History, life_at, setup_at};
ghost use Rattle.rtcp_engine.specs.answers.Lives.{ListsInLife};
ghost use Rattle.rtcp_engine.specs.answers.Setups.{with_settings};
ghost use Rattle.rtcp_engine.specs.state.Taken.{IsHistory};
ghost use Rattle.rtcp_listing.specs.declared.change.Change.{Change};
ghost use Rattle.jalwedd_host.specs.declared.config.Config.{Config};
ghost use Rattle.jalwedd_host.specs.declared.config.Item.{Item};
ghost use Rattle.jalwedd_host.specs.declared.config.Settings.{Settings};
ghost use Rattle.jalwedd_host.specs.Configs.{configured_with, oversize, oversize_of_settings, settings_given, setup_given};
ghost use Rattle.jalwedd_host.specs.declared.source.HostSource.{HostSource};
ghost use Rattle.jalwedd_host.specs.Changes.{listed_by, change_from, changes_between};
ghost use Rattle.jalwedd_host.specs.Sources.{IsShown};
ghost use Rattle.jalwedd_host.specs.declared.app.AppPlace.{AppPlace};
ghost use Rattle.jalwedd_host.specs.declared.head.HeadPlace.{HeadPlace};
ghost use Rattle.jalwedd_host.specs.declared.parts.GoodbyePlace.{GoodbyePlace};
ghost use Rattle.jalwedd_host.specs.declared.parts.ItemPlace.{ItemPlace};
ghost use Rattle.jalwedd_host.specs.declared.reading.Report.{Report};
ghost use Rattle.rtcp_parts.specs.Cursors.{IsBoundary, LeavesBlocks, LeavesGoodbyes, LeavesItems, LeavesNone};
ghost use Rattle.jalwedd_host.specs.Apps.{ShowsApp, ShowsOwnApps};
ghost use Rattle.jalwedd_host.specs.Heads.{ShowsHead, number_of_head_fault};
ghost use Rattle.jalwedd_host.specs.Parts.{ShowsGoodbye, ShowsItem, ShowsSender};
ghost use Rattle.jalwedd_host.specs.Readings.{ShowsBlock, number_of};
ghost use Rattle.jalwedd_host.specs.Walks.{ShowsAll, begins};

use rtcp_engine::difference_laws::changes_have_each_once;
use rtcp_engine::laws::listed_moments_have_passed;

/// After any history, and whatever the start, what a host is given of a source says what the participant lists of it.
pub fn shown_sources_are_listed()
    ensures { (history : History) → IsHistory history → (after : Option ℕ) (state : StateValue) →
        ListsInLife (setup_at history) after (life_at history) (Some state) → (start : ℕ) → start < 2 ^ 63 →
        (shown : HostSource) → IsShown start shown state → listed_by shown ≡ listed_of state }
{
    listed_moments_have_passed();
}

/// Settings that a host gives in a running session leave it with the setup of a configuration that had them from the
/// start. What does not fit of them is what does not fit of that configuration, if its CNAME does.
pub fn settings_are_as_configured()
    ensures setup { (config : Config) (settings : Settings) (cname : List ℕ) (before items : List Item) →
        with_settings (settings_given settings items) (setup_given config cname before)
        ≡ setup_given (configured_with settings config) cname items }
    ensures fits { (config : Config) (settings : Settings) (cname : List ℕ) (items : List Item) →
        length cname ≤ 255 →
        oversize (configured_with settings config) cname items ≡ oversize_of_settings settings items }
{}

/// Begun with 0, and gone on with the SSRC told and 1, the changes between two listings are told in order,
/// each once.
pub fn changes_are_shown_in_turn()
    ensures first { (before after : List HostSource) →
        change_from 0 before after ≡ slice_get (changes_between before after) 0 }
    ensures next { (before after : List HostSource) (index : ℕ) (change : Change) →
        slice_get (changes_between before after) index ≡ Some change →
        change_from (change.ssrc + 1) before after ≡ slice_get (changes_between before after) (index + 1) }
{
    changes_have_each_once();
}

/// Begun with a cursor of zeros, and gone on with until no part is told, a walk over a datagram that is a compound
/// tells of each part of its kind once, in their order. A cursor of zeros stands at a boundary of its packets, so that
/// each packet of an application is one of the datagram's own (`WalksOwn`), and none inside another.
pub fn walks_show_each_part()
    ensures senders { ShowsAll packet_senders LeavesNone (λ datagram. ShowsSender) }
    ensures blocks { ShowsAll packet_blocks LeavesBlocks (λ datagram. ShowsBlock) }
    ensures items { ShowsAll packet_items LeavesItems ShowsItem }
    ensures goodbyes { ShowsAll packet_goodbyes LeavesGoodbyes ShowsGoodbye }
    ensures apps { ShowsAll packet_apps LeavesNone ShowsApp }
    ensures boundary { (datagram : List ℕ) (packets : List RtcpPacket) → IsAccepted datagram packets →
        IsBoundary datagram begins.next }
    ensures own_apps { ShowsOwnApps }
{}

/// The number of a reason says which rule a datagram breaks: no two rules of compounds or of RTP heads have the same.
pub fn reasons_tell_the_rule()
    ensures compounds { (one other : Rule) → number_of one ≡ number_of other → one ≡ other }
    ensures heads { (one other : HeadRule) → number_of_head_fault one ≡ number_of_head_fault other → one ≡ other }
    ensures apart { (reason : Rule) (fault : HeadRule) → number_of reason ≡ number_of_head_fault fault → ⊥ }
{}

/// What a host is told of the parts of a datagram is in the ranges that the header states: items have a type from 1 to
/// 255 and a text of at most 255 octets, reasons at most 255 octets, packets of applications a subtype of at most 31
/// and whole words of data, report blocks a number of lost packets of 24 bits with a sign, and RTP heads a payload type
/// below 128 that is not reserved, a sequence number below 65,536 and at most 15 CSRCs.
pub fn shown_parts_are_in_range()
    ensures item { (datagram : List ℕ) (packets : List RtcpPacket) (index : ℕ) (part : ℕ × ItemValue)
        (place : ItemPlace) → AreOctets datagram → IsAccepted datagram packets →
        slice_get (all_items packets) index ≡ Some part → ShowsItem datagram place part →
        (1 ≤ place.kind) × (place.kind ≤ 255) × (place.size ≤ 255) }
    ensures goodbye { (datagram : List ℕ) (packets : List RtcpPacket) (index : ℕ) (part : ℕ × Option (List ℕ))
        (place : GoodbyePlace) → AreOctets datagram → IsAccepted datagram packets →
        slice_get (all_goodbyes packets) index ≡ Some part → ShowsGoodbye datagram place part → place.size ≤ 255 }
    ensures app { (datagram : List ℕ) (packets : List RtcpPacket) (index : ℕ) (part : AppValue) (place : AppPlace) →
        AreOctets datagram → IsAccepted datagram packets → slice_get (all_apps packets) index ≡ Some part →
        ShowsApp datagram place part → (place.subtype ≤ 31) × (place.size % 4 ≡ 0) }
    ensures block { (datagram : List ℕ) (packets : List RtcpPacket) (index : ℕ) (part : ℕ × ReportBlock)
        (report : Report) → AreOctets datagram → IsAccepted datagram packets →
        slice_get (all_blocks packets) index ≡ Some part → ShowsBlock report part →
        (negsuc 8388607 ≤ℤ report.lost) × (report.lost ≤ℤ pos 8388607) }
    ensures head { (datagram : List ℕ) (head : RtpValue) (spelled : IsRtpHead datagram head) (place : HeadPlace) →
        AreOctets datagram → ShowsHead datagram head spelled place →
        (place.payload_type < 128) × (IsReserved place.payload_type → ⊥) × (place.sequence < 65536)
        × (place.csrcs ≤ 15) }
{}
