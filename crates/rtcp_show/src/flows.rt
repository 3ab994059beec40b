//! What is kept of the packets of sources beside their table.

ghost use Rattle.std.specs.Prelude.{◌≡◌, ◌<◌, [], ℕ, Option, OnOk, option_map, unwrap_or};
ghost use Rattle.rtcp_engine.specs.answers.Histories.{History};
ghost use Rattle.rtcp_engine.specs.state.States.{StandsAt};
ghost use Rattle.rtcp_engine.specs.state.Views.{event_value};
ghost use Rattle.rtcp_guarded.specs.Views.{guarded_value};
ghost use Rattle.rtcp_members.specs.ListViews.{state_value};
ghost use Rattle.rtcp_source.specs.Views.{reception_value};
ghost use Rattle.rtcp_show.specs.Flows.{IsMedia, IsMediaOf, counted_in, flow_in, heard_after, heard_at, looked_at, loss_of, lost_packets, no_flow, packet_rate_between, peer_at, peer_of_event, reporter_of, with_peer};
ghost use Rattle.rtcp_show.specs.Listings.{if_listed, lists};

use crate::by_source::BySource;
use crate::notes::is_listed;
use rtcp_engine::{Event, Participant};
use rtcp_guarded::GuardedAnswer;
use rtcp_members::{MemberTable, SourceState};
use rtcp_serve::Port;
use rtcp_source::Reception;
use rtcp_wire::{Compound, PacketView, RtpHead};
use std::alloc::AllocError;

/// How the packets of a source come, as its table does not keep it.
#[derive(Clone, Copy, Debug, PartialEq, Eq)]
pub struct Flow {
    /// The peer that its last RTP datagram came from.
    pub rtp_peer: Option<u64>,
    /// The peer that the last RTCP datagram came from that begins with its report.
    pub rtcp_peer: Option<u64>,
    /// How many packets were counted of it when the sources were looked at last.
    pub counted: Option<u64>,
    /// The packets lost of all that were expected, in tenths of a per cent.
    pub loss: Option<u64>,
    /// Packets a second since the sources were looked at before, in tenths.
    pub packet_rate: Option<u64>,
}

impl Flow {
    /// Nothing.
    pub fn new() -> Flow
        ensures { result ≡ no_flow }
    {
        Flow {
            rtp_peer: None,
            rtcp_peer: None,
            counted: None,
            loss: None,
            packet_rate: None,
        }
    }

    /// The peer that its last packet at a port came from.
    fn peer_at(&self, port: Port) -> Option<u64>
        ensures { result ≡ peer_at port self.now }
    {
        match port {
            Port::Rtp => self.rtp_peer,
            Port::Rtcp => self.rtcp_peer,
        }
    }

    /// The same, with the peer that a packet at a port came from.
    fn with_peer(self, port: Port, peer: u64) -> Flow
        ensures { result ≡ with_peer port peer self }
    {
        let peer = Some(peer);
        match port {
            Port::Rtp => Flow {
                rtp_peer: peer,
                ..self
            },
            Port::Rtcp => Flow {
                rtcp_peer: peer,
                ..self
            },
        }
    }
}

impl BySource<Flow> {
    /// The flow of a source.
    pub(crate) fn flow(&self, ssrc: u32) -> Flow
        ensures { result ≡ flow_in self.now ssrc }
    {
        match self.get(ssrc) {
            Some(flow) => *flow,
            None => Flow::new(),
        }
    }

    /// Keeps where a datagram that was taken came from, of a source that the participant tells of.
    ///
    /// # Errors
    ///
    /// `AllocError` where memory is refused. Then it is not kept.
    pub(crate) fn note_peers<T: MemberTable>(
        &mut self,
        event: &Event<'_>,
        answer: &GuardedAnswer,
        compound: &Option<Compound<'_>>,
        participant: &Participant<T>,
    ) -> Result<(), AllocError>
        ensures { (history : History) (media : Option ℕ) → StandsAt participant.now history →
            IsMediaOf (event_value event.now) (guarded_value answer.now) media →
            OnOk result ((ssrc : ℕ) → flow_in self.new ssrc ≡ if_listed (lists history ssrc)
            (heard_after (peer_of_event (event_value event.now)) (unwrap_or compound.now []) media ssrc)
            (flow_in self.old ssrc)) }
    {
        let peer = peer_of(event);
        self.note_peer(Port::Rtp, media_of(event, answer), peer, participant)?;
        self.note_peer(Port::Rtcp, reporter(compound), peer, participant)
    }

    /// Keeps where a packet came from that came to a port, if one did and the participant tells of its source.
    fn note_peer<T: MemberTable>(
        &mut self,
        port: Port,
        source: Option<u32>,
        peer: u64,
        participant: &Participant<T>,
    ) -> Result<(), AllocError>
        ensures { (history : History) → StandsAt participant.now history → OnOk result ((ssrc : ℕ) →
            flow_in self.new ssrc ≡ if_listed (lists history ssrc) (heard_at port source peer ssrc)
            (flow_in self.old ssrc)) }
    {
        let Some(ssrc) = source else {
            return Ok(());
        };
        let flow = self.flow(ssrc);
        if flow.peer_at(port) == Some(peer) {
            return Ok(());
        }
        if !is_listed(ssrc, participant) {
            return Ok(());
        }
        self.put(ssrc, flow.with_peer(port, peer))
    }
}

/// The peer that a datagram came from: 0 where none came.
fn peer_of(event: &Event<'_>) -> u64
    ensures { result ≡ peer_of_event (event_value event.now) }
{
    match event {
        Event::ArriveRtcp { peer, .. } | Event::ArriveRtp { peer, .. } => *peer,
        _ => 0,
    }
}

/// The source of an RTP packet, where one came and was taken.
fn media_of(event: &Event<'_>, answer: &GuardedAnswer) -> Option<u32>
    ensures { (media : Option ℕ) → IsMediaOf (event_value event.now) (guarded_value answer.now) media →
        result ≡ media }
{
    match event {
        Event::ArriveRtp { bytes, .. } => media_in(bytes, answer),
        _ => None,
    }
}

/// The source of the RTP packet of a datagram, where it was taken.
fn media_in(bytes: &[u8], answer: &GuardedAnswer) -> Option<u32>
    ensures { (media : Option ℕ) → IsMedia bytes.now (guarded_value answer.now) media → result ≡ media }
{
    match answer {
        Ok(_) => match RtpHead::read(bytes) {
            Ok(head) => Some(head.ssrc()),
            Err(_) => None,
        },
        Err(_) => None,
    }
}

/// The flow of a source that is looked at, so many microseconds after the look before.
pub(crate) fn looked_at(flow: Flow, state: &SourceState, elapsed: u64) -> Flow
    requires { 0 < elapsed }
    ensures { result ≡ looked_at elapsed (state_value state.now) flow }
{
    let counted = counted_of(state);
    Flow {
        counted,
        loss: loss_of_source(state),
        packet_rate: packet_rate_between(elapsed, flow.counted, counted),
        ..flow
    }
}

/// How many packets are counted of a source, if one is.
fn counted_of(state: &SourceState) -> Option<u64>
    ensures { result ≡ counted_in (state_value state.now) }
{
    match state.reception {
        Some(reception) => Some(reception.received),
        None => None,
    }
}

/// The loss of a source, if a packet of it is counted.
fn loss_of_source(state: &SourceState) -> Option<u64>
    ensures { result ≡ option_map loss_of (state_value state.now).reception }
{
    match state.reception {
        Some(reception) => Some(loss_of(reception)),
        None => None,
    }
}

/// Packets a second, in tenths, by how many were counted before and are now, so many microseconds later.
fn packet_rate_between(elapsed: u64, before: Option<u64>, now: Option<u64>) -> Option<u64>
    requires { 0 < elapsed }
    ensures { result ≡ packet_rate_between elapsed before now }
{
    let (Some(before), Some(now)) = (before, now) else {
        return None;
    };
    if before <= now {
        Some((now - before).saturating_mul(10_000_000) / elapsed)
    } else {
        None
    }
}

/// The packets lost of all that were expected, in tenths of a per cent, rounded down: none where more came than were
/// expected.
fn loss_of(reception: Reception) -> u64
    ensures { result ≡ loss_of (reception_value reception) }
{
    let lost = u128::from(lost_packets(reception.lost));
    let expected = u128::from(reception.received) + lost;
    (lost * 1_000 / expected.max(1)) as u64
}

/// The packets lost: none where more came than were expected.
fn lost_packets(lost: i32) -> u32
    ensures { result ≡ lost_packets lost }
{
    if lost < 0 { 0 } else { lost.unsigned_abs() }
}

/// Whose report a compound begins with, if there is a compound.
fn reporter(compound: &Option<Compound<'_>>) -> Option<u32>
    ensures { result ≡ reporter_of (unwrap_or compound.now []) }
{
    let Some(compound) = compound else {
        return None;
    };
    match compound.packets().next() {
        Some(PacketView::Sr(report)) => Some(report.ssrc),
        Some(PacketView::Rr(report)) => Some(report.ssrc),
        _ => None,
    }
}
