//! What reaches a guarded participant, and what does not.

use arrayvec::ArrayVec;
use rtcp_engine::{Config, Participant, Refusal};
use rtcp_guard::{Guard, Settings};
use rtcp_guarded::{GuardedParticipant, GuardedReply, Reason, Untaken};
use rtcp_members::ListTable;
use rtcp_wire::{MAX_COMPOUND, RtpFault};
use std::alloc::Global;
use std::process::Abort;
use std::test::*;

/// Two ports of one address, and a port of another.
const HERE: u64 = 1 << 16 | 5_004;

const HERE_TOO: u64 = 1 << 16 | 5_006;

const THERE: u64 = 2 << 16 | 5_004;

/// The participant's SSRC.
const OWN: u8 = 0xaa;

/// A stranger's datagram.
const STRANGER: GuardedReply = Err(Untaken::HeldBack(Reason::Stranger));

/// A participant whose origins have up to two sources each, and hold them for ten microseconds.
fn guarded(rt: &impl Abort, alloc: Global) -> GuardedParticipant<ListTable> {
    let mut cname = ArrayVec::new();
    cname.push(0x61);
    let config = Config {
        clocks: ArrayVec::new(),
        ssrc: u32::from(OWN),
        rate: 8_000,
        cname,
        extras: ArrayVec::new(),
        capacity: 4,
        limit: 1_472,
        sender_bw: 300,
        receiver_bw: 900,
        ntp_base: 0,
    };
    let participant = Participant::new(config, 0);
    let participant = participant.expect(rt, "a usable configuration");
    let settings = Settings {
        sources: 4,
        names: 2,
        trusted_names: 3,
        hold: 10,
    };
    let guard = Guard::new(alloc, settings);
    GuardedParticipant::new(participant, guard.expect(rt, "memory for a guard"))
}

/// An RTP packet of a source below 256.
fn packet_of(ssrc: u8) -> [u8; 12] {
    [0x80, 0, 0, 1, 0, 0, 0, 0, 0, 0, 0, ssrc]
}

/// A receiver report without blocks, and a goodbye, of a source below 256.
fn goodbye_of(ssrc: u8) -> [u8; 16] {
    [
        0x80, 201, 0, 1, 0, 0, 0, ssrc, 0x81, 203, 0, 1, 0, 0, 0, ssrc,
    ]
}

/// The packet of a source comes from a peer.
fn sends(
    guarded: &mut GuardedParticipant<ListTable>,
    now: u64,
    peer: u64,
    ssrc: u8,
) -> GuardedReply {
    let mut room = [0; MAX_COMPOUND];
    guarded.arrive_rtp_into(now, peer, 0xbb, &packet_of(ssrc), &mut room)
}

/// The goodbye of a source comes from a peer.
fn leaves(
    guarded: &mut GuardedParticipant<ListTable>,
    now: u64,
    peer: u64,
    ssrc: u8,
) -> GuardedReply {
    let mut room = [0; MAX_COMPOUND];
    guarded.arrive_rtcp_into(now, peer, 0xbb, &goodbye_of(ssrc), &mut room)
}

/// A source belongs to its address, whatever the port, and a goodbye for it from elsewhere is held back.
#[test]
fn forged_goodbye(rt: HostRuntime) {
    let mut guarded = guarded(&rt, rt.alloc());
    assert!(rt; sends(&mut guarded, 5, HERE, 7).is_ok());
    assert!(rt; leaves(&mut guarded, 6, THERE, 7) == STRANGER);
    assert!(rt; guarded.participant().entries() == 1 && guarded.held_back().strangers == 1);
    assert!(rt; sends(&mut guarded, 6, HERE_TOO, 7).is_ok());
    assert!(rt; leaves(&mut guarded, 6, HERE_TOO, 7).is_ok());
}

/// What is held back does not count as a call: its moment is not kept.
#[test]
fn held_back_is_no_call(rt: HostRuntime) {
    let mut guarded = guarded(&rt, rt.alloc());
    assert!(rt; sends(&mut guarded, 5, HERE, 7).is_ok());
    assert!(rt; sends(&mut guarded, 9, THERE, 7) == STRANGER);
    assert!(rt; sends(&mut guarded, 6, HERE, 7).is_ok());
    assert!(rt; sends(&mut guarded, 5, HERE, 7) == Err(Untaken::Refused(Refusal::Backwards)));
}

/// A third source of an address is one too many, unless the host trusts that.
#[test]
fn crowd(rt: HostRuntime) {
    let mut guarded = guarded(&rt, rt.alloc());
    assert!(rt; sends(&mut guarded, 5, HERE, 7).is_ok());
    assert!(rt; sends(&mut guarded, 5, HERE, 8).is_ok());
    assert!(rt; sends(&mut guarded, 5, HERE_TOO, 9) == Err(Untaken::HeldBack(Reason::Crowd)));
    assert!(rt; guarded.participant().entries() == 2 && guarded.held_back().crowds == 1);
    assert!(rt; guarded.trust(1));
    assert!(rt; sends(&mut guarded, 5, HERE_TOO, 9).is_ok());
}

/// A source that left as often as its address may have sources is let in, but no goodbye of that address is, of another
/// source neither. The other address has goodbyes of its own.
#[test]
fn leaving_again_and_again(rt: HostRuntime) {
    let mut guarded = guarded(&rt, rt.alloc());
    let crowd = Err(Untaken::HeldBack(Reason::Crowd));
    assert!(rt; leaves(&mut guarded, 5, HERE, 7).is_ok());
    assert!(rt; sends(&mut guarded, 6, HERE, 7).is_ok());
    assert!(rt; leaves(&mut guarded, 6, HERE_TOO, 7).is_ok());
    assert!(rt; sends(&mut guarded, 7, HERE, 8).is_ok());
    assert!(rt; leaves(&mut guarded, 7, HERE, 7) == crowd);
    assert!(rt; leaves(&mut guarded, 7, HERE_TOO, 8) == crowd);
    assert!(rt; guarded.held_back().crowds == 2);
    assert!(rt; sends(&mut guarded, 8, HERE, 7).is_ok());
    assert!(rt; leaves(&mut guarded, 8, THERE, 9).is_ok());
}

/// What the participant refuses anyhow claims nothing.
#[test]
fn refused(rt: HostRuntime) {
    let mut guarded = guarded(&rt, rt.alloc());
    let mut room = [0; MAX_COMPOUND];
    let short = guarded.arrive_rtp_into(5, HERE, 0xbb, &packet_of(7)[..11], &mut room);
    assert!(rt; short == Err(Untaken::Refused(Refusal::Rtp(RtpFault::Short))));
    assert!(rt; sends(&mut guarded, 5, THERE, 7).is_ok());
    assert!(rt; guarded.leave_into(6, 0, &mut room).is_ok());
    assert!(rt; sends(&mut guarded, 6, HERE, 7) == Err(Untaken::Refused(Refusal::Left)));
    assert!(rt; guarded.held_back().strangers == 0);
}

/// Who takes the participant's SSRC has it from then on; and what goes on to name the new one is refused for that.
#[test]
fn collision(rt: HostRuntime) {
    let mut guarded = guarded(&rt, rt.alloc());
    match sends(&mut guarded, 5, HERE, OWN) {
        Ok(step) => assert!(rt; step.changed == Some(0xbb)),
        Err(_) => panic!(rt; "the datagram is not taken"),
    }
    assert!(rt; sends(&mut guarded, 5, THERE, OWN) == STRANGER);
    assert!(rt; sends(&mut guarded, 5, HERE, OWN).is_ok());
    let own = Err(Untaken::Refused(Refusal::OwnSsrc));
    assert!(rt; sends(&mut guarded, 5, HERE, 0xbb) == own);
    assert!(rt; guarded.participant().ssrc() == 0xbb);
}

/// A source belongs to its address until the participant's table drops it, and then to who names it first.
#[test]
fn lapses_with_the_table(rt: HostRuntime) {
    let mut guarded = guarded(&rt, rt.alloc());
    let mut room = [0; MAX_COMPOUND];
    assert!(rt; sends(&mut guarded, 5, HERE, 7).is_ok());
    let horizon = guarded.participant().silent_before(1 << 40);
    assert!(rt; 5 < horizon && horizon < 1 << 40);
    assert!(rt; guarded.tick_into(1_000, 0, 0, &mut room).is_ok());
    assert!(rt; sends(&mut guarded, 1_000, THERE, 7) == STRANGER);
    assert!(rt; guarded.tick_into(1 << 40, 0, 0, &mut room).is_ok());
    assert!(rt; guarded.participant().entries() == 0);
    assert!(rt; sends(&mut guarded, 1 << 40, THERE, 7).is_ok());
    assert!(rt; guarded.expect(7, 1, 1 << 40));
    assert!(rt; sends(&mut guarded, 1 << 40, THERE, 7) == STRANGER);
}
