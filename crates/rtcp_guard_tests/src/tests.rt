//! What is passed on, and what is held back.

use rtcp_guard::{Guard, HeldBack, MAX_TRUSTED, Settings, Verdict};
use rtcp_wire::{Compound, RtpHead};
use std::test::*;

/// Up to two sources an origin, and three for a trusted one.
const SETTINGS: Settings = Settings {
    sources: 4,
    names: 2,
    trusted_names: 3,
    hold: 10,
};

/// The participant.
const OWN: u32 = 0xaa;

/// The example at the head of `rtcp_guard`.
#[test]
fn example(rt: HostRuntime) {
    let guard = Guard::new(rt.alloc(), SETTINGS);
    let mut guard = guard.expect(&rt, "memory for a guard");
    assert!(rt; guard.arrive(&[7], 1, 0) == Verdict::Pass);
    assert!(rt; guard.arrive(&[7], 2, 5) == Verdict::Stranger);
    assert!(rt; guard.arrive(&[8, 9, 8], 2, 6) == Verdict::Pass);
    assert!(rt; guard.arrive(&[8, 10], 2, 7) == Verdict::Crowd);
    guard.check(16, 20);
    assert!(rt; guard.arrive(&[7], 3, 16) == Verdict::Pass);
}

/// A member's receiver report, then a forged goodbye for it from elsewhere, and then its own.
#[test]
fn forged_goodbye(rt: HostRuntime) {
    let report = [0x80u8, 201, 0, 1, 0, 0, 0, 0xbb];
    let goodbye = [
        0x80u8, 201, 0, 1, 0, 0, 0, 0xbb, 0x81, 203, 0, 1, 0, 0, 0, 0xbb,
    ];
    let report = Compound::read(&report).expect(&rt, "a report");
    let goodbye = Compound::read(&goodbye).expect(&rt, "a goodbye");
    let guard = Guard::new(rt.alloc(), SETTINGS);
    let mut guard = guard.expect(&rt, "memory for a guard");
    assert!(rt; guard.arrive_rtcp(&report, 1, 0, OWN) == Verdict::Pass);
    assert!(rt; guard.arrive_rtcp(&goodbye, 9, 1, OWN) == Verdict::Stranger);
    assert!(rt; guard.arrive_rtcp(&goodbye, 1, 2, OWN) == Verdict::Pass);
}

/// A compound with more names than a call gathers at once: 31 goodbyes, of which the first 17 are of one source.
#[test]
fn many_goodbyes(rt: HostRuntime) {
    let mut octets = [0u8; 136];
    octets[0] = 0x80;
    octets[1] = 201;
    octets[3] = 1;
    octets[7] = 1;
    octets[8] = 0x9f;
    octets[9] = 203;
    octets[11] = 31;
    for (at, octet) in octets.iter_mut().enumerate() {
        if at >= 12 && at % 4 == 3 {
            *octet = if at < 80 { 1 } else { 2 };
        }
    }
    let compound = Compound::read(&octets).expect(&rt, "a compound");
    let guard = Guard::new(rt.alloc(), SETTINGS);
    let mut guard = guard.expect(&rt, "memory for a guard");
    assert!(rt; guard.expect(2, 9, 0));
    assert!(rt; guard.arrive_rtcp(&compound, 1, 1, OWN) == Verdict::Stranger);
    assert!(rt; guard.expect(2, 1, 2));
    assert!(rt; guard.arrive_rtcp(&compound, 1, 3, OWN) == Verdict::Pass);
    assert!(rt; guard.arrive_rtcp(&compound, 2, 4, OWN) == Verdict::Stranger);
}

/// A source that says BYE, comes back, and says BYE again, as often as its origin may have sources. Then its goodbyes
/// are held back, and the other source's too; what says no BYE passes. After the hold without a word all may again.
#[test]
fn leaving_again_and_again(rt: HostRuntime) {
    let report = [0x80u8, 201, 0, 1, 0, 0, 0, 0xbb];
    let goodbye = [
        0x80u8, 201, 0, 1, 0, 0, 0, 0xbb, 0x81, 203, 0, 1, 0, 0, 0, 0xbb,
    ];
    let report = Compound::read(&report).expect(&rt, "a report");
    let goodbye = Compound::read(&goodbye).expect(&rt, "a goodbye");
    let guard = Guard::new(rt.alloc(), SETTINGS);
    let mut guard = guard.expect(&rt, "memory for a guard");
    for t in 0..2 {
        assert!(rt; guard.arrive_rtcp(&report, 1, t, OWN) == Verdict::Pass);
        assert!(rt; guard.arrive_rtcp(&goodbye, 1, t, OWN) == Verdict::Pass);
    }
    assert!(rt; guard.arrive_rtcp(&report, 1, 2, OWN) == Verdict::Pass);
    assert!(rt; guard.arrive_rtcp(&goodbye, 1, 3, OWN) == Verdict::Crowd);
    assert!(rt; guard.arrive_leaving(&[8], 8, 1, 3) == Verdict::Crowd);
    assert!(rt; guard.arrive(&[8], 1, 3) == Verdict::Pass);
    assert!(rt; guard.arrive_leaving(&[9], 9, 2, 3) == Verdict::Pass);
    guard.check(12, 12);
    assert!(rt; guard.arrive_rtcp(&goodbye, 1, 12, OWN) == Verdict::Crowd);
    guard.check(13, 13);
    assert!(rt; guard.arrive_rtcp(&goodbye, 1, 13, OWN) == Verdict::Pass);
}

/// Goodbyes stay with the source: they go where the host says that it is elsewhere, and not where it says that it is
/// where it was. A BYE of the participant's own SSRC, and of a source that is not named, counts for none.
#[test]
fn goodbyes_of_a_source(rt: HostRuntime) {
    let own = [
        0x80u8, 201, 0, 1, 0, 0, 0, 0xbb, 0x81, 203, 0, 1, 0, 0, 0, 0xaa,
    ];
    let own = Compound::read(&own).expect(&rt, "a goodbye of the participant's");
    let guard = Guard::new(rt.alloc(), SETTINGS);
    let mut guard = guard.expect(&rt, "memory for a guard");
    for t in 0..5 {
        assert!(rt; guard.arrive_rtcp(&own, 1, t, OWN) == Verdict::Pass);
        assert!(rt; guard.arrive_leaving(&[7], 8, 1, t) == Verdict::Pass);
    }
    assert!(rt; guard.arrive_leaving(&[7], 7, 1, 5) == Verdict::Pass);
    assert!(rt; guard.arrive_leaving(&[7, 0xbb], 7, 1, 5) == Verdict::Pass);
    assert!(rt; guard.expect(7, 1, 6));
    assert!(rt; guard.arrive_leaving(&[7], 7, 1, 6) == Verdict::Crowd);
    assert!(rt; guard.expect(7, 2, 7));
    assert!(rt; guard.arrive_leaving(&[0xbb], 0xbb, 1, 7) == Verdict::Pass);
    assert!(rt; guard.arrive_leaving(&[7], 7, 2, 7) == Verdict::Pass);
    assert!(rt; guard.arrive_leaving(&[7], 7, 2, 7) == Verdict::Pass);
    assert!(rt; guard.arrive_leaving(&[7], 7, 2, 7) == Verdict::Crowd);
}

/// An RTP packet with a CSRC of another origin is held back; the participant's own SSRC is not looked at.
#[test]
fn contributing_source(rt: HostRuntime) {
    let plain = [0x80u8, 0, 0, 1, 0, 0, 0, 0, 0, 0, 0, 0xbb];
    let mixed = [0x81u8, 0, 0, 1, 0, 0, 0, 0, 0, 0, 0, 0xcc, 0, 0, 0, 0xbb];
    let own = [0x81u8, 0, 0, 1, 0, 0, 0, 0, 0, 0, 0, 0xaa, 0, 0, 0, 0xdd];
    let plain = RtpHead::read(&plain).expect(&rt, "a packet");
    let mixed = RtpHead::read(&mixed).expect(&rt, "a mixed packet");
    let own = RtpHead::read(&own).expect(&rt, "a packet of the participant's");
    let guard = Guard::new(rt.alloc(), SETTINGS);
    let mut guard = guard.expect(&rt, "memory for a guard");
    assert!(rt; guard.arrive_rtp(&plain, 1, 0, OWN) == Verdict::Pass);
    assert!(rt; guard.arrive_rtp(&mixed, 2, 1, OWN) == Verdict::Stranger);
    assert!(rt; guard.arrive_rtp(&own, 2, 2, OWN) == Verdict::Pass);
    assert!(rt; guard.arrive_rtp(&mixed, 1, 3, OWN) == Verdict::Pass);
}

/// Which of both reasons is told goes by the order of the names; a name that is given twice counts once.
#[test]
fn reasons_in_turn(rt: HostRuntime) {
    let guard = Guard::new(rt.alloc(), SETTINGS);
    let mut guard = guard.expect(&rt, "memory for a guard");
    assert!(rt; guard.arrive(&[7], 1, 0) == Verdict::Pass);
    assert!(rt; guard.arrive(&[7, 11, 12, 13], 2, 1) == Verdict::Stranger);
    assert!(rt; guard.arrive(&[11, 12, 13, 7], 2, 2) == Verdict::Crowd);
    assert!(rt; guard.arrive(&[11, 12, 11, 7], 2, 3) == Verdict::Stranger);
    assert!(rt; guard.arrive(&[11, 12, 11, 12], 2, 4) == Verdict::Pass);
    let held_back = HeldBack {
        strangers: 2,
        crowds: 1,
        last_stranger: Some(2),
        last_crowd: Some(2),
    };
    assert!(rt; guard.held_back() == held_back);
}

/// A source that is expected belongs to its origin before its first datagram, and may be moved; an origin gets no more
/// than it may have so.
#[test]
fn expected(rt: HostRuntime) {
    let guard = Guard::new(rt.alloc(), SETTINGS);
    let mut guard = guard.expect(&rt, "memory for a guard");
    assert!(rt; guard.expect(7, 1, 0));
    assert!(rt; guard.arrive(&[7], 2, 1) == Verdict::Stranger);
    assert!(rt; guard.expect(7, 2, 2));
    assert!(rt; guard.arrive(&[7], 1, 3) == Verdict::Stranger);
    assert!(rt; guard.arrive(&[7, 8], 2, 4) == Verdict::Pass);
    assert!(rt; guard.expect(8, 2, 5));
    assert!(rt; !guard.expect(9, 2, 5));
}

/// A trusted origin may have more, and all together twice the sources of the table.
#[test]
fn trusted(rt: HostRuntime) {
    let guard = Guard::new(rt.alloc(), SETTINGS);
    let mut guard = guard.expect(&rt, "memory for a guard");
    assert!(rt; guard.trust(1));
    assert!(rt; guard.arrive(&[1, 2, 3], 1, 0) == Verdict::Pass);
    assert!(rt; guard.arrive(&[4], 1, 0) == Verdict::Crowd);
    assert!(rt; guard.arrive(&[5, 6], 2, 0) == Verdict::Pass);
    assert!(rt; guard.arrive(&[7, 8], 3, 0) == Verdict::Pass);
    assert!(rt; guard.arrive(&[9, 10], 4, 0) == Verdict::Crowd);
    assert!(rt; guard.arrive(&[9], 4, 0) == Verdict::Pass);
    for origin in 2..17 {
        assert!(rt; guard.trust(origin));
    }
    assert!(rt; !guard.trust(17));
    assert!(rt; guard.trust(MAX_TRUSTED as u64));
}

/// A claim lasts for the hold, and for as long as the table keeps a silent source, whichever is longer.
#[test]
fn lapses(rt: HostRuntime) {
    let guard = Guard::new(rt.alloc(), SETTINGS);
    let mut guard = guard.expect(&rt, "memory for a guard");
    assert!(rt; guard.arrive(&[7], 1, 100) == Verdict::Pass);
    guard.check(110, 110);
    assert!(rt; guard.arrive(&[7], 2, 110) == Verdict::Stranger);
    guard.check(120, 100);
    assert!(rt; guard.arrive(&[7], 2, 120) == Verdict::Stranger);
    guard.check(111, 101);
    assert!(rt; guard.arrive(&[7], 2, 120) == Verdict::Pass);
}

/// Of more names than a guard looks at, the first ones say the verdict, unless they pass.
#[test]
fn many_names(rt: HostRuntime) {
    let guard = Guard::new(rt.alloc(), SETTINGS);
    let mut guard = guard.expect(&rt, "memory for a guard");
    assert!(rt; guard.arrive(&[7; 512], 1, 0) == Verdict::Pass);
    assert!(rt; guard.arrive(&[7; 513], 1, 0) == Verdict::Crowd);
    assert!(rt; guard.arrive(&[7; 513], 2, 0) == Verdict::Stranger);
}
