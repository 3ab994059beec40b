//! The lines of events and their answers.

use super::{PEER, named, same, taken};
use arrayvec::ArrayVec;
use rtcp_engine::{ConfigError, Event, Refusal, Settings};
use rtcp_guarded::{GuardedAnswer, Reason, Untaken};
use rtcp_show::push_lines;
use rtcp_wire::{FaultReason, RtpFault, WireFault};
use std::alloc::Global;
use std::process::Abort;
use std::test::Fail;

/// Asserts that these lines are shown.
fn shows(
    rt: &impl Abort,
    alloc: Global,
    event: &Event<'_>,
    answer: &GuardedAnswer,
    want: &str,
) -> Result<(), Fail> {
    let mut text = Vec::new(alloc);
    push_lines(&mut text, PEER, event, answer)?;
    same(rt, &text, want.as_bytes(), want);
    Ok(())
}

/// An RTCP datagram that came 70 minutes after the start, from 255.0.10.1:65535.
fn rtcp(bytes: &[u8]) -> Event<'_> {
    Event::ArriveRtcp {
        now: 4_200_000_007,
        peer: 0xff00_0a01 * 65_536 + 65_535,
        w: 0,
        bytes,
    }
}

#[test]
fn came(rt: HostRuntime) -> Result<(), Fail> {
    let want = "4200.000007 in 255.0.10.1:65535 ok RR(00000007,[],0) SDES([00000007{1=61}])\n";
    shows(&rt, rt.alloc(), &rtcp(&named(7)), &taken(None, None), want)
}

#[test]
fn refused(rt: HostRuntime) -> Result<(), Fail> {
    let fault = WireFault {
        reason: FaultReason::Version,
        place: 8,
    };
    let want = "4200.000007 in 255.0.10.1:65535 refused E5 Wire: F2 Version at 8\n";
    shows(
        &rt,
        rt.alloc(),
        &rtcp(&[0; 12]),
        &Err(Untaken::Refused(Refusal::Wire(fault))),
        want,
    )?;
    let want = "4200.000007 in 255.0.10.1:65535 refused E7 OwnSsrc\n";
    shows(
        &rt,
        rt.alloc(),
        &rtcp(&named(0xaa)),
        &Err(Untaken::Refused(Refusal::OwnSsrc)),
        want,
    )?;
    let want = "4200.000007 in 255.0.10.1:65535 refused H1 Stranger\n";
    let stranger = Err(Untaken::HeldBack(Reason::Stranger));
    shows(&rt, rt.alloc(), &rtcp(&named(7)), &stranger, want)
}

/// A packet of RTP is shown where it is refused.
#[test]
fn media(rt: HostRuntime) -> Result<(), Fail> {
    let event = Event::ArriveRtp {
        now: 1,
        peer: PEER,
        w: 0,
        bytes: &[],
    };
    shows(&rt, rt.alloc(), &event, &taken(None, None), "")?;
    let want = "0.000001 rtp 127.0.0.1:5007 refused E6 Rtp: G1 Short\n";
    shows(
        &rt,
        rt.alloc(),
        &event,
        &Err(Untaken::Refused(Refusal::Rtp(RtpFault::Short))),
        want,
    )?;
    let want = "0.000001 rtp 127.0.0.1:5007 refused H2 Crowd\n";
    let crowd = Err(Untaken::HeldBack(Reason::Crowd));
    shows(&rt, rt.alloc(), &event, &crowd, want)
}

/// So are settings and forgets.
#[test]
fn hosts(rt: HostRuntime) -> Result<(), Fail> {
    let settings = Settings {
        sender_bw: 16,
        receiver_bw: 0,
        rate: 8_000,
        clocks: ArrayVec::new(),
        ntp_base: 0,
        extras: ArrayVec::new(),
    };
    let configure = Event::Configure {
        now: 5_000_000,
        settings: &settings,
    };
    let forget = Event::Forget {
        now: 5_000_000,
        ssrc: 7,
    };
    shows(&rt, rt.alloc(), &configure, &taken(None, None), "")?;
    shows(&rt, rt.alloc(), &forget, &taken(None, None), "")?;
    shows(
        &rt,
        rt.alloc(),
        &configure,
        &Err(Untaken::Refused(Refusal::Settings(ConfigError::Bandwidth))),
        "5.000000 refused E8 Settings: C4 Bandwidth\n",
    )?;
    shows(
        &rt,
        rt.alloc(),
        &forget,
        &Err(Untaken::Refused(Refusal::Backwards)),
        "5.000000 refused E2 Backwards\n",
    )
}

/// So is every other call. Those that are taken have a line where they hand out a compound.
#[test]
fn calls(rt: HostRuntime) -> Result<(), Fail> {
    let tick = Event::Tick {
        now: 5_000_000,
        w1: 0,
        w2: 0,
    };
    let leave = Event::Leave {
        now: 5_000_000,
        w: 0,
    };
    let sent = Event::SentRtp {
        now: 5_000_000,
        rtp_ts: 0,
        octets: 0,
    };
    shows(&rt, rt.alloc(), &tick, &taken(None, None), "")?;
    shows(
        &rt,
        rt.alloc(),
        &tick,
        &Err(Untaken::Refused(Refusal::TooFar)),
        "5.000000 refused E3 TooFar\n",
    )?;
    shows(
        &rt,
        rt.alloc(),
        &leave,
        &Err(Untaken::Refused(Refusal::Left)),
        "5.000000 refused E1 Left\n",
    )?;
    shows(
        &rt,
        rt.alloc(),
        &sent,
        &Err(Untaken::Refused(Refusal::TooMany)),
        "5.000000 refused E4 TooMany\n",
    )?;
    let want = "5.000000 out 127.0.0.1:5007 ok RR(000000aa,[],0) SDES([000000aa{1=61}])\n";
    shows(
        &rt,
        rt.alloc(),
        &tick,
        &taken(Some(&named(0xaa)), None),
        want,
    )
}

/// A datagram that changes the SSRC, with the compound that goes out for it.
#[test]
fn changed(rt: HostRuntime) -> Result<(), Fail> {
    let want = "4200.000007 in 255.0.10.1:65535 ok RR(000000aa,[],0) SDES([000000aa{1=61}])\n\
        4200.000007 ssrc=0123abcd\n\
        4200.000007 out 127.0.0.1:5007 ok RR(000000aa,[],0) SDES([000000aa{1=61}])\n";
    let answer = taken(Some(&named(0xaa)), Some(0x0123_abcd));
    shows(&rt, rt.alloc(), &rtcp(&named(0xaa)), &answer, want)
}
