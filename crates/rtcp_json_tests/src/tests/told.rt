//! Lines of events with their answers, and of the end.

use super::{PEER, quiet, same};
use arrayvec::ArrayVec;
use rtcp_engine::{ConfigError, Event, Out, OutKind, Refusal, Settings, Step};
use rtcp_guarded::{GuardedAnswer, Reason, Untaken};
use rtcp_json::{push_end_json, push_told_json};
use rtcp_serve::{Cause, End};
use rtcp_wire::{FaultReason, RtpFault, WireFault};
use std::alloc::Global;
use std::process::Abort;
use std::test::Fail;

/// What a text held before.
const BEFORE: &str = "before ";

/// Asserts that an event and its answer are told so, after what the text held.
fn tells(
    rt: &impl Abort,
    alloc: Global,
    event: &Event<'_>,
    answer: &GuardedAnswer,
    want: &str,
) -> Result<(), Fail> {
    let mut text = Vec::new(alloc);
    text.extend_from_slice(BEFORE.as_bytes())?;
    push_told_json(&mut text, event, answer)?;
    let (before, line) = text.split_at(BEFORE.len());
    same(rt, before, BEFORE.as_bytes(), want);
    same(rt, line, want.as_bytes(), want);
    Ok(())
}

/// An RTCP datagram of these octets.
fn rtcp(bytes: &[u8]) -> Event<'_> {
    Event::ArriveRtcp {
        now: 250_000,
        peer: PEER,
        w: 0,
        bytes,
    }
}

/// An RTP datagram of one octet, from the greatest address and port.
fn rtp() -> Event<'static> {
    Event::ArriveRtp {
        now: 18_446_744_073_709_551_615,
        peer: 0xffff_ffff_ffff,
        w: 0,
        bytes: &[0x80],
    }
}

/// Datagrams of RTCP are told whatever is answered: this one was taken.
#[test]
fn rtcp_taken(rt: HostRuntime) -> Result<(), Fail> {
    let want = "{\"moment\":250000,\"event\":\"rtcp\",\"peer\":\"127.0.0.1:5007\",\"datagram\":\
        {\"packets\":[{\"type\":\"RR\",\"ssrc\":\"00000007\",\"blocks\":[],\"extension\":\"\"}]},\
        \"answer\":{\"members\":2,\"senders\":1,\"next\":1026037,\"out\":null,\"ssrc\":null}}\n";
    let event = rtcp(&[0x80, 0xc9, 0, 1, 0, 0, 0, 7]);
    tells(&rt, rt.alloc(), &event, &Ok(quiet()), want)
}

/// One that is no compound, and one of a source that belongs to another origin.
#[test]
fn rtcp_untaken(rt: HostRuntime) -> Result<(), Fail> {
    let fault = WireFault {
        reason: FaultReason::Short,
        place: 0,
    };
    let want = "{\"moment\":250000,\"event\":\"rtcp\",\"peer\":\"127.0.0.1:5007\",\
        \"datagram\":{\"refused\":\"F1 Short\",\"at\":0},\
        \"answer\":{\"refused\":\"E5 Wire\",\"fault\":\"F1 Short\",\"at\":0}}\n";
    let refused = Err(Untaken::Refused(Refusal::Wire(fault)));
    tells(&rt, rt.alloc(), &rtcp(&[]), &refused, want)?;
    let want = "{\"moment\":250000,\"event\":\"rtcp\",\"peer\":\"127.0.0.1:5007\",\"datagram\":\
        {\"packets\":[{\"type\":\"RR\",\"ssrc\":\"00000007\",\"blocks\":[],\"extension\":\"\"}]},\
        \"answer\":{\"refused\":\"H1 Stranger\"}}\n";
    let event = rtcp(&[0x80, 0xc9, 0, 1, 0, 0, 0, 7]);
    let held_back = Err(Untaken::HeldBack(Reason::Stranger));
    tells(&rt, rt.alloc(), &event, &held_back, want)
}

/// An RTP packet that was taken is told only where a role or the SSRC changed.
#[test]
fn rtp_packets(rt: HostRuntime) -> Result<(), Fail> {
    tells(&rt, rt.alloc(), &rtp(), &Ok(quiet()), "")?;
    let began_sending = Ok(Step {
        others_changed: true,
        ..quiet()
    });
    let want = "{\"moment\":18446744073709551615,\"event\":\"rtp\",\
        \"peer\":\"255.255.255.255:65535\",\"datagram\":null,\
        \"answer\":{\"members\":2,\"senders\":1,\"next\":1026037,\"out\":null,\"ssrc\":null}}\n";
    tells(&rt, rt.alloc(), &rtp(), &began_sending, want)?;
    let changed = Ok(Step {
        changed: Some(0xbb),
        ..quiet()
    });
    let want = "{\"moment\":18446744073709551615,\"event\":\"rtp\",\
        \"peer\":\"255.255.255.255:65535\",\"datagram\":null,\"answer\":\
        {\"members\":2,\"senders\":1,\"next\":1026037,\"out\":null,\"ssrc\":\"000000bb\"}}\n";
    tells(&rt, rt.alloc(), &rtp(), &changed, want)
}

/// One that was refused is told.
#[test]
fn rtp_refused(rt: HostRuntime) -> Result<(), Fail> {
    let want = "{\"moment\":18446744073709551615,\"event\":\"rtp\",\
        \"peer\":\"255.255.255.255:65535\",\"datagram\":null,\
        \"answer\":{\"refused\":\"E6 Rtp\",\"fault\":\"G1 Short\"}}\n";
    let refused = Err(Untaken::Refused(Refusal::Rtp(RtpFault::Short)));
    tells(&rt, rt.alloc(), &rtp(), &refused, want)
}

/// A tick is told where it brings a report, and where it is refused.
#[test]
fn ticks(rt: HostRuntime) -> Result<(), Fail> {
    let event = Event::Tick {
        now: 1_026_037,
        w1: 0,
        w2: 0,
    };
    tells(&rt, rt.alloc(), &event, &Ok(quiet()), "")?;
    let mut bytes = ArrayVec::new();
    let _ = bytes.try_extend_from_slice(&[0x80, 0xc9, 0, 1, 0, 0, 0, 0xaa]);
    let report = Ok(Step {
        out: Some(Out {
            kind: OutKind::Report,
            bytes,
        }),
        ..quiet()
    });
    let want = "{\"moment\":1026037,\"event\":\"tick\",\"peer\":null,\"datagram\":null,\
        \"answer\":{\"members\":2,\"senders\":1,\"next\":1026037,\
        \"out\":{\"kind\":\"report\",\"octets\":\"80c90001000000aa\"},\"ssrc\":null}}\n";
    tells(&rt, rt.alloc(), &event, &report, want)?;
    let want = "{\"moment\":1026037,\"event\":\"tick\",\"peer\":null,\"datagram\":null,\
        \"answer\":{\"refused\":\"E3 TooFar\"}}\n";
    let refused = Err(Untaken::Refused(Refusal::TooFar));
    tells(&rt, rt.alloc(), &event, &refused, want)
}

/// What else a participant is told.
#[test]
fn other_events(rt: HostRuntime) -> Result<(), Fail> {
    let refused = Err(Untaken::Refused(Refusal::Left));
    let sent = Event::SentRtp {
        now: 1,
        rtp_ts: 160,
        octets: 160,
    };
    let want = "{\"moment\":1,\"event\":\"sent\",\"peer\":null,\"datagram\":null,\
        \"answer\":{\"refused\":\"E1 Left\"}}\n";
    tells(&rt, rt.alloc(), &sent, &refused, want)?;
    let want = "{\"moment\":2,\"event\":\"leave\",\"peer\":null,\"datagram\":null,\
        \"answer\":{\"refused\":\"E1 Left\"}}\n";
    tells(
        &rt,
        rt.alloc(),
        &Event::Leave { now: 2, w: 0 },
        &refused,
        want,
    )?;
    let want = "{\"moment\":3,\"event\":\"forget\",\"peer\":null,\"datagram\":null,\
        \"answer\":{\"refused\":\"E1 Left\"}}\n";
    tells(
        &rt,
        rt.alloc(),
        &Event::Forget { now: 3, ssrc: 7 },
        &refused,
        want,
    )
}

/// Settings that are refused.
#[test]
fn settings(rt: HostRuntime) -> Result<(), Fail> {
    let settings = Settings {
        sender_bw: 0,
        receiver_bw: 0,
        rate: 0,
        clocks: ArrayVec::new(),
        ntp_base: 0,
        extras: ArrayVec::new(),
    };
    let configured = Event::Configure {
        now: 0,
        settings: &settings,
    };
    let want = "{\"moment\":0,\"event\":\"configure\",\"peer\":null,\"datagram\":null,\
        \"answer\":{\"refused\":\"E8 Settings\",\"fault\":\"C4 Bandwidth\"}}\n";
    let refused = Err(Untaken::Refused(Refusal::Settings(ConfigError::Bandwidth)));
    tells(&rt, rt.alloc(), &configured, &refused, want)
}

/// A session that ran to its end, and one whose link went down.
#[test]
fn ends(rt: HostRuntime) -> Result<(), Fail> {
    let done = End {
        cause: Cause::Done,
        received: 137,
        refused: 0,
        sent: 5,
        send_failures: 0,
        recv_failures: 0,
        bye: true,
    };
    let down = End {
        cause: Cause::LinkDown,
        received: 1,
        refused: 2,
        sent: 3,
        send_failures: 4,
        recv_failures: 64,
        bye: false,
    };
    let want = "{\"end\":\"Done\",\"received\":137,\"refused\":0,\"sent\":5,\"send_failures\":0,\
        \"recv_failures\":0,\"bye\":true}\n\
        {\"end\":\"LinkDown\",\"received\":1,\"refused\":2,\"sent\":3,\"send_failures\":4,\
        \"recv_failures\":64,\"bye\":false}\n";
    let mut text = Vec::new(rt.alloc());
    push_end_json(&mut text, &done)?;
    push_end_json(&mut text, &down)?;
    same(&rt, &text, want.as_bytes(), "ends");
    Ok(())
}
