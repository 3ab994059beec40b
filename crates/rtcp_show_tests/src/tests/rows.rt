//! The rows of sources.

use super::same;
use arrayvec::ArrayVec;
use rtcp_members::SourceState;
use rtcp_show::{Flow, Note, push_flow, push_row};
use rtcp_source::{LastBlock, Reception};
use std::alloc::Global;
use std::test::Fail;

/// A source of which nothing is known but that it is there.
fn state() -> SourceState {
    SourceState {
        ssrc: 0x7,
        is_member: true,
        is_sender: false,
        left: None,
        heard: 0,
        reception: None,
        told: None,
        last_block: None,
    }
}

/// The row of a source.
fn row(alloc: Global, state: &SourceState, note: &Note) -> Result<Vec<u8>, Fail> {
    let mut text = Vec::new(alloc);
    push_row(&mut text, state, note)?;
    Ok(text)
}

/// What a source is.
#[test]
fn standings(rt: HostRuntime) -> Result<(), Fail> {
    let note = Note::new();
    let mut state = state();
    let text = row(rt.alloc(), &state, &note)?;
    same(&rt, &text, b"source=00000007 sends=no\n", "a member");
    state.is_sender = true;
    let text = row(rt.alloc(), &state, &note)?;
    same(&rt, &text, b"source=00000007 sends=yes\n", "a sender");
    state.is_sender = false;
    state.is_member = false;
    let text = row(rt.alloc(), &state, &note)?;
    same(
        &rt,
        &text,
        b"source=00000007 sends=no valid=no\n",
        "not yet valid",
    );
    state.left = Some(12_000_345);
    let text = row(rt.alloc(), &state, &note)?;
    same(
        &rt,
        &text,
        b"source=00000007 sends=no left=12.000345\n",
        "it left",
    );
    Ok(())
}

/// Jitter and round trip in milliseconds, rounded down. Repeated packets make a negative loss.
#[test]
fn receptions(rt: HostRuntime) -> Result<(), Fail> {
    let mut state = state();
    state.reception = Some(Reception {
        received: 12,
        octets: 1_920,
        lost: -3,
        highest: 9,
        jitter: 91,
        rate: 90_000,
    });
    let note = Note {
        cname: None,
        trip: Some(0x0001_0100),
    };
    // 91 of 90,000 a second, and 65,792 of 65,536 a second
    let want =
        b"source=00000007 sends=no packets=12 lost=-3 jitter=1.011ms round-trip=1003.906ms\n";
    let text = row(rt.alloc(), &state, &note)?;
    same(&rt, &text, want, "a reception");
    Ok(())
}

/// A CNAME that clears a terminal, ends its quotes and goes on in the next line.
#[test]
fn escaped(rt: HostRuntime) -> Result<(), Fail> {
    let mut cname = ArrayVec::new();
    let _ = cname.try_extend_from_slice(b"a@b\x1b[2J\"\\\r\n\t'\x00\x7f\xc3\xa9");
    let note = Note {
        cname: Some(cname),
        trip: None,
    };
    let want =
        "source=00000007 sends=no cname=\"a@b\\x1b[2J\\\"\\\\\\r\\n\\t\\'\\x00\\x7f\\xc3\\xa9\"\n";
    let text = row(rt.alloc(), &state(), &note)?;
    same(&rt, &text, want.as_bytes(), "escaped");
    Ok(())
}

/// How packets come: an interval's loss of 1/256 is 0.3 per cent, and the peer of RTP comes before that of RTCP.
#[test]
fn flows(rt: HostRuntime) -> Result<(), Fail> {
    let mut state = state();
    let mut text = Vec::new(rt.alloc());
    push_flow(&mut text, &state, Flow::new())?;
    same(&rt, &text, b"", "nothing is known");
    let rtcp = Flow {
        rtcp_peer: Some(0x0a00_0001 * 65_536 + 5_005),
        ..Flow::new()
    };
    push_flow(&mut text, &state, rtcp)?;
    same(&rt, &text, b" peer=10.0.0.1:5005", "its RTCP alone");
    text.clear();
    state.last_block = Some(LastBlock {
        fraction: 1,
        highest: 9,
    });
    let all = Flow {
        rtp_peer: Some(0x0a00_0001 * 65_536 + 5_004),
        loss: Some(125),
        packet_rate: Some(500),
        ..rtcp
    };
    push_flow(&mut text, &state, all)?;
    let want = b" total-loss=12.5% interval-loss=0.3% pace=50.0/s peer=10.0.0.1:5004";
    same(&rt, &text, want, "all is known");
    Ok(())
}
