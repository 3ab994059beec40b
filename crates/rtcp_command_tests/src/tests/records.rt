//! The command that plays a record again.

use arrayvec::ArrayVec;
use rtcp_command::replay_command::{replay_guarded_line, replay_line};
use rtcp_engine::{Clock, Config, Item};
use rtcp_guarded_text::GuardLimits;
use std::test::Fail;

/// A text of at most 255 octets.
fn text(octets: &[u8]) -> ArrayVec<u8, 255> {
    let mut text = ArrayVec::new();
    let _ = text.try_extend_from_slice(octets);
    text
}

/// A participant with a CNAME that has to be quoted, and two extra items.
fn config() -> Config {
    let mut extras = ArrayVec::new();
    extras.push(Item {
        kind: 6,
        text: text(b"it's 1"),
    });
    extras.push(Item {
        kind: 8,
        text: text(&[0, 255]),
    });
    Config {
        ssrc: 0xaa,
        cname: text(b"$a b'"),
        extras,
        capacity: 1024,
        limit: 1472,
        sender_bw: 100,
        receiver_bw: 300,
        rate: 8000,
        clocks: ArrayVec::new(),
        ntp_base: 0x0102_0304_0506_0708,
    }
}

/// A shell takes the words between quotes as they are.
#[test]
fn quoted(rt: HostRuntime) -> Result<(), Fail> {
    let line = replay_line(rt.alloc(), &config(), 0xbb, "my record")?;
    let want = "rtcp replay --ssrc 000000aa --cname '$a b'\\''' --capacity 1024 --limit 1472 \
        --sender-bw 100 --receiver-bw 300 --rate 8000 --ntp 0102030405060708 \
        --tool 'it'\\''s 1' --priv 00ff --word 000000bb --lines 4294967295 < 'my record'\n";
    assert_eq!(rt; line.as_slice(), want.as_bytes());
    Ok(())
}

/// A session with a guard has its option, with the hold in seconds.
#[test]
fn guarded(rt: HostRuntime) -> Result<(), Fail> {
    let limits = GuardLimits {
        names: 8,
        hold: 90_000_000,
    };
    let line = replay_guarded_line(rt.alloc(), &config(), 0xbb, limits, "call")?;
    let want = "rtcp replay --ssrc 000000aa --cname '$a b'\\''' --capacity 1024 --limit 1472 \
        --sender-bw 100 --receiver-bw 300 --rate 8000 --ntp 0102030405060708 \
        --tool 'it'\\''s 1' --priv 00ff --word 000000bb --guard 8,90 --lines 4294967295 < 'call'\n";
    assert_eq!(rt; line.as_slice(), want.as_bytes());
    Ok(())
}

/// Each clock is an option, in their order.
#[test]
fn clocks(rt: HostRuntime) -> Result<(), Fail> {
    let mut config = config();
    config.cname = text(b"a");
    config.extras = ArrayVec::new();
    for (payload_type, rate) in [(96, 90_000), (0, 8_000)] {
        let _ = config.clocks.try_push(Clock { payload_type, rate });
    }
    let line = replay_line(rt.alloc(), &config, 0xbb, "call")?;
    let want = "rtcp replay --ssrc 000000aa --cname 'a' --capacity 1024 --limit 1472 \
        --sender-bw 100 --receiver-bw 300 --rate 8000 --clock 96:90000 --clock 0:8000 \
        --ntp 0102030405060708 --word 000000bb --lines 4294967295 < 'call'\n";
    assert_eq!(rt; line.as_slice(), want.as_bytes());
    Ok(())
}
