//! Records of sessions: what a recorder writes, and where it ends.

use super::ends::Narrow;
use super::same;
use super::sessions::plain;
use arrayvec::ArrayVec;
use rtcp_engine::{Clock, Event, Item, Settings};
use rtcp_text::record::Recorder;
use rtcp_text::{Counted, TextFault, replay};
use std::alloc::Global;
use std::test::Fail;

/// The session of docs/FORMATS.md.
const LINES: &[u8] = b"rtcp 0 1 00000000 80c900010000000781ca00020000000701016100\n\
    tick 1026037 00000000 00000000\n\
    leave 2000000 00000000\n";

const NAMED: [u8; 20] = [
    0x80, 0xc9, 0, 1, 0, 0, 0, 7, 0x81, 0xca, 0, 2, 0, 0, 0, 7, 1, 1, b'a', 0,
];

/// Its events.
fn events<'a>() -> [Event<'a>; 3] {
    [
        Event::ArriveRtcp {
            now: 0,
            peer: 1,
            w: 0,
            bytes: &NAMED,
        },
        Event::Tick {
            now: 1_026_037,
            w1: 0,
            w2: 0,
        },
        Event::Leave {
            now: 2_000_000,
            w: 0,
        },
    ]
}

/// A writer that takes 8 octets a call, and fails at the call after `calls` others, or takes nothing.
fn narrow(alloc: Global, calls: u32, fails: bool) -> Narrow {
    Narrow {
        taken: Vec::new(alloc),
        piece: 8,
        calls,
        fails,
    }
}

/// Each event is written as it happens, as the lines that `replay` reads.
#[test]
fn recorded(rt: HostRuntime) {
    let mut recorder = Recorder::new(rt.alloc(), narrow(rt.alloc(), 1_000, true));
    for event in events() {
        assert!(rt; recorder.record(&event).is_ok());
    }
    assert!(rt; !recorder.has_ended());
    same(
        &rt,
        recorder.into_inner().taken.as_slice(),
        LINES,
        "the record",
    );
}

/// A write that fails, or takes nothing, ends the record, and that is told once.
#[test]
fn ended(rt: HostRuntime) {
    for fails in [true, false] {
        let mut recorder = Recorder::new(rt.alloc(), narrow(rt.alloc(), 2, fails));
        let [came, tick, leave] = events();
        assert!(rt; recorder.record(&came) == Err(TextFault::Write));
        assert!(rt; recorder.has_ended());
        assert!(rt; recorder.record(&tick).is_ok());
        assert!(rt; recorder.record(&leave).is_ok());
        let taken = recorder.into_inner().taken;
        same(&rt, taken.as_slice(), b"rtcp 0 1 0000000", "what was taken");
    }
}

/// A record is replayed with the answers of docs/FORMATS.md.
#[test]
fn replayed(rt: HostRuntime) {
    let mut recorder = Recorder::new(rt.alloc(), Vec::new(rt.alloc()));
    for event in events() {
        assert!(rt; recorder.record(&event).is_ok());
    }
    let record = recorder.into_inner();
    let mut reader = Counted::new(record.as_slice());
    let mut writer = Counted::new(Vec::new(rt.alloc()));
    assert!(rt; replay::replay(rt.alloc(), &mut reader, &mut writer, plain(), 0).is_ok());
    let want = b"start members=1 senders=0 next=1026037\n\
        ok members=2 senders=0 next=1026037 out=-\n\
        ok members=2 senders=0 next=3078111 out=report:80c90001000000aa81ca0002000000aa01016100\n\
        ok members=0 senders=0 next=- \
        out=bye:80c90001000000aa81ca0002000000aa0101610081cb0001000000aa\n";
    same(&rt, writer.into_inner().as_slice(), want, "the replay");
}

/// Settings, with these clocks and items.
fn settings(clocks: &[Clock], items: &[(u8, &[u8])]) -> Result<Settings, Fail> {
    let mut settings = Settings {
        sender_bw: 16,
        receiver_bw: 1 << 30,
        rate: 48_000,
        clocks: ArrayVec::new(),
        ntp_base: 0xe1a2_b3c4_d5e6_f708,
        extras: ArrayVec::new(),
    };
    settings.clocks.try_extend_from_slice(clocks)?;
    for (kind, octets) in items {
        let mut text = ArrayVec::new();
        text.try_extend_from_slice(octets)?;
        let item = Item { kind: *kind, text };
        if settings.extras.try_push(item).is_err() {
            return Err("too many items")?;
        }
    }
    Ok(settings)
}

/// What a host says of settings and of a source that is gone.
#[test]
fn hosts(rt: HostRuntime) -> Result<(), Fail> {
    let clocks = [
        Clock {
            payload_type: 0,
            rate: 8_000,
        },
        Clock {
            payload_type: 96,
            rate: 90_000,
        },
    ];
    let full = settings(&clocks, &[(6, b"rat".as_slice()), (8, b"".as_slice())])?;
    let bare = settings(&[], &[])?;
    let mut recorder = Recorder::new(rt.alloc(), Vec::new(rt.alloc()));
    for event in [
        Event::Configure {
            now: 7,
            settings: &full,
        },
        Event::Forget { now: 8, ssrc: 0xbb },
        Event::Configure {
            now: 8,
            settings: &bare,
        },
    ] {
        assert!(rt; recorder.record(&event).is_ok());
    }
    let want = b"configure 7 16 1073741824 0:8000,96:90000 6:726174,8: 48000 e1a2b3c4d5e6f708\n\
        forget 8 000000bb\n\
        configure 8 16 1073741824 - - 48000 e1a2b3c4d5e6f708\n";
    same(&rt, recorder.into_inner().as_slice(), want, "the record");
    Ok(())
}

/// A source that is gone is no member; settings that no configuration may have are refused; others change no moment.
#[test]
fn hosts_replayed(rt: HostRuntime) {
    let lines = b"rtcp 0 1 00000000 80c900010000000781ca00020000000701016100\n\
        forget 5 00000008\n\
        forget 5 00000007\n\
        configure 4 15 0 0:0 1: 8000 0000000000000000\n\
        configure 6 15 16 0:0 1: 8000 0000000000000000\n\
        configure 6 16 1073741824 0:0 1: 8000 0000000000000000\n\
        configure 6 16 16 - 1: 1048577 0000000000000000\n\
        configure 6 16 16 0:1048576 1: 8000 0000000000000000\n\
        configure 6 16 16 0:1048576 2:,8:61 1048576 ffffffffffffffff\n";
    let mut reader = Counted::new(lines.as_slice());
    let mut writer = Counted::new(Vec::new(rt.alloc()));
    assert!(rt; replay::replay(rt.alloc(), &mut reader, &mut writer, plain(), 0).is_ok());
    let want = b"start members=1 senders=0 next=1026037\n\
        ok members=2 senders=0 next=1026037 out=-\n\
        ok members=2 senders=0 next=1026037 out=-\n\
        ok members=1 senders=0 next=1026037 out=-\n\
        refused E2 Backwards\n\
        refused E8 Settings: C4 Bandwidth\n\
        refused E8 Settings: C5 Rate\n\
        refused E8 Settings: C5 Rate\n\
        refused E8 Settings: C6 Item\n\
        ok members=1 senders=0 next=1026037 out=-\n";
    same(&rt, writer.into_inner().as_slice(), want, "the replay");
}
