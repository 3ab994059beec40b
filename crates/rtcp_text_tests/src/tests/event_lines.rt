//! Lines that say events.

use super::same;
use rtcp_engine::{Clock, Event};
use rtcp_text::LineFault;
use rtcp_text::event_line::{EventBuffers, EventFault, read_event};
use std::test::Fail;

/// Lines, each with its first fault.
static FAULTS: [(&str, LineFault); 101] = [
    ("rtcp 18446744073709551616 1 00000000 -", LineFault::Number),
    ("rtp 000000000000000000007 1 00000000 80", LineFault::Number),
    ("sent 5 4294967296 0", LineFault::Number),
    ("tick 5 0000000 00000000", LineFault::Hex),
    ("tick 5 00000000 000000000", LineFault::Hex),
    ("tick 5 zz 00000000", LineFault::Hex),
    ("tick five zz 00000000", LineFault::Number),
    ("tick five zz", LineFault::Words),
    ("", LineFault::Words),
    ("stay 0 00000000", LineFault::Words),
    ("leave", LineFault::Words),
    ("leave 0", LineFault::Words),
    ("leave 0 00000000 ", LineFault::Words),
    ("leave 0 00000000 00000000", LineFault::Words),
    ("leave 0 0000000", LineFault::Hex),
    ("leave 0 000000000", LineFault::Hex),
    ("leave 18446744073709551616 0000000", LineFault::Number),
    ("RTCP 0 1 00000000 -", LineFault::Words),
    ("rtcp 0", LineFault::Words),
    ("rtcp 0 1 00000000 - ", LineFault::Words),
    ("tick  5 00000000 00000000", LineFault::Words),
    ("rtcp  1 00000000 -", LineFault::Number),
    ("rtcp 0 1 00000000 ", LineFault::Hex),
    ("rtcp 0 1 00000000 8", LineFault::Hex),
    ("rtcp 0 1 00000000 80c", LineFault::Hex),
    ("rtcp +1 1 00000000 -", LineFault::Number),
    ("rtcp 0 1 00000000 80c9\r", LineFault::Hex),
    ("sent 0 1 2\r", LineFault::Number),
    ("tick 0 00000000 0000000\r", LineFault::Hex),
    ("rtp 0 1 00000000 -\t", LineFault::Hex),
    ("rtcp 0 1 00000000 --", LineFault::Hex),
    ("sent 0 1 2 3", LineFault::Words),
    ("sent 0 1", LineFault::Words),
    ("tick 0 00000000", LineFault::Words),
    ("tick 0 00000000 00000000 0", LineFault::Words),
    (" rtcp 0 1 00000000 -", LineFault::Words),
    ("rtp -1 1 00000000 -", LineFault::Number),
    ("sent 0 1 -", LineFault::Number),
    ("sent 0 0x1 2", LineFault::Number),
    ("tick 0 00000000 0000000g", LineFault::Hex),
    ("sent 0 99999999999999999999 1", LineFault::Number),
    ("rtcp 0 1 00000000 zz", LineFault::Hex),
    // The shorter lines, without a peer or without a word.
    ("rtcp 0 80c90001000000aa", LineFault::Words),
    ("rtp 0 -", LineFault::Words),
    ("rtp 0 1 -", LineFault::Words),
    ("rtcp 0 00000000 -", LineFault::Words),
    ("rtcp 0 1 00000000 - 0", LineFault::Words),
    // Peers and words, and which fault comes first.
    ("rtcp 0 18446744073709551616 00000000 -", LineFault::Number),
    ("rtp 0 000000000000000000001 00000000 -", LineFault::Number),
    ("rtp 0  00000000 -", LineFault::Number),
    ("rtcp 0 -1 00000000 -", LineFault::Number),
    ("rtcp 0 1 0000000 -", LineFault::Hex),
    ("rtcp 0 1 000000000 -", LineFault::Hex),
    ("rtcp 0 zz 0000000 zz", LineFault::Number),
    ("rtcp zz 1 0000000 zz", LineFault::Number),
    ("rtp 0 1  80", LineFault::Hex),
    // Settings.
    ("configure 0 16 16 -", LineFault::Words),
    ("configure 0 16 16 - -", LineFault::Words),
    ("configure 0 16 16 - - -", LineFault::Words),
    ("configure 0 16 16 -  ", LineFault::Words),
    (
        "configure 0 16 16 - - 1 0000000000000000 1",
        LineFault::Words,
    ),
    ("CONFIGURE 0 16 16 - - 1 0000000000000000", LineFault::Words),
    ("configure x x x x zz 1 0000000000000000", LineFault::Number),
    (
        "configure 0 4294967296 16 - - 1 0000000000000000",
        LineFault::Number,
    ),
    (
        "configure 0 16 4294967296 - - 1 0000000000000000",
        LineFault::Number,
    ),
    ("configure 0  16 - - 1 0000000000000000", LineFault::Number),
    ("configure 0 16 16  - 1 0000000000000000", LineFault::Number),
    (
        "configure 0 16 16 -- - 1 0000000000000000",
        LineFault::Number,
    ),
    (
        "configure 0 16 16 8000 - 1 0000000000000000",
        LineFault::Number,
    ),
    (
        "configure 0 16 16 0:8000: - 1 0000000000000000",
        LineFault::Number,
    ),
    (
        "configure 0 16 16 :8000 - 1 0000000000000000",
        LineFault::Number,
    ),
    (
        "configure 0 16 16 0: - 1 0000000000000000",
        LineFault::Number,
    ),
    (
        "configure 0 16 16 256:8000 - 1 0000000000000000",
        LineFault::Number,
    ),
    (
        "configure 0 16 16 0:4294967296 - 1 0000000000000000",
        LineFault::Number,
    ),
    (
        "configure 0 16 16 0:8000, - 1 0000000000000000",
        LineFault::Number,
    ),
    (
        "configure 0 16 16 ,0:8000 - 1 0000000000000000",
        LineFault::Number,
    ),
    (
        "configure 0 16 16 0:8000,- - 1 0000000000000000",
        LineFault::Number,
    ),
    (
        "configure 0 16 16 0:8000;1:8000 - 1 0000000000000000",
        LineFault::Number,
    ),
    (
        "configure 0 16 16 0:1,1:1,2:1,3:1,4:1,5:1,6:1,7:1,8:1,9:1,10:1,11:1,12:1,13:1,14:1,15:1,16:1 zz \
            1 0000000000000000",
        LineFault::Number,
    ),
    (
        "configure 0 16 16 0:x zz 1 0000000000000000",
        LineFault::Number,
    ),
    ("configure 0 16 16 -  1 0000000000000000", LineFault::Hex),
    ("configure 0 16 16 - 2 1 0000000000000000", LineFault::Hex),
    ("configure 0 16 16 - :61 1 0000000000000000", LineFault::Hex),
    (
        "configure 0 16 16 - 256:61 1 0000000000000000",
        LineFault::Hex,
    ),
    ("configure 0 16 16 - 2:6 1 0000000000000000", LineFault::Hex),
    (
        "configure 0 16 16 - 2:6g 1 0000000000000000",
        LineFault::Hex,
    ),
    ("configure 0 16 16 - 2:- 1 0000000000000000", LineFault::Hex),
    (
        "configure 0 16 16 - 2:61:61 1 0000000000000000",
        LineFault::Hex,
    ),
    (
        "configure 0 16 16 - 2:61, 1 0000000000000000",
        LineFault::Hex,
    ),
    (
        "configure 0 16 16 - 2:,3:,4:,5:,6:,7:,8:,2: 1 0000000000000000",
        LineFault::Hex,
    ),
    ("configure 0 16 16 - - x 00", LineFault::Number),
    ("configure 0 16 16 - -  0000000000000000", LineFault::Number),
    (
        "configure 0 16 16 - - 4294967296 0000000000000000",
        LineFault::Number,
    ),
    ("configure 0 16 16 - - 1 00000000", LineFault::Hex),
    ("configure 0 16 16 - - 1 ", LineFault::Hex),
    ("configure 0 16 16 - - 1 000000000000000g", LineFault::Hex),
    // Forgets.
    ("forget 0", LineFault::Words),
    ("forget 0 0000000a 0000000b", LineFault::Words),
    ("forget 0 000000a", LineFault::Hex),
    ("forget 0 00000000a", LineFault::Hex),
    ("forget x 0000000g", LineFault::Number),
];

#[test]
fn faults(rt: HostRuntime) -> Result<(), Fail> {
    let mut buffers = EventBuffers::new(rt.alloc());
    for (line, want) in &FAULTS {
        let fault = read_event(line.as_bytes(), &mut buffers).err();
        assert_eq!(rt; fault, Some(EventFault::Line(*want)), "{line}");
    }
    Ok(())
}

#[test]
fn datagrams(rt: HostRuntime) -> Result<(), Fail> {
    let mut buffers = EventBuffers::new(rt.alloc());
    match read_event(
        b"rtcp 18446744073709551615 18446744073709551615 0000000A 80C9f0",
        &mut buffers,
    )? {
        Event::ArriveRtcp {
            now,
            peer,
            w,
            bytes,
        } => {
            assert_eq!(rt; (now, peer, w), (u64::MAX, u64::MAX, 10));
            same(&rt, bytes, &[0x80, 0xc9, 0xf0], "rtcp");
        }
        _ => Err::<(), &str>("no RTCP datagram")?,
    }
    match read_event(
        b"rtp 00000000000000000007 00000000000000000008 fFfFfFfF -",
        &mut buffers,
    )? {
        Event::ArriveRtp {
            now,
            peer,
            w,
            bytes,
        } => {
            assert_eq!(rt; (now, peer, w), (7, 8, u32::MAX));
            same(&rt, bytes, &[], "rtp");
        }
        _ => Err::<(), &str>("no RTP datagram")?,
    }
    Ok(())
}

#[test]
fn numbers(rt: HostRuntime) -> Result<(), Fail> {
    let mut buffers = EventBuffers::new(rt.alloc());
    match read_event(b"sent 5 4294967295 160", &mut buffers)? {
        Event::SentRtp {
            now,
            rtp_ts,
            octets,
        } => assert_eq!(rt; (now, rtp_ts, octets), (5, u32::MAX, 160)),
        _ => Err::<(), &str>("no packet sent")?,
    }
    match read_event(b"tick 1026037 0000000a fFfFfFfF", &mut buffers)? {
        Event::Tick { now, w1, w2 } => assert_eq!(rt; (now, w1, w2), (1_026_037, 10, u32::MAX)),
        _ => Err::<(), &str>("no tick")?,
    }
    match read_event(b"leave 10000000 0000000A", &mut buffers)? {
        Event::Leave { now, w } => assert_eq!(rt; (now, w), (10_000_000, 10)),
        _ => Err::<(), &str>("no leave")?,
    }
    Ok(())
}

/// A clock, as a line has it.
fn clock(payload_type: u8, rate: u32) -> Clock {
    Clock { payload_type, rate }
}

#[test]
fn settings(rt: HostRuntime) -> Result<(), Fail> {
    let mut buffers = EventBuffers::new(rt.alloc());
    let line =
        b"configure 5 16 1073741824 255:4294967295,0:8000 255:4aFF,2:,2:61 4294967295 FEdcba9876543210";
    let Event::Configure { now, settings } = read_event(line, &mut buffers)? else {
        return Err("no settings")?;
    };
    assert_eq!(rt;
        (now, settings.sender_bw, settings.receiver_bw),
        (5, 16, 1 << 30)
    );
    assert_eq!(rt;
        (settings.rate, settings.ntp_base),
        (u32::MAX, 0xfedc_ba98_7654_3210)
    );
    assert_eq!(rt;
        settings.clocks.as_slice(),
        [clock(255, u32::MAX), clock(0, 8_000)].as_slice()
    );
    let kinds = [255, 2, 2];
    let texts: [&[u8]; 3] = [&[0x4a, 0xff], &[], b"a"];
    assert_eq!(rt; settings.extras.len(), 3);
    for (i, item) in settings.extras.iter().enumerate() {
        assert_eq!(rt; item.kind, kinds[i]);
        same(&rt, &item.text, texts[i], "an item");
    }
    // Nothing of one line is left in the next.
    let bare = b"configure 5 0 0 - - 0 0000000000000000";
    let Event::Configure { settings, .. } = read_event(bare, &mut buffers)? else {
        return Err("no bare settings")?;
    };
    assert_eq!(rt; (settings.sender_bw, settings.receiver_bw), (0, 0));
    assert_eq!(rt; (settings.rate, settings.ntp_base), (0, 0));
    assert!(rt; settings.clocks.is_empty() && settings.extras.is_empty());
    Ok(())
}

/// Sixteen clocks and seven items, one of them with the longest text there is; and one that is too long.
#[test]
fn most_settings(rt: HostRuntime) -> Result<(), Fail> {
    let mut buffers = EventBuffers::new(rt.alloc());
    for (octets, is_read) in [(255, true), (256, false)] {
        let mut line = Vec::new(rt.alloc());
        line.extend_from_slice(b"configure 0 16 16 0:1")?;
        for _ in 1..16 {
            line.extend_from_slice(b",127:90000")?;
        }
        line.extend_from_slice(b" 2:,3:,4:,5:,6:,7:,8:")?;
        for _ in 0..octets {
            line.extend_from_slice(b"5a")?;
        }
        line.extend_from_slice(b" 1 0000000000000000")?;
        match read_event(&line, &mut buffers) {
            Ok(Event::Configure { settings, .. }) => {
                assert!(rt; is_read);
                assert_eq!(rt; (settings.clocks.len(), settings.extras.len()), (16, 7));
                assert_eq!(rt; settings.extras[6].text.len(), 255);
            }
            Ok(_) => Err::<(), &str>("no settings")?,
            Err(fault) => {
                assert!(rt; !is_read);
                assert_eq!(rt; fault, EventFault::Line(LineFault::Hex));
            }
        }
    }
    Ok(())
}

#[test]
fn forgets(rt: HostRuntime) -> Result<(), Fail> {
    let mut buffers = EventBuffers::new(rt.alloc());
    match read_event(b"forget 18446744073709551615 0000000A", &mut buffers)? {
        Event::Forget { now, ssrc } => assert_eq!(rt; (now, ssrc), (u64::MAX, 10)),
        _ => Err::<(), &str>("no dismissal")?,
    }
    Ok(())
}
