//! What is said where nothing is heard.

use super::{PEER, config, named, same, taken};
use rtcp_engine::{Event, Participant};
use rtcp_members::SortedTable;
use rtcp_serve::Observer;
use rtcp_show::{SilenceWatcher, Times};
use rtcp_text::TextFault;
use std::alloc::Global;
use std::process::Abort;
use std::test::Fail;

/// A tick at this moment.
fn tick(now: u64) -> Event<'static> {
    Event::Tick { now, w1: 0, w2: 0 }
}

/// A session of these events is told this.
fn says(rt: &impl Abort, alloc: Global, events: &[Event<'_>], want: &str) -> Result<(), Fail> {
    let participant: Participant<SortedTable> = match Participant::new(config(), 0) {
        Ok(participant) => participant,
        Err(_) => return Err("the configuration is refused")?,
    };
    let mut written = Vec::new(alloc);
    {
        let mut watcher = SilenceWatcher::new(alloc, &mut written);
        for event in events {
            watcher.told(event, &taken(None, None), &participant);
        }
        assert!(rt; watcher.fault().is_none());
    }
    same(rt, &written, want.as_bytes(), want);
    Ok(())
}

/// It is said once, with the first event after five seconds.
#[test]
fn nothing_heard(rt: HostRuntime) -> Result<(), Fail> {
    let alloc = rt.alloc();
    says(&rt, alloc, &[tick(0), tick(4_999_999)], "")?;
    let events = [
        tick(4_999_999),
        tick(5_000_000),
        tick(5_000_001),
        tick(60_000_000),
    ];
    says(&rt, alloc, &events, "5.000000 nothing heard yet\n")?;
    says(
        &rt,
        alloc,
        &[tick(7_250_000)],
        "7.250000 nothing heard yet\n",
    )
}

/// After a datagram it is not said.
#[test]
fn something_heard(rt: HostRuntime) -> Result<(), Fail> {
    let compound = named(7);
    let heard = Event::ArriveRtcp {
        now: 4_000_000,
        peer: PEER,
        w: 0,
        bytes: &compound,
    };
    says(
        &rt,
        rt.alloc(),
        &[heard, tick(5_000_000), tick(9_000_000)],
        "",
    )?;
    let late = Event::ArriveRtp {
        now: 5_000_000,
        peer: PEER,
        w: 0,
        bytes: &[],
    };
    says(&rt, rt.alloc(), &[tick(1), late, tick(9_000_000)], "")
}

/// The line begins with the time of day, where that is asked for, in a session that began at noon.
#[test]
fn nothing_heard_at_noon(rt: HostRuntime) -> Result<(), Fail> {
    let participant: Participant<SortedTable> = match Participant::new(config(), 0) {
        Ok(participant) => participant,
        Err(_) => return Err("the configuration is refused")?,
    };
    let mut written = Vec::new(rt.alloc());
    {
        let watcher = SilenceWatcher::new(rt.alloc(), &mut written);
        let mut watcher = watcher.with_times(43_200 << 32, Times::OfDay);
        watcher.told(&tick(5_500_000), &taken(None, None), &participant);
        assert!(rt; watcher.fault().is_none());
    }
    same(
        &rt,
        &written,
        b"12:00:05.500000Z nothing heard yet\n",
        "at noon",
    );
    Ok(())
}

/// A writer that fails is told of.
#[test]
fn unwritten(rt: HostRuntime) -> Result<(), Fail> {
    let participant: Participant<SortedTable> = match Participant::new(config(), 0) {
        Ok(participant) => participant,
        Err(_) => return Err("the configuration is refused")?,
    };
    let mut room = [0u8; 3];
    let mut watcher = SilenceWatcher::new(rt.alloc(), room.as_mut_slice());
    watcher.told(&tick(5_000_000), &taken(None, None), &participant);
    assert!(rt; watcher.fault() == Some(TextFault::Write));
    Ok(())
}
