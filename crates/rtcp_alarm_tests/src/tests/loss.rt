//! Sources that lose too much.

use super::session::{Session, limits};
use rtcp_alarm::{Alarm, Bell, Raised};
use std::process::Abort;
use std::test::Fail;

/// The alarm of a source of which one packet of eight was lost, 32/256, with the report at 2,000,000.
fn lost(ssrc: u32) -> Option<Raised> {
    Some(Raised {
        moment: 2_000_000,
        alarm: Alarm::Loss { ssrc, fraction: 32 },
    })
}

/// A session in which one packet of eight is lost raises this with its first report, and nothing before it.
fn raises(rt: &impl Abort, limit: Option<u32>, want: Option<Raised>) -> Result<(), Fail> {
    let bell = Bell::new();
    let mut session = Session::new(limits(limit, None), &bell)?;
    session.lossy(100_000, 7);
    assert_eq!(rt; session.tick(1_000_000), None);
    assert_eq!(rt; session.tick(2_000_000), want);
    Ok(())
}

/// 12.5 per cent are more than 12, and not more than 13.
#[test]
fn per_cents(rt: HostRuntime) -> Result<(), Fail> {
    raises(&rt, Some(12), lost(7))?;
    raises(&rt, Some(0), lost(7))?;
    raises(&rt, Some(13), None)?;
    raises(&rt, Some(99), None)?;
    raises(&rt, None, None)
}

/// A source of which all came raises nothing.
#[test]
fn none_lost(rt: HostRuntime) -> Result<(), Fail> {
    let bell = Bell::new();
    let mut session = Session::new(limits(Some(0), None), &bell)?;
    for number in 1..10 {
        session.rtp(100_000, 7, number);
    }
    assert_eq!(rt; session.tick(2_000_000), None);
    Ok(())
}

/// Of two sources the alarm names the one of less SSRC, whichever came first. It stays after their next report.
#[test]
fn two_sources(rt: HostRuntime) -> Result<(), Fail> {
    let bell = Bell::new();
    let mut session = Session::new(limits(Some(5), None), &bell)?;
    session.lossy(100_000, 9);
    session.lossy(200_000, 7);
    for number in 1..10 {
        session.rtp(300_000, 3, number);
    }
    assert_eq!(rt; session.tick(2_000_000), lost(7));
    assert_eq!(rt; session.tick(60_000_000), lost(7));
    Ok(())
}

/// The loss of a report is told where a silence comes with it.
#[test]
fn before_silence(rt: HostRuntime) -> Result<(), Fail> {
    let bell = Bell::new();
    let mut session = Session::new(limits(Some(5), Some(1)), &bell)?;
    session.lossy(100_000, 7);
    assert_eq!(rt; session.tick(2_000_000), lost(7));
    Ok(())
}

/// With the leave no alarm comes, though its BYE is a compound, nor after it.
#[test]
fn after_leave(rt: HostRuntime) -> Result<(), Fail> {
    let bell = Bell::new();
    let mut session = Session::new(limits(Some(5), Some(1)), &bell)?;
    session.lossy(100_000, 7);
    session.leave(500_000);
    assert_eq!(rt; session.tick(2_000_000), None);
    assert_eq!(rt; session.tick(60_000_000), None);
    Ok(())
}
