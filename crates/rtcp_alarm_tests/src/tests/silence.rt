//! RTP packets that no longer come.

use super::session::{Session, limits};
use rtcp_alarm::{Alarm, Bell, Raised};
use std::test::Fail;

/// The alarm of a silence at this moment.
fn silent(moment: u64) -> Option<Raised> {
    Some(Raised {
        moment,
        alarm: Alarm::Silence,
    })
}

/// Where nothing comes, the silence is counted from the start.
#[test]
fn nothing_came(rt: HostRuntime) -> Result<(), Fail> {
    let bell = Bell::new();
    let mut session = Session::new(limits(None, Some(5)), &bell)?;
    assert_eq!(rt; session.tick(4_999_999), None);
    assert_eq!(rt; session.tick(5_000_000), silent(5_000_000));
    assert_eq!(rt; session.tick(9_000_000), silent(5_000_000));
    Ok(())
}

/// A packet renews the wait. What is refused, and RTCP, does not.
#[test]
fn a_packet_came(rt: HostRuntime) -> Result<(), Fail> {
    let bell = Bell::new();
    let mut session = Session::new(limits(None, Some(5)), &bell)?;
    session.rtp(3_000_000, 7, 1);
    session.datagram(4_000_000, &[0x80]);
    session.rtcp(5_000_000);
    assert_eq!(rt; session.tick(7_999_999), None);
    assert_eq!(rt; session.tick(8_000_000), silent(8_000_000));
    Ok(())
}

/// So does a packet after a longer silence, where nothing was told in it.
#[test]
fn a_late_packet_came(rt: HostRuntime) -> Result<(), Fail> {
    let bell = Bell::new();
    let mut session = Session::new(limits(None, Some(5)), &bell)?;
    session.rtp(7_000_000, 7, 1);
    assert_eq!(rt; session.raised(), None);
    assert_eq!(rt; session.tick(12_000_000), silent(12_000_000));
    Ok(())
}

/// A datagram that is refused may be what comes once the wait is over.
#[test]
fn refused(rt: HostRuntime) -> Result<(), Fail> {
    let bell = Bell::new();
    let mut session = Session::new(limits(None, Some(5)), &bell)?;
    session.datagram(5_250_000, &[0x80]);
    assert_eq!(rt; session.raised(), silent(5_250_000));
    Ok(())
}

/// Without limits nothing is raised.
#[test]
fn no_limits(rt: HostRuntime) -> Result<(), Fail> {
    let bell = Bell::new();
    let mut session = Session::new(limits(None, None), &bell)?;
    session.lossy(100_000, 7);
    assert_eq!(rt; session.tick(2_000_000), None);
    assert_eq!(rt; session.tick(60_000_000), None);
    Ok(())
}
