//! What ends a session once an alarm was raised.

use super::session::{Session, limits};
use rtcp_alarm::Bell;
use rtcp_serve::Ending;
use std::test::Fail;

/// The session goes on until an alarm, and after the leave until as much time has passed again.
#[test]
fn rings(rt: HostRuntime) -> Result<(), Fail> {
    let bell = Bell::new();
    let mut ending = &bell;
    let mut session = Session::new(limits(None, Some(5)), &bell)?;
    session.tick(4_000_000);
    assert!(rt; !ending.is_over(4_000_000, false));
    session.tick(6_000_000);
    assert!(rt; ending.is_over(6_000_000, false));
    assert!(rt; !ending.is_over(11_999_999, true));
    assert!(rt; ending.is_over(12_000_000, true));
    Ok(())
}
