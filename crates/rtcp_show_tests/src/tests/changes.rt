//! The lines of sources that join, leave, begin or cease to send.

use super::same;
use rtcp_listing::{Change, Role};
use rtcp_show::push_change;
use std::test::Fail;

/// A member that does not send is neither new nor gone.
const NONE: Change = Change {
    ssrc: 0x7,
    was: Role::Member,
    is: Role::Member,
    has_left: false,
};

static ROWS: [(Change, &str); 8] = [
    (NONE, ""),
    (
        Change {
            was: Role::Away,
            ..NONE
        },
        "0.250000 joined=00000007\n",
    ),
    (
        Change {
            was: Role::Away,
            is: Role::Sender,
            ..NONE
        },
        "0.250000 joined=00000007\n0.250000 began-sending=00000007\n",
    ),
    (
        Change {
            is: Role::Sender,
            ..NONE
        },
        "0.250000 began-sending=00000007\n",
    ),
    (
        Change {
            was: Role::Sender,
            ..NONE
        },
        "0.250000 stopped-sending=00000007\n",
    ),
    (
        Change {
            is: Role::Away,
            has_left: true,
            ..NONE
        },
        "0.250000 bye=00000007\n",
    ),
    (
        Change {
            is: Role::Away,
            ..NONE
        },
        "0.250000 timed-out=00000007\n",
    ),
    (
        Change {
            was: Role::Sender,
            is: Role::Away,
            has_left: true,
            ..NONE
        },
        "0.250000 stopped-sending=00000007\n0.250000 bye=00000007\n",
    ),
];

/// Each role before and after has its lines.
#[test]
fn roles(rt: HostRuntime) -> Result<(), Fail> {
    for (change, want) in &ROWS {
        let mut text = Vec::new(rt.alloc());
        push_change(&mut text, 250_000, change)?;
        same(&rt, &text, want.as_bytes(), want);
    }
    Ok(())
}
