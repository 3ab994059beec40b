//! The option of a guard.

use super::super::text_order;
use super::{REQUIRED, listen, refused_at, with};
use rtcp_command::arguments::order;
use rtcp_command::{Order, TextOrder};
use std::alloc::Global;
use std::test::Fail;

/// What the option asks for: how many sources of an origin, and the hold in microseconds.
static ASKED: [(&str, u16, u64); 5] = [
    ("1", 1, 60_000_000),
    ("1024", 1_024, 60_000_000),
    ("8,1", 8, 1_000_000),
    ("8,1000000000", 8, 1_000_000_000_000_000),
    ("0008,00060", 8, 60_000_000),
];

/// The sources and the hold that a replay is asked for.
fn limits(alloc: Global, text: &str) -> Result<(u16, u64), Fail> {
    let words = with(alloc, REQUIRED, &["--guard", text])?;
    match text_order(alloc, &words)? {
        TextOrder::ReplayGuarded { limits, .. } => Ok((limits.names, limits.hold)),
        _other => Err("no guard is asked for")?,
    }
}

#[test]
fn guards(rt: HostRuntime) -> Result<(), Fail> {
    for &(text, names, hold) in &ASKED {
        let found = limits(rt.alloc(), text)?;
        assert_eq!(rt; found, (names, hold), "{text}");
    }
    Ok(())
}

/// Sources and seconds that are none, or too many, and what is no decimal.
static REFUSED: [&str; 14] = [
    "0",
    "1025",
    "",
    "8,",
    ",60",
    "8,0",
    "8,60,1",
    "8,1000000001",
    "4294967297",
    "8;60",
    "x",
    "8, 60",
    "+8",
    "8,x",
];

#[test]
fn refused_guards(rt: HostRuntime) -> Result<(), Fail> {
    for text in &REFUSED {
        let words = with(rt.alloc(), REQUIRED, &["--guard", text])?;
        refused_at(&rt, rt.alloc(), &words, "guard")?;
    }
    Ok(())
}

/// A session over UDP has a guard if one is asked for.
#[test]
fn listening(rt: HostRuntime) -> Result<(), Fail> {
    let words = with(rt.alloc(), listen::REQUIRED, &["--guard", "8,1"])?;
    let guard = match order(rt.alloc(), &words) {
        Ok(Order::Listen(order)) => order.guard,
        _other => Err("no session over UDP is asked for")?,
    };
    assert_eq!(rt;
        guard.map(|limits| (limits.names, limits.hold)),
        Some((8, 1_000_000))
    );
    let words = with(rt.alloc(), listen::REQUIRED, &[])?;
    let guard = match order(rt.alloc(), &words) {
        Ok(Order::Listen(order)) => order.guard,
        _other => Err("no session over UDP is asked for")?,
    };
    assert!(rt; guard.is_none());
    Ok(())
}
