//! When a session of `listen` is left.

use super::{refused, same};
use rtcp_command::arguments::order;
use rtcp_command::{Order, Watch};
use std::test::Fail;

/// The words of a command line that has all that is required.
pub(super) const REQUIRED: [&str; 12] = [
    "rtcp",
    "listen",
    "--ssrc",
    "000000aa",
    "--cname",
    "a",
    "--rtp",
    "127.0.0.1:5004",
    "--rtcp",
    "127.0.0.1:5005",
    "--peer",
    "127.0.0.1:5007",
];

/// The turns, whether they are counted, the seconds, and the file that ends the session.
type Ends = (u32, bool, Option<u32>, Option<&'static str>);

/// Options, and what they ask for.
type Asked = (&'static [&'static str], Ends);

static ASKED: [Asked; 13] = [
    (&[], (1_000, true, None, None)),
    (&["--turns", "1000"], (1_000, true, None, None)),
    (&["--seconds", "1"], (1_000, false, Some(1), None)),
    (&["--seconds=0000000060"], (1_000, false, Some(60), None)),
    (
        &["--seconds", "1000000000"],
        (1_000, false, Some(1_000_000_000), None),
    ),
    (
        &["--seconds", "7", "--turns", "9"],
        (9, true, Some(7), None),
    ),
    (
        &["--turns", "1000000", "--seconds", "7"],
        (1_000_000, true, Some(7), None),
    ),
    (&["--stop", "a b'c"], (1_000, false, None, Some("a b'c"))),
    (
        &["--stop", "", "--record", "call", "--turns", "5"],
        (5, true, None, Some("")),
    ),
    (
        &["--stop=x", "--seconds=3"],
        (1_000, false, Some(3), Some("x")),
    ),
    (&["--until-loss", "0"], (1_000, false, None, None)),
    (
        &["--until-silence", "5", "--turns", "7"],
        (7, true, None, None),
    ),
    (&["--rows", "5", "--summary"], (1_000, true, None, None)),
];

/// Turns are counted where they are asked for, or nothing else ends the session.
#[test]
fn endings(rt: HostRuntime) -> Result<(), Fail> {
    for (row, (options, wanted)) in ASKED.iter().enumerate() {
        let mut words = Vec::from_slice(rt.alloc(), &REQUIRED)?;
        words.extend_from_slice(options)?;
        let Ok(Order::Listen(order)) = order(rt.alloc(), &words) else {
            return Err("it was refused")?;
        };
        let stop = order.stop.as_ref().map(|file| file.as_str());
        let found = (order.turns, order.counts_turns, order.seconds, stop);
        assert_eq!(rt; found, *wanted, "row {row}");
    }
    Ok(())
}

/// Options of which one is refused, and its line: of two the first in the order of the tables.
static REFUSED: [(&[&str], &str); 15] = [
    (&["--seconds", "0"], "option seconds\n"),
    (&["--seconds", "1000000001"], "option seconds\n"),
    (&["--seconds", "4294967297"], "option seconds\n"),
    (&["--seconds", ""], "option seconds\n"),
    (&["--seconds", "1.5"], "option seconds\n"),
    (&["--seconds", "0", "--turns", "0"], "option turns\n"),
    (&["--seconds", "0", "--seed", "a"], "option seed\n"),
    (&["--turns", "0", "--seconds", "1"], "option turns\n"),
    (&["--until-loss", "100"], "option until-loss\n"),
    (&["--until-loss", "5%"], "option until-loss\n"),
    (&["--until-silence", "0"], "option until-silence\n"),
    (&["--until-silence", "1000000001"], "option until-silence\n"),
    (&["--rows", "0"], "option rows\n"),
    (&["--rows", "1025"], "option rows\n"),
    (
        &["--rows", "0", "--until-silence", "0", "--until-loss", ""],
        "option until-loss\n",
    ),
];

/// Options, and the per cent, the seconds, the rows and the summary that they ask for.
type Watched = (&'static [&'static str], Watch);

const UNWATCHED: Watch = Watch {
    loss: None,
    silence: None,
    rows: None,
    summary: false,
};

static WATCHED: [Watched; 6] = [
    (&[], UNWATCHED),
    (
        &["--until-loss", "0"],
        Watch {
            loss: Some(0),
            ..UNWATCHED
        },
    ),
    (
        &["--until-silence=1000000000", "--until-loss=99"],
        Watch {
            loss: Some(99),
            silence: Some(1_000_000_000),
            ..UNWATCHED
        },
    ),
    (
        &["--rows", "1"],
        Watch {
            rows: Some(1),
            ..UNWATCHED
        },
    ),
    (
        &["--rows", "1024", "--until-silence", "1"],
        Watch {
            silence: Some(1),
            rows: Some(1_024),
            ..UNWATCHED
        },
    ),
    (
        &["--summary"],
        Watch {
            summary: true,
            ..UNWATCHED
        },
    ),
];

/// What a session is watched for is what the options say.
#[test]
fn watches(rt: HostRuntime) -> Result<(), Fail> {
    for (row, (options, wanted)) in WATCHED.iter().enumerate() {
        let mut words = Vec::from_slice(rt.alloc(), &REQUIRED)?;
        words.extend_from_slice(options)?;
        let Ok(Order::Listen(order)) = order(rt.alloc(), &words) else {
            return Err("it was refused")?;
        };
        assert_eq!(rt; order.watch, *wanted, "row {row}");
    }
    Ok(())
}

#[test]
fn refusals(rt: HostRuntime) -> Result<(), Fail> {
    for (row, (options, wanted)) in REFUSED.iter().enumerate() {
        let mut words = Vec::from_slice(rt.alloc(), &REQUIRED)?;
        words.extend_from_slice(options)?;
        let (status, line) = refused(rt.alloc(), &words)?;
        assert_eq!(rt; status, 2, "row {row}");
        same(&rt, &line, wanted.as_bytes(), wanted);
    }
    Ok(())
}
