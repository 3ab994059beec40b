//! What a session of `listen` draws from the system.

use super::{refused, same};
use rtcp_command::Order;
use rtcp_command::arguments::order;
use std::alloc::{AllocError, Global};
use std::test::Fail;

/// The words of a command line that has all that is required but an SSRC.
const REQUIRED: &[&str] = &[
    "rtcp",
    "listen",
    "--cname",
    "a",
    "--rtp",
    "127.0.0.1:5004",
    "--rtcp",
    "127.0.0.1:5005",
    "--peer",
    "127.0.0.1:5007",
];

/// These words and then others.
fn with<'a>(
    alloc: Global,
    words: &[&'a str],
    options: &[&'a str],
) -> Result<Vec<&'a str>, AllocError> {
    let mut all = Vec::new(alloc);
    all.extend_from_slice(words)?;
    all.extend_from_slice(options)?;
    Ok(all)
}

/// Options, and what they ask for: the SSRC and the seed, and whether each is drawn in place of that.
type Asked = (&'static [&'static str], (u32, bool, u64, bool));

static ASKED: [Asked; 4] = [
    (&["--ssrc", "000000aa"], (0xaa, false, 1, false)),
    (&["--ssrc", "random", "--seed", "7"], (0, true, 7, false)),
    (
        &["--seed=random", "--ssrc=000000aa"],
        (0xaa, false, 1, true),
    ),
    (
        &["--seed", "random", "--ssrc", "random"],
        (0, true, 1, true),
    ),
];

/// `random` stands for a draw, and for no number.
#[test]
fn asked(rt: HostRuntime) -> Result<(), Fail> {
    for (row, (options, wanted)) in ASKED.iter().enumerate() {
        let words = with(rt.alloc(), REQUIRED, options)?;
        let Ok(Order::Listen(order)) = order(rt.alloc(), &words) else {
            return Err("it was refused")?;
        };
        let found = (
            order.config.ssrc,
            order.draws_ssrc,
            order.seed,
            order.draws_seed,
        );
        assert_eq!(rt; found, *wanted, "row {row}");
    }
    Ok(())
}

/// Options of which one is refused, and its line.
static REFUSED: [(&[&str], &str); 7] = [
    (&["--ssrc", "Random"], "option ssrc\n"),
    (&["--ssrc", "random "], "option ssrc\n"),
    (&["--ssrc", "rando", "--seed", "RANDOM"], "option ssrc\n"),
    (&["--ssrc", "random", "--seed", "RANDOM"], "option seed\n"),
    (&["--ssrc", "random", "--seed", "random1"], "option seed\n"),
    (&["--ssrc", "random", "--seed", ""], "option seed\n"),
    (&["--ssrc", "random", "--ntp", "Now"], "option ntp\n"),
];

/// Nothing near it does.
#[test]
fn refusals(rt: HostRuntime) -> Result<(), Fail> {
    for (row, (options, wanted)) in REFUSED.iter().enumerate() {
        let words = with(rt.alloc(), REQUIRED, options)?;
        let (status, line) = refused(rt.alloc(), &words)?;
        assert_eq!(rt; status, 2, "row {row}");
        same(&rt, &line, wanted.as_bytes(), wanted);
    }
    Ok(())
}

/// Options after an SSRC, the NTP timestamp that they ask for, and whether it is read in place of that.
static TIMED: [(&[&str], u64, bool); 3] = [
    (&["--ssrc=0000000a"], 0, false),
    (
        &["--ssrc=0000000a", "--ntp", "0123456789abcdef"],
        0x0123_4567_89ab_cdef,
        false,
    ),
    (&["--ssrc=0000000a", "--ntp", "now"], 0, true),
];

/// `now` stands for the time of the system's clock, and for no number.
#[test]
fn timed(rt: HostRuntime) -> Result<(), Fail> {
    for (row, (options, ntp_base, reads_ntp)) in TIMED.iter().enumerate() {
        let words = with(rt.alloc(), REQUIRED, options)?;
        let Ok(Order::Listen(order)) = order(rt.alloc(), &words) else {
            return Err("it was refused")?;
        };
        let found = (order.config.ntp_base, order.reads_ntp);
        assert_eq!(rt; found, (*ntp_base, *reads_ntp), "row {row}");
    }
    Ok(())
}

/// The words of `replay`, which draws and reads nothing, and the option that is refused.
static REPLAYED: [(&[&str], &str); 2] = [
    (
        &["rtcp", "replay", "--cname", "a", "--ssrc", "random"],
        "option ssrc\n",
    ),
    (
        &[
            "rtcp", "replay", "--cname", "a", "--ssrc", "0000000a", "--ntp", "now",
        ],
        "option ntp\n",
    ),
];

#[test]
fn replayed(rt: HostRuntime) -> Result<(), Fail> {
    for (words, wanted) in &REPLAYED {
        let (status, line) = refused(rt.alloc(), words)?;
        assert_eq!(rt; status, 2);
        same(&rt, &line, wanted.as_bytes(), "replay");
    }
    Ok(())
}
