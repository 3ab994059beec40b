//! The options of `listen`.

use super::{ranges, with};
use rtcp_command::Order;
use rtcp_command::arguments::order;
use std::net::{Ipv4Addr, SocketAddrV4};
use std::test::Fail;

/// The words of a command line that has all that is required.
pub(super) const REQUIRED: &[&str] = &[
    "rtcp",
    "listen",
    "--ssrc",
    "000000aa",
    "--cname",
    "a",
    "--rtp",
    "127.0.0.1:5004",
    "--rtcp",
    "127.0.0.2:5005",
    "--peer",
    "127.0.0.3:5007",
];

/// An address of this machine.
fn local(last: u8, port: u16) -> SocketAddrV4 {
    SocketAddrV4::new(Ipv4Addr::new(127, 0, 0, last), port)
}

/// What options after the required ones ask for.
struct Asked {
    options: &'static [&'static str],
    seed: u64,
    turns: u32,
    recording: Option<&'static str>,
    show: bool,
}

/// What is asked for by none.
const PLAIN: Asked = Asked {
    options: &[],
    seed: 1,
    turns: 1_000,
    recording: None,
    show: false,
};

static ASKED: [Asked; 11] = [
    PLAIN,
    // `--show` stands alone, before or after others.
    Asked {
        options: &["--show", "--seed", "7"],
        seed: 7,
        show: true,
        ..PLAIN
    },
    Asked {
        options: &["--seed", "7", "--show"],
        seed: 7,
        show: true,
        ..PLAIN
    },
    // The file of `--record` may be anything.
    Asked {
        options: &["--record", "record.txt"],
        recording: Some("record.txt"),
        ..PLAIN
    },
    Asked {
        options: &["--record", ""],
        recording: Some(""),
        ..PLAIN
    },
    Asked {
        options: &["--record", "a b'c"],
        recording: Some("a b'c"),
        ..PLAIN
    },
    Asked {
        options: &["--seed", "0"],
        seed: 0,
        ..PLAIN
    },
    Asked {
        options: &["--seed", "18446744073709551615"],
        seed: u64::MAX,
        ..PLAIN
    },
    Asked {
        options: &["--turns", "1"],
        turns: 1,
        ..PLAIN
    },
    Asked {
        options: &["--turns", "1000000"],
        turns: 1_000_000,
        ..PLAIN
    },
    Asked {
        options: &["--turns=00000000000000000007", "--seed=007"],
        seed: 7,
        turns: 7,
        ..PLAIN
    },
];

/// What is asked for.
#[test]
fn understood(rt: HostRuntime) -> Result<(), Fail> {
    for (row, asked) in ASKED.iter().enumerate() {
        let words = with(rt.alloc(), REQUIRED, asked.options)?;
        let Ok(Order::Listen(order)) = order(rt.alloc(), &words) else {
            return Err("it was refused")?;
        };
        let found = (order.config.ssrc, ranges(&order.config));
        assert_eq!(rt; found, (0xaa, [1_024, 1_472, 100, 300, 8_000]), "row {row}");
        let endpoints = [local(1, 5004), local(2, 5005), local(3, 5007)];
        assert_eq!(rt; [order.rtp, order.rtcp, order.peer], endpoints, "row {row}");
        let found = (order.seed, order.turns, order.show);
        assert_eq!(rt; found, (asked.seed, asked.turns, asked.show), "row {row}");
        let file = order.recording.as_ref().map(|file| file.as_str());
        assert_eq!(rt; file, asked.recording, "row {row}");
    }
    Ok(())
}

/// Plain words are asked for by `--plain`, with `--show` or without.
#[test]
fn plain_words(rt: HostRuntime) -> Result<(), Fail> {
    let rows: [(&[&str], (bool, bool)); 4] = [
        (&[], (false, false)),
        (&["--show"], (true, false)),
        (&["--plain"], (false, true)),
        (&["--plain", "--show"], (true, true)),
    ];
    for (options, asked) in &rows {
        let words = with(rt.alloc(), REQUIRED, options)?;
        let Ok(Order::Listen(order)) = order(rt.alloc(), &words) else {
            return Err("it was refused")?;
        };
        assert_eq!(rt; (order.show, order.plain), *asked);
    }
    Ok(())
}
