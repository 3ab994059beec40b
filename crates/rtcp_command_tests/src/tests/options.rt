//! The options of `replay`.

mod guard;
mod listen;

use super::{refused, same, text_order};
use rtcp_command::TextOrder;
use rtcp_engine::{Config, Item};
use std::alloc::{AllocError, Global};
use std::process::Abort;
use std::test::Fail;

/// The words of a command line that has all that is required.
const REQUIRED: &[&str] = &["rtcp", "replay", "--ssrc", "000000aa", "--cname", "a"];

/// These words and then others.
fn with<'a>(
    alloc: Global,
    words: &[&'a str],
    options: &[&'a str],
) -> Result<Vec<&'a str>, AllocError> {
    let mut all = Vec::new(alloc);
    all.extend_from_slice(words)?;
    all.extend_from_slice(options)?;
    Ok(all)
}

/// What an order says: the configuration, the random word of the start, and the most lines.
fn replayed(alloc: Global, words: &[&str]) -> Result<(Config, WordAndLines), Fail> {
    match text_order(alloc, words)? {
        TextOrder::Replay {
            config,
            word,
            lines,
        } => Ok((config, WordAndLines { word, lines })),
        _other => Err("it is no replay without a guard, in text")?,
    }
}

/// The random word of the start and the most lines.
#[derive(Drop)]
struct WordAndLines {
    word: u32,
    lines: u32,
}

/// A command line is refused at the option of this name.
fn refused_at(rt: &impl Abort, alloc: Global, words: &[&str], name: &str) -> Result<(), Fail> {
    let (status, line) = refused(alloc, words)?;
    let want = format!(in alloc; "option {name}\n")?;
    assert_eq!(rt; status, 2, "{name}");
    same(rt, &line, want.as_bytes(), name);
    Ok(())
}

/// The capacity, the limit, the bandwidths of the senders' RTCP and of the others', and the rate.
fn ranges(config: &Config) -> [u32; 5] {
    [
        config.capacity,
        config.limit,
        config.sender_bw,
        config.receiver_bw,
        config.rate,
    ]
}

/// What options after the required ones ask for.
struct Asked {
    options: &'static [&'static str],
    /// The capacity, the limit, the bandwidths of the senders' RTCP and of the others', and the rate.
    ranges: [u32; 5],
    ntp_base: u64,
    /// The random word of the start, and the most lines.
    word_and_lines: (u32, u32),
    /// The extra items, by their types.
    extras: &'static [(u8, &'static [u8])],
}

/// What is asked for by none.
const PLAIN: Asked = Asked {
    options: &[],
    ranges: [1_024, 1_472, 100, 300, 8_000],
    ntp_base: 0,
    word_and_lines: (0, 65_536),
    extras: &[],
};

static ASKED: [Asked; 13] = [
    PLAIN,
    Asked {
        options: &[
            "--word",
            "fFfFfFfF",
            "--ntp",
            "0123456789abcDEF",
            "--rate=90000",
            "--session-bps",
            "00000000000000010240",
            "--limit",
            "4294967295",
            "--capacity",
            "0",
            "--lines",
            "4294967295",
        ],
        ranges: [0, u32::MAX, 16, 48, 90_000],
        ntp_base: 0x0123_4567_89ab_cdef,
        word_and_lines: (u32::MAX, u32::MAX),
        ..PLAIN
    },
    // RTCP's bandwidth is the twentieth part of the session's, in octets. A quarter of it is for senders, and each
    // share is the greatest number of 32 bits where it does not fit those.
    Asked {
        options: &["--session-bps", "0"],
        ranges: [1_024, 1_472, 0, 0, 8_000],
        ..PLAIN
    },
    Asked {
        options: &["--session-bps", "2560"],
        ranges: [1_024, 1_472, 4, 12, 8_000],
        ..PLAIN
    },
    Asked {
        options: &["--session-bps", "10239"],
        ranges: [1_024, 1_472, 15, 48, 8_000],
        ..PLAIN
    },
    Asked {
        options: &["--session-bps", "10240"],
        ranges: [1_024, 1_472, 16, 48, 8_000],
        ..PLAIN
    },
    Asked {
        options: &["--session-bps", "2748779069439"],
        ranges: [1_024, 1_472, 4_294_967_295, 4_294_967_295, 8_000],
        ..PLAIN
    },
    Asked {
        options: &["--session-bps", "2748779069440"],
        ranges: [1_024, 1_472, 4_294_967_295, 4_294_967_295, 8_000],
        ..PLAIN
    },
    Asked {
        options: &["--session-bps", "18446744073709551615"],
        ranges: [1_024, 1_472, 4_294_967_295, 4_294_967_295, 8_000],
        ..PLAIN
    },
    // Each of the two bandwidths that is given replaces the share of its name.
    Asked {
        options: &["--sender-bw", "17"],
        ranges: [1_024, 1_472, 17, 300, 8_000],
        ..PLAIN
    },
    Asked {
        options: &["--receiver-bw", "4294967296"],
        ranges: [1_024, 1_472, 100, 4_294_967_295, 8_000],
        ..PLAIN
    },
    // Extra items stand in the order of their types, not of the command line, and may be empty.
    Asked {
        options: &[
            "--priv", "0a0B", "--note", "n", "--tool", "", "--loc", "l", "--phone", "p", "--email",
            "e", "--name", "\u{e9}",
        ],
        extras: &[
            (2, b"\xc3\xa9"),
            (3, b"e"),
            (4, b"p"),
            (5, b"l"),
            (6, b""),
            (7, b"n"),
            (8, b"\x0a\x0b"),
        ],
        ..PLAIN
    },
    Asked {
        options: &["--priv="],
        extras: &[(8, b"")],
        ..PLAIN
    },
];

/// What is asked for.
#[test]
fn understood(rt: HostRuntime) -> Result<(), Fail> {
    for (row, asked) in ASKED.iter().enumerate() {
        let words = with(rt.alloc(), REQUIRED, asked.options)?;
        let (config, WordAndLines { word, lines }) = replayed(rt.alloc(), &words)?;
        assert_eq!(rt;
            (config.ssrc, ranges(&config)),
            (0xaa, asked.ranges),
            "row {row}"
        );
        let found = (config.ntp_base, word, lines);
        let (wanted_word, wanted_lines) = asked.word_and_lines;
        assert_eq!(rt;
            found,
            (asked.ntp_base, wanted_word, wanted_lines),
            "row {row}"
        );
        same(&rt, &config.cname, b"a", "cname");
        has_extras(&rt, &config, asked.extras, row);
    }
    Ok(())
}

/// The configuration of a row has these extra items.
fn has_extras(rt: &impl Abort, config: &Config, extras: &[(u8, &[u8])], row: usize) {
    assert_eq!(rt; config.extras.len(), extras.len(), "row {row}");
    for (item, (kind, text)) in config.extras.iter().zip(extras) {
        assert_eq!(rt; item.kind, *kind, "row {row}");
        same(rt, &item.text, text, "an extra item");
    }
}

/// Clocks are taken in their order: 16 of them, and no more.
#[test]
fn clocks(rt: HostRuntime) -> Result<(), Fail> {
    let alloc = rt.alloc();
    let some = [
        "--clock",
        "96:90000",
        "--clock=0:0",
        "--clock",
        "0127:4294967295",
        "--clock",
        "96:1",
    ];
    let (config, _) = replayed(alloc, &with(alloc, REQUIRED, &some)?)?;
    let want = [(96, 90_000), (0, 0), (127, u32::MAX), (96, 1)];
    assert_eq!(rt; config.clocks.len(), want.len());
    for (clock, (payload_type, rate)) in config.clocks.iter().zip(&want) {
        assert_eq!(rt; (clock.payload_type, clock.rate), (*payload_type, *rate));
    }
    let mut words = with(alloc, REQUIRED, &[])?;
    let (config, _) = replayed(alloc, &words)?;
    assert!(rt; config.clocks.is_empty());
    for _ in 0..16 {
        words.extend_from_slice(&["--clock", "1:2"])?;
    }
    let (config, _) = replayed(alloc, &words)?;
    assert_eq!(rt; config.clocks.len(), 16);
    words.extend_from_slice(&["--clock", "1:2"])?;
    refused_at(&rt, alloc, &words, "clock")
}

/// Texts of items of 255 octets are taken, and longer ones are not.
#[test]
fn longest_texts(rt: HostRuntime) -> Result<(), Fail> {
    let alloc = rt.alloc();
    for (name, part) in [
        ("name", "a"),
        ("email", "a"),
        ("phone", "a"),
        ("loc", "a"),
        ("tool", "a"),
        ("note", "a"),
        ("priv", "0a"),
    ] {
        let option = format!(in alloc; "--{name}")?;
        let longest = part.repeat(alloc, 255)?;
        let longer = part.repeat(alloc, 256)?;
        let (config, _) = replayed(alloc, &with(alloc, REQUIRED, &[&option, &longest])?)?;
        assert_eq!(rt; config.extras.len(), 1, "{name}");
        let words = with(alloc, REQUIRED, &[&option, &longer])?;
        refused_at(&rt, alloc, &words, name)?;
    }
    let longer = "a".repeat(alloc, 256)?;
    let words = ["rtcp", "replay", "--ssrc", "000000aa", "--cname", &longer];
    refused_at(&rt, alloc, &words, "cname")
}

/// Words, options after them, and the option that is refused.
static REFUSED: [(&[&str], &[&str], &str); 52] = [
    (REQUIRED, &["--capacity", "4294967296"], "capacity"),
    (REQUIRED, &["--capacity", ""], "capacity"),
    (REQUIRED, &["--capacity", "+1"], "capacity"),
    (REQUIRED, &["--limit", "1472 "], "limit"),
    (REQUIRED, &["--limit", "0x5c0"], "limit"),
    (
        REQUIRED,
        &["--session-bps", "18446744073709551616"],
        "session-bps",
    ),
    (
        REQUIRED,
        &["--session-bps", "000000000000000010240"],
        "session-bps",
    ),
    (
        REQUIRED,
        &["--sender-bw", "18446744073709551616"],
        "sender-bw",
    ),
    (
        REQUIRED,
        &["--receiver-bw", "", "--sender-bw", "0"],
        "receiver-bw",
    ),
    (REQUIRED, &["--rate", "4294967296"], "rate"),
    (REQUIRED, &["--clock", "8000"], "clock"),
    (REQUIRED, &["--clock", ""], "clock"),
    (REQUIRED, &["--clock", "128:8000"], "clock"),
    (REQUIRED, &["--clock", "0:4294967296"], "clock"),
    (REQUIRED, &["--clock", "0:8000:1"], "clock"),
    (REQUIRED, &["--clock", "0:8000,8:8000"], "clock"),
    (
        REQUIRED,
        &["--clock", "0:8000", "--clock", "x:8000"],
        "clock",
    ),
    (REQUIRED, &["--ntp", "", "--clock", ""], "clock"),
    (REQUIRED, &["--clock", "", "--rate", ""], "rate"),
    (REQUIRED, &["--ntp", "000000000000000"], "ntp"),
    (REQUIRED, &["--ntp", "00000000000000000"], "ntp"),
    (REQUIRED, &["--ntp", "000000000000000g"], "ntp"),
    (REQUIRED, &["--priv", "0"], "priv"),
    (REQUIRED, &["--priv", "zz"], "priv"),
    (REQUIRED, &["--word", "0"], "word"),
    (REQUIRED, &["--word", "000000000"], "word"),
    (REQUIRED, &["--word", "0000000-"], "word"),
    (REQUIRED, &["--lines", "0"], "lines"),
    (REQUIRED, &["--lines", "4294967296"], "lines"),
    (REQUIRED, &["--lines", ""], "lines"),
    // Of several, the first in the order of the options.
    (REQUIRED, &["--lines", "0", "--word", "0"], "word"),
    (REQUIRED, &["--word", "0", "--priv", "0"], "priv"),
    (REQUIRED, &["--priv", "0", "--rate", ""], "rate"),
    (
        REQUIRED,
        &[
            "--rate",
            "",
            "--limit",
            "",
            "--capacity",
            "",
            "--session-bps",
            "",
        ],
        "capacity",
    ),
    (
        &["rtcp", "replay", "--ssrc", "aa", "--cname", "a"],
        &["--rate", ""],
        "ssrc",
    ),
    (
        &["rtcp", "replay", "--ssrc", "0000000aa", "--cname", "a"],
        &["--rate", ""],
        "ssrc",
    ),
    (
        &["rtcp", "replay", "--ssrc", "0000000g", "--cname", "a"],
        &["--rate", ""],
        "ssrc",
    ),
    (
        &["rtcp", "replay", "--ssrc", "", "--cname", "a"],
        &["--rate", ""],
        "ssrc",
    ),
    // of `listen`
    (
        listen::REQUIRED,
        &["--seed", "18446744073709551616"],
        "seed",
    ),
    (listen::REQUIRED, &["--seed", ""], "seed"),
    (listen::REQUIRED, &["--seed", "0x1"], "seed"),
    (listen::REQUIRED, &["--turns", "0"], "turns"),
    (listen::REQUIRED, &["--turns", "1000001"], "turns"),
    (listen::REQUIRED, &["--turns", "4294967297"], "turns"),
    (
        listen::REQUIRED,
        &["--turns", "000000000000000000001"],
        "turns",
    ),
    // Of several, the first in the order of the options.
    (listen::REQUIRED, &["--turns", "0", "--seed", "a"], "seed"),
    (listen::REQUIRED, &["--seed", "a", "--priv", "0"], "priv"),
    // Endpoints of `--rtp`, `--rtcp` and `--peer`, and the first that is refused. The seed is looked at after them.
    (
        &["rtcp", "listen", "--seed", "a", "--peer", ""],
        &[
            "--rtcp",
            "",
            "--rtp",
            "127.0.0.01:1",
            "--cname",
            "a",
            "--ssrc",
            "000000aa",
        ],
        "rtp",
    ),
    (
        &["rtcp", "listen", "--seed", "a", "--peer", ""],
        &[
            "--rtcp",
            "127.0.0.256:1",
            "--rtp",
            "127.0.0.1:1",
            "--cname",
            "a",
            "--ssrc",
            "000000aa",
        ],
        "rtcp",
    ),
    (
        &["rtcp", "listen", "--seed", "a", "--peer", "127.0.0.1:65536"],
        &[
            "--rtcp",
            "127.0.0.1:2",
            "--rtp",
            "127.0.0.1:1",
            "--cname",
            "a",
            "--ssrc",
            "000000aa",
        ],
        "peer",
    ),
    (
        &["rtcp", "listen", "--seed", "a", "--peer", "127.0.0.1"],
        &[
            "--rtcp",
            "127.0.0.1:2",
            "--rtp",
            "127.0.0.1:1",
            "--cname",
            "a",
            "--ssrc",
            "000000aa",
        ],
        "peer",
    ),
    (
        &["rtcp", "listen", "--seed", "a", "--peer", ""],
        &[
            "--rtcp",
            "127.0.0.1:2",
            "--rtp",
            "127.0.0.1:1",
            "--cname",
            "a",
            "--ssrc",
            "000000aa",
        ],
        "peer",
    ),
];

#[test]
fn refused_values(rt: HostRuntime) -> Result<(), Fail> {
    for (words, options, name) in &REFUSED {
        let words = with(rt.alloc(), words, options)?;
        refused_at(&rt, rt.alloc(), &words, name)?;
    }
    Ok(())
}

/// Command lines that `clap` refuses, and how its text begins.
static REFUSED_WORDS: [(&[&str], &str); 9] = [
    (
        &["rtcp", "replay", "--cname", "a"],
        "error: the following required arguments were not provided:\n  --ssrc <HEX>\n",
    ),
    (
        &["rtcp", "replay", "--ssrc", "000000aa"],
        "error: the following required arguments were not provided:\n  --cname <TEXT>\n",
    ),
    (
        &["rtcp", "replay", "--rtp", "127.0.0.1:5004"],
        "error: unexpected argument '--rtp' found",
    ),
    (
        &["rtcp", "replay", "session"],
        "error: unexpected argument 'session' found",
    ),
    (
        &["rtcp", "replay", "--ssrc", "000000aa", "--ssrc", "000000ab"],
        "error: the argument '--ssrc <HEX>' cannot be used multiple times",
    ),
    (
        &["rtcp", "replay", "--ssrc"],
        "error: a value is required for '--ssrc <HEX>' but none was supplied",
    ),
    (
        &["rtcp", "listen", "--ssrc", "000000aa", "--cname", "a"],
        "error: the following required arguments were not provided:\n  --rtp <ADDRESS:PORT>\n  --rtcp <ADDRESS:PORT>\n  --peer <ADDRESS:PORT>\n",
    ),
    (
        &["rtcp", "listen", "--word", "00000000"],
        "error: unexpected argument '--word' found",
    ),
    (
        &["rtcp", "listen", "--help"],
        "Take part in a session over UDP.\n",
    ),
];

#[test]
fn refused_words(rt: HostRuntime) -> Result<(), Fail> {
    for (words, beginning) in &REFUSED_WORDS {
        let (status, text) = refused(rt.alloc(), words)?;
        assert_eq!(rt; status, 2, "{beginning}");
        assert!(rt; text.starts_with(beginning.as_bytes()), "{beginning}");
    }
    Ok(())
}
