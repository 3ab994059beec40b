//! The program `rtcp_sample`: it plays samples/gstreamer.replay again, the record of a session with GStreamer. Its
//! standard input and output in the gate are copies of that record and of samples/gstreamer.answers, which the model
//! in compare/model/participant.py gave.
#![tactic(auto)]

use arrayvec::ArrayVec;
use rtcp_engine::{Config, Item, rtcp_bw_of, shares_of};
use rtcp_text::Counted;
use rtcp_text::replay::replay;
use std::io::{BufWriter, Write};
use std::process::ExitCode;

/// The random word of the start.
const WORD: u32 = 0x4371_96ea;

fn main(rt: HostRuntime) -> ExitCode {
    match play(&rt) {
        Some(()) => ExitCode::SUCCESS,
        None => ExitCode::FAILURE,
    }
}

/// Plays the session of standard input, or returns `None` where a line is refused, or reading, writing or memory fails.
fn play(rt: &HostRuntime) -> Option<()> {
    let config = config()?;
    let mut reader = Counted::new(rt.stdin());
    let mut writer = Counted::new(BufWriter::new(rt.alloc(), rt.stdout()).ok()?);
    replay(rt.alloc(), &mut reader, &mut writer, config, WORD).ok()?;
    writer.flush().ok()
}

/// The participant, as the options in samples/gstreamer.options configure it.
fn config() -> Option<Config> {
    let mut extras = ArrayVec::new();
    extras
        .try_push(Item {
            kind: 6,
            text: text(b"jalwedd")?,
        })
        .ok()?;
    let (sender_bw, receiver_bw) = shares_of(rtcp_bw_of(64_000));
    Some(Config {
        ssrc: 0xaa,
        cname: text(b"listener@example.org")?,
        extras,
        capacity: 1024,
        limit: 1472,
        sender_bw: u32::try_from(sender_bw).ok()?,
        receiver_bw: u32::try_from(receiver_bw).ok()?,
        rate: 48_000,
        clocks: ArrayVec::new(),
        ntp_base: 0xeead_0eea_0000_0000,
    })
}

/// A text of at most 255 octets.
fn text(octets: &[u8]) -> Option<ArrayVec<u8, 255>> {
    let mut text = ArrayVec::new();
    text.try_extend_from_slice(octets).ok()?;
    Some(text)
}
