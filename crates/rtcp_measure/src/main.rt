//! The program `rtcp_measure`: it does work that the scripts of `bench/` measure, and prints what came of it. Its first
//! argument is a mode, which takes the arguments that follow:
//!
//!     rtcp_measure decode PASSES                            for bench/decode
//!     rtcp_measure calls TABLE SHAPE SOURCES CALL COUNT     for bench/calls
//!     rtcp_measure jobs NAME COUNT SEED                     for bench/run
//!
//! The module of each mode says what these are. Another mode with its arguments may follow, as in the gate, which runs
//! all three.
#![tactic(auto)]

mod calls;
mod decode;
mod digest;
mod jobs;
mod random;

use std::env::{self, Args};
use std::process::ExitCode;

fn main(rt: HostRuntime) -> ExitCode {
    match run(&rt) {
        Some(()) => ExitCode::SUCCESS,
        None => ExitCode::from(2),
    }
}

/// Does what the arguments say, one mode after the other, or returns `None` where one is missing or wrong, or where the
/// input or memory is missing.
fn run(rt: &HostRuntime) -> Option<()> {
    let mut arguments = env::args(rt).ok()?;
    // The first argument is the name of the program.
    arguments.next()?;
    run_mode(rt, &mut arguments)?;
    // Each mode takes an argument at least, so no more modes follow than there are arguments left.
    for _ in 0..arguments.len() {
        if arguments.len() > 0 {
            run_mode(rt, &mut arguments)?;
        }
    }
    Some(())
}

/// Runs one mode, and takes its arguments.
fn run_mode(rt: &HostRuntime, arguments: &mut Args) -> Option<()> {
    let mode = arguments.next()?;
    match mode.as_str() {
        "decode" => decode::run(rt, number(arguments)?),
        "calls" => calls::run(rt, arguments),
        "jobs" => jobs::run(rt, arguments),
        _ => None,
    }
}

/// The next argument, as a number.
fn number(arguments: &mut Args) -> Option<u32> {
    arguments.next()?.as_str().parse().ok()
}
