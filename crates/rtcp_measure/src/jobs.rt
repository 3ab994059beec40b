//! The mode `jobs`: it does one of the jobs that a host spends its time on, with input generated from a seed, and
//! prints a digest of all results.
//!
//!     rtcp_measure jobs NAME COUNT SEED
//!
//! The names are `server`, `broadcast`, `flood`, `listing`, `captures` and `recording`, and `all` for one after the
//! other. They make the calls that hosts and the program `rtcp` make: `Participant` over a table on the heap, and
//! `check` and `replay` from memory to memory.

mod broadcast;
mod captures;
mod datagram;
mod digits;
mod flood;
mod host;
mod listing;
mod recording;
mod server;

use crate::digest::Digest;
use crate::number;
use std::alloc::{AllocError, Global};
use std::env::Args;
use std::io::Write;

/// The names of all jobs.
const JOBS: [&str; 6] = [
    "server",
    "broadcast",
    "flood",
    "listing",
    "captures",
    "recording",
];

/// Does the job that the arguments say, or returns `None` where one is wrong, or memory is missing.
pub fn run(rt: &HostRuntime, arguments: &mut Args) -> Option<()> {
    let name = arguments.next()?;
    let count = number(arguments)?;
    let seed = number(arguments)?;
    if name.as_str() != "all" {
        return report(rt, name.as_str(), count, seed);
    }
    for job in JOBS {
        report(rt, job, count, seed)?;
    }
    Some(())
}

/// Does one job, and prints its digest.
fn report(rt: &HostRuntime, name: &str, count: u32, seed: u32) -> Option<()> {
    let digest = work(rt.alloc(), name, count, seed)?.ok()?;
    let value = digest.value();
    writeln!(rt.stdout(), "{name} {count} {seed} {value:016x}").ok()
}

/// Does one job, if there is one of this name.
fn work(alloc: Global, name: &str, count: u32, seed: u32) -> Option<Result<Digest, AllocError>> {
    match name {
        "server" => Some(server::run(alloc, count, seed)),
        "broadcast" => Some(broadcast::run(alloc, count, seed)),
        "flood" => Some(flood::run(alloc, count, seed)),
        "listing" => Some(listing::run(alloc, count, seed)),
        "captures" => Some(captures::run(alloc, count, seed)),
        "recording" => Some(recording::run(alloc, count, seed)),
        _ => None,
    }
}
