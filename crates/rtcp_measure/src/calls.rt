//! The mode `calls`: it makes one kind of call on a participant over and over, and prints a digest of the answers.
//! These are calls that hosts in C cannot make.
//!
//!     rtcp_measure calls TABLE SHAPE SOURCES CALL COUNT
//!
//! TABLE is the table that holds the sources: `heap`, `sorted` or `list`. SHAPE is the pattern of their SSRCs:
//! `random`, `numbered` or `clusters`. SOURCES is their number, from 1 to 1,024, and the capacity of the table. COUNT
//! is how often CALL is made, which is one of these:
//!
//! - `present`: an RTP packet of a source chosen at random arrives;
//! - `absent`: an RTP packet of a random SSRC arrives, which is hardly ever that of a source;
//! - `tick`: the next two sources describe themselves, and a tick finds that none was silent for too long;
//! - `walk`: the next source of a walk over all of them is read;
//! - `members`: a datagram that is refused arrives, and the member count is read.
//!
//! `all` for TABLE or CALL stands for each of them. All tables answer the same, so the digests of a call are equal.

mod caller;
mod mixing;
mod shape;

use crate::digest::Digest;
use crate::number;
use arrayvec::ArrayVec;
use caller::{Call, Caller, Row};
use rtcp_engine::{Config, Participant};
use rtcp_members::{HeapTable, ListTable, SortedTable};
use shape::Shape;
use std::alloc::Global;
use std::env::Args;
use std::io::Write;

/// The names of the tables.
const TABLES: [&str; 3] = ["heap", "sorted", "list"];

/// The names of the calls.
const CALLS: [&str; 5] = ["present", "absent", "tick", "walk", "members"];

/// The own SSRC, which is that of no source.
const OWN_SSRC: u32 = 0x0bad_cafe;

/// The random word of the session's begin.
const WORD: u32 = 0x1234_5678;

/// Makes the calls that the arguments say, or returns `None` where one is wrong, or memory is missing.
pub fn run(rt: &HostRuntime, arguments: &mut Args) -> Option<()> {
    let table = arguments.next()?;
    let shape = Shape::named(arguments.next()?.as_str())?;
    let sources = number(arguments)?;
    let call = arguments.next()?;
    let count = number(arguments)?;
    let row = Row {
        shape,
        sources,
        count,
    };
    if table.as_str() != "all" {
        return report_calls(rt, table.as_str(), call.as_str(), row);
    }
    for name in TABLES {
        report_calls(rt, name, call.as_str(), row)?;
    }
    Some(())
}

/// Makes the calls of one name, or of all, and prints the digest of each.
fn report_calls(rt: &HostRuntime, table: &str, call: &str, row: Row) -> Option<()> {
    if call != "all" {
        return report(rt, table, call, row);
    }
    for name in CALLS {
        report(rt, table, name, row)?;
    }
    Some(())
}

/// Makes the calls of one name, and prints their digest.
fn report(rt: &HostRuntime, table: &str, name: &str, row: Row) -> Option<()> {
    let digest = answers(rt.alloc(), table, Call::named(name)?, row)?;
    let value = digest.value();
    let (shape, sources, count) = (row.shape, row.sources, row.count);
    writeln!(
        rt.stdout(),
        "{table} {shape} {sources} {name} {count} {value:016x}"
    )
    .ok()
}

/// The digest of what a participant over this table answers, if there is one of this name.
fn answers(alloc: Global, table: &str, call: Call, row: Row) -> Option<Digest> {
    let config = configured(row.sources);
    match table {
        "heap" => {
            if let Some(_) = config.error() {
                return None;
            }
            let table = HeapTable::with_room(alloc, config.capacity).ok()?;
            let mut participant = Participant::with_table(config, table, WORD);
            Some(Caller::new(row).answers(call, &mut participant))
        }
        "sorted" => {
            let mut participant = Participant::<SortedTable>::new(config, WORD).ok()?;
            Some(Caller::new(row).answers(call, &mut participant))
        }
        "list" => {
            let mut participant = Participant::<ListTable>::new(config, WORD).ok()?;
            Some(Caller::new(row).answers(call, &mut participant))
        }
        _ => None,
    }
}

/// The configuration of a session of so many others, with so much bandwidth that a source may be silent for 25 seconds.
fn configured(sources: u32) -> Config {
    let mut cname = ArrayVec::new();
    let _ = cname.try_extend_from_slice(b"jalwedd@example.com");
    Config {
        ssrc: OWN_SSRC,
        cname,
        extras: ArrayVec::new(),
        capacity: sources,
        limit: 1_472,
        sender_bw: 1 << 20,
        receiver_bw: 1 << 20,
        rate: 8_000,
        clocks: ArrayVec::new(),
        ntp_base: 0xeead_0eea_0000_0000,
    }
}
