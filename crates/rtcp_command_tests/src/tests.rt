//! Command lines, and runs over text from the order to the status.

use rtcp_command::arguments::{order, refuse};
use rtcp_command::{Order, TextOrder};
use std::alloc::Global;
use std::process::Abort;
use std::test::Fail;

mod commands;
mod draws;
mod endings;
mod endpoints;
mod ends;
mod example;
mod failing;
mod groups;
mod json;
mod options;
mod ports;
mod recordings;
mod records;
mod replays;

/// Asserts that octets are as they should be. A function that compares slices more than once takes several times
/// as long to prove as one that calls this.
pub(crate) fn same(rt: &impl Abort, found: &[u8], want: &[u8], case: &str) {
    assert_eq!(rt; found, want, "{case}");
}

/// The run over text that a command line asks for.
pub(crate) fn text_order<'a>(alloc: Global, words: &'a [&'a str]) -> Result<TextOrder, Fail> {
    let Ok(asked) = order(alloc, words) else {
        return Err("it was refused")?;
    };
    match asked {
        Order::Text(asked) => Ok(asked),
        _listening => Err("it asks for a session over UDP")?,
    }
}

/// The status of a command line that is refused, and what is written.
pub(crate) fn refused(alloc: Global, words: &[&str]) -> Result<(u8, Vec<u8>), Fail> {
    let fault = order(alloc, words).err().ok_or("it was understood")?;
    let mut faults = Vec::new(alloc);
    let status = refuse(&fault, &mut faults);
    Ok((status, faults))
}
