//! Runs over text.

use rtcp_text::{Counted, check};
use std::process::Abort;

mod answerers;
mod conversation;
mod ends;
mod event_lines;
mod flushes;
mod leaves;
mod records;
mod rows;
mod sessions;
mod texts;

/// Asserts that octets are as they should be. A function that compares slices more than once takes several times
/// as long to prove as one that calls this.
pub(crate) fn same(rt: &impl Abort, found: &[u8], want: &[u8], case: &str) {
    assert_eq!(rt; found, want, "{case}");
}

/// The example that rtcp_text opens with.
#[test]
fn example(rt: HostRuntime) {
    let mut reader = Counted::new(b"80c9000100000007\n\n".as_slice());
    let mut writer = Counted::new(Vec::new(rt.alloc()));
    assert!(rt; check::check(rt.alloc(), &mut reader, &mut writer).is_ok());
    let text = writer.into_inner();
    assert_eq!(rt;
        text.as_slice(),
        b"ok RR(00000007,[],0)\nF1 Short at 0\n".as_slice()
    );
}
