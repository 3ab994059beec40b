//! Datagrams in plain words.

use rtcp_plain::push_plain;
use rtcp_wire::Compound;
use std::process::Abort;
use std::test::Fail;

mod checks;
mod packets;

/// Asserts that octets are as they should be. A function that compares slices more than once takes several times
/// as long to prove as one that calls this.
pub(crate) fn same(rt: &impl Abort, found: &[u8], want: &[u8], case: &str) {
    assert_eq!(rt; found, want, "{case}");
}

/// The example that rtcp_plain opens with.
#[test]
fn example(rt: HostRuntime) -> Result<(), Fail> {
    let datagram = [
        0x80, 0xc9, 0, 1, 0, 0, 0, 7, 0x81, 0xca, 0, 3, 0, 0, 0, 7, 1, 3, b'a', b'@', b'b', 0, 0, 0,
    ];
    let Ok(compound) = Compound::read(&datagram) else {
        return Err("it is refused")?;
    };
    let mut text = Vec::new(rt.alloc());
    assert!(rt; push_plain(&mut text, &compound, None).is_ok());
    assert_eq!(rt;
        text.as_slice(),
        b"ok RR ssrc=00000007 SDES ssrc=00000007 cname=\"a@b\"\n".as_slice()
    );
    Ok(())
}
