//! What warns of endpoints that are groups.

use super::same;
use rtcp_command::groups::group_warnings;
use std::net::{Ipv4Addr, SocketAddrV4};
use std::test::Fail;

/// An endpoint whose address begins with this number.
fn endpoint(first: u8) -> SocketAddrV4 {
    SocketAddrV4::new(Ipv4Addr::new(first, 1, 2, 3), 5004)
}

/// Groups are 224.0.0.0 to 239.255.255.255.
#[test]
fn warnings(rt: HostRuntime) -> Result<(), Fail> {
    for (rtp, rtcp, wanted) in [
        (127, 127, ""),
        (223, 240, ""),
        (0, 255, ""),
        (224, 127, "warning rtp group\n"),
        (127, 239, "warning rtcp group\n"),
        (239, 224, "warning rtp group\nwarning rtcp group\n"),
    ] {
        let lines = group_warnings(rt.alloc(), endpoint(rtp), endpoint(rtcp))?;
        same(&rt, &lines, wanted.as_bytes(), wanted);
    }
    Ok(())
}
