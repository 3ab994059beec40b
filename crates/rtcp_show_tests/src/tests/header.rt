//! The line before those of a session.

use super::same;
use rtcp_show::push_header;
use std::net::{Ipv4Addr, SocketAddrV4};
use std::test::Fail;

#[test]
fn header(rt: HostRuntime) -> Result<(), Fail> {
    let mut text = Vec::new(rt.alloc());
    let rtp = SocketAddrV4::new(Ipv4Addr::new(10, 0, 0, 255), 65_535);
    let rtcp = SocketAddrV4::new(Ipv4Addr::new(10, 0, 0, 255), 0);
    let to = SocketAddrV4::new(Ipv4Addr::LOCALHOST, 5_007);
    push_header(&mut text, 0xaa, b"a\"\n", rtp, rtcp, to)?;
    let want = "session ssrc=000000aa cname=\"a\\\"\\n\" rtp=10.0.0.255:65535 rtcp=10.0.0.255:0 \
        peer=127.0.0.1:5007\n";
    same(&rt, &text, want.as_bytes(), "a header");
    Ok(())
}
