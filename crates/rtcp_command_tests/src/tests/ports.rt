//! What tells the ports that the system picked.

use super::same;
use rtcp_command::ports::picked_ports;
use std::net::{Ipv4Addr, SocketAddrV4};
use std::test::Fail;

fn local(port: u16) -> SocketAddrV4 {
    SocketAddrV4::new(Ipv4Addr::LOCALHOST, port)
}

/// A port that was named has no line.
#[test]
fn picks(rt: HostRuntime) -> Result<(), Fail> {
    for (rtp, rtcp, wanted) in [
        (5004, 5005, ""),
        (0, 5005, "bound rtp port=40000\n"),
        (5004, 0, "bound rtcp port=65535\n"),
        (0, 0, "bound rtp port=40000\nbound rtcp port=65535\n"),
    ] {
        let asked = (local(rtp), local(rtcp));
        let lines = picked_ports(rt.alloc(), asked, (local(40_000), local(65_535)))?;
        same(&rt, &lines, wanted.as_bytes(), wanted);
    }
    Ok(())
}
