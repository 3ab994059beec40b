//! Endpoints that are groups.

ghost use Rattle.std.specs.Prelude.{◌≡◌, ◌++◌, IfOk, OnOk};
ghost use Rattle.rtcp_command.specs.Endpoints.{endpoint_of};
ghost use Rattle.rtcp_command.specs.Groups.{group_text, groups_text, is_group as stands_for_group};

use std::alloc::{AllocError, Global};
use std::net::SocketAddrV4;

/// The lines that warn where the endpoint of RTP or of RTCP is a group: a session binds its address, but does not join.
///
/// # Errors
///
/// `AllocError` where memory is refused.
pub fn group_warnings(
    alloc: Global,
    rtp: SocketAddrV4,
    rtcp: SocketAddrV4,
) -> Result<Vec<u8>, AllocError>
    ensures { IfOk result (λ lines. lines.items ≡ groups_text (endpoint_of rtp) (endpoint_of rtcp)) }
{
    let mut lines = Vec::new(alloc);
    push_warning(&mut lines, b"rtp", rtp)?;
    push_warning(&mut lines, b"rtcp", rtcp)?;
    Ok(lines)
}

/// Appends the line of an endpoint that is a group.
fn push_warning(out: &mut Vec<u8>, name: &[u8], endpoint: SocketAddrV4) -> Result<(), AllocError>
    ensures { OnOk result (out.new.items ≡ out.old.items ++ group_text name.now (endpoint_of endpoint)) }
{
    if is_group(endpoint) {
        out.extend_from_slice(b"warning ")?;
        out.extend_from_slice(name)?;
        out.extend_from_slice(b" group\n")?;
    }
    Ok(())
}

/// Whether an endpoint is a group: 224.0.0.0 to 239.255.255.255 (RFC 1112, 4).
fn is_group(endpoint: SocketAddrV4) -> bool
    ensures { result ≡ stands_for_group (endpoint_of endpoint) }
{
    let first = endpoint.ip().octets()[0];
    first >= 224 && first <= 239
}
