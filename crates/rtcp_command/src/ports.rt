//! Ports that the system picked.

ghost use Rattle.std.specs.Prelude.{◌≡◌, ◌++◌, IfOk, OnOk};
ghost use Rattle.rtcp_command.specs.Endpoints.{endpoint_of};
ghost use Rattle.rtcp_command.specs.Ports.{picked_text, picks_text};

use rtcp_text::text::digits::push_decimal;
use std::alloc::{AllocError, Global};
use std::net::SocketAddrV4;

/// The lines that tell the ports of RTP and of RTCP, for each of the two that the command line leaves to the system by
/// a port of 0: first what it asks for, and then what was bound.
///
/// # Errors
///
/// `AllocError` where memory is refused.
pub fn picked_ports(
    alloc: Global,
    asked: (SocketAddrV4, SocketAddrV4),
    bound: (SocketAddrV4, SocketAddrV4),
) -> Result<Vec<u8>, AllocError>
    ensures { IfOk result (λ lines. lines.items ≡ picks_text (endpoint_of asked.0) (endpoint_of bound.0)
        (endpoint_of asked.1) (endpoint_of bound.1)) }
{
    let mut lines = Vec::new(alloc);
    push_picked(&mut lines, b"rtp", asked.0, bound.0)?;
    push_picked(&mut lines, b"rtcp", asked.1, bound.1)?;
    Ok(lines)
}

/// Appends the line of a port, if it was left to the system.
fn push_picked(
    out: &mut Vec<u8>,
    name: &[u8],
    asked: SocketAddrV4,
    bound: SocketAddrV4,
) -> Result<(), AllocError>
    ensures { OnOk result (out.new.items ≡ out.old.items
        ++ picked_text name.now (endpoint_of asked) (endpoint_of bound)) }
{
    if asked.port() == 0 {
        out.extend_from_slice(b"bound ")?;
        out.extend_from_slice(name)?;
        out.extend_from_slice(b" port=")?;
        push_decimal(out, u64::from(bound.port()))?;
        out.extend_from_slice(b"\n")?;
    }
    Ok(())
}
