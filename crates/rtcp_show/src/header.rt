//! The line before those of a session.

ghost use Rattle.std.specs.Prelude.{◌≡◌, ◌++◌, OnOk};
ghost use Rattle.rtcp_serve.specs.Links.{endpoint_number};
ghost use Rattle.rtcp_show.specs.Headers.{header_text, name_text};
ghost use Rattle.rtcp_show.specs.Numbers.{peer_text};

use crate::numbers::push_peer;
use rtcp_plain::numbers::push_quoted;
use rtcp_serve::endpoint_number;
use rtcp_text::text::digits::push_word;
use std::alloc::AllocError;
use std::net::SocketAddrV4;

/// Appends the line before those of a session: the participant's SSRC and CNAME, where RTP comes in, where RTCP comes
/// in, and where it goes.
///
/// ```text
/// session ssrc=000000aa cname="a@b" rtp=127.0.0.1:5004 rtcp=127.0.0.1:5005 peer=127.0.0.1:5007
/// ```
///
/// # Errors
///
/// `AllocError` where memory is refused. It is then left open how much of the text was appended.
pub fn push_header(
    out: &mut Vec<u8>,
    ssrc: u32,
    cname: &[u8],
    rtp: SocketAddrV4,
    rtcp: SocketAddrV4,
    to: SocketAddrV4,
) -> Result<(), AllocError>
    ensures { OnOk result (out.new.items ≡ out.old.items ++ header_text ssrc cname.now (endpoint_number rtp)
        (endpoint_number rtcp) (endpoint_number to)) }
{
    push_name(out, ssrc, cname)?;
    push_endpoint(out, b" rtp=", rtp)?;
    push_endpoint(out, b" rtcp=", rtcp)?;
    push_endpoint(out, b" peer=", to)?;
    out.push(b'\n')?;
    Ok(())
}

/// Appends who the participant is.
fn push_name(out: &mut Vec<u8>, ssrc: u32, cname: &[u8]) -> Result<(), AllocError>
    ensures { OnOk result (out.new.items ≡ out.old.items ++ name_text ssrc cname.now) }
{
    out.extend_from_slice(b"session ssrc=")?;
    push_word(out, ssrc)?;
    out.extend_from_slice(b" cname=")?;
    push_quoted(out, cname)?;
    Ok(())
}

/// Appends a word, and an address and a port.
fn push_endpoint(out: &mut Vec<u8>, word: &[u8], endpoint: SocketAddrV4) -> Result<(), AllocError>
    ensures { OnOk result (out.new.items ≡ out.old.items ++ word.now ++ peer_text (endpoint_number endpoint)) }
{
    out.extend_from_slice(word)?;
    push_peer(out, endpoint_number(endpoint))
}
