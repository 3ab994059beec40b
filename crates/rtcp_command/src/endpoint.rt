//! An IPv4 address and a port, as options of a command line write them.

ghost use Rattle.std.specs.Prelude.{◌≡◌, option_map};
ghost use Rattle.rtcp_command.specs.Endpoints.{endpoint_in, endpoint_of, has_leading_zero as leads};

use std::net::SocketAddrV4;

/// The endpoint that a text says, as `127.0.0.1:5005`: decimals without leading zeros.
pub fn read_endpoint(text: &str) -> Option<SocketAddrV4>
    ensures { option_map endpoint_of result ≡ endpoint_in text.now }
{
    if has_leading_zero(text) {
        return None;
    }
    text.parse().ok()
}

/// Whether the port has leading zeros, which the parser lets it have.
fn has_leading_zero(text: &str) -> bool
    ensures { result ≡ leads text.now }
{
    match text.split_once(':') {
        Some((_, port)) => port.len() > 1 && port.as_bytes()[0] == b'0',
        None => false,
    }
}
