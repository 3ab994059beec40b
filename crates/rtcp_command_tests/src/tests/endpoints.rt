//! Texts of endpoints.

use rtcp_command::endpoint::read_endpoint;
use std::test::Fail;

#[test]
fn endpoints(rt: HostRuntime) -> Result<(), Fail> {
    let rows = [
        ("127.0.0.1:5005", [127, 0, 0, 1], 5005),
        ("0.0.0.0:0", [0, 0, 0, 0], 0),
        ("255.255.255.255:65535", [255, 255, 255, 255], 65_535),
        ("239.1.20.10:50000", [239, 1, 20, 10], 50_000),
    ];
    for (text, octets, port) in rows {
        let endpoint = read_endpoint(text).ok_or("it was refused")?;
        assert_eq!(rt; endpoint.ip().octets(), octets, "{text}");
        assert_eq!(rt; endpoint.port(), port, "{text}");
    }
    Ok(())
}

/// Texts that are no endpoints.
static REFUSED: [&str; 33] = [
    "",
    // A part is missing.
    "127.0.0.1",
    "127.0.0.1:",
    ":5005",
    "127.0.0:5005",
    "127.0.0.:5005",
    "127..0.1:5005",
    ".0.0.1:5005",
    "5005",
    "...:",
    // There is a part too many.
    "127.0.0.1.1:5005",
    "127.0.0.1:5005:5005",
    "127.0.0.1:5005.1",
    "127.0.0.1::5005",
    // A number begins with a zero.
    "0127.0.0.1:5005",
    "127.00.0.1:5005",
    "127.0.0.01:5005",
    "127.0.0.1:05005",
    "127.0.0.1:00",
    // A number is too great.
    "256.0.0.1:5005",
    "127.0.256.1:5005",
    "127.0.0.256:5005",
    "127.0.0.1:65536",
    "127.0.0.1:18446744073709551616",
    // A number is no decimal.
    "127.0.0.1:+5005",
    "127.0.0.-1:5005",
    "127.0.0.1:0x138d",
    "127.0.0.1 :5005",
    "127.0.0.1:5005 ",
    " 127.0.0.1:5005",
    "127.0.0.1:5005\n",
    "localhost:5005",
    "[::1]:5005",
];

#[test]
fn refused(rt: HostRuntime) {
    for text in &REFUSED {
        assert!(rt; read_endpoint(text).is_none(), "{text}");
    }
}
