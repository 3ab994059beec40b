//! Each packet and each part of one.

use super::same;
use rtcp_json::push_json;
use rtcp_wire::Compound;
use std::alloc::Global;
use std::process::Abort;
use std::test::Fail;

/// Asserts that a datagram is shown so, after what the text held.
fn shows(rt: &impl Abort, alloc: Global, datagram: &[u8], want: &str) -> Result<(), Fail> {
    let Ok(compound) = Compound::read(datagram) else {
        return Err("it is refused")?;
    };
    let mut text = Vec::new(alloc);
    text.extend_from_slice(b"before ")?;
    push_json(&mut text, &compound)?;
    same(rt, &text, want.as_bytes(), want);
    Ok(())
}

/// A sender report of source b, at 0xe8754700 and a half seconds of NTP. It hears source aa: 85/256 are lost, in all
/// one packet fewer than none, as duplicates count.
#[test]
fn sender(rt: HostRuntime) -> Result<(), Fail> {
    let datagram = [
        0x81, 0xc8, 0, 12, 0, 0, 0, 0x0b, 0xe8, 0x75, 0x47, 0x00, 0x80, 0, 0, 0, 0, 0, 0, 0xa0, 0,
        0, 0, 1, 0, 0, 0, 0xa0, 0, 0, 0, 0xaa, 85, 0xff, 0xff, 0xff, 0, 1, 0, 4, 0, 0, 0, 1, 0, 2,
        0, 0, 0, 0, 0x80, 0,
    ];
    let want =
        "before {\"packets\":[{\"type\":\"SR\",\"ssrc\":\"0000000b\",\"ntp\":\"e875470080000000\",\
        \"rtp\":160,\"packets\":1,\"octets\":160,\"blocks\":[{\"about\":\"000000aa\",\"fraction\":85,\
        \"lost\":-1,\"highest\":65540,\"jitter\":1,\"lsr\":131072,\"dlsr\":32768}],\"extension\":\"\"}]}\n";
    shows(&rt, rt.alloc(), &datagram, want)
}

/// A CNAME of a quote, a line feed, an octet that is no UTF-8, and a letter.
#[test]
fn hostile_text(rt: HostRuntime) -> Result<(), Fail> {
    let datagram = [
        0x80, 0xc9, 0, 1, 0, 0, 0, 7, 0x81, 0xca, 0, 3, 0, 0, 0, 7, 1, 4, b'"', b'\n', 0xff, b'z',
        0, 0,
    ];
    let want =
        "before {\"packets\":[{\"type\":\"RR\",\"ssrc\":\"00000007\",\"blocks\":[],\"extension\":\"\"},\
        {\"type\":\"SDES\",\"chunks\":[{\"ssrc\":\"00000007\",\"items\":[{\"type\":\"cname\",\
        \"text\":\"\\\"\\n\u{fffd}z\"}]}]}]}\n";
    shows(&rt, rt.alloc(), &datagram, want)
}

/// A BYE of two sources with a reason of two letters of UTF-8, and one of none.
#[test]
fn byes(rt: HostRuntime) -> Result<(), Fail> {
    let datagram = [
        0x80, 0xc9, 0, 1, 0, 0, 0, 7, 0x82, 0xcb, 0, 3, 0, 0, 0, 7, 0, 0, 0, 0xbb, 3, 0xc3, 0xa9,
        b'!', 0x80, 0xcb, 0, 0,
    ];
    let want =
        "before {\"packets\":[{\"type\":\"RR\",\"ssrc\":\"00000007\",\"blocks\":[],\"extension\":\"\"},\
        {\"type\":\"BYE\",\"ssrcs\":[\"00000007\",\"000000bb\"],\"reason\":\"\u{e9}!\"},\
        {\"type\":\"BYE\",\"ssrcs\":[],\"reason\":null}]}\n";
    shows(&rt, rt.alloc(), &datagram, want)
}

/// A receiver report with an extension, an application's packet, and one of type 206.
#[test]
fn others(rt: HostRuntime) -> Result<(), Fail> {
    let datagram = [
        0x80, 0xc9, 0, 2, 0, 0, 0, 7, 1, 2, 3, 0xff, 0x83, 0xcc, 0, 3, 0, 0, 0, 7, b'n', b'a',
        b'm', b'e', 1, 2, 3, 4, 0x81, 0xce, 0, 1, 0xab, 0xcd, 0xef, 0,
    ];
    let want = "before {\"packets\":[{\"type\":\"RR\",\"ssrc\":\"00000007\",\"blocks\":[],\
        \"extension\":\"010203ff\"},{\"type\":\"APP\",\"ssrc\":\"00000007\",\"subtype\":3,\"name\":\"name\",\
        \"data\":\"01020304\"},{\"type\":206,\"count\":1,\"body\":\"abcdef00\"}]}\n";
    shows(&rt, rt.alloc(), &datagram, want)
}
