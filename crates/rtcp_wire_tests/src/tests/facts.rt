ghost use Rattle.std.specs.Prelude.{◌≡◌, ◌<◌, ◌^◌, length, IfOk};
ghost use Rattle.rtcp_wire.specs.Facts.{facts_of};

use super::*;

/// A sender report of source 9 with a block about source 13; a source description of 9, with two CNAMEs, and
/// of 7, with a NAME alone; a BYE of both; an application's packet of source 11; and a packet of type
/// 205.
const CALL: [u8; 108] = [
    0x81, 0xc8, 0, 12, // a sender report of 13 words, with one block
    0, 0, 0, 9, // its SSRC
    0, 0, 0, 1, // NTP timestamp, the upper word
    0, 0, 0, 5, // NTP timestamp, the lower word
    0, 0, 0, 2, // RTP timestamp
    0, 0, 0, 3, // packets sent
    0, 0, 0, 4, // octets sent
    0, 0, 0, 13, // the block's SSRC
    0, 0, 0, 0, // fraction lost and packets lost
    0, 0, 0, 0, // highest sequence number
    0, 0, 0, 0, // jitter
    0, 0, 0, 0, // LSR
    0, 0, 0, 0, // DLSR
    0x82, 0xca, 0, 5, // a source description of six words, with two chunks
    0, 0, 0, 9, // the first chunk's SSRC
    1, 1, 0x61, 1, // a CNAME, and the type of another
    0, 0, 0, 0, // its length 0, the zero octet, and the fill
    0, 0, 0, 7, // the second chunk's SSRC
    2, 1, 0x62, 0, // a NAME, and the zero octet
    0x82, 0xcb, 0, 2, // a goodbye of three words, of two sources
    0, 0, 0, 9, // the first
    0, 0, 0, 7, // the second
    0x80, 0xcc, 0, 2, // an application's packet of three words
    0, 0, 0, 11, // its SSRC
    0x61, 0x62, 0x63, 0x64, // its name
    0x80, 0xcd, 0, 1, // a packet of type 205, of two words
    0, 0, 0, 15, // its body
];

/// The facts of a compound, collected.
fn collected(alloc: Global, compound: &Compound<'_>) -> Result<Vec<Fact>, AllocError>
    ensures { IfOk result (λ found. found.items ≡ facts_of compound.now) }
{
    rtcp_wire::facts(compound).collect(alloc)
}

/// The facts of a compound, one by one.
fn visited(alloc: Global, compound: &Compound<'_>) -> Result<Vec<Fact>, AllocError>
    ensures { IfOk result (λ found. found.items ≡ facts_of compound.now) }
{
    let mut found = Vec::new(alloc);
    for fact in rtcp_wire::facts(compound) {
        found.push(fact)?;
    }
    Ok(found)
}

/// How many facts a compound gives.
fn fact_count(compound: &Compound<'_>) -> usize
    requires { length (facts_of compound.now) < 2 ^ 64 }
    ensures { result ≡ length (facts_of compound.now) }
{
    rtcp_wire::facts(compound).count()
}

/// A source description of no chunks and a BYE of no identifiers, between other packets and at the end.
const EMPTY_PACKETS: [u8; 36] = [
    0x80, 0xc9, 0, 1, // a receiver report of two words
    0, 0, 0, 7, // its SSRC
    0x80, 0xca, 0, 0, // a source description of no chunks
    0x80, 0xcb, 0, 0, // a goodbye of no sources
    0x80, 0xcc, 0, 2, // an application's packet of three words
    0, 0, 0, 8, // its SSRC
    0x61, 0x62, 0x63, 0x64, // its name
    0x80, 0xcb, 0, 0, // a goodbye of no sources
    0x80, 0xca, 0, 0, // a source description of no chunks
];

/// Compounds, and their facts.
static FACTS: [(&[u8], &[Fact]); 3] = [
    (
        &CALL,
        &[
            Fact::Heard(9),
            Fact::Told(9, 0x1_0000_0005, 2),
            Fact::Heard(9),
            Fact::Named(9),
            Fact::Heard(7),
            Fact::Gone(9),
            Fact::Gone(7),
            Fact::Heard(11),
        ],
    ),
    (&[0x80, 0xc9, 0, 1, 0, 0, 0, 7], &[Fact::Heard(7)]),
    // What is empty gives nothing.
    (&EMPTY_PACKETS, &[Fact::Heard(7), Fact::Heard(8)]),
];

/// The facts of each compound, collected and one by one, and then none.
#[test]
fn each_fact(rt: HostRuntime) -> Result<(), Fail> {
    for (octets, wanted) in &FACTS {
        let compound = Compound::read(octets)?;
        let found = (
            collected(rt.alloc(), &compound)?,
            visited(rt.alloc(), &compound)?,
        );
        let found = (found.0.as_slice(), found.1.as_slice());
        assert_eq!(rt; found, (*wanted, *wanted), "{octets:?}");
        let mut left = rtcp_wire::facts(&compound);
        for fact in *wanted {
            assert_eq!(rt; left.next(), Some(*fact), "{octets:?}");
        }
        assert_eq!(rt; [left.next(), left.next()], [None, None], "{octets:?}");
    }
    Ok(())
}
