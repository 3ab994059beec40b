//! A session under test.

ghost use Rattle.std.specs.Prelude.{◌≤◌, ◌<◌, ◌^◌};

use super::memory_link::MemoryLink;
use super::zeros::Zeros;
use super::*;
use rtcp_serve::{Observer, Until, serve_until};

/// The report of the participant, which has SSRC 000000aa and CNAME `a`, without news.
pub(crate) const REPORT: [u8; 20] = [
    0x80, 0xc9, 0x00, 0x01, 0x00, 0x00, 0x00, 0xaa, 0x81, 0xca, 0x00, 0x02, 0x00, 0x00, 0x00, 0xaa,
    0x01, 0x01, 0x61, 0x00,
];

/// Its BYE: its report, and a BYE packet.
pub(crate) const BYE: [u8; 28] = [
    0x80, 0xc9, 0x00, 0x01, 0x00, 0x00, 0x00, 0xaa, 0x81, 0xca, 0x00, 0x02, 0x00, 0x00, 0x00, 0xaa,
    0x01, 0x01, 0x61, 0x00, 0x81, 0xcb, 0x00, 0x01, 0x00, 0x00, 0x00, 0xaa,
];

/// The named compound of a source below 256.
pub(crate) fn named(ssrc: u8) -> [u8; 20] {
    [
        0x80, 0xc9, 0x00, 0x01, 0x00, 0x00, 0x00, ssrc, 0x81, 0xca, 0x00, 0x02, 0x00, 0x00, 0x00,
        ssrc, 0x01, 0x01, 0x61, 0x00,
    ]
}

/// A participant with 400 octets of RTCP a second, a clock of 8,000 units a second, and the start word 0. Its
/// first report is due at 1,026,037.
pub(crate) fn participant(rt: &impl Abort) -> Participant<SortedTable> {
    let mut cname = ArrayVec::new();
    let _ = cname.try_push(b'a');
    let config = Config {
        ssrc: 0xaa,
        cname,
        extras: ArrayVec::new(),
        capacity: 1_024,
        limit: 1_472,
        sender_bw: 100,
        receiver_bw: 300,
        rate: 8_000,
        clocks: ArrayVec::new(),
        ntp_base: 0,
    };
    match Participant::new(config, 0) {
        Ok(participant) => participant,
        Err(_) => panic!(rt; "the configuration is refused"),
    }
}

/// What a session of a participant came to, and how many words it drew, which were all 0.
pub(crate) fn served<L: Link>(
    link: &mut L,
    participant: &mut Participant<SortedTable>,
    turns: u32,
) -> (End, u32)
    requires turns { (1 ≤ turns) × (turns ≤ 1000000) }
    requires receives { (L.value link.old).failed_receives < 2 ^ 63 }
    requires sends { (L.value link.old).failed_sends < 2 ^ 63 }
{
    let mut rng = Zeros(0);
    let mut buf = [0; 65_535];
    let end = serve(link, participant, &mut rng, turns, &mut buf);
    (end, rng.0)
}

/// The same, of a session that is watched.
pub(crate) fn watched<L: Link, O: Observer>(
    link: &mut L,
    participant: &mut Participant<SortedTable>,
    observer: &mut O,
    turns: u32,
) -> (End, u32)
    requires receives { (L.value link.old).failed_receives < 2 ^ 63 }
    requires sends { (L.value link.old).failed_sends < 2 ^ 63 }
{
    let (mut rng, mut buf) = (Zeros(0), [0; 65_535]);
    let (none, most) = (&mut None::<Until>, u64::from(turns));
    let end = serve_until(link, participant, &mut rng, none, most, observer, &mut buf);
    (end, rng.0)
}
