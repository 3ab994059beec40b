//! Reports of the sources of a table, whichever it is.

ghost use Rattle.std.specs.Prelude.{◌≡◌, length};

use crate::session::Session;
use arrayvec::ArrayVec;
use rtcp_members::InlineTable;
use rtcp_report::{Item, Sender, SrPart, write_bye, write_report};
use std::process::Abort;

const SENT: SrPart = SrPart {
    ntp: 0x0000_b705_2000_0000,
    rtp: 10,
    packets: 3,
    octets: 480,
};

/// The participant 000000aa with the CNAME `a`.
fn named_a(sr: Option<SrPart>) -> Sender<'static>
    ensures { length result.cname.now ≡ 1 }
{
    Sender {
        ssrc: 0xaa,
        cname: b"a",
        sr,
    }
}

/// An empty receiver report and the CNAME; the cursor stays.
pub(crate) fn no_news<T: InlineTable + Drop>(rt: &impl Abort) {
    let mut session: Session<T> = Session::new();
    session.packet(rt, 7, 10);
    session.cursor = Some(5);
    let octets = session.report(&named_a(None), 1_472, None);
    assert_eq!(rt;
        octets.as_slice(),
        [
            0x80, 0xc9, 0, 1, 0, 0, 0, 0xaa, 0x81, 0xca, 0, 2, 0, 0, 0, 0xaa, 1, 1, 0x61, 0
        ]
        .as_slice()
    );
    assert_eq!(rt; session.cursor, Some(5));
}

/// A compound replaces what stood in the caller's room.
pub(crate) fn in_place<T: InlineTable + Drop>(rt: &impl Abort) {
    let mut table = T::empty(1_024);
    let mut cursor = None;
    let mut octets = ArrayVec::new();
    write_bye(0xaa, &[0x61; 255], &mut octets);
    assert_eq!(rt; octets.len(), 284);
    write_report(
        &named_a(None),
        &mut table,
        0,
        1_472,
        &mut cursor,
        None,
        &mut octets,
    );
    assert_eq!(rt;
        octets.as_slice(),
        [
            0x80, 0xc9, 0, 1, 0, 0, 0, 0xaa, 0x81, 0xca, 0, 2, 0, 0, 0, 0xaa, 1, 1, 0x61, 0
        ]
        .as_slice()
    );
}

/// 31 blocks in the sender report, and one in a receiver report after it.
pub(crate) fn two_reports<T: InlineTable + Drop>(rt: &impl Abort) {
    let mut session: Session<T> = Session::new();
    session.sources(rt, 32);
    let octets = session.report(&named_a(Some(SENT)), 1_472, None);
    assert_eq!(rt; octets.len(), 816);
    let octets = octets.as_slice();
    let headers = (&octets[..4], &octets[772..776], &octets[804..808]);
    assert_eq!(rt;
        headers,
        (
            [0x9f, 0xc8, 0, 0xc0].as_slice(),
            [0x81, 0xc9, 0, 7].as_slice(),
            [0x81, 0xca, 0, 2].as_slice(),
        )
    );
    assert_eq!(rt;
        (&octets[780..784], session.cursor),
        ([0, 0, 0, 32].as_slice(), Some(32))
    );
}

/// Where one block fits, three sources take turns.
pub(crate) fn one_at_a_time<T: InlineTable + Drop>(rt: &impl Abort) {
    let mut session: Session<T> = Session::new();
    session.sources(rt, 3);
    let mut extra = Item {
        kind: 2,
        text: ArrayVec::new(),
    };
    assert!(rt; extra.text.try_extend_from_slice(&[0x62; 255]).is_ok());
    let sender = Sender {
        ssrc: 0xaa,
        cname: &[0x61; 255],
        sr: Some(SENT),
    };
    for turn in 0..4_u16 {
        for ssrc in 1..4 {
            session.packet(rt, ssrc, turn + 12);
        }
        let octets = session.report(&sender, 576, Some(&extra));
        assert_eq!(rt; octets.len(), 576);
        let expected = turn as u8 % 3 + 1;
        let octets = octets.as_slice();
        assert_eq!(rt;
            (&octets[..2], &octets[28..32], session.cursor),
            (
                [0x81, 0xc8].as_slice(),
                [0, 0, 0, expected].as_slice(),
                Some(expected as u32),
            )
        );
    }
}

/// In the chunk the CNAME stands before the extra item.
pub(crate) fn name_first<T: InlineTable + Drop>(rt: &impl Abort) {
    let mut session: Session<T> = Session::new();
    let mut tool = Item {
        kind: 6,
        text: ArrayVec::new(),
    };
    tool.text.push(b't');
    let octets = session.report(&named_a(None), 1_472, Some(&tool));
    assert_eq!(rt; octets.len(), 24);
    assert_eq!(rt;
        &octets.as_slice()[8..],
        // header and SSRC, CNAME `a`, TOOL `t`, two zeros up to the end of the word
        [
            0x81, 0xca, 0, 3, 0, 0, 0, 0xaa, 1, 1, b'a', 6, 1, b't', 0, 0
        ]
        .as_slice()
    );
}

/// All 40 sources fit.
pub(crate) fn forty<T: InlineTable + Drop>(rt: &impl Abort) {
    let mut session: Session<T> = Session::new();
    session.sources(rt, 40);
    let octets = session.report(&named_a(None), 1_472, None);
    assert_eq!(rt; octets.len(), 988);
    let octets = octets.as_slice();
    assert_eq!(rt;
        (&octets[..4], &octets[752..756]),
        (
            [0x9f, 0xc9, 0, 0xbb].as_slice(),
            [0x89, 0xc9, 0, 0x37].as_slice(),
        )
    );
}

/// Of 70 sources 60 fit, and the next report has the others.
pub(crate) fn seventy<T: InlineTable + Drop>(rt: &impl Abort) {
    let mut session: Session<T> = Session::new();
    session.sources(rt, 70);
    let octets = session.report(&named_a(None), 1_472, None);
    assert_eq!(rt; (octets.len(), session.cursor), (1_468, Some(60)));
    let octets = session.report(&named_a(None), 1_472, None);
    assert_eq!(rt; octets.len(), 260);
    assert_eq!(rt;
        (&octets.as_slice()[..2], session.cursor),
        ([0x8a, 0xc9].as_slice(), Some(70))
    );
}
