//! Compounds in the caller's room, over any table.

use super::*;

/// What stands in the room before.
const BEFORE: [u8; 1_472] = [9; 1_472];

/// The BYE of the participant with SSRC 000000bb.
const BYE_OF_BB: [u8; 28] = [
    0x80, 0xc9, 0x00, 0x01, 0x00, 0x00, 0x00, 0xbb, 0x81, 0xca, 0x00, 0x02, 0x00, 0x00, 0x00, 0xbb,
    0x01, 0x01, 0x61, 0x00, 0x81, 0xcb, 0x00, 0x01, 0x00, 0x00, 0x00, 0xbb,
];

/// Whether a compound stands at the start of the room, and what stood there before after it.
fn holds(room: &[u8; 1_472], compound: &[u8]) -> bool {
    match room.split_at_checked(compound.len()) {
        Some((first, rest)) => first == compound && rest.iter().all(|octet| *octet == 9),
        None => false,
    }
}

/// An RTP packet of a source below 256, with a sequence number of 1.
fn packet_of(ssrc: u8) -> [u8; 12] {
    [0x80, 0, 0, 1, 0, 0, 0, 0, 0, 0, 0, ssrc]
}

/// What is told where nobody sends, the identifier is the first one, and the others have the roles that they had.
fn told(out: Option<Written>, members: u32, entries: u32, next: Option<u64>) -> WrittenStep {
    WrittenStep {
        others_changed: false,
        changed: None,
        out,
        standing: Standing {
            members,
            senders: 0,
            entries,
            ssrc: 0xaa,
            next,
        },
    }
}

/// The same where another source has another role.
fn moved(mut told: WrittenStep) -> WrittenStep {
    told.others_changed = true;
    told
}

/// The report stands at the start of the room, and a tick without one leaves that.
pub(crate) fn report_in_place<T: InlineTable + Drop>(rt: &impl Abort) {
    let mut participant = Session::<T>::usual(rt).participant;
    let mut octets = BEFORE;
    let early = participant.tick_into(1_026_036, 0, 0, &mut octets);
    assert!(rt; early == Ok(told(None, 1, 0, Some(1_026_037))));
    assert!(rt; holds(&octets, &[]));
    let due = participant.tick_into(1_026_037, 0, 0, &mut octets);
    let report = Written {
        kind: OutKind::Report,
        size: REPORT.len(),
    };
    assert!(rt; due == Ok(told(Some(report), 1, 0, Some(3_078_111))));
    assert!(rt; holds(&octets, &REPORT));
}

/// So do the BYE of an identifier that is given up, and the BYE of a leave.
pub(crate) fn byes_in_place<T: InlineTable + Drop>(rt: &impl Abort) {
    let mut participant = Session::<T>::usual(rt).participant;
    let mut octets = BEFORE;
    let bye = Written {
        kind: OutKind::Bye,
        size: 28,
    };
    assert!(rt; participant.sent_rtp_into(0, 0, 160, &mut octets).is_ok());
    assert!(rt; holds(&octets, &[]));
    match participant.arrive_rtcp_into(0, 7, 0xbb, &OURS, &mut octets) {
        Ok(told) => assert!(rt; (told.out, told.changed) == (Some(bye), Some(0xbb))),
        Err(_) => panic!(rt; "the call is refused"),
    }
    assert!(rt; holds(&octets, &BYE));
    assert!(rt; participant.sent_rtp_into(0, 0, 160, &mut octets).is_ok());
    let left = participant.leave_into(0, 0, &mut octets);
    let mut gone = told(Some(bye), 0, 0, None);
    gone.standing.ssrc = 0xbb;
    assert!(rt; left == Ok(gone));
    assert!(rt; holds(&octets, &BYE_OF_BB));
}

/// A call that is refused leaves the room alone, and so does one that has no compound.
pub(crate) fn left_alone<T: InlineTable + Drop>(rt: &impl Abort) {
    let mut participant = Session::<T>::usual(rt).participant;
    let mut octets = BEFORE;
    let named = [
        0x80, 0xc9, 0x00, 0x01, 0x00, 0x00, 0x00, 0x07, 0x81, 0xca, 0x00, 0x02, 0x00, 0x00, 0x00,
        0x07, 0x01, 0x01, 0x61, 0x00,
    ];
    let came = participant.arrive_rtcp_into(5, 7, 0, &named, &mut octets);
    assert!(rt; came == Ok(moved(told(None, 2, 1, Some(1_026_037)))));
    let again = participant.arrive_rtcp_into(5, 7, 0, &named, &mut octets);
    assert!(rt; again == Ok(told(None, 2, 1, Some(1_026_037))));
    let packet = packet_of(9);
    let came = participant.arrive_rtp_into(5, 7, 0, &packet, &mut octets);
    assert!(rt; came == Ok(told(None, 2, 2, Some(1_026_037))));
    let again = participant.arrive_rtp_into(5, 7, 0, &packet, &mut octets);
    assert!(rt; again == Ok(told(None, 2, 2, Some(1_026_037))));
    let short = [0x80, 0, 0, 1, 0, 0, 0, 0, 0, 0, 0];
    let short = participant.arrive_rtp_into(5, 7, 0, &short, &mut octets);
    assert!(rt; short == Err(Refusal::Rtp(RtpFault::Short)));
    assert!(rt;
        participant.arrive_rtcp_into(4, 7, 0, &named, &mut octets) == Err(Refusal::Backwards)
    );
    assert!(rt; participant.tick_into(4, 0, 0, &mut octets) == Err(Refusal::Backwards));
    assert!(rt; participant.leave_into(4, 0, &mut octets) == Err(Refusal::Backwards));
    assert!(rt;
        participant.forget_into(5, 7, &mut octets) == Ok(moved(told(None, 1, 1, Some(1_026_037))))
    );
    let left = participant.leave_into(5, 0, &mut octets);
    assert!(rt; left == Ok(told(None, 0, 0, None)));
    assert!(rt; participant.tick_into(5, 0, 0, &mut octets) == Err(Refusal::Left));
    assert!(rt; holds(&octets, &[]));
}

/// The own SSRC is changed, or refused for it, only after every refusal that comes before that.
pub(crate) fn changed_last<T: InlineTable + Drop>(rt: &impl Abort) {
    let mut participant = Session::<T>::usual(rt).participant;
    let mut octets = BEFORE;
    let ours = packet_of(0xaa);
    assert!(rt; participant.sent_rtp_into(5, 0, 160, &mut octets).is_ok());
    let backwards = participant.arrive_rtcp_into(4, 7, 0xbb, &OURS, &mut octets);
    assert!(rt; backwards == Err(Refusal::Backwards));
    let backwards = participant.arrive_rtp_into(4, 7, 0xbb, &ours, &mut octets);
    assert!(rt; backwards == Err(Refusal::Backwards));
    let short = participant.arrive_rtp_into(5, 7, 0xbb, &[0x80], &mut octets);
    assert!(rt; short == Err(Refusal::Rtp(RtpFault::Short)));
    assert!(rt; participant.standing().ssrc == 0xaa && holds(&octets, &[]));
    assert!(rt;
        participant
            .arrive_rtp_into(5, 7, 0xbb, &ours, &mut octets)
            .is_ok()
    );
    assert!(rt; participant.standing().ssrc == 0xbb && holds(&octets, &BYE));
    let ours = packet_of(0xbb);
    let listed = participant.arrive_rtp_into(5, 7, 0xcc, &ours, &mut octets);
    assert!(rt; listed == Err(Refusal::OwnSsrc));
    assert!(rt;
        participant
            .arrive_rtp_into(5, 8, 0xcc, &ours, &mut octets)
            .is_ok()
    );
    assert!(rt; participant.standing().ssrc == 0xcc);
    assert!(rt; participant.leave_into(5, 0, &mut octets).is_ok());
    let gone = participant.arrive_rtp_into(5, 9, 0xdd, &packet_of(0xcc), &mut octets);
    assert!(rt; gone == Err(Refusal::Left));
}
