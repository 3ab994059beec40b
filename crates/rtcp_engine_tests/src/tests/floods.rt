//! Reports not too soon, over any table, whoever joins and leaves (RFC 3550, 6.3.4, 6.3.6).

use super::*;

/// How many join and leave.
const CROWD: u16 = 1_000;

/// A named compound of one of the crowd, or one in which it leaves.
fn of_the_crowd(number: u16, leaves: bool) -> ArrayVec<u8, 20> {
    let [high, low] = number.to_be_bytes();
    let mut octets = ArrayVec::new();
    let report = [0x80, 0xc9, 0, 1, 1, 0, high, low];
    let name = [0x81, 0xca, 0, 2, 1, 0, high, low, 1, 1, 0x61, 0];
    let goodbye = [0x81, 0xcb, 0, 1, 1, 0, high, low];
    let _ = octets.try_extend_from_slice(&report);
    let _ = octets.try_extend_from_slice(if leaves { &goodbye } else { &name });
    octets
}

/// The moments of the reports.
#[derive(Drop)]
struct Reports {
    newest: Option<u64>,
    count: u32,
}

impl Reports {
    /// A tick with words of 0. Its report, if there is one, keeps its distance from the one before it.
    fn tick<T: MemberTable>(&mut self, rt: &impl Abort, session: &mut Session<T>, now: u64) {
        match session.call(Call::Tick(now, 0, 0)) {
            Ok(Step { out: None, .. }) => {}
            Ok(Step { out: Some(out), .. }) => {
                assert!(rt; out.kind == OutKind::Report);
                let newest = self.newest.unwrap_or(0);
                assert!(rt; self.count == 0 || now.saturating_sub(newest) >= 2_052_074);
                self.newest = Some(now);
                self.count = self.count.saturating_add(1);
            }
            Err(_) => panic!(rt; "the tick is refused"),
        }
    }
}

/// A crowd joins at once, and its members leave one after another. They bring the reports no closer together than
/// 2,052,074 microseconds, and once they are gone the reports come at that pace: a tick each 10,000 microseconds finds
/// one due each 2,060,000. (The count and the last moment are those of the model in compare/model/participant.py.)
pub(crate) fn crowd_leaves<T: InlineTable + Drop>(rt: &impl Abort) {
    let mut session = Session::<T>::usual(rt);
    for number in 0..CROWD {
        let named = of_the_crowd(number, false);
        let answer = session.participant.arrive_rtcp(0, 1, 0, named.as_slice());
        assert!(rt; answer.is_ok());
    }
    assert_eq!(rt; session.participant.members(), 1_001);
    let mut reports = Reports {
        newest: None,
        count: 0,
    };
    for number in 0..CROWD {
        let now = 2_000_000 + 1_000 * u64::from(number);
        let goodbye = of_the_crowd(number, true);
        let answer = session
            .participant
            .arrive_rtcp(now, 1, 0, goodbye.as_slice());
        assert!(rt; answer.is_ok());
        reports.tick(rt, &mut session, now);
    }
    assert_eq!(rt; reports.count, 0);
    for turn in 1..=3_000u32 {
        reports.tick(rt, &mut session, 2_999_000 + 10_000 * u64::from(turn));
    }
    assert_eq!(rt; reports.count, 15);
    assert!(rt; reports.newest == Some(32_859_000));
    assert_eq!(rt; session.participant.members(), 1);
}
