//! Observers of a session.

use super::memory_link::{Coming, MemoryLink};
use super::reader::reads;
use super::session::{participant, watched};
use super::watch::Watch;
use super::*;
use rtcp_engine::Event;
use rtcp_guarded::GuardedAnswer;
use rtcp_members::MemberTable;
use rtcp_serve::Observer;
use std::cell::Cell;
use std::rc::Rc;

/// Counts what it is told, and how often the participant had as many members as the answer says.
#[derive(Drop)]
pub(crate) struct Counts {
    pub(crate) told: usize,
    pub(crate) agreed: usize,
    /// How many sends it was told of, and how many of them failed.
    sent: (usize, usize),
}

impl Counts {
    pub(crate) fn new() -> Counts {
        Counts {
            told: 0,
            agreed: 0,
            sent: (0, 0),
        }
    }
}

impl Observer for Counts {
    fn told<T: MemberTable>(
        &mut self,
        _event: &Event<'_>,
        answer: &GuardedAnswer,
        participant: &Participant<T>,
    ) {
        self.told = self.told.saturating_add(1);
        if let Ok(step) = answer {
            if step.members == participant.members() {
                self.agreed = self.agreed.saturating_add(1);
            }
        }
    }

    fn sent(&mut self, failed: bool) {
        let (all, failures) = self.sent;
        let failures = failures.saturating_add(usize::from(failed));
        self.sent = (all.saturating_add(1), failures);
    }
}

/// A participant that gains two members, refuses a datagram and leaves. Each observer is told.
#[test]
fn observers_see_the_participant(rt: HostRuntime) -> Result<(), Fail> {
    let coming = [
        Coming::Named(7),
        Coming::Nothing,
        Coming::Datagram(1, &[]),
        Coming::Nothing,
        Coming::Named(8),
    ];
    let made = Rc::new(rt.alloc(), Cell::new(0))?;
    let mut link = MemoryLink::new(rt.alloc(), &[0], &coming, &[], 40, &made)?;
    let (first, second) = (Counts::new(), Counts::new());
    let watch = Watch::new(rt.alloc(), 40, made.clone()?);
    let mut observer = (((first, Some(second)), None::<Counts>), (watch, ()));
    let (end, _) = watched(&mut link, &mut participant(&rt), &mut observer, 3);
    assert_eq!(rt; (end.cause, end.received, end.refused), (Cause::Done, 3, 1));
    // Three datagrams, three ticks and the leave.
    let ((counts, _), (watch, ())) = observer;
    let (first, second) = counts;
    assert_eq!(rt; (first.told, first.agreed), (7, 6));
    let second = second.map(|counts| (counts.told, counts.agreed));
    assert_eq!(rt; second, Some((7, 6)));
    assert_eq!(rt; watch.tellings.len(), 7);
    let cause = reads(&rt, rt.alloc(), (&link, &watch), participant(&rt), 3);
    assert_eq!(rt; cause, Cause::Done);
    Ok(())
}

/// A report that the link fails to send, and the BYE: both observers are told of both.
#[test]
fn observers_are_told_of_sends(rt: HostRuntime) -> Result<(), Fail> {
    let moments = [0, 1_026_037, 500_000, 2_000_000];
    let made = Rc::new(rt.alloc(), Cell::new(0))?;
    let mut link = MemoryLink::new(rt.alloc(), &moments, &[], &[0], 40, &made)?;
    let mut observer = (Counts::new(), Some(Counts::new()));
    let (end, _) = watched(&mut link, &mut participant(&rt), &mut observer, 2);
    assert_eq!(rt; (end.sent, end.send_failures), (2, 1));
    let (first, second) = observer;
    assert_eq!(rt; first.sent, (2, 1));
    assert_eq!(rt; second.map(|counts| counts.sent), Some((2, 1)));
    Ok(())
}
