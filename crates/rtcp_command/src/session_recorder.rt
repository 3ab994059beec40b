//! What records a session.

use rtcp_engine::{Event, Participant};
use rtcp_guarded::GuardedAnswer;
use rtcp_members::MemberTable;
use rtcp_serve::Observer;
use rtcp_text::record::Recorder;
use std::io::Write;

/// Records each event that the participant is told, as it happens. A record that fails ends with the line `record` in
/// `faults`, and the session goes on.
#[derive(Drop)]
pub struct SessionRecorder<W, F> {
    /// The record.
    pub recorder: Recorder<W>,
    /// Where it is said that the record has failed.
    pub faults: F,
}

impl<W: Write, F: Write> Observer for SessionRecorder<W, F> {
    fn told<T: MemberTable>(
        &mut self,
        event: &Event<'_>,
        _answer: &GuardedAnswer,
        _participant: &Participant<T>,
    ) {
        if self.recorder.record(event).is_err() {
            let _ = self.faults.write_all(b"record\n");
        }
    }

    /// Records nothing: what becomes of a compound is no event.
    fn sent(&mut self, _failed: bool) {}
}
