//! A file that ends a session.

ghost use Rattle.std.specs.Prelude.{None};

use rtcp_serve::{Ending, Until};
use std::fs::{self, Files};

/// How long the file is not looked for after a look, in microseconds.
const PAUSE: u64 = 250_000;

/// Ends a session once there is a file of this name, by whatever kind. It is looked for at most four times a second.
/// After the leave the BYE is waited for as long again as the session lasted, but no longer if only now it is there.
#[derive(Drop)]
pub(crate) struct StopFile<'r, R> {
    runtime: &'r R,
    file: String,
    /// The moment from which on it is looked for again.
    next_look: u64,
    /// The end of the session, once it was there.
    found: Option<Until>,
}

impl<'r, R: Files> StopFile<'r, R> {
    /// The end by the file of this name, if one is given.
    pub(crate) fn of(runtime: &'r R, file: Option<String>) -> Option<StopFile<'r, R>> {
        match file {
            Some(file) => Some(StopFile {
                runtime,
                file,
                next_look: 0,
                found: None,
            }),
            None => None,
        }
    }

    /// Whether the file is there, unless it was looked for shortly before this moment.
    fn is_seen(&mut self, moment: u64) -> bool {
        if moment < self.next_look {
            return false;
        }
        self.next_look = moment.saturating_add(PAUSE);
        fs::exists(self.runtime, self.file.as_str()).unwrap_or(false)
    }
}

impl<'r, R: Files> Ending for StopFile<'r, R> {
    ghost known = { λ stop has_left at. None };

    fn is_over(&mut self, moment: u64, has_left: bool) -> bool {
        if self.found.is_none() && self.is_seen(moment) {
            let moment = if has_left { moment / 2 } else { moment };
            self.found = Some(Until { moment });
        }
        self.found.is_over(moment, has_left)
    }
}
