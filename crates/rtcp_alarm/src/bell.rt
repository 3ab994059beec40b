//! What ends a session once an alarm was raised.

ghost use Rattle.std.specs.Prelude.{None};

use rtcp_serve::{Ending, Until};
use std::cell::Cell;

/// What ends a session once an alarm was raised: a watcher rings it, and a shared reference to it is an [`Ending`]. No
/// clause says what it holds, so what was raised is asked of the watcher.
#[derive(Drop)]
pub struct Bell {
    /// The moment at which it rang, if it did.
    rung: Cell<Option<u64>>,
}

impl Bell {
    /// A bell that has not rung.
    pub fn new() -> Bell {
        Bell {
            rung: Cell::new(None),
        }
    }

    /// Notes that it rang at this moment.
    pub(crate) fn ring(&self, moment: u64) {
        self.rung.set(Some(moment));
    }
}

/// Ends the session once the bell rang, and then waits for the BYE as long again as the session lasted.
impl Ending for &Bell {
    ghost known = { λ bell has_left at. None };

    fn is_over(&mut self, moment: u64, has_left: bool) -> bool {
        match self.rung.get() {
            Some(rung) => Until { moment: rung }.is_over(moment, has_left),
            None => false,
        }
    }
}
