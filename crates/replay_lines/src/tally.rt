// How many lines came to what.

use replay::Outcome;
use std::alloc::{AllocError, Global};

/// How many lines passed, how many failed, and how many wait for a call that is not built yet.
#[derive(Clone, Copy, Debug, PartialEq, Eq)]
pub(crate) struct Tally {
    pub passed: u64,
    pub failed: u64,
    pub waiting: u64,
}

impl Tally {
    pub(crate) fn new() -> Tally {
        Tally {
            passed: 0,
            failed: 0,
            waiting: 0,
        }
    }

    pub(crate) fn count(&mut self, outcome: &Outcome) {
        let lines = match outcome {
            Outcome::Passed => &mut self.passed,
            Outcome::Failed(_) => &mut self.failed,
            Outcome::Waits => &mut self.waiting,
        };
        *lines = lines.saturating_add(1);
    }

    /// The last line of a run. Lines that wait are told only where there are some.
    pub(crate) fn text(&self, alloc: Global) -> Result<String, AllocError> {
        let Tally {
            passed,
            failed,
            waiting,
        } = self;
        match waiting {
            0 => format!(in alloc; "{passed} passed, {failed} failed\n"),
            _ => format!(in alloc; "{passed} passed, {failed} failed, {waiting} skipped\n"),
        }
    }
}
