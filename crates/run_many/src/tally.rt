//! How many files a run met, and what became of them.

/// The status where a text is refused, or a file would change that is not to.
pub(crate) const REFUSED: u8 = 1;

/// The status of a command line that is refused.
pub(crate) const REFUSED_WORDS: u8 = 2;

/// The status where something outside the texts kept a run from its end.
pub(crate) const FAILED: u8 = 3;

/// How many files a run met, and of these how many changed or would change, were refused, and failed.
#[derive(Clone, Copy)]
pub(crate) struct Tally {
    pub(crate) files: u64,
    pub(crate) changed: u64,
    pub(crate) refused: u64,
    pub(crate) failed: u64,
}

impl Tally {
    /// None was met yet.
    pub(crate) const NONE: Tally = Tally {
        files: 0,
        changed: 0,
        refused: 0,
        failed: 0,
    };

    /// Counts a file that changed or would change.
    pub(crate) fn change(&mut self) {
        self.changed = self.changed.saturating_add(1);
    }

    /// Counts one that was refused.
    pub(crate) fn refuse(&mut self) {
        self.refused = self.refused.saturating_add(1);
    }

    /// Counts one that failed.
    pub(crate) fn fail(&mut self) {
        self.failed = self.failed.saturating_add(1);
    }

    /// The status of the run, where a file that would change is refused or not.
    pub(crate) fn status(&self, refuses_change: bool) -> u8 {
        if self.failed > 0 {
            FAILED
        } else if self.refused > 0 || (refuses_change && self.changed > 0) {
            REFUSED
        } else {
            0
        }
    }
}
