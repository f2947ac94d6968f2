//! Standard output.

use std::io;

/// Standard output, and how it failed first.
#[derive(Drop)]
pub(crate) struct Output {
    failure: Option<io::Error>,
}

impl Output {
    /// Nothing was written yet.
    pub(crate) fn new() -> Output {
        Output { failure: None }
    }

    /// Writes bytes. Once that failed nothing more is written.
    pub(crate) fn write(&mut self, rt: &HostRuntime, bytes: &[u8]) {
        if self.failure.is_none()
            && let Err(error) = rt.write_all(bytes)
        {
            self.failure = Some(error);
        }
    }

    /// How it failed, where it did.
    pub(crate) fn failure(&self) -> Option<&io::Error> {
        self.failure.as_ref()
    }
}
