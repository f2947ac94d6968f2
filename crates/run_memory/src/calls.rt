//! Counting the calls of a reader or a writer.
ghost use Rattle.std.specs.Prelude.{◌≡◌};
ghost use Rattle.base_token.specs.Counts.{one_more};
ghost use Rattle.run_memory.specs.Calls.{fails_at};

/// The calls of a reader or a writer.
#[derive(Clone, Copy)]
pub(super) struct Calls {
    pub(super) made: u64,
    pub(super) failed: u64,
    /// Which call fails, counted from 1; that call alone.
    pub(super) fail_at: Option<u32>,
}

impl Calls {
    pub(super) fn new(fail_at: Option<u32>) -> Calls
        ensures { result ≡ record { made = 0; failed = 0; fail_at = fail_at } }
    {
        Calls {
            made: 0,
            failed: 0,
            fail_at,
        }
    }

    /// Counts one more call, and answers whether it is the one that fails.
    pub(super) fn begin(&mut self) -> bool
        ensures answer { result ≡ fails_at self.old.fail_at (one_more self.old.made) }
        ensures after { self.new ≡ record self.old { made = one_more self.old.made } }
    {
        if self.made < u64::MAX {
            self.made += 1;
        }
        match self.fail_at {
            Some(number) => u64::from(number) == self.made,
            None => false,
        }
    }

    /// Counts one more failure.
    pub(super) fn count_failure(&mut self)
        ensures { self.new ≡ record self.old { failed = one_more self.old.failed } }
    {
        if self.failed < u64::MAX {
            self.failed += 1;
        }
    }
}
