//! The faults that a source of tokens recorded.
ghost use Rattle.std.specs.Prelude.{◌≡◌, ◌<◌, ◌≤◌, ◌+◌, [], ◌∷◌, ◌++◌, vec_capacity, vec_len, IfOk, OnErr, OnOk};

use base_token::Error;
use std::alloc::{AllocError, Global};

/// Faults that were recorded, and faults of modules that wait until the text is known to be one.
/// There is always room for those that wait among those that were recorded.
#[derive(Debug, Drop)]
pub struct FaultLog {
    alloc: Global,
    recorded: Vec<Error>,
    waiting: Vec<Error>,
    ghost room: { 0 < vec_len recorded → vec_len recorded + vec_len waiting ≤ vec_capacity recorded },
}

impl FaultLog {
    ghost use Rattle.lex_source.specs.Faults.{recorded_in, waiting_in};

    /// No faults.
    pub fn new(alloc: Global) -> FaultLog
        ensures recorded { recorded_in result ≡ [] }
        ensures waiting { waiting_in result ≡ [] }
    {
        FaultLog {
            alloc,
            recorded: Vec::new(alloc),
            waiting: Vec::new(alloc),
        }
    }

    /// Records a fault.
    ///
    /// # Errors
    ///
    /// Want of memory. Nothing changes then.
    pub fn add(&mut self, error: Error) -> Result<(), AllocError>
        ensures recorded { OnOk result (recorded_in self.new ≡ recorded_in self.old ++ error ∷ []) }
        ensures unchanged { OnErr result (recorded_in self.new ≡ recorded_in self.old) }
        ensures waiting { waiting_in self.new ≡ waiting_in self.old }
    {
        self.recorded.reserve(self.waiting.len() + 1)?;
        self.recorded.push(error)?;
        Ok(())
    }

    /// Has a fault of modules wait.
    ///
    /// # Errors
    ///
    /// Want of memory. Nothing changes then.
    pub fn add_waiting(&mut self, error: Error) -> Result<(), AllocError>
        ensures waiting { OnOk result (waiting_in self.new ≡ waiting_in self.old ++ error ∷ []) }
        ensures unchanged { OnErr result (waiting_in self.new ≡ waiting_in self.old) }
        ensures recorded { recorded_in self.new ≡ recorded_in self.old }
    {
        self.recorded.reserve(self.waiting.len() + 1)?;
        self.waiting.push(error)?;
        Ok(())
    }

    /// The text is a module: those that wait are recorded, after the others.
    pub fn turn_module(&mut self)
        ensures recorded { recorded_in self.new ≡ recorded_in self.old ++ waiting_in self.old }
        ensures waiting { waiting_in self.new ≡ [] }
    {
        if self.recorded.is_empty() {
            std::mem::swap(&mut self.recorded, &mut self.waiting);
        } else {
            match self.recorded.append(&mut self.waiting) {
                Ok(()) => {}
                Err(_) => unreachable!(),
            }
        }
    }

    /// Takes those that were recorded away. It takes no memory.
    pub fn take(&mut self) -> Vec<Error>
        ensures answer { result.items ≡ recorded_in self.old }
        ensures recorded { recorded_in self.new ≡ [] }
        ensures waiting { waiting_in self.new ≡ waiting_in self.old }
    {
        std::mem::replace(&mut self.recorded, Vec::new(self.alloc))
    }

    /// The same faults once more.
    ///
    /// # Errors
    ///
    /// Want of memory.
    pub fn try_clone(&self) -> Result<FaultLog, AllocError>
        ensures recorded { IfOk result (λ f. recorded_in f ≡ recorded_in self.now) }
        ensures waiting { IfOk result (λ f. waiting_in f ≡ waiting_in self.now) }
    {
        let waiting = Vec::from_slice(self.alloc, self.waiting.as_slice())?;
        let mut recorded = Vec::from_slice(self.alloc, self.recorded.as_slice())?;
        recorded.reserve(waiting.len())?;
        Ok(FaultLog {
            alloc: self.alloc,
            recorded,
            waiting,
        })
    }
}
