//! What a test needs, or the end of the test.

use std::process::Abort;

/// What was made, where no failure is tested. A test that goes on after each failure on its own is dear to prove.
pub fn ok<T, E: Drop>(rt: &impl Abort, made: Result<T, E>) -> T {
    match made {
        Ok(made) => made,
        Err(_) => panic!(rt; "not made"),
    }
}
