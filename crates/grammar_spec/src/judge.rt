//! Early errors: a walk over a finished tree.
