//! A reading function on tokens, and small programs that it reads.
