//! Tests of the printer: trees built by hand, printed, with comments in their places.

mod comments;
mod entries;
mod placed;
mod printed;
