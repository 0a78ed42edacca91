//! Inputs of an audit: a script with a journal after it, by their bytes.
//!
//! # Choices
//!
//! - The readers of the script and of the journal's rows are below and know nothing
//!   of each other. Here their answers are joined, to what is said of the bytes of the whole input:
//!   its first fault, or its parts.
//! - Kind 9 is found at a line by the text of that line and how many lines of the journal are before it,
//!   and not by what was read so far. So the fault of a line is said without the lines between,
//!   which have faults of their own where they are wrong.
//! - At the end of an input a last line that isn't closed and is out of its place goes before the end
//!   line that is missing: both have one place and one kind, and which of the two is reported is said
//!   with the line (`IsToldWithJournal`).
//! - A journal that is missing and one without its end line are one fact: no journal in the input has its end line.
#![tactic(auto)]

mod audited;

pub use audited::{Audited, read_audited};
