//! What a journal counts up to: responses by whether they were acknowledged, connections, and destroyed generations.
//!
//! # Choices
//!
//! - Counts have 64 bits, and each is exact. A journal in memory has fewer entries than 2^64.
//!   The lists of numbers of its reapings could be longer together, as far as types say:
//!   then there is no room for the count, and it is out of memory.
//! - An accept is recognized by its answer, and not by its event: no other event is answered so in a run.
#![tactic(auto)]

mod counting;
mod counts;

pub use counting::tally;
pub use counts::Tally;
