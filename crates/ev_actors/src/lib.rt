//! The actors of a script on one thread: a replay in one pass over the script's lines.
//!
//! One pass is defined over one list of all accepts and closes that wait,
//! in the order of their lines (`one_pass`); that it gives the order of a replay is a law (`replays_in_one_pass`).
//! `replay` builds on a trait that asks for what a replay needs, and no more:
//! its `apply` takes events of the main side alone, so an accept,
//! a close or a settle reaches a journal only with its whole batch.
//! A world knows nothing of a batch that waits, so what is kept at each line is that every worker works
//! in the journal's world (`WorksIn`).
//! A worker settles by `prepare`, `apply_batch` and `adopt`, in this order,
//! so that running out of memory leaves nothing half done.
#![tactic(auto)]

mod journaled;
mod passes;
mod replays;
mod steps;

pub use journaled::Journaled;
pub use passes::replays_in_one_pass;
pub use replays::replay;
pub use steps::join;
