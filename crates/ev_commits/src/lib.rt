//! The commits of a threaded run: a journal at a gate, and one turn of an actor with it.
//!
//! # Choices
//!
//! - The commits are a function of the journal and stored nowhere:
//!   a batch goes with the settle that ends it, each other entry by itself.
//!   In a run no batch is broken, so the commits' entries are the journal.
//! - What an actor knows is a fact about the journal that its pass has seen.
//!   Others' entries go between that and the turn, and the fact is taken over them:
//!   none of them is of its seat, and each is answered as the machine answers it.
//! - Rows that were reaped leave the turn and are dropped after it. A worker takes its memory before the turn.
#![tactic(auto)]

mod acts;
mod kept;
mod turns;

pub use kept::{Began, Kept};
pub use turns::{enter, settle};
