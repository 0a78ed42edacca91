//! Generations that no longer serve: which of them nothing holds any more,
//! and those that are to be dropped outside the lock.
//!
//! # Choices
//!
//! - The retired rows are in an ordered map by number, so dead ones are found from the least. The mark of a drain
//!   timeout is in the row: `retire` takes its memory, and `expire` takes none. A row's name is shared with its
//!   copies.
//! - `expire` goes over the numbers that may wait under its name. That index says too much at times and never too
//!   little: out of memory between a number and its note leaves a number that waits for nothing, and each note is
//!   asked again before it is marked.
//! - Room for reaped rows is made at the reap and not at `retire`: `make_room` for as many as `dead` named, before
//!   anything changes. The list is handed out with its room by a call that takes no memory, so room that `retire`
//!   took would go with it.
//! - A reaping doesn't go over all that drain. What is asked about is too much at times (a close asks about what it
//!   was open on, whatever else is open there), never too little, which is the invariant; so each change first asks,
//!   which may fail out of memory, and then changes what can't fail.
//! - By the rules of format 1 a reaping goes over all that drain: no timer is waited for there, so a list of those
//!   whose timeout came would leave some out. The program makes journals of format 2 alone.
//! - What holds a generation is looked for in this order: a connection, then a picture, then its timer. One that is
//!   set aside under a picture waits for the version of one picture in use alone; where that is let go, another one
//!   may hold it.
//! - `dead` asks by number whether a generation is shown (`Shows`), and the ledger for a count where it isn't:
//!   whoever keeps the pictures looks it up there, and no list of all that is shown is built at each reaping.
//! - `remove` of a number that isn't there does nothing, so it has no condition.
#![tactic(auto)]

mod dead;
mod deferred;
mod drain;
mod notes;
mod shown;
mod waiters;

pub use deferred::Deferred;
pub use drain::Drain;
pub use shown::Shows;
