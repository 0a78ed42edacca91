//! A worker: what it serves from, its open connections, and what it did since it settled. It asks no one.
//!
//! # Choices
//!
//! - The worker keeps on which listener and cluster each connection is open,
//!   and where its chain began, though no answer of its own needs it:
//!   so its connections are those of the world, and not their numbers alone.
//! - They are in a map by number with room for those that the rest of the batch may open, so `accept` takes no
//!   memory. A close takes the last entry to the place of the one that goes; so contracts compare connections number
//!   by number (`SameOpen`), and not lists. As many of a number are compared as there are, so a world that a worker
//!   represents has each number of it once.
//! - A batch and its line numbers speak of the script's lines alone; that a line is an accept or a close is seen in
//!   its event. The answer in a line names the place of a host, and becomes the host once the line is an entry.
//! - What the law takes as the beginning of a batch is a list of connections in the clauses, and no part of the
//!   worker: a closed connection leaves nothing.
//! - `adopt` requires room for 256 connections, which `prepare` ensures. The lines need no memory anew: an empty
//!   batch keeps its room.
//! - A settle tells the numbers of the connections that move, as its answer does.
//!   To which listeners they move the worker finds in the new snapshot, by a look-up of each one's chain.
//! - `Settled` has the version beside the snapshot, for whoever writes the entry; `adopt` doesn't look at it.
#![tactic(auto)]

mod batches;
mod lines;
mod members;
mod workers;

pub use batches::Batch;
pub use lines::{Accepted, BatchLine, Closed, Outcome, Settled};
pub use members::on_of;
pub use workers::Worker;
