//! The registry: what is known, and the journal of what was done. Each entry is one step of the flat machine.
//!
//! What is known is one value beside the journal (ev_proxy), which an event changes in place.
//! It counts as lost from before an event until the journal has its entry;
//! where the event runs out of memory it stays lost, and the next event makes it anew by the journal's events,
//! each of which could be made where it was made (`HaveStepped`).
//! So nothing is copied in the ordinary case, and 'as before' must hold of the journal alone.
//! The last picture and the rows that wait to be dropped are kept beside the journal, and are never lost.
//! Contracts see whether it is lost: exactly where the last event was cut off.
//! The numbers of generations have to suffice for an event's resources where it brings some,
//! so an actor that brings none needn't know of another's.
//! A worker's batch and its settle are appended to the journal at once.
#![tactic(auto)]

mod batches;
mod entries;
mod journal;
mod past;
mod sending;
mod steps;
mod views;

pub use journal::Registry;
pub use sending::registry_is_sendable;
pub use views::{View, ViewRow};
