//! Scripts made of a seed, to soak the proxy in: the same seed and count give the same script.
//!
//! # Choices
//!
//! - A line's form is drawn first, and then its numbers from left to right,
//!   by a generator that anyone can write again: a script is known by its seed and its count alone.
//!   The definition reads off each number by its place among a line's draws.
//! - The names are few, so that resources meet: clusters wait for endpoints that are refused or late,
//!   listeners share addresses, and workers use numbers of connections again.
#![tactic(auto)]

mod draws;
mod forms;
mod lines;
mod parts;
mod soaking;
mod telling;

pub use soaking::{MAX_SOAK, script};
pub use telling::write_soak;
