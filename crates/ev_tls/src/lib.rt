//! Clusters that wait for their secrets: a script in which each cluster that names remote secrets waits for endpoints
//! by a private name, which are sent when all of its secrets, and its own endpoints, were received.
//!
//! - A cluster names secrets by its transport socket alone, and only where that is the context of TLS towards
//!   upstream hosts. A member of a wrong form, or in both spellings, names nothing, and the others still count.
//! - As Envoy reads a script its clusters wait for their secrets by themselves: nothing is guarded there, and no
//!   secret is read.
//! - Secrets come on an open stream alone, by a resource or a removed name, whatever else is in it.
//! - A line costs look-ups by what it says and what is sent after it, however much is guarded: each place that isn't
//!   complete is under the first that it still waits for, and goes on from where it was when that comes. The complete
//!   ones are in a set, and under the endpoints that they ask for.
//!
//! `seal` is the command: of the trees of a script's lines the text of a script in which clusters wait for their
//! secrets. With it stands the law that what is accepted in its runs is sealed.
//!
//! # Choices
//!
//! - The text is made by `expand`; that it is a script is a law of `ev_expand`, whose premises are proved here:
//!   trees that were read are lines of a script, and the endpoints that are sent were in such a line at least as deep.
#![tactic(auto)]

mod awaited;
mod complete;
mod hearing;
mod known;
mod laws;
mod looking;
mod names;
mod places;
mod references;
mod sealing;
mod secrets;
mod told;
mod values;
mod waiting;

pub use awaited::Awaited;
pub use laws::accepts_are_sealed;
pub use sealing::seal;
pub use secrets::expand;
