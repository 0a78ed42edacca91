//! What managers look things up by: the names that a response mentions; texts and names of kinds as keys; and what is
//! seen of a live generation.
#![tactic(auto)]

mod keys;
mod kind_keys;
mod lives;
mod mentions;

pub use keys::NameKey;
pub use kind_keys::{Key, KeyText};
pub use lives::LiveRow;
pub use mentions::Mentions;
