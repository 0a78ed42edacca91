//! What the commands that make scripts of scripts share: a resource of clusters that is guarded waits for endpoints
//! by a private name, and a line with them follows each line at which they are due.
//!
//! - What a command guards, which numbers are due and what their endpoints are is said by a type (`Expansion`), which
//!   takes one line after another; all else is written here once.
//! - Each line's length, and the number of lines and bytes, is looked at when the line is written. A line that
//!   doesn't fit is an answer and no error: the text stays as it was, within the limits. But private names are looked
//!   for in all lines first.
//! - A key is a cluster as it was read, its name included, with the names that it refers to. It is found by a look-up
//!   that feeds all of it, so many contents under one name are no slower than as many names.
//!
//! The laws of the texts that commands make of scripts stand here too: each is a script without fault, in which what
//! is guarded waits.
//!
//! # Choices
//!
//! - The laws are of any command's rules. What a command has to bring along are its premises: that its endpoints nest
//!   shallowly enough, and that what it guards is of its key's cluster.
//! - A guarded resource is the cluster of its key either as it stands or with the type STATIC, so one law says of
//!   both how it waits.
//! - A private name is short enough to be a name since no number is written with more than 64 digits: nothing is
//!   asked of how much is guarded.
#![tactic(auto)]

mod editing;
mod expanding;
mod expansion;
mod following;
mod fronts;
mod guarding;
mod keys;
mod laws;
mod numbers;
mod outcome;
mod private;
mod text_so_far;

pub use expanding::expand_with;
pub use expansion::Expansion;
pub use following::Due;
pub use fronts::message_of;
pub use keys::Key;
pub use laws::{lines_follow, lines_wait, resources_wait, texts_are_scripts};
pub use numbers::Numbers;
pub use outcome::ExpandError;
pub use text_so_far::TextSoFar;
