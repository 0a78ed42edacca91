//! The generations, clusters and listeners, with their indexes:
//! which are live of a name of a kind, which wait for which name of which kind, which hold an address,
//! and which are due to serve; and what is read of them.
//! A kind is a value, in the keys of the indexes, so that one more kind that is asked for
//! by name is no more than one more value.
//!
//! Each index equals a search of the rows (`IsIndexed`), and a question costs look-ups in place
//! of the search. What shows or lists all goes over the table once and sorts by name.
//! What is said of a world is said of every one that the state represents (`HasRows`).
//!
//! The table of generations: every cluster or listener that was made and isn't destroyed yet,
//! by its number. Numbers rise as rows are added, so a map in the order of numbers has the rows in the order
//! of the machine's list; taking one out costs one look-up and moves no other.
//! A look-up in a call of a manager is counted by a token that takes no bytes (`Steps`),
//! which only `Generations::row` makes rise; `get` counts none, for questions that come without a counter.
//!
//! Health results by generation and host, found without a walk;
//! and of a generation with many hosts which of them may be chosen,
//! so that a result changes one mark and a picture shares the rest.
//!
//! `trim` makes the map of the hosts that stay anew, and so takes memory,
//! in place of going over hosts times rows. Whether a first round is done is answered by counts where it isn't:
//! a generation with fewer results than its assignment has different hosts lacks one,
//! and only where the counts fit are the hosts gone over.
#![tactic(auto)]

mod addresses;
mod due;
mod endpoints;
mod holders;
mod hosts;
mod marked;
mod moved;
mod names;
mod needs;
mod newest;
mod numbers;
mod origins;
mod reads;
mod ready;
mod results;
mod routings;
mod shown;
mod state;
mod steps;
mod table;
mod watched;
mod watches;

pub use addresses::Addresses;
pub use due::Due;
pub use endpoints::Endpoints;
pub use hosts::{assignment, takes_result};
pub use names::{Names, Standing};
pub use needs::{Need, Needs};
pub use newest::live_row_of;
pub use numbers::Numbers;
pub use origins::{KeptPlaces, kept_places, origin_of};
pub use ready::refresh;
pub use state::State;
pub use steps::Steps;
pub use table::Generations;
pub use watches::{Watch, Watches, put_all};
