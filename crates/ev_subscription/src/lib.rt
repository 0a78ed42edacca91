//! What a client of the incremental xDS protocol holds, and what it asks for: the node, the stream, the versions, and
//! the requests of each event.
//!
//! # Choices
//!
//! - Versions are kept in one map in the order of kinds and names, so that those of a kind are listed in the order of
//!   their names without a sort, and one is found by a look-up. The machine's list has all kinds in one order by
//!   name; of one kind both say the same, which is what a subscription represents.
//! - Copies share names and versions.
//! - A change of watched names is given as the names that began and those that ceased to be watched; who watches
//!   knows them, and a walk over all watched names isn't needed. Who has the names before and after as lists gets it
//!   by `NameChange::between`, which puts each list into a set once; so does who has two shorter lists with the same
//!   differences, as ev_state.
//! - `respond` takes what the response mentions, as `verdicts_by_mentions` of ev_verdicts does, so that a caller
//!   makes these sets once a response.
//! - `forget_unwatched` is given the names that ceased to be watched and takes no memory; that no other unwatched
//!   name has a version is the caller's to know (`AreEnded`).
//! - The reply's message is made here, with the requests.
#![tactic(auto)]

mod changes;
mod keys;
mod kinds;
mod replies;
mod requests;
mod responses;
mod subscription;
mod versions;

pub use changes::{NameChange, WatchedNames};
pub use kinds::{kinds_before, kinds_behind};
pub use replies::reply_of;
pub use subscription::Subscription;
