//! The open connections of the workers, and how many are open on each generation.
//!
//! # Choices
//!
//! - The open connections are in an ordered map by worker and number. So a worker's are listed from the least with
//!   no sort and no second index, and the ledger's value is one list: that of the world, by worker and number. A
//!   world's list is in the order of opening, which nothing asks for. The counts are an `indexmap` by number, with no
//!   entry where nothing is open.
//! - A worker's number has 64 bits as a key, so that a worker's connections are those from its first place on and
//!   before the next worker's.
//! - `open` makes room for two counts first, then puts the connection, and counts last, in that room: so it leaves
//!   all as before where memory is refused. What a count could reach is bounded by the number of entries, so no count
//!   overflows.
//! - Each call has its clause over the ledger's own list and one over any list that it represents. The second is what
//!   the registry uses; the first is what `dead` and a worker's settle use.
//! - The index by listener is an ordered set of listener, worker and number, so a listener's connections are a range,
//!   and it has no entry for a listener without any. It is exact, not too large: `open` enters the key first and
//!   takes it out again where the connection has no memory. A cluster's connections aren't in it, for which nothing
//!   asks.
//! - Whose chain a later picture shows again can move to it. So there is a second index, by the generation with which
//!   a connection's chain began: one place more or less in that listener does no harm.
#![tactic(auto)]

mod counts;
mod ledger;
mod members;
mod open_on;
mod places;

pub use ledger::Ledger;
pub use open_on::On;
