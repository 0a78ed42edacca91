//! Warming: what changes the generations of clusters and of listeners. A generation that warms waits, as an init
//! manager of Envoy for its init targets, for a word on each name that it depends on and for a first health result of
//! each of its hosts; then it serves in place of the one before it. A `Manager` takes responses, arrivals, health
//! results and ends; promotion and then forgetting follow each of them. The kind is a value, so that clusters and
//! listeners share all of it.
//!
//! Whoever holds a manager reads its `State` (ev_indexes), whose fields are public so that a contract above can say
//! what stays. A call is a series of steps, each of which may be refused memory, and reserves none beforehand: after
//! running out of memory its holder makes the manager anew, out of the journal.
#![tactic(auto)]

mod arrivals;
mod chains;
mod changes;
mod forgetting;
mod health;
mod manager;
mod removal;
mod response;

pub use changes::Promoted;
pub use manager::Manager;
