//! The listener and the filter chain that take a connection: which listener a redirected connection is handed over to,
//! and how the chains of a listener are narrowed for it by nine criteria.
//!
//! # Choices
//!
//! - Chains are narrowed without a list of those that are left, so an ask takes no memory: of each criterion is kept
//!   what the chains that are left have to ask for, and a chain is left that meets them all. Each criterion is a walk
//!   over the chains for each value that the connection brings; the ranges are walked only where a chain that is left
//!   asks for one.
//! - A choice at a listener is made here of its chain and of the way behind it, which the snapshot knows.
#![tactic(auto)]

mod choices;
mod criteria;
mod criterion;
mod takers;

pub use choices::{choose_on, leave_undecided};
pub use criteria::Criteria;
pub use takers::taker_of;
