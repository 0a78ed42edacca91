//! Clusters and assignments out of JSON: a resource is read whole,
//! or refused by the lowest-numbered rule that it breaks.
//!
//! # Choices
//!
//! - Where some field has the wrong form, what the rules from V7 on say of it doesn't show, since V6 is lower. They
//!   are defined over the tree to look into, which has no fields where nothing is given: a config source of a wrong
//!   form counts as one without `ads` and `self`.
//! - V3 isn't looked at where `name` has the wrong form.
//! - The sum of the weights of a group has the limit of the sum of a target's weights, the same constant.
//! - V9 and V10 are both broken at a cluster of another type than EDS with a bad config source: V9 is the answer.
//! - A type of the wrong form counts as STATIC for the question whether `load_assignment` is read. It doesn't show
//!   either, since V6 is broken already, and V2 and V3 don't depend on it.
//! - Transport sockets are read as Envoy reads them alone, for the secrets that a cluster waits for.
#![tactic(auto)]

mod assignments;
mod clusters;
mod groups;
mod hosts;
mod parts;
mod sockets;
mod tally;

pub use assignments::{assignment_rule_is_least, read_assignment};
pub use clusters::{cluster_rule_is_least, read_cluster};
