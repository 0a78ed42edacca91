//! Routes out of JSON: a route configuration or a target is read whole, or refused by the lowest-numbered rule that
//! it breaks.
//!
//! # Choices
//!
//! - The loop over the parts of a list (`Inspect`, `inspect_all`) is here and not in ev_tree: a trait can be
//!   written only for a type of the crate that has the one or the other, and the parts are types of ev_types.
//!   ev_listener_json has loops of its own, since what it reads of a filter is no type of its own.
//! - The value of a reading is a total function of the tree, so that a rule can be stated without it: weights that no
//!   pick can be taken of represent the single cluster, a status outside 200 to 599 for 0. It shows only where no
//!   rule is broken.
//! - A target's rules hold in a route only where `route` is given, and a config source's only where what it is in
//!   is.
//! - The same name may occur twice among weighted clusters, and two virtual hosts may have the same name.
//! - A domain is compared by its bytes, ASCII letters as lower case; other letters stay as they are.
//! - `read_routes` and `read_target` have no condition on the value.
//! - Each part has a definition by this project's own rules,
//!   one as Envoy reads it where that differs, and one that takes the profile.
//!   Of a match as Envoy reads it: where several kinds of path, tests of a header or patterns are given,
//!   its value has one of them: that breaks V21. Conditions that aren't decided here are one condition,
//!   since nothing that is read tells them apart.
#![tactic(auto)]

mod conditions;
mod domains;
mod header_matchers;
mod matches;
mod parts;
mod presence;
mod query_matchers;
mod readers;
mod routes;
mod string_matchers;
mod tables;
mod targets;

pub use conditions::inspect_match_in;
pub use domains::repeats_domain;
pub use header_matchers::MatcherKind;
pub use matches::inspect_match;
pub use parts::{Inspect, inspect_all};
pub use presence::{Presence, inspect_fields};
pub use readers::{read_routes, read_target, table_rule_is_least, target_rule_is_least};
pub use routes::{MAX_STATUS, MIN_STATUS};
pub use tables::inspect_table;
pub use targets::{inspect_proxy_target, inspect_target};
