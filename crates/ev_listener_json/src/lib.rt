//! Listeners out of JSON: a listener is read whole, or refused by the lowest-numbered rule that it breaks.
//!
//! # Choices
//!
//! - By the own rules the default filter chain is looked for, and not into:
//!   it is refused by V16, whatever is in it, so a wrong form inside it isn't V6.
//!   As Envoy reads it, it is read but for its match.
//! - Rules below V16 are looked for in all chains and all filters: of two chains of which one asks for routes by an
//!   empty name the answer is V2.
//! - A filter serves where it is worth something to serve: so V17 counts the filters that are, and there is no second
//!   test beside it.
//! - What a chain serves and breaks is public (`inspect_chain`), so that a chain can be read by itself without a
//!   change here. `read_chain` is the reader without V16, for chains that are beside others and have a match.
//! - V17 is asked of each chain. Where there isn't exactly one chain, V16 is broken, so this shows only with one.
//! - A `typed_config` that is absent or has no `@type` makes its filter one that is passed over; an `@type` that
//!   isn't text is V6.
//! - A chain without a filter that serves represents a table with no hosts in the definition of the value; it breaks
//!   V16 or V17, so this never shows.
//! - A match with all its criteria is read by `inspect_filter_chain_match`. A range that is none is read as all IPv4
//!   addresses, and a source port that is none as port 0; they break V16 and V6, so this never shows.
//! - Chains that collide are found by look-ups: each chain is compared only with those before it that have a value in
//!   common with it by one criterion, or none in both. Of all criteria but the transport protocol and the type of the
//!   source, which have few values, that one is taken by which there are the fewest.
//! - `source_ports` and `source_type` have readers here, since ev_tree has none for a list of numbers, nor this enum.
//! - By the own rules a TCP proxy's other specifiers (`cluster_header` and the like) break V22 as in a route: it is the
//!   same reader. As Envoy reads it, it has no other specifiers, so they are passed over.
//! - The filters of a chain are gone over once for what they serve and once for the extensions
//!   that they ask for, so each has a definition by itself.
//! - The text of a listener without its chains is that of a copy, made without them:
//!   it takes memory in proportion to its own length.
//! - The chain of an API listener has the text of its connection manager.
#![tactic(auto)]

mod chain_extensions;
mod chain_keys;
mod chain_matches;
mod chain_places;
mod chains;
mod cidr_ranges;
mod collisions;
mod envoy_chains;
mod filters;
mod frames;
mod listener_filters;
mod listeners;
mod managers;
mod objects;
mod server_names;
mod source_criteria;

pub use chain_matches::inspect_filter_chain_match;
pub use chains::{chain_rule_is_least, inspect_chain, read_chain};
pub use collisions::has_collision;
pub use envoy_chains::{ChainsFound, inspect_envoy_chains};
pub use listeners::{listener_rule_is_least, read_listener};
pub use server_names::has_no_name;
