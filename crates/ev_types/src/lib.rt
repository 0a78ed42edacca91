//! The types that the crates of warmgate share: plain structs and enums, texts and lists.
//! A type that holds text or lists has `copy`, and a copy equals its source.
//!
//! # Choices
//!
//! - Contents are shared: the variants of `Content` and `Serve::Inline` hold `Shared<..>`, a count over one value, so
//!   a copy of a content takes no memory. Clauses and definitions see what is held: the types that definitions match
//!   on are as before. `share` can be refused, since the kit's `Arc` stops at 2^63 - 1 owners and says so; so it
//!   returns a `Result`, as `copy` does.
//! - Names and texts are copied, not shared: most are short, and a shared one would take two allocations to make.
//!   The text of a resource's body may be long, but it stands in a content, which is shared as a whole.
//! - What a filter chain asks for is shared between its listener and the pictures that show it.
//! - `copy` is a trait, `TryCopy`, so that lists, pairs and options copy what they hold.
//! - Equality of contents is a test by cases in the definitions; that it holds of equal values alone is a lemma for
//!   each type. It isn't derived. A derive of `PartialEq` on `PathMatch`, whose variants hide no field, was tried:
//!   the definition that it makes (`eq-value`) can be imported, but its type is a name that can't be unfolded
//!   (`eq-type PathMatch`), so no definition can apply it to two values (`path_match_same a b = eq-value a b` is
//!   refused: not a function). A definition of its own beside the derive would need a lemma that both are the same,
//!   in place of the impl.
//! - `Kind` compares by `kind_same` for the same reason, so that clauses of a map with keys of a kind and a name can
//!   say which test finds a key.
//! - A map keyed by `Name`, `Host`, `Gen`, a pair of a kind and a name, or a struct of both, was tried against the
//!   kit's `indexmap`: after `insert` the look-up by `bytes_eq`, `host_same`, `nat_eq` and so on gives what was
//!   inserted. That shared contents, rows and responses may cross threads (`Send` and `Sync`) was proved there too.
//! - A limit is a constant of the code in `limits`, and definitions cite it. The bounds that a type of number has by
//!   itself (a port, a priority) have no constant.
//! - An assignment that is read has an index of its hosts, so that a health result finds its host without a walk. The
//!   index belongs to the value and not to the managers: a value never changes, so the index needs no upkeep, and the
//!   generations that share the value share it. Lists of at most 16 rows have none, since walking them costs no more;
//!   nor have those of served clusters, in which no host is looked up.
#![tactic(auto)]

mod answers;
mod clusters;
mod compared;
mod contents;
mod copies;
mod decimals;
mod events;
mod filter_chains;
mod host_index;
mod hosts;
mod ips;
mod journals;
mod limits;
mod listeners;
mod lists;
mod matchers;
mod origins;
mod queries;
mod references;
mod routes;
mod rows;
mod rules;
mod shared;
mod texts;
mod timeouts;
mod ways;

pub use answers::is_same_answer;
pub use clusters::{Cluster, Discovery};
pub use contents::{Body, Content, Item, Kind, Request, Response};
pub use copies::TryCopy;
pub use decimals::{is_numeral, read_decimal};
pub use events::{Actor, Answer, Ask, Entry, Event, Line, Op, Peer, Profile, Script, Verdict};
pub use filter_chains::{FilterChainMatch, SourceType};
pub use hosts::{Assignment, Host, HostRow, SocketAddress};
pub use ips::{CidrRange, Ip};
pub use journals::{Finding, Format, Row};
pub use limits::{
    ITEM_LIMIT, LINE_LIMIT, MAX_DECIMAL_DIGITS, MAX_NAME_LENGTH, MAX_WEIGHT_SUM, MAX_WORKERS,
    ROW_LIMIT,
};
pub use listeners::{FilterChain, Listener, Serve};
pub use lists::Seq;
pub use matchers::{
    HeaderMatcher, HeaderTest, PathSpecifier, RouteCondition, RouteMatch, StringMatcher,
    StringPattern,
};
pub use origins::{ChainPlace, KeptChain, Origin};
pub use queries::{QueryParameterMatcher, QueryTest};
pub use references::Reference;
pub use routes::{
    Action, PathMatch, Route, RouteTable, Target, VirtualHost, WeightedCluster, WeightedClusters,
};
pub use rows::{Arrival, Gen, GenRow, KeptVersion, Live, Lives, Phase, RowStatus};
pub use rules::Rule;
pub use shared::Shared;
pub use texts::{Name, NameError, Text};
pub use timeouts::FetchTimeout;
pub use ways::Way;
