//! Where the connections of a filter chain go, with tables by which host texts find virtual hosts, and paths routes.
//!
//! Also what a route's conditions say of a request, and which route of a virtual host takes it.
//!
//! # Choices
//!
//! - Contracts see a routing with its tables as the routing, and a virtual host with its index as the virtual host:
//!   tables are invisible in them.
//! - A host text is looked up without a copy in lower case: its key is hashed byte by byte with ASCII letters as
//!   lower case, and seen by contracts as the text in lower case.
//! - A routing keeps one table of its domains by text, and which lengths its forms with a star have. A host is
//!   looked up whole, then from its longest end to its shortest where a suffix form has that length, then its
//!   beginnings the same: a look-up for each length that is there, however many domains there are, and the first hit
//!   is the longest form. The keys of ends and beginnings are made of the host text, so an ask takes no memory.
//! - A virtual host with more than 32 routes, each of which asks for its path alone and byte by byte, keeps the first
//!   place of each path match, and the lengths of the prefixes. A path is looked up whole and by its prefix of each of
//!   the lengths; the least place is the first route that takes it, which is proved of all paths. Where there are so
//!   many lengths that trying the routes takes less time, it has no index. A path match is found by kind and text,
//!   and its key is one more owner of the table, so an index copies no text.
//! - Each domain as lower case is kept once a routing, and shared by list and table. Routes are shared with the
//!   resource that brought them: they are never copied.
//! - Tables hash by the keys that a routing is given, which are made of the input: so none is made of keys that were
//!   chosen to meet in it.
//! - A condition says yes, no, or that what no script tells decides. The first route that doesn't say no takes the
//!   request, and what it says decides what becomes of it.
//! - Where all routes of a virtual host ask for their paths alone its index finds that route; else the
//!   routes are tried in order.
//! - Texts are compared in place, as they are or with their ASCII letters as lower case: a request takes no memory.
#![tactic(auto)]

mod conditions;
mod domain_lists;
mod domain_table;
mod domains;
mod folded_paths;
mod host_texts;
mod lengths;
mod path_index;
mod paths;
mod queries;
mod routed_host;
mod routes;
mod routings;
mod star_texts;
mod texts;
mod texts_in_case;

pub use conditions::match_says;
pub use path_index::PathIndex;
pub use routed_host::RoutedHost;
pub use routes::route_for;
pub use routings::{IndexedRouting, indexed};
pub use star_texts::SuffixText;
pub use texts::{begins_with, is_lower, same_lower, without_query};
