//! The messages of incremental xDS: a response out of its JSON tree, and a request as a tree and as text.
//!
//! # Choices
//!
//! - What isn't a resource of the response's type (V1) is read no further: V1 is less than every other rule, so the
//!   answer is the same.
//! - V2 and V3 are looked for by the message's reader at the outer name and by the readers of clusters and listeners
//!   inside the resource; the lesser of both finds is the answer.
//! - Secrets and extensions are read as Envoy reads them alone: by the own rules their types aren't read.
//! - A message with a nonce and no `type_url` at all is a response of a type that isn't read.
//! - The lists of a message of a type that isn't read aren't looked at, not even for their form.
//! - An empty nonce is left out of a request, as every member with nothing in it is. The requests of this program
//!   have none, since a response without a nonce isn't one.
//! - A resource without a body whose `ttl` has a wrong form or isn't positive is refused by V1, which is less than V6
//!   and V25. A resource with a body is looked at for V1 before its `ttl` too.
//! - `null` as `resource` is an absent body, as everywhere.
//! - Two versions of one name in a request: the later one is in the object. The requests of this program have
//!   each name once.
#![tactic(auto)]

mod bodies;
mod kinds;
mod outcome;
mod requests;
mod responses;

pub use bodies::body_rule_is_least;
pub use kinds::{kind_with, name_field, read_in};
pub use outcome::WireError;
pub use requests::{request_value, write_request};
pub use responses::read_response;
