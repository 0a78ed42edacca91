//! Fields of JSON objects in the forms of the proto3 JSON mapping: a field by either spelling of its
//! name, and its value as a text, a number, a boolean, a duration, an object, a list or an enum.
//!
//! A field that is `null` is absent. A field that is given in both spellings has the wrong form.
//!
//! # Choices
//!
//! - The readers require nothing of their object: what is no object has no fields, so the answer is that the field is
//!   absent. A caller owes no proof that it holds an object.
//! - A u32 is a number that JSON writes without point and exponent. `80.0` and `8e1` have the wrong form, though
//!   protobuf's own reader takes them: `serde_json` reads them as floats.
//! - `_` before a character that is no letter falls away too, as in protobuf. No name that is read has one.
//! - The lowerCamelCase spelling is made each time that a field is looked up, which takes memory for a short text; so
//!   each reader can answer `OutOfMemory`.
//! - Beside the eight readers, which stop at the first wrong form, there is the module `member`, for callers that go on
//!   and report the lowest-numbered rule: it gives an outcome instead of an error.
//! - The plain text of a tree has -1 for each float, of which `serde_json` doesn't say how it is written. Commands that
//!   write scripts write trees so (ev_trees), and bodies are compared by it.
//! - Addresses and config sources are read here, in either profile, since hosts, clusters and listeners share them. The
//!   text of an address that isn't a socket's is made of its parts (`AddressText`), so that a socket's is never copied.
//! - The broken rules of a body are a struct with a field a rule, in place of a list or of bits: a part's definition
//!   then has a line for each rule that it breaks, and a proof looks at a rule by its field, which computes. A set of
//!   numbers would be listed once instead of in four definitions, but each literal of it would be a call with a step of
//!   its own in the proofs. V4, V5 and V15 have no field, since they aren't rules of form.
//! - The limit of a name is here and in ev_types, since neither crate depends on the other; all other limits are
//!   once.
#![tactic(auto)]

mod addresses;
mod broken;
mod counts;
mod durations;
mod floats;
mod inspections;
mod limits;
mod lists;
pub mod member;
mod numbers;
mod outcome;
mod readers;
mod rules;
mod sources;
mod span;
mod spelling;
mod tables;

pub use addresses::{AddressText, AnyAddress, SocketAddress, any_address, socket_address};
pub use broken::{BrokenRules, least_is_least};
pub use counts::{exactly_one, more_than_one};
pub use floats::{body_text, has_float, plain_text, whole_copy};
pub use inspections::Inspection;
pub use limits::{
    MAX_FRACTION_DIGITS, MAX_NAME_BYTES, MAX_PORT, MAX_SECONDS, MAX_SECONDS_DIGITS, MAX_U32_DIGITS,
};
pub use numbers::u32_value;
pub use outcome::{Found, ReadError};
pub use readers::{boolean, duration, enumeration, field, list, number32, object, text};
pub use rules::{first_is_least, is_name, least};
pub use sources::{ConfigSource, config_source};
pub use span::{Span, is_not_positive};
pub use tables::EnumTable;
