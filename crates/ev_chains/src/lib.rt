//! Filter chains of one listener that change in place: a version of the listener keeps the chains
//! that are equal and drains the others alone. Connections are accepted on chains by the port
//! and the server name that they come with.
//!
//! The definition is `chain_step`, from a state and an event to a state and an answer.
//! Each call of `Chains` does what it says of one kind of event.
//!
//! Two laws, `connections_stay` and `chains_stay`, are of every list of events.
//!
//! # Choices
//!
//! - A state has the chains that serve, each with its number,
//!   and of those that drain the number alone: nothing asks what they served.
//!   Which chain is gone doesn't show, since a number is never allocated again.
//! - Chains that serve are in the order of the last listener that was accepted.
//!   So a listener's chains are numbered where they are, with the table that was made to find two
//!   that take the same connections, and nothing of the last version is copied.
//! - Chains are found by keys: a match's port, or none, with each of its server names in lower case,
//!   or with none. Two matches take the same connections exactly where they share a key.
//!   An accept asks for the key of each name that it may go by:
//!   so it costs look-ups, and a listener a pass over its chains and over those that serve.
//! - A server's name is compared with ASCII letters as lower case;
//!   matches of two versions are compared as they are written, names in their order.
//!   A name that occurs twice in one match is no conflict.
//! - Where two chains clash and another rule is broken, the lowest-numbered rule is reported;
//!   so the table is made before the rules are asked.
//! - Only the form of a listener's own name counts. Where it listens is part of each of its chains,
//!   so another address or port keeps none.
//! - Open connections are those of one worker, 0, in a ledger, with the chain as their listener.
//!   The ledger lists them by their numbers.
//! - Of the chains that drain, those without a connection are one set and those with one another.
//!   A reaping takes the first, a drain timeout goes over the second,
//!   and the last connection of a chain that closes moves it from the second to the first, which has room for it:
//!   a close takes no memory. So each costs what it reaps, closes or moves, by look-ups.
//! - A state lists the chains that drain in the order in which they began to, which nothing asks for.
//!   So their numbers are only kept in that order, with those of the chains that are gone:
//!   four bytes a chain, and never gone over.
//! - No number serves and drains, or drains twice (`AreNumbered`). So no connection is accepted on a chain that drains.
//! - A drain timeout looks at the connections that it closes and at no other.
//! - The table of keys hashes by keys that are made of the input, which chooses the names.
//! - A law is of a connection and a chain together, since numbers of connections are used again:
//!   it says of each pair whether it is open, and by which accept.
//! - A law of a chain begins at the listener by which it was made: its number was allocated there.
//!   It drains or is gone exactly where it doesn't serve.
//! - Both laws go over the events from the first, place by place.
//!   What one event does to one pair is a test, and what it does to the chains that serve is one of two cases.
//! - That no number represents two chains and no serving chain has two numbers follows
//!   from the events alone: no premise says it.
#![tactic(auto)]

mod chains;
mod changes;
mod closing;
mod draining;
mod events;
mod keys;
mod laws;
mod listed;
mod listeners;
mod matches;
mod next;
mod rows;

pub use chains::{ChainAnswer, Chains};
pub use changes::Changed;
pub use events::ChainEvent;
pub use laws::{chains_stay, connections_stay};
pub use matches::ChainMatch;
pub use rows::{Chain, Listening, Row};
