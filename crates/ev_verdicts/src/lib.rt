//! The verdicts on the resources of a response, by the rules and by what is known before it:
//! the generations that are live, and the versions that are kept. What is known is asked by look-ups.
//!
//! # Choices
//!
//! - What is known before a response is asked by look-ups (`Known`: the newest generation of a name, those that hold
//!   an address, whether a name is watched, whether a version is kept), and not given as lists from which the verdicts
//!   would build tables at each response: an update of one cluster's endpoints would then cost a walk over all
//!   clusters. The managers keep such tables anyhow. Its contract speaks of every list of live generations and of
//!   versions whose answers these are (`Tells`).
//! - Names that occur twice and removed names are put into sets once a response, and what the response itself makes
//!   is kept by name and by address, so that each resource costs look-ups.
//! - A generation's number decides no verdict, since a name that occurs twice is refused; so the verdicts number
//!   nothing, and no answer comes of numbers that end.
//! - `Tells` says that there are no generations of what is asked for by name: endpoints and routes have values, not
//!   generations.
//! - Live generations are borrowed rows, `LiveRow`, which clauses see as `Live`: no name and no content is copied.
//! - The loop over the resources gets what the response mentions by reference: a loop that owned those three sets
//!   would drop them at each way out of it, and be expensive to prove.
//! - What a response mentions, texts as keys and live rows are in ev_lookups, below this crate: the managers and
//!   the subscription need these and nothing else of it, so they don't wait for the verdicts' proofs.
//! - Whether a heartbeat is heard is asked of the live generations after the response's removals, as the watched
//!   names of endpoints and routes are. Of clusters and listeners every one is heard, so a stale heartbeat of them is
//!   always refused.
#![tactic(auto)]

mod addresses;
mod judging;
mod keys;
mod known;
mod made;
mod rules;

pub use judging::verdicts_by_mentions;
pub use known::Known;
