//! The journal of a replay of a state-of-the-world script: its requests are those of the state of the world.
//!
//! - The replay itself is that of the incremental script:
//!   what the requests of the state of the world say more, or in another way, is found in the entries so far.
//!   The version of a response is given with its entry, since an entry doesn't have it:
//!   versions are read of the script's lines before, so that these may be gone when the journal is written.
//! - A line first takes in all that its entry says, and then writes: so a reply counts for the requests after it.
//! - Versions that were acknowledged outlive a stream, and nonces and lists of names don't.
//!   A stream begins with a connect that is answered with requests.
//!   Which names are listed follows from what the incremental requests ask for and give up.
//! - The object of a row is written here again, since `ev_journal` writes an entry as a whole;
//!   its definition is the one there. Where an answer has no requests, its writer is called.
//!
//! Below the journal stand, from the bottom: sets of names in the order of their bytes (`NameSet`); responses of the
//! state-of-the-world protocol, and the responses of the incremental one
//! that say the same (`Discovery`); the lines of a script with such responses,
//! and the lines of the incremental script that say the same (`StateResponse`, `NamesSoFar`).
//!
//! # Choices
//!
//! - A set is seen as its list: in the order of bytes, each name once. So what is written of it is that list.
//! - Names are texts here, of any length: responses of the state of the world have resources without names.
//! - Of a response of a type that isn't read, the type and the nonce alone are read.
//! - A resource may be any value. Where it has no name that is a text, by one spelling,
//!   its name is the empty one: rules of the incremental response judge it.
//! - Which names are removed is up to the caller, who knows the responses before.
//! - The type URLs and the fields with names are repeated here: `ev_wire` doesn't show its own.
//! - Whether the stream is open is decided by the last `connect` or `disconnect` line: the machine goes by the same.
//! - A response on a closed stream gets its removals from the last one on an open stream,
//!   and isn't itself the last. The last response may be of an earlier stream.
//!   Resources that will be refused, and those with an empty name, count as named.
//! - The names of the last response are kept for clusters and listeners alone: of the types that are asked for by name
//!   a response takes away nothing that it doesn't name.
#![tactic(auto)]

mod answers;
mod discovery;
mod entries;
mod forms;
mod known;
mod laws;
mod message;
mod name_set;
mod names_so_far;
mod rendering;
mod requests;
mod state;

pub use discovery::{Discovery, read_discovery};
pub use forms::{StateResponse, response_in, version_in};
pub use known::TypeSoFar;
pub use laws::deltas_are_read;
pub use message::delta_message;
pub use name_set::NameSet;
pub use names_so_far::NamesSoFar;
pub use rendering::render_sotw;
pub use state::SotwState;
