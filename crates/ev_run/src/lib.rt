//! The threaded run: each actor of a script in a thread of its own, and its pace,
//! which is called before each turn of an actor and may hold the actor up.
//!
//! An actor's invariant is what it has left to do, after what it did in a journal.
//!
//! # Choices
//!
//! - Each actor makes the list of its own operations and goes through it,
//!   with one turn at the gate for each; a worker accepts and closes on its own snapshot without a turn,
//!   and enters its batch with its settle.
//! - An actor's facts are facts about the journal that its pass has seen, said by what is left to do:
//!   whatever deeds do that, with them all of its operations are done.
//!   So entries of others change nothing, and no list of what was done is carried.
//! - What is due is one type for actors of the main side and for workers, as in an audit.
//!   That no settle is due of the one, and no publication or reaping of the other, follows from what each may make.
//! - An actor that has no memory gives its pass back and says nothing; the others go on to their end.
//! - The pace is called before a turn, and also before a settle that is left out.
//! - What is left is said by what is to come: whatever deeds do what is left,
//!   with them all of the actor's operations are done. So no list of what was done is carried,
//!   entries of others change nothing, and the actor's own take the head off what is left.
//! - What is due of a worker keeps to batches, also where a settle is forced by the count
//!   of its lines: that there is room for the next accept or close is a fact about what is left.
//! - A worker that did nothing since it settled and has nothing open rests, so that its settle may be left out.
#![tactic(auto)]

mod laws;
mod main_side;
mod pace;
mod player;
mod players;
mod threaded;
mod workers;

pub use laws::{main_side_fits, workers_fit};
pub use pace::{Free, Pace};
pub use threaded::run;
