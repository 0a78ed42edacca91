//! The operations of each actor of a script, in order: what the threaded run makes and an audit looks for.
//! And how far each actor has come in them, for a walk over a journal's rows.
//!
//! # Choices
//!
//! - A list is made for one actor at a time, in one pass over the script's lines.
//!   There are few actors, so that all lists together cost the lines times a bounded number,
//!   and each actor of a threaded run makes its own.
//! - What is to be done is given by the place of its line, in eight bytes, and not copied.
//! - Whether a settle is forced after an accept or close is decided by a count of the worker's accepts
//!   and closes since its last settle; the definition says it by the lines since the last settle line and a multiple
//!   of 256. That both are the same is proved here.
//! - A walk keeps a place in each actor's list that only goes on, so each operation is passed once.
//!   Actors have seats: the main side's four, then the workers by number.
//!   A row of a worker that isn't there has no seat.
//! - An actor is marked where settles may be left out: in format 2, where it rests.
//!   In format 1 no actor is marked, so that nothing else looks at the format again.
//! - Looking for what a row records changes nothing. The place goes on when the row was found right.
#![tactic(auto)]

mod course;
mod courses;
mod due;
mod dues;
mod told;

pub use course::Course;
pub use courses::{Courses, Found};
pub use due::Due;
pub use dues::operations;
