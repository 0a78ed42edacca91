//! Tables in layers, which snapshots share, and the rows of a picture by name and by number in them.
//!
//! # Choices
//!
//! - A publication makes its snapshot of the last one and of what changed. Each table has a base and over it layers,
//!   the newest first, which many snapshots share; a layer says what is another entry than below it, or none. The
//!   next snapshot shares them and sets its changes over them; in the end these become a layer, which is joined with
//!   those under it that aren't four times as long, one after the other. So each layer is at least four times as long
//!   as the one over it, and an entry is copied only where more than a quarter as many go over its layer: a
//!   publication of one change among n costs a logarithm of n on the average, 16 entries of a table where 60,000 came
//!   one by one. The base is made anew where it isn't four times as long as what goes over it; then nothing is left
//!   of entries that went. A look-up asks the layers one after the other: 5 tables of entries on the average where
//!   60,000 came one by one, and 8 at most. Were each layer only twice as long, 8 entries would be copied and 8
//!   asked, 15 at most. A tree that shares its branches would be a structure of our own, with look-ups that follow as
//!   many pointers.
//! - The law of a table speaks of its look-ups alone (`found`): what it finds under each key after a change. No list
//!   of rows is kept. What contracts see is computed from the table by name (`listing`); that two lists in the order
//!   of names with the same look-ups are equal is the lemma by which each change of the tables is one of the list.
//! - A table's key is one more owner of the row whose name it is, so a table copies no text. Its value is the row
//!   itself, no place in a list: then the table's invariant is an equation with `find`.
//! - What is put in takes the place of what has its number or its name, so rows keep the order of names and numbers
//!   by themselves.
//! - Rows change by value (`without(self, ..)`, `put(self, ..)`): out of memory, nothing is left of them, and no
//!   half-changed ones can be seen. They lend their tables to the functions that change these, so that who owns the
//!   tables lets them go in one place: a proof takes the longer, the more values a function owns and the more ways
//!   out it has.
//! - That a cluster with its hosts is such a row is said here, where the trait is.
#![tactic(auto)]

mod clusters;
mod names;
mod rows;
mod table;

pub use names::Row;
pub use rows::Rows;
pub use table::Table;
