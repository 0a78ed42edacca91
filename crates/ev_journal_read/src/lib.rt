//! Rows of a journal out of their texts: the row of exactly the texts that are a row's.
//!
//! With them stand the laws of journals as text: functions that do nothing.
//!
//! # Choices
//!
//! - A text is a row's exactly where it is the text of that row. So `read_row` builds the row that the tree of the
//!   text would be (`row_of`), writes it again and compares: that it returns rows of such texts alone needs no list
//!   of forms. `row_of` passes over members that no row has; such a text differs from its row's.
//! - What is proved beside is that a row's text reads back as its tree, for every tree whose numbers are whole and
//!   below 2^64 and whose objects are sorted (`proofs/ReadBack.antt`), and the tree as the row. This takes lemmas of
//!   the kit's JSON crates, so `json` is among the crate's own.
//! - Reading is above writing in a crate of its own, since `replay` needs writing alone.
//! - An answer that is a tree is told apart by its members: `requests` (with `verdicts` or not), `version` (with
//!   `closed` or not), `reaped`, else `result`.
//! - Kind 9 at a line is reported by the line's number as the reader of lines counts,
//!   with no place in bytes: within one line a fault of the limits is reported before the line's end is reached,
//!   and lines are looked at in their order, so the first by line and kind is the first by bytes.
//! - `read_rows` takes the text of the first line and the number of workers, and returns the format with the rows. It
//!   is tried as one of format 2 first.
//! - That some bytes were taken (`HasTaken`) is required of the reader of lines, since how many lines it has given is
//!   bounded only through them. It holds of each reader that was made and used by its calls.
//! - Two journals with one text are compared with their events, which the text doesn't have: a row gives its
//!   operation by its place in the script, and the machine the answer, so that an answer that is written as another
//!   one would be is still the same.
#![tactic(auto)]

mod answers;
mod journal;
mod journal_laws;
mod laws;
mod lists;
mod outcome;
mod parts;
mod requests;
mod rows;
mod words;

pub use journal::read_rows;
pub use journal_laws::{renders_journals, runs_have_rows, text_tells_journal};
pub use laws::{has_one_row, reads_as_written, writes_one_to_one};
pub use outcome::RowError;
pub use rows::read_row;
