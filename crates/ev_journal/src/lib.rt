//! Journals as text: the line of each entry, the first and the last line, and the rows that lines are.
//!
//! # Choices
//!
//! - A row's line has the number of a row's type alone, so it can't say more than the type: numbers have 32 or 64
//!   bits, generations count from 1, names have 1 to 512 bytes, a rule has 8 bits, a port and a status 16. Lists may
//!   be in any order. A node's id and the message of a refusal may be empty. An actor that is no worker of the
//!   script, and any actor under any operation, are in rows; the finding judges them.
//! - An answer belongs to the operations of its row of the table in FORMATS.md alone. A text with another pairing
//!   is no row's.
//! - Several rows can have one text: an empty nonce is written as none is, and versions are written as an object, in
//!   the order of their names and each name once. The row that is meant has none in place of an empty nonce, and its
//!   versions as the object has them.
//! - That a row's texts are UTF-8 is said of its line as a whole: the types show their texts as bytes.
//! - `write_end_line` takes the number of entries as a `usize`, as the length of a list is.
#![tactic(auto)]

mod answers;
mod words;
mod writing;

pub use words::{actor_word, op_word, verdict_word};
pub use writing::{
    render_journal, write_end_line, write_end_text, write_first_line, write_first_text, write_line,
    write_row,
};
