//! Inputs of filter chains that change in place, out of lines, and their answers into lines:
//! what the command `chains` does.
//!
//! # Choices
//!
//! - The lines are read by the reader of scripts' lines, with forms of their own:
//!   the faults are those of a script, by these forms. No line names a worker, so none can be above a count.
//! - As in a script, only the written name of a member counts,
//!   and a member `null` is one of a wrong form. The message of a `listener` is looked at for being an object,
//!   and what is in it is judged by rules, whose breach is an answer.
//! - All lines are read before the first is answered, so an input with a fault has no answer.
//!   They are kept as texts, and read again one at a time:
//!   the tree of a listener takes some thirty times the memory of its text.
//! - A line's answer has the number of the line. The last line has the number of answers.
//! - Where a listener's chains would need a number above 2^32 - 1, the answer is out of memory:
//!   no input is long enough for it.
#![tactic(auto)]

mod answers;
mod event_line;
mod events;
mod limits;
mod making;
mod texts;

pub use event_line::EventLine;
pub use events::{ChainLines, read_event};
pub use making::make_chains;
pub use texts::answer_lines;
