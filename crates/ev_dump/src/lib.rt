//! Dumps: the registry after the first entries of a journal that was found legal, and what is known there, as one line.
//!
//! The first entries of a journal that was found legal are made here:
//! its rows joined to their operations again, and the law that they are a run up to where any commit ends.
//!
//! # Choices
//!
//! - The line is a function of the format, the workers, the node and the first entries alone (`dump_text`):
//!   the world that these lead to, and what they count up to. So what comes after them can't show in it.
//! - Journals that agree so far have one dump, whatever their workers and nodes are (`dumps_by_prefix`):
//!   worlds after equal entries differ in what workers hold and in the node alone, of which the line shows nothing.
//!   That is a simulation over all steps. Only a reaping and an accept look at what workers hold,
//!   and a worker that never settled holds the first picture, which shows nothing.
//! - The rows are joined to their operations first (`entries_told`), and then each event is made once more.
//!   So a registry after k entries costs those k entries, and not the journal.
//! - The generations are listed by number, since the world has them so.
//!   Clusters and listeners are allocated from one counter of numbers.
//! - A row has its event's word alone. Where the word says all of the event, as of what follows a line,
//!   the entry has that; else it is the event of the line of the row's number, which a binary search finds,
//!   since lines' numbers rise. So no actor's operations are listed again, and each row costs a search.
//! - The law is a walk over the rows, like the audit's (`goes_on` of ev_model_laws),
//!   which goes on as long as nothing is found: so it speaks of the journal that the rows record,
//!   and not of some run that has these rows.
//! - That the numbers of generations suffice for each entry is stated beside the run,
//!   since what steps through the entries once more requires it.
#![tactic(auto)]

mod dumping;
mod fronts;
mod laws;
mod states;
mod told;
mod values;

pub use dumping::dump;
pub use fronts::{ends_commit, fronts_are_runs};
pub use laws::dumps_by_prefix;
pub use states::state_after;
pub use told::entries_told;
