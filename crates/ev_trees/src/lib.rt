//! Trees of JSON out as lines of text, and what reading these lines again gives.
//!
//! # Choices
//!
//! - Commands that write scripts read lines as trees, change or add some,
//!   and write the text of all. What holds of such a text is proved here once:
//!   its lines are the trees' texts, each tree that was written is read back as the same one,
//!   and trees that are within the limits and are a header and lines of a script give a script without fault.
//! - `serde_json` says of a float's digits that they read back, and not which they are. So a line is written of a tree
//!   without floats: `push_whole` puts -1 in place of each (`1.5`, `1.0`, `1e3`, `-0` and whole numbers that 64 bits
//!   don't hold are floats). A reader of this project's lines says the same of both.
//! - A tree is copied only where it has a float, which is found by a look that takes no memory.
//! - That a tree is read back is no law of trees: keys that aren't sorted,
//!   texts that aren't UTF-8 and trees deeper than 127 aren't. So it is a clause of the calls that write one.
//! - A tree that is kept for later is kept as its text (`KeptTree`),
//!   which takes a thirtieth of its memory, unless it nests deeper than a reader goes.
#![tactic(auto)]

mod depth;
mod kept_tree;
mod laws;
mod writing;

pub use depth::nests_within;
pub use kept_tree::KeptTree;
pub use laws::{lines_move, lines_of_trees, makes_whole, trees_are_script, within_limits};
pub use writing::{push_line, push_whole};
