//! Scripts: the forms of their lines, read out of the trees of their JSON, and what each line of an input is.
//!
//! # Choices
//!
//! - A script's lines have their own forms, and only the written name of a member counts: neither the other spelling
//!   nor numbers in quotes, and a member `null` is a member of a wrong form, also where it has a default. Messages
//!   and resources inside a line keep their own rules.
//! - A word, a member's name and a name are compared by their bytes once JSON's escapes are read: `"re\u0061p"` is
//!   `reap`.
//! - Which members an operation has is looked at before their values; all of it is kind 6, so the order can't be
//!   seen.
//! - `fetchTimeout` with a name for clusters or listeners has a member too many; without one for endpoints or routes
//!   it lacks one. `ttlExpired` has both always.
//! - The readers of members (`has_only`, `number_at` and those beside them) are public: the lines of other inputs, as
//!   those with resolutions or of filter chains, have the same rules, and read their members by the same functions.
//! - A worker's form (below 2^32) and whether it is below the header's count are two questions, kinds 6 and 7.
//! - The kinds of faults are an enum, `FaultKind`, with `number` for the number that is printed. The definition of a
//!   fault has a fact for each kind, and the first fault is the least of all by its place, and at one place by
//!   `fault_order`.
//! - A place is a byte, or the end of the input after the last byte. Kinds 1, 2 and 3 are at the byte that goes
//!   above the limit, by ev_io's own facts; kinds 4 to 7 at the byte that ends their line.
//! - What is kept of the first line is a type of its own (`Forms::Head`), so that nothing reads it a second time.
//! - Which lines there are is an argument of the definition of a fault (`LineForms`): what a tree sets as the first
//!   line (`Settings`: how many workers there are, and the profile), and which worker it names as another one, or that
//!   it is none. A command whose input has other lines gives other forms.
//! - Another line is read by the profile that the first sets. Where the first is no header the profile is the
//!   project's own; no fault depends on it then, since that of the first line comes before.
//! - Of an accept the profile decides which members there may be, and nothing else: where `source` and those
//!   beside it are no members, they are as where they are absent.
//! - Headers are taken in the order of their written names, so of `X-A` and `x-a` the second counts. `:authority` and
//!   `:path` are left out of them, since the ask's host and path represent these.
//! - The ask has the IP address that each of its addresses writes, so that a choice parses nothing.
//! - The reader of an input is one loop, `read_up_to_journal`, over a type that says which lines there are and what is
//!   kept of each (`Forms`): a script keeps a line as what it says. A command that reads other lines gives such a type
//!   to `read_lines_with`, which reads whole inputs; the lines of a script are `ScriptLines`.
//! - The loop ends at a journal's first line or at the end of the input, and doesn't ask whether a journal has to be
//!   there: where it is missing, `read_audited_script` reports that.
//! - `read_trees` is the same reader over a type that keeps a line as its tree (`LineTrees`),
//!   in the memory of the line's text: whoever looks at the tree reads it again (`LineTree`),
//!   and as a tree a line takes some 30 times its text.
//! - A script alone and a script with a journal after it are two calls with two types: `read_script` gives a
//!   `Script`, and `read_audited_script` an `AuditedScript`. They take the place of one call `read_script` with a
//!   flag and an answer that has both cases, of which each caller would have to rule out one. Trees are read of whole
//!   inputs alone, since no command asks for those before a journal.
//! - An audit's input is looked at up to the end of the journal's first line: a limit that is passed after it is
//!   reported by whoever reads the journal, with the same reader of lines.
//! So `read_audited_script` says that there is no fault up to there,
//! and that one that it reports comes before any journal; `read_script` that there is none at all.
//! - A fault is in the bytes taken, and more bytes don't take it away (proved). So what is reported is also a fault
//!   of the whole input, however much of it was taken.
//! - The reader asks that the reader of lines is fresh: the definition speaks of all bytes of the input, and none of
//!   those may have gone elsewhere.
//! - A script whose responses have 2^32 - 1 resources or more together is being out of memory: no input has room for
//!   that many (that isn't proved).
//! - In an audit's input a line with a member `format` begins the journal even where it would be a fault of kind 6,
//!   and even with `{"format":null}`; a first line with it is a header with a member too many.
#![tactic(auto)]

mod asks;
mod content;
mod fault_kinds;
mod forms;
mod header;
mod headers;
mod health_lines;
mod limits;
mod line_forms;
mod line_tree;
mod lines;
mod main_lines;
mod members;
mod own_operations;
mod peers;
mod read_input;
mod script;
mod stream_lines;
mod timer_lines;
mod trees;
mod worker_lines;

pub use fault_kinds::FaultKind;
pub use forms::{FormedHead, FormedLine, Forms, ScriptLines, Settings};
pub use header::{Header, read_header};
pub use limits::{MAX_NUMBER, MAX_PATH_LENGTH, MAX_WORKER};
pub use line_tree::LineTree;
pub use lines::read_line;
pub use members::{
    flag_at, has_only, is_op, name_at, number_at, read_name, read_tree, text_or, word_at,
};
pub use own_operations::{OwnOperation, WithOperation};
pub use read_input::{ReadLines, read_lines_with};
pub use script::{AuditedScript, read_audited_script, read_script};
pub use trees::{HeadTree, LineTrees, ScriptTrees, read_trees, read_trees_with};
