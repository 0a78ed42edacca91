//! The law that no line of this project reads a float: each form says the same of a tree and
//! of the tree with -1 for each float in it. No code that runs.
//!
//! # Choices
//!
//! - Commands that write scripts write trees without floats, and read lines by the plain forms.
//!   That what they wrote says what they read is this law, with `lines_move` of `ev_trees` where a line goes
//!   to another place. So no command needs forms of its own for numbers.
//! - A form's proof is its own text, in which each reader gives way to its law.
//!   So a form that changes has its proof changed in the same place;
//!   `proofs/` has a file for each file of forms, in the same order.
#![tactic(auto)]

ghost use Rattle.ev_whole_laws.specs.OneForm.{NumbersHaveOneForm};

/// A law: as a header, as a line, as a response and as what begins a journal, a tree says what it says with -1 for each
/// float in it. It does nothing.
pub fn numbers_have_one_form()
    ensures { NumbersHaveOneForm }
{}
