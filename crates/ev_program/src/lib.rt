//! The program: from the words of its command line and the bytes of its input to the bytes of its output.
//!
//! # Choices
//!
//! - `completes` asks that the bytes known to be left have no fault.
//!   That a prefix of them then has none is proved: more bytes take no fault away.
#![tactic(auto)]

mod program;

pub use program::run_program;
