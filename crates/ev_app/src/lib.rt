//! The commands: which one the words of a command line ask for, and the text that it makes of the bytes of an input.
//!
//! The limits of scripts, messages and resources are laws, each by its value (`inputs_are_limited` and its
//! neighbours): definitions cite them by their names.
//!
//! # Choices
//!
//! - Commands read by `ev_script`'s reader, and have no forms of lines of their own.
//! - A number on the command line is its decimal, as `decimal` writes it:
//!   no sign, and no zero before another digit. So no two words are one number,
//!   and a command line asks for one command at most. What `parse` takes beside the decimal is
//!   ruled out by the first byte.
#![tactic(auto)]

mod audit;
mod chains;
mod commands;
mod dns;
mod dump;
mod expansions;
mod input;
mod limits;
mod made;
mod numbers;
mod replay;
mod run;
mod soak;
mod sotw;
mod status;
mod tls;
mod trees;

pub use commands::{Command, command_of};
pub use limits::{
    commands_are_limited, inputs_are_limited, numbers_are_limited, resources_are_limited,
    scripts_are_limited,
};
pub use made::{Made, make};
pub use status::Status;
