ghost use Rattle.ev_expand.specs.declared.outcome.ExpandError.TheVariants.{OutOfMemory};
ghost use Rattle.std.specs.Prelude.{◌≡◌};

use std::alloc::{AllocError, AllocFailed};
use std::error::Error;
use std::fmt;

/// Why there is no text. A line is given by its number in the input, from 1.
#[derive(Clone, Copy, Debug, PartialEq, Eq)]
pub enum ExpandError {
    /// The first line that uses a private name. It is looked for before all else.
    Private { line: u32 },
    /// The first line with whose output the text goes above a limit of inputs.
    Large { line: u32 },
    /// Memory ran out. It says nothing of the lines.
    OutOfMemory,
}

impl fmt::Display for ExpandError {
    fn fmt<W: fmt::Write>(&self, f: &mut fmt::Formatter<W>) -> fmt::Result {
        match self {
            ExpandError::Private { line } => write!(f, "line {line} uses a private name"),
            ExpandError::Large { line } => write!(f, "the text is too large from line {line} on"),
            ExpandError::OutOfMemory => write!(f, "out of memory"),
        }
    }
}

impl Error for ExpandError {}

impl From<AllocError> for ExpandError {
    ghost from_gives = { λ _ e. e ≡ OutOfMemory };

    fn from(_e: AllocError) -> ExpandError {
        ExpandError::OutOfMemory
    }
}

impl<T: Drop> From<AllocFailed<T>> for ExpandError {
    ghost from_gives = { λ _ e. e ≡ OutOfMemory };

    fn from(_e: AllocFailed<T>) -> ExpandError {
        ExpandError::OutOfMemory
    }
}
