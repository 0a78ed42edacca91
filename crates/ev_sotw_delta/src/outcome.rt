ghost use Rattle.std.specs.Prelude.{◌≡◌};
ghost use Rattle.ev_sotw_delta.specs.declared.outcome.DeltaError.TheVariants.{OutOfMemory};

use std::alloc::{AllocError, AllocFailed};
use std::error::Error;
use std::fmt;

/// Why a script of the state of the world gives no text of the incremental protocol.
#[derive(Clone, Copy, Debug, PartialEq, Eq)]
pub enum DeltaError {
    /// With the line of this number the text would go beyond the limits of inputs, or nest deeper than a reader goes.
    Large { line: u32 },
    /// Memory ran out. It says nothing of the script.
    OutOfMemory,
}

impl fmt::Display for DeltaError {
    fn fmt<W: fmt::Write>(&self, f: &mut fmt::Formatter<W>) -> fmt::Result {
        match self {
            DeltaError::Large { line } => write!(f, "line {line} makes the script too large"),
            DeltaError::OutOfMemory => write!(f, "out of memory"),
        }
    }
}

impl Error for DeltaError {}

impl From<AllocError> for DeltaError {
    ghost from_gives = { λ _ e. e ≡ OutOfMemory };

    fn from(_e: AllocError) -> DeltaError {
        DeltaError::OutOfMemory
    }
}

impl<T: Drop> From<AllocFailed<T>> for DeltaError {
    ghost from_gives = { λ _ e. e ≡ OutOfMemory };

    fn from(_e: AllocFailed<T>) -> DeltaError {
        DeltaError::OutOfMemory
    }
}
