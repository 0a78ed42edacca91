ghost use Rattle.std.specs.Prelude.{◌≡◌};
ghost use Rattle.ev_wire.specs.declared.outcome.WireError.TheVariants.{OutOfMemory};

use std::alloc::{AllocError, AllocFailed};
use std::error::Error;
use std::fmt;

/// Why a tree gives no response.
#[derive(Clone, Copy, Debug, PartialEq, Eq)]
pub enum WireError {
    /// It isn't a response: it is no object, has no nonce, or one of its own fields has a wrong form.
    NotResponse,
    /// Memory ran out. It says nothing of what was read.
    OutOfMemory,
}

impl fmt::Display for WireError {
    fn fmt<W: fmt::Write>(&self, f: &mut fmt::Formatter<W>) -> fmt::Result {
        match self {
            WireError::NotResponse => write!(f, "not a response"),
            WireError::OutOfMemory => write!(f, "out of memory"),
        }
    }
}

impl Error for WireError {}

impl From<AllocError> for WireError {
    ghost from_gives = { λ _ e. e ≡ OutOfMemory };

    fn from(_e: AllocError) -> WireError {
        WireError::OutOfMemory
    }
}

impl<T: Drop> From<AllocFailed<T>> for WireError {
    ghost from_gives = { λ _ e. e ≡ OutOfMemory };

    fn from(_e: AllocFailed<T>) -> WireError {
        WireError::OutOfMemory
    }
}
