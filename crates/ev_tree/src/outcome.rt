ghost use Rattle.ev_tree.specs.declared.outcome.ReadError.TheVariants.{OutOfMemory};
ghost use Rattle.std.specs.Prelude.{◌≡◌};
ghost use Rattle.ev_tree.specs.Forms.{is_wrong, is_given, is_absent, given_or};

use ev_types::Rule;
use std::alloc::{AllocError, AllocFailed};
use std::error::Error;
use std::fmt;

/// Why a field or a resource gives no value.
#[derive(Clone, Copy, Debug, PartialEq, Eq)]
pub enum ReadError {
    /// The rule that is broken.
    Rule(Rule),
    /// Memory ran out. It says nothing of what was read.
    OutOfMemory,
}

impl fmt::Display for ReadError {
    fn fmt<W: fmt::Write>(&self, f: &mut fmt::Formatter<W>) -> fmt::Result {
        match self {
            ReadError::Rule(rule) => write!(f, "V{}", rule.number()),
            ReadError::OutOfMemory => write!(f, "out of memory"),
        }
    }
}

impl Error for ReadError {}

impl From<AllocError> for ReadError {
    ghost from_gives = { λ _ e. e ≡ OutOfMemory };

    fn from(_e: AllocError) -> ReadError {
        ReadError::OutOfMemory
    }
}

impl<T: Drop> From<AllocFailed<T>> for ReadError {
    ghost from_gives = { λ _ e. e ≡ OutOfMemory };

    fn from(_e: AllocFailed<T>) -> ReadError {
        ReadError::OutOfMemory
    }
}

/// What a look at a field finds.
#[derive(Clone, Copy, Debug, PartialEq, Eq)]
pub enum Found<T> {
    /// There is no such field, or it is `null`.
    Absent,
    /// It has the wrong form, or is given in both spellings.
    Wrong,
    /// Its value.
    Given(T),
}

impl<T: Copy> Found<T> {
    /// Whether the form is wrong.
    pub fn is_wrong(&self) -> bool
        ensures { result ≡ is_wrong self.now }
    {
        matches!(self, Found::Wrong)
    }

    /// Whether a value of the right form is there.
    pub fn is_given(&self) -> bool
        ensures { result ≡ is_given self.now }
    {
        matches!(self, Found::Given(_))
    }

    /// Whether nothing is there.
    pub fn is_absent(&self) -> bool
        ensures { result ≡ is_absent self.now }
    {
        matches!(self, Found::Absent)
    }

    /// The value, or the default where none is given.
    pub fn given_or(self, default: T) -> T
        ensures { result ≡ given_or default self }
    {
        match self {
            Found::Given(value) => value,
            Found::Absent | Found::Wrong => default,
        }
    }
}
