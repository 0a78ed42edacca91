use std::alloc::AllocError;

/// Why a text gives no row.
#[derive(Clone, Copy, Debug, PartialEq, Eq)]
pub enum RowError {
    /// The text is no row's.
    NotARow,
    /// There was no memory for the row.
    OutOfMemory,
}

impl From<AllocError> for RowError {
    ghost use Rattle.std.specs.Prelude.{◌≡◌};
    ghost use Rattle.ev_journal_read.specs.declared.outcome.RowError.TheVariants.{OutOfMemory};

    ghost from_gives = { λ _ error. error ≡ OutOfMemory };

    fn from(_error: AllocError) -> RowError {
        RowError::OutOfMemory
    }
}
