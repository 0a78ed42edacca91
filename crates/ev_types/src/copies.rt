ghost use Rattle.std.specs.Prelude.{◌≡◌, IfOk};

use std::alloc::{AllocError, Global};

/// Values that can be copied where there is memory for it.
pub trait TryCopy {
    /// The same value again, in memory of its own.
    fn copy(&self, alloc: Global) -> Result<Self, AllocError>
        ensures equal { IfOk result (λ copied. copied ≡ self.now) };
}

impl TryCopy for u64 {
    fn copy(&self, _alloc: Global) -> Result<u64, AllocError> {
        Ok(*self)
    }
}

impl<T: TryCopy> TryCopy for Option<T> {
    fn copy(&self, alloc: Global) -> Result<Option<T>, AllocError> {
        match self {
            Some(value) => Ok(Some(value.copy(alloc)?)),
            None => Ok(None),
        }
    }
}

impl<A: TryCopy + Drop, B: TryCopy> TryCopy for (A, B) {
    fn copy(&self, alloc: Global) -> Result<(A, B), AllocError> {
        let first = self.0.copy(alloc)?;
        let second = self.1.copy(alloc)?;
        Ok((first, second))
    }
}
