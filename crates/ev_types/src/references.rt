use crate::{Name, TryCopy};
use std::alloc::{AllocError, Global};

/// A reference to a resource that is asked for by name: to a secret of a TLS context, or to an extension of a filter.
#[derive(Drop)]
pub struct Reference {
    /// The name that is asked for.
    pub name: Name,
    /// Whether the wait for it ends at the initial fetch timeout.
    pub limited: bool,
}

impl TryCopy for Reference {
    fn copy(&self, alloc: Global) -> Result<Reference, AllocError> {
        Ok(Reference {
            name: self.name.copy(alloc)?,
            limited: self.limited,
        })
    }
}

impl PartialEq for Reference {
    ghost use Rattle.std.specs.Cmp.{decided, partial_equiv_from_equiv};
    ghost use Rattle.ev_types.specs.SameReferences.{reference_same, reference_decides};

    ghost eq = { reference_same };

    ghost laws = { partial_equiv_from_equiv (decided reference_same reference_decides) };

    fn eq(&self, other: &Reference) -> bool {
        self.name == other.name && self.limited == other.limited
    }
}

impl Eq for Reference {
    ghost use Rattle.std.specs.Cmp.{decided};
    ghost use Rattle.ev_types.specs.SameReferences.{reference_same, reference_decides};

    ghost laws = { decided reference_same reference_decides };
}
