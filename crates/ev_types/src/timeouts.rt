use crate::{Kind, Name, TryCopy};
use std::alloc::{AllocError, Global};
use std::marker::Model;

/// Which initial fetch timeout has passed. It has a name exactly where the kind is asked for by name: all clusters and
/// all listeners are awaited together.
#[derive(Drop)]
pub struct FetchTimeout {
    pub kind: Kind,
    pub name: Option<Name>,
}

impl Model for FetchTimeout {
    ghost use Rattle.ev_types.specs.Timeouts.{TimeoutParts, IsTimeout};

    ghost Value = { TimeoutParts };

    ghost view = { λ t. record { kind = t.kind; name = t.name } };

    ghost invariant = { λ t. IsTimeout t.kind t.name };
}

impl TryCopy for FetchTimeout {
    fn copy(&self, alloc: Global) -> Result<FetchTimeout, AllocError> {
        Ok(FetchTimeout {
            kind: self.kind,
            name: self.name.copy(alloc)?,
        })
    }
}
