ghost use Rattle.std.specs.Prelude.{◌≡◌, map, IfOk};

use ev_types::{Name, TryCopy};
use std::alloc::{AllocError, Global};
use std::hash::{Hash, Hasher};

/// What a guarded cluster waits for.
#[derive(Drop)]
pub enum Awaited {
    /// The secret of this name.
    Secret(Name),
    /// The endpoints of this name.
    Endpoints(Name),
}

impl TryCopy for Awaited {
    fn copy(&self, alloc: Global) -> Result<Awaited, AllocError> {
        match self {
            Awaited::Secret(name) => Ok(Awaited::Secret(name.copy(alloc)?)),
            Awaited::Endpoints(name) => Ok(Awaited::Endpoints(name.copy(alloc)?)),
        }
    }
}

impl PartialEq for Awaited {
    ghost use Rattle.std.specs.Cmp.{decided, partial_equiv_from_equiv};
    ghost use Rattle.ev_tls.specs.Awaited.{awaited_same, awaited_decides};

    ghost eq = { awaited_same };

    ghost laws = { partial_equiv_from_equiv (decided awaited_same awaited_decides) };

    fn eq(&self, other: &Awaited) -> bool {
        match (self, other) {
            (Awaited::Secret(name), Awaited::Secret(other)) => name == other,
            (Awaited::Endpoints(name), Awaited::Endpoints(other)) => name == other,
            _ => false,
        }
    }
}

impl Eq for Awaited {
    ghost use Rattle.std.specs.Cmp.{decided};
    ghost use Rattle.ev_tls.specs.Awaited.{awaited_same, awaited_decides};

    ghost laws = { decided awaited_same awaited_decides };
}

impl Hash for Awaited {
    ghost use Rattle.std.proofs.Common.{ap};
    ghost use Rattle.ev_tls.specs.Awaited.{awaited_hash_input, awaited_decides};

    ghost hash_input = { awaited_hash_input };

    ghost respects_eq = { λ a b same. ap awaited_hash_input ((awaited_decides a b).0 same) };

    fn hash<H: Hasher>(&self, state: &mut H) {
        match self {
            Awaited::Secret(name) => {
                false.hash(state);
                name.hash(state);
            }
            Awaited::Endpoints(name) => {
                true.hash(state);
                name.hash(state);
            }
        }
    }
}

// The secrets of these names.
pub(crate) fn secrets(alloc: Global, names: &[Name]) -> Result<Vec<Awaited>, AllocError>
    ensures { IfOk result (λ awaited. awaited.items ≡ map (λ name. Awaited.Secret name) names.now) }
{
    let mut awaited = Vec::with_capacity(alloc, names.len())?;
    for name in names {
        awaited.push(Awaited::Secret(name.copy(alloc)?))?;
    }
    Ok(awaited)
}

// The endpoints of these names.
pub(crate) fn endpoints(alloc: Global, names: &[Name]) -> Result<Vec<Awaited>, AllocError>
    ensures { IfOk result (λ awaited. awaited.items ≡ map (λ name. Awaited.Endpoints name) names.now) }
{
    let mut awaited = Vec::with_capacity(alloc, names.len())?;
    for name in names {
        awaited.push(Awaited::Endpoints(name.copy(alloc)?))?;
    }
    Ok(awaited)
}
