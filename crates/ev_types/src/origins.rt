use crate::{Gen, TryCopy};
use std::alloc::{AllocError, Global};

/// The place of a filter chain in its listener.
#[derive(Clone, Copy, Debug, Hash)]
pub enum ChainPlace {
    /// It is this one of the listener's chains, from 0.
    At(u32),
    /// It is the listener's default chain.
    Default,
}

impl PartialEq for ChainPlace {
    ghost use Rattle.std.specs.Cmp.{decided, partial_equiv_from_equiv};
    ghost use Rattle.ev_types.specs.Origins.{chain_place_same, chain_place_decides};

    ghost eq = { chain_place_same };

    ghost laws = { partial_equiv_from_equiv (decided chain_place_same chain_place_decides) };

    fn eq(&self, other: &ChainPlace) -> bool {
        match (*self, *other) {
            (ChainPlace::At(place), ChainPlace::At(other)) => place == other,
            (ChainPlace::Default, ChainPlace::Default) => true,
            _ => false,
        }
    }
}

impl Eq for ChainPlace {
    ghost use Rattle.std.specs.Cmp.{decided};
    ghost use Rattle.ev_types.specs.Origins.{chain_place_same, chain_place_decides};

    ghost laws = { decided chain_place_same chain_place_decides };
}

impl TryCopy for ChainPlace {
    fn copy(&self, _alloc: Global) -> Result<ChainPlace, AllocError> {
        Ok(*self)
    }
}

/// Where a filter chain began: the generation of a listener that had it first, and its place there.
/// A listener that is changed in place keeps the origins of the chains that stay.
#[derive(Clone, Copy, Debug, Hash)]
pub struct Origin {
    pub listener: Gen,
    pub place: ChainPlace,
}

impl PartialEq for Origin {
    ghost use Rattle.std.specs.Cmp.{decided, partial_equiv_from_equiv};
    ghost use Rattle.ev_types.specs.Origins.{origin_same, origin_decides};

    ghost eq = { origin_same };

    ghost laws = { partial_equiv_from_equiv (decided origin_same origin_decides) };

    fn eq(&self, other: &Origin) -> bool {
        self.listener == other.listener && self.place == other.place
    }
}

impl Eq for Origin {
    ghost use Rattle.std.specs.Cmp.{decided};
    ghost use Rattle.ev_types.specs.Origins.{origin_same, origin_decides};

    ghost laws = { decided origin_same origin_decides };
}

impl TryCopy for Origin {
    fn copy(&self, _alloc: Global) -> Result<Origin, AllocError> {
        Ok(*self)
    }
}

/// A filter chain that a listener changed in place has from the generation before it: its place, and where it began.
#[derive(Clone, Copy, Debug)]
pub struct KeptChain {
    pub place: ChainPlace,
    pub origin: Origin,
}

impl TryCopy for KeptChain {
    fn copy(&self, _alloc: Global) -> Result<KeptChain, AllocError> {
        Ok(*self)
    }
}
