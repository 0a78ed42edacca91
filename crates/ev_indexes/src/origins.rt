//! Where the chains of a generation began, found by place without a walk for each chain.

ghost use Rattle.std.specs.Prelude.{◌≡◌, List, IfOk, OnOk};
ghost use Rattle.ev_types.specs.declared.origins.KeptChain.{KeptChain};
ghost use Rattle.ev_model.specs.Origins.{origin_at};
ghost use Rattle.ev_indexes.specs.Origins.{AreKept, KeepsMore};

use ev_types::{ChainPlace, Gen, KeptChain, Origin};
use indexmap::IndexMap;
use std::alloc::{AllocError, Global};

/// By place where the chains began that a generation has of the one before it.
pub type KeptPlaces = IndexMap<ChainPlace, Origin>;

/// These chains by place; of two at one place the first counts. It takes no memory where there are none.
pub fn kept_places(alloc: Global, kept: &[KeptChain]) -> Result<KeptPlaces, AllocError>
    ensures { IfOk result (λ places. AreKept kept.now places) }
{
    let mut places = IndexMap::new(alloc);
    for chain in kept {
        keep(&mut places, chain)?;
    }
    Ok(places)
}

// One more chain, where none is at its place.
fn keep(places: &mut KeptPlaces, chain: &KeptChain) -> Result<(), AllocError>
    ensures { OnOk result (KeepsMore places.old places.new chain.now) }
{
    if !places.contains_key(&chain.place) {
        let Ok(_) = places.insert(chain.place, chain.origin) else {
            return Err(AllocError);
        };
    }
    Ok(())
}

/// Where the chain at a place of a generation began: its own unless it was kept.
pub fn origin_of(number: Gen, places: &KeptPlaces, place: ChainPlace) -> Origin
    ensures { (kept : List KeptChain) → AreKept kept places.now → result ≡ origin_at number kept place }
{
    match places.get(&place) {
        Some(origin) => *origin,
        None => Origin {
            listener: number,
            place,
        },
    }
}
