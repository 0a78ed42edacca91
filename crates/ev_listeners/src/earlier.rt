use crate::routed::RoutedListener;
use crate::routed_chain::RoutedChain;
use ev_keys::Keys;
use ev_layers::Row;
use ev_model::ServedChain;
use ev_types::{Gen, Origin};
use indexmap::IndexMap;
use std::alloc::{AllocError, Global};

/// The chains of the listener of a name as it was before, with the places of those that may stay by where they began.
#[derive(Drop)]
pub(crate) struct Earlier<'a> {
    chains: &'a [RoutedChain],
    places: IndexMap<Origin, usize, Keys>,
}

impl<'a> Earlier<'a> {
    /// The chains of this listener before. Where it is of the same generation they are in the same places, and no place
    /// is kept.
    pub(crate) fn new(
        alloc: Global,
        keys: Keys,
        number: Gen,
        before: Option<&'a RoutedListener>,
    ) -> Result<Earlier<'a>, AllocError> {
        let mut places = IndexMap::with_hasher(alloc, keys);
        let Some(before) = before else {
            return Ok(Earlier {
                chains: &[],
                places,
            });
        };
        let chains = before.filter_chains();
        if before.number() != number {
            enter_places(&mut places, chains)?;
        }
        Ok(Earlier { chains, places })
    }

    /// The chain that began where this one did, or else the one in its place.
    pub(crate) fn chain_for(&self, chain: &ServedChain, place: usize) -> Option<&'a RoutedChain> {
        self.chains
            .get(self.place_of(chain.origin).unwrap_or(place))
    }

    // The place of the chain that began there.
    fn place_of(&self, origin: Option<Origin>) -> Option<usize> {
        match origin {
            Some(origin) => self.places.get(&origin).copied(),
            None => None,
        }
    }
}

// Enters the place of each chain of which it is known where it began.
fn enter_places(
    places: &mut IndexMap<Origin, usize, Keys>,
    chains: &[RoutedChain],
) -> Result<(), AllocError> {
    for place in 0..chains.len() {
        if let Some(origin) = chains[place].origin() {
            let Ok(_) = places.insert(origin, place) else {
                return Err(AllocError);
            };
        }
    }
    Ok(())
}
