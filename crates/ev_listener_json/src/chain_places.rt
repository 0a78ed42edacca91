ghost use Rattle.std.specs.Prelude.{◌≡◌, [], OnOk};
ghost use Rattle.ev_listener_json.specs.ChainKeys.{keys_by};
ghost use Rattle.ev_listener_json.specs.ChainPlaces.{count_under, places_under, Enters, EntersMatch, Puts};

use crate::chain_keys::{ChainKey, Criterion, keys_by};
use ev_keys::Keys;
use ev_types::{FilterChainMatch, Seq};
use indexmap::IndexMap;
use std::alloc::{AllocError, Global};
use std::marker::Model;

/// The places of filter chains in a list, each under the chain's keys.
#[derive(Drop)]
pub(crate) struct ChainPlaces<'a> {
    lists: IndexMap<ChainKey<'a>, Seq<usize>, Keys>,
}

impl<'a> Model for ChainPlaces<'a> {
    ghost use Rattle.ev_listener_json.specs.ChainPlaces.{PlacesKept};

    ghost Value = { PlacesKept };

    ghost view = { λ p. p.lists.entries };
}

impl<'a> ChainPlaces<'a> {
    /// No place, in a table that hashes by these keys. It takes no memory.
    pub(crate) fn new(alloc: Global, keys: Keys) -> ChainPlaces<'a>
        ensures { result ≡ [] }
    {
        ChainPlaces {
            lists: IndexMap::with_hasher(alloc, keys),
        }
    }

    /// The places under a key.
    pub(crate) fn under(&self, key: &ChainKey<'a>) -> &[usize]
        ensures { result.now ≡ places_under self.now key.now }
    {
        match self.lists.get(key) {
            Some(places) => places.as_slice(),
            None => &[],
        }
    }

    /// How many places there are under these keys: of 2^64 - 1 or more this many.
    pub(crate) fn count_under(&self, keys: &[ChainKey<'a>]) -> usize
        ensures { result ≡ count_under self.now keys.now }
    {
        let mut count = 0usize;
        for key in keys {
            count = count.saturating_add(self.under(key).len());
        }
        count
    }

    /// Puts a place under all keys of a match.
    pub(crate) fn put_match(
        &mut self,
        alloc: Global,
        asked: &'a FilterChainMatch,
        place: usize,
    ) -> Result<(), AllocError>
        ensures { OnOk result (EntersMatch asked.now place self.old self.new) }
    {
        self.put_by(alloc, Criterion::Port, asked, place)?;
        self.put_by(alloc, Criterion::Range, asked, place)?;
        self.put_by(alloc, Criterion::Name, asked, place)?;
        self.put_by(alloc, Criterion::Protocol, asked, place)?;
        self.put_by(alloc, Criterion::DirectSource, asked, place)?;
        self.put_by(alloc, Criterion::SourceRange, asked, place)?;
        self.put_by(alloc, Criterion::SourcePort, asked, place)?;
        Ok(())
    }

    // Puts a place under the keys of a match by a criterion.
    fn put_by(
        &mut self,
        alloc: Global,
        criterion: Criterion,
        asked: &'a FilterChainMatch,
        place: usize,
    ) -> Result<(), AllocError>
        ensures { OnOk result (Enters (keys_by criterion asked.now) place self.old self.new) }
    {
        let keys = keys_by(alloc, criterion, asked)?;
        self.put_all(alloc, keys.as_slice(), place)
    }

    // Puts a place under these keys.
    fn put_all(
        &mut self,
        alloc: Global,
        keys: &[ChainKey<'a>],
        place: usize,
    ) -> Result<(), AllocError>
        ensures { OnOk result (Enters keys.now place self.old self.new) }
    {
        for key in keys {
            self.put(alloc, key.again(), place)?;
        }
        Ok(())
    }

    // Puts a place under a key.
    fn put(&mut self, alloc: Global, key: ChainKey<'a>, place: usize) -> Result<(), AllocError>
        ensures { OnOk result (Puts key.entry place self.old self.new) }
    {
        if let Some(places) = self.lists.get_mut(&key) {
            return places.push(place);
        }
        let mut places = Seq::new(alloc);
        places.push(place)?;
        let Ok(_) = self.lists.insert(key, places) else {
            return Err(AllocError);
        };
        Ok(())
    }
}
