ghost use Rattle.std.specs.Prelude.{◌≡◌, [], OnOk};
ghost use Rattle.ev_tls.specs.Places.{places_under, Enters, Leaves};

use crate::awaited::Awaited;
use ev_keys::Keys;
use ev_types::{Seq, TryCopy};
use indexmap::IndexMap;
use std::alloc::{AllocError, Global};
use std::marker::Model;

/// Places that are under what they wait for, or waited for.
#[derive(Drop)]
pub(crate) struct Places {
    lists: IndexMap<Awaited, Seq<usize>, Keys>,
}

impl Model for Places {
    ghost use Rattle.ev_tls.specs.Places.{PlacesKept};

    ghost Value = { PlacesKept };

    ghost view = { λ p. p.lists.entries };
}

impl Places {
    /// No place. It takes no memory.
    pub(crate) fn new(alloc: Global, keys: Keys) -> Places
        ensures { result ≡ [] }
    {
        Places {
            lists: IndexMap::with_hasher(alloc, keys),
        }
    }

    /// The places under this.
    pub(crate) fn under(&self, awaited: &Awaited) -> &[usize]
        ensures { result.now ≡ places_under self.now awaited.now }
    {
        match self.lists.get(awaited) {
            Some(places) => places.as_slice(),
            None => &[],
        }
    }

    /// Appends a place to those under this.
    pub(crate) fn put(
        &mut self,
        alloc: Global,
        awaited: &Awaited,
        place: usize,
    ) -> Result<(), AllocError>
        ensures { OnOk result (Enters awaited.now place self.old self.new) }
    {
        if let Some(places) = self.lists.get_mut(awaited) {
            return places.push(place);
        }
        let mut places = Seq::new(alloc);
        places.push(place)?;
        let Ok(_) = self.lists.insert(awaited.copy(alloc)?, places) else {
            return Err(AllocError);
        };
        Ok(())
    }

    /// Takes the places under this out.
    pub(crate) fn take(&mut self, alloc: Global, awaited: &Awaited) -> Seq<usize>
        ensures taken { result ≡ places_under self.old awaited.now }
        ensures left { Leaves awaited.now self.old self.new }
    {
        match self.lists.swap_remove(awaited) {
            Some(places) => places,
            None => Seq::new(alloc),
        }
    }
}
