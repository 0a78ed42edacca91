ghost use Rattle.std.specs.Prelude.{◌≡◌, ℕ, [], List, OnOk};
ghost use Rattle.std.specs.Option.{unwrap_or};
ghost use Rattle.ev_dns.specs.Known.{Enters, EntersAll, Leaves, places_under};

use crate::templates::rows_of;
use ev_expand::Key;
use ev_keys::Keys;
use ev_types::{Name, Seq, TryCopy};
use indexmap::IndexMap;
use std::alloc::{AllocError, Global};

/// Places, under names.
#[derive(Drop)]
pub(crate) struct Places {
    pub by_name: IndexMap<Name, Seq<usize>, Keys>,
}

impl Places {
    /// No place. It takes no memory.
    pub(crate) fn new(alloc: Global, keys: Keys) -> Places
        ensures { (name : List ℕ) → places_under result name ≡ [] }
    {
        Places {
            by_name: IndexMap::with_hasher(alloc, keys),
        }
    }

    /// The places under a name.
    pub(crate) fn under(&self, name: &Name) -> &[usize]
        ensures { result.now ≡ places_under self.now name.now }
    {
        match self.by_name.get(name) {
            Some(places) => places.as_slice(),
            None => &[],
        }
    }

    /// Puts a place under all host names of a template.
    pub(crate) fn put_all(
        &mut self,
        alloc: Global,
        key: &Key,
        place: usize,
    ) -> Result<(), AllocError>
        ensures { OnOk result (EntersAll self.old self.new key.now place) }
    {
        for row in rows_of(key) {
            self.put(alloc, &row.host.address, place)?;
        }
        Ok(())
    }

    /// Appends a place to those under a name.
    pub(crate) fn put(&mut self, alloc: Global, name: &Name, place: usize) -> Result<(), AllocError>
        ensures { OnOk result (Enters self.old self.new name.now place) }
    {
        if let Some(places) = self.by_name.get_mut(name) {
            return places.push(place);
        }
        let mut places = Seq::new(alloc);
        places.push(place)?;
        let Ok(_) = self.by_name.insert(name.copy(alloc)?, places) else {
            return Err(AllocError);
        };
        Ok(())
    }

    /// Takes the places under a name out, where there are some.
    pub(crate) fn take(&mut self, name: &Name) -> Option<Seq<usize>>
        ensures taken { unwrap_or result [] ≡ places_under self.old name.now }
        ensures left { Leaves self.old self.new name.now }
    {
        self.by_name.swap_remove(name)
    }
}
