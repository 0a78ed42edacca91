ghost use Rattle.std.specs.Prelude.{◌≡◌, [], nat_eq, true, OnOk};
ghost use Rattle.std.specs.List.{list_all};
ghost use Rattle.indexmap.specs.IndexSet.{contains};
ghost use Rattle.ev_expand.specs.Numbers.{guarded_so_far};
ghost use Rattle.ev_tls.specs.declared.awaited.Awaited.TheVariants.{Endpoints};
ghost use Rattle.ev_tls.specs.declared.known.Told.{Told};
ghost use Rattle.ev_tls.specs.Awaited.{services_of};
ghost use Rattle.ev_tls.specs.Marking.{GainsPlaces};
ghost use Rattle.ev_tls.specs.Places.{stands_under};
ghost use Rattle.ev_tls.specs.Waiting.{AreComplete, EntersAll, EntersOne, KeepsUnder, is_served};

use crate::awaited::Awaited;
use crate::places::Places;
use ev_expand::Numbers;
use ev_keys::Keys;
use ev_types::{Discovery, Name, TryCopy};
use indexmap::IndexSet;
use std::alloc::{AllocError, Global};

/// The complete places.
#[derive(Drop)]
pub(crate) struct Complete {
    /// All of them.
    pub places: IndexSet<usize>,
    /// Each under its endpoints, where it asks for some.
    pub served: Places,
}

impl Complete {
    /// There is none. It takes no memory.
    pub(crate) fn new(alloc: Global, keys: Keys) -> Complete
        ensures { (told : Told) → AreComplete told [] result }
    {
        Complete {
            places: IndexSet::new(alloc),
            served: Places::new(alloc, keys),
        }
    }

    /// Takes up these places, which are complete now.
    pub(crate) fn enter_all(
        &mut self,
        alloc: Global,
        numbers: &Numbers,
        places: &IndexSet<usize>,
    ) -> Result<(), AllocError>
        ensures { OnOk result (EntersAll (guarded_so_far numbers.now) (contains nat_eq places.now) self.old self.new) }
    {
        for place in places {
            self.enter(alloc, numbers, *place)?;
        }
        Ok(())
    }

    // Takes up a place.
    fn enter(&mut self, alloc: Global, numbers: &Numbers, place: usize) -> Result<(), AllocError>
        ensures { OnOk result (EntersOne (guarded_so_far numbers.now) place self.old self.new) }
    {
        insert_place(&mut self.places, place)?;
        match numbers.get(place) {
            Some((key, _)) => serve(alloc, &mut self.served, &key.cluster.discovery, place),
            None => Ok(()),
        }
    }
}

// Puts a place under the endpoints that a cluster asks for, where it does.
fn serve(
    alloc: Global,
    served: &mut Places,
    discovery: &Discovery,
    place: usize,
) -> Result<(), AllocError>
    ensures kept { OnOk result (KeepsUnder served.old served.new) }
    ensures served { OnOk result (is_served served.new place discovery.now ≡ true) }
{
    match discovery {
        Discovery::Eds { service, .. } => serve_by(alloc, served, service, place),
        Discovery::Static(_) => Ok(()),
        Discovery::Elsewhere => Ok(()),
    }
}

// Puts a place under endpoints of this name.
fn serve_by(
    alloc: Global,
    served: &mut Places,
    service: &Name,
    place: usize,
) -> Result<(), AllocError>
    ensures kept { OnOk result (KeepsUnder served.old served.new) }
    ensures served { OnOk result (stands_under served.new (Endpoints service.now) place ≡ true) }
{
    let endpoints = Awaited::Endpoints(service.copy(alloc)?);
    served.put(alloc, &endpoints, place)
}

/// Puts a place into a set.
pub(crate) fn insert_place(set: &mut IndexSet<usize>, place: usize) -> Result<(), AllocError>
    ensures { OnOk result (GainsPlaces (nat_eq place) set.old set.new) }
{
    let Ok(_) = set.insert(place) else {
        return Err(AllocError);
    };
    Ok(())
}
