ghost use Rattle.std.specs.Prelude.{◌∷◌, [], nat_eq, OnOk};
ghost use Rattle.ev_expand.specs.Numbers.{guarded_so_far};
ghost use Rattle.ev_dns.specs.declared.answers.Answers.{Answers};
ghost use Rattle.ev_dns.specs.Marking.{Gains};
ghost use Rattle.ev_dns.specs.Waiting.{AreComplete, EntersComplete};

use crate::places::Places;
use ev_expand::Numbers;
use ev_keys::Keys;
use std::alloc::{AllocError, Global};
use std::collections::BTreeSet;

/// The complete places.
#[derive(Drop)]
pub(crate) struct Complete {
    /// All of them.
    pub places: BTreeSet<usize>,
    /// Each under the names of its hosts.
    pub served: Places,
}

impl Complete {
    /// There is none. It takes no memory.
    pub(crate) fn new(alloc: Global, keys: Keys) -> Complete
        ensures { (answers : Answers) → AreComplete answers [] result }
    {
        Complete {
            places: BTreeSet::new(alloc),
            served: Places::new(alloc, keys),
        }
    }

    /// Takes up these places, which are complete now.
    pub(crate) fn enter_all(
        &mut self,
        alloc: Global,
        numbers: &Numbers,
        places: &[usize],
    ) -> Result<(), AllocError>
        ensures { OnOk result (EntersComplete (guarded_so_far numbers.now) places.now self.old self.new) }
    {
        for place in places {
            self.enter(alloc, numbers, *place)?;
        }
        Ok(())
    }

    // Takes up a place.
    fn enter(&mut self, alloc: Global, numbers: &Numbers, place: usize) -> Result<(), AllocError>
        ensures { OnOk result (EntersComplete (guarded_so_far numbers.now) (place ∷ []) self.old self.new) }
    {
        put_place(&mut self.places, place)?;
        match numbers.get(place) {
            Some((key, _)) => self.served.put_all(alloc, key, place),
            None => Ok(()),
        }
    }
}

/// Adds a place to others.
pub(crate) fn put_place(set: &mut BTreeSet<usize>, place: usize) -> Result<(), AllocError>
    ensures { OnOk result (Gains set.old set.new (nat_eq place)) }
{
    let Ok(_) = set.insert(place) else {
        return Err(AllocError);
    };
    Ok(())
}
