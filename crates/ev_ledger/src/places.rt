ghost use Rattle.std.specs.Prelude.{◌≡◌, ◌<◌, ◌^◌, ◌+◌, true, false, map, filter, IfOk, OnOk, OnErr};
ghost use Rattle.ev_ledger.specs.Entries.{place_of, stands_on, EntersUnder, LeavesUnder, SameKeys, SetsKey};

use ev_types::Gen;
use std::alloc::{AllocError, Global};
use std::collections::BTreeSet;

/// The open connections under the numbers of generations, of their listeners or of those
/// where their chains began: a number, and each one's worker and number.
/// A generation's number has 64 bits here, so that there is one above each.
pub(crate) type Places = BTreeSet<(u64, (u64, u64))>;

/// Puts a connection under a generation, where there is one. Out of memory, all stay as they were.
pub(crate) fn enter_under(
    places: &mut Places,
    number: &Option<Gen>,
    place: (u64, u64),
) -> Result<(), AllocError>
    ensures entered { OnOk result (EntersUnder number.now place places.old places.new) }
    ensures err { OnErr result (SameKeys places.old places.new) }
{
    match number {
        Some(number) => enter(places, (number.number() as u64, place)),
        None => Ok(()),
    }
}

/// Takes a connection out under a generation, where there is one. It takes no memory.
pub(crate) fn leave_under(places: &mut Places, number: &Option<Gen>, place: (u64, u64))
    ensures { LeavesUnder number.now place places.old places.new }
{
    if let Some(number) = number {
        leave(places, (number.number() as u64, place));
    }
}

// Puts a key among the others. Out of memory, they stay as they were.
fn enter(places: &mut Places, key: (u64, (u64, u64))) -> Result<(), AllocError>
    ensures entered { OnOk result (SetsKey key true places.old places.new) }
    ensures err { OnErr result (SameKeys places.old places.new) }
{
    let Ok(_) = places.insert(key) else {
        return Err(AllocError);
    };
    Ok(())
}

// Takes a key out. It takes no memory.
fn leave(places: &mut Places, key: (u64, (u64, u64)))
    ensures { SetsKey key false places.old places.new }
{
    places.remove(&key);
}

/// The worker and the number of each connection under a generation.
pub(crate) fn places_under(
    alloc: Global,
    places: &Places,
    number: u64,
) -> Result<Vec<(u64, u64)>, AllocError>
    requires { number + 1 < 2 ^ 64 }
    ensures { IfOk result (λ under. under.items ≡ map place_of (filter (stands_on number) places.now.keys)) }
{
    places
        .range((number, (0, 0))..(number + 1, (0, 0)))
        .map(|key| key.1)
        .collect(alloc)
}
