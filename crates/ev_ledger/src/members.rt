ghost use Rattle.std.specs.Prelude.{◌≡◌, ◌<◌, ◌^◌, ◌+◌, None, Some, length, map, filter, is_some, IfOk, OnOk, OnErr};
ghost use Rattle.std.specs.List.{list_any};
ghost use Rattle.std.specs.Map.{lookup, remove_entry};
ghost use Rattle.std.specs.BTreeMap.{insert_entry, is_at, IsOrdered};
ghost use Rattle.ev_ledger.specs.Entries.{key_order, is_at_worker, SetsAt};

use crate::open_on::On;
use std::alloc::AllocError;
use std::collections::BTreeMap;

/// The open connections: by worker and number, what each is open on.
/// A worker's number has 64 bits here, so that there is one above each.
pub(crate) type Members = BTreeMap<(u64, u64), On>;

/// Adds a connection to the others. Out of memory, they stay as they were.
pub(crate) fn put(members: &mut Members, place: (u64, u64), on: &On) -> Result<(), AllocError>
    ensures entries { OnOk result (members.new.entries ≡ insert_entry key_order members.old.entries place on.now) }
    ensures found { OnOk result (SetsAt place (Some on.now) members.old.entries members.new.entries) }
    ensures err { OnErr result (members.new.entries ≡ members.old.entries) }
    ensures few { length members.old.entries < 2 ^ 63 }
    ensures ordered { IsOrdered key_order members.old }
{
    // How many there are fits, whatever they are.
    let _ = members.len();
    // The parts are named since the prover, at a whole struct that goes into a map, misses the types of its fields.
    let On {
        listener,
        cluster,
        origin,
    } = *on;
    let Ok(_) = members.insert(
        place,
        On {
            listener,
            cluster,
            origin,
        },
    ) else {
        return Err(AllocError);
    };
    Ok(())
}

/// Takes a connection out, where it is there. It takes no memory.
pub(crate) fn take(members: &mut Members, place: (u64, u64)) -> Option<On>
    ensures found { result ≡ lookup (is_at (key_order place)) members.old.entries }
    ensures entries { members.new.entries ≡ remove_entry (is_at (key_order place)) members.old.entries }
    ensures left { SetsAt place None members.old.entries members.new.entries }
    ensures ordered { IsOrdered key_order members.old }
{
    // They are in the order of their places.
    let _ = members.len();
    members.remove(&place)
}

/// What the connection at a place is open on, where there is one. It takes no memory.
pub(crate) fn found(members: &Members, place: (u64, u64)) -> Option<On>
    ensures found { result ≡ lookup (is_at (key_order place)) members.now.entries }
    ensures ordered { IsOrdered key_order members.now }
{
    // They are in the order of their places.
    let _ = members.len();
    members.get(&place).copied()
}

/// Whether there is a connection at a place.
pub(crate) fn is_there(members: &Members, place: (u64, u64)) -> bool
    ensures { result ≡ is_some (lookup (is_at (key_order place)) members.now.entries) }
{
    members.contains_key(&place)
}

/// Whether a worker has a connection. It looks at one at most.
pub(crate) fn has_any(members: &Members, worker: u64) -> bool
    requires { worker + 1 < 2 ^ 64 }
    ensures { result ≡ list_any (is_at_worker worker) members.now.entries }
{
    members.range((worker, 0)..(worker + 1, 0)).next().is_some()
}
