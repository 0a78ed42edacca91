ghost use Rattle.std.specs.Prelude.{◌≡◌, ◌<◌, ℕ, List, None, Some, length, IfOk, OnOk, if◌then◌else◌};
ghost use Rattle.std.specs.List.{IsDistinct};
ghost use Rattle.std.specs.Map.{lookup, keys_of};
ghost use Rattle.ev_types.specs.SameHosts.{host_same, place_of, ArePlacesIn, Puts};
ghost use Rattle.ev_types.specs.declared.limits.TheConstants.{ROW_LIMIT};

use crate::{Host, HostRow, TryCopy};
use ev_keys::Keys;
use indexmap::IndexMap;
use std::alloc::{AllocError, Global};
use std::hash::{DefaultHasher, Hash};
use std::marker::Model;

/// Hosts, each once, with the place of its first row. One is found without a walk:
/// by keys that are made of them all. Contracts see them as a list.
#[derive(Drop)]
pub(crate) struct HostIndex {
    places: IndexMap<Host, u32, Keys>,
}

impl Model for HostIndex {
    ghost use Rattle.std.specs.Prelude.{ℕ, List};
    ghost use Rattle.ev_types.specs.declared.hosts.Host as declared;

    ghost Value = { List (declared.Host × ℕ) };

    ghost view = { λ x. x.places.entries };
}

impl HostIndex {
    /// The hosts of these rows.
    pub(crate) fn of(alloc: Global, rows: &[HostRow]) -> Result<HostIndex, AllocError>
        requires { length rows.now < ROW_LIMIT }
        ensures { IfOk result (ArePlacesIn rows.now) }
    {
        let mut places = IndexMap::with_hasher(alloc, keys_of(rows));
        for place in 0..rows.len() {
            let row = &rows[place];
            put(alloc, &mut places, &row.host, place as u32)?;
        }
        Ok(HostIndex { places })
    }

    /// The place of a host's first row.
    pub(crate) fn place_of(&self, host: &Host) -> Option<u32>
        ensures { result ≡ lookup (host_same host.now) self.now }
    {
        self.places.get(host).copied()
    }

    /// How many there are. No two are equal.
    pub(crate) fn len(&self) -> usize
        ensures count { result ≡ length self.now }
        ensures distinct { IsDistinct host_same (keys_of self.now) }
    {
        self.places.len()
    }
}

// Keys that are made of the hosts of these rows.
fn keys_of(rows: &[HostRow]) -> Keys {
    let mut fed = DefaultHasher::new();
    for row in rows {
        row.host.hash(&mut fed);
    }
    Keys::after(fed)
}

// Puts one more host among them, where it isn't there already.
fn put(
    alloc: Global,
    places: &mut IndexMap<Host, u32, Keys>,
    host: &Host,
    place: u32,
) -> Result<(), AllocError>
    ensures { OnOk result (Puts places.old.entries places.new.entries host.now place) }
{
    if places.contains_key(host) {
        return Ok(());
    }
    let Ok(_) = places.insert(host.copy(alloc)?, place) else {
        return Err(AllocError);
    };
    Ok(())
}
