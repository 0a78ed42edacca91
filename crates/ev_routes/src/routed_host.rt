ghost use Rattle.std.specs.Prelude.{◌≡◌, ◌<◌, length, IfOk};
ghost use Rattle.std.specs.Option.{option_copied};
ghost use Rattle.ev_routes.specs.Domains.{host_at};
ghost use Rattle.ev_routes.specs.Indexed.{MayIndex};
ghost use Rattle.ev_routes.specs.Paths.{are_by_path, is_by_path};

use crate::path_index::PathIndex;
use ev_keys::Keys;
use ev_types::{PathSpecifier, Route, RouteTable, Shared, VirtualHost};
use std::alloc::{AllocError, Global};
use std::marker::Model;

/// As many routes are tried one after the other: that takes less time than looking up, and no memory.
const FEW_ROUTES: usize = 32;

/// As many routes can be tried in the time of the look-ups for one length.
const TRIED: usize = 4;

/// A virtual host of a table, with an index of its routes where they are many. Contracts see the virtual host.
#[derive(Drop)]
pub struct RoutedHost {
    table: Shared<RouteTable>,
    place: usize,
    index: Option<PathIndex>,
}

impl Model for RoutedHost {
    ghost use Rattle.std.specs.Prelude.{◌<◌, length};
    ghost use Rattle.ev_types.specs.declared.routes.VirtualHost.{VirtualHost};
    ghost use Rattle.ev_routes.specs.Domains.{host_at};
    ghost use Rattle.ev_routes.specs.Indexed.{MayIndex};

    ghost Value = { VirtualHost };

    ghost view = { λ h. host_at h.table.hosts h.place };

    ghost invariant = { λ h. (h.place < length h.table.hosts) × MayIndex (host_at h.table.hosts h.place).routes h.index };
}

impl RoutedHost {
    /// The virtual host at this place of the table, of which nothing is copied. An index hashes by these keys.
    pub fn new(
        alloc: Global,
        keys: Keys,
        table: &Shared<RouteTable>,
        place: usize,
    ) -> Result<RoutedHost, AllocError>
        requires { place < length table.now.hosts }
        ensures { IfOk result (λ host. host ≡ host_at table.now.hosts place) }
    {
        let index = index_for(alloc, keys, table, place)?;
        let table = table.share()?;
        Ok(RoutedHost {
            table,
            place,
            index,
        })
    }

    /// The virtual host.
    pub fn host(&self) -> &VirtualHost
        ensures { result.now ≡ self.now }
    {
        &self.table.get().hosts.as_slice()[self.place]
    }

    /// The index of its routes, where each asks for its path alone and they are many.
    pub fn index(&self) -> Option<&PathIndex>
        ensures { MayIndex self.now.routes (option_copied result) }
    {
        self.index.as_ref()
    }
}

// The index of the virtual host at this place, where its routes ask for paths alone,
// and its look-ups take less time than trying them.
fn index_for(
    alloc: Global,
    keys: Keys,
    table: &Shared<RouteTable>,
    place: usize,
) -> Result<Option<PathIndex>, AllocError>
    requires { place < length table.now.hosts }
    ensures { IfOk result (MayIndex (host_at table.now.hosts place).routes) }
{
    let routes = table.get().hosts.as_slice()[place].routes.as_slice();
    let count = routes.len();
    if count <= FEW_ROUTES || !are_by_path(routes) {
        return Ok(None);
    }
    let index = PathIndex::new(alloc, keys, table, place)?;
    if index.lengths() > count / TRIED {
        return Ok(None);
    }
    Ok(Some(index))
}

// Whether each route asks for its path alone, byte by byte.
fn are_by_path(routes: &[Route]) -> bool
    ensures { result ≡ are_by_path routes.now }
{
    routes.iter().all(|route| is_by_path(route))
}

// Whether a route asks for its path alone, byte by byte.
fn is_by_path(route: &Route) -> bool
    ensures { result ≡ is_by_path route.now }
{
    match &route.route_match.path {
        PathSpecifier::Cased(_) => route.route_match.conditions.len() == 0,
        _ => false,
    }
}
