ghost use Rattle.std.specs.Prelude.{◌≡◌, ◌<◌, ◌&&◌, [], nat_eq, true, find, length, slice_get, IfOk, OnOk};
ghost use Rattle.std.specs.List.{list_any, position_or_len};
ghost use Rattle.std.specs.Option.{option_copied};
ghost use Rattle.std.specs.Str.{bytes_eq};
ghost use Rattle.indexmap.specs.IndexMap.{get};
ghost use Rattle.ev_types.specs.declared.routes.Route.{Route};
ghost use Rattle.ev_model.specs.Paths.{is_path_taken, without_query};
ghost use Rattle.ev_routes.specs.Domains.{host_at};
ghost use Rattle.ev_routes.specs.Indexed.{IsIndexed};
ghost use Rattle.ev_routes.specs.Paths.{AreCovered, FindsFirst, KeepsLengths, first_taken, first_with, is_covered, is_part, is_prefix_taken, is_separated_taken, path_of};

use crate::paths::{PREFIX, PathKey, PathText, SEPARATED, WHOLE};
use crate::texts::without_query;
use ev_keys::Keys;
use ev_types::{PathMatch, PathSpecifier, Route, RouteTable, Seq, Shared};
use indexmap::IndexMap;
use std::alloc::{AllocError, Global};

/// The first place of each path match of a virtual host's routes, and the lengths of those by a prefix, each once.
#[derive(Drop)]
pub struct PathIndex {
    places: IndexMap<PathKey, usize, Keys>,
    lengths: Seq<usize>,
}

impl PathIndex {
    /// The index of the virtual host at this place, which hashes by these keys.
    pub(crate) fn new(
        alloc: Global,
        keys: Keys,
        table: &Shared<RouteTable>,
        host: usize,
    ) -> Result<PathIndex, AllocError>
        requires { host < length table.now.hosts }
        ensures { IfOk result (IsIndexed (host_at table.now.hosts host).routes) }
    {
        let routes = table.get().hosts.as_slice()[host].routes.as_slice();
        Ok(PathIndex {
            places: places_of(alloc, keys, table, host, routes.len())?,
            lengths: lengths_of(alloc, routes)?,
        })
    }

    /// How many prefix lengths it has.
    pub(crate) fn lengths(&self) -> usize
        ensures { result ≡ length self.now.lengths }
    {
        self.lengths.len()
    }

    /// The first of the routes that takes the path.
    pub fn route_for<'a>(&self, routes: &'a [Route], path: &[u8]) -> Option<&'a Route>
        requires { IsIndexed routes.now self.now }
        ensures { option_copied result ≡ find (λ (r : Route). is_path_taken path.now (path_of r)) routes.now }
    {
        route_at(routes, self.first_taken(routes, path))
    }

    // The first place of a route that takes the path, or the count of the routes.
    fn first_taken(&self, routes: &[Route], path: &[u8]) -> usize
        requires { IsIndexed routes.now self.now }
        ensures { result ≡ first_taken path.now routes.now }
    {
        let bare = without_query(path);
        let mut first = self.first_whole(routes, path, bare);
        for length in self.lengths.as_slice() {
            first = first
                .min(self.first_prefix(routes, path, *length))
                .min(self.first_separated(routes, path, bare, *length));
        }
        first
    }

    // The first place of a route that takes the whole path.
    fn first_whole(&self, routes: &[Route], path: &[u8], bare: &[u8]) -> usize
        requires index { IsIndexed routes.now self.now }
        requires bare { bare.now ≡ without_query path.now }
        ensures { result
            ≡ position_or_len (λ (r : Route). is_covered [] (path_of r)
            && is_path_taken path.now (path_of r)) routes.now }
    {
        self.first_with(routes, &PathText::new(WHOLE, bare))
    }

    // The first place of a route that takes the path by a prefix of this length before anything.
    fn first_prefix(&self, routes: &[Route], path: &[u8], length: usize) -> usize
        requires { IsIndexed routes.now self.now }
        ensures { result ≡ position_or_len (λ (r : Route). is_prefix_taken length path.now (path_of r)) routes.now }
    {
        if path.len() < length {
            return routes.len();
        }
        let (front, _) = path.split_at(length);
        self.first_with(routes, &PathText::new(PREFIX, front))
    }

    // The first place of a route that takes the path by a prefix of this length before a `/`.
    fn first_separated(&self, routes: &[Route], path: &[u8], bare: &[u8], length: usize) -> usize
        requires index { IsIndexed routes.now self.now }
        requires bare { bare.now ≡ without_query path.now }
        ensures { result ≡ position_or_len (λ (r : Route). is_separated_taken length path.now (path_of r)) routes.now }
    {
        if !is_part(bare, length) {
            return routes.len();
        }
        let (front, _) = bare.split_at(length);
        self.first_with(routes, &PathText::new(SEPARATED, front))
    }

    // The first place of a route with this key.
    fn first_with(&self, routes: &[Route], key: &PathText<'_>) -> usize
        requires { IsIndexed routes.now self.now }
        ensures { result ≡ first_with key.now routes.now }
    {
        match self.places.get(key) {
            Some(place) => *place,
            None => routes.len(),
        }
    }
}

// The route at this place, if there is one.
fn route_at(routes: &[Route], place: usize) -> Option<&Route>
    ensures { option_copied result ≡ slice_get routes.now place }
{
    routes.get(place)
}

// Whether a prefix of this length of the path is all of it, or a `/` follows.
fn is_part(path: &[u8], length: usize) -> bool
    ensures { result ≡ is_part length path.now }
{
    if length < path.len() {
        return path[length] == b'/';
    }
    length == path.len()
}

// The first place of each path match of the first n routes of the virtual host at this place.
fn places_of(
    alloc: Global,
    keys: Keys,
    table: &Shared<RouteTable>,
    host: usize,
    count: usize,
) -> Result<IndexMap<PathKey, usize, Keys>, AllocError>
    requires host { host < length table.now.hosts }
    requires count { count ≡ length (host_at table.now.hosts host).routes }
    ensures { IfOk result (λ places. FindsFirst (host_at table.now.hosts host).routes (get bytes_eq places)) }
{
    let mut places = IndexMap::with_hasher(alloc, keys);
    for route in (0..count).rev() {
        let key = PathKey::new(table.share()?, host, route);
        let Ok(_) = places.insert(key, route) else {
            return Err(AllocError);
        };
    }
    Ok(places)
}

// The prefix lengths of these routes, each once.
fn lengths_of(alloc: Global, routes: &[Route]) -> Result<Seq<usize>, AllocError>
    ensures { IfOk result (λ lengths. AreCovered lengths routes.now) }
{
    let mut lengths = Seq::new(alloc);
    for route in routes {
        enter_route(&mut lengths, route)?;
    }
    Ok(lengths)
}

// Enters the length of a route's match by a front.
fn enter_route(lengths: &mut Seq<usize>, route: &Route) -> Result<(), AllocError>
    ensures covers { OnOk result (is_covered lengths.new (path_of route.now) ≡ true) }
    ensures keeps { OnOk result (KeepsLengths lengths.old lengths.new) }
{
    match &route.route_match.path {
        PathSpecifier::Cased(path) => enter_match(lengths, path),
        _ => Ok(()),
    }
}

// Enters the length of a match by a front.
fn enter_match(lengths: &mut Seq<usize>, path: &PathMatch) -> Result<(), AllocError>
    ensures covers { OnOk result (is_covered lengths.new path.now ≡ true) }
    ensures keeps { OnOk result (KeepsLengths lengths.old lengths.new) }
{
    match path {
        PathMatch::Prefix(front) => enter_length(lengths, front.as_str().len()),
        PathMatch::Path(_) => Ok(()),
        PathMatch::Separated(front) => enter_length(lengths, front.as_str().len()),
    }
}

// Enters a length that isn't there.
fn enter_length(lengths: &mut Seq<usize>, length: usize) -> Result<(), AllocError>
    ensures there { OnOk result (list_any (nat_eq length) lengths.new ≡ true) }
    ensures keeps { OnOk result (KeepsLengths lengths.old lengths.new) }
{
    if has_length(lengths.as_slice(), length) {
        return Ok(());
    }
    lengths.push(length)
}

// Whether the length is there.
fn has_length(lengths: &[usize], length: usize) -> bool
    ensures { result ≡ list_any (nat_eq length) lengths.now }
{
    lengths.iter().any(|other| length == *other)
}
