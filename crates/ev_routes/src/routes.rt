ghost use Rattle.std.specs.Prelude.{◌≡◌, ◌++◌, ◌||◌, codes, not};
ghost use Rattle.std.specs.Str.{bytes_eq};
ghost use Rattle.std.specs.Option.{option_copied};
ghost use Rattle.ev_model.specs.Choice.{requested_of, route_for};
ghost use Rattle.ev_model.specs.Conditions.{is_no, match_says};
ghost use Rattle.ev_model.specs.Paths.{begins_with, is_path_taken};

use crate::conditions::{is_no, match_says};
use crate::{RoutedHost, begins_with, without_query};
use ev_types::{Ask, PathMatch, Route, VirtualHost};

/// The first route of a virtual host that doesn't say no to a request:
/// by its index where it has one, else by trying each.
pub fn route_for<'a>(host: &'a RoutedHost, ask: &Ask) -> Option<&'a Route>
    ensures { option_copied result ≡ route_for host.now (requested_of ask.now) }
{
    let path = ask.path.as_str().as_bytes();
    match host.index() {
        Some(index) => index.route_for(host.host().routes.as_slice(), path),
        None => try_routes(host.host(), ask),
    }
}

// The first route that doesn't say no, tried one after the other.
fn try_routes<'a>(host: &'a VirtualHost, ask: &Ask) -> Option<&'a Route>
    ensures { option_copied result ≡ route_for host.now (requested_of ask.now) }
{
    host.routes.iter().find(|route| may_take(ask, route))
}

// Whether a route doesn't say no.
fn may_take(ask: &Ask, route: &Route) -> bool
    ensures { result ≡ not (is_no (match_says (requested_of ask.now) route.now.route_match)) }
{
    !is_no(match_says(ask, &route.route_match))
}

/// Whether the match takes the path.
pub(crate) fn is_path_taken(path: &[u8], path_match: &PathMatch) -> bool
    ensures { result ≡ is_path_taken path.now path_match.now }
{
    match path_match {
        PathMatch::Prefix(front) => begins_with(path, front.as_str().as_bytes()),
        PathMatch::Path(whole) => without_query(path) == whole.as_str().as_bytes(),
        PathMatch::Separated(front) => is_separated(without_query(path), front.as_str().as_bytes()),
    }
}

// Whether the path is the prefix, or goes on with a `/` after it.
fn is_separated(path: &[u8], front: &[u8]) -> bool
    ensures { result ≡ (bytes_eq path.now front.now || begins_with path.now (front.now ++ codes "/")) }
{
    path == front || goes_on(path, front)
}

// Whether the path goes on with a `/` after the prefix.
#[tactic(auto, using(crate::proofs::Fronts::begins_more, crate::proofs::Fronts::begins_short))]
fn goes_on(path: &[u8], front: &[u8]) -> bool
    ensures { result ≡ begins_with path.now (front.now ++ codes "/") }
{
    if path.len() <= front.len() {
        return false;
    }
    begins_with(path, front) && path[front.len()] == b'/'
}
