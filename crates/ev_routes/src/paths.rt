ghost use Rattle.std.specs.Prelude.{◌≡◌, ◌<◌, ◌∷◌, length};
ghost use Rattle.ev_routes.specs.Domains.{host_at};
ghost use Rattle.ev_routes.specs.Paths.{match_at, match_key, match_kind, match_text, path_of};

use ev_types::{PathMatch, PathSpecifier, Route, RouteTable, Shared};
use indexmap::Equivalent;
use std::hash::{Hash, Hasher};
use std::marker::Model;

/// The kind of a match by a prefix.
pub(crate) const PREFIX: u8 = 0;

/// The kind of a match of the whole path.
pub(crate) const WHOLE: u8 = 1;

/// The kind of a match by a prefix before a `/`.
pub(crate) const SEPARATED: u8 = 2;

/// A path match as kind and text, by which routes are looked up. Contracts see the key:
/// the kind, then the text. It takes no memory.
#[derive(Drop)]
pub(crate) struct PathText<'a> {
    kind: u8,
    text: &'a [u8],
}

impl<'a> Model for PathText<'a> {
    ghost use Rattle.std.specs.Prelude.{List, ℕ, ◌∷◌};

    ghost Value = { List ℕ };

    ghost view = { λ p. p.kind ∷ p.text.now };
}

impl<'a> PathText<'a> {
    /// The key of this kind and text.
    pub(crate) fn new(kind: u8, text: &'a [u8]) -> PathText<'a>
        ensures { result ≡ kind ∷ text.now }
    {
        PathText { kind, text }
    }

    // The key of a path match.
    fn of(path: &'a PathMatch) -> PathText<'a>
        ensures { result ≡ match_key path.now }
    {
        PathText::new(match_kind(path), match_text(path))
    }

    /// The key of a route's path match.
    pub(crate) fn of_route(route: &'a Route) -> PathText<'a>
        ensures { result ≡ match_key (path_of route.now) }
    {
        match &route.route_match.path {
            PathSpecifier::Cased(path) => PathText::of(path),
            _ => PathText::new(WHOLE, b""),
        }
    }
}

// The kind of a path match.
fn match_kind(path: &PathMatch) -> u8
    ensures { result ≡ match_kind path.now }
{
    match path {
        PathMatch::Prefix(_) => PREFIX,
        PathMatch::Path(_) => WHOLE,
        PathMatch::Separated(_) => SEPARATED,
    }
}

// The text of a path match.
fn match_text(path: &PathMatch) -> &[u8]
    ensures { result.now ≡ match_text path.now }
{
    match path {
        PathMatch::Prefix(text) => text.as_str().as_bytes(),
        PathMatch::Path(text) => text.as_str().as_bytes(),
        PathMatch::Separated(text) => text.as_str().as_bytes(),
    }
}

impl<'a> PartialEq for PathText<'a> {
    ghost use Rattle.std.specs.Str.{bytes_eq};
    ghost use Rattle.std.specs.Cmp.Rules.{comparing};
    ghost use Rattle.std.proofs.Common.{rules};

    ghost eq = { bytes_eq };

    ghost laws = { Prim.search (comparing, rules) };

    fn eq(&self, other: &PathText<'a>) -> bool {
        self.kind == other.kind && self.text == other.text
    }
}

impl<'a> Eq for PathText<'a> {
    ghost use Rattle.std.specs.Cmp.Rules.{comparing};
    ghost use Rattle.std.proofs.Common.{rules};

    ghost laws = { Prim.search (comparing, rules) };
}

impl<'a> Hash for PathText<'a> {
    ghost use Rattle.std.specs.Prelude.{flat_map};
    ghost use Rattle.std.specs.Hash as fed;
    ghost use Rattle.std.specs.Cmp.Lexicographic.{bytes_decides};
    ghost use Rattle.std.proofs.Common.{ap};

    ghost hash_input = { flat_map fed.u8 };

    ghost respects_eq = { λ a b same. ap (flat_map fed.u8) ((bytes_decides a b).0 same) };

    fn hash<H: Hasher>(&self, state: &mut H) {
        state.write_u8(self.kind);
        u8::hash_slice(self.text, state);
    }
}

/// A route of a table as the key of its path match, of which nothing is copied.
#[derive(Drop)]
pub(crate) struct PathKey {
    table: Shared<RouteTable>,
    host: usize,
    route: usize,
}

impl Model for PathKey {
    ghost use Rattle.std.specs.Prelude.{List, ℕ, ◌<◌, length};
    ghost use Rattle.ev_routes.specs.Domains.{host_at};
    ghost use Rattle.ev_routes.specs.Paths.{match_at, match_key};

    ghost Value = { List ℕ };

    ghost view = { λ k. match_key (match_at (host_at k.table.hosts k.host) k.route) };

    ghost invariant = { λ k. (k.host < length k.table.hosts) × (k.route < length (host_at k.table.hosts k.host).routes) };
}

impl PathKey {
    /// The key of the route at this place of the virtual host at this place of the table.
    pub(crate) fn new(table: Shared<RouteTable>, host: usize, route: usize) -> PathKey
        requires host { host < length table.hosts }
        requires route { route < length (host_at table.hosts host).routes }
        ensures { result ≡ match_key (match_at (host_at table.hosts host) route) }
    {
        PathKey { table, host, route }
    }

    // Its kind and text.
    fn text(&self) -> PathText<'_>
        ensures { result ≡ self.now }
    {
        PathText::of_route(
            &self.table.get().hosts.as_slice()[self.host]
                .routes
                .as_slice()[self.route],
        )
    }
}

impl PartialEq for PathKey {
    ghost use Rattle.std.specs.Str.{bytes_eq};
    ghost use Rattle.std.specs.Cmp.Rules.{comparing};
    ghost use Rattle.std.proofs.Common.{rules};

    ghost eq = { bytes_eq };

    ghost laws = { Prim.search (comparing, rules) };

    fn eq(&self, other: &PathKey) -> bool {
        self.text() == other.text()
    }
}

impl Eq for PathKey {
    ghost use Rattle.std.specs.Cmp.Rules.{comparing};
    ghost use Rattle.std.proofs.Common.{rules};

    ghost laws = { Prim.search (comparing, rules) };
}

impl Hash for PathKey {
    ghost use Rattle.std.specs.Prelude.{flat_map};
    ghost use Rattle.std.specs.Hash as fed;
    ghost use Rattle.std.specs.Cmp.Lexicographic.{bytes_decides};
    ghost use Rattle.std.proofs.Common.{ap};

    ghost hash_input = { flat_map fed.u8 };

    ghost respects_eq = { λ a b same. ap (flat_map fed.u8) ((bytes_decides a b).0 same) };

    fn hash<H: Hasher>(&self, state: &mut H) {
        self.text().hash(state);
    }
}

impl<'a> Equivalent<PathKey> for &PathText<'a> {
    ghost use Rattle.std.specs.Prelude.{flat_map};
    ghost use Rattle.std.specs.Str.{bytes_eq};
    ghost use Rattle.std.specs.Cmp.Lexicographic.{bytes_decides, nat_list_eq_equiv};
    ghost use Rattle.std.specs.Hash as fed;
    ghost use Rattle.std.proofs.Common.{ap};

    ghost equivalent = { λ q k. bytes_eq q.now k };

    ghost respects_hash = { λ q k h. ap (flat_map fed.u8) ((bytes_decides q.now k).0 h) };

    ghost respects_eq = { λ q x y. nat_list_eq_equiv.congr q.now x y };

    fn equivalent(&self, key: &PathKey) -> bool {
        **self == key.text()
    }
}
