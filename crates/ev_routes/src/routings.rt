ghost use Rattle.std.specs.Prelude.{◌≡◌, IfOk, IfSome};
ghost use Rattle.std.specs.Option.{option_copied};
ghost use Rattle.ev_routes.specs.Domains.{host_for};

use crate::domain_lists::domains_in;
use crate::domain_table::Domains;
use crate::routed_host::RoutedHost;
use ev_keys::Keys;
use ev_model::Routing;
use ev_types::{Shared, TryCopy};
use std::alloc::{AllocError, Global};
use std::marker::Model;

/// Where the connections of a filter chain go, with the domains of its routes as lower case. Contracts see the routing.
#[derive(Drop)]
pub struct IndexedRouting {
    routing: Routing,
    domains: Domains,
}

impl Model for IndexedRouting {
    ghost use Rattle.std.specs.Prelude.{◌≡◌};
    ghost use Rattle.ev_model.specs.declared.pictures.Routing.{Routing};
    ghost use Rattle.ev_routes.specs.Domains.{domains_in};

    ghost Value = { Routing };

    ghost view = { λ r. r.routing };

    ghost invariant = { λ r. r.domains ≡ domains_in r.routing };
}

impl IndexedRouting {
    /// A copy of this routing; its routes are shared. Its tables hash by these keys.
    pub fn new(alloc: Global, keys: Keys, routing: &Routing) -> Result<IndexedRouting, AllocError>
        ensures { IfOk result (λ indexed. indexed ≡ routing.now) }
    {
        let domains = domains_in(alloc, keys, routing)?;
        let routing = routing.copy(alloc)?;
        Ok(IndexedRouting { routing, domains })
    }

    /// The routing.
    pub fn routing(&self) -> &Routing
        ensures { result.now ≡ self.now }
    {
        &self.routing
    }

    /// The virtual host that a host text goes to.
    pub fn virtual_host(&self, host: &str) -> Option<&RoutedHost>
        ensures { option_copied result ≡ host_for self.now host.now }
    {
        match self.domains.find(host.as_bytes()) {
            Some(domain) => Some(domain.host()),
            None => None,
        }
    }
}

impl PartialEq for IndexedRouting {
    ghost use Rattle.std.specs.Cmp.{decided, partial_equiv_from_equiv};
    ghost use Rattle.ev_model.specs.Picture.{routing_same, routing_decides};

    ghost eq = { routing_same };

    ghost laws = { partial_equiv_from_equiv (decided routing_same routing_decides) };

    fn eq(&self, other: &IndexedRouting) -> bool {
        self.routing == other.routing
    }
}

/// The routing with its domains, shared with one of these where that is the same.
pub fn indexed(
    alloc: Global,
    keys: Keys,
    routing: &Routing,
    before: Option<&Shared<IndexedRouting>>,
    last: Option<&Shared<IndexedRouting>>,
) -> Result<Shared<IndexedRouting>, AllocError>
    ensures { IfOk result (λ shared. shared ≡ routing.now) }
{
    if let Some(same) = same_as(routing, last) {
        return same.share();
    }
    if let Some(same) = same_as(routing, before) {
        return same.share();
    }
    Shared::new(alloc, IndexedRouting::new(alloc, keys, routing)?)
}

// The other routing, where it is the same.
fn same_as<'a>(
    routing: &Routing,
    other: Option<&'a Shared<IndexedRouting>>,
) -> Option<&'a Shared<IndexedRouting>>
    ensures { IfSome result (λ same. same.now ≡ routing.now) }
{
    let Some(other) = other else {
        return None;
    };
    if *other.get().routing() == *routing {
        Some(other)
    } else {
        None
    }
}
