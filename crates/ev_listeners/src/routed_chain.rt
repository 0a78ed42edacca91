ghost use Rattle.std.specs.Prelude.{◌≡◌, IfOk};
ghost use Rattle.ev_model.specs.Picture.{stands_same};

use ev_keys::Keys;
use ev_model::ServedChain;
use ev_routes::{IndexedRouting, indexed};
use ev_types::{ChainPlace, FilterChainMatch, Origin, Shared};
use std::alloc::{AllocError, Global};
use std::marker::Model;

/// A filter chain of a listener in a picture. Its criteria are shared with the resource
/// that brought them, and its routing with the pictures before and after that show the same there.
/// Contracts see the chain.
#[derive(Drop)]
pub struct RoutedChain {
    place: Option<ChainPlace>,
    origin: Option<Origin>,
    criteria: Shared<FilterChainMatch>,
    routing: Shared<IndexedRouting>,
    lacks_secret: bool,
}

impl Model for RoutedChain {
    ghost use Rattle.ev_model.specs.declared.pictures.ServedChain.{ServedChain};

    ghost Value = { ServedChain };

    ghost view = { λ c. record {
      place = c.place;
      origin = c.origin;
      criteria = c.criteria;
      routing = c.routing;
      lacks_secret = c.lacks_secret;
    } };
}

impl RoutedChain {
    /// This chain, with its tables. They are shared with the last chain that was made, or with the one that was there
    /// before, where that has the same routing. New ones hash by these keys.
    pub(crate) fn new(
        alloc: Global,
        keys: Keys,
        chain: &ServedChain,
        before: Option<&RoutedChain>,
        last: Option<&RoutedChain>,
    ) -> Result<RoutedChain, AllocError>
        ensures { IfOk result (λ routed. routed ≡ chain.now) }
    {
        let criteria = chain.criteria.share()?;
        let routing = indexed(
            alloc,
            keys,
            &chain.routing,
            routing_of(before),
            routing_of(last),
        )?;
        Ok(RoutedChain {
            place: chain.place,
            origin: chain.origin,
            criteria,
            routing,
            lacks_secret: chain.lacks_secret,
        })
    }

    /// Its place in its listener, where that is known.
    pub fn place(&self) -> Option<ChainPlace>
        ensures { result ≡ self.now.place }
    {
        self.place
    }

    /// Where it began, where that is known.
    pub fn origin(&self) -> Option<Origin>
        ensures { result ≡ self.now.origin }
    {
        self.origin
    }

    /// Which connections it takes.
    pub fn criteria(&self) -> &FilterChainMatch
        ensures { result.now ≡ self.now.criteria }
    {
        self.criteria.get()
    }

    /// Where they go.
    pub fn routing(&self) -> &IndexedRouting
        ensures { result.now ≡ self.now.routing }
    {
        self.routing.get()
    }

    /// Whether a secret of its own is missing, so that no handshake succeeds.
    pub fn lacks_secret(&self) -> bool
        ensures { result ≡ self.now.lacks_secret }
    {
        self.lacks_secret
    }

    // Whether both have the same place and the same origin.
    fn stands_as(&self, other: &RoutedChain) -> bool
        ensures { result ≡ stands_same self.now other.now }
    {
        self.place == other.place && self.origin == other.origin
    }
}

impl PartialEq for RoutedChain {
    ghost use Rattle.std.specs.Cmp.{decided, partial_equiv_from_equiv};
    ghost use Rattle.ev_model.specs.Picture.{served_chain_same, served_chain_decides};

    ghost eq = { served_chain_same };

    ghost laws = { partial_equiv_from_equiv (decided served_chain_same served_chain_decides) };

    fn eq(&self, other: &RoutedChain) -> bool {
        self.stands_as(other)
            && self.criteria == other.criteria
            && self.routing == other.routing
            && self.lacks_secret == other.lacks_secret
    }
}

// The routing of a chain with its tables, if there is one.
fn routing_of(chain: Option<&RoutedChain>) -> Option<&Shared<IndexedRouting>> {
    match chain {
        Some(chain) => Some(&chain.routing),
        None => None,
    }
}
