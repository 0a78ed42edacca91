//! What a picture shows of listeners.

ghost use Rattle.std.specs.Prelude.{◌≡◌, [], ◌∷◌, Some, map, option_map, IfOk};
ghost use Rattle.ev_types.specs.declared.contents.Content.TheVariants.{Listener as a_listener};
ghost use Rattle.ev_types.specs.declared.contents.Kind.TheVariants.{Rds};
ghost use Rattle.ev_lookups.specs.Keys.{named};
ghost use Rattle.ev_model.specs.Origins.{placed_default, placed_from};
ghost use Rattle.ev_indexes.specs.Origins.{AreKept};
ghost use Rattle.ev_model.specs.Picture.{table_in};
ghost use Rattle.ev_indexes.specs.Indexes.{IsIndexed};
ghost use Rattle.ev_indexes.specs.Reads.{chain_in, listener_in, routing_in};
ghost use Rattle.ev_indexes.specs.Shown.{first_of, listener_shown_in, listener_by, routed_at};
ghost use Rattle.ev_indexes.specs.Watched.{watch_in};
ghost use Rattle.ev_indexes.specs.Worlds.{InWorlds};

use crate::origins::{KeptPlaces, kept_places, origin_of};
use crate::shown::lacks_secret;
use crate::{State, Watches};
use ev_model::{Routing, ServedChain, ServedListener};
use ev_types::{
    ChainPlace, Content, FilterChain, Gen, GenRow, Kind, Listener, Name, RouteTable, Seq, Serve,
    Shared, TryCopy,
};
use std::alloc::{AllocError, Global};

impl State {
    /// What a picture shows of the listener of this number once listeners serve:
    /// where it is active, its chains with their routes or targets.
    /// It costs a look-up of the number, and one of a name for each chain that depends on one.
    pub fn listener(&self, alloc: Global, number: Gen) -> Result<Option<ServedListener>, AllocError>
        requires indexed { IsIndexed self.now }
        ensures rows { IfOk result (λ served. served ≡ listener_by self.now number) }
        ensures world { IfOk result (λ served. InWorlds self.now (λ world. served ≡ routed_at world number)) }
    {
        match self.table.get(number) {
            Some(row) => active_listener(alloc, &self.watches, row),
            None => Ok(None),
        }
    }
}

// A listener with its chains, where it is active.
fn active_listener(
    alloc: Global,
    watches: &Watches,
    row: &GenRow,
) -> Result<Option<ServedListener>, AllocError>
    ensures { IfOk result (λ served. served ≡ listener_shown_in watches.now (Some row.now)) }
{
    if !row.kind.is(Kind::Lds) || !row.status.is_active() {
        return Ok(None);
    }
    listener(alloc, watches, row)
}

// A listener with its chains; what is no listener isn't shown.
fn listener(
    alloc: Global,
    watches: &Watches,
    row: &GenRow,
) -> Result<Option<ServedListener>, AllocError>
    ensures { IfOk result (λ served. served ≡ first_of (listener_in watches.now row.now row.now.content)) }
{
    let Content::Listener(listener) = &row.content else {
        return Ok(None);
    };
    let kept = kept_places(alloc, row.kept.as_slice())?;
    let served = with_chains(alloc, watches, row, &kept, listener.get())?;
    Ok(Some(served))
}

// A listener of a generation with its chains.
fn with_chains(
    alloc: Global,
    watches: &Watches,
    row: &GenRow,
    kept: &KeptPlaces,
    listener: &Listener,
) -> Result<ServedListener, AllocError>
    requires kept { AreKept row.now.kept kept.now }
    ensures { IfOk result (λ served. served ∷ [] ≡ listener_in watches.now row.now (a_listener listener.now)) }
{
    let filter_chains = chains(alloc, watches, row, kept, listener.filter_chains.as_slice())?;
    let default_filter_chain = default_chain(
        alloc,
        watches,
        row,
        kept,
        &listener.default_filter_chain,
    )?;
    Ok(ServedListener {
        number: row.number,
        name: row.name.copy(alloc)?,
        address: listener.address.host.copy(alloc)?,
        takes_every_address: listener.takes_every_address,
        udp: listener.address.udp,
        restores: listener.restores,
        hands_over: listener.hands_over,
        filter_chains,
        default_filter_chain,
    })
}

// These chains of a generation, each with where its connections go.
fn chains(
    alloc: Global,
    watches: &Watches,
    row: &GenRow,
    kept: &KeptPlaces,
    chains: &[FilterChain],
) -> Result<Seq<ServedChain>, AllocError>
    requires kept { AreKept row.now.kept kept.now }
    ensures { IfOk result (λ served. served ≡ map (chain_in watches.now row.now) (placed_from 0 chains.now)) }
{
    let mut served = Vec::new(alloc);
    let mut place = 0u32;
    for given in chains {
        served.push(chain(alloc, watches, row, kept, ChainPlace::At(place), given)?)?;
        place = place.checked_add(1).ok_or(AllocError)?;
    }
    Ok(Seq::from_vec(served))
}

// The chain of a generation that takes what no other does, if there is one.
fn default_chain(
    alloc: Global,
    watches: &Watches,
    row: &GenRow,
    kept: &KeptPlaces,
    given: &Option<FilterChain>,
) -> Result<Option<ServedChain>, AllocError>
    requires kept { AreKept row.now.kept kept.now }
    ensures { IfOk result (λ served. served ≡ option_map (λ c. chain_in watches.now row.now (placed_default c)) given.now) }
{
    match given {
        Some(given) => Ok(Some(chain(alloc, watches, row, kept, ChainPlace::Default, given)?)),
        None => Ok(None),
    }
}

// A chain of a generation, with where its connections go.
fn chain(
    alloc: Global,
    watches: &Watches,
    row: &GenRow,
    kept: &KeptPlaces,
    place: ChainPlace,
    chain: &FilterChain,
) -> Result<ServedChain, AllocError>
    requires kept { AreKept row.now.kept kept.now }
    ensures { IfOk result (λ served. served ≡ chain_in watches.now row.now (record { place = place; chain = chain.now })) }
{
    let is_given = !chain.body_text.as_str().is_empty();
    Ok(ServedChain {
        place: if is_given { Some(place) } else { None },
        origin: if is_given {
            Some(origin_of(row.number, kept, place))
        } else {
            None
        },
        criteria: chain.criteria.copy(alloc)?,
        routing: routing(alloc, watches, &chain.serve)?,
        lacks_secret: lacks_secret(watches, chain.secrets.as_slice()),
    })
}

// Where a chain's connections go.
fn routing(alloc: Global, watches: &Watches, serve: &Serve) -> Result<Routing, AllocError>
    ensures { IfOk result (λ routing. routing ≡ routing_in watches.now serve.now) }
{
    match serve {
        Serve::Rds { name, .. } => Ok(Routing::Table(value(alloc, watches, name)?)),
        Serve::Inline(table) => Ok(Routing::Table(table.copy(alloc)?)),
        Serve::Tcp(target) => Ok(Routing::Tcp(target.copy(alloc)?)),
        Serve::Other => Ok(Routing::Other),
    }
}

// The routes that are the value of a name, or none.
fn value(alloc: Global, watches: &Watches, name: &Name) -> Result<Shared<RouteTable>, AllocError>
    ensures { IfOk result (λ table. table ≡ table_in (watch_in watches.now (named Rds name.now)).value) }
{
    if let Some(watch) = watches.get(Kind::Rds, name) {
        if let Some(Content::Routes(table)) = &watch.value {
            return table.copy(alloc);
        }
    }
    Shared::new(
        alloc,
        RouteTable {
            hosts: Seq::new(alloc),
        },
    )
}
