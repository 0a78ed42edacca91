ghost use Rattle.std.specs.Prelude.{◌≡◌, map, option_to_list, IfOk};
ghost use Rattle.std.specs.List.{list_any};
ghost use Rattle.std.specs.Option.{option_copied};
ghost use Rattle.ev_types.specs.FilterChains.{has_value, overlap, collide, collide_for_destination, collide_for_source, has_collision};
ghost use Rattle.ev_types.specs.declared.listeners.FilterChain as declared;
ghost use Rattle.ev_listener_json.specs.ChainPlaces.{any_collides, any_under, collides_given, collides_there, fewer_keys, fewest_keys, HasAll};

use crate::chain_keys::{ChainKey, Criterion, hash_keys_of, keys_by};
use crate::chain_places::ChainPlaces;
use ev_types::{FilterChain, FilterChainMatch};
use std::alloc::{AllocError, Global};

/// Whether two filter chains may take one connection: by each criterion they have a value in common, or none in both.
/// Each chain is compared with those before it that are found by its keys.
pub fn has_collision(alloc: Global, chains: &[FilterChain]) -> Result<bool, AllocError>
    ensures { IfOk result (λ has. has ≡ has_collision (map (λ (c : declared.FilterChain). c.criteria) chains.now)) }
{
    let mut places = ChainPlaces::new(alloc, hash_keys_of(chains));
    for (place, chain) in chains.iter().enumerate() {
        let one = chain.criteria.get();
        if collides_with_any(alloc, &places, &chains[..place], one)? {
            return Ok(true);
        }
        places.put_match(alloc, one, place)?;
    }
    Ok(false)
}

// Whether a chain and one of these may take one connection.
fn collides_with_any<'a>(
    alloc: Global,
    places: &ChainPlaces<'a>,
    chains: &[FilterChain],
    one: &'a FilterChainMatch,
) -> Result<bool, AllocError>
    requires { HasAll chains.now places.now }
    ensures { IfOk result (λ collides. collides ≡ any_collides chains.now one.now) }
{
    let keys = fewest_keys(alloc, places, one)?;
    Ok(any_under(places, chains, one, keys.as_slice()))
}

// The keys of a match by a criterion: of the seven one under whose keys the fewest places are.
fn fewest_keys<'a>(
    alloc: Global,
    places: &ChainPlaces<'a>,
    one: &'a FilterChainMatch,
) -> Result<Vec<ChainKey<'a>>, AllocError>
    ensures { IfOk result (λ keys. keys.items ≡ fewest_keys places.now one.now) }
{
    let ports = keys_by(alloc, Criterion::Port, one)?;
    let ranges = keys_by(alloc, Criterion::Range, one)?;
    let names = keys_by(alloc, Criterion::Name, one)?;
    let protocols = keys_by(alloc, Criterion::Protocol, one)?;
    let direct = keys_by(alloc, Criterion::DirectSource, one)?;
    let sources = keys_by(alloc, Criterion::SourceRange, one)?;
    let source_ports = keys_by(alloc, Criterion::SourcePort, one)?;
    let numbers = fewer_keys(places, ports, ranges);
    let texts = fewer_keys(places, names, protocols);
    let peers = fewer_keys(places, direct, sources);
    let destinations = fewer_keys(places, numbers, texts);
    Ok(fewer_keys(
        places,
        destinations,
        fewer_keys(places, peers, source_ports),
    ))
}

// Of two lists of keys the one under which there are fewer places.
fn fewer_keys<'a>(
    places: &ChainPlaces<'a>,
    one: Vec<ChainKey<'a>>,
    other: Vec<ChainKey<'a>>,
) -> Vec<ChainKey<'a>>
    ensures { result.items ≡ fewer_keys places.now one.entry.items other.entry.items }
{
    if places.count_under(one.as_slice()) <= places.count_under(other.as_slice()) {
        one
    } else {
        other
    }
}

// Whether a chain and one of these that is under these keys may take one connection.
fn any_under<'a>(
    places: &ChainPlaces<'a>,
    chains: &[FilterChain],
    one: &FilterChainMatch,
    keys: &[ChainKey<'a>],
) -> bool
    ensures { result ≡ any_under places.now chains.now one.now keys.now }
{
    keys.iter()
        .any(|key| any_there(chains, one, places.under(key)))
}

// Whether a chain and one of these that is at these places may take one connection.
fn any_there(chains: &[FilterChain], one: &FilterChainMatch, places: &[usize]) -> bool
    ensures { result ≡ list_any (collides_there chains.now one.now) places.now }
{
    places
        .iter()
        .any(|place| collides_there(chains, one, *place))
}

// Whether the chain at a place, if there is one, and another may take one connection.
fn collides_there(chains: &[FilterChain], one: &FilterChainMatch, place: usize) -> bool
    ensures { result ≡ collides_there chains.now one.now place }
{
    collides_given(one, chains.get(place))
}

// The same of a chain, if there is one.
fn collides_given(one: &FilterChainMatch, chain: Option<&FilterChain>) -> bool
    ensures { result ≡ collides_given one.now (option_copied chain.entry) }
{
    match chain {
        Some(chain) => collides(chain.criteria.get(), one),
        None => false,
    }
}

// Whether two chains may take one connection.
fn collides(one: &FilterChainMatch, other: &FilterChainMatch) -> bool
    ensures { result ≡ collide one.now other.now }
{
    collide_for_destination(one, other) && collide_for_source(one, other)
}

// Whether two chains may take a connection to one place.
fn collide_for_destination(one: &FilterChainMatch, other: &FilterChainMatch) -> bool
    ensures { result ≡ collide_for_destination one.now other.now }
{
    overlap_in_one(&one.destination_port, &other.destination_port)
        && overlap(one.prefix_ranges.as_slice(), other.prefix_ranges.as_slice())
        && overlap(one.server_names.as_slice(), other.server_names.as_slice())
        && overlap_in_one(&one.transport_protocol, &other.transport_protocol)
        && overlap(
            one.application_protocols.as_slice(),
            other.application_protocols.as_slice(),
        )
}

// Whether two chains may take a connection from one source.
fn collide_for_source(one: &FilterChainMatch, other: &FilterChainMatch) -> bool
    ensures { result ≡ collide_for_source one.now other.now }
{
    overlap(
        one.direct_source_prefix_ranges.as_slice(),
        other.direct_source_prefix_ranges.as_slice(),
    ) && overlap_in_one(&one.source_type, &other.source_type)
        && overlap(
            one.source_prefix_ranges.as_slice(),
            other.source_prefix_ranges.as_slice(),
        )
        && overlap(one.source_ports.as_slice(), other.source_ports.as_slice())
}

// Whether two criteria of at most one value have the same value, or both have none.
fn overlap_in_one<T: PartialEq>(one: &Option<T>, other: &Option<T>) -> bool
    ensures { result ≡ overlap T.eq (option_to_list one.now) (option_to_list other.now) }
{
    match (one, other) {
        (None, None) => true,
        (Some(one), Some(other)) => other == one,
        _ => false,
    }
}

// Whether two lists have a value in common, or both have none.
fn overlap<T: PartialEq>(ones: &[T], others: &[T]) -> bool
    ensures { result ≡ overlap T.eq ones.now others.now }
{
    ((ones.len() == 0) & (others.len() == 0)) | share_value(ones, others)
}

// Whether two lists have a value in common.
fn share_value<T: PartialEq>(ones: &[T], others: &[T]) -> bool
    ensures { result ≡ list_any (has_value T.eq ones.now) others.now }
{
    others.iter().any(|value| has_value(ones, value))
}

// Whether a value is in a list.
fn has_value<T: PartialEq>(values: &[T], value: &T) -> bool
    ensures { result ≡ has_value T.eq values.now value.now }
{
    values.iter().any(|other| *value == *other)
}
