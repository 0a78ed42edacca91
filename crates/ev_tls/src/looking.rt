ghost use Rattle.std.specs.Prelude.{◌≡◌, ◌++◌, ◌||◌, ℕ, map, flat_map, nat_eq, option_map, IfOk, OnOk};
ghost use Rattle.std.specs.BTreeSet.{contains as has_key};
ghost use Rattle.std.specs.List.{list_any, enumerate_from};
ghost use Rattle.std.specs.Ordering.{nat_cmp};
ghost use Rattle.std.specs.Str.{bytes_eq};
ghost use Rattle.indexmap.specs.IndexSet.{contains};
ghost use Rattle.serde_json.specs.View.{view};
ghost use Rattle.ev_trees.specs.Kept.{kept_shown};
ghost use Rattle.ev_expand.specs.Following.{due_shown};
ghost use Rattle.ev_expand.specs.Numbers.{guarded_so_far};
ghost use Rattle.ev_tls.specs.Awaited.{services_of};
ghost use Rattle.ev_tls.specs.Looking.{Gains, WereServed, due_among, due_one, due_where, endpoints_with, marks_of, may_be_due, stands_under_any};
ghost use Rattle.ev_tls.specs.Places.{has_place};

use crate::awaited::Awaited;
use crate::complete::Complete;
use crate::known::Values;
use crate::places::Places;
use ev_expand::{Due, Key, Numbers};
use ev_keys::Keys;
use ev_trees::KeptTree;
use ev_types::{Discovery, Name, TryCopy};
use indexmap::IndexSet;
use serde_json::Value;
use std::alloc::{AllocError, Global};
use std::collections::BTreeSet;

/// What a look has to know of the line.
#[derive(Drop)]
pub(crate) struct Marked {
    /// Whether a stream is open.
    pub connected: bool,
    /// Whether the line has opened it.
    pub opened: bool,
    /// The places that it has completed.
    pub finished: IndexSet<usize>,
    /// The places of its guarded resources.
    pub items: IndexSet<usize>,
    /// The names that it gives a value.
    pub given: IndexSet<Name, Keys>,
}

// Looks at the places that may be due: what is due, in order.
pub(crate) fn look(
    alloc: Global,
    numbers: &Numbers,
    values: &Values,
    complete: &Complete,
    marks: &Marked,
) -> Result<Vec<Due>, AllocError>
    ensures { WereServed complete.now (guarded_so_far numbers.now) → IfOk result (λ due. map due_shown due.items
        ≡ due_among (marks_of complete.now marks.now) values.now (enumerate_from 0 (guarded_so_far numbers.now))) }
{
    let mut due = Vec::new(alloc);
    let candidates = candidates(alloc, complete, marks)?;
    for place in &candidates {
        push_due(alloc, &mut due, numbers, values, complete, marks, *place)?;
    }
    Ok(due)
}

// The places that may be due.
fn candidates(
    alloc: Global,
    complete: &Complete,
    marks: &Marked,
) -> Result<BTreeSet<usize>, AllocError>
    ensures { IfOk result (λ candidates. (n : ℕ) → has_key nat_cmp candidates n ≡ may_be_due complete.now marks.now n) }
{
    let mut candidates = BTreeSet::new(alloc);
    put_all(&mut candidates, &marks.finished)?;
    put_all(&mut candidates, &marks.items)?;
    put_served(alloc, &mut candidates, &complete.served, &marks.given)?;
    if marks.opened {
        put_all(&mut candidates, &complete.places)?;
    }
    Ok(candidates)
}

// Adds the places of a set to others.
fn put_all(places: &mut BTreeSet<usize>, others: &IndexSet<usize>) -> Result<(), AllocError>
    ensures { OnOk result (Gains (contains nat_eq others.now) places.old places.new) }
{
    for other in others {
        put(places, *other)?;
    }
    Ok(())
}

// Adds the places that are under these endpoints to others.
fn put_served(
    alloc: Global,
    places: &mut BTreeSet<usize>,
    served: &Places,
    given: &IndexSet<Name, Keys>,
) -> Result<(), AllocError>
    ensures { OnOk result (Gains (stands_under_any served.now given.now.keys) places.old places.new) }
{
    for name in given {
        let endpoints = Awaited::Endpoints(name.copy(alloc)?);
        put_each(places, served.under(&endpoints))?;
    }
    Ok(())
}

// Adds these places to others.
fn put_each(places: &mut BTreeSet<usize>, others: &[usize]) -> Result<(), AllocError>
    ensures { OnOk result (Gains (has_place others.now) places.old places.new) }
{
    for other in others {
        put(places, *other)?;
    }
    Ok(())
}

// Adds a place to others.
fn put(places: &mut BTreeSet<usize>, place: usize) -> Result<(), AllocError>
    ensures { OnOk result (Gains (λ n. nat_eq n place) places.old places.new) }
{
    let Ok(_) = places.insert(place) else {
        return Err(AllocError);
    };
    Ok(())
}

// Appends what is at a place to these, where it is due.
fn push_due(
    alloc: Global,
    due: &mut Vec<Due>,
    numbers: &Numbers,
    values: &Values,
    complete: &Complete,
    marks: &Marked,
    place: usize,
) -> Result<(), AllocError>
    ensures { OnOk result (map due_shown due.new.items ≡ map due_shown due.old.items
        ++ due_one (marks_of complete.now marks.now) values.now (guarded_so_far numbers.now) place) }
{
    let Some((key, own)) = numbers.get(place) else {
        return Ok(());
    };
    if !is_due(complete, marks, place, key) {
        return Ok(());
    }
    let endpoints = endpoints_with(alloc, values, &key.cluster.discovery, own)?;
    due.push(Due { place, endpoints })?;
    Ok(())
}

// Whether something guarded is due, by its place.
fn is_due(complete: &Complete, marks: &Marked, place: usize, key: &Key) -> bool
    ensures { result ≡ due_where (marks_of complete.now marks.now) place key.now }
{
    let was = complete.places.contains(&place);
    marks.connected
        && (was || marks.finished.contains(&place))
        && (marks.opened
            || marks.items.contains(&place)
            || !was
            || gives_to(&marks.given, &key.cluster.discovery))
}

// Whether the endpoints of a cluster are given a value.
fn gives_to(given: &IndexSet<Name, Keys>, discovery: &Discovery) -> bool
    ensures { result ≡ list_any (contains bytes_eq given.now) (services_of discovery.now) }
{
    match discovery {
        Discovery::Static(_) => false,
        Discovery::Eds { service, .. } => given.contains(service),
        Discovery::Elsewhere => false,
    }
}

// The endpoints of something guarded.
fn endpoints_with(
    alloc: Global,
    values: &Values,
    discovery: &Discovery,
    own: &KeptTree,
) -> Result<Option<Value>, AllocError>
    ensures { IfOk result (λ found. option_map view found ≡ endpoints_with values.now discovery.now (kept_shown own.now)) }
{
    match discovery {
        Discovery::Static(_) => Ok(Some(own.read(alloc)?)),
        Discovery::Eds { service, .. } => read_given(alloc, values.get(service)),
        Discovery::Elsewhere => Ok(None),
    }
}

// A value again, where there is one.
fn read_given(alloc: Global, value: Option<&KeptTree>) -> Result<Option<Value>, AllocError>
    ensures { IfOk result (λ read. option_map view read ≡ option_map (λ v. kept_shown v.now) value.entry) }
{
    match value {
        Some(value) => Ok(Some(value.read(alloc)?)),
        None => Ok(None),
    }
}
