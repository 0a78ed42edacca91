ghost use Rattle.std.specs.Prelude.{◌≡◌, ◌||◌, ℕ, IfOk, OnOk};
ghost use Rattle.std.specs.BTreeSet.{contains};
ghost use Rattle.std.specs.Ordering.{nat_cmp};
ghost use Rattle.ev_dns.specs.Known.{stands_named};
ghost use Rattle.ev_dns.specs.Marking.{Gains, is_listed, is_marked, is_place};

use crate::complete::put_place;
use crate::places::Places;
use ev_types::Name;
use std::alloc::{AllocError, Global};
use std::collections::BTreeSet;

// The places that a line touches: those of its guarded resources, and the complete ones under the name that it answers.
pub(crate) fn touched_by(
    alloc: Global,
    served: &Places,
    items: &[Option<usize>],
    name: &Option<Name>,
) -> Result<BTreeSet<usize>, AllocError>
    ensures { IfOk result (λ set. (place : ℕ) → contains nat_cmp set place
        ≡ (is_marked items.now place || stands_named served.now name.now place)) }
{
    let mut set = BTreeSet::new(alloc);
    put_items(&mut set, items)?;
    put_named(&mut set, served, name)?;
    Ok(set)
}

// Adds those of these places that are given to others.
fn put_items(set: &mut BTreeSet<usize>, items: &[Option<usize>]) -> Result<(), AllocError>
    ensures { OnOk result (Gains set.old set.new (is_marked items.now)) }
{
    for item in items {
        put_item(set, *item)?;
    }
    Ok(())
}

// Adds a place to others, where one is given.
fn put_item(set: &mut BTreeSet<usize>, item: Option<usize>) -> Result<(), AllocError>
    ensures { OnOk result (Gains set.old set.new (is_place item)) }
{
    match item {
        Some(place) => put_place(set, place),
        None => Ok(()),
    }
}

// Adds the places under a name to others, where there is one.
fn put_named(
    set: &mut BTreeSet<usize>,
    places: &Places,
    name: &Option<Name>,
) -> Result<(), AllocError>
    ensures { OnOk result (Gains set.old set.new (stands_named places.now name.now)) }
{
    match name {
        Some(name) => put_places(set, places.under(name)),
        None => Ok(()),
    }
}

// Adds these places to others.
fn put_places(set: &mut BTreeSet<usize>, places: &[usize]) -> Result<(), AllocError>
    ensures { OnOk result (Gains set.old set.new (is_listed places.now)) }
{
    for place in places {
        put_place(set, *place)?;
    }
    Ok(())
}
