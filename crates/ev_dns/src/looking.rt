ghost use Rattle.std.specs.Prelude.{◌≡◌, ◌++◌, ◌∷◌, [], map, slice_get, IfOk, OnOk};
ghost use Rattle.std.specs.BTreeSet.{contains, IsOrdered};
ghost use Rattle.std.specs.Ordering.{nat_cmp};
ghost use Rattle.ev_expand.specs.Following.{due_shown};
ghost use Rattle.ev_expand.specs.Numbers.{guarded_so_far};
ghost use Rattle.ev_dns.specs.Marking.{has_both};
ghost use Rattle.ev_dns.specs.Known.{due_among, due_each, due_parts, due_there};

use crate::answers::Answers;
use crate::hosts::endpoints_value;
use ev_expand::{Due, Key, Numbers};
use std::alloc::{AllocError, Global};
use std::collections::BTreeSet;

// The places of a set from the least.
fn in_order(alloc: Global, set: &BTreeSet<usize>) -> Result<Vec<usize>, AllocError>
    ensures places { IfOk result (λ places. places.items ≡ set.now.keys) }
    ensures ordered { IsOrdered nat_cmp set.now }
{
    // They are in their order.
    let _ = set.len();
    set.iter().copied().collect(alloc)
}

// What is due of the places of a set that are complete, with their endpoints.
pub(crate) fn due_among(
    alloc: Global,
    numbers: &Numbers,
    answers: &Answers,
    complete: &BTreeSet<usize>,
    set: &BTreeSet<usize>,
) -> Result<Vec<Due>, AllocError>
    ensures { IfOk result (λ due. map due_shown due.items
        ≡ due_among answers.now (guarded_so_far numbers.now) (has_both set.now complete.now)) }
{
    let places = in_order(alloc, set)?;
    due_each(alloc, numbers, answers, complete, places.as_slice())
}

// What is due of these places.
fn due_each(
    alloc: Global,
    numbers: &Numbers,
    answers: &Answers,
    complete: &BTreeSet<usize>,
    places: &[usize],
) -> Result<Vec<Due>, AllocError>
    ensures { IfOk result (λ due. map due_shown due.items
        ≡ due_each answers.now (guarded_so_far numbers.now) (contains nat_cmp complete.now) places.now) }
{
    let mut due = Vec::new(alloc);
    for place in places {
        let is_complete = complete.contains(place);
        push_there(alloc, &mut due, numbers, answers, *place, is_complete)?;
    }
    Ok(due)
}

// Appends what is at a place to these, where it is complete.
fn push_there(
    alloc: Global,
    due: &mut Vec<Due>,
    numbers: &Numbers,
    answers: &Answers,
    place: usize,
    is_complete: bool,
) -> Result<(), AllocError>
    ensures { OnOk result (map due_shown due.new.items
        ≡ map due_shown due.old.items
        ++ due_there answers.now is_complete place (slice_get (guarded_so_far numbers.now) place)) }
{
    match numbers.get(place) {
        Some((key, _)) if is_complete => push_due(alloc, due, answers, place, key),
        _ => Ok(()),
    }
}

// Appends a template to these, with its endpoints.
fn push_due(
    alloc: Global,
    due: &mut Vec<Due>,
    answers: &Answers,
    place: usize,
    key: &Key,
) -> Result<(), AllocError>
    ensures { OnOk result (map due_shown due.new.items
        ≡ map due_shown due.old.items ++ due_parts answers.now place key.now ∷ []) }
{
    let endpoints = Some(endpoints_value(alloc, answers, key)?);
    due.push(Due { place, endpoints })?;
    Ok(())
}
