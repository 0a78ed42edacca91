//! Forgetting, a step of its own after the promotion of the same event, as in the machine: till then a name that one
//! resource of a response ceases to depend on and another begins to keeps its value. What it looks at follows from what
//! changed: the generations that retired, and those whose name something was received for.
//! A name that may have to go is one of theirs, so no list of names is kept.

ghost use Rattle.std.specs.Prelude.{◌≡◌, ◌+◌, not, [], ◌∷◌, length, OnOk};
ghost use Rattle.ev_model.specs.Watching.{dependencies_of};
ghost use Rattle.ev_model.specs.Warming.{rows_in};
ghost use Rattle.ev_indexes.specs.KeptEndpoints.{Trims, Unmarks};
ghost use Rattle.ev_types.specs.declared.contents.Kind.TheVariants.{Eds};
ghost use Rattle.ev_lookups.specs.Keys.{named};
ghost use Rattle.ev_indexes.specs.Watched.{watch_in, has_watcher};
ghost use Rattle.ev_indexes.specs.Ready.{assignment_in};
ghost use Rattle.ev_indexes.specs.Indexes.{IsIndexed};
ghost use Rattle.ev_warming.specs.Forgetting.{IsTidyBut, ForgetsIdle, ForgetsNeeds, ForgetsNeedsOf, TrimsRow, TrimsRowOf, UnmarksRowOf};
ghost use Rattle.ev_warming.specs.Changes.{KeepsTable};
ghost use Rattle.ev_warming.specs.Worlds.{Follows, without_unneeded};

use ev_indexes::{Endpoints, Need, Needs, State, Steps, Watches};
use ev_types::{Content, Discovery, Gen, GenRow, Kind, Name};
use std::alloc::{AllocError, Global};
use std::sync::ledger::Ledger;

/// Forgets what nobody needs any more: what was received for names that no live generation depends on, the results of
/// generations that retired, and those of hosts that left their cluster's assignment. It looks at the generations of
/// these numbers alone, each once: those that retired or whose assignment may have changed since the last time. Out of
/// memory, the state is unspecified.
pub(crate) fn forget<L: Ledger>(
    state: &mut State,
    alloc: Global,
    stale: &[Gen],
    steps: &mut Steps<L>,
) -> Result<(), AllocError>
    requires indexed { IsIndexed state.old }
    requires tidy { IsTidyBut state.old stale.now }
    ensures indexed { OnOk result (IsIndexed state.new) }
    ensures tidy { OnOk result (IsTidyBut state.new []) }
    ensures others { OnOk result (KeepsTable state.old state.new) }
    ensures steps { OnOk result (steps.new ≡ steps.old + length stale.now) }
    // Whatever world the state represented, it represents that world once the machine has forgotten.
    ensures stands { OnOk result (Follows state.old state.new without_unneeded) }
{
    for number in stale {
        forget_row(state, alloc, *number, steps)?;
    }
    Ok(())
}

// Forgets what nobody needs any more of the generation of this number and of the names that it depends on.
fn forget_row<L: Ledger>(
    state: &mut State,
    alloc: Global,
    number: Gen,
    steps: &mut Steps<L>,
) -> Result<(), AllocError>
    requires indexed { IsIndexed state.old }
    ensures indexed { OnOk result (IsIndexed state.new) }
    ensures watches { OnOk result (ForgetsNeedsOf state.old state.new number) }
    ensures results { OnOk result (TrimsRowOf state.old state.new number) }
    ensures marked { OnOk result (UnmarksRowOf state.old state.new number) }
    ensures others { OnOk result (KeepsTable state.old state.new) }
    ensures steps { OnOk result (steps.new ≡ steps.old + 1) }
{
    let Some(row) = state.table.row(number, steps) else {
        return Ok(());
    };
    trim(&state.watches, &mut state.results, alloc, row)?;
    forget_needs(&mut state.watches, &row.content);
    Ok(())
}

// Forgets the results that a row doesn't keep, and its marks.
fn trim(
    watches: &Watches,
    results: &mut Endpoints,
    alloc: Global,
    row: &GenRow,
) -> Result<(), AllocError>
    ensures results { OnOk result (TrimsRow watches.now results.old results.new row.now) }
    ensures marked { OnOk result (Unmarks results.old results.new row.now.number) }
{
    if !row.status.is_live() {
        results.forget(row.number);
        return Ok(());
    }
    trim_hosts(watches, results, alloc, row.number, &row.content)
}

// Forgets the results of a generation for hosts that aren't in its assignment, and its marks.
fn trim_hosts(
    watches: &Watches,
    results: &mut Endpoints,
    alloc: Global,
    number: Gen,
    content: &Content,
) -> Result<(), AllocError>
    ensures results { OnOk result (Trims results.old results.new number (assignment_in watches.now content.now)) }
    ensures marked { OnOk result (Unmarks results.old results.new number) }
{
    let Content::Cluster(cluster) = content else {
        results.forget(number);
        return Ok(());
    };
    match &cluster.get().discovery {
        Discovery::Static(rows) => results.trim(alloc, number, rows.get()),
        Discovery::Eds { service, .. } => trim_value(watches, results, alloc, number, service),
        Discovery::Elsewhere => {
            results.forget(number);
            Ok(())
        }
    }
}

// Forgets the results of a generation for hosts that aren't in the value of a name, and its marks.
fn trim_value(
    watches: &Watches,
    results: &mut Endpoints,
    alloc: Global,
    number: Gen,
    service: &Name,
) -> Result<(), AllocError>
    ensures results { OnOk result (Trims results.old results.new number
        (rows_in (watch_in watches.now (named Eds service.now)).value)) }
    ensures marked { OnOk result (Unmarks results.old results.new number) }
{
    let Some(watch) = watches.get(Kind::Eds, service) else {
        results.forget(number);
        return Ok(());
    };
    match &watch.value {
        Some(Content::Assignment(rows)) => results.trim(alloc, number, rows.get()),
        _ => {
            results.forget(number);
            Ok(())
        }
    }
}

// Forgets what was received for the names that a generation of this content depends on, where no live one does.
fn forget_needs(watches: &mut Watches, content: &Content)
    ensures { ForgetsNeeds watches.old watches.new (dependencies_of content.now) }
{
    let mut needs = Needs::of(content);
    while let Some(need) = needs.next() {
        forget_need(watches, &need);
    }
}

// The same of one name that it depends on.
fn forget_need(watches: &mut Watches, need: &Need<'_>)
    ensures { ForgetsNeeds watches.old watches.new (need.now ∷ []) }
{
    forget_idle(watches, need.kind, need.name);
}

// Forgets what was received for a name that no live generation depends on.
fn forget_idle(watches: &mut Watches, kind: Kind, name: &Name)
    ensures { ForgetsIdle watches.old watches.new (named kind name.now) }
{
    if !is_idle(watches, kind, name) {
        return;
    }
    watches.forget(kind, name);
}

// Whether no live generation depends on a name.
fn is_idle(watches: &Watches, kind: Kind, name: &Name) -> bool
    ensures { result ≡ not (has_watcher (watch_in watches.now (named kind name.now))) }
{
    match watches.get(kind, name) {
        Some(watch) => !watch.has_watcher(),
        None => true,
    }
}
