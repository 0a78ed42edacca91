//! Whether generations are ready, and which are due by that.

ghost use Rattle.std.specs.Prelude.{◌≡◌, ◌+◌, ◌<◌, length, option_to_list, OnOk};
ghost use Rattle.std.specs.List.{list_all};
ghost use Rattle.ev_model.specs.Warming.{counts_for, rows_in};
ghost use Rattle.ev_types.specs.declared.contents.Kind.TheVariants.{Eds};
ghost use Rattle.ev_lookups.specs.Keys.{named};
ghost use Rattle.ev_indexes.specs.Watched.{watch_in};
ghost use Rattle.ev_indexes.specs.Ready.{has_answer_in, are_results_in, is_answered_in, is_round_done_in, is_ready_in, Refreshes};

use crate::{Due, Endpoints, Generations, Need, Needs, Steps, Watches};
use ev_types::{Content, Discovery, Gen, GenRow, Kind, Name};
use std::alloc::AllocError;
use std::sync::ledger::Ledger;

// Whether what was received for a name when so many numbers were allocated counts for the generation of this number,
// which depends on the name.
pub(crate) fn counts_for(number: Gen, need: &Need<'_>, made: Option<u32>) -> bool
    ensures { result ≡ counts_for number need.now made }
{
    match made {
        Some(made) => !need.fresh || number.number() <= made,
        None => false,
    }
}

// Whether what the generation of this number depends on was received, or its wait timed out where it is limited.
fn has_answer(watches: &Watches, number: Gen, need: &Need<'_>) -> bool
    ensures { result ≡ has_answer_in watches.now number need.now }
{
    match watches.get(need.kind, need.name) {
        Some(watch) => {
            counts_for(number, need, watch.told)
                || (counts_for(number, need, watch.timed) && need.limited)
        }
        None => false,
    }
}

// Whether the generation of this number and content is answered: each of its dependencies is.
#[tactic(auto, using(crate::proofs::NeedLemmas::all_needs))]
fn is_answered(watches: &Watches, number: Gen, content: &Content) -> bool
    ensures { result ≡ is_answered_in watches.now number content.now }
{
    let mut needs = Needs::of(content);
    while let Some(need) = needs.next() {
        if !has_answer(watches, number, &need) {
            return false;
        }
    }
    true
}

// Whether a generation has a result of each host, where its hosts are health checked.
fn is_round_done(watches: &Watches, results: &Endpoints, number: Gen, content: &Content) -> bool
    ensures { result ≡ is_round_done_in watches.now results.now number content.now }
{
    let Content::Cluster(cluster) = content else {
        return true;
    };
    let cluster = cluster.get();
    if !cluster.checked {
        return true;
    }
    match &cluster.discovery {
        Discovery::Static(rows) => results.first_round_done(number, rows.get()),
        Discovery::Eds { service, .. } => is_value_done(watches, results, number, service),
        Discovery::Elsewhere => true,
    }
}

// Whether a generation has a result of each host of the value of a name.
fn is_value_done(watches: &Watches, results: &Endpoints, number: Gen, service: &Name) -> bool
    ensures { result ≡ are_results_in results.now number (rows_in (watch_in watches.now (named Eds service.now)).value) }
{
    let Some(watch) = watches.get(Kind::Eds, service) else {
        return true;
    };
    match &watch.value {
        Some(Content::Assignment(rows)) => results.first_round_done(number, rows.get()),
        _ => true,
    }
}

// Whether a row is ready.
fn is_ready(watches: &Watches, results: &Endpoints, row: &GenRow) -> bool
    ensures { result ≡ is_ready_in watches.now results.now row.now }
{
    is_answered(watches, row.number, &row.content)
        && is_round_done(watches, results, row.number, &row.content)
}

/// Looks at the rows of these numbers anew: those that are due are put among the due ones,
/// and the others left out. Each look counts. Out of memory, the due is unspecified ones.
pub fn refresh<L: Ledger>(
    table: &Generations,
    watches: &Watches,
    results: &Endpoints,
    due: &mut Due,
    numbers: &[Gen],
    steps: &mut Steps<L>,
) -> Result<(), AllocError>
    ensures due { OnOk result (Refreshes watches.now results.now table.now.rows numbers.now due.old due.new) }
    ensures steps { OnOk result (steps.new ≡ steps.old + length numbers.now) }
{
    for number in numbers {
        let is_due = match table.row(*number, steps) {
            Some(row) => row.status.is_warming() && is_ready(watches, results, row),
            None => false,
        };
        if is_due {
            due.put(*number)?;
        } else {
            due.leave(*number);
        }
    }
    Ok(())
}
