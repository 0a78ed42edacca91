//! Health results. A result finds its generations by the name, of which at most two are live. Only one that warms can
//! become due to serve by it; the one that serves is looked at in the same way all the same.

ghost use Rattle.std.specs.Prelude.{◌≡◌, ℕ, ◌+◌, ◌≤◌, List, true, IfOk, OnOk};
ghost use Rattle.ev_model.specs.Warming.{is_checked};
ghost use Rattle.ev_indexes.specs.KeptEndpoints.{Notes};
ghost use Rattle.ev_warming.specs.Forgetting.{IsTidyBut};
ghost use Rattle.ev_warming.specs.Health.{takes_at, MarksAssignments, MayMarkOwn, NotesMeant, NotesWhere, is_meant_by};
ghost use Rattle.ev_indexes.specs.Indexes.{IsIndexed};
ghost use Rattle.ev_warming.specs.Worlds.{AnswersFor, Follows, means_something, with_result};

use crate::Manager;
use ev_indexes::{Endpoints, State, Steps, Watches, assignment, refresh, takes_result};
use ev_types::{Content, Gen, Host, Kind, Name};
use std::alloc::{AllocError, Global};
use std::sync::ledger::Ledger;

impl Manager {
    ghost use Rattle.ev_warming.specs.Managers.{IsKept};

    /// A health result of a host of a cluster is kept for each live generation of the cluster whose hosts are health
    /// checked and have the host now. Answers whether there is one; where there is none, all stays as it was. It costs
    /// at most four look-ups. Out of memory, it is unspecified.
    pub fn note<L: Ledger>(
        &mut self,
        alloc: Global,
        name: &Name,
        host: &Host,
        healthy: bool,
        steps: &mut Steps<L>,
    ) -> Result<bool, AllocError>
        requires kept { IsKept self.old }
        ensures kept { OnOk result (IsKept self.new) }
        ensures stale { OnOk result (self.new.stale ≡ self.old.stale) }
        ensures table { OnOk result (self.new.state.table ≡ self.old.state.table) }
        ensures meant { IfOk result (λ meant. meant ≡ is_meant_by self.old.state name.now host.now) }
        ensures results { OnOk result (NotesMeant self.old.state self.new.state name.now host.now healthy) }
        ensures steps { OnOk result (steps.new ≤ steps.old + 4) }
        // Whatever world it represented, it represents that world with the result, which means something to the same
        // rows.
        ensures stands { OnOk result (Follows self.old.state self.new.state
            (with_result name.now host.now healthy)) }
        ensures ignored { IfOk result (λ meant. AnswersFor self.old.state meant (means_something name.now host.now)) }
    {
        note(&mut self.state, alloc, name, host, healthy, steps)
    }
}

/// A health result of a host of a cluster is kept for each live generation of the cluster whose hosts are health
/// checked and have the host now. Answers whether there is one; where there is none, all stays as it was. It costs at
/// most four look-ups. Out of memory, the state is unspecified.
pub(crate) fn note<L: Ledger>(
    state: &mut State,
    alloc: Global,
    name: &Name,
    host: &Host,
    healthy: bool,
    steps: &mut Steps<L>,
) -> Result<bool, AllocError>
    requires indexed { IsIndexed state.old }
    ensures indexed { OnOk result (IsIndexed state.new) }
    ensures meant { IfOk result (λ meant. meant ≡ is_meant_by state.old name.now host.now) }
    ensures results { OnOk result (NotesMeant state.old state.new name.now host.now healthy) }
    ensures others { OnOk result (state.new ≡ record state.old { results = state.new.results; due = state.new.due }) }
    ensures steps { OnOk result (steps.new ≤ steps.old + 4) }
    ensures tidy { OnOk result ((stale : List ℕ) → IsTidyBut state.old stale → IsTidyBut state.new stale) }
    // Whatever world it represented, it represents that world with the result, which means something to the same rows.
    ensures stands { OnOk result (Follows state.old state.new (with_result name.now host.now healthy)) }
    ensures ignored { IfOk result (λ meant. AnswersFor state.old meant (means_something name.now host.now)) }
{
    let standing = state.names.standing(Kind::Cds, name);
    let served = note_at(state, alloc, standing.active, host, healthy, steps)?;
    let warmed = note_at(state, alloc, standing.warming, host, healthy, steps)?;
    Ok(served || warmed)
}

// The same for the generation of this number, where there is one.
fn note_at<L: Ledger>(
    state: &mut State,
    alloc: Global,
    number: Option<Gen>,
    host: &Host,
    healthy: bool,
    steps: &mut Steps<L>,
) -> Result<bool, AllocError>
    requires indexed { IsIndexed state.old }
    ensures indexed { OnOk result (IsIndexed state.new) }
    ensures meant { IfOk result (λ meant. meant ≡ takes_at state.old.watches host.now number state.old.table.rows) }
    ensures results { IfOk result (λ meant. NotesWhere state.old state.new meant number host.now healthy) }
    ensures others { OnOk result (state.new ≡ record state.old { results = state.new.results; due = state.new.due }) }
    ensures steps { OnOk result (steps.new ≤ steps.old + 2) }
    ensures marked { OnOk result (MarksAssignments state.old state.new) }
{
    let Some(number) = number else {
        return Ok(false);
    };
    let Some(row) = state.table.row(number, steps) else {
        return Ok(false);
    };
    if !takes_result(&state.watches, host, &row.content) {
        return Ok(false);
    }
    keep(
        &state.watches,
        &mut state.results,
        alloc,
        number,
        &row.content,
        host,
        healthy,
    )?;
    refresh(
        &state.table,
        &state.watches,
        &state.results,
        &mut state.due,
        &[number],
        steps,
    )?;
    Ok(true)
}

// Keeps a result of a host of a generation of this content, whose hosts are health checked, and marks which of them may
// be chosen.
fn keep(
    watches: &Watches,
    results: &mut Endpoints,
    alloc: Global,
    number: Gen,
    content: &Content,
    host: &Host,
    healthy: bool,
) -> Result<(), AllocError>
    requires checked { is_checked content.now ≡ true }
    ensures results { OnOk result (Notes results.old results.new number host.now healthy) }
    ensures marked { OnOk result (MayMarkOwn watches.now content.now results.old results.new number) }
{
    results.note(alloc, number, host, healthy)?;
    match assignment(watches, content) {
        Some(rows) => results.mark(alloc, number, rows),
        None => Ok(()),
    }
}
