//! What is asked of names that generations depend on, and of the live generations.

ghost use Rattle.std.specs.Prelude.{◌≡◌, ◌+◌, ◌≤◌, ◌<◌, ◌++◌, [], ◌∷◌, true, map, length, option_to_list, IfOk, OnOk};
ghost use Rattle.std.specs.List.{list_any};
ghost use Rattle.ev_model.specs.Live.{live_of, lives_of};
ghost use Rattle.ev_model.specs.Watching.{dependencies_of, is_watched};
ghost use Rattle.ev_types.specs.declared.contents.Kind.TheVariants.{Cds};
ghost use Rattle.ev_lookups.specs.Keys.{named};
ghost use Rattle.ev_indexes.specs.Indexes.{IsIndexed, depends_on, waits, numbers_waiting, numbers_where};
ghost use Rattle.ev_indexes.specs.Reads.{is_as_healthy, lives_as, awaits_in, is_waiting_in, is_one_waiting, is_timeout_due, is_awaited_at};
ghost use Rattle.ev_indexes.specs.Worlds.{InWorlds};

use crate::ready::counts_for;
use crate::{Generations, Need, Needs, State, Steps, Watch};
use ev_types::{Content, Gen, GenRow, Host, Kind, Name, Seq};
use std::alloc::{AllocError, Global};
use std::sync::ledger::Ledger;

impl State {
    /// Whether a live generation depends on the name of this kind.
    pub fn is_watched(&self, kind: Kind, name: &str) -> bool
        requires indexed { IsIndexed self.now }
        ensures rows { result ≡ list_any (depends_on (named kind name.now)) self.now.table.rows }
        ensures world { InWorlds self.now (λ world. result ≡ is_watched (lives_of world) kind name.now) }
    {
        match self.watches.get_text(kind, name) {
            Some(watch) => watch.has_watcher(),
            None => false,
        }
    }

    /// Puts the numbers of the live generations that depend on the name of this kind to the others:
    /// those that wait for it without a limit, and then those that wait within one. It costs a look-up of the name.
    pub fn put_dependents(
        &self,
        kind: Kind,
        name: &str,
        numbers: &mut Seq<Gen>,
    ) -> Result<(), AllocError>
        requires indexed { IsIndexed self.now }
        ensures { OnOk result (numbers.new ≡ numbers.old ++ numbers_waiting self.now.table.rows (named kind name.now)) }
    {
        match self.watches.get_text(kind, name) {
            Some(watch) => watch.put_watchers(numbers),
            None => Ok(()),
        }
    }

    /// Whether a host is as healthy for the cluster that serves this name as a result says,
    /// or none serves it: then the result changes nothing that a picture shows.
    /// It costs a look-up of the name, of its generation and of the host.
    pub fn is_as_healthy(&self, name: &Name, host: &Host, healthy: bool) -> bool
        requires indexed { IsIndexed self.now }
        ensures { result ≡ is_as_healthy self.now (named Cds name.now) host.now healthy }
    {
        match self.names.standing(Kind::Cds, name).active {
            Some(number) => self.results.result(number, host).unwrap_or(false) == healthy,
            None => true,
        }
    }

    /// Whether the fetch timeout of the name of this kind is due:
    /// a live generation waits for it within a limit, nothing was received for it, and its wait didn't time out.
    /// Look-ups are counted: at most one for each generation that waits for the name within a limit.
    pub fn timeout_due<L: Ledger>(&self, kind: Kind, name: &Name, steps: &mut Steps<L>) -> bool
        requires indexed { IsIndexed self.now }
        ensures rows { result ≡ is_timeout_due self.now.watches self.now.table.rows (named kind name.now) }
        ensures steps { steps.new ≤ steps.old
            + length (numbers_where (waits (named kind name.now) true) self.now.table.rows) }
        ensures world { InWorlds self.now (λ world. result ≡ is_awaited_at world kind name.now) }
    {
        match self.watches.get(kind, name) {
            Some(watch) => is_awaited(&self.table, kind, name, watch, steps),
            None => false,
        }
    }

    /// The numbers of the live generations of a kind, in order. It goes over the whole table.
    pub fn numbers_live(&self, alloc: Global, kind: Kind) -> Result<Vec<Gen>, AllocError>
        ensures { IfOk result (λ numbers. numbers.items ≡ numbers_where (lives_as kind) self.now.table.rows) }
    {
        numbers(alloc, kind, &self.table)
    }
}

// The numbers of the live rows of a kind in a table.
fn numbers(alloc: Global, kind: Kind, table: &Generations) -> Result<Vec<Gen>, AllocError>
    ensures { IfOk result (λ numbers. numbers.items ≡ numbers_where (lives_as kind) table.now.rows) }
{
    let mut numbers = Vec::new(alloc);
    for row in table.rows() {
        push_number(kind, row, &mut numbers)?;
    }
    Ok(numbers)
}

// Adds the number of a row to the others, where it is live and of the kind.
fn push_number(kind: Kind, row: &GenRow, numbers: &mut Vec<Gen>) -> Result<(), AllocError>
    ensures { OnOk result (numbers.new.items ≡ numbers.old.items ++ numbers_where (lives_as kind) (row.now ∷ [])) }
{
    if row.status.is_live() && row.kind.is(kind) {
        numbers.push(row.number)?;
    }
    Ok(())
}

// Whether one of the generations that wait for a name within a limit still waits.
fn is_awaited<L: Ledger>(
    table: &Generations,
    kind: Kind,
    name: &Name,
    watch: &Watch,
    steps: &mut Steps<L>,
) -> bool
    ensures value { result ≡ is_one_waiting (named kind name.now) watch.now table.now.rows watch.now.limited }
    ensures steps { steps.new ≤ steps.old + length watch.now.limited }
{
    for number in watch.limited.as_slice() {
        let waits = match table.row(*number, steps) {
            Some(row) => is_waiting(kind, name, watch, row),
            None => false,
        };
        if waits {
            return true;
        }
    }
    false
}

// Whether a row is live and waits for a name within a limit: nothing was received for it, nor has its wait timed out.
fn is_waiting(kind: Kind, name: &Name, watch: &Watch, row: &GenRow) -> bool
    ensures { result ≡ is_waiting_in (named kind name.now) watch.now row.now }
{
    row.status.is_live() && awaits_one(kind, name, watch, row.number, &row.content)
}

// Whether the generation of this number and content waits so for a name.
#[tactic(auto, using(crate::proofs::NeedLemmas::any_needs))]
fn awaits_one(kind: Kind, name: &Name, watch: &Watch, number: Gen, content: &Content) -> bool
    ensures { result ≡ list_any (awaits_in (named kind name.now) watch.now number) (dependencies_of content.now) }
{
    let mut needs = Needs::of(content);
    while let Some(need) = needs.next() {
        if awaits(kind, name, watch, number, &need) {
            return true;
        }
    }
    false
}

// Whether a dependency is on the name, its wait is limited, and nothing was received for it, nor did it time out.
fn awaits(kind: Kind, name: &Name, watch: &Watch, number: Gen, need: &Need<'_>) -> bool
    ensures { result ≡ awaits_in (named kind name.now) watch.now number need.now }
{
    need.kind.is(kind)
        && need.name == name
        && need.limited
        && !(counts_for(number, need, watch.told) || counts_for(number, need, watch.timed))
}
