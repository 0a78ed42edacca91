//! The single steps, on a `State`: something arrives for a name, a generation is added, serves, or retires. Each keeps
//! every index a search of the rows, and each look-up of a row is counted.

ghost use Rattle.std.specs.Prelude.{◌≡◌, if◌then◌else◌, ℕ, ◌+◌, ◌*◌, ◌^◌, ◌≤◌, [], ◌∷◌, ◌++◌, IfOk, ◌<◌, ◌&&◌, not, nat_eq, true, length, None, OnOk, option_to_list};
ghost use Rattle.std.specs.List.{list_any};
ghost use Rattle.ev_model.specs.Rows.{replaced_status, with_statuses};
ghost use Rattle.ev_types.specs.declared.rows.RowStatus.TheVariants.{Active};
ghost use Rattle.ev_types.specs.Items.{content_kind};
ghost use Rattle.ev_types.specs.Statuses.{is_live, is_warming};
ghost use Rattle.ev_indexes.specs.Tables.{row_in, with_status};
ghost use Rattle.ev_indexes.specs.Standings.{standing_in};
ghost use Rattle.ev_indexes.specs.Needs.{HaveNames};
ghost use Rattle.ev_indexes.specs.Due.{is_one_of};
ghost use Rattle.ev_model.specs.Tidy.{promoted};
ghost use Rattle.ev_model.specs.Watching.{dependencies_of};
ghost use Rattle.ev_lookups.specs.Keys.{named};
ghost use Rattle.ev_warming.specs.Promotion.{status_drained};
ghost use Rattle.ev_indexes.specs.Indexes.{IsIndexed, SameMarks, depends_on, numbers_waiting, status_in, key_in};
ghost use Rattle.ev_warming.specs.Arrivals.{Hears, UnwatchesNeeds, WatchesNeeds, with_arrived};
ghost use Rattle.ev_warming.specs.Changes.{AddsRow, AreDue, BeganToDrain, CameToServe, EndsRows, KeepsKnown, KeepsResults, LeavesNoneDue, promoted_by, rows_giving_way, rows_retired};
ghost use Rattle.ev_warming.specs.Worlds.{Follows, with_generation, with_rows_ended};

use ev_indexes::{Need, Needs, Standing, State, Steps, Watches, refresh};
use ev_types::{Arrival, Content, Gen, KeptChain, Kind, Name, Seq, TryCopy};
use std::alloc::{AllocError, Global};
use std::sync::ledger::Ledger;

/// What a promotion changed: the numbers of the generations that came to serve, and of those that served before and
/// drain.
#[derive(Drop)]
pub struct Promoted {
    pub served: Seq<Gen>,
    pub drained: Seq<Gen>,
}

/// Something was received for a watched name of a kind:
/// it is kept, and the rows that depend on the name are looked at anew, each once for each way in which it waits.
/// Out of memory, the state is unspecified.
pub(crate) fn arrive<L: Ledger>(
    state: &mut State,
    alloc: Global,
    kind: Kind,
    name: &Name,
    arrival: &Arrival,
    steps: &mut Steps<L>,
) -> Result<(), AllocError>
    requires indexed { IsIndexed state.old }
    requires watched { list_any (depends_on (named kind name.now)) state.old.table.rows ≡ true }
    ensures indexed { OnOk result (IsIndexed state.new) }
    ensures told { OnOk result (Hears state.old.watches state.new.watches (named kind name.now)
        state.old.table.made arrival.now) }
    ensures others { OnOk result (state.new ≡ record state.old { watches = state.new.watches; due = state.new.due }) }
    ensures steps { OnOk result (steps.new ≡ steps.old
        + length (numbers_waiting state.old.table.rows (named kind name.now))) }
    // Whatever world the state represented, it represents that world with the arrival.
    ensures stands { OnOk result (Follows state.old state.new (with_arrived kind arrival.now name.now)) }
{
    let made = state.table.made();
    state.watches.tell(alloc, made, kind, name, arrival)?;
    let Some(watch) = state.watches.get(kind, name) else {
        unreachable!()
    };
    refresh(
        &state.table,
        &state.watches,
        &state.results,
        &mut state.due,
        watch.unlimited.as_slice(),
        steps,
    )?;
    refresh(
        &state.table,
        &state.watches,
        &state.results,
        &mut state.due,
        watch.limited.as_slice(),
        steps,
    )?;
    Ok(())
}

// A live row drains, or is dropped where it warmed.
fn retire<L: Ledger>(state: &mut State, number: Gen, steps: &mut Steps<L>)
    requires indexed { IsIndexed state.old }
    requires live { is_live (status_in (row_in number state.old.table.rows)) ≡ true }
    ensures indexed { IsIndexed state.new }
    ensures rows { state.new.table.rows ≡ rows_retired number state.old.table.rows }
    ensures made { state.new.table.made ≡ state.old.table.made }
    ensures marks { SameMarks state.old.watches state.new.watches }
    ensures others { KeepsResults state.old state.new }
    ensures due { (n : ℕ) → is_one_of state.new.due n ≡ (not (nat_eq number n) && is_one_of state.old.due n) }
    ensures count { length state.new.due + (if is_one_of state.old.due number then 1 else 0) ≡ length state.old.due }
    ensures steps { steps.new ≡ steps.old + 1 }
{
    let Some(row) = state.table.row(number, steps) else {
        unreachable!()
    };
    let standing = state.names.standing(row.kind, &row.name);
    let warms = row.status.is_warming();
    state.names.set(row.kind, &row.name, left(standing, warms));
    unwatch(&mut state.watches, &row.content, number);
    state.addresses.release(&row.content, number);
    state.due.leave(number);
    state.table.gone(number, warms);
}

// A row that warms serves; no other of its name does.
fn serve<L: Ledger>(state: &mut State, number: Gen, steps: &mut Steps<L>)
    requires indexed { IsIndexed state.old }
    requires warms { is_warming (status_in (row_in number state.old.table.rows)) ≡ true }
    requires alone { (standing_in state.old.names (key_in (row_in number state.old.table.rows))).active ≡ None }
    ensures indexed { IsIndexed state.new }
    ensures rows { state.new.table.rows ≡ with_status number Active state.old.table.rows }
    ensures made { state.new.table.made ≡ state.old.table.made }
    ensures others { KeepsKnown state.old state.new }
    ensures due { (n : ℕ) → is_one_of state.new.due n ≡ (not (nat_eq number n) && is_one_of state.old.due n) }
    ensures count { length state.new.due + (if is_one_of state.old.due number then 1 else 0) ≡ length state.old.due }
    ensures steps { steps.new ≡ steps.old + 1 }
{
    let Some(row) = state.table.row(number, steps) else {
        unreachable!()
    };
    let standing = Standing {
        active: Some(number),
        warming: None,
    };
    state.names.set(row.kind, &row.name, standing);
    state.due.leave(number);
    state.table.warm(number);
}

// The generation that served the name of one that warms drains, where there was one, which is the answer.
fn make_way<L: Ledger>(
    state: &mut State,
    number: Gen,
    active: Option<Gen>,
    steps: &mut Steps<L>,
) -> Option<Gen>
    requires indexed { IsIndexed state.old }
    requires warms { is_warming (status_in (row_in number state.old.table.rows)) ≡ true }
    requires active { active ≡ (standing_in state.old.names (key_in (row_in number state.old.table.rows))).active }
    ensures indexed { IsIndexed state.new }
    ensures rows { state.new.table.rows ≡ rows_giving_way number state.old.table.rows }
    ensures row { row_in number state.new.table.rows ≡ row_in number state.old.table.rows }
    ensures alone { (standing_in state.new.names (key_in (row_in number state.old.table.rows))).active ≡ None }
    ensures made { state.new.table.made ≡ state.old.table.made }
    ensures marks { SameMarks state.old.watches state.new.watches }
    ensures others { KeepsResults state.old state.new }
    ensures due { (n : ℕ) → is_one_of state.new.due n ≡ is_one_of state.old.due n }
    ensures count { length state.new.due ≤ length state.old.due }
    ensures steps { steps.new ≤ steps.old + 1 }
    ensures before { result ≡ active }
{
    let Some(before) = active else {
        return None;
    };
    retire(state, before, steps);
    Some(before)
}

// The generation of this number, which is due, serves, and the one that served its name, which is the answer, drains.
fn promote_one<L: Ledger>(state: &mut State, number: Gen, steps: &mut Steps<L>) -> Option<Gen>
    requires indexed { IsIndexed state.old }
    requires due { is_one_of state.old.due number ≡ true }
    ensures indexed { IsIndexed state.new }
    ensures before { result ≡ (standing_in state.old.names (key_in (row_in number state.old.table.rows))).active }
    ensures changed { state.new.table.rows ≡ with_status number Active (rows_giving_way number state.old.table.rows) }
    ensures rows { promoted_by state.old state.new.table.rows ≡ promoted_by state.old state.old.table.rows }
    ensures made { state.new.table.made ≡ state.old.table.made }
    ensures marks { SameMarks state.old.watches state.new.watches }
    ensures others { KeepsResults state.old state.new }
    ensures due { (n : ℕ) → is_one_of state.new.due n ≡ (not (nat_eq number n) && is_one_of state.old.due n) }
    ensures count { length state.new.due < length state.old.due }
    ensures steps { steps.new ≤ steps.old + 3 }
{
    let Some(row) = state.table.row(number, steps) else {
        unreachable!()
    };
    let active = state.names.standing(row.kind, &row.name).active;
    let before = make_way(state, number, active, steps);
    serve(state, number, steps);
    before
}

/// Each generation that is due serves, and the one that served its name before it drains; none is due then. Answers the
/// numbers of those that came to serve, and of those that began to drain. Each of the first costs at most three
/// look-ups. Out of memory, the state is unspecified.
pub(crate) fn promote<L: Ledger>(
    state: &mut State,
    alloc: Global,
    steps: &mut Steps<L>,
) -> Result<Promoted, AllocError>
    requires indexed { IsIndexed state.old }
    ensures indexed { OnOk result (IsIndexed state.new) }
    ensures rows { OnOk result (state.new.table.rows ≡ promoted_by state.old state.old.table.rows) }
    ensures served { IfOk result (λ promoted. AreDue promoted.served state.old) }
    ensures began { IfOk result (λ promoted. CameToServe promoted.served state.old state.new) }
    ensures drained { IfOk result (λ promoted. BeganToDrain promoted.drained state.old state.new) }
    ensures made { OnOk result (state.new.table.made ≡ state.old.table.made) }
    ensures marks { OnOk result (SameMarks state.old.watches state.new.watches) }
    ensures others { OnOk result (LeavesNoneDue state.old state.new) }
    ensures steps { IfOk result (λ promoted. steps.new ≤ steps.old + 3 * length promoted.served) }
    // Whatever world the state represented, it represents that world with all that are due promoted.
    ensures stands { OnOk result (Follows state.old state.new promoted) }
{
    let mut served = Seq::new(alloc);
    let mut drained = Seq::new(alloc);
    while let Some(number) = state.due.first() {
        served.push(number)?;
        let before = promote_one(state, number, steps);
        put_one(&mut drained, &before)?;
    }
    Ok(Promoted { served, drained })
}

/// A new generation of a name warms, with content of its kind and with these chains of the one that serves, and one
/// that warmed under it before is dropped. It costs at most two look-ups. Out of memory, it is unspecified of the
/// state.
pub(crate) fn add<L: Ledger>(
    state: &mut State,
    alloc: Global,
    kind: Kind,
    name: Name,
    content: &Content,
    chains: Seq<KeptChain>,
    steps: &mut Steps<L>,
) -> Result<(), AllocError>
    requires indexed { IsIndexed state.old }
    requires typed { content_kind content.now ≡ kind }
    requires room { state.old.table.made + 1 < 2 ^ 32 }
    ensures indexed { OnOk result (IsIndexed state.new) }
    ensures rows { OnOk result (AddsRow state.old state.new kind name content.now chains) }
    ensures made { OnOk result (state.new.table.made ≡ state.old.table.made + 1) }
    ensures marks { OnOk result (SameMarks state.old.watches state.new.watches) }
    ensures others { OnOk result (KeepsResults state.old state.new) }
    ensures steps { OnOk result (steps.new ≤ steps.old + 2) }
    ensures needs { OnOk result (HaveNames (dependencies_of content.now)) }
    // Whatever world the state represented, it represents that world with the new generation.
    ensures stands { OnOk result (Follows state.old state.new (with_generation kind name content.now chains)) }
{
    let _text = name.as_str();
    drop_warming(state, kind, &name, steps);
    let active = state.names.standing(kind, &name).active;
    let number = state
        .table
        .add(kind, name.copy(alloc)?, content.copy(alloc)?, chains)?;
    watch(&mut state.watches, alloc, content, number)?;
    state.addresses.hold(alloc, content, number)?;
    let standing = Standing {
        active,
        warming: Some(number),
    };
    state.names.enter(kind, name, standing)?;
    refresh(
        &state.table,
        &state.watches,
        &state.results,
        &mut state.due,
        &[number],
        steps,
    )?;
    Ok(())
}

/// What a name of a kind represents has come to its end, or is removed: the generation that warms under it is dropped,
/// and the one that serves it drains. It costs at most two look-ups, and takes no memory.
pub(crate) fn end<L: Ledger>(state: &mut State, kind: Kind, name: &Name, steps: &mut Steps<L>)
    requires indexed { IsIndexed state.old }
    ensures indexed { IsIndexed state.new }
    ensures rows { EndsRows state.old state.new kind name.now }
    ensures made { state.new.table.made ≡ state.old.table.made }
    ensures marks { SameMarks state.old.watches state.new.watches }
    ensures others { KeepsResults state.old state.new }
    ensures steps { steps.new ≤ steps.old + 2 }
    // Whatever world the state represented, it represents that world where the name has come to its end.
    ensures stands { Follows state.old state.new (with_rows_ended kind name.now) }
{
    drop_warming(state, kind, name, steps);
    drain_active(state, kind, name, steps);
}

// The generation that serves a name drains, where there is one.
fn drain_active<L: Ledger>(state: &mut State, kind: Kind, name: &Name, steps: &mut Steps<L>)
    requires indexed { IsIndexed state.old }
    ensures indexed { IsIndexed state.new }
    ensures rows { state.new.table.rows ≡ with_statuses (status_drained (named kind name.now)) state.old.table.rows }
    ensures made { state.new.table.made ≡ state.old.table.made }
    ensures marks { SameMarks state.old.watches state.new.watches }
    ensures others { KeepsResults state.old state.new }
    ensures steps { steps.new ≤ steps.old + 1 }
{
    if let Some(before) = state.names.standing(kind, name).active {
        retire(state, before, steps);
    }
}

/// The generation that warms under a name is dropped, where there is one. It costs at most one look-up, and takes no
/// memory.
pub(crate) fn drop_warming<L: Ledger>(
    state: &mut State,
    kind: Kind,
    name: &Name,
    steps: &mut Steps<L>,
)
    requires indexed { IsIndexed state.old }
    ensures indexed { IsIndexed state.new }
    ensures rows { state.new.table.rows ≡ with_statuses (replaced_status kind name.now) state.old.table.rows }
    ensures alone { (standing_in state.new.names (named kind name.now)).warming ≡ None }
    ensures made { state.new.table.made ≡ state.old.table.made }
    ensures marks { SameMarks state.old.watches state.new.watches }
    ensures others { KeepsResults state.old state.new }
    ensures steps { steps.new ≤ steps.old + 1 }
{
    if let Some(before) = state.names.standing(kind, name).warming {
        retire(state, before, steps);
    }
}

// Adds a number to the others, where there is one.
pub(crate) fn put_one(numbers: &mut Seq<Gen>, number: &Option<Gen>) -> Result<(), AllocError>
    ensures { OnOk result (numbers.new ≡ numbers.old ++ option_to_list number.now) }
{
    if let Some(number) = number {
        numbers.push(*number)?;
    }
    Ok(())
}

// What is live of a name once the one that warms, or the one that serves, is gone.
fn left(standing: Standing, warms: bool) -> Standing
    ensures { result ≡ (if warms then record standing { warming = None } else record standing { active = None }) }
{
    if warms {
        Standing {
            active: standing.active,
            warming: None,
        }
    } else {
        Standing {
            active: None,
            warming: standing.warming,
        }
    }
}

// A generation of this content no longer depends on anything.
fn unwatch(watches: &mut Watches, content: &Content, number: Gen)
    ensures { UnwatchesNeeds watches.old watches.new number (dependencies_of content.now) }
{
    let mut needs = Needs::of(content);
    while let Some(need) = needs.next() {
        unwatch_need(watches, &need, number);
    }
}

// It no longer depends on this.
fn unwatch_need(watches: &mut Watches, need: &Need<'_>, number: Gen)
    ensures { UnwatchesNeeds watches.old watches.new number (need.now ∷ []) }
{
    watches.unwatch(need.kind, need.name, number);
}

// A generation of this content depends on what it needs.
fn watch(
    watches: &mut Watches,
    alloc: Global,
    content: &Content,
    number: Gen,
) -> Result<(), AllocError>
    ensures watched { OnOk result (WatchesNeeds watches.old watches.new number (dependencies_of content.now)) }
    ensures named { OnOk result (HaveNames (dependencies_of content.now)) }
{
    let mut needs = Needs::of(content);
    while let Some(need) = needs.next() {
        watch_need(watches, alloc, &need, number)?;
    }
    Ok(())
}

// It depends on this.
fn watch_need(
    watches: &mut Watches,
    alloc: Global,
    need: &Need<'_>,
    number: Gen,
) -> Result<(), AllocError>
    ensures watched { OnOk result (WatchesNeeds watches.old watches.new number (need.now ∷ [])) }
    ensures named { HaveNames (need.now ∷ []) }
{
    let _text = need.name.as_str();
    watches.watch(alloc, need.kind, need.name, number, need.limited)
}
