ghost use Rattle.std.specs.Prelude.{◌≡◌, ◌∷◌, ◌++◌, [], map, IfOk, OnOk};
ghost use Rattle.serde_json.specs.View.{view};
ghost use Rattle.ev_dump.specs.Texts.{counters_tree, dump_tree, of_kind, phase_text, row_tree, rows_tree, status_text};

use ev_registry::{View, ViewRow};
use ev_tally::{Tally, tally};
use ev_types::{Entry, Kind, Phase, RowStatus};
use serde_json::{Value, json};
use std::alloc::{AllocError, Global};

/// The tree of what is shown after these entries.
pub(crate) fn dump_value(
    alloc: Global,
    shown: &View,
    entries: &[Entry],
) -> Result<Value, AllocError>
    ensures { IfOk result (λ v. view v ≡ dump_tree shown.now entries.now) }
{
    let clusters = rows_value(alloc, Kind::Cds, shown.rows.as_slice())?;
    let counters = counters_value(alloc, tally(entries)?)?;
    let listeners = rows_value(alloc, Kind::Lds, shown.rows.as_slice())?;
    json!(in alloc; {
        "clusters": clusters,
        "counters": counters,
        "entries": entries.len(),
        "listeners": listeners,
        "phase": phase_word(shown.phase),
        "version": shown.version,
    })
}

// The tree of the generations of a kind.
fn rows_value(alloc: Global, kind: Kind, rows: &[ViewRow]) -> Result<Value, AllocError>
    ensures { IfOk result (λ v. view v ≡ rows_tree kind rows.now) }
{
    let mut values = Vec::new(alloc);
    for row in rows {
        put_row(&mut values, alloc, kind, row)?;
    }
    Ok(Value::Array(values))
}

// Appends the tree of a generation to others, where it is of the kind.
fn put_row(
    values: &mut Vec<Value>,
    alloc: Global,
    kind: Kind,
    row: &ViewRow,
) -> Result<(), AllocError>
    ensures { OnOk result (map view values.new.items
        ≡ map view values.old.items ++ map row_tree (of_kind kind (row.now ∷ []))) }
{
    if row.kind != kind {
        return Ok(());
    }
    values.push(row_value(alloc, row)?)?;
    Ok(())
}

// The tree of a generation.
fn row_value(alloc: Global, row: &ViewRow) -> Result<Value, AllocError>
    ensures { IfOk result (λ v. view v ≡ row_tree row.now) }
{
    json!(in alloc; {
        "connections": row.connections,
        "name": row.name.as_str(),
        "number": row.number.number(),
        "status": status_word(row.status),
    })
}

// The tree of what the entries count up to.
fn counters_value(alloc: Global, counts: Tally) -> Result<Value, AllocError>
    ensures { IfOk result (λ v. view v ≡ counters_tree counts) }
{
    json!(in alloc; {
        "ack": counts.acks,
        "nack": counts.nacks,
        "opened": counts.opened,
        "reaped": counts.reaped,
    })
}

// A generation's status in a word.
fn status_word(status: RowStatus) -> &'static str
    ensures { result.now ≡ status_text status }
{
    match status {
        RowStatus::Warming => "warming",
        RowStatus::Active => "active",
        RowStatus::Draining => "draining",
        RowStatus::Dropped => "dropped",
    }
}

// How far the proxy has booted, in a word.
fn phase_word(phase: Phase) -> &'static str
    ensures { result.now ≡ phase_text phase }
{
    match phase {
        Phase::Clusters => "clusters",
        Phase::Listeners => "listeners",
        Phase::Serving => "serving",
    }
}
