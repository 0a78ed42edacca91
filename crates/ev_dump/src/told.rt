ghost use Rattle.std.specs.Prelude.{◌≡◌, IsSome, IfOk, Some, map, option_copied};
ghost use Rattle.std.specs.List.Sorted.{IsStrictlyIncreasing};
ghost use Rattle.ev_model.specs.Finding.{entry_told, journal_told};
ghost use Rattle.ev_dump.specs.Told.{AreTold, event_behind, line_numbered};

use ev_types::{Entry, Event, Line, Op, Row, Script, TryCopy};
use std::alloc::{AllocError, Global};

/// The entries that rows record, in order, where the script has the operation of each.
pub fn entries_told(alloc: Global, script: &Script, rows: &[Row]) -> Result<Vec<Entry>, AllocError>
    requires told { AreTold script.now rows.now }
    ensures entries { IfOk result (λ entries. entries.items ≡ journal_told script.now rows.now) }
{
    let mut entries = Vec::with_capacity(alloc, rows.len())?;
    for row in rows {
        entries.push(entry_told(alloc, script, row)?)?;
    }
    Ok(entries)
}

// The entry that a row records.
fn entry_told(alloc: Global, script: &Script, row: &Row) -> Result<Entry, AllocError>
    requires told { IsSome (entry_told script.now row.now) }
    ensures entry { IfOk result (λ entry. entry_told script.now row.now ≡ Some entry) }
{
    Ok(Entry {
        actor: row.actor,
        at: row.at,
        step: row.step,
        event: event_told(alloc, script, row)?,
        answer: row.answer.copy(alloc)?,
    })
}

// The event of the entry that a row records: where its word doesn't say all of it, that of the line.
fn event_told(alloc: Global, script: &Script, row: &Row) -> Result<Event, AllocError>
    requires told { IsSome (entry_told script.now row.now) }
    ensures event { IfOk result (λ event. entry_told script.now row.now ≡ Some record {
      actor = row.now.actor;
      at = row.now.at;
      step = row.now.step;
      event = event;
      answer = row.now.answer;
    }) }
{
    if let Some(event) = event_behind(row.op) {
        return Ok(event);
    }
    let Some(line) = line_numbered(script.lines.as_slice(), row.at) else {
        unreachable!();
    };
    line.event.copy(alloc)
}

// The event of a word that comes after lines too.
fn event_behind(op: Op) -> Option<Event>
    ensures { result ≡ event_behind op }
{
    match op {
        Op::Publish => Some(Event::Publish),
        Op::Reap => Some(Event::Reap),
        Op::Settle => Some(Event::Settle),
        _ => None,
    }
}

// The line of a number. It costs a binary search.
fn line_numbered(lines: &[Line], at: u32) -> Option<&Line>
    requires rising { IsStrictlyIncreasing (map (λ line. line.at) lines.now) }
    ensures { option_copied result ≡ line_numbered at lines.now }
{
    match lines.binary_search_by_key(&at, |line| line.at) {
        Ok(place) => Some(&lines[place]),
        Err(_) => None,
    }
}
