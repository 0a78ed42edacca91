use ev_actors::Journaled;
use ev_audit::audit;
use ev_journal::write_line;
use ev_journal_read::read_row;
use ev_keys::Keys;
use ev_registry::Registry;
use ev_run::{Free, run};
use ev_soak::script;
use ev_types::{Entry, Finding, Format, Row};
use std::alloc::Global;
use std::mem::drop;
use std::test::Fail;

/// The seed of the script that is soaked in, and its lines after the header.
const SEED: u64 = 7;

const COUNT: u32 = 20_000;

// The rows that the lines of these entries are read as.
fn rows_of(alloc: Global, journal: &[Entry]) -> Result<Vec<Row>, Fail> {
    let mut rows = Vec::new(alloc);
    for entry in journal {
        let line = write_line(alloc, entry)?;
        let text = line.as_slice();
        let Some((_, text)) = text.split_last() else {
            return Err(Fail::new("no line"));
        };
        let Ok(row) = read_row(alloc, text) else {
            return Err(Fail::new("no row"));
        };
        rows.push(row)?;
    }
    Ok(rows)
}

#[test]
fn the_run_of_a_soak_is_legal(rt: HostRuntime) -> Result<(), Fail> {
    let alloc = rt.alloc();
    let script = script(alloc, SEED, COUNT)?;
    let keys = Keys::of(&[SEED]);
    let begun = Registry::new(alloc, keys, script.workers, &script.node, Format::Two)?;
    let registry = run(&rt, alloc, keys, &script, &Free, begun)?;
    let rows = rows_of(alloc, registry.journal());
    drop(registry);
    let rows = rows?;
    let few = rows.len() < u32::MAX as usize;
    if !few {
        return Err(Fail::new("too many rows"));
    }
    let finding = audit(alloc, keys, Format::Two, &script, rows.as_slice())?;
    assert!(rt; finding == Finding::Legal);
    Ok(())
}
