ghost use Rattle.std.specs.Prelude.{◌≡◌, [], ◌∷◌, ◌++◌, IfOk, OnOk, OnErr};
ghost use Rattle.ev_worker.specs.Batches.{entry_of};
ghost use Rattle.ev_actors.specs.Journals.{entries_made};
ghost use Rattle.ev_registry.specs.Registries.{settle_told};

use ev_retirement::answer_of;
use ev_snapshot::Snapshot;
use ev_types::{Actor, Answer, Entry, Event, TryCopy};
use ev_worker::{BatchLine, Settled, Worker};
use std::alloc::{AllocError, Global};
use std::mem::drop;

// Appends what a worker did, and its settle, to a journal, all at once: out of memory, the journal stays as it was.
pub(crate) fn enter_batch(
    journal: &mut Vec<Entry>,
    alloc: Global,
    worker: &Worker,
    at: u32,
    step: u32,
    settled: &Settled,
) -> Result<(), AllocError>
    ensures ok { OnOk result (journal.new.items ≡ journal.old.items ++ (entries_made worker.now
        ++ settle_told worker.now.number at step settled.now.closed settled.now.moved settled.now.version ∷ [])) }
    ensures err { OnErr result (journal.new.items ≡ journal.old.items) }
{
    let mut entries = Vec::new(alloc);
    let entered = enter_through(&mut entries, journal, alloc, worker, at, step, settled);
    drop(entries);
    entered
}

// The same, through a list that is empty yet.
fn enter_through(
    entries: &mut Vec<Entry>,
    journal: &mut Vec<Entry>,
    alloc: Global,
    worker: &Worker,
    at: u32,
    step: u32,
    settled: &Settled,
) -> Result<(), AllocError>
    requires { entries.old.items ≡ [] }
    ensures ok { OnOk result (journal.new.items ≡ journal.old.items ++ (entries_made worker.now
        ++ settle_told worker.now.number at step settled.now.closed settled.now.moved settled.now.version ∷ [])) }
    ensures err { OnErr result (journal.new.items ≡ journal.old.items) }
{
    enter_lines(entries, alloc, worker)?;
    let last = settle_entry(alloc, worker.batch().worker(), at, step, settled)?;
    entries.push(last)?;
    journal.append(entries)
}

// Puts what a worker did into a list that is empty yet.
fn enter_lines(entries: &mut Vec<Entry>, alloc: Global, worker: &Worker) -> Result<(), AllocError>
    requires { entries.old.items ≡ [] }
    ensures { OnOk result (entries.new.items ≡ entries_made worker.now) }
{
    let number = worker.batch().worker();
    let snapshot = worker.snapshot();
    for line in worker.batch().lines() {
        let entry = line_entry(alloc, number, snapshot, line)?;
        entries.push(entry)?;
    }
    Ok(())
}

// A line of a worker, which serves from the snapshot, as an entry.
fn line_entry(
    alloc: Global,
    worker: u32,
    snapshot: &Snapshot,
    line: &BatchLine,
) -> Result<Entry, AllocError>
    ensures { IfOk result (λ entry. entry ≡ entry_of worker snapshot.now line.now) }
{
    Ok(Entry {
        actor: Actor::Worker(worker),
        at: line.at,
        step: 0,
        event: line.event.copy(alloc)?,
        answer: answer_of(alloc, snapshot, &line.outcome)?,
    })
}

// A worker's settle, as an entry.
fn settle_entry(
    alloc: Global,
    worker: u32,
    at: u32,
    step: u32,
    settled: &Settled,
) -> Result<Entry, AllocError>
    ensures { IfOk result (λ entry. entry ≡ settle_told worker at step settled.now.closed settled.now.moved settled.now.version) }
{
    Ok(Entry {
        actor: Actor::Worker(worker),
        at,
        step,
        event: Event::Settle,
        answer: Answer::Settled {
            closed: settled.closed.copy(alloc)?,
            moved: settled.moved.copy(alloc)?,
            version: settled.version,
        },
    })
}
