ghost use Rattle.std.specs.Prelude.{◌≡◌, ◌≤◌, [], length, IfOk, OnOk};
ghost use Rattle.ev_model.specs.Dead.{last_picture};
ghost use Rattle.ev_actors.specs.Journals.{HasReplayed, nothing_done, world_now};
ghost use Rattle.ev_actors.specs.Taken.{HaveBegun, HaveSettled};
ghost use Rattle.ev_actors.specs.Working.{AreAtWork};

use crate::journaled::Journaled;
use crate::steps::{settle, take_line};
use ev_keys::Keys;
use ev_types::Script;
use ev_worker::Worker;
use std::alloc::{AllocError, Global};

/// Takes the whole script on one thread, in one pass over its lines:
/// what comes back shows the script's replay, by the rules of format 2. What is passed has done nothing yet.
/// Each worker keeps its accepts and closes until it settles, by a line of its own, where its batch is full,
/// or after the last line. The rows of what is reaped are let go at once. The workers' tables hash by these keys.
pub fn replay<R: Journaled + Drop>(
    alloc: Global,
    keys: Keys,
    script: &Script,
    journaled: R,
) -> Result<R, AllocError>
    requires begins { R.shows journaled ≡ nothing_done script.now }
    ensures replayed { IfOk result (λ journaled. HasReplayed script.now (R.shows journaled)) }
    ensures let_go { IfOk result (λ after. R.deferred journaled ≡ [] → R.deferred after ≡ []) }
{
    let mut journaled = journaled;
    let mut workers = begin(alloc, keys, &journaled, script.workers)?;
    for line in script.lines.as_slice() {
        take_line(
            alloc,
            &mut journaled,
            workers.as_mut_slice(),
            script.auto,
            line,
        )?;
    }
    settle_all(&mut journaled, workers.as_mut_slice(), script.count + 1)?;
    // the journal is a run, as it keeps
    let _ = journaled.journal();
    Ok(journaled)
}

// The workers, each of which has the last picture and has done nothing yet.
fn begin<R: Journaled>(
    alloc: Global,
    keys: Keys,
    journaled: &R,
    count: u32,
) -> Result<Vec<Worker>, AllocError>
    ensures { IfOk result (λ workers. HaveBegun count (last_picture (world_now
        (R.shows journaled.now))) workers.items) }
{
    let mut workers = Vec::new(alloc);
    for number in 0..count {
        let snapshot = journaled.snapshot()?;
        workers.push(Worker::new(alloc, keys, number, snapshot)?)?;
    }
    Ok(workers)
}

// Each worker settles at a line, by number.
fn settle_all<R: Journaled>(
    journaled: &mut R,
    workers: &mut [Worker],
    at: u32,
) -> Result<(), AllocError>
    requires count { length workers.old ≡ (R.shows journaled.old).workers }
    requires working { AreAtWork (world_now (R.shows journaled.old)) workers.old }
    ensures settled { OnOk result (HaveSettled at (R.shows journaled.old) (R.shows journaled.new) workers.old) }
    ensures deferred { OnOk result (R.deferred journaled.new ≡ R.deferred journaled.old) }
{
    for number in 0..workers.len() {
        settle(journaled, &mut workers[number], at, 0)?;
    }
    Ok(())
}
