ghost use Rattle.std.specs.Prelude.{◌≡◌, ◌<◌, true, length, OnOk};
ghost use Rattle.ev_types.specs.declared.events.Actor.TheVariants.{Worker as by_worker};
ghost use Rattle.ev_model.specs.Dead.{last_picture};
ghost use Rattle.ev_types.specs.Events.{MayMake};
ghost use Rattle.ev_model.specs.Operations.{batch_limit, line_operation};
ghost use Rattle.ev_model.specs.Runs.{is_batched};
ghost use Rattle.ev_actors.specs.Journals.{WorksIn, nothing_done, world_now};
ghost use Rattle.ev_actors.specs.Taken.{HasBegun};
ghost use Rattle.ev_commits.specs.Commits.{seat_of};
ghost use Rattle.ev_commits.specs.Seen.{seen_by};
ghost use Rattle.ev_run.specs.Acting.{GoesThrough, HasEnded, HasGoneThrough, IsNextWork, IsWorkingOn, settle_of};
ghost use Rattle.ev_run.specs.Playing.{IsGateFor, IsNewPass, IsPassAt};

use crate::main_side::line_at;
use crate::pace::Pace;
use crate::player::worker_count;
use ev_actors::{Journaled, join};
use ev_commits::{Kept, settle};
use ev_gate::{Gate, Pass};
use ev_operations::{Due, operations};
use ev_types::{Actor, Line, Script};
use ev_worker::Worker;
use std::alloc::{AllocError, Global};
use std::sync::Wait;
use std::thread::Threads;

// A worker settles, after a call of the pace with its batch:
// in a turn, or, where it rests and nothing newer was published, in none.
fn settle_at<R: Threads + Wait + Sync, J: Journaled, P: Pace>(
    rt: &R,
    gate: &Gate<Kept<J>>,
    script: &Script,
    pace: &P,
    pass: Pass<Kept<J>>,
    worker: &mut Worker,
    at: u32,
    step: u32,
) -> (Pass<Kept<J>>, Result<(), AllocError>)
    requires gate { IsGateFor J.shows script.now gate.now }
    requires pass { IsPassAt J.shows gate.now (seat_of (by_worker worker.old.number)) pass }
    requires within { worker.old.number < script.now.workers }
    requires works { WorksIn worker.old (world_now (seen_by J.shows gate.now pass)) }
    ensures number { OnOk result.1 (worker.new.number ≡ worker.old.number) }
    ensures pass { IsPassAt J.shows gate.now (seat_of (by_worker worker.old.number)) result.0 }
    ensures through { OnOk result.1 (GoesThrough script.now (settle_of worker.old at step)
        (seen_by J.shows gate.now pass) (seen_by J.shows gate.now result.0) worker.old worker.new) }
{
    let number = worker.batch().worker();
    pace.step(rt, Actor::Worker(number), at, Some(worker.batch()));
    let (pass, settled) = settle(rt, gate, pass, worker, at, step);
    match settled {
        Ok(_) => (pass, Ok(())),
        Err(error) => (pass, Err(error)),
    }
}

// A worker does a line: a settle it makes or leaves out, and an accept or close joins its batch.
fn work_line<R: Threads + Wait + Sync, J: Journaled, P: Pace>(
    rt: &R,
    gate: &Gate<Kept<J>>,
    alloc: Global,
    script: &Script,
    pace: &P,
    pass: Pass<Kept<J>>,
    worker: &mut Worker,
    line: &Line,
) -> (Pass<Kept<J>>, Result<(), AllocError>)
    requires gate { IsGateFor J.shows script.now gate.now }
    requires pass { IsPassAt J.shows gate.now (seat_of (by_worker worker.old.number)) pass }
    requires within { worker.old.number < script.now.workers }
    requires works { WorksIn worker.old (world_now (seen_by J.shows gate.now pass)) }
    requires own { line.now.actor ≡ by_worker worker.old.number }
    requires allowed { MayMake script.now.workers line.now.actor line.now.event }
    requires room { is_batched line.now.event ≡ true → length worker.old.lines < batch_limit }
    ensures number { OnOk result.1 (worker.new.number ≡ worker.old.number) }
    ensures pass { IsPassAt J.shows gate.now (seat_of (by_worker worker.old.number)) result.0 }
    ensures through { OnOk result.1 (GoesThrough script.now (line_operation line.now)
        (seen_by J.shows gate.now pass) (seen_by J.shows gate.now result.0) worker.old worker.new) }
{
    match join(alloc, worker, line) {
        Ok(true) => (pass, Ok(())),
        Ok(false) => settle_at(rt, gate, script, pace, pass, worker, line.at, 0),
        Err(error) => (pass, Err(error)),
    }
}

// A worker does what is due next: a line, or else a settle. It may neither publish nor reap, so that neither is due.
fn work<R: Threads + Wait + Sync, J: Journaled, P: Pace>(
    rt: &R,
    gate: &Gate<Kept<J>>,
    alloc: Global,
    script: &Script,
    pace: &P,
    pass: Pass<Kept<J>>,
    worker: &mut Worker,
    due: Due,
) -> (Pass<Kept<J>>, Result<(), AllocError>)
    requires gate { IsGateFor J.shows script.now gate.now }
    requires pass { IsPassAt J.shows gate.now (seat_of (by_worker worker.old.number)) pass }
    requires within { worker.old.number < script.now.workers }
    requires next { IsNextWork script.now worker.old due (seen_by J.shows gate.now pass) }
    ensures number { OnOk result.1 (worker.new.number ≡ worker.old.number) }
    ensures pass { IsPassAt J.shows gate.now (seat_of (by_worker worker.old.number)) result.0 }
    ensures through { OnOk result.1 (HasGoneThrough script.now due
        (seen_by J.shows gate.now pass) (seen_by J.shows gate.now result.0) worker.old worker.new) }
{
    match due {
        Due::Line(place) => {
            let line = line_at(script, place);
            work_line(rt, gate, alloc, script, pace, pass, worker, line)
        }
        Due::Publish(place) | Due::Reap(place) | Due::Settle(place) => {
            let line = line_at(script, place);
            settle_at(rt, gate, script, pace, pass, worker, line.at, 1)
        }
        Due::LastSettle => { settle_at(rt, gate, script, pace, pass, worker, script.count + 1, 0) }
    }
}

// A worker does what is due, in order, until it has no memory, and returns whether it came to the end.
fn work_all<R: Threads + Wait + Sync, J: Journaled, P: Pace>(
    rt: &R,
    gate: &Gate<Kept<J>>,
    alloc: Global,
    script: &Script,
    pace: &P,
    mut pass: Pass<Kept<J>>,
    worker: &mut Worker,
    dues: &[Due],
) -> (Pass<Kept<J>>, bool)
    requires gate { IsGateFor J.shows script.now gate.now }
    requires pass { IsPassAt J.shows gate.now (seat_of (by_worker worker.old.number)) pass }
    requires within { worker.old.number < script.now.workers }
    requires working { IsWorkingOn script.now worker.old dues.now (seen_by J.shows gate.now pass) }
    ensures pass { IsPassAt J.shows gate.now (seat_of (by_worker worker.old.number)) result.0 }
    ensures ended { result.1 ≡ true → HasEnded script.now (by_worker worker.old.number)
        (seen_by J.shows gate.now result.0) }
{
    for due in dues {
        let (back, done) = work(rt, gate, alloc, script, pace, pass, worker, *due);
        pass = back;
        if done.is_err() {
            return (pass, false);
        }
    }
    (pass, true)
}

/// A worker that has done nothing yet does all its operations, and returns whether it came to the end.
pub(crate) fn act_worker<R: Threads + Wait + Sync, J: Journaled, P: Pace>(
    rt: &R,
    gate: &Gate<Kept<J>>,
    alloc: Global,
    script: &Script,
    pace: &P,
    pass: Pass<Kept<J>>,
    worker: &mut Worker,
) -> (Pass<Kept<J>>, bool)
    requires gate { IsGateFor J.shows script.now gate.now }
    requires pass { IsNewPass J.shows script.now gate.now (seat_of (by_worker worker.old.number)) pass }
    requires within { worker.old.number < script.now.workers }
    requires begun { HasBegun worker.old.number (last_picture (world_now (nothing_done script.now))) worker.old }
    ensures pass { IsPassAt J.shows gate.now (seat_of (by_worker worker.old.number)) result.0 }
    ensures ended { result.1 ≡ true → HasEnded script.now (by_worker worker.old.number)
        (seen_by J.shows gate.now result.0) }
{
    let _ = worker_count(script);
    let number = worker.batch().worker();
    match operations(alloc, script, Actor::Worker(number)) {
        Ok(dues) => work_all(rt, gate, alloc, script, pace, pass, worker, dues.as_slice()),
        Err(_) => (pass, false),
    }
}
