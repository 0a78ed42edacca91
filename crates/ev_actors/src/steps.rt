ghost use Rattle.std.specs.Prelude.{◌≡◌, ◌≤◌, ◌<◌, ◌+◌, ◌&&◌, ◌↔◌, true, false, [], length, IsTrue, IfOk, OnErr, OnOk};
ghost use Rattle.ev_types.specs.Events.{IsMainSide, MayMake};
ghost use Rattle.ev_types.specs.declared.events.Actor.TheVariants.{Worker as by_worker};
ghost use Rattle.ev_model.specs.Operations.{batch_limit, is_automatic};
ghost use Rattle.ev_model.specs.Runs.{is_batched};
ghost use Rattle.ev_actors.specs.Journals.{SufficeFor, WorksIn, world_now};
ghost use Rattle.ev_actors.specs.Taken.{HasEntered, HasFollowed, HasGoneOut, HasJoined, HasSettled, HasWorked, IsTaken};
ghost use Rattle.ev_actors.specs.Working.{AreAtWork, IsAtWork};

use crate::journaled::Journaled;
use ev_types::{Actor, Event, Line, TryCopy};
use ev_worker::Worker;
use std::alloc::{AllocError, Global};
use std::mem::drop;

// The settle of a worker: its batch goes into the journal, and it takes over the last picture.
pub(crate) fn settle<R: Journaled>(
    journaled: &mut R,
    worker: &mut Worker,
    at: u32,
    step: u32,
) -> Result<(), AllocError>
    requires within { worker.old.number < (R.shows journaled.old).workers }
    requires works { WorksIn worker.old (world_now (R.shows journaled.old)) }
    ensures settled { OnOk result (HasSettled at step (R.shows journaled.old)
        (R.shows journaled.new) worker.old worker.new) }
    ensures deferred { R.deferred journaled.new ≡ R.deferred journaled.old }
{
    worker.prepare()?;
    let settled = journaled.apply_batch(worker, at, step)?;
    worker.adopt(settled);
    Ok(())
}

/// An accept or close joins the batch of its worker; at any other line nothing is done.
/// It returns whether the line has joined.
pub fn join(alloc: Global, worker: &mut Worker, line: &Line) -> Result<bool, AllocError>
    requires room { is_batched line.now.event ≡ true → length worker.old.lines < batch_limit }
    ensures answer { IfOk result (λ joined. joined ≡ is_batched line.now.event) }
    ensures joined { OnOk result (is_batched line.now.event ≡ true → HasJoined line.now worker.old worker.new) }
    ensures other { is_batched line.now.event ≡ false → worker.new ≡ worker.old }
    ensures err { OnErr result (worker.new ≡ worker.old) }
{
    match &line.event {
        Event::Accept(ask) => {
            let ask = ask.copy(alloc)?;
            let _ = worker.accept(line.at, ask);
            Ok(true)
        }
        Event::Close(conn) => {
            let _ = worker.close(line.at, *conn);
            Ok(true)
        }
        _ => Ok(false),
    }
}

// A line of a worker: an accept or close joins the batch, which goes into the journal
// where it is full then; a settle ends it.
fn worker_line<R: Journaled>(
    alloc: Global,
    journaled: &mut R,
    worker: &mut Worker,
    line: &Line,
) -> Result<(), AllocError>
    requires working { IsAtWork worker.old.number (world_now (R.shows journaled.old)) worker.old }
    requires own { line.now.actor ≡ by_worker worker.old.number }
    requires allowed { MayMake (R.shows journaled.old).workers line.now.actor line.now.event }
    ensures worked { OnOk result (HasWorked line.now (R.shows journaled.old)
        (R.shows journaled.new) worker.old worker.new) }
    ensures deferred { R.deferred journaled.new ≡ R.deferred journaled.old }
{
    let joined = join(alloc, worker, line)?;
    if !joined {
        return settle(journaled, worker, line.at, 0);
    }
    let full = is_full(worker);
    if full {
        settle(journaled, worker, line.at, 1)
    } else {
        Ok(())
    }
}

// Whether the batch of the worker has no room left.
fn is_full(worker: &Worker) -> bool
    ensures full { IsTrue result ↔ (length worker.now.lines ≡ batch_limit) }
    ensures few { length worker.now.lines ≤ batch_limit }
{
    worker.room() == 0
}

// Whether a publication and a reaping follow the actor's lines, by whether the script says `auto`.
fn is_followed(auto: bool, actor: Actor) -> bool
    ensures { result ≡ (auto && is_automatic actor) }
{
    auto && matches!(actor, Actor::Stream | Actor::Health | Actor::Timer)
}

// An event of the main side is entered. The rows of what it reaped are dropped at once.
fn enter<R: Journaled>(
    journaled: &mut R,
    actor: Actor,
    at: u32,
    step: u32,
    event: &Event,
) -> Result<(), AllocError>
    requires main { IsMainSide actor }
    requires allowed { MayMake (R.shows journaled.old).workers actor event.now }
    requires numbered { SufficeFor event.now (R.shows journaled.old) }
    ensures entered { OnOk result (HasEntered record { actor = actor; at = at; step = step; event = event.now }
        (R.shows journaled.old) (R.shows journaled.new)) }
    ensures let_go { OnOk result (R.deferred journaled.new ≡ []) }
{
    journaled.apply(actor, at, step, event)?;
    drop(journaled.take_deferred());
    Ok(())
}

// The publication and the reaping after a line.
fn follow<R: Journaled>(journaled: &mut R, line: &Line) -> Result<(), AllocError>
    requires main { IsMainSide line.now.actor }
    ensures followed { OnOk result (HasFollowed line.now (R.shows journaled.old) (R.shows journaled.new)) }
    ensures let_go { OnOk result (R.deferred journaled.new ≡ []) }
{
    enter(journaled, line.actor, line.at, 1, &Event::Publish)?;
    enter(journaled, line.actor, line.at, 2, &Event::Reap)?;
    Ok(())
}

// A line of the main side, and what follows it.
fn main_line<R: Journaled>(journaled: &mut R, auto: bool, line: &Line) -> Result<(), AllocError>
    requires main { IsMainSide line.now.actor }
    requires allowed { MayMake (R.shows journaled.old).workers line.now.actor line.now.event }
    requires numbered { SufficeFor line.now.event (R.shows journaled.old) }
    ensures out { OnOk result (HasGoneOut auto line.now (R.shows journaled.old) (R.shows journaled.new)) }
    ensures let_go { OnOk result (R.deferred journaled.new ≡ []) }
{
    enter(journaled, line.actor, line.at, 0, &line.event)?;
    let followed = is_followed(auto, line.actor);
    if followed {
        follow(journaled, line)
    } else {
        Ok(())
    }
}

// A line of the script.
pub(crate) fn take_line<R: Journaled>(
    alloc: Global,
    journaled: &mut R,
    workers: &mut [Worker],
    auto: bool,
    line: &Line,
) -> Result<(), AllocError>
    requires count { length workers.old ≡ (R.shows journaled.old).workers }
    requires working { AreAtWork (world_now (R.shows journaled.old)) workers.old }
    requires allowed { MayMake (R.shows journaled.old).workers line.now.actor line.now.event }
    requires numbered { SufficeFor line.now.event (R.shows journaled.old) }
    ensures taken { OnOk result (IsTaken auto line.now (R.shows journaled.old)
        (R.shows journaled.new) workers.old workers.new) }
    ensures let_go { OnOk result (R.deferred journaled.old ≡ [] → R.deferred journaled.new ≡ []) }
{
    match line.actor {
        Actor::Worker(number) => {
            worker_line(alloc, journaled, &mut workers[number as usize], line)
        }
        _ => main_line(journaled, auto, line),
    }
}
