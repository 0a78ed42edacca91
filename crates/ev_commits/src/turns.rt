ghost use Rattle.std.specs.Prelude.{◌≡◌, ◌<◌, ◌≤◌, true, false, OnOk, OnErr, IfOk, IsTrue};
ghost use Rattle.ev_types.specs.Events.{IsMainSide, MayMake};
ghost use Rattle.ev_types.specs.declared.events.Actor.TheVariants.{Worker as by_worker};
ghost use Rattle.ev_gate.specs.Words.{gate_id, pass_gate, pass_knows};
ghost use Rattle.ev_actors.specs.Journals.{SufficeFor, WorksIn, world_now};
ghost use Rattle.ev_commits.specs.Commits.{GrowsByOthers, seat_of};
ghost use Rattle.ev_commits.specs.Seen.{HasActed, HasCommitted, HasHeard, IsLeftOut, LearnsAtRest, began_at, heard_by, seen_by, version_shown};
ghost use Rattle.ev_model.specs.Operations.{batch_limit};

use crate::acts::{apply_in, settle_in};
use crate::kept::Kept;
use ev_actors::Journaled;
use ev_gate::{Gate, Pass};
use ev_types::{Actor, Event};
use ev_worker::Worker;
use std::alloc::AllocError;
use std::mem::drop;
use std::sync::Wait;
use std::thread::Threads;

/// An actor of the main side takes its turn and enters one event.
/// The rows that it reaped are dropped after the turn. Out of memory, the journal is as it was at the turn.
pub fn enter<R: Threads + Wait + Sync, J: Journaled>(
    rt: &R,
    gate: &Gate<Kept<J>>,
    pass: Pass<Kept<J>>,
    actor: Actor,
    at: u32,
    step: u32,
    event: &Event,
) -> (Pass<Kept<J>>, Result<(), AllocError>)
    requires here { pass_gate pass ≡ gate_id gate.now }
    requires seat { (pass_knows pass).number ≡ seat_of actor }
    requires main { IsMainSide actor }
    requires allowed { MayMake (began_at J.shows gate.now).workers actor event.now }
    requires numbered { SufficeFor event.now (seen_by J.shows gate.now pass) }
    ensures here { pass_gate result.0 ≡ gate_id gate.now }
    ensures seat { (pass_knows result.0).number ≡ seat_of actor }
    ensures start { (pass_knows result.0).start ≡ (pass_knows pass).start }
    ensures heard { HasHeard (seen_by J.shows gate.now result.0) (heard_by J.shows gate.now result.0) }
    ensures entered { OnOk result.1 (HasActed record { actor = actor; at = at; step = step; event = event.now }
        (seen_by J.shows gate.now pass) (seen_by J.shows gate.now result.0)) }
    ensures refused { OnErr result.1 (GrowsByOthers (seat_of actor)
        (seen_by J.shows gate.now pass) (seen_by J.shows gate.now result.0)) }
{
    let mut turn = gate.turn(rt, pass);
    match apply_in(turn.value(), actor, at, step, event) {
        Ok(rows) => {
            let pass = turn.done();
            drop(rows);
            (pass, Ok(()))
        }
        Err(error) => (turn.quit(), Err(error)),
    }
}

/// A worker settles. One that did nothing since it settled and has nothing open asks
/// for the newest version first: where that is its snapshot's, the settle is left out, without a turn,
/// and the answer is false. Otherwise its batch and its settle are entered in one turn, and the answer is true.
/// The memory is taken before the turn. Out of memory, the worker is as it was, but for the room that it has,
/// and the journal as it was at the turn.
pub fn settle<R: Threads + Wait + Sync, J: Journaled>(
    rt: &R,
    gate: &Gate<Kept<J>>,
    mut pass: Pass<Kept<J>>,
    worker: &mut Worker,
    at: u32,
    step: u32,
) -> (Pass<Kept<J>>, Result<bool, AllocError>)
    requires here { pass_gate pass ≡ gate_id gate.now }
    requires seat { (pass_knows pass).number ≡ seat_of (by_worker worker.old.number) }
    requires within { worker.old.number < (began_at J.shows gate.now).workers }
    requires works { WorksIn worker.old (world_now (seen_by J.shows gate.now pass)) }
    requires heard { HasHeard (seen_by J.shows gate.now pass) (heard_by J.shows gate.now pass) }
    ensures here { pass_gate result.0 ≡ gate_id gate.now }
    ensures seat { (pass_knows result.0).number ≡ seat_of (by_worker worker.old.number) }
    ensures start { (pass_knows result.0).start ≡ (pass_knows pass).start }
    ensures heard { HasHeard (seen_by J.shows gate.now result.0) (heard_by J.shows gate.now result.0) }
    ensures newer { IfOk result.1 (λ made. made ≡ true → LearnsAtRest (seen_by J.shows gate.now result.0) worker.old) }
    ensures settled { IfOk result.1 (λ made. made ≡ true → HasCommitted at step
        (seen_by J.shows gate.now pass) (seen_by J.shows gate.now result.0) worker.old worker.new) }
    ensures left_out { IfOk result.1 (λ made. made ≡ false → IsLeftOut
        (seen_by J.shows gate.now pass) (seen_by J.shows gate.now result.0)
        (heard_by J.shows gate.now pass) worker.old worker.new) }
    ensures refused { OnErr result.1 (GrowsByOthers (seat_of (by_worker worker.old.number))
        (seen_by J.shows gate.now pass) (seen_by J.shows gate.now result.0)) }
    ensures as_it_was { OnErr result.1 (worker.new ≡ record worker.old { spare = worker.new.spare }) }
{
    if worker.idle() {
        let newest = gate.newest(&mut pass);
        if newest == worker.version() {
            return (pass, Ok(false));
        }
    }
    if let Err(error) = worker.prepare() {
        return (pass, Err(error));
    }
    commit(rt, gate, pass, worker, at, step)
}

// A worker that has taken its memory takes its turn and settles.
fn commit<R: Threads + Wait + Sync, J: Journaled>(
    rt: &R,
    gate: &Gate<Kept<J>>,
    pass: Pass<Kept<J>>,
    worker: &mut Worker,
    at: u32,
    step: u32,
) -> (Pass<Kept<J>>, Result<bool, AllocError>)
    requires prepared { batch_limit ≤ worker.old.spare }
    requires here { pass_gate pass ≡ gate_id gate.now }
    requires seat { (pass_knows pass).number ≡ seat_of (by_worker worker.old.number) }
    requires within { worker.old.number < (began_at J.shows gate.now).workers }
    requires works { WorksIn worker.old (world_now (seen_by J.shows gate.now pass)) }
    ensures here { pass_gate result.0 ≡ gate_id gate.now }
    ensures seat { (pass_knows result.0).number ≡ seat_of (by_worker worker.old.number) }
    ensures start { (pass_knows result.0).start ≡ (pass_knows pass).start }
    ensures heard { HasHeard (seen_by J.shows gate.now result.0) (heard_by J.shows gate.now result.0) }
    ensures newer { OnOk result.1 (version_shown (heard_by J.shows gate.now pass)
        ≤ version_shown (seen_by J.shows gate.now result.0)) }
    ensures made { IfOk result.1 (λ made. made ≡ true) }
    ensures settled { OnOk result.1 (HasCommitted at step
        (seen_by J.shows gate.now pass) (seen_by J.shows gate.now result.0) worker.old worker.new) }
    ensures refused { OnErr result.1 (GrowsByOthers (seat_of (by_worker worker.old.number))
        (seen_by J.shows gate.now pass) (seen_by J.shows gate.now result.0)) }
    ensures as_it_was { OnErr result.1 (worker.new ≡ worker.old) }
{
    let mut turn = gate.turn(rt, pass);
    match settle_in(turn.value(), worker, at, step) {
        Ok(()) => (turn.done(), Ok(true)),
        Err(error) => (turn.quit(), Err(error)),
    }
}
