ghost use Rattle.std.specs.Prelude.{◌≡◌, true, OnOk, IsSome, Some, slice_get};
ghost use Rattle.ev_types.specs.Events.{IsMainSide};
ghost use Rattle.ev_actors.specs.Journals.{SufficeFor};
ghost use Rattle.ev_types.specs.Events.{MayMake};
ghost use Rattle.ev_commits.specs.Commits.{seat_of};
ghost use Rattle.ev_commits.specs.Seen.{HasActed, began_at, seen_by};
ghost use Rattle.ev_run.specs.Acting.{HasDone, HasEnded, IsActingOn, IsNextAct};
ghost use Rattle.ev_run.specs.Playing.{IsGateFor, IsNewPass, IsPassAt};

use crate::pace::Pace;
use crate::player::worker_count;
use ev_actors::Journaled;
use ev_commits::{Kept, enter};
use ev_gate::{Gate, Pass};
use ev_operations::{Due, operations};
use ev_types::{Actor, Event, Line, Script};
use std::alloc::{AllocError, Global};
use std::sync::Wait;
use std::thread::Threads;

// An actor of the main side enters one event in a turn, after a call of the pace.
fn take_turn<R: Threads + Wait + Sync, J: Journaled, P: Pace>(
    rt: &R,
    gate: &Gate<Kept<J>>,
    pace: &P,
    pass: Pass<Kept<J>>,
    actor: Actor,
    at: u32,
    step: u32,
    event: &Event,
) -> (Pass<Kept<J>>, Result<(), AllocError>)
    requires pass { IsPassAt J.shows gate.now (seat_of actor) pass }
    requires main { IsMainSide actor }
    requires allowed { MayMake (began_at J.shows gate.now).workers actor event.now }
    requires numbered { SufficeFor event.now (seen_by J.shows gate.now pass) }
    ensures pass { IsPassAt J.shows gate.now (seat_of actor) result.0 }
    ensures acted { OnOk result.1 (HasActed record { actor = actor; at = at; step = step; event = event.now }
        (seen_by J.shows gate.now pass) (seen_by J.shows gate.now result.0)) }
{
    pace.step(rt, actor, at, None);
    enter(rt, gate, pass, actor, at, step, event)
}

// The line at this place.
pub(crate) fn line_at(script: &Script, place: u32) -> &Line
    requires there { IsSome (slice_get script.now.lines place) }
    ensures there { slice_get script.now.lines place ≡ Some result.now }
{
    &script.lines.as_slice()[place as usize]
}

// An actor of the main side does what is due next. It may make no settle, so that none is due.
fn act<R: Threads + Wait + Sync, J: Journaled, P: Pace>(
    rt: &R,
    gate: &Gate<Kept<J>>,
    script: &Script,
    pace: &P,
    pass: Pass<Kept<J>>,
    actor: Actor,
    due: Due,
) -> (Pass<Kept<J>>, Result<(), AllocError>)
    requires gate { IsGateFor J.shows script.now gate.now }
    requires pass { IsPassAt J.shows gate.now (seat_of actor) pass }
    requires main { IsMainSide actor }
    requires next { IsNextAct script.now actor due (seen_by J.shows gate.now pass) }
    ensures pass { IsPassAt J.shows gate.now (seat_of actor) result.0 }
    ensures done { OnOk result.1 (HasDone script.now actor due
        (seen_by J.shows gate.now pass) (seen_by J.shows gate.now result.0)) }
{
    match due {
        Due::Line(place) => {
            let line = line_at(script, place);
            take_turn(rt, gate, pace, pass, actor, line.at, 0, &line.event)
        }
        Due::Publish(place) => {
            let line = line_at(script, place);
            take_turn(rt, gate, pace, pass, actor, line.at, 1, &Event::Publish)
        }
        Due::Reap(place) => {
            let line = line_at(script, place);
            take_turn(rt, gate, pace, pass, actor, line.at, 2, &Event::Reap)
        }
        Due::Settle(place) => {
            let line = line_at(script, place);
            take_turn(rt, gate, pace, pass, actor, line.at, 1, &Event::Settle)
        }
        Due::LastSettle => {
            let at = script.count + 1;
            take_turn(rt, gate, pace, pass, actor, at, 0, &Event::Settle)
        }
    }
}

// An actor of the main side does what is due, in order, until it has no memory, and returns whether it came to the end.
fn act_all<R: Threads + Wait + Sync, J: Journaled, P: Pace>(
    rt: &R,
    gate: &Gate<Kept<J>>,
    script: &Script,
    pace: &P,
    mut pass: Pass<Kept<J>>,
    actor: Actor,
    dues: &[Due],
) -> (Pass<Kept<J>>, bool)
    requires gate { IsGateFor J.shows script.now gate.now }
    requires pass { IsPassAt J.shows gate.now (seat_of actor) pass }
    requires main { IsMainSide actor }
    requires acting { IsActingOn script.now actor dues.now (seen_by J.shows gate.now pass) }
    ensures pass { IsPassAt J.shows gate.now (seat_of actor) result.0 }
    ensures ended { result.1 ≡ true → HasEnded script.now actor (seen_by J.shows gate.now result.0) }
{
    for due in dues {
        let (back, done) = act(rt, gate, script, pace, pass, actor, *due);
        pass = back;
        if done.is_err() {
            return (pass, false);
        }
    }
    (pass, true)
}

/// An actor of the main side does all its operations, and returns whether it came to the end.
pub(crate) fn act_main<R: Threads + Wait + Sync, J: Journaled, P: Pace>(
    rt: &R,
    gate: &Gate<Kept<J>>,
    alloc: Global,
    script: &Script,
    pace: &P,
    pass: Pass<Kept<J>>,
    actor: Actor,
) -> (Pass<Kept<J>>, bool)
    requires gate { IsGateFor J.shows script.now gate.now }
    requires pass { IsNewPass J.shows script.now gate.now (seat_of actor) pass }
    requires main { IsMainSide actor }
    ensures pass { IsPassAt J.shows gate.now (seat_of actor) result.0 }
    ensures ended { result.1 ≡ true → HasEnded script.now actor (seen_by J.shows gate.now result.0) }
{
    let _ = worker_count(script);
    match operations(alloc, script, actor) {
        Ok(dues) => act_all(rt, gate, script, pace, pass, actor, dues.as_slice()),
        Err(_) => (pass, false),
    }
}
