ghost use Rattle.std.specs.Prelude.{◌≡◌, ◌≤◌, ◌+◌, ◌<◌, ℕ, [], ◌∷◌, length, vec_capacity, slice_index_or, IfOk};
ghost use Rattle.ev_types.specs.declared.events.Actor.TheVariants.{Stream, Health, Timer, Main};
ghost use Rattle.ev_run.specs.declared.player.Task.TheVariants.{MainSide};
ghost use Rattle.ev_gate.specs.Words.{seats_of};
ghost use Rattle.ev_model.specs.Dead.{last_picture};
ghost use Rattle.ev_actors.specs.Journals.{nothing_done, world_now};
ghost use Rattle.ev_actors.specs.Taken.{HasBegun};
ghost use Rattle.ev_run.specs.Playing.{HasRun, IsGateFor, IsOverAt, IsTask};

use crate::pace::Pace;
use crate::player::{Player, Task, worker_count};
use crate::players::{passes_of, play_all, players_of};
use ev_actors::Journaled;
use ev_commits::Kept;
use ev_gate::{Gate, Pass, Stands};
use ev_keys::Keys;
use ev_model_laws::runs_have_the_laws;
use ev_types::{Actor, Script};
use ev_worker::Worker;
use std::alloc::{AllocError, Global};
use std::sync::Wait;
use std::thread::Threads;

/// Takes the whole script with a thread for each actor:
/// what comes back shows a run of the script by the rules of format 2, which holds each actor's operations in order,
/// but for settles that are left out while a worker rests. What is passed has done nothing yet.
/// Which run it is, the threads decide; `pace` is called before each turn.
/// Where an actor has no memory the others go on to their end, and the answer is that error.
/// The workers' tables hash by these keys.
pub fn run<R: Threads + Wait + Sync, J: Journaled + Send + Drop, P: Pace + Sync>(
    rt: &R,
    alloc: Global,
    keys: Keys,
    script: &Script,
    pace: &P,
    journaled: J,
) -> Result<J, AllocError>
    requires begins { J.shows journaled ≡ nothing_done script.now }
    ensures { IfOk result (λ journaled. HasRun script.now (J.shows journaled)) }
{
    let seats = 4 + worker_count(script);
    let tasks = make_tasks(alloc, keys, &journaled, script)?;
    let rooms = Rooms::new(alloc, seats as usize)?;
    run_tasks(rt, alloc, script, pace, journaled, tasks, rooms, seats)
}

// The same, with what the actors begin with and room for them.
fn run_tasks<R: Threads + Wait + Sync, J: Journaled + Send + Drop, P: Pace + Sync>(
    rt: &R,
    alloc: Global,
    script: &Script,
    pace: &P,
    journaled: J,
    tasks: Vec<Task>,
    rooms: Rooms<Kept<J>>,
    seats: u32,
) -> Result<J, AllocError>
    requires begins { J.shows journaled ≡ nothing_done script.now }
    requires count { (seats ≡ 4 + script.now.workers) × (length tasks.items ≡ seats) }
    requires few { (0 < seats) × (seats ≤ 20) }
    requires tasks { (k : ℕ) (d : _) → k < length tasks.items → IsTask script.now k (slice_index_or tasks.items k d) }
    requires players { (rooms.players.items ≡ []) × (seats ≤ vec_capacity rooms.players) }
    requires passes { (rooms.passes.items ≡ []) × (seats ≤ vec_capacity rooms.passes) }
    ensures { IfOk result (λ journaled. HasRun script.now (J.shows journaled)) }
{
    let Rooms {
        players,
        passes: back,
    } = rooms;
    match Gate::new(alloc, Kept { journaled }, seats) {
        Ok((gate, passes)) => {
            let mut players = players_of(tasks, passes, players, &gate, script);
            play_all(rt, &gate, alloc, script, pace, players.as_mut_slice());
            let (passes, ended) = passes_of(players, back, &gate, script);
            close_gate(gate, passes, script, ended)
        }
        Err((_, error)) => {
            players.destroy_empty();
            back.destroy_empty();
            Err(error)
        }
    }
}

// The gate is closed with its passes, and what it kept is the answer where each actor came to its end.
fn close_gate<J: Journaled + Drop>(
    gate: Gate<Kept<J>>,
    passes: Vec<Pass<Kept<J>>>,
    script: &Script,
    ended: bool,
) -> Result<J, AllocError>
    requires gate { IsGateFor J.shows script.now gate }
    requires seats { (seats_of gate ≡ 4 + script.now.workers) × (length passes.items ≡ seats_of gate) }
    requires over { (k : ℕ) (d : _) → k < length passes.items →
        IsOverAt J.shows script.now gate ended k (slice_index_or passes.items k d) }
    ensures { IfOk result (λ journaled. HasRun script.now (J.shows journaled)) }
{
    // each run has the laws
    runs_have_the_laws();
    let _ = worker_count(script);
    let Kept { journaled } = gate.close(passes);
    // the journal is a run, as it keeps
    let _ = journaled.journal();
    if ended {
        Ok(journaled)
    } else {
        Err(AllocError)
    }
}

// Room for the actors of a gate, and for their passes when they are back.
struct Rooms<V: Stands> {
    players: Vec<Player<V>>,
    passes: Vec<Pass<V>>,
}

impl<V: Stands> Rooms<V> {
    fn new(alloc: Global, count: usize) -> Result<Rooms<V>, AllocError>
        ensures players { IfOk result (λ r. (r.players.items ≡ []) × (count ≤ vec_capacity r.players)) }
        ensures passes { IfOk result (λ r. (r.passes.items ≡ []) × (count ≤ vec_capacity r.passes)) }
    {
        let players = Vec::with_capacity(alloc, count)?;
        match Vec::with_capacity(alloc, count) {
            Ok(passes) => Ok(Rooms { players, passes }),
            Err(error) => {
                players.destroy_empty();
                Err(error)
            }
        }
    }
}

// What the four actors of the main side begin with.
fn main_tasks(alloc: Global) -> Result<Vec<Task>, AllocError>
    ensures { IfOk result (λ tasks. tasks.items
        ≡ MainSide Stream ∷ MainSide Health ∷ MainSide Timer ∷ MainSide Main ∷ []) }
{
    let mut tasks = Vec::new(alloc);
    tasks.push(Task::MainSide(Actor::Stream))?;
    tasks.push(Task::MainSide(Actor::Health))?;
    tasks.push(Task::MainSide(Actor::Timer))?;
    tasks.push(Task::MainSide(Actor::Main))?;
    Ok(tasks)
}

// What each actor begins with: a worker with the last picture, with nothing done yet.
fn make_tasks<J: Journaled>(
    alloc: Global,
    keys: Keys,
    journaled: &J,
    script: &Script,
) -> Result<Vec<Task>, AllocError>
    requires begins { J.shows journaled.now ≡ nothing_done script.now }
    ensures count { IfOk result (λ tasks. length tasks.items ≡ 4 + script.now.workers) }
    ensures each { IfOk result (λ tasks. (k : ℕ) (d : _) → k < length tasks.items →
        IsTask script.now k (slice_index_or tasks.items k d)) }
{
    let mut tasks = main_tasks(alloc)?;
    for number in 0..worker_count(script) {
        tasks.push(Task::Worker(make_worker(alloc, keys, journaled, number)?))?;
    }
    Ok(tasks)
}

// A worker that has done nothing yet, with the last picture.
fn make_worker<J: Journaled>(
    alloc: Global,
    keys: Keys,
    journaled: &J,
    number: u32,
) -> Result<Worker, AllocError>
    ensures { IfOk result (λ worker. HasBegun number (last_picture (world_now (J.shows journaled.now))) worker) }
{
    let snapshot = journaled.snapshot()?;
    Worker::new(alloc, keys, number, snapshot)
}
