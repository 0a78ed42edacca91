//! Gates of one, three, five and twenty seats, each taken by a thread of its own.
ghost use Rattle.std.specs.Prelude.{◌≡◌, ℕ, ◌%◌, ◌==◌, count_by, ◌<◌, ◌≤◌, [], ◌∷◌, ◌++◌, length, if◌then◌else◌, IfOk, IsSomeAnd, slice_index_or, vec_capacity};
ghost use Rattle.ev_gate.specs.History.{mine_of};
ghost use Rattle.ev_gate.specs.Words.{gate_id, pass_knows, IsPassOf, AreAll};

use ev_gate::{Gate, Pass, Stands};
use std::alloc::{AllocError, Global};
use std::sync::Wait;
use std::test::Fail;
use std::thread;
use std::thread::Threads;

/// A list of numbers. Each commit adds one, beside the number of the seat that added it.
/// An odd number is a publication, and the version is how many publications there are.
#[derive(Drop)]
struct Numbers {
    first: u32,
    added: Vec<(u64, u64)>,
}

impl Stands for Numbers {
    type Opening = u32;

    type Commit = u64;

    ghost opening = { λ s. s.first };

    ghost commits = { λ s. s.added.items };

    ghost version_of = { λ _ cs. count_by (λ c. c.1 % 2 == 1) cs };

    fn version(&self) -> u64 {
        self.added.iter().filter(|c| c.1 % 2 == 1).count() as u64
    }
}

impl Numbers {
    fn add(&mut self, seat: u64, number: u64) -> bool
        ensures first { self.new.first ≡ self.old.first }
        ensures added { let before = self.old.added.items in
            self.new.added.items ≡ (if result then before ++ (seat, number) ∷ [] else before) }
    {
        self.added.push((seat, number)).is_ok()
    }
}

// One turn, which adds the number or not, and whether it did. Where there is no memory for the number it is quit.
fn take_turn<R: Threads + Wait + Sync>(
    rt: &R,
    gate: &Gate<Numbers>,
    pass: Pass<Numbers>,
    seat: u64,
    number: u64,
    adds: bool,
) -> (Pass<Numbers>, bool)
    requires { IsPassOf (gate_id gate.now) seat pass }
    ensures pass { IsPassOf (gate_id gate.now) seat result.0 }
    ensures mine { let mine = mine_of (pass_knows pass) in
        mine_of (pass_knows result.0) ≡ (if result.1 then mine ++ (seat, number) ∷ [] else mine) }
{
    let mut turn = gate.turn(rt, pass);
    if adds && turn.value().add(seat, number) {
        return (turn.done(), true);
    }
    (turn.quit(), false)
}

// As many turns as that, with the numbers from 0 on, of which the even ones are added.
fn add_evens<R: Threads + Wait + Sync>(
    rt: &R,
    gate: &Gate<Numbers>,
    mut pass: Pass<Numbers>,
    seat: u64,
    turns: u64,
) -> Pass<Numbers>
    requires { IsPassOf (gate_id gate.now) seat pass }
    ensures { IsPassOf (gate_id gate.now) seat result }
{
    for number in 0..turns {
        (pass, _) = take_turn(rt, gate, pass, seat, number, number % 2 == 0);
    }
    pass
}

// As many publications as that.
fn publish<R: Threads + Wait + Sync>(
    rt: &R,
    gate: &Gate<Numbers>,
    mut pass: Pass<Numbers>,
    seat: u64,
    times: u64,
) -> Pass<Numbers>
    requires { IsPassOf (gate_id gate.now) seat pass }
    ensures { IsPassOf (gate_id gate.now) seat result }
{
    for _time in 0..times {
        (pass, _) = take_turn(rt, gate, pass, seat, 1, true);
    }
    pass
}

/// What a seat was told when it asked.
#[derive(Clone, Copy)]
struct Told {
    first: Option<u64>,
    last: u64,
    /// Whether no answer was below an earlier one.
    rises: bool,
}

// As many questions as that.
fn ask(
    gate: &Gate<Numbers>,
    mut pass: Pass<Numbers>,
    seat: u64,
    times: u64,
    mut told: Told,
) -> (Pass<Numbers>, Told)
    requires { IsPassOf (gate_id gate.now) seat pass }
    ensures { IsPassOf (gate_id gate.now) seat result.0 }
{
    for _time in 0..times {
        let answer = gate.newest(&mut pass);
        told = Told {
            first: told.first.or(Some(answer)),
            last: answer,
            rises: told.rises && told.last <= answer,
        };
    }
    (pass, told)
}

/// What all seats of a gate do at the same time, each in a thread of its own.
#[derive(Clone, Copy)]
enum Act {
    /// Each takes as many turns, and adds the even numbers.
    AddEvens(u64),
    /// One seat publishes once.
    PublishAt(u64),
    /// Seats 0 and 1 publish as many times, while the others ask as often.
    PublishAndAsk(u64),
    /// Each asks once.
    Ask,
}

/// A seat, whose pass lies in an `Option` so that a thread can take it and put it back.
struct Actor {
    pass: Option<Pass<Numbers>>,
    told: Told,
}

// What a seat does in an act.
fn perform<R: Threads + Wait + Sync>(
    rt: &R,
    gate: &Gate<Numbers>,
    pass: Pass<Numbers>,
    seat: u64,
    act: Act,
    told: Told,
) -> (Pass<Numbers>, Told)
    requires { IsPassOf (gate_id gate.now) seat pass }
    ensures { IsPassOf (gate_id gate.now) seat result.0 }
{
    match act {
        Act::AddEvens(turns) => (add_evens(rt, gate, pass, seat, turns), told),
        Act::PublishAt(publisher) if publisher == seat => (publish(rt, gate, pass, seat, 1), told),
        Act::PublishAt(_) => (pass, told),
        Act::PublishAndAsk(times) if seat < 2 => (publish(rt, gate, pass, seat, times), told),
        Act::PublishAndAsk(times) => ask(gate, pass, seat, times, told),
        Act::Ask => ask(gate, pass, seat, 1, told),
    }
}

// The same, with the pass of an actor, which a thread only borrows.
fn perform_as<R: Threads + Wait + Sync>(
    rt: &R,
    gate: &Gate<Numbers>,
    actor: &mut Actor,
    seat: usize,
    act: Act,
)
    requires { IsSomeAnd actor.old.pass (IsPassOf (gate_id gate.now) seat) }
    ensures { IsSomeAnd actor.new.pass (IsPassOf (gate_id gate.now) seat) }
{
    let taken = actor.pass.take().unwrap();
    let (back, told) = perform(rt, gate, taken, seat as u64, act, actor.told);
    actor.told = told;
    let before = actor.pass.replace(back);
    let None = before else { unreachable!() };
}

// One act, each seat in a thread of its own.
fn perform_all<R: Threads + Wait + Sync>(
    rt: &R,
    gate: &Gate<Numbers>,
    actors: &mut [Actor],
    act: Act,
)
    requires { (i : ℕ) (d : _) → i < length actors.old →
        IsSomeAnd (slice_index_or actors.old i d).pass (IsPassOf (gate_id gate.now) i) }
    ensures { (i : ℕ) (d : _) → i < length actors.old →
        IsSomeAnd (slice_index_or actors.new i d).pass (IsPassOf (gate_id gate.now) i) }
{
    let threads = actors.len().max(1);
    thread::for_each_mut(
        rt,
        actors,
        threads,
        &|i: usize, actor: &mut Actor|
            requires { IsSomeAnd actor.old.pass (IsPassOf (gate_id gate.now) i) }
            ensures { IsSomeAnd actor.new.pass (IsPassOf (gate_id gate.entry.now) i) }
        { perform_as(rt, gate, actor, i, act) },
    );
}

// One act after another.
fn play<R: Threads + Wait + Sync>(rt: &R, gate: &Gate<Numbers>, actors: &mut [Actor], acts: &[Act])
    requires { (i : ℕ) (d : _) → i < length actors.old →
        IsSomeAnd (slice_index_or actors.old i d).pass (IsPassOf (gate_id gate.now) i) }
    ensures { (i : ℕ) (d : _) → i < length actors.old →
        IsSomeAnd (slice_index_or actors.new i d).pass (IsPassOf (gate_id gate.now) i) }
{
    for act in acts {
        perform_all(rt, gate, actors, *act);
    }
}

// The passes of a new gate, each with its actor.
fn actors_of(
    mut passes: Vec<Pass<Numbers>>,
    mut actors: Vec<Actor>,
    gate: &Gate<Numbers>,
) -> Vec<Actor>
    requires room { (actors.items ≡ []) × (length passes.items ≤ vec_capacity actors) }
    requires each { (k : ℕ) (d : _) → k < length passes.items →
        IsPassOf (gate_id gate.now) k (slice_index_or passes.items k d) }
    ensures length { length result.items ≡ length passes.items }
    ensures each { (i : ℕ) (d : _) → i < length result.items →
        IsSomeAnd (slice_index_or result.items i d).pass (IsPassOf (gate_id gate.now) i) }
{
    while passes.len() > 0 {
        actors.push_reserved(Actor {
            pass: Some(passes.remove(0)),
            told: Told {
                first: None,
                last: 0,
                rises: true,
            },
        });
    }
    passes.destroy_empty();
    actors
}

// The passes, in another order than that in which they went out, and what the seats were told.
fn passes_of(
    mut actors: Vec<Actor>,
    mut passes: Vec<Pass<Numbers>>,
    mut told: Vec<Told>,
    gate: &Gate<Numbers>,
) -> (Vec<Pass<Numbers>>, Vec<Told>)
    requires room { (passes.items ≡ []) × (length actors.items ≤ vec_capacity passes) }
    requires room_told { (told.items ≡ []) × (length actors.items ≤ vec_capacity told) }
    requires each { (i : ℕ) (d : _) → i < length actors.items →
        IsSomeAnd (slice_index_or actors.items i d).pass (IsPassOf (gate_id gate.now) i) }
    ensures { AreAll (gate_id gate.now) (length actors.items) result.0.items }
{
    while actors.len() > 0 {
        let Actor {
            pass,
            told: answers,
        } = actors.take_last();
        told.push_reserved(answers);
        passes.push_reserved(pass.unwrap());
    }
    actors.destroy_empty();
    (passes, told)
}

/// Room for the actors of a gate, for their passes when they are back, and for what the seats were told.
struct Rooms {
    actors: Vec<Actor>,
    passes: Vec<Pass<Numbers>>,
    told: Vec<Told>,
}

impl Rooms {
    fn new(alloc: Global, count: usize) -> Result<Rooms, AllocError>
        ensures actors { IfOk result (λ r. (r.actors.items ≡ []) × (count ≤ vec_capacity r.actors)) }
        ensures passes { IfOk result (λ r. (r.passes.items ≡ []) × (count ≤ vec_capacity r.passes)) }
        ensures told { IfOk result (λ r. (r.told.items ≡ []) × (count ≤ vec_capacity r.told)) }
    {
        let told = Vec::with_capacity(alloc, count)?;
        let actors = Vec::with_capacity(alloc, count)?;
        match Vec::with_capacity(alloc, count) {
            Ok(passes) => Ok(Rooms {
                actors,
                passes,
                told,
            }),
            Err(error) => {
                actors.destroy_empty();
                Err(error)
            }
        }
    }
}

/// Why a gate could not run, or that another value came back.
#[derive(Debug, Drop)]
enum RunError {
    Memory,
    AnotherValue,
}

impl From<AllocError> for RunError {
    fn from(_: AllocError) -> RunError {
        RunError::Memory
    }
}

// The numbers that a gate has after some acts, and what its seats were told.
// It begins with the number 7 and two commits of an earlier time:
// no pass counts these as its own, whatever number they have, and neither is a publication.
fn run_gate<R: Threads + Wait + Sync>(
    rt: &R,
    alloc: Global,
    count: u32,
    acts: &[Act],
) -> Result<(Numbers, Vec<Told>), RunError>
    requires some_seat { 0 < count }
    requires few { count ≤ 20 }
    ensures { IfOk result (λ r. r.0.first ≡ 7) }
{
    let mut added = Vec::new(alloc);
    added.push((0, 76)).map_err(AllocError::from)?;
    added.push((0, 78)).map_err(AllocError::from)?;
    let Rooms {
        actors,
        passes: back,
        told,
    } = Rooms::new(alloc, count as usize)?;
    match Gate::new(alloc, Numbers { first: 7, added }, count) {
        Ok((gate, passes)) => {
            let mut actors = actors_of(passes, actors, &gate);
            play(rt, &gate, actors.as_mut_slice(), acts);
            let (passes, told) = passes_of(actors, back, told, &gate);
            Ok((gate.close(passes), told))
        }
        Err((value, _)) => {
            actors.destroy_empty();
            back.destroy_empty();
            if value.first == 7 && value.added.as_slice() == [(0, 76), (0, 78)].as_slice() {
                Err(RunError::Memory)
            } else {
                Err(RunError::AnotherValue)
            }
        }
    }
}

#[test]
fn each_seat_has_its_numbers_in_order(rt: HostRuntime) -> Result<(), Fail> {
    let alloc: Global = rt.alloc();
    for (count, turns) in [(1u32, 10u64), (3, 100), (20, 6)] {
        prove!(count > 0 && count <= 20);
        let (numbers, _told) = run_gate(&rt, alloc, count, &[Act::AddEvens(turns)])?;
        let evens: Vec<u64> = (0..turns).filter(|n| *n % 2 == 0).collect(alloc)?;
        let total = evens.len().wrapping_mul(count as usize).wrapping_add(2);
        assert_eq!(rt; numbers.added.len(), total, "at {count}");
        assert_eq!(rt; numbers.version(), 0, "at {count}");
        assert_eq!(rt;
            &numbers.added[..2],
            [(0, 76), (0, 78)].as_slice(),
            "at {count}"
        );
        for seat in 0..u64::from(count) {
            let mine: Vec<u64> = numbers
                .added
                .iter()
                .skip(2)
                .filter(|c| c.0 == seat)
                .map(|c| c.1)
                .collect(alloc)?;
            assert_eq!(rt; mine.as_slice(), evens.as_slice(), "seat {seat} of {count}");
        }
    }
    Ok(())
}

#[test]
fn each_pass_gets_the_newest_and_none_falls_back(rt: HostRuntime) -> Result<(), Fail> {
    let acts = [Act::Ask, Act::PublishAt(3), Act::Ask];
    let (numbers, told) = run_gate(&rt, rt.alloc(), 5, &acts)?;
    assert_eq!(rt; numbers.version(), 1);
    assert_eq!(rt; told.len(), 5);
    for answers in &told {
        assert_eq!(rt; answers.first, Some(0));
        assert_eq!(rt; answers.last, 1);
    }
    let acts = [Act::PublishAndAsk(300), Act::Ask];
    let (numbers, told) = run_gate(&rt, rt.alloc(), 3, &acts)?;
    assert_eq!(rt; numbers.version(), 600);
    assert_eq!(rt; told.len(), 3);
    for answers in &told {
        assert!(rt; answers.rises);
        assert_eq!(rt; answers.last, 600);
    }
    Ok(())
}
