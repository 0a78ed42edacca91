//! The newest version of a registry at a gate, as it is told to a pass that entered a publication and
//! to one that made no turn.
ghost use Rattle.std.specs.Prelude.{◌≡◌, IsTrue};
ghost use Rattle.ev_types.specs.Scripts.{items_in};
ghost use Rattle.ev_actors.specs.Journals.{world_now};
ghost use Rattle.ev_gate.specs.Words.{gate_id, IsPassOf};

use crate::runs::{PUBLISHED, read};
use ev_actors::Journaled;
use ev_commits::{Kept, enter};
use ev_gate::{Gate, Pass};
use ev_keys::Keys;
use ev_registry::Registry;
use ev_types::{Actor, Event, Format, Text};
use std::alloc::Global;
use std::mem::drop;
use std::sync::Wait;
use std::test::Fail;
use std::thread::Threads;

/// How many seats there are: those of the main side, of which Main has seat 3, and a worker's.
const SEATS: u32 = 5;

// Whether the event is a response of one resource.
fn is_of_one(event: &Event) -> bool
    ensures { IsTrue result → items_in event.now ≡ 1 }
{
    match event {
        Event::Response(response) => response.get().items.len() == 1,
        _ => false,
    }
}

// A registry in which nothing was done takes a connect and a response with one cluster. Whether it did.
fn takes_a_cluster(registry: &mut Registry, event: &Event) -> Result<bool, Fail>
    requires opened { (world_now registry.old.journaled).made ≡ 0 }
{
    if !is_of_one(event) {
        return Ok(false);
    }
    registry.apply(Actor::Stream, 2, 0, &Event::Connect)?;
    registry.apply(Actor::Stream, 3, 0, event)?;
    Ok(true)
}

/// What the passes were told.
#[derive(Clone, Copy, Debug, PartialEq, Eq)]
struct Told {
    before: u64,
    entered: bool,
    to_main: u64,
    to_another: u64,
}

// Main asks, publishes and asks again, and then another asks that made no turn.
fn publish<R: Threads + Wait + Sync>(
    rt: &R,
    gate: &Gate<Kept<Registry>>,
    main: Pass<Kept<Registry>>,
    other: Pass<Kept<Registry>>,
) -> (Pass<Kept<Registry>>, Pass<Kept<Registry>>, Told)
    requires main { IsPassOf (gate_id gate.now) 3 main }
    requires other { IsPassOf (gate_id gate.now) 0 other }
    ensures main { IsPassOf (gate_id gate.now) 3 result.0 }
    ensures other { IsPassOf (gate_id gate.now) 0 result.1 }
{
    let mut main = main;
    let mut other = other;
    let before = gate.newest(&mut main);
    let (mut main, entered) = enter(rt, gate, main, Actor::Main, 5, 0, &Event::Publish);
    let to_main = gate.newest(&mut main);
    let to_another = gate.newest(&mut other);
    let told = Told {
        before,
        entered: entered.is_ok(),
        to_main,
        to_another,
    };
    (main, other, told)
}

// What the passes of a new gate around the registry are told.
fn tell<R: Threads + Wait + Sync>(rt: &R, alloc: Global, registry: Registry) -> Result<Told, Fail> {
    let (gate, mut passes) = match Gate::new(
        alloc,
        Kept {
            journaled: registry,
        },
        SEATS,
    ) {
        Ok(made) => made,
        Err((kept, error)) => {
            drop(kept);
            return Err(error.into());
        }
    };
    let main = passes.remove(3);
    let other = passes.remove(0);
    let (main, other, told) = publish(rt, &gate, main, other);
    passes.push_reserved(other);
    passes.push_reserved(main);
    drop(gate.close(passes));
    Ok(told)
}

// The same, of a registry that has taken the event.
fn tell_behind<R: Threads + Wait + Sync>(
    rt: &R,
    alloc: Global,
    node: &Text,
    event: &Event,
) -> Result<Told, Fail> {
    let mut registry = Registry::new(alloc, Keys::of(&[1u32]), 1, node, Format::Two)?;
    match takes_a_cluster(&mut registry, event) {
        Ok(true) => tell(rt, alloc, registry),
        Ok(false) => {
            drop(registry);
            Err(Fail::new("no cluster"))
        }
        Err(fail) => {
            drop(registry);
            Err(fail)
        }
    }
}

#[test]
fn newest_is_told_to_each_pass_of_a_registry(rt: HostRuntime) -> Result<(), Fail> {
    let alloc = rt.alloc();
    let script = read(alloc, PUBLISHED)?;
    let told = match script.lines.as_slice() {
        [_, line, ..] => tell_behind(&rt, alloc, &script.node, &line.event),
        _ => Err(Fail::new("no response")),
    };
    drop(script);
    let want = Told {
        before: 0,
        entered: true,
        to_main: 1,
        to_another: 1,
    };
    assert_eq!(rt; told?, want);
    Ok(())
}
