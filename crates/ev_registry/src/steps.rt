ghost use Rattle.std.specs.Prelude.{◌≡◌, ◌<◌, ◌+◌, false, length, IfOk, OnOk};
ghost use Rattle.std.specs.Arc.{arc_value};
ghost use Rattle.ev_types.specs.Events.{MayMake};
ghost use Rattle.ev_types.specs.declared.events.Answer.TheVariants.{Settled as settled_answer};
ghost use Rattle.ev_model.specs.Connections.{settle};
ghost use Rattle.ev_model.specs.World.{World, opening};
ghost use Rattle.ev_model.specs.Step.{step};
ghost use Rattle.ev_model_laws.specs.Drawing.{NumbersSuffice};
ghost use Rattle.ev_worker.specs.Workers.{IsToldBy};
ghost use Rattle.ev_actors.specs.Journals.{WorksIn, world_behind, world_now};
ghost use Rattle.ev_proxy.specs.Proxies.{AreRowsOf, IsAt, numbers_reaped};
ghost use Rattle.ev_registry.specs.Registries.{HaveStepped};
ghost use Rattle.ev_registry.specs.Pasts.{parts_of, world_before};

use crate::past::Past;
use ev_proxy::Proxy;
use ev_types::{Actor, Answer, Event};
use ev_worker::{Settled, Worker};
use std::alloc::{AllocError, Global};
use std::mem::{drop, replace};

// Makes what is known anew, where it was lost.
pub(crate) fn recover(
    proxy: &mut Proxy,
    is_lost: bool,
    alloc: Global,
    past: Past<'_>,
) -> Result<(), AllocError>
    requires stepped { HaveStepped past.format past.workers (opening past.workers past.node.now) past.journal.now }
    requires kept { is_lost ≡ false → IsAt proxy.old (world_now (parts_of past)) }
    ensures { OnOk result (IsAt proxy.new (world_now (parts_of past.entry))) }
{
    if !is_lost {
        return Ok(());
    }
    let made = make_anew(alloc, past)?;
    drop(replace(proxy, made));
    Ok(())
}

// What is known after what was done: each of the events once more.
pub(crate) fn make_anew(alloc: Global, past: Past<'_>) -> Result<Proxy, AllocError>
    requires stepped { HaveStepped past.format past.workers (opening past.workers past.node.now) past.journal.now }
    ensures { IfOk result (λ proxy. IsAt proxy (world_now (parts_of past.entry))) }
{
    let mut proxy = Proxy::new(alloc, past.keys, past.workers, past.node)?;
    for place in 0..past.journal.len() {
        step_again(&mut proxy, alloc, past, place)?;
    }
    Ok(proxy)
}

// The event at a place once more.
fn step_again(
    proxy: &mut Proxy,
    alloc: Global,
    past: Past<'_>,
    place: usize,
) -> Result<(), AllocError>
    requires within { place < length past.journal.now }
    requires stepped { HaveStepped past.format past.workers (opening past.workers past.node.now) past.journal.now }
    requires at { IsAt proxy.old (world_before place (parts_of past)) }
    ensures { OnOk result (IsAt proxy.new (world_before (place + 1) (parts_of past.entry))) }
{
    let entry = &past.journal[place];
    let before = Past {
        keys: past.keys,
        format: past.format,
        workers: past.workers,
        node: past.node,
        journal: &past.journal[..place],
    };
    let _ = step_after(proxy, alloc, before, entry.actor, &entry.event)?;
    Ok(())
}

// An event after what was done, and its answer.
pub(crate) fn step_after(
    proxy: &mut Proxy,
    alloc: Global,
    past: Past<'_>,
    actor: Actor,
    event: &Event,
) -> Result<Answer, AllocError>
    ghost here: { World }
    requires is { here ≡ world_now (parts_of past) }
    requires at { IsAt proxy.old here }
    requires allowed { MayMake past.workers actor event.now }
    requires room { NumbersSuffice here event.now }
    ensures at { OnOk result (IsAt proxy.new (step past.entry.format here actor event.now).0) }
    ensures answer { IfOk result (λ answer. answer ≡ (step past.entry.format here actor event.now).1) }
    ensures deferred { OnOk result (AreRowsOf
        (numbers_reaped past.entry.format here event.now) here.rows proxy.new.deferred.0) }
{
    proxy.step(alloc, past.format, actor, event)
}

// What a worker did since it settled, after what was done, and then its settle.
pub(crate) fn settle_after(
    proxy: &mut Proxy,
    alloc: Global,
    past: Past<'_>,
    worker: &Worker,
) -> Result<Settled, AllocError>
    ghost worlds: { World × World }
    requires is { worlds.0 ≡ world_now (parts_of past) }
    requires behind { worlds.1 ≡ world_behind worker.now (parts_of past) }
    requires at { IsAt proxy.old worlds.0 }
    requires works { WorksIn worker.now worlds.0 }
    requires known { worker.now.number < past.workers }
    ensures at { OnOk result (IsAt proxy.new (settle worker.now.number worlds.1).0) }
    ensures answer { IfOk result (λ settled. (settle worker.now.number worlds.1).1
        ≡ settled_answer settled.closed settled.moved settled.version) }
    ensures told { IfOk result (λ settled. IsToldBy worker.now.number settled.closed settled.moved
        (arc_value settled.snapshot) worlds.1) }
{
    proxy.take_batch(worker.batch())?;
    proxy.settle(alloc, worker.batch().worker())
}
