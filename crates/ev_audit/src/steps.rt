ghost use Rattle.std.specs.Prelude.{◌≡◌, IsSome, IfOk, OnOk};
ghost use Rattle.std.specs.List.{list_any};
ghost use Rattle.ev_model.specs.World.{World};
ghost use Rattle.ev_model.specs.Operations.{Operation, is_held_by};
ghost use Rattle.ev_model.specs.Step.{step};
ghost use Rattle.ev_operations.specs.Dues.{operation_due};
ghost use Rattle.ev_model_laws.specs.Drawing.{NumbersSuffice};
ghost use Rattle.ev_proxy.specs.Proxies.{IsAt, IsKnown};

use ev_operations::Due;
use ev_proxy::Proxy;
use ev_types::{Actor, Answer, Event, Format, Script};
use std::alloc::{AllocError, Global};

/// Makes the step of what is due.
pub(crate) fn step_due(
    alloc: Global,
    format: Format,
    proxy: &mut Proxy,
    script: &Script,
    actor: Actor,
    due: Due,
) -> Result<Answer, AllocError>
    ghost here: { World }
    requires there { IsSome (operation_due script.now actor due) }
    requires at { IsAt proxy.old here }
    requires known { IsKnown actor here }
    requires room { (o : Operation) → operation_due script.now actor due ≡ Some o → NumbersSuffice here o.event }
    ensures at { OnOk result ((o : Operation) → operation_due script.now actor due ≡ Some o
        → IsAt proxy.new (step format here actor o.event).0) }
    ensures answer { IfOk result (λ answer. (o : Operation) → operation_due script.now actor due ≡ Some o
        → answer ≡ (step format here actor o.event).1) }
{
    match due {
        Due::Line(place) => {
            let line = &script.lines.as_slice()[place as usize];
            proxy.step(alloc, format, actor, &line.event)
        }
        Due::Publish(_) => proxy.step(alloc, format, actor, &Event::Publish),
        Due::Reap(_) => proxy.step(alloc, format, actor, &Event::Reap),
        Due::Settle(_) | Due::LastSettle => proxy.step(alloc, format, actor, &Event::Settle),
    }
}

/// Whether an actor has a connection open.
pub(crate) fn has_open(proxy: &Proxy, actor: Actor) -> bool
    ensures { (world : World) → IsAt proxy.now world → result ≡ list_any (is_held_by actor) world.opened }
{
    match actor {
        Actor::Worker(worker) => proxy.holders.has_open(worker),
        Actor::Stream => false,
        Actor::Health => false,
        Actor::Timer => false,
        Actor::Main => false,
    }
}
