ghost use Rattle.std.specs.Prelude.{◌≡◌, ◌<◌, ◌&&◌, ◌++◌, IfOk, OnOk};
ghost use Rattle.ev_model.specs.Operations.{actor_same, batch_limit, is_automatic, operations_of};
ghost use Rattle.ev_operations.specs.Dues.{AreDue, dues_at, last_dues, makes_full, waiting_after};

use crate::due::Due;
use ev_types::{Actor, Event, Line, Script, Seq};
use std::alloc::{AllocError, Global};

// How many accepts and closes a worker may make between two settles.
const BATCH_LIMIT: u32 = 256;

/// What an actor of a script is to do, in order: its lines and, with `auto`,
/// a publication and a reaping after each; for a worker a settle after each accept or close that makes a batch of 256,
/// and one after the last line. An actor that the script doesn't have has nothing to do.
/// It goes over the script's lines once.
pub fn operations(alloc: Global, script: &Script, actor: Actor) -> Result<Seq<Due>, AllocError>
    ensures { IfOk result (λ dues. AreDue script.now actor dues (operations_of script.now actor)) }
{
    let mut dues = Seq::new(alloc);
    let mut waiting = 0;
    let lines = script.lines.as_slice();
    for place in 0..lines.len() {
        let line = &lines[place];
        let own = is_same(line.actor, actor);
        if own {
            put_line(&mut dues, script.auto, place as u32, line, waiting)?;
            waiting = waiting_after(line, waiting);
        }
    }
    put_last(&mut dues, script.workers, actor)?;
    Ok(dues)
}

// Whether the two are the same actor.
fn is_same(one: Actor, other: Actor) -> bool
    ensures { result ≡ actor_same one other }
{
    match (one, other) {
        (Actor::Stream, Actor::Stream) => true,
        (Actor::Health, Actor::Health) => true,
        (Actor::Timer, Actor::Timer) => true,
        (Actor::Main, Actor::Main) => true,
        (Actor::Worker(one), Actor::Worker(other)) => one == other,
        _ => false,
    }
}

// What the line's actor is to do at it, where this many of its accepts and closes wait.
fn put_line(
    dues: &mut Seq<Due>,
    auto: bool,
    place: u32,
    line: &Line,
    waiting: u32,
) -> Result<(), AllocError>
    requires few { waiting < batch_limit }
    ensures { OnOk result (dues.new ≡ dues.old ++ dues_at auto place line.now waiting) }
{
    dues.push(Due::Line(place))?;
    let followed = is_followed(auto, line.actor);
    let full = makes_full(line, waiting);
    if followed {
        dues.push(Due::Publish(place))?;
        dues.push(Due::Reap(place))
    } else if full {
        dues.push(Due::Settle(place))
    } else {
        Ok(())
    }
}

// Whether a publication and a reaping follow the actor's lines, by whether the script says `auto`.
fn is_followed(auto: bool, actor: Actor) -> bool
    ensures { result ≡ (auto && is_automatic actor) }
{
    auto && matches!(actor, Actor::Stream | Actor::Health | Actor::Timer)
}

// Whether an accept or close makes the batch full, where this many wait before it.
fn makes_full(line: &Line, waiting: u32) -> bool
    requires few { waiting < batch_limit }
    ensures { result ≡ makes_full line.now waiting }
{
    matches!(line.event, Event::Accept(_) | Event::Close(_)) && waiting + 1 == BATCH_LIMIT
}

// How many accepts and closes of the line's actor wait after it.
fn waiting_after(line: &Line, waiting: u32) -> u32
    requires few { waiting < batch_limit }
    ensures after { result ≡ waiting_after line.now waiting }
    ensures few { result < batch_limit }
{
    match line.event {
        Event::Accept(_) | Event::Close(_) => {
            if waiting + 1 == BATCH_LIMIT {
                0
            } else {
                waiting + 1
            }
        }
        Event::Settle => 0,
        _ => waiting,
    }
}

// A worker's settle after the last line.
fn put_last(dues: &mut Seq<Due>, workers: u32, actor: Actor) -> Result<(), AllocError>
    ensures { OnOk result (dues.new ≡ dues.old ++ last_dues workers actor) }
{
    match actor {
        Actor::Worker(number) => {
            if number < workers {
                dues.push(Due::LastSettle)
            } else {
                Ok(())
            }
        }
        _ => Ok(()),
    }
}
