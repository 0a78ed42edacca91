ghost use Rattle.std.specs.Prelude.{◌≡◌, ◌<◌, ◌≤◌, [], OnOk, OnErr};
ghost use Rattle.ev_types.specs.Events.{IsMainSide, MayMake};
ghost use Rattle.ev_model.specs.Operations.{batch_limit};
ghost use Rattle.ev_types.specs.declared.events.Actor.TheVariants.{Worker as by_worker};
ghost use Rattle.ev_actors.specs.Journals.{SufficeFor, WorksIn, world_now};
ghost use Rattle.ev_actors.specs.Taken.{HasEntered, HasSettled};
ghost use Rattle.ev_commits.specs.Commits.{seat_of};
ghost use Rattle.ev_commits.specs.Seen.{CommitsOnce, IsSound};

use crate::kept::Kept;
use ev_actors::Journaled;
use ev_types::{Actor, Event, GenRow, Seq};
use ev_worker::Worker;
use std::alloc::AllocError;

// An event of the main side is entered, and the rows that it reaped are taken.
// What it asks of the journal it asks of a run, since only the value shows that it is one.
pub(crate) fn apply_in<J: Journaled>(
    kept: &mut Kept<J>,
    actor: Actor,
    at: u32,
    step: u32,
    event: &Event,
) -> Result<Seq<GenRow>, AllocError>
    requires main { IsMainSide actor }
    requires allowed { MayMake (J.shows kept.old.journaled).workers actor event.now }
    requires numbered { IsSound (J.shows kept.old.journaled) → SufficeFor event.now (J.shows kept.old.journaled) }
    ensures sound { IsSound (J.shows kept.old.journaled) }
    ensures sound_then { IsSound (J.shows kept.new.journaled) }
    ensures entered { OnOk result (HasEntered record { actor = actor; at = at; step = step; event = event.now }
        (J.shows kept.old.journaled) (J.shows kept.new.journaled)) }
    ensures committed { OnOk result (CommitsOnce (seat_of actor)
        (J.shows kept.old.journaled) (J.shows kept.new.journaled)) }
    ensures refused { OnErr result (J.shows kept.new.journaled ≡ J.shows kept.old.journaled) }
    ensures let_go { OnOk result (J.deferred kept.new.journaled ≡ []) }
{
    let _ = kept.journaled.journal();
    let applied = kept.journaled.apply(actor, at, step, event);
    let _ = kept.journaled.journal();
    applied?;
    Ok(kept.journaled.take_deferred())
}

// A worker that has taken its memory settles: its batch is entered with the settle after it,
// and it takes over the last picture.
pub(crate) fn settle_in<J: Journaled>(
    kept: &mut Kept<J>,
    worker: &mut Worker,
    at: u32,
    step: u32,
) -> Result<(), AllocError>
    requires prepared { batch_limit ≤ worker.old.spare }
    requires within { worker.old.number < (J.shows kept.old.journaled).workers }
    requires works { IsSound (J.shows kept.old.journaled)
        → WorksIn worker.old (world_now (J.shows kept.old.journaled)) }
    ensures sound { IsSound (J.shows kept.old.journaled) }
    ensures sound_then { IsSound (J.shows kept.new.journaled) }
    ensures settled { OnOk result (HasSettled at step
        (J.shows kept.old.journaled) (J.shows kept.new.journaled) worker.old worker.new) }
    ensures committed { OnOk result (CommitsOnce (seat_of (by_worker worker.old.number))
        (J.shows kept.old.journaled) (J.shows kept.new.journaled)) }
    ensures refused { OnErr result (J.shows kept.new.journaled ≡ J.shows kept.old.journaled) }
    ensures as_it_was { OnErr result (worker.new ≡ worker.old) }
{
    let _ = kept.journaled.journal();
    let settled = kept.journaled.apply_batch(worker, at, step);
    let _ = kept.journaled.journal();
    worker.adopt(settled?);
    Ok(())
}
