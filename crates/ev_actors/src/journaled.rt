ghost use Rattle.std.specs.Prelude.{◌≡◌, ◌≤◌, ◌<◌, ◌+◌, List, [], IfOk, OnOk, OnErr};
ghost use Rattle.std.specs.Arc.{arc_value};
ghost use Rattle.ev_types.specs.Events.{IsMainSide, MayMake};
ghost use Rattle.ev_types.specs.Scripts.{items_in};
ghost use Rattle.ev_types.specs.declared.rows.GenRow.{GenRow};
ghost use Rattle.ev_model.specs.Dead.{last_picture};
ghost use Rattle.ev_model.specs.Runs.{IsRun};
ghost use Rattle.ev_actors.specs.Journals.{IsToldBehind, JournalParts, SufficeFor, WorksIn, entry_made, with_entry, with_settled, world_now};

use ev_snapshot::Snapshot;
use ev_types::{Actor, Entry, Event, GenRow, Seq};
use ev_worker::{Settled, Worker};
use std::alloc::AllocError;
use std::sync::Arc;

/// What the actors of a script act on: it makes steps of the flat machine, one after another,
/// and enters them in a journal.
pub trait Journaled {
    // what contracts see of it
    ghost shows: { Self → JournalParts };

    // the rows of what was reaped, in order, until they are taken
    ghost deferred: { Self → List GenRow };

    /// Makes one step of an actor of the main side and enters it in the journal with its answer.
    /// Out of memory, all stays as it was. The numbers of generations have to suffice for an event's resources,
    /// where it brings some; at most one is allocated for each.
    fn apply(&mut self, actor: Actor, at: u32, step: u32, event: &Event) -> Result<(), AllocError>
        requires main { IsMainSide actor }
        requires allowed { MayMake (shows self.old).workers actor event.now }
        requires numbered { SufficeFor event.now (shows self.old) }
        ensures entry { OnOk result (shows self.new
            ≡ with_entry (entry_made actor at step event.now (shows self.old)) (shows self.old)) }
        ensures drawn { OnOk result ((world_now (shows self.new)).made
            ≤ (world_now (shows self.old)).made + items_in event.now) }
        ensures err { OnErr result (shows self.new ≡ shows self.old) }
        ensures kept { OnErr result (deferred self.new ≡ deferred self.old) };

    /// Enters what a worker did since it settled, and its settle after that,
    /// and returns what the worker takes over. Out of memory, all stays as it was.
    /// The rows that wait to be taken go on waiting.
    fn apply_batch(&mut self, worker: &Worker, at: u32, step: u32) -> Result<Settled, AllocError>
        requires within { worker.now.number < (shows self.old).workers }
        requires works { WorksIn worker.now (world_now (shows self.old)) }
        ensures entries { OnOk result (shows self.new ≡ with_settled worker.now at step (shows self.old)) }
        ensures told { IfOk result (λ settled. IsToldBehind worker.now settled.closed settled.moved
            (arc_value settled.snapshot) (shows self.old)) }
        ensures err { OnErr result (shows self.new ≡ shows self.old) }
        ensures deferred { deferred self.new ≡ deferred self.old };

    /// The last picture. It may be refused.
    fn snapshot(&self) -> Result<Arc<Snapshot>, AllocError>
        ensures picture { IfOk result (λ snapshot. arc_value snapshot ≡ last_picture (world_now (shows self.now))) };

    /// The version of the last picture. It takes no memory, and is never refused.
    fn latest(&self) -> u64
        ensures version { result ≡ (last_picture (world_now (shows self.now))).version };

    /// The rows of the generations that were reaped and not yet taken,
    /// in the order in which they were named, for whoever drops them outside a lock. It takes no memory.
    fn take_deferred(&mut self) -> Seq<GenRow>
        ensures same { shows self.new ≡ shows self.old }
        ensures rows { result ≡ deferred self.old }
        ensures none { deferred self.new ≡ [] };

    /// The entries of what was done, in order.
    fn journal(&self) -> &[Entry]
        ensures entries { result.now ≡ (shows self.now).journal }
        ensures run { IsRun (shows self.now).format (shows self.now).workers (shows self.now).node
            (shows self.now).journal };
}
