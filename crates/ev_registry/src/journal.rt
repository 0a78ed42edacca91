ghost use Rattle.std.specs.Prelude.{◌≡◌, ◌≤◌, ◌<◌, ◌+◌, true, false, [], is_none, IfOk, IfSome, OnOk, OnErr};
ghost use Rattle.std.specs.Arc.{arc_value};
ghost use Rattle.ev_types.specs.Events.{IsMainSide, MayMake};
ghost use Rattle.ev_types.specs.Scripts.{items_in};
ghost use Rattle.ev_model.specs.World.{opening};
ghost use Rattle.ev_model.specs.Runs.{IsRun};
ghost use Rattle.ev_actors.specs.Journals.{IsToldBehind, SufficeFor, WorksIn, entry_made, with_entry, with_settled, world_now};
ghost use Rattle.ev_registry.specs.Registries.{DefersReaped, HaveStepped};
ghost use Rattle.ev_registry.specs.Views.{view_of};

use crate::batches::enter_batch;
use crate::entries::{enter, entry_of};
use crate::past::Past;
use crate::steps::{make_anew, recover, settle_after, step_after};
use crate::views::{View, rows_of};
use ev_actors::Journaled;
use ev_drain::Deferred;
use ev_keys::Keys;
use ev_proxy::Proxy;
use ev_snapshot::Snapshot;
use ev_types::{Actor, Entry, Event, Format, GenRow, Seq, Text, TryCopy};
use ev_worker::{Settled, Worker};
use std::alloc::{AllocError, Global};
use std::marker::Model;
use std::mem::{drop, replace};
use std::sync::Arc;

/// What is known, and the journal of what was done: a run of the machine.
/// Where an event ran out of memory, what is known counts as lost,
/// and is made anew out of the journal with the next event;
/// the last picture and the rows that wait to be dropped are kept beside it, and stay.
#[derive(Drop)]
pub struct Registry {
    alloc: Global,
    // By these the tables of what is known hash, also when it is made anew.
    keys: Keys,
    format: Format,
    workers: u32,
    node: Text,
    proxy: Proxy,
    is_lost: bool,
    latest: Arc<Snapshot>,
    deferred: Deferred,
    journal: Vec<Entry>,
}

impl Model for Registry {
    ghost use Rattle.std.specs.Arc.{arc_value};
    ghost use Rattle.ev_registry.specs.Registries.{FollowsJournal, RegistryParts};

    ghost Value = { RegistryParts };

    ghost view = { λ r. record {
      journaled = record { format = r.format; workers = r.workers; node = r.node; journal = r.journal.items };
      deferred = r.deferred.0;
      is_lost = r.is_lost;
    } };

    ghost invariant = { λ r. FollowsJournal r.is_lost (arc_value r.latest) r.proxy record { format = r.format; workers = r.workers; node = r.node; journal = r.journal.items } };
}

impl Registry {
    /// A registry in which nothing was done yet, for 1 to 16 workers, by the rules of a format.
    /// The tables by what an input names hash by these keys.
    pub fn new(
        alloc: Global,
        keys: Keys,
        workers: u32,
        node: &Text,
        format: Format,
    ) -> Result<Registry, AllocError>
        requires some { 1 ≤ workers }
        requires few { workers ≤ 16 }
        ensures empty { IfOk result (λ made. made.journaled
            ≡ record { format = format; workers = workers; node = node.now; journal = [] }) }
        ensures none { IfOk result (λ made. made.deferred ≡ []) }
        ensures known { IfOk result (λ made. made.is_lost ≡ false) }
    {
        let registry = Registry::of_journal(alloc, keys, format, workers, node, Vec::new(alloc))?;
        Ok(registry)
    }

    /// The registry in which these entries were done, which are a run: each event once more, in order.
    /// No row waits to be dropped.
    pub fn of_journal(
        alloc: Global,
        keys: Keys,
        format: Format,
        workers: u32,
        node: &Text,
        journal: Vec<Entry>,
    ) -> Result<Registry, AllocError>
        requires run { IsRun format workers node.now journal.items }
        requires stepped { HaveStepped format workers (opening workers node.now) journal.items }
        ensures shown { IfOk result (λ made. made.journaled
            ≡ record { format = format; workers = workers; node = node.now; journal = journal.items }) }
        ensures none { IfOk result (λ made. made.deferred ≡ []) }
        ensures known { IfOk result (λ made. made.is_lost ≡ false) }
    {
        let kept = node.copy(alloc)?;
        let past = Past {
            keys,
            format,
            workers,
            node,
            journal: journal.as_slice(),
        };
        let proxy = make_anew(alloc, past)?;
        let latest = match proxy.snapshot() {
            Ok(latest) => latest,
            Err(error) => {
                drop(proxy);
                return Err(error);
            }
        };
        Ok(Registry {
            alloc,
            keys,
            format,
            workers,
            node: kept,
            proxy,
            is_lost: false,
            latest,
            deferred: Deferred::new(alloc),
            journal,
        })
    }

    /// What is known, as it is shown: the generations by number,
    /// each with how many connections are open on it. There is none where the last event ran out of memory,
    /// and otherwise there is one. It costs look-ups of each number that was allocated.
    pub fn view(&self, alloc: Global) -> Result<Option<View>, AllocError>
        ensures shown { IfOk result (λ view. IfSome view (λ v. v ≡ view_of (world_now self.now.journaled))) }
        ensures lost { IfOk result (λ view. is_none view ≡ self.now.is_lost) }
    {
        if self.is_lost {
            return Ok(None);
        }
        let rows = rows_of(alloc, &self.proxy)?;
        Ok(Some(View {
            rows,
            phase: self.proxy.phase(),
            version: self.latest.version(),
        }))
    }
}

impl Journaled for Registry {
    ghost shows = { λ r. r.journaled };

    ghost deferred = { λ r. r.deferred };

    fn apply(&mut self, actor: Actor, at: u32, step: u32, event: &Event) -> Result<(), AllocError>
        requires main { IsMainSide actor }
        requires allowed { MayMake self.old.journaled.workers actor event.now }
        requires numbered { SufficeFor event.now self.old.journaled }
        ensures entry { OnOk result (self.new.journaled
            ≡ with_entry (entry_made actor at step event.now self.old.journaled) self.old.journaled) }
        ensures drawn { OnOk result ((world_now self.new.journaled).made ≤
            (world_now self.old.journaled).made + items_in event.now) }
        // What a reaping names waits after the rows that waited, each row as the world had it;
        // no other event puts a row there.
        ensures deferred { OnOk result (DefersReaped event.now self.old.journaled self.old.deferred self.new.deferred) }
        ensures err { OnErr result (self.new.journaled ≡ self.old.journaled) }
        ensures kept { OnErr result (self.new.deferred ≡ self.old.deferred) }
        // It is lost exactly where it was cut off; where it was lost before, it was made anew.
        ensures known { OnOk result (self.new.is_lost ≡ false) }
        ensures lost { OnErr result (self.new.is_lost ≡ true) }
    {
        let is_lost = replace(&mut self.is_lost, true);
        let past = Past {
            keys: self.keys,
            format: self.format,
            workers: self.workers,
            node: &self.node,
            journal: self.journal.as_slice(),
        };
        recover(&mut self.proxy, is_lost, self.alloc, past)?;
        let answer = step_after(&mut self.proxy, self.alloc, past, actor, event)?;
        let latest = self.proxy.snapshot()?;
        let entry = entry_of(self.alloc, actor, at, step, event, answer)?;
        enter(
            &mut self.journal,
            &mut self.deferred,
            &mut self.proxy.deferred,
            entry,
        )?;
        self.latest = latest;
        self.is_lost = false;
        Ok(())
    }

    fn apply_batch(&mut self, worker: &Worker, at: u32, step: u32) -> Result<Settled, AllocError>
        requires within { worker.now.number < self.old.journaled.workers }
        requires works { WorksIn worker.now (world_now self.old.journaled) }
        ensures entries { OnOk result (self.new.journaled ≡ with_settled worker.now at step self.old.journaled) }
        ensures told { IfOk result (λ settled. IsToldBehind worker.now settled.closed settled.moved
            (arc_value settled.snapshot) self.old.journaled) }
        ensures err { OnErr result (self.new.journaled ≡ self.old.journaled) }
        // The rows that wait go on waiting.
        ensures deferred { self.new.deferred ≡ self.old.deferred }
        // It is lost exactly where it was cut off; where it was lost before, it was made anew.
        ensures known { OnOk result (self.new.is_lost ≡ false) }
        ensures lost { OnErr result (self.new.is_lost ≡ true) }
    {
        let was_lost = replace(&mut self.is_lost, true);
        let past = Past {
            keys: self.keys,
            format: self.format,
            workers: self.workers,
            node: &self.node,
            journal: self.journal.as_slice(),
        };
        recover(&mut self.proxy, was_lost, self.alloc, past)?;
        let settled = settle_after(&mut self.proxy, self.alloc, past, worker)?;
        let latest = self.proxy.snapshot()?;
        let entered = enter_batch(&mut self.journal, self.alloc, worker, at, step, &settled);
        if let Err(error) = entered {
            drop(settled);
            return Err(error);
        }
        self.latest = latest;
        self.is_lost = false;
        Ok(settled)
    }

    // It is never lost, and takes no memory; it is refused where 2^63 - 1 owners hold it already.
    fn snapshot(&self) -> Result<Arc<Snapshot>, AllocError> {
        Arc::try_clone(&self.latest)
    }

    fn latest(&self) -> u64 {
        self.latest.version()
    }

    // Exactly those that reapings removed since the last call.
    fn take_deferred(&mut self) -> Seq<GenRow>
        ensures same { self.new.journaled ≡ self.old.journaled }
        ensures rows { result ≡ self.old.deferred }
        ensures none { self.new.deferred ≡ [] }
        ensures lost { self.new.is_lost ≡ self.old.is_lost }
    {
        let none = Deferred::new(self.alloc);
        replace(&mut self.deferred, none).into_rows()
    }

    fn journal(&self) -> &[Entry] {
        self.journal.as_slice()
    }
}
