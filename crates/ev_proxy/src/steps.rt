ghost use Rattle.std.specs.Prelude.{◌≡◌, [], IfOk, OnOk};
ghost use Rattle.ev_model.specs.World.{World};
ghost use Rattle.ev_model.specs.Publishing.{dead_numbers, publish, reap};
ghost use Rattle.ev_model.specs.Signals.{drain_timeout};
ghost use Rattle.ev_model.specs.Connections.{accept, close, settle};
ghost use Rattle.ev_model.specs.Step.{of_worker};
ghost use Rattle.ev_retirement.specs.Pictures.{published_answer};
ghost use Rattle.ev_proxy.specs.Proxies.{AreRowsOf, IsAt, IsKnown, Notes};

use crate::Proxy;
use crate::changed::Changed;
use crate::changing::changes;
use crate::noting::{note_each, remove_each};
use ev_indexes::Steps;
use ev_managers::Moved;
use ev_types::{Actor, Answer, Ask, Format, Name, Seq};
use std::alloc::{AllocError, Global};
use std::sync::ledger::Ledger;

impl Proxy {
    /// Notes what a step of the managers moved: the generations that it retired among those that drain, and those of
    /// which it changed what is to be shown among those that changed. Answers what the step answered.
    pub(crate) fn note(
        &mut self,
        alloc: Global,
        told: (Answer, Moved),
    ) -> Result<Answer, AllocError>
        ensures answer { IfOk result (λ answer. answer ≡ told.0) }
        ensures noted { OnOk result (Notes self.old self.new told.1) }
    {
        let (answer, moved) = told;
        self.changed.put_all(moved.changed.as_slice())?;
        note_each(
            alloc,
            &mut self.holders,
            &self.state,
            moved.retired.as_slice(),
        )?;
        Ok(answer)
    }

    /// The drain timeout of a listener's old generations; where there is none for which it hadn't come, nothing is
    /// done.
    pub(crate) fn drain_timeout<L: Ledger>(
        &mut self,
        alloc: Global,
        listener: &Name,
        steps: &mut Steps<L>,
    ) -> Result<Answer, AllocError>
        ghost here: { World }
        requires at { IsAt self.old here }
        ensures at { OnOk result (IsAt self.new (drain_timeout listener.now here).0) }
        ensures answer { IfOk result (λ answer. answer ≡ (drain_timeout listener.now here).1) }
        ensures deferred { OnOk result (self.new.deferred ≡ self.old.deferred) }
    {
        let meant = self.holders.drain_timeout(alloc, listener)?;
        if !meant {
            return Ok(Answer::Ignored);
        }
        let moved = self.state.tidy_up(alloc, steps)?;
        let answer = self.note(alloc, (Answer::Done, moved))?;
        Ok(answer)
    }

    /// What workers may serve now is published, where it isn't what the last picture shows. Only the generations are
    /// looked at of which it may show something else.
    pub(crate) fn publish(&mut self, alloc: Global) -> Result<Answer, AllocError>
        ghost here: { World }
        requires at { IsAt self.old here }
        ensures at { OnOk result (IsAt self.new (publish here).0) }
        ensures answer { IfOk result (λ answer. answer ≡ (publish here).1) }
        ensures deferred { OnOk result (self.new.deferred ≡ self.old.deferred) }
    {
        let changes = changes(alloc, &self.state, self.changed.numbers())?;
        let version = self.holders.publish(alloc, &changes)?;
        self.changed = Changed::none(alloc);
        Ok(answer_to(version))
    }

    /// All generations that nothing holds any more are named, and go; their rows are deferred, where none was before.
    pub(crate) fn reap(&mut self, alloc: Global, format: Format) -> Result<Answer, AllocError>
        ghost here: { World }
        requires at { IsAt self.old here }
        requires none { self.old.deferred.0 ≡ [] }
        ensures at { OnOk result (IsAt self.new (reap format here).0) }
        ensures answer { IfOk result (λ answer. answer ≡ (reap format here).1) }
        ensures deferred { OnOk result (AreRowsOf (dead_numbers format here) here.rows self.new.deferred.0) }
    {
        let dead = self.holders.dead(alloc, format)?;
        self.deferred.make_room(dead.len())?;
        remove_each(&mut self.state, dead.as_slice(), &mut self.deferred);
        self.holders.remove_all(dead.as_slice());
        Ok(Answer::Reaped(Seq::from_vec(dead)))
    }

    /// A connection comes to a worker, and is answered as the worker's snapshot here says; of another actor nothing
    /// is done.
    pub(crate) fn accept(
        &mut self,
        alloc: Global,
        actor: Actor,
        ask: &Ask,
    ) -> Result<Answer, AllocError>
        ghost here: { World }
        requires at { IsAt self.old here }
        requires known { IsKnown actor here }
        ensures at { OnOk result (IsAt self.new (of_worker (accept ask.now) actor here).0) }
        ensures answer { IfOk result (λ answer. answer ≡ (of_worker (accept ask.now) actor here).1) }
        ensures deferred { OnOk result (self.new.deferred ≡ self.old.deferred) }
    {
        match actor {
            Actor::Worker(worker) => self.holders.accept(alloc, worker, ask),
            Actor::Stream | Actor::Health | Actor::Timer | Actor::Main => Ok(Answer::Ignored),
        }
    }

    /// A connection of a worker closes; of another actor nothing is done.
    pub(crate) fn close(&mut self, actor: Actor, conn: u64) -> Result<Answer, AllocError>
        ghost here: { World }
        requires at { IsAt self.old here }
        ensures at { OnOk result (IsAt self.new (of_worker (close conn) actor here).0) }
        ensures answer { IfOk result (λ answer. answer ≡ (of_worker (close conn) actor here).1) }
        ensures deferred { OnOk result (self.new.deferred ≡ self.old.deferred) }
    {
        match actor {
            Actor::Worker(worker) => self.holders.close(worker, conn),
            Actor::Stream | Actor::Health | Actor::Timer | Actor::Main => Ok(Answer::Ignored),
        }
    }

    /// A worker settles, and its answer alone is kept; of another actor nothing is done.
    pub(crate) fn settle_by(&mut self, alloc: Global, actor: Actor) -> Result<Answer, AllocError>
        ghost here: { World }
        requires at { IsAt self.old here }
        requires known { IsKnown actor here }
        ensures at { OnOk result (IsAt self.new (of_worker settle actor here).0) }
        ensures answer { IfOk result (λ answer. answer ≡ (of_worker settle actor here).1) }
        ensures deferred { OnOk result (self.new.deferred ≡ self.old.deferred) }
    {
        match actor {
            Actor::Worker(worker) => {
                let settled = self.settle(alloc, worker)?;
                Ok(Answer::Settled {
                    closed: settled.closed,
                    moved: settled.moved,
                    version: settled.version,
                })
            }
            Actor::Stream | Actor::Health | Actor::Timer | Actor::Main => Ok(Answer::Ignored),
        }
    }
}

// The answer to a publication, by its version.
fn answer_to(version: Option<u64>) -> Answer
    ensures { result ≡ published_answer version }
{
    match version {
        Some(version) => Answer::Version(version),
        None => Answer::Unchanged,
    }
}
