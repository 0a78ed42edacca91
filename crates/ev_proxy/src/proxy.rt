ghost use Rattle.std.specs.Prelude.{◌≡◌, ◌<◌, [], length, option_copied, IfOk, OnOk};
ghost use Rattle.std.specs.Arc.{arc_value};
ghost use Rattle.ev_types.specs.declared.events.Answer.TheVariants.{Settled as settled_answer};
ghost use Rattle.ev_model.specs.World.{World, opening};
ghost use Rattle.ev_model.specs.Connections.{settle};
ghost use Rattle.ev_model.specs.Dead.{last_picture};
ghost use Rattle.ev_model.specs.Runs.{world_after};
ghost use Rattle.ev_model.specs.Step.{step};
ghost use Rattle.ev_model.specs.declared.pictures.Picture.{Picture};
ghost use Rattle.ev_types.specs.declared.journals.Format.{Format};
ghost use Rattle.ev_model_laws.specs.Drawing.{NumbersSuffice};
ghost use Rattle.ev_indexes.specs.Tables.{row_in};
ghost use Rattle.ev_ledger.specs.Members.{count_of};
ghost use Rattle.ev_worker.specs.Batches.{entries_of};
ghost use Rattle.ev_worker.specs.Workers.{AreAnswered, IsToldBy};
ghost use Rattle.ev_proxy.specs.Proxies.{AreRowsOf, IsAt, IsKnown, numbers_reaped};

use crate::changed::Changed;
use ev_drain::Deferred;
use ev_indexes::Steps;
use ev_keys::Keys;
use ev_retirement::Holders;
use ev_snapshot::Snapshot;
use ev_state::State;
use ev_types::{Actor, Answer, Event, Format, Gen, GenRow, Phase, Text};
use ev_worker::{Batch, Settled};
use std::alloc::{AllocError, Global};
use std::marker::Brand;
use std::sync::Arc;
use std::sync::ledger::{Blank, Ledger};

/// What the managers know, and what holds generations: the pictures that workers serve from, their open connections,
/// and what drains. After running out of memory it is unspecified.
#[derive(Drop)]
pub struct Proxy {
    pub state: State,
    pub holders: Holders,
    /// The generations of which the next publication may show something else than the last one.
    pub changed: Changed,
    /// The rows that the last event reaped, for whoever drops them; the next event drops those that are still here.
    pub deferred: Deferred,
}

impl Proxy {
    /// Nothing is known yet, and each of this many workers holds the empty picture. The tables by what an input names
    /// hash by these keys.
    pub fn new(alloc: Global, keys: Keys, workers: u32, node: &Text) -> Result<Proxy, AllocError>
        ensures at { IfOk result (λ p. IsAt p (opening workers node.now)) }
        ensures deferred { IfOk result (λ p. p.deferred.0 ≡ []) }
    {
        let holders = Holders::new(alloc, keys, workers)?;
        let state = State::new(alloc, keys, node)?;
        Ok(Proxy {
            state,
            holders,
            changed: Changed::none(alloc),
            deferred: Deferred::new(alloc),
        })
    }

    /// What an event does, and its answer: one step of the machine, by the rules of a journal's format. What only a
    /// worker does is ignored where another actor brings it. The rows of the generations that it reaped are deferred,
    /// and no others. Out of memory, it is unspecified.
    pub fn step(
        &mut self,
        alloc: Global,
        format: Format,
        actor: Actor,
        event: &Event,
    ) -> Result<Answer, AllocError>
        ghost here: { World }
        requires at { IsAt self.old here }
        requires known { IsKnown actor here }
        requires room { NumbersSuffice here event.now }
        ensures at { OnOk result (IsAt self.new (step format here actor event.now).0) }
        ensures answer { IfOk result (λ answer. answer ≡ (step format here actor event.now).1) }
        ensures deferred { OnOk result (AreRowsOf
            (numbers_reaped format here event.now) here.rows self.new.deferred.0) }
    {
        self.deferred = Deferred::new(alloc);
        let answer = self.led::<Brand>(Blank::new(1), alloc, format, actor, event)?;
        Ok(answer)
    }

    // The same, where no row is deferred yet, with a ledger by which look-ups are counted.
    fn led<L: Ledger>(
        &mut self,
        blank: Blank,
        alloc: Global,
        format: Format,
        actor: Actor,
        event: &Event,
    ) -> Result<Answer, AllocError>
        ghost here: { World }
        requires name { blank.name ≡ L.name }
        requires parts { blank.parts ≡ L.parts }
        requires one { L.parts ≡ 1 }
        requires at { IsAt self.old here }
        requires known { IsKnown actor here }
        requires room { NumbersSuffice here event.now }
        requires none { self.old.deferred.0 ≡ [] }
        ensures at { OnOk result (IsAt self.new (step format here actor event.now).0) }
        ensures answer { IfOk result (λ answer. answer ≡ (step format here actor event.now).1) }
        ensures deferred { OnOk result (AreRowsOf
            (numbers_reaped format here event.now) here.rows self.new.deferred.0) }
    {
        let mut steps = Steps::<L>::new(blank);
        match event {
            Event::Connect => {
                let told = self.state.connect(alloc, &mut steps)?;
                self.note(alloc, told)
            }
            Event::Disconnect => {
                let told = self.state.disconnect(alloc, &mut steps)?;
                self.note(alloc, told)
            }
            Event::Response(response) => {
                let told = self.state.respond(alloc, response.get(), &mut steps)?;
                self.note(alloc, told)
            }
            Event::Health {
                cluster,
                host,
                healthy,
            } => {
                let told = self
                    .state
                    .health(alloc, cluster, host, *healthy, &mut steps)?;
                self.note(alloc, told)
            }
            Event::FetchTimeout(timeout) => {
                let told = self.state.fetch_timeout(alloc, timeout, &mut steps)?;
                self.note(alloc, told)
            }
            Event::TtlExpired { kind, name } => {
                let told = self.state.ttl_expired(alloc, *kind, name, &mut steps)?;
                self.note(alloc, told)
            }
            Event::DrainTimeout(listener) => self.drain_timeout(alloc, listener, &mut steps),
            Event::Publish => self.publish(alloc),
            Event::Reap => self.reap(alloc, format),
            Event::Accept(ask) => self.accept(alloc, actor, ask.get()),
            Event::Close(conn) => self.close(actor, *conn),
            Event::Settle => self.settle_by(alloc, actor),
        }
    }

    /// Takes over what a worker did since it settled. The world is then the one after these entries. The deferred
    /// rows stay as they were; out of memory, all else is unspecified.
    pub fn take_batch(&mut self, batch: &Batch) -> Result<(), AllocError>
        ghost here: { World }
        requires at { IsAt self.old here }
        ensures at { OnOk result ((format : Format) (picture : Picture)
            → AreAnswered format batch.now.worker here batch.now.lines
            → IsAt self.new (world_after format here (entries_of batch.now.worker picture batch.now.lines))) }
        ensures deferred { self.new.deferred ≡ self.old.deferred }
    {
        self.holders.take_batch(batch)
    }

    /// A worker settles: it takes over the last snapshot. Its connections move to the listeners that keep their
    /// chains, and are closed on listeners whose drain timeout came where their chains are gone. The deferred rows
    /// stay as they were; out of memory, all else is unspecified.
    pub fn settle(&mut self, alloc: Global, worker: u32) -> Result<Settled, AllocError>
        ghost here: { World }
        requires at { IsAt self.old here }
        requires known { worker < length here.held }
        ensures at { OnOk result (IsAt self.new (settle worker here).0) }
        ensures answer { IfOk result (λ settled. (settle worker here).1
            ≡ settled_answer settled.closed settled.moved settled.version) }
        ensures told { IfOk result (λ settled. IsToldBy worker settled.closed settled.moved
            (arc_value settled.snapshot) here) }
        ensures deferred { self.new.deferred ≡ self.old.deferred }
    {
        self.holders.settle(alloc, worker)
    }

    /// The last snapshot. It takes no memory; it is refused where 2^63 - 1 owners hold it already.
    pub fn snapshot(&self) -> Result<Arc<Snapshot>, AllocError>
        ensures { IfOk result (λ snapshot. (world : World) → IsAt self.now world
            → arc_value snapshot ≡ last_picture world) }
    {
        self.holders.snapshot()
    }

    /// How far the proxy has booted.
    pub fn phase(&self) -> Phase
        ensures { (world : World) → IsAt self.now world → result ≡ world.phase }
    {
        self.state.phase()
    }

    /// The generation of this number. It costs a look-up among clusters, and one among listeners where no cluster has
    /// the number.
    pub fn row(&self, number: Gen) -> Option<&GenRow>
        ensures { (world : World) → IsAt self.now world → option_copied result ≡ row_in number world.rows }
    {
        self.state.row(number)
    }

    /// How many connections are open on a generation, as their listener or their cluster. It is a look-up.
    pub fn connections(&self, number: Gen) -> u64
        ensures { (world : World) → IsAt self.now world → result ≡ count_of number world.opened }
    {
        self.holders.count(number)
    }

    /// How many numbers were allocated for generations.
    pub fn made(&self) -> u32
        ensures { (world : World) → IsAt self.now world → result ≡ world.made }
    {
        self.state.made()
    }
}
