ghost use Rattle.std.specs.Prelude.{◌≡◌, ◌≤◌, ◌<◌, ◌+◌, ◌↔◌, ℕ, List, [], ◌∷◌, ◌++◌, length, IsTrue, IfOk, OnOk};
ghost use Rattle.std.specs.Arc.{arc_value};
ghost use Rattle.ev_types.specs.declared.events.Event.TheVariants.{Accept, Close};
ghost use Rattle.ev_model.specs.World.{OpenMember};
ghost use Rattle.ev_model.specs.Connections.{closed, is_open};
ghost use Rattle.ev_model.specs.Operations.{batch_limit};
ghost use Rattle.ev_worker.specs.Batches.{accepted_as, accepted_answer, accept_line, close_line, closed_as, closed_answer};
ghost use Rattle.ev_worker.specs.Workers.{HasNoneOpen, IsMadeFrom, SameOpen, SettlesBy, acceptance, left_after};

use crate::batches::{BATCH_LIMIT, Batch};
use crate::lines::{Accepted, BatchLine, Closed, Outcome, Settled};
use crate::members::{Members, close, close_all, move_all, on_of, open_on};
use ev_keys::Keys;
use ev_snapshot::Snapshot;
use ev_types::{Ask, Event, Shared};
use indexmap::IndexMap;
use std::alloc::{AllocError, Global};
use std::marker::Model;
use std::sync::Arc;

/// A worker: the snapshot that it serves from, the connections that it has open,
/// and what it did since it settled. It answers by these alone, and asks no one.
#[derive(Drop)]
pub struct Worker {
    snapshot: Arc<Snapshot>,
    members: Members,
    batch: Batch,
}

impl Model for Worker {
    ghost use Rattle.std.specs.Arc.{arc_value};
    ghost use Rattle.indexmap.specs.IndexMap.{keys, spare};
    ghost use Rattle.ev_worker.specs.Members.{IsStored, stored_members};
    ghost use Rattle.ev_worker.specs.Workers.{WorkerParts};

    ghost Value = { WorkerParts };

    ghost view = { λ w. record { number = w.batch.worker; picture = arc_value w.snapshot; opened = stored_members w.batch.worker w.members.entries; lines = w.batch.lines; spare = spare w.members } };

    ghost invariant = { λ w. IsStored (spare w.members) w.batch.lines (keys w.members) };
}

impl Worker {
    /// A worker that has nothing open and serves from this snapshot.
    /// The numbers of its connections hash by these keys. It takes the memory for its first 256 lines.
    pub fn new(
        alloc: Global,
        keys: Keys,
        number: u32,
        snapshot: Arc<Snapshot>,
    ) -> Result<Worker, AllocError>
        ensures number { IfOk result (λ worker. worker.number ≡ number) }
        ensures picture { IfOk result (λ worker. worker.picture ≡ arc_value snapshot) }
        ensures opened { IfOk result (λ worker. worker.opened ≡ []) }
        ensures lines { IfOk result (λ worker. worker.lines ≡ []) }
        ensures begins { IfOk result (λ worker. IsMadeFrom [] worker) }
    {
        let members = IndexMap::with_capacity_and_hasher(alloc, BATCH_LIMIT, keys)?;
        let batch = Batch::new(alloc, number)?;
        Ok(Worker {
            snapshot,
            members,
            batch,
        })
    }

    /// How many more lines its batch has room for.
    pub fn room(&self) -> u32
        ensures { result + length self.now.lines ≡ batch_limit }
    {
        (BATCH_LIMIT - self.batch.lines().len()) as u32
    }

    /// The snapshot that it serves from.
    pub fn snapshot(&self) -> &Snapshot
        ensures { result.now ≡ self.now.picture }
    {
        &*self.snapshot
    }

    /// The version of the picture that it serves from. It takes no memory.
    pub fn version(&self) -> u64
        ensures { result ≡ self.now.picture.version }
    {
        self.snapshot.version()
    }

    /// Whether it did nothing since it settled, and has nothing open. It takes no memory.
    pub fn idle(&self) -> bool
        ensures idle { IsTrue result ↔ ((self.now.lines ≡ []) × (self.now.opened ≡ [])) }
        ensures rests { IsTrue result ↔ ((self.now.lines ≡ []) × HasNoneOpen self.now) }
    {
        self.batch.lines().is_empty() && self.members.is_empty()
    }

    /// What it did since it settled.
    pub fn batch(&self) -> &Batch
        ensures worker { result.now.worker ≡ self.now.number }
        ensures lines { result.now.lines ≡ self.now.lines }
    {
        &self.batch
    }

    /// Accepts a connection at a line of the script, where the batch has room:
    /// it goes where the worker's picture says, and is open from then on where there is a listener;
    /// where the worker has one of this number open, nothing is done. The line joins the batch. It takes no memory.
    pub fn accept(&mut self, at: u32, ask: Shared<Ask>) -> Accepted
        requires room { length self.old.lines < batch_limit }
        ensures answer { result ≡ accepted_as self.old.picture ask (is_open self.old.opened self.old.number ask.conn) }
        ensures machine { accepted_answer self.old.picture result ≡ (acceptance ask self.old).answer }
        ensures opened { self.new.opened ≡ (acceptance ask self.old).opened }
        ensures line { self.new.lines ≡ self.old.lines ++ accept_line at ask result ∷ [] }
        ensures number { self.new.number ≡ self.old.number }
        ensures picture { self.new.picture ≡ self.old.picture }
        ensures made { (begun : List OpenMember) → IsMadeFrom begun self.old → IsMadeFrom begun self.new }
    {
        let answer = self.answer_to(&ask);
        open_on(&mut self.members, ask.get().conn, on_of(&answer));
        self.batch.push(BatchLine {
            at,
            event: Event::Accept(ask),
            outcome: Outcome::Accepted(answer),
        });
        answer
    }

    // How a connection is answered.
    fn answer_to(&self, ask: &Shared<Ask>) -> Accepted
        ensures { result ≡ accepted_as self.now.picture ask.now (is_open self.now.opened self.now.number ask.now.conn) }
    {
        let ask = ask.get();
        if self.members.contains_key(&ask.conn) {
            Accepted::InUse
        } else {
            Accepted::Chosen(self.snapshot.choose(ask))
        }
    }

    /// Closes a connection at a line of the script, where the batch has room;
    /// where the worker has none of this number open, nothing is done. The line joins the batch. It takes no memory.
    pub fn close(&mut self, at: u32, conn: u64) -> Closed
        requires room { length self.old.lines < batch_limit }
        ensures answer { result ≡ closed_as (is_open self.old.opened self.old.number conn) }
        ensures machine { closed_answer result ≡ (closed conn self.old.number self.old.opened).answer }
        ensures opened { SameOpen self.old.number self.new.opened (closed conn self.old.number self.old.opened).opened }
        ensures line { self.new.lines ≡ self.old.lines ++ close_line at conn result ∷ [] }
        ensures number { self.new.number ≡ self.old.number }
        ensures picture { self.new.picture ≡ self.old.picture }
        ensures made { (begun : List OpenMember) → IsMadeFrom begun self.old → IsMadeFrom begun self.new }
    {
        let answer = answer_by(close(&mut self.members, conn));
        self.batch.push(BatchLine {
            at,
            event: Event::Close(conn),
            outcome: Outcome::Closed(answer),
        });
        answer
    }

    /// Takes the memory for the 256 lines after the next settle. Out of memory, all stays as it was.
    pub fn prepare(&mut self) -> Result<(), AllocError>
        ensures room { OnOk result (batch_limit ≤ self.new.spare) }
        ensures kept { self.new ≡ record self.old { spare = self.new.spare } }
    {
        self.members.reserve(BATCH_LIMIT)
    }

    /// Settles: the connections that were closed are gone, those that moved are on the listeners
    /// of the new snapshot that keep their chains, the snapshot is the new one, and the batch is empty,
    /// with room for 256 lines. `prepare` took the memory before, and no line came since.
    /// It looks at no other connections.
    pub fn adopt(&mut self, settled: Settled)
        requires prepared { batch_limit ≤ self.old.spare }
        ensures number { self.new.number ≡ self.old.number }
        ensures picture { self.new.picture ≡ arc_value settled.snapshot }
        ensures lines { self.new.lines ≡ [] }
        ensures opened { SameOpen self.old.number self.new.opened
            (left_after settled.closed settled.moved (arc_value settled.snapshot).shown self.old.opened) }
        ensures begins { IsMadeFrom self.new.opened self.new }
        ensures world { SettlesBy settled.closed settled.moved (arc_value settled.snapshot) self.old self.new }
    {
        close_all(&mut self.members, settled.closed.as_slice());
        move_all(
            &mut self.members,
            &*settled.snapshot,
            settled.moved.as_slice(),
        );
        self.batch.clear();
        self.snapshot = settled.snapshot;
    }
}

// How a close is answered.
fn answer_by(was_open: bool) -> Closed
    ensures { result ≡ closed_as was_open }
{
    if was_open {
        Closed::Done
    } else {
        Closed::NotOpen
    }
}
