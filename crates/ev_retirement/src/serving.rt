ghost use Rattle.std.specs.Prelude.{◌≡◌, ◌<◌, length, IfOk, OnOk, OnErr};
ghost use Rattle.std.specs.Arc.{arc_value};
ghost use Rattle.ev_model.specs.Connections.{accept, close, settle};
ghost use Rattle.ev_retirement.specs.Asking.{LetsGo};
ghost use Rattle.ev_retirement.specs.Closing.{StillFinds, closed_all, moved_each};
ghost use Rattle.ev_retirement.specs.Worlds.{AnswersSettle, IsAnswerOf, StandsAfter, TakesOver, IsTold};

use crate::Holders;
use crate::asking::Asking;
use crate::closing::{Closing, Due, due_of, leave_done};
use crate::letting_go::{close_each, close_one, move_each, recall_left};
use crate::lines::{answer_accept, answer_of, close_answer, take_accept, take_lines};
use ev_drain::Drain;
use ev_ledger::Ledger;
use ev_snapshot::Snapshot;
use ev_types::{Answer, Ask, Seq};
use ev_worker::{Batch, Settled};
use std::alloc::{AllocError, Global};

impl Holders {
    /// A worker settles: its connections move to the listeners of the last snapshot that keep their chains, and are
    /// closed on listeners whose drain timeout came where no chain stays; and it takes over the last snapshot. It looks
    /// at those alone. Out of memory, all but the open connections stays as it was; some of its own moved or are
    /// closed: whoever holds this makes it anew.
    pub fn settle(&mut self, alloc: Global, worker: u32) -> Result<Settled, AllocError>
        requires known { worker < length self.old.pictures.held }
        ensures answer { IfOk result (λ settled. AnswersSettle worker settled.closed settled.moved settled.version self.old) }
        ensures told { IfOk result (λ settled.
            IsTold worker settled.closed settled.moved (arc_value settled.snapshot) self.old) }
        ensures world { OnOk result (StandsAfter (λ world. (settle worker world).0) self.old self.new) }
        ensures err { OnErr result (self.new ≡ record self.old { ledger = self.new.ledger }) }
    {
        let last = self.pictures.last();
        let Ok(due) = due_of(
            alloc,
            &self.closing,
            &self.ledger,
            &self.drain,
            last,
            worker,
        ) else {
            return Err(AllocError);
        };
        let Ok(_) = settle_each(
            &mut self.asking,
            &mut self.closing,
            &self.drain,
            last,
            &mut self.ledger,
            worker,
            &due,
        ) else {
            return Err(AllocError);
        };
        let Ok(_) = recall_left(alloc, &mut self.asking, &self.pictures, worker) else {
            return Err(AllocError);
        };
        let Ok(snapshot) = self.pictures.settle(worker) else {
            return Err(AllocError);
        };
        Ok(Settled {
            closed: Seq::from_vec(due.closed),
            moved: Seq::from_vec(due.moved),
            version: snapshot.version(),
            snapshot,
        })
    }

    /// Takes over what a worker did since it settled: its lines open and close connections, one after another, and
    /// the world is then the one after these entries. Out of memory, some of the first lines are taken: whoever holds
    /// this makes it anew.
    pub fn take_batch(&mut self, batch: &Batch) -> Result<(), AllocError>
        ensures world { OnOk result (TakesOver batch.now.worker batch.now.lines self.old self.new) }
    {
        let last = self.pictures.last();
        take_lines(
            &mut self.asking,
            &mut self.closing,
            &self.drain,
            last,
            &mut self.ledger,
            batch.worker(),
            batch.lines(),
        )
    }

    /// A worker accepts a connection, by the snapshot that it holds here: for an event that is made once more out of
    /// a journal. It is answered as the machine answers it; where the worker has one of this number open, nothing is
    /// done. Out of memory, all stays as it was.
    pub fn accept(&mut self, alloc: Global, worker: u32, ask: &Ask) -> Result<Answer, AllocError>
        requires known { worker < length self.old.pictures.held }
        ensures answer { IfOk result (IsAnswerOf (λ world. (accept ask.now worker world).1) self.old) }
        ensures world { OnOk result (StandsAfter (λ world. (accept ask.now worker world).0) self.old self.new) }
        ensures err { OnErr result (self.new ≡ self.old) }
    {
        let outcome = answer_accept(&self.pictures, &self.ledger, worker, ask);
        let Ok(answer) = answer_of(alloc, self.pictures.held(worker), &outcome) else {
            return Err(AllocError);
        };
        let last = self.pictures.last();
        let Ok(_) = take_accept(
            &mut self.closing,
            &self.drain,
            last,
            &mut self.ledger,
            worker,
            ask.conn,
            &outcome,
        ) else {
            return Err(AllocError);
        };
        Ok(answer)
    }

    /// A worker closes a connection: for an event that is made once more out of a journal. It is answered as the
    /// machine answers it; where the connection isn't open there, nothing is done. Out of memory, all stays as it
    /// was.
    pub fn close(&mut self, worker: u32, conn: u64) -> Result<Answer, AllocError>
        ensures answer { IfOk result (IsAnswerOf (λ world. (close conn worker world).1) self.old) }
        ensures world { OnOk result (StandsAfter (λ world. (close conn worker world).0) self.old self.new) }
        ensures err { OnErr result (self.new ≡ self.old) }
    {
        let Ok(was_open) = close_one(
            &mut self.asking,
            &mut self.closing,
            &self.drain,
            &mut self.ledger,
            worker,
            conn,
        ) else {
            return Err(AllocError);
        };
        Ok(close_answer(was_open))
    }
}

// Closes and moves what a worker's settle closes and moves by the last snapshot. Out of memory, some of it.
fn settle_each(
    asking: &mut Asking,
    closing: &mut Closing,
    drain: &Drain,
    last: &Snapshot,
    ledger: &mut Ledger,
    worker: u32,
    due: &Due,
) -> Result<(), AllocError>
    ensures left { OnOk result (ledger.new
        ≡ moved_each worker due.now.moved.items last.now.shown (closed_all worker due.now.closed.items ledger.old)) }
    ensures goes { LetsGo drain.now asking.old asking.new ledger.old ledger.new }
    ensures found { StillFinds drain.now last.now.shown closing.old closing.new ledger.old ledger.new }
{
    close_each(
        asking,
        closing,
        drain,
        ledger,
        worker,
        due.closed.as_slice(),
    )?;
    move_each(
        asking,
        closing,
        drain,
        last,
        ledger,
        worker,
        due.moved.as_slice(),
    )?;
    leave_done(
        closing,
        drain,
        last,
        ledger,
        worker,
        due.looked_at.as_slice(),
    );
    Ok(())
}
