ghost use Rattle.std.specs.Prelude.{◌≡◌, ℕ, List, false, length, IfOk, OnOk, OnErr};
ghost use Rattle.std.specs.Arc.{arc_value};
ghost use Rattle.std.specs.List.{list_any};
ghost use Rattle.ev_types.specs.Statuses.{is_live};
ghost use Rattle.ev_model.specs.World.{opening};
ghost use Rattle.ev_model.specs.Dead.{last_picture};
ghost use Rattle.ev_model.specs.Publishing.{dead_numbers};
ghost use Rattle.ev_snapshot.specs.Changes.{IsOrdered};
ghost use Rattle.ev_ledger.specs.Members.{count_of, is_of_worker};
ghost use Rattle.ev_drain.specs.Retired.{has_row};
ghost use Rattle.ev_retirement.specs.Retiring.{noted};
ghost use Rattle.ev_retirement.specs.Holders.{HoldsFor, with_expired, without_generation, without_generations};
ghost use Rattle.ev_retirement.specs.Worlds.{AnswersPublication, AnswersTimeout, IsAnswerOf, LeavesTimeout, Publishes, Reaps, Retires, StandsAfter};

use crate::Pictures;
use crate::asking::Asking;
use crate::closing::{Closing, enter_on_each, enter_touched};
use crate::retiring::is_dropped;
use ev_drain::Drain;
use ev_keys::Keys;
use ev_ledger::Ledger;
use ev_snapshot::{Changes, Snapshot};
use ev_types::{Format, Gen, GenRow, Name};
use std::alloc::{AllocError, Global};
use std::marker::Model;
use std::sync::Arc;

/// What holds generations: the pictures that workers serve from, their open connections, and the generations that
/// drain or were dropped, until nothing holds them any more.
#[derive(Drop)]
pub struct Holders {
    pub(crate) pictures: Pictures,
    pub(crate) ledger: Ledger,
    pub(crate) drain: Drain,
    // Each generation that nothing holds is among those to be asked about.
    pub(crate) asking: Asking,
    // Each connection that the next settle of its worker closes or moves is among those that it looks at.
    pub(crate) closing: Closing,
}

impl Model for Holders {
    ghost use Rattle.ev_retirement.specs.Closing.{AreTracked};
    ghost use Rattle.ev_retirement.specs.Holders.{HoldersParts};

    ghost Value = { HoldersParts };

    ghost view = { λ h. record { pictures = h.pictures; ledger = h.ledger; drain = h.drain } };

    ghost invariant = { λ h. AreTracked h.asking h.closing (record { pictures = h.pictures; ledger = h.ledger; drain = h.drain }) };
}

impl Holders {
    /// Nothing was published, no connection is open, and no generation drains; each of this many workers holds the
    /// empty picture. Names and addresses hash by these keys.
    pub fn new(alloc: Global, keys: Keys, workers: u32) -> Result<Holders, AllocError>
        ensures world { IfOk result (λ holders. (node : List ℕ) → HoldsFor holders (opening workers node)) }
    {
        let pictures = Pictures::new(alloc, keys, workers)?;
        Ok(Holders {
            pictures,
            ledger: Ledger::new(alloc),
            drain: Drain::new(alloc, keys),
            asking: Asking::new(alloc),
            closing: Closing::new(alloc),
        })
    }

    /// Publishes what the last picture shows after these changes, under the next version, which it returns; where
    /// that is what the last picture shows, nothing is published, and there is no version. It costs what changes. Out
    /// of memory, all stays as it was; so where versions are used up.
    pub fn publish(&mut self, alloc: Global, changes: &Changes) -> Result<Option<u64>, AllocError>
        ensures ordered { OnOk result (IsOrdered self.old.pictures.last.shown) }
        ensures answer { IfOk result (AnswersPublication changes.now self.old) }
        ensures world { OnOk result (Publishes changes.now self.old self.new) }
        ensures err { OnErr result (self.new ≡ self.old) }
    {
        // Where nothing is published, the last picture shows only what still serves, and none is set aside under it.
        let Ok(_) = self.asking.recall(alloc, self.pictures.version()) else {
            return Err(AllocError);
        };
        let Ok(next) = self.pictures.next(alloc, changes) else {
            return Err(AllocError);
        };
        let Some(next) = next else {
            return Ok(None);
        };
        let last = self.pictures.last();
        let Ok(_) = enter_touched(
            alloc,
            &mut self.closing,
            &self.ledger,
            last,
            &*next,
            changes,
        ) else {
            return Err(AllocError);
        };
        Ok(Some(self.pictures.publish(changes, next)))
    }

    /// The drain timeout of a listener's old generations: it came for those of this name that drain. It answers
    /// whether there was one for which it hadn't come; where there was none, the machine ignores it, and otherwise
    /// the world is to be tidied. Out of memory, all stays as it was.
    pub fn drain_timeout(&mut self, alloc: Global, name: &Name) -> Result<bool, AllocError>
        ensures answer { IfOk result (AnswersTimeout name.now self.old) }
        ensures machine { IfOk result (LeavesTimeout name.now self.old) }
        ensures world { OnOk result (StandsAfter (with_expired name.now) self.old self.new) }
        ensures err { OnErr result (self.new ≡ self.old) }
    {
        let waiting = self.drain.waiting(name);
        let Ok(_) = self.asking.ask_each(waiting) else {
            return Err(AllocError);
        };
        let Ok(_) = enter_on_each(alloc, &mut self.closing, &self.ledger, waiting) else {
            return Err(AllocError);
        };
        Ok(self.drain.expire(name))
    }

    /// Notes a generation that drains or was dropped; one that was noted before stays as it is. Out of memory, all
    /// stays as it was.
    #[tactic(auto, using(crate::proofs::RetireLemmas::noted_same))]
    pub fn note(&mut self, alloc: Global, row: &GenRow) -> Result<(), AllocError>
        requires over { is_live row.now.status ≡ false }
        ensures noted { OnOk result (self.new ≡ record self.old { drain = noted self.old.drain row.now }) }
        ensures err { OnErr result (self.new ≡ self.old) }
    {
        if self.has_retired(row.number) {
            return Ok(());
        }
        let Ok(_) = self.asking.ask(row.number) else {
            return Err(AllocError);
        };
        let dropped = is_dropped(row.status);
        self.drain
            .retire(alloc, row.kind, row.number, &row.name, dropped)
    }

    /// The numbers of the generations that nothing holds any more, from the least, by a journal's format. By the
    /// rules of format 2 it asks only about those that were retired since the last time, or of whose holders one let
    /// go since then; by those of format 1 it asks about all that drain. It goes through no picture and no
    /// connection.
    pub fn dead(&mut self, alloc: Global, format: Format) -> Result<Vec<Gen>, AllocError>
        ensures world { IfOk result (λ dead. IsAnswerOf (dead_numbers format) self.old dead.items) }
        ensures same { self.new ≡ self.old }
    {
        match format {
            Format::One => self.dead_of_all(alloc),
            Format::Two => self.dead_asked(alloc),
        }
    }

    /// A dead generation goes, and its mark with it. It takes no memory.
    pub fn remove(&mut self, number: Gen)
        ensures world { StandsAfter (without_generation number) self.old self.new }
    {
        self.asking.forget(number);
        self.drain.remove(number);
    }

    /// These dead generations go, one after another, and their marks with them. It takes no memory.
    pub fn remove_all(&mut self, dead: &[Gen])
        ensures world { StandsAfter (without_generations dead.now) self.old self.new }
        ensures reaped { Reaps dead.now self.old self.new }
    {
        self.take_out(dead);
    }

    // The same, for any numbers.
    fn take_out(&mut self, numbers: &[Gen])
        ensures { StandsAfter (without_generations numbers.now) self.old self.new }
    {
        for number in numbers {
            self.remove(*number);
        }
    }

    /// Whether a generation was retired, and not removed since.
    #[tactic(auto, using(crate::proofs::HoldLemmas::kind_there))]
    pub fn has_retired(&self, number: Gen) -> bool
        ensures { result ≡ has_row self.now.drain number }
    {
        self.drain.kind(number).is_some()
    }

    /// Whether a worker has a connection open. It is a look-up.
    pub fn has_open(&self, worker: u32) -> bool
        ensures parts { result ≡ list_any (is_of_worker worker) self.now.ledger }
        ensures world { IsAnswerOf (λ world. list_any (is_of_worker worker) world.opened) self.now result }
    {
        self.ledger.has_any(worker)
    }

    /// How many connections are open on a generation, as their listener or their cluster. It is a look-up.
    pub fn count(&self, number: Gen) -> u64
        ensures parts { result ≡ count_of number self.now.ledger }
        ensures world { IsAnswerOf (λ world. count_of number world.opened) self.now result }
    {
        self.ledger.count(number)
    }

    /// The last snapshot, for a worker that begins. It takes no memory; it is refused where 2^63 - 1 owners hold it
    /// already.
    pub fn snapshot(&self) -> Result<Arc<Snapshot>, AllocError>
        ensures last { IfOk result (λ snapshot. arc_value snapshot ≡ self.now.pictures.last) }
    {
        self.pictures.snapshot()
    }
}
