ghost use Rattle.std.specs.Prelude.{◌≡◌, ◌<◌, ◌+◌, ℕ, None, Some, List, find, length, map, replicate, slice_get, IfOk, OnOk, OnErr, IfSome, IfNone};
ghost use Rattle.std.specs.Arc.{arc_value};
ghost use Rattle.std.specs.List.{list_any};
ghost use Rattle.std.specs.Option.{option_copied};
ghost use Rattle.ev_model.specs.World.{opening};
ghost use Rattle.ev_model.specs.Picture.{has_number};
ghost use Rattle.ev_model.specs.Dead.{numbers_in_use, picture_held};
ghost use Rattle.ev_snapshot.specs.Changes.{IsNext, IsOrdered, picture_after};
ghost use Rattle.ev_retirement.specs.Pictures.{AnswersPublication, IsAnswerOf, Publishes, PublishesNothing, StandsAfter, HasPictures, is_shown_by, is_shown_in, opening_pictures, settled_on, shown_after, version_held, version_showing, version_where, with_shown, with_settled};

use ev_keys::Keys;
use ev_snapshot::{Changes, Snapshot};
use ev_types::Gen;
use std::alloc::{AllocError, Global};
use std::marker::Model;
use std::sync::Arc;

/// What was published last, and the snapshot that each worker holds. Contracts see the pictures. Each snapshot is
/// shared.
#[derive(Drop)]
pub struct Pictures {
    last: Arc<Snapshot>,
    held: Vec<Arc<Snapshot>>,
}

impl Model for Pictures {
    ghost use Rattle.std.specs.Prelude.{map};
    ghost use Rattle.std.specs.Arc.{arc_value};
    ghost use Rattle.ev_retirement.specs.Pictures.{PicturesParts, AreUpTo};

    ghost Value = { PicturesParts };

    ghost view = { λ p. record { last = arc_value p.last; held = map arc_value p.held.items } };

    ghost invariant = { λ p. AreUpTo (arc_value p.last) (map arc_value p.held.items) };
}

impl Pictures {
    /// Nothing was published, and each of this many workers holds the empty picture. The tables of all pictures hash
    /// by these keys.
    pub fn new(alloc: Global, keys: Keys, workers: u32) -> Result<Pictures, AllocError>
        ensures empty { IfOk result (λ pictures. pictures ≡ opening_pictures workers) }
        ensures world { IfOk result (λ pictures. (node : List ℕ) → HasPictures pictures (opening workers node)) }
    {
        let last = Snapshot::empty(alloc, keys)?;
        let held = held_by_all(alloc, &last, workers)?;
        Ok(Pictures { last, held })
    }

    /// What the last picture shows after these changes, under the next version; where that is what the last picture
    /// shows, there is no next one, and the machine publishes nothing. It costs what changes: all else is shared with
    /// the last picture. Out of memory also where versions are used up.
    pub fn next(
        &self,
        alloc: Global,
        changes: &Changes,
    ) -> Result<Option<Arc<Snapshot>>, AllocError>
        ensures ordered { IsOrdered self.now.last.shown }
        ensures next { IfOk result (IsNext changes.now self.now.last) }
        ensures none { IfOk result (λ next. IfNone next (PublishesNothing changes.now self.now)) }
    {
        Snapshot::next(alloc, &self.last, changes)
    }

    /// Publishes the picture after these changes, and returns its version. It takes no memory.
    pub fn publish(&mut self, changes: &Changes, next: Arc<Snapshot>) -> u64
        requires next { picture_after changes.now self.old.last ≡ Some (arc_value next) }
        ensures version { result ≡ self.old.last.version + 1 }
        ensures published { self.new ≡ with_shown (shown_after changes.now self.old) self.old }
        ensures last { self.new.last ≡ arc_value next }
        ensures held { self.new.held ≡ self.old.held }
        ensures answer { AnswersPublication changes.now self.old (Some result) }
        ensures world { Publishes changes.now self.old self.new }
    {
        let version = next.version();
        self.last = next;
        version
    }

    /// The last picture. It takes no memory.
    pub fn last(&self) -> &Snapshot
        ensures { result.now ≡ self.now.last }
    {
        &*self.last
    }

    /// A worker takes over the last snapshot, which it returns. It takes no memory; it is refused where 2^63 - 1
    /// owners hold the snapshot already, and all stays as it was then.
    pub fn settle(&mut self, worker: u32) -> Result<Arc<Snapshot>, AllocError>
        requires known { worker < length self.old.held }
        ensures snapshot { IfOk result (λ snapshot. arc_value snapshot ≡ self.old.last) }
        ensures settled { OnOk result (self.new ≡ with_settled worker self.old) }
        ensures world { OnOk result (StandsAfter (settled_on worker) self.old self.new) }
        ensures err { OnErr result (self.new ≡ self.old) }
    {
        let Ok(kept) = self.snapshot() else {
            return Err(AllocError);
        };
        let Ok(given) = self.snapshot() else {
            return Err(AllocError);
        };
        self.held[worker as usize] = kept;
        Ok(given)
    }

    /// The snapshot that a worker holds here: for an event that is made once more out of a journal, since a worker at
    /// work has its own. It takes no memory.
    pub fn held(&self, worker: u32) -> &Snapshot
        requires known { worker < length self.now.held }
        ensures held { slice_get self.now.held worker ≡ Some result.now }
        ensures world { IsAnswerOf (λ world. picture_held world worker) self.now result.now }
    {
        &*self.held[worker as usize]
    }

    /// Whether a picture in use shows the generation of this number: one that a worker holds, or the last. It looks
    /// two numbers up in each, and goes through no picture.
    pub fn shows(&self, number: Gen) -> bool
        ensures shown { result ≡ is_shown_by number self.now }
        ensures world { IsAnswerOf (λ world. has_number number (numbers_in_use world)) self.now result }
    {
        self.is_shown(number)
    }

    // The same, as contracts see the pictures.
    #[tactic(auto, using(crate::proofs::WorldLemmas::any_mapped))]
    fn is_shown(&self, number: Gen) -> bool
        ensures { result ≡ is_shown_by number self.now }
    {
        any_shows(self.held.as_slice(), number) || shows(&self.last, number)
    }

    /// The version of a picture in use that shows the generation of this number, where one does: of one that a worker
    /// holds, or else of the last. It looks two numbers up in each, and goes through no picture.
    pub fn shown_in(&self, number: Gen) -> Option<u64>
        ensures { result ≡ version_showing number self.now }
    {
        match first_showing(self.held.as_slice(), number) {
            Some(snapshot) => Some(snapshot.version()),
            None => version_where(&self.last, number),
        }
    }

    /// The version of the picture that a worker gives up where it settles. There is none where it holds the last one
    /// already.
    pub fn leaving(&self, worker: u32) -> Option<u64>
        requires known { worker < length self.now.held }
        ensures none { IfNone result (slice_get self.now.held worker ≡ Some self.now.last) }
        ensures last { version_held worker self.now ≡ Some self.now.last.version → result ≡ None }
        ensures version { IfSome result (λ version. version_held worker self.now ≡ Some version) }
    {
        let version = self.held[worker as usize].version();
        if version == self.last.version() {
            return None;
        }
        Some(version)
    }

    /// The last snapshot, shared. It takes no memory; it is refused where 2^63 - 1 owners hold it already.
    pub fn snapshot(&self) -> Result<Arc<Snapshot>, AllocError>
        ensures last { IfOk result (λ snapshot. arc_value snapshot ≡ self.now.last) }
    {
        Arc::try_clone(&self.last)
    }

    /// The version of the last picture.
    pub fn version(&self) -> u64
        ensures last { result ≡ self.now.last.version }
    {
        self.last.version()
    }
}

// The snapshot for each of this many workers.
#[tactic(auto, using(crate::proofs::WorldLemmas::one_more))]
fn held_by_all(
    alloc: Global,
    snapshot: &Arc<Snapshot>,
    workers: u32,
) -> Result<Vec<Arc<Snapshot>>, AllocError>
    ensures { IfOk result (λ held. map arc_value held.items ≡ replicate workers (arc_value snapshot.now)) }
{
    let mut held = Vec::new(alloc);
    for _ in 0..workers {
        held.push(Arc::try_clone(snapshot)?)?;
    }
    Ok(held)
}

// Whether one of these snapshots shows the generation of this number.
fn any_shows(held: &[Arc<Snapshot>], number: Gen) -> bool
    ensures { result ≡ list_any (λ s. is_shown_in number (arc_value s)) held.now }
{
    held.iter().any(|snapshot| shows(snapshot, number))
}

// The first of these snapshots that shows the generation of this number.
fn first_showing(held: &[Arc<Snapshot>], number: Gen) -> Option<&Arc<Snapshot>>
    ensures { option_copied result ≡ find (λ s. is_shown_in number (arc_value s)) held.now }
{
    held.iter().find(|snapshot| shows(snapshot, number))
}

// The version of a snapshot, where it shows the generation of this number.
fn version_where(snapshot: &Arc<Snapshot>, number: Gen) -> Option<u64>
    ensures { result ≡ version_where number (arc_value snapshot.now) }
{
    if shows(snapshot, number) {
        return Some(snapshot.version());
    }
    None
}

// Whether a snapshot shows the generation of this number.
fn shows(snapshot: &Arc<Snapshot>, number: Gen) -> bool
    ensures { result ≡ is_shown_in number (arc_value snapshot.now) }
{
    snapshot.shows(number)
}
