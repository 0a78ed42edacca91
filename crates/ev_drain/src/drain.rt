ghost use Rattle.std.specs.Prelude.{◌≡◌, ℕ, false, not, [], filter, map, OnOk, OnErr, IfOk};
ghost use Rattle.std.specs.List.{list_any};
ghost use Rattle.ev_drain.specs.Notes.{row_of};
ghost use Rattle.ev_drain.specs.Retired.{newly_retired, is_numbered, has_row, kind_of_row, is_expired, is_waiting, numbers_waiting, marked, dead_of, is_dead_in, retired_status, with_row, HasRetired};
ghost use Rattle.ev_drain.specs.Waiters.{AreAmong};
ghost use Rattle.ev_drain.specs.Worlds.{AreDeadNumbers, Expires, IsAnswerOf, Removes, Retires, has_unexpired};

use crate::dead::{dead_notes, nothing_holds};
use crate::notes::{Note, Notes, is_waiting, kind_of, mark, put};
use crate::shown::Shows;
use crate::waiters::Waiters;
use ev_keys::Keys;
use ev_ledger::Ledger;
use ev_types::{Format, Gen, Kind, Name, RowStatus, Shared, TryCopy};
use std::alloc::{AllocError, Global};
use std::collections::BTreeMap;
use std::marker::Model;

/// The generations that drain or were dropped, seen by contracts in the order of their numbers.
#[derive(Drop)]
pub struct Drain {
    notes: Notes,
    // By name the numbers of the listeners among them that wait for their drain timeout.
    // One that waits for nothing does no harm.
    waiters: Waiters,
}

impl Model for Drain {
    ghost use Rattle.std.specs.Prelude.{List};
    ghost use Rattle.ev_drain.specs.Retired.{Retired};

    ghost Value = { List Retired };

    ghost use Rattle.ev_drain.specs.Notes.{rows_of};
    ghost use Rattle.ev_drain.specs.Waiters.{HaveWaiters};

    ghost view = { λ d. rows_of d.notes.entries };

    ghost invariant = { λ d. HaveWaiters d.waiters (rows_of d.notes.entries) };
}

impl Drain {
    /// No generation drains. Names hash by these keys. It takes no memory.
    pub fn new(alloc: Global, keys: Keys) -> Drain
        ensures empty { result ≡ [] }
        ensures world { HasRetired result [] [] }
    {
        Drain {
            notes: BTreeMap::new(alloc),
            waiters: Waiters::new(alloc, keys),
        }
    }

    /// Notes a generation that drains from now on, or was dropped.
    /// It takes the memory for its mark too. Out of memory, all stays as it was.
    pub fn retire(
        &mut self,
        alloc: Global,
        kind: Kind,
        number: Gen,
        name: &Name,
        dropped: bool,
    ) -> Result<(), AllocError>
        requires absent { has_row self.old number ≡ false }
        ensures retired { OnOk result (self.new ≡ with_row (newly_retired kind number name.now dropped) self.old) }
        ensures world { OnOk result (Retires kind number name.now dropped self.old self.new) }
        ensures err { OnErr result (self.new ≡ self.old) }
    {
        let Ok(note) = new_note(alloc, kind, name, dropped) else {
            return Err(AllocError);
        };
        // The number goes first: without its note it waits for nothing.
        let Ok(_) = self
            .waiters
            .await_timeout(alloc, kind, number, name, dropped)
        else {
            return Err(AllocError);
        };
        let Ok(_) = put(&mut self.notes, number, note) else {
            return Err(AllocError);
        };
        Ok(())
    }

    /// The kind of a generation that was retired, and not removed since. It takes no memory.
    pub fn kind(&self, number: Gen) -> Option<Kind>
        ensures kind { result ≡ kind_of_row self.now number }
    {
        match self.notes.get(&number) {
            Some(note) => Some(kind_of(note)),
            None => None,
        }
    }

    /// Whether the drain timeout of a generation came. It takes no memory.
    pub fn expired(&self, number: Gen) -> bool
        ensures expired { result ≡ is_expired self.now number }
    {
        match self.notes.get(&number) {
            Some(note) => note.expired,
            None => false,
        }
    }

    /// The drain timeout of a listener's old generations: it came for those of this name that drain.
    /// It returns whether there was one for which it hadn't come.
    /// It takes no memory, and looks at those alone that wait under this name.
    pub fn expire(&mut self, name: &Name) -> bool
        ensures answer { result ≡ list_any (is_waiting name.now) self.old }
        ensures marked { self.new ≡ map (marked name.now) self.old }
        ensures answer_by_world { IsAnswerOf (has_unexpired name.now) self.old result }
        ensures world { Expires name.now self.old self.new }
    {
        // They are in the order of their numbers.
        let _ = self.notes.len();
        let Some(numbers) = self.waiters.take(name) else {
            return false;
        };
        mark(&mut self.notes, name.as_str(), numbers.as_slice())
    }

    /// Numbers of generations among which are all draining listeners of this name
    /// whose drain timeout hasn't come. They are lent:
    /// it takes no memory, and walks nothing.
    pub fn waiting(&self, name: &Name) -> &[Gen]
        ensures waiting { AreAmong (numbers_waiting name.now self.now) result.now }
    {
        self.waiters.under(name)
    }

    /// The numbers of the generations that nothing holds any more, from the least,
    /// by a journal's format: `ledger` has the open connections, and `shown` says what pictures in use show.
    /// It asks both by number, and looks at no connection.
    pub fn dead<S: Shows>(
        &self,
        alloc: Global,
        format: Format,
        ledger: &Ledger,
        shown: &S,
    ) -> Result<Vec<Gen>, AllocError>
        ensures dead { IfOk result (λ dead. dead.items ≡ dead_of format (S.has shown.now) ledger.now self.now) }
        ensures world { IfOk result (λ dead. AreDeadNumbers format (S.has shown.now) ledger.now self.now dead.items) }
    {
        dead_notes(alloc, &self.notes, format, ledger, shown)
    }

    /// Whether nothing holds a generation any more that was retired, and not removed since;
    /// the rest is as in `dead`. It looks at no other generation, and takes no memory.
    pub fn is_dead<S: Shows>(&self, format: Format, ledger: &Ledger, shown: &S, number: Gen) -> bool
        ensures dead { result ≡ is_dead_in format (S.has shown.now) ledger.now number self.now }
    {
        // They are in the order of their numbers.
        let _ = self.notes.len();
        match self.notes.get(&number) {
            Some(note) => nothing_holds(format, ledger, shown, number, note),
            None => false,
        }
    }

    /// Takes a generation out. It takes no memory, and is a look-up;
    /// of a listener that still waits for its drain timeout it goes over the numbers of those
    /// that wait under its name, to take its own out.
    pub fn remove(&mut self, number: Gen)
        ensures removed { self.new ≡ filter (λ row. not (is_numbered number row)) self.old }
        ensures world { Removes number self.old self.new }
    {
        // They are in the order of their numbers.
        let _ = self.notes.len();
        let Some(note) = self.notes.remove(&number) else {
            return;
        };
        if is_waiting(&note) {
            self.waiters.leave(note.name.get(), number);
        }
    }
}

// What is noted of a row that is retired now.
fn new_note(alloc: Global, kind: Kind, name: &Name, dropped: bool) -> Result<Note, AllocError>
    ensures { IfOk result (λ note. (number : ℕ) → row_of (number, note) ≡ newly_retired kind number name.now dropped) }
{
    Ok(Note {
        kind,
        name: Shared::new(alloc, name.copy(alloc)?)?,
        status: status_of(dropped),
        expired: false,
    })
}

// The status of a row that was retired.
fn status_of(dropped: bool) -> RowStatus
    ensures { result ≡ retired_status dropped }
{
    if dropped {
        RowStatus::Dropped
    } else {
        RowStatus::Draining
    }
}
