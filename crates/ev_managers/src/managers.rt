ghost use Rattle.std.specs.Prelude.{true, Some, ◌≡◌, ℕ, List, OnOk};
ghost use Rattle.ev_model.specs.World.{opening};
ghost use Rattle.ev_model.specs.Tidy.{promoted};
ghost use Rattle.ev_indexes.specs.Tables.{row_in};
ghost use Rattle.ev_warming.specs.Changes.{is_over};
ghost use Rattle.ev_warming.specs.Worlds.{without_generation, without_unneeded};
ghost use Rattle.ev_managers.specs.Managers.{AreForgotten, AreManagersKept, StandFor, Follow, is_watched_in};
ghost use Rattle.ev_managers.specs.Moved.{TellsPromoted};

use crate::moved::{Moved, promote};
use ev_indexes::Steps;
use ev_keys::Keys;
use ev_types::{Gen, GenRow, Kind};
use ev_warming::Manager;
use std::alloc::{AllocError, Global};
use std::sync::ledger::Ledger;

/// The cluster manager and the listener manager: what both know is one table, since a secret or an extension may be
/// needed by generations of either, and numbers are allocated from one counter.
/// Once out of memory, it is unspecified of them: their holder makes them anew, out of the journal.
#[derive(Drop)]
pub struct Managers {
    pub core: Manager,
}

impl Managers {
    /// No generation, and nothing known. Their tables hash by these keys. It takes no memory.
    pub fn new(alloc: Global, keys: Keys) -> Managers
        ensures kept { AreManagersKept result }
        ensures forgotten { AreForgotten result }
        ensures stands { (workers : ℕ) (node : List ℕ) → StandFor result (opening workers node) }
    {
        Managers {
            core: Manager::new(alloc, keys),
        }
    }

    /// How many numbers were allocated for generations.
    pub fn made(&self) -> u32
        ensures { result ≡ self.now.core.state.table.made }
    {
        self.core.made()
    }

    /// Whether a live generation depends on this name of a kind.
    pub fn is_watched(&self, kind: Kind, name: &str) -> bool
        requires kept { AreManagersKept self.now }
        ensures rows { result ≡ is_watched_in self.now kind name.now }
    {
        self.core.state.is_watched(kind, name)
    }

    /// Each generation that is due serves, and the one that served its name before it drains. The ones that drain are
    /// put to those that retired, and both to those that changed. Out of memory, it is unspecified.
    pub fn promote<L: Ledger>(
        &mut self,
        alloc: Global,
        moved: &mut Moved,
        steps: &mut Steps<L>,
    ) -> Result<(), AllocError>
        requires kept { AreManagersKept self.old }
        ensures kept { OnOk result (AreManagersKept self.new) }
        ensures told { OnOk result (TellsPromoted self.old.core.state self.new.core.state moved.old moved.new) }
        ensures stands { OnOk result (Follow self.old self.new promoted) }
    {
        promote(&mut self.core, alloc, moved, steps)
    }

    /// Forgets what nobody needs any more. Out of memory, it is unspecified.
    pub fn forget<L: Ledger>(
        &mut self,
        alloc: Global,
        steps: &mut Steps<L>,
    ) -> Result<(), AllocError>
        requires kept { AreManagersKept self.old }
        ensures kept { OnOk result (AreManagersKept self.new) }
        ensures done { OnOk result (AreForgotten self.new) }
        ensures stands { OnOk result (Follow self.old self.new without_unneeded) }
    {
        self.core.forget(alloc, steps)
    }

    /// Takes out and returns a generation that drains or was dropped, once all is forgotten that nobody needs. It takes
    /// no memory.
    pub fn remove(&mut self, number: Gen) -> GenRow
        requires kept { AreManagersKept self.old }
        requires forgotten { AreForgotten self.old }
        requires over { is_over (row_in number self.old.core.state.table.rows) ≡ true }
        ensures row { row_in number self.old.core.state.table.rows ≡ Some result }
        ensures kept { AreManagersKept self.new }
        ensures forgotten { AreForgotten self.new }
        ensures stands { Follow self.old self.new (without_generation number) }
    {
        self.core.remove(number)
    }
}
