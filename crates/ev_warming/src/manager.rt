//! A manager, and what happens to it by single names.

ghost use Rattle.std.specs.Prelude.{◌≡◌, ℕ, ◌+◌, ◌*◌, ◌≤◌, [], ◌++◌, List, true, length, IfOk, OnOk};
ghost use Rattle.std.specs.List.{list_any};
ghost use Rattle.ev_model.specs.World.{opening};
ghost use Rattle.ev_model.specs.Tidy.{promoted};
ghost use Rattle.ev_lookups.specs.Keys.{named};
ghost use Rattle.ev_indexes.specs.Indexes.{depends_on, numbers_waiting};
ghost use Rattle.ev_indexes.specs.Worlds.{HasRows};
ghost use Rattle.ev_warming.specs.Arrivals.{with_arrived};
ghost use Rattle.ev_warming.specs.Changes.{AreDue, BeganToDrain, CameToServe, EndsRows, ServesName, WarmsUnder, WatchesTheSame, watchers_in};
ghost use Rattle.ev_warming.specs.Worlds.{Follows, with_rows_ended, without_unneeded};

use crate::changes::{self, Promoted, put_one};
use crate::forgetting::forget;
use ev_indexes::{Standing, State, Steps, put_all};
use ev_keys::Keys;
use ev_types::{Arrival, Gen, Kind, Name, Seq};
use std::alloc::{AllocError, Global};
use std::mem;
use std::sync::ledger::Ledger;

/// The core of the managers: the generations of clusters and of listeners with their indexes, and the numbers of those
/// that the next forgetting looks at, since they retired or their assignment may have changed. A call says what holds
/// after it; out of memory, the manager is unspecified, and its holder makes it anew, out of the journal.
#[derive(Drop)]
pub struct Manager {
    pub state: State,
    pub stale: Seq<Gen>,
}

impl Manager {
    ghost use Rattle.ev_warming.specs.Managers.{IsKept};

    /// No generation, and nothing known. Its tables hash by these keys. It takes no memory, and stands
    /// for every world in which nothing happened.
    pub fn new(alloc: Global, keys: Keys) -> Manager
        ensures kept { IsKept result }
        ensures done { result.stale ≡ [] }
        ensures made { result.state.table.made ≡ 0 }
        ensures stands { (workers : ℕ) (node : List ℕ) → HasRows result.state (opening workers node) }
    {
        Manager {
            state: State::new(alloc, keys),
            stale: Seq::new(alloc),
        }
    }

    /// Something was received for a name of a kind that a live generation depends on.
    /// Each that depends on it is looked at once for each way in which it waits. Out of memory, it is unspecified.
    pub fn arrive<L: Ledger>(
        &mut self,
        alloc: Global,
        kind: Kind,
        name: &Name,
        arrival: &Arrival,
        steps: &mut Steps<L>,
    ) -> Result<(), AllocError>
        requires kept { IsKept self.old }
        requires watched { list_any (depends_on (named kind name.now)) self.old.state.table.rows ≡ true }
        ensures kept { OnOk result (IsKept self.new) }
        ensures table { OnOk result (self.new.state.table ≡ self.old.state.table) }
        ensures steps { OnOk result (steps.new ≡ steps.old
            + length (numbers_waiting self.old.state.table.rows (named kind name.now))) }
        // Whatever world the manager represented, it represents that world with the arrival.
        ensures stands { OnOk result (Follows self.old.state self.new.state
            (with_arrived kind arrival.now name.now)) }
    {
        self.touch(kind, name)?;
        changes::arrive(&mut self.state, alloc, kind, name, arrival, steps)
    }

    // The next forgetting looks at the generations that depend on a name.
    fn touch(&mut self, kind: Kind, name: &Name) -> Result<(), AllocError>
        ensures { OnOk result (self.new
            ≡ record self.old { stale = self.old.stale ++ watchers_in self.old.state (named kind name.now) }) }
    {
        let Some(watch) = self.state.watches.get(kind, name) else {
            return Ok(());
        };
        watch.put_watchers(&mut self.stale)
    }

    /// What a name of a kind represents has come to its end, or is removed: the generation that warms under it is
    /// dropped, and the one that serves it drains; these are the answer. It costs at most two look-ups. Out of memory,
    /// it is unspecified.
    pub fn end<L: Ledger>(
        &mut self,
        kind: Kind,
        name: &Name,
        steps: &mut Steps<L>,
    ) -> Result<Standing, AllocError>
        requires kept { IsKept self.old }
        ensures kept { OnOk result (IsKept self.new) }
        ensures drains { IfOk result (λ ended. ServesName ended.active (named kind name.now) self.old.state) }
        ensures dropped { IfOk result (λ ended. WarmsUnder ended.warming (named kind name.now) self.old.state) }
        ensures rows { OnOk result (EndsRows self.old.state self.new.state kind name.now) }
        ensures made { OnOk result (self.new.state.table.made ≡ self.old.state.table.made) }
        ensures steps { OnOk result (steps.new ≤ steps.old + 2) }
        // Whatever world the manager represented, it represents that world where the name has come to its end.
        ensures stands { OnOk result (Follows self.old.state self.new.state
            (with_rows_ended kind name.now)) }
    {
        let ended = self.state.names.standing(kind, name);
        put_one(&mut self.stale, &ended.warming)?;
        put_one(&mut self.stale, &ended.active)?;
        changes::end(&mut self.state, kind, name, steps);
        Ok(ended)
    }

    /// Each generation that is due serves, and the one that served its name before it drains. Answers the numbers of
    /// both. Each of the first costs at most three look-ups. Out of memory, it is unspecified.
    pub fn promote<L: Ledger>(
        &mut self,
        alloc: Global,
        steps: &mut Steps<L>,
    ) -> Result<Promoted, AllocError>
        requires kept { IsKept self.old }
        ensures kept { OnOk result (IsKept self.new) }
        ensures served { IfOk result (λ promoted. AreDue promoted.served self.old.state) }
        ensures began { IfOk result (λ promoted. CameToServe promoted.served self.old.state self.new.state) }
        ensures drained { IfOk result (λ promoted. BeganToDrain promoted.drained self.old.state self.new.state) }
        ensures made { OnOk result (self.new.state.table.made ≡ self.old.state.table.made) }
        // Where none began to drain, the same names are watched as before.
        ensures watched { IfOk result (λ promoted. WatchesTheSame promoted.drained self.old.state self.new.state) }
        ensures steps { IfOk result (λ promoted. steps.new ≤ steps.old + 3 * length promoted.served) }
        // Whatever world the manager represented, it represents that world with all that are due promoted.
        ensures stands { OnOk result (Follows self.old.state self.new.state promoted) }
    {
        let promoted = changes::promote(&mut self.state, alloc, steps)?;
        put_all(&mut self.stale, promoted.drained.as_slice())?;
        Ok(promoted)
    }

    /// After an event: forgets what nobody needs any more, of names, of generations that retired, and of hosts that
    /// left their cluster's assignment. Out of memory, it is unspecified.
    pub fn forget<L: Ledger>(
        &mut self,
        alloc: Global,
        steps: &mut Steps<L>,
    ) -> Result<(), AllocError>
        requires kept { IsKept self.old }
        ensures kept { OnOk result (IsKept self.new) }
        ensures done { OnOk result (self.new.stale ≡ []) }
        ensures table { OnOk result (self.new.state.table ≡ self.old.state.table) }
        ensures steps { OnOk result (steps.new ≡ steps.old + length self.old.stale) }
        // Whatever world the manager represented, it represents that world once the machine has forgotten.
        ensures stands { OnOk result (Follows self.old.state self.new.state without_unneeded) }
    {
        let stale = mem::replace(&mut self.stale, Seq::new(alloc));
        forget(&mut self.state, alloc, stale.as_slice(), steps)
    }
}
