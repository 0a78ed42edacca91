ghost use Rattle.std.specs.Prelude.{◌≡◌, ◌++◌, OnOk};
ghost use Rattle.ev_types.specs.declared.contents.Kind.TheVariants.{Cds};
ghost use Rattle.ev_lookups.specs.Keys.{named};
ghost use Rattle.ev_indexes.specs.Indexes.{numbers_where, serves};
ghost use Rattle.ev_managers.specs.Managers.{AreManagersKept};
ghost use Rattle.ev_state.specs.Changed.{dependents_in, dependents_of, listeners_begun};

use crate::state::State;
use ev_indexes::put_all;
use ev_types::{Gen, Kind, Name, Phase, Response, Seq};
use std::alloc::{AllocError, Global};

impl State {
    /// Adds the numbers of the live generations that depend on this name of a kind to the others.
    pub(crate) fn put_dependents(
        &self,
        kind: Kind,
        name: &str,
        changed: &mut Seq<Gen>,
    ) -> Result<(), AllocError>
        requires kept { AreManagersKept self.now.managers }
        ensures { OnOk result (changed.new ≡ changed.old
            ++ dependents_in self.now.managers.core.state kind name.now) }
    {
        self.managers.core.state.put_dependents(kind, name, changed)
    }

    /// The same for the name of each resource of a response of this kind.
    pub(crate) fn put_all_dependents(
        &self,
        kind: Kind,
        response: &Response,
        changed: &mut Seq<Gen>,
    ) -> Result<(), AllocError>
        requires kept { AreManagersKept self.now.managers }
        ensures { OnOk result (changed.new ≡ changed.old ++ dependents_of self.now.managers.core.state
            kind response.now.items) }
    {
        for item in response.items.as_slice() {
            self.put_dependents(kind, item.name.as_str(), changed)?;
        }
        Ok(())
    }

    /// Adds the number of the cluster that serves this name to the others, where there is one.
    pub(crate) fn put_active(&self, name: &Name, changed: &mut Seq<Gen>) -> Result<(), AllocError>
        requires kept { AreManagersKept self.now.managers }
        ensures { OnOk result (changed.new ≡ changed.old
            ++ numbers_where (serves (named Cds name.now)) self.now.managers.core.state.table.rows) }
    {
        if let Some(number) = self
            .managers
            .core
            .state
            .names
            .standing(Kind::Cds, name)
            .active
        {
            changed.push(number)?;
        }
        Ok(())
    }

    /// Adds the numbers of the live listeners to the others, where listeners serve now and didn't in the phase before.
    pub(crate) fn put_listeners(
        &self,
        alloc: Global,
        before: Phase,
        changed: &mut Seq<Gen>,
    ) -> Result<(), AllocError>
        ensures { OnOk result (changed.new ≡ changed.old
            ++ listeners_begun before self.now.targets.phase self.now.managers.core.state) }
    {
        match (before, self.targets.phase()) {
            (Phase::Clusters | Phase::Listeners, Phase::Serving) => {
                let numbers = self.managers.core.state.numbers_live(alloc, Kind::Lds)?;
                put_all(changed, numbers.as_slice())
            }
            _ => Ok(()),
        }
    }
}
