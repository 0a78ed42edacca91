ghost use Rattle.std.specs.Prelude.{◌≡◌, option_copied, IfOk};
ghost use Rattle.ev_model.specs.World.{World};
ghost use Rattle.ev_indexes.specs.Tables.{row_in};
ghost use Rattle.ev_indexes.specs.Shown.{cluster_at, listener_at};
ghost use Rattle.ev_managers.specs.Managers.{AreForgotten, AreManagersKept};

use crate::state::State;
use ev_hosts::ShownCluster;
use ev_model::ServedListener;
use ev_types::{Gen, GenRow, Phase};
use std::alloc::{AllocError, Global};

impl State {
    ghost use Rattle.ev_state.specs.States.{ManagesAt};

    /// How many numbers were allocated for generations.
    pub fn made(&self) -> u32
        ensures { (world : World) → ManagesAt self.now world → result ≡ world.made }
    {
        self.managers.made()
    }

    /// How far the proxy has booted.
    pub fn phase(&self) -> Phase
        ensures { (world : World) → ManagesAt self.now world → result ≡ world.phase }
    {
        self.targets.phase()
    }

    /// The generation of this number. It costs a look-up.
    pub fn row(&self, number: Gen) -> Option<&GenRow>
        ensures { (world : World) → ManagesAt self.now world → option_copied result ≡ row_in number world.rows }
    {
        self.managers.core.state.table.get(number)
    }

    /// What a picture shows of the cluster of this number now: where it is active, its hosts that may be chosen. It
    /// costs a look-up of the number; and where its rows are marked, a copy of the marks, else a look-up of the name
    /// that the cluster depends on, and of each of its hosts.
    pub fn cluster(&self, alloc: Global, number: Gen) -> Result<Option<ShownCluster>, AllocError>
        requires kept { AreManagersKept self.now.managers }
        requires forgotten { AreForgotten self.now.managers }
        ensures { IfOk result (λ served. (world : World) → ManagesAt self.now world
            → served ≡ cluster_at world number) }
    {
        let served = self.managers.core.state.cluster(alloc, number)?;
        Ok(served)
    }

    /// What a picture shows of the listener of this number now: nothing before listeners serve, and then, where it is
    /// active, its chains with their routes and targets. It costs a look-up of the number, and one of each name that
    /// the listener depends on.
    pub fn listener(&self, alloc: Global, number: Gen) -> Result<Option<ServedListener>, AllocError>
        requires kept { AreManagersKept self.now.managers }
        ensures { IfOk result (λ served. (world : World) → ManagesAt self.now world
            → served ≡ listener_at world number) }
    {
        match self.targets.phase() {
            Phase::Serving => {
                let served = self.managers.core.state.listener(alloc, number)?;
                Ok(served)
            }
            Phase::Clusters | Phase::Listeners => Ok(None),
        }
    }
}
