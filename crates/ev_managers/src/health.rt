ghost use Rattle.std.specs.Prelude.{IfOk, OnOk};
ghost use Rattle.ev_warming.specs.Worlds.{means_something, with_result};
ghost use Rattle.ev_managers.specs.Managers.{AreForgotten, AreManagersKept, AnswerFor, Follow};

use crate::Managers;
use ev_indexes::Steps;
use ev_types::{Host, Name};
use std::alloc::{AllocError, Global};
use std::sync::ledger::Ledger;

impl Managers {
    /// A health result of a host of a cluster; of listeners there are none. Answers whether it is for a generation;
    /// where it is for none, all stays as it was. Out of memory, it is unspecified.
    pub fn health<L: Ledger>(
        &mut self,
        alloc: Global,
        cluster: &Name,
        host: &Host,
        healthy: bool,
        steps: &mut Steps<L>,
    ) -> Result<bool, AllocError>
        requires kept { AreManagersKept self.old }
        ensures kept { OnOk result (AreManagersKept self.new) }
        // Nothing becomes such that nobody needs it.
        ensures forgotten { OnOk result (AreForgotten self.old → AreForgotten self.new) }
        ensures stands { OnOk result (Follow self.old self.new (with_result cluster.now host.now healthy)) }
        ensures ignored { IfOk result (λ meant. AnswerFor self.old meant (means_something cluster.now host.now)) }
    {
        self.core.note(alloc, cluster, host, healthy, steps)
    }
}
