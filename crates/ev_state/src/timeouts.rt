ghost use Rattle.std.specs.Prelude.{◌≡◌, true, IfOk};
ghost use Rattle.ev_model.specs.Signals.{clusters_timeout, fetch_timeout, listeners_timeout, name_timeout};
ghost use Rattle.ev_types.specs.Kinds.{is_by_name};
ghost use Rattle.ev_managers.specs.Managers.{AreForgotten, AreManagersKept};
ghost use Rattle.ev_state.specs.States.{StepBy};

use crate::state::State;
use ev_indexes::Steps;
use ev_managers::Moved;
use ev_types::{Answer, Arrival, FetchTimeout, Kind, Name};
use std::alloc::{AllocError, Global};
use std::sync::ledger::Ledger;

impl State {
    /// An initial fetch timeout; where nothing waits for what it is of, nothing is done.
    pub fn fetch_timeout<L: Ledger>(
        &mut self,
        alloc: Global,
        timeout: &FetchTimeout,
        steps: &mut Steps<L>,
    ) -> Result<(Answer, Moved), AllocError>
        requires kept { AreManagersKept self.old.managers }
        requires forgotten { AreForgotten self.old.managers }
        ensures { IfOk result (λ told. StepBy
            (fetch_timeout timeout.now.kind timeout.now.name) self.old self.new told.0 told.1) }
    {
        match (timeout.kind, &timeout.name) {
            (Kind::Cds, _) => self.clusters_timeout(alloc, steps),
            (Kind::Lds, _) => self.listeners_timeout(alloc, steps),
            (kind, Some(name)) => self.name_timeout(alloc, kind, name, steps),
            (_, None) => Ok((Answer::Ignored, Moved::none(alloc))),
        }
    }

    // The fetch timeout of clusters; where a response of them came or they are late already, nothing is done.
    fn clusters_timeout<L: Ledger>(
        &mut self,
        alloc: Global,
        steps: &mut Steps<L>,
    ) -> Result<(Answer, Moved), AllocError>
        requires kept { AreManagersKept self.old.managers }
        requires forgotten { AreForgotten self.old.managers }
        ensures { IfOk result (λ told. StepBy clusters_timeout self.old self.new told.0 told.1) }
    {
        if !self.targets.clusters_timeout() {
            return Ok((Answer::Ignored, Moved::none(alloc)));
        }
        let told = self.finish(alloc, Moved::none(alloc), steps)?;
        Ok(told)
    }

    // The fetch timeout of listeners; the same, and nothing is done also while the first clusters are awaited.
    fn listeners_timeout<L: Ledger>(
        &mut self,
        alloc: Global,
        steps: &mut Steps<L>,
    ) -> Result<(Answer, Moved), AllocError>
        requires kept { AreManagersKept self.old.managers }
        requires forgotten { AreForgotten self.old.managers }
        ensures { IfOk result (λ told. StepBy listeners_timeout self.old self.new told.0 told.1) }
    {
        if !self.targets.listeners_timeout() {
            return Ok((Answer::Ignored, Moved::none(alloc)));
        }
        let told = self.finish(alloc, Moved::none(alloc), steps)?;
        Ok(told)
    }

    // The fetch timeout of a name of a kind that is asked for by name; where no generation waits for it within a
    // limit, nothing is done.
    fn name_timeout<L: Ledger>(
        &mut self,
        alloc: Global,
        kind: Kind,
        name: &Name,
        steps: &mut Steps<L>,
    ) -> Result<(Answer, Moved), AllocError>
        requires kept { AreManagersKept self.old.managers }
        requires forgotten { AreForgotten self.old.managers }
        requires by_name { is_by_name kind ≡ true }
        ensures { IfOk result (λ told. StepBy (name_timeout kind name.now) self.old self.new told.0 told.1) }
    {
        if !self.managers.core.state.timeout_due(kind, name, steps) {
            return Ok((Answer::Ignored, Moved::none(alloc)));
        }
        self.managers
            .arrive(alloc, kind, name, &Arrival::TimedOut, steps)?;
        let told = self.finish(alloc, Moved::none(alloc), steps)?;
        Ok(told)
    }
}
