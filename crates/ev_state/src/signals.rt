ghost use Rattle.std.specs.Prelude.{◌≡◌, IfOk};
ghost use Rattle.ev_model.specs.Signals.{health, ttl_expired};
ghost use Rattle.ev_managers.specs.Managers.{AreForgotten, AreManagersKept};
ghost use Rattle.ev_state.specs.States.{StepBy};
ghost use Rattle.ev_state.specs.Moves.{MovesOn};

use crate::state::State;
use ev_indexes::Steps;
use ev_managers::Moved;
use ev_types::{Answer, Host, Kind, Name, Seq};
use std::alloc::{AllocError, Global};
use std::sync::ledger::Ledger;

impl State {
    /// An event that allocated no number, and moved these, has led here: what follows it by itself follows, and its
    /// requests are sent.
    pub(crate) fn finish<L: Ledger>(
        &mut self,
        alloc: Global,
        mut moved: Moved,
        steps: &mut Steps<L>,
    ) -> Result<(Answer, Moved), AllocError>
        requires kept { AreManagersKept self.old.managers }
        ensures { IfOk result (λ told. MovesOn self.old self.new moved told.0 told.1) }
    {
        let made = self.managers.made();
        let asked = self.tidy(alloc, made, &mut moved, steps)?;
        let requests = self
            .subscription
            .requests_after(alloc, None, asked.before, asked.behind, asked.left)?;
        Ok((Answer::Moved { requests }, moved))
    }

    /// A health result of a cluster's host; where it is for no generation, nothing is done. A picture may show
    /// something else only where the host was not as healthy before.
    pub fn health<L: Ledger>(
        &mut self,
        alloc: Global,
        cluster: &Name,
        host: &Host,
        healthy: bool,
        steps: &mut Steps<L>,
    ) -> Result<(Answer, Moved), AllocError>
        requires kept { AreManagersKept self.old.managers }
        requires forgotten { AreForgotten self.old.managers }
        ensures { IfOk result (λ told. StepBy (health cluster.now host.now healthy) self.old self.new told.0 told.1) }
    {
        let known = &self.managers.core.state;
        let same = known.is_as_healthy(cluster, host, healthy);
        if !self.managers.health(alloc, cluster, host, healthy, steps)? {
            return Ok((Answer::Ignored, Moved::none(alloc)));
        }
        let mut changed = Seq::new(alloc);
        if !same {
            self.put_active(cluster, &mut changed)?;
        }
        let moved = Moved::of(Seq::new(alloc), changed)?;
        let told = self.finish(alloc, moved, steps)?;
        Ok(told)
    }

    /// The end of a time to live; where the resource's life isn't bounded, nothing is done.
    pub fn ttl_expired<L: Ledger>(
        &mut self,
        alloc: Global,
        kind: Kind,
        name: &Name,
        steps: &mut Steps<L>,
    ) -> Result<(Answer, Moved), AllocError>
        requires kept { AreManagersKept self.old.managers }
        requires forgotten { AreForgotten self.old.managers }
        ensures { IfOk result (λ told. StepBy (ttl_expired kind name.now) self.old self.new told.0 told.1) }
    {
        if !self.subscription.is_bounded(kind, name.as_str()) {
            return Ok((Answer::Ignored, Moved::none(alloc)));
        }
        self.subscription.forget(kind, name.as_str());
        let mut changed = Seq::new(alloc);
        self.put_dependents(kind, name.as_str(), &mut changed)?;
        let retired = self.managers.end(alloc, kind, name, steps)?;
        let moved = Moved::of(retired, changed)?;
        let told = self.finish(alloc, moved, steps)?;
        Ok(told)
    }
}
