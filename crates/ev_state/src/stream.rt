ghost use Rattle.std.specs.Prelude.{◌≡◌, IfOk};
ghost use Rattle.ev_model.specs.Phase.{is_clusters};
ghost use Rattle.ev_model.specs.World.{World};
ghost use Rattle.ev_model.specs.Requests.{connect_requests};
ghost use Rattle.ev_model.specs.Watching.{watched_of};
ghost use Rattle.ev_subscription.specs.Asked.{names_by};
ghost use Rattle.ev_model.specs.Step.{connect, disconnect};
ghost use Rattle.ev_managers.specs.Managers.{AreForgotten, AreManagersKept, StandFor};
ghost use Rattle.ev_state.specs.States.{HasWorld, StepBy};

use crate::state::State;
use ev_indexes::Steps;
use ev_managers::Moved;
use ev_subscription::{WatchedNames, kinds_before, kinds_behind};
use ev_types::{Answer, Kind, Phase, Request, Seq};
use std::alloc::{AllocError, Global};
use std::sync::ledger::Ledger;

impl State {
    /// A stream opens; where one is open already, nothing is done.
    pub fn connect<L: Ledger>(
        &mut self,
        alloc: Global,
        steps: &mut Steps<L>,
    ) -> Result<(Answer, Moved), AllocError>
        requires kept { AreManagersKept self.old.managers }
        requires forgotten { AreForgotten self.old.managers }
        ensures { IfOk result (λ told. StepBy connect self.old self.new told.0 told.1) }
    {
        if self.subscription.is_open() {
            return Ok((Answer::Ignored, Moved::none(alloc)));
        }
        let requests = self.asked_at_first(alloc)?;
        self.subscription.set_stream(true);
        let made = self.managers.made();
        let mut moved = Moved::none(alloc);
        self.tidy(alloc, made, &mut moved, steps)?;
        Ok((Answer::Moved { requests }, moved))
    }

    // What is asked for as a stream opens. It goes over all generations, for the names that they depend on.
    fn asked_at_first(&self, alloc: Global) -> Result<Seq<Request>, AllocError>
        requires kept { AreManagersKept self.now.managers }
        ensures { IfOk result (λ requests. (world : World) → HasWorld self.now world
            → requests ≡ connect_requests world) }
    {
        let before = self.watched_names(alloc, &kinds_before())?;
        let behind = self.watched_names(alloc, &kinds_behind())?;
        let asked = !self.awaits_clusters();
        let requests = self.subscription.connect(alloc, &before, &behind, asked)?;
        Ok(requests)
    }

    // The names of each of these kinds that are watched, kind after kind. It goes over all generations once for each.
    fn watched_names(&self, alloc: Global, kinds: &[Kind]) -> Result<Seq<WatchedNames>, AllocError>
        ensures { IfOk result (λ watched. (world : World) → StandFor self.now.managers world
            → watched ≡ names_by kinds.now (watched_of world)) }
    {
        let mut watched = Vec::new(alloc);
        for kind in kinds {
            let names = self.managers.core.state.watched(alloc, *kind)?;
            watched.push(WatchedNames { kind: *kind, names })?;
        }
        Ok(Seq::from_vec(watched))
    }

    // Whether the first clusters are awaited.
    fn awaits_clusters(&self) -> bool
        ensures { result ≡ is_clusters self.now.targets.phase }
    {
        match self.targets.phase() {
            Phase::Clusters => true,
            Phase::Listeners | Phase::Serving => false,
        }
    }

    /// The stream is lost; where none is open, nothing is done.
    pub fn disconnect<L: Ledger>(
        &mut self,
        alloc: Global,
        steps: &mut Steps<L>,
    ) -> Result<(Answer, Moved), AllocError>
        requires kept { AreManagersKept self.old.managers }
        requires forgotten { AreForgotten self.old.managers }
        ensures { IfOk result (λ told. StepBy disconnect self.old self.new told.0 told.1) }
    {
        if !self.subscription.is_open() {
            return Ok((Answer::Ignored, Moved::none(alloc)));
        }
        self.subscription.set_stream(false);
        let made = self.managers.made();
        let mut moved = Moved::none(alloc);
        self.tidy(alloc, made, &mut moved, steps)?;
        Ok((Answer::Done, moved))
    }
}
