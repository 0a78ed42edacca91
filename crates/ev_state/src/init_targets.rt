ghost use Rattle.std.specs.Prelude.{◌≡◌, ◌&&◌, not, ℕ, List, true, length, if◌then◌else◌, OnOk};
ghost use Rattle.ev_model.specs.World.{opening};
ghost use Rattle.ev_model.specs.Phase.{have_come, is_clusters, listeners_phase, phase_from};
ghost use Rattle.ev_indexes.specs.Indexes.{IsIndexed};
ghost use Rattle.ev_state.specs.InitTargets.{HaveBooted, InWorlds, StandAfter, MoveOn, awaits_clusters, awaits_listeners, clusters_come, listeners_come, with_late_clusters, with_late_listeners, with_first_made};

use crate::first::First;
use ev_indexes::State;
use ev_types::{Kind, Phase, Response, Verdict};
use std::alloc::{AllocError, Global};
use std::marker::Model;

/// How far the proxy has booted.
#[derive(Drop)]
pub struct InitTargets {
    phase: Phase,
    clusters: First,
    listeners: First,
}

impl Model for InitTargets {
    ghost use Rattle.ev_state.specs.InitTargets.{InitTargetsParts};

    ghost Value = { InitTargetsParts };

    ghost view = { λ t. record {
      phase = t.phase;
      first_clusters = t.clusters.names;
      first_listeners = t.listeners.names;
      late_clusters = t.clusters.late;
      late_listeners = t.listeners.late;
    } };
}

impl InitTargets {
    /// Nothing came yet, and the first clusters are awaited.
    pub fn new() -> InitTargets
        ensures { (workers : ℕ) (node : List ℕ) → HaveBooted result (opening workers node) }
    {
        InitTargets {
            phase: Phase::Clusters,
            clusters: First::new(),
            listeners: First::new(),
        }
    }

    /// How far the proxy has booted.
    pub fn phase(&self) -> Phase
        ensures value { result ≡ self.now.phase }
        ensures world { InWorlds self.now (λ world. result ≡ world.phase) }
    {
        self.phase
    }

    /// A response of this kind made generations by these verdicts: the first one of clusters, and of listeners, is
    /// noted by their names. Out of memory, it is unspecified.
    pub fn note_first(
        &mut self,
        alloc: Global,
        kind: Kind,
        response: &Response,
        verdicts: &[Verdict],
    ) -> Result<(), AllocError>
        requires one_each { length verdicts.now ≡ length response.now.items }
        // Whatever world it represented, it represents that world with the names noted.
        ensures stands { OnOk result (StandAfter (with_first_made kind verdicts.now response.now) self.old self.new) }
    {
        match kind {
            Kind::Cds => self.clusters.note(alloc, response, verdicts),
            Kind::Lds => self.listeners.note(alloc, response, verdicts),
            _ => Ok(()),
        }
    }

    /// The fetch timeout of clusters: they are late from now on. It is ignored, which the answer says, where a response
    /// of them came or they are late already.
    pub fn clusters_timeout(&mut self) -> bool
        ensures late { self.new ≡ (if result then record self.old { late_clusters = true } else self.old) }
        ensures heard { InWorlds self.old (λ world. result ≡ awaits_clusters world) }
        // Whatever world it represented, it represents that world with the mark, where the timeout isn't ignored.
        ensures stands { StandAfter (with_late_clusters result) self.old self.new }
    {
        self.clusters.time_out()
    }

    /// The fetch timeout of listeners: the same, and it is ignored also while the first clusters are awaited.
    pub fn listeners_timeout(&mut self) -> bool
        ensures late { self.new ≡ (if result then record self.old { late_listeners = true } else self.old) }
        ensures heard { InWorlds self.old (λ world. result ≡ awaits_listeners world) }
        // Whatever world it represented, it represents that world with the mark, where the timeout isn't ignored.
        ensures stands { StandAfter (with_late_listeners result) self.old self.new }
    {
        if let Phase::Clusters = self.phase {
            return false;
        }
        self.listeners.time_out()
    }

    /// The phase moves on as far as what came allows: where the first clusters have come, listeners are awaited, and
    /// where the first listeners have come, they serve. Answers whether listeners are awaited from now on, or serve,
    /// and weren't before. While a name that was seen waiting still waits, it costs one look-up.
    pub fn advance(&mut self, known: &State) -> bool
        requires indexed { IsIndexed known.now }
        ensures phase { self.new ≡ record self.old {
          phase = phase_from
              (clusters_come self.old known.now)
              (listeners_come self.old known.now) self.old.phase;
        } }
        ensures left { result ≡ (is_clusters self.old.phase && not (is_clusters self.new.phase)) }
        // Whatever world both represented, it represents that world in the phase that follows.
        ensures stands { MoveOn known.now self.old self.new }
    {
        let before = self.phase;
        self.phase = self.phase_after(known);
        is_clusters(before) && !is_clusters(self.phase)
    }

    // The phase that follows.
    fn phase_after(&mut self, known: &State) -> Phase
        requires { IsIndexed known.now }
        ensures phase { result ≡ phase_from
            (clusters_come self.old known.now)
            (listeners_come self.old known.now) self.old.phase }
        ensures same { self.new ≡ self.old }
    {
        match self.phase {
            Phase::Clusters => {
                if !self.clusters.have_come(Kind::Cds, known) {
                    return Phase::Clusters;
                }
                self.listeners_phase(known)
            }
            Phase::Listeners => self.listeners_phase(known),
            Phase::Serving => Phase::Serving,
        }
    }

    // The phase that follows once listeners are awaited.
    fn listeners_phase(&mut self, known: &State) -> Phase
        requires { IsIndexed known.now }
        ensures phase { result ≡ listeners_phase (listeners_come self.old known.now) }
        ensures same { self.new ≡ self.old }
    {
        if self.listeners.have_come(Kind::Lds, known) {
            Phase::Serving
        } else {
            Phase::Listeners
        }
    }
}

// Whether the first clusters are awaited.
fn is_clusters(phase: Phase) -> bool
    ensures { result ≡ is_clusters phase }
{
    matches!(phase, Phase::Clusters)
}
