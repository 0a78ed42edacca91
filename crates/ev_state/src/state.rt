ghost use Rattle.std.specs.Prelude.{◌≡◌, ℕ, IfOk};
ghost use Rattle.ev_model.specs.World.{opening};

use crate::InitTargets;
use ev_keys::Keys;
use ev_managers::Managers;
use ev_subscription::Subscription;
use ev_types::{Text, TryCopy};
use std::alloc::{AllocError, Global};

/// What is known: the managers, the subscription, and how far the proxy has booted. Once out of memory, it is
/// unspecified.
#[derive(Drop)]
pub struct State {
    pub managers: Managers,
    pub subscription: Subscription,
    pub targets: InitTargets,
}

impl State {
    ghost use Rattle.ev_state.specs.States.{ManagesAt};

    /// Nothing is known yet, however many workers there are. The tables hash by these keys.
    pub fn new(alloc: Global, keys: Keys, node: &Text) -> Result<State, AllocError>
        ensures { IfOk result (λ s. (workers : ℕ) → ManagesAt s (opening workers node.now)) }
    {
        let node = node.copy(alloc)?;
        Ok(State {
            managers: Managers::new(alloc, keys),
            subscription: Subscription::new(alloc, node),
            targets: InitTargets::new(),
        })
    }
}
