ghost use Rattle.std.specs.Prelude.{IfOk, OnOk};
ghost use Rattle.ev_managers.specs.Managers.{AreForgotten, AreManagersKept};
ghost use Rattle.ev_state.specs.Moves.{ChangeNames, ChangesNames, TidiesUp};

use crate::state::State;
use ev_indexes::Steps;
use ev_managers::Moved;
use ev_subscription::{NameChange, kinds_before, kinds_behind};
use ev_types::{Gen, Kind, Seq};
use std::alloc::{AllocError, Global};
use std::sync::ledger::Ledger;

/// What an event changed of what is asked for: how the names changed that are watched, of the kinds before listeners
/// and of those behind them, and whether the first phase was left.
#[derive(Drop)]
pub(crate) struct Asked {
    pub(crate) before: Seq<NameChange>,
    pub(crate) behind: Seq<NameChange>,
    pub(crate) left: bool,
}

impl State {
    /// What follows an event by itself: what is due serves, what nobody needs is forgotten, and the phase moves on.
    /// So many numbers were allocated before the event, and this it has moved;
    /// what is moved now is put to it. Only what it changed is looked at.
    pub(crate) fn tidy<L: Ledger>(
        &mut self,
        alloc: Global,
        made: u32,
        moved: &mut Moved,
        steps: &mut Steps<L>,
    ) -> Result<Asked, AllocError>
        requires kept { AreManagersKept self.old.managers }
        ensures kept { OnOk result (AreManagersKept self.new.managers) }
        ensures forgotten { OnOk result (AreForgotten self.new.managers) }
        ensures over { IfOk result (λ asked. TidiesUp self.old self.new made moved.old moved.new asked) }
    {
        self.managers.promote(alloc, moved, steps)?;
        let retired = moved.retired.as_slice();
        let before = self.all_changed(alloc, &kinds_before(), made, retired)?;
        let behind = self.all_changed(alloc, &kinds_behind(), made, retired)?;
        self.subscription.forget_unwatched(&before, &behind);
        self.managers.forget(alloc, steps)?;
        let phase = self.targets.phase();
        let left = self.targets.advance(&self.managers.core.state);
        self.put_listeners(alloc, phase, &mut moved.changed)?;
        Ok(Asked {
            before,
            behind,
            left,
        })
    }

    // How the names of each of these kinds changed that are watched, since this many numbers were allocated and these
    // generations retired.
    fn all_changed(
        &self,
        alloc: Global,
        kinds: &[Kind],
        made: u32,
        retired: &[Gen],
    ) -> Result<Seq<NameChange>, AllocError>
        requires kept { AreManagersKept self.now.managers }
        ensures { IfOk result (λ changes. ChangeNames self.now.managers kinds.now made retired.now changes) }
    {
        let mut changes = Vec::new(alloc);
        for kind in kinds {
            changes.push(self.names_changed(alloc, *kind, made, retired)?)?;
        }
        Ok(Seq::from_vec(changes))
    }

    // How the names of this kind changed that are watched, since this many numbers were allocated and these generations
    // retired.
    fn names_changed(
        &self,
        alloc: Global,
        kind: Kind,
        made: u32,
        retired: &[Gen],
    ) -> Result<NameChange, AllocError>
        requires kept { AreManagersKept self.now.managers }
        ensures { IfOk result (λ change. ChangesNames self.now.managers kind made retired.now change) }
    {
        let known = &self.managers.core.state;
        let lost = known.names_lost(alloc, kind, made, retired)?;
        let gained = known.names_gained(alloc, kind, made)?;
        let change = NameChange::between(alloc, kind, &lost, &gained)?;
        Ok(change)
    }
}
