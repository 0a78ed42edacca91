ghost use Rattle.std.specs.Prelude.{◌≡◌, [], option_copied, IfOk, OnOk};
ghost use Rattle.ev_model.specs.World.{World};
ghost use Rattle.ev_model.specs.Tidy.{tidy};
ghost use Rattle.ev_warming.specs.Changes.{is_over};
ghost use Rattle.ev_managers.specs.Managers.{AreForgotten, AreManagersKept};
ghost use Rattle.ev_state.specs.Changed.{HaveChanged};
ghost use Rattle.ev_state.specs.Retirements.{HaveCeased};
ghost use Rattle.ev_state.specs.States.{ManagesAt, over_in, without_over};

use crate::state::State;
use ev_indexes::Steps;
use ev_managers::Moved;
use ev_types::{Gen, GenRow};
use std::alloc::{AllocError, Global};
use std::sync::ledger::Ledger;

impl State {
    /// What follows an event by itself, where the event was of no manager: what is due serves, what nobody needs is
    /// forgotten, and the phase moves on. Answers what that moved. Out of memory, it is unspecified.
    pub fn tidy_up<L: Ledger>(
        &mut self,
        alloc: Global,
        steps: &mut Steps<L>,
    ) -> Result<Moved, AllocError>
        requires kept { AreManagersKept self.old.managers }
        ensures at { OnOk result ((world : World) → ManagesAt self.old world → ManagesAt self.new (tidy world)) }
        ensures ceased { IfOk result (λ moved. (world : World) → ManagesAt self.old world
            → HaveCeased moved.retired world (tidy world)) }
        ensures changed { IfOk result (λ moved. (world : World) → ManagesAt self.old world
            → HaveChanged moved.changed world (tidy world)) }
    {
        let made = self.managers.made();
        let mut moved = Moved::none(alloc);
        self.tidy(alloc, made, &mut moved, steps)?;
        Ok(moved)
    }

    /// Takes out and returns the generation of this number, where it drains or was dropped; where none has the
    /// number, or it is live, nothing is done. It takes no memory.
    pub fn remove(&mut self, number: Gen) -> Option<GenRow>
        requires kept { AreManagersKept self.old.managers }
        requires forgotten { AreForgotten self.old.managers }
        ensures kept { AreManagersKept self.new.managers }
        ensures forgotten { AreForgotten self.new.managers }
        ensures at { (world : World) → ManagesAt self.old world
            → ManagesAt self.new (record world { rows = without_over number world.rows }) }
        ensures row { (world : World) → ManagesAt self.old world → result ≡ over_in number world.rows }
        // A picture shows what it showed.
        ensures shown { (world : World) → ManagesAt self.old world
            → HaveChanged [] world (record world { rows = without_over number world.rows }) }
    {
        if has_ended(self.managers.core.state.table.get(number)) {
            return Some(self.managers.remove(number));
        }
        None
    }
}

// Whether there is a generation, and it drains or was dropped.
fn has_ended(row: Option<&GenRow>) -> bool
    ensures { result ≡ is_over (option_copied row.entry) }
{
    match row {
        Some(row) => !row.status.is_live(),
        None => false,
    }
}
