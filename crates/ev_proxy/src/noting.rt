ghost use Rattle.std.specs.Prelude.{◌≡◌, ◌≤◌, ◌<◌, ◌+◌, ◌++◌, length, option_copied, option_to_list, OnOk};
ghost use Rattle.ev_model.specs.World.{World};
ghost use Rattle.ev_managers.specs.Managers.{AreForgotten, AreManagersKept};
ghost use Rattle.ev_state.specs.States.{ManagesAt};
ghost use Rattle.ev_proxy.specs.Proxies.{noted_each, noted_over, rows_gone, without_each};

use ev_drain::Deferred;
use ev_retirement::Holders;
use ev_state::State;
use ev_types::{Gen, GenRow};
use std::alloc::{AllocError, Global};

/// Notes the generations of these numbers that drain or were dropped.
pub(crate) fn note_each(
    alloc: Global,
    holders: &mut Holders,
    state: &State,
    numbers: &[Gen],
) -> Result<(), AllocError>
    ensures { OnOk result ((world : World) → ManagesAt state.now world
        → holders.new ≡ record holders.old { drain = noted_each world.rows numbers.now holders.old.drain }) }
{
    for number in numbers {
        note_row(alloc, holders, state.row(*number))?;
    }
    Ok(())
}

// Notes a generation that was found, where it drains or was dropped.
fn note_row(alloc: Global, holders: &mut Holders, row: Option<&GenRow>) -> Result<(), AllocError>
    ensures { OnOk result (holders.new ≡ record holders.old {
      drain = noted_over holders.old.drain
          (option_copied row.entry);
    }) }
{
    let Some(row) = row else {
        return Ok(());
    };
    if row.status.is_live() {
        return Ok(());
    }
    holders.note(alloc, row)
}

/// Takes out the generations of these numbers that drain or were dropped, and puts their rows after those that are
/// deferred, where there is room for as many. It takes no memory.
pub(crate) fn remove_each(state: &mut State, numbers: &[Gen], deferred: &mut Deferred)
    requires kept { AreManagersKept state.old.managers }
    requires forgotten { AreForgotten state.old.managers }
    requires room { length numbers.now ≤ deferred.old.1 }
    ensures at { (world : World) → ManagesAt state.old world
        → ManagesAt state.new (record world { rows = without_each numbers.now world.rows }) }
    ensures rows { (world : World) → ManagesAt state.old world
        → deferred.new.0 ≡ deferred.old.0 ++ rows_gone numbers.now world.rows }
{
    for number in numbers {
        defer(deferred, state.remove(*number));
    }
}

// Appends a row, where there is one, to those that are deferred.
fn defer(deferred: &mut Deferred, row: Option<GenRow>)
    requires room { 0 < deferred.old.1 }
    ensures rows { deferred.new.0 ≡ deferred.old.0 ++ option_to_list row }
    ensures room { deferred.old.1 ≤ deferred.new.1 + 1 }
{
    if let Some(row) = row {
        deferred.push(row);
    }
}
