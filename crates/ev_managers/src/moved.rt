ghost use Rattle.std.specs.Prelude.{◌≡◌, ◌++◌, [], IfOk, OnOk};
ghost use Rattle.ev_model.specs.Tidy.{promoted};
ghost use Rattle.ev_warming.specs.Managers.{IsKept};
ghost use Rattle.ev_warming.specs.Worlds.{Follows};
ghost use Rattle.ev_managers.specs.Moved.{TellsPromoted};

use ev_indexes::{Steps, put_all};
use ev_types::{Gen, Seq};
use ev_warming::{Manager, Promoted};
use std::alloc::{AllocError, Global};
use std::sync::ledger::Ledger;

/// What an event moves: which generations began to drain or were dropped, and of which a picture may show something
/// else than before. A number is of one kind, so clusters and listeners are in one list.
#[derive(Drop)]
pub struct Moved {
    pub retired: Seq<Gen>,
    /// A number may be among these more than once.
    pub changed: Seq<Gen>,
}

impl Moved {
    /// Nothing moved. It takes no memory.
    pub fn none(alloc: Global) -> Moved
        ensures { result ≡ record { retired = []; changed = [] } }
    {
        Moved {
            retired: Seq::new(alloc),
            changed: Seq::new(alloc),
        }
    }

    /// These generations retired, and a picture may show something else of these others and of them.
    pub fn of(retired: Seq<Gen>, others: Seq<Gen>) -> Result<Moved, AllocError>
        ensures retired { IfOk result (λ moved. moved.retired ≡ retired) }
        ensures changed { IfOk result (λ moved. moved.changed ≡ others ++ retired) }
    {
        let mut changed = others;
        put_all(&mut changed, retired.as_slice())?;
        Ok(Moved { retired, changed })
    }

    // Also those that came to serve, which changed, and those that served before, which retired and changed.
    fn put(&mut self, promoted: &Promoted) -> Result<(), AllocError>
        ensures retired { OnOk result (self.new.retired ≡ self.old.retired ++ promoted.now.drained) }
        ensures changed { OnOk result (self.new.changed
            ≡ (self.old.changed ++ promoted.now.served) ++ promoted.now.drained) }
    {
        put_all(&mut self.retired, promoted.drained.as_slice())?;
        put_all(&mut self.changed, promoted.served.as_slice())?;
        put_all(&mut self.changed, promoted.drained.as_slice())?;
        Ok(())
    }
}

/// Each generation of a manager that is due serves, and the one that served its name before it drains; both are
/// reported.
pub(crate) fn promote<L: Ledger>(
    manager: &mut Manager,
    alloc: Global,
    moved: &mut Moved,
    steps: &mut Steps<L>,
) -> Result<(), AllocError>
    requires { IsKept manager.old }
    ensures kept { OnOk result (IsKept manager.new) }
    ensures made { OnOk result (manager.new.state.table.made ≡ manager.old.state.table.made) }
    ensures told { OnOk result (TellsPromoted manager.old.state manager.new.state moved.old moved.new) }
    ensures stands { OnOk result (Follows manager.old.state manager.new.state promoted) }
{
    let promoted = manager.promote(alloc, steps)?;
    moved.put(&promoted)?;
    Ok(())
}
