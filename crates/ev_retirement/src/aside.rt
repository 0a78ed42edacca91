ghost use Rattle.std.specs.Prelude.{◌≡◌, ℕ, [], None, if◌then◌else◌, nat_eq, true, OnOk};
ghost use Rattle.std.specs.Map.{lookup};
ghost use Rattle.std.specs.Ordering.{nat_cmp};
ghost use Rattle.std.specs.BTreeSet.{contains};
ghost use Rattle.std.specs.Option.{option_copied};
ghost use Rattle.ev_retirement.specs.Aside.{HoldsMore, KeepsAside, is_under};

use ev_types::Gen;
use indexmap::IndexMap;
use std::alloc::{AllocError, Global};
use std::collections::BTreeSet;
use std::marker::Model;

/// By a picture's version the generations that are set aside under it. A version without any has no entry.
#[derive(Drop)]
pub(crate) struct Aside {
    sets: IndexMap<u64, BTreeSet<Gen>>,
}

impl Model for Aside {
    ghost use Rattle.ev_retirement.specs.Aside.{AsideKept, HasNoEmpty};

    ghost Value = { AsideKept };

    ghost view = { λ a. a.sets.entries };

    ghost invariant = { λ a. HasNoEmpty a.sets.entries };
}

impl Aside {
    /// None is set aside. It takes no memory.
    pub(crate) fn new(alloc: Global) -> Aside
        ensures { result ≡ [] }
    {
        Aside {
            sets: IndexMap::new(alloc),
        }
    }

    /// The generations under a version, where there are some. It takes no memory.
    pub(crate) fn under(&self, version: u64) -> Option<&BTreeSet<Gen>>
        ensures { option_copied result ≡ lookup (nat_eq version) self.now }
    {
        self.sets.get(&version)
    }

    /// Sets a generation aside under a version. Out of memory, all stays as it was.
    pub(crate) fn put(&mut self, alloc: Global, version: u64, number: Gen) -> Result<(), AllocError>
        ensures put { OnOk result (is_under self.new version number ≡ true) }
        ensures kept { KeepsAside self.old self.new }
    {
        if let Some(numbers) = self.sets.get_mut(&version) {
            return put(numbers, number);
        }
        let mut numbers = BTreeSet::new(alloc);
        put(&mut numbers, number)?;
        let Ok(_) = self.sets.insert(version, numbers) else {
            return Err(AllocError);
        };
        Ok(())
    }

    /// Those under a version are set aside no longer. It takes no memory.
    pub(crate) fn take_out(&mut self, version: u64)
        ensures { (v : ℕ) → lookup (nat_eq v) self.new
            ≡ (if nat_eq version v then None else lookup (nat_eq v) self.old) }
    {
        self.sets.swap_remove(&version);
    }
}

/// Adds a number to the others. Out of memory, they stay as they were.
pub(crate) fn put(numbers: &mut BTreeSet<Gen>, number: Gen) -> Result<(), AllocError>
    ensures put { OnOk result (contains nat_cmp numbers.new number ≡ true) }
    ensures kept { HoldsMore (contains nat_cmp numbers.old) (contains nat_cmp numbers.new) }
{
    let Ok(_) = numbers.insert(number) else {
        return Err(AllocError);
    };
    Ok(())
}
