ghost use Rattle.std.specs.Prelude.{◌≡◌, ℕ, false, true, IfOk, OnOk};
ghost use Rattle.std.specs.Ordering.{nat_cmp};
ghost use Rattle.std.specs.BTreeSet.{contains, IsOrdered};
ghost use Rattle.ev_retirement.specs.Asking.{AreAllAsked, AsksMore, Forgets, is_asked, is_aside};

use crate::aside::{Aside, put};
use ev_types::Gen;
use std::alloc::{AllocError, Global};
use std::collections::BTreeSet;

/// Which generations the next reaping asks about, and which wait until a picture is let go.
#[derive(Drop)]
pub(crate) struct Asking {
    asked: BTreeSet<Gen>,
    // Those that a picture holds, by its version.
    aside: Aside,
}

impl Asking {
    /// None is to be asked about, and none is set aside. It takes no memory.
    pub(crate) fn new(alloc: Global) -> Asking
        ensures asked { (number : ℕ) → is_asked result number ≡ false }
        ensures aside { (version : ℕ) (number : ℕ) → is_aside result version number ≡ false }
    {
        Asking {
            asked: BTreeSet::new(alloc),
            aside: Aside::new(alloc),
        }
    }

    /// A generation is to be asked about. Out of memory, all stays as it was.
    pub(crate) fn ask(&mut self, number: Gen) -> Result<(), AllocError>
        ensures asked { OnOk result (is_asked self.new number ≡ true) }
        ensures more { AsksMore self.old self.new }
    {
        put(&mut self.asked, number)
    }

    /// Each of these generations is to be asked about. Out of memory, some of the first are.
    pub(crate) fn ask_each(&mut self, numbers: &[Gen]) -> Result<(), AllocError>
        ensures asked { OnOk result (AreAllAsked self.new numbers.now) }
        ensures more { AsksMore self.old self.new }
    {
        for number in numbers {
            self.ask(*number)?;
        }
        Ok(())
    }

    /// The generations that are set aside under the picture of this version are no longer, and are to be asked about.
    /// Out of memory, all stay set aside, and some are to be asked about too.
    pub(crate) fn recall(&mut self, alloc: Global, version: u64) -> Result<(), AllocError>
        ensures none { OnOk result ((number : ℕ) → is_aside self.new version number ≡ false) }
        ensures more { AsksMore self.old self.new }
    {
        let Some(aside) = self.aside.under(version) else {
            return Ok(());
        };
        let numbers = in_order(alloc, aside)?;
        self.ask_each(numbers.as_slice())?;
        self.aside.take_out(version);
        Ok(())
    }

    /// The numbers of the generations that are to be asked about, from the least.
    pub(crate) fn numbers(&self, alloc: Global) -> Result<Vec<Gen>, AllocError>
        ensures numbers { IfOk result (λ numbers. numbers.items ≡ self.now.asked.keys) }
        ensures ordered { IsOrdered nat_cmp self.now.asked }
    {
        in_order(alloc, &self.asked)
    }

    /// A generation is set aside under the picture of this version. Out of memory, all stays as it was.
    pub(crate) fn put_aside(
        &mut self,
        alloc: Global,
        number: Gen,
        version: u64,
    ) -> Result<(), AllocError>
        ensures aside { OnOk result (is_aside self.new version number ≡ true) }
        ensures more { AsksMore self.old self.new }
        ensures same { self.new.asked ≡ self.old.asked }
    {
        self.aside.put(alloc, version, number)
    }

    /// A generation is no longer to be asked about. It takes no memory.
    pub(crate) fn forget(&mut self, number: Gen)
        ensures { Forgets number self.old self.new }
    {
        self.asked.remove(&number);
    }
}

// The numbers from the least.
fn in_order(alloc: Global, numbers: &BTreeSet<Gen>) -> Result<Vec<Gen>, AllocError>
    ensures items { IfOk result (λ items. items.items ≡ numbers.now.keys) }
    ensures ordered { IsOrdered nat_cmp numbers.now }
{
    numbers.iter().map(|number| *number).collect(alloc)
}
