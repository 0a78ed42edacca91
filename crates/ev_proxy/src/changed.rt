ghost use Rattle.std.specs.Prelude.{◌≡◌, ◌||◌, ℕ, [], nat_eq, OnOk};
ghost use Rattle.ev_indexes.specs.Due.{is_one_of};

use ev_types::Gen;
use indexmap::IndexSet;
use std::alloc::{AllocError, Global};
use std::marker::Model;

/// The numbers of generations of which a picture may show something else than the last one, each once.
#[derive(Drop)]
pub struct Changed {
    numbers: IndexSet<Gen>,
}

impl Model for Changed {
    ghost use Rattle.std.specs.Prelude.{List, ℕ};

    ghost Value = { List ℕ };

    ghost view = { λ c. c.numbers.keys };
}

impl Changed {
    /// There is none. It takes no memory.
    pub(crate) fn none(alloc: Global) -> Changed
        ensures { result ≡ [] }
    {
        Changed {
            numbers: IndexSet::new(alloc),
        }
    }

    /// Puts these to them. Out of memory, it is unspecified.
    pub(crate) fn put_all(&mut self, numbers: &[Gen]) -> Result<(), AllocError>
        ensures { OnOk result ((n : ℕ) → is_one_of self.new n ≡ (is_one_of self.old n || is_one_of numbers.now n)) }
    {
        for number in numbers {
            self.put(*number)?;
        }
        Ok(())
    }

    // One more.
    fn put(&mut self, number: Gen) -> Result<(), AllocError>
        ensures { OnOk result ((n : ℕ) → is_one_of self.new n ≡ (is_one_of self.old n || nat_eq n number)) }
    {
        let Ok(_) = self.numbers.insert(number) else {
            return Err(AllocError);
        };
        Ok(())
    }

    /// They, in the order in which they were put.
    pub(crate) fn numbers(&self) -> &[Gen]
        ensures { result.now ≡ self.now }
    {
        self.numbers.as_slice()
    }
}
