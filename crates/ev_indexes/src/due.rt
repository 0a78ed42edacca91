//! The generations that are due to serve: a set. A row is looked at anew when something comes for its name,
//! when it gets a result and when it is added; nothing counts waits.

ghost use Rattle.std.specs.Prelude.{◌≡◌, ◌||◌, ◌&&◌, not, true, if◌then◌else◌, ◌+◌, length, ℕ, [], nat_eq, IfSome, IfNone, OnOk, OnErr};
ghost use Rattle.ev_indexes.specs.Due.{is_one_of};

use ev_types::Gen;
use indexmap::IndexSet;
use std::alloc::{AllocError, Global};
use std::marker::Model;

/// The numbers of the generations that are due to serve, each once.
#[derive(Drop)]
pub struct Due {
    numbers: IndexSet<Gen>,
}

impl Model for Due {
    ghost use Rattle.std.specs.Prelude.{List, ℕ};

    ghost Value = { List ℕ };

    ghost view = { λ d. d.numbers.keys };
}

impl Due {
    /// None is due. It takes no memory.
    pub fn new(alloc: Global) -> Due
        ensures { result ≡ [] }
    {
        Due {
            numbers: IndexSet::new(alloc),
        }
    }

    /// One of those that are due.
    pub fn first(&self) -> Option<Gen>
        ensures some { IfSome result (λ number. is_one_of self.now number ≡ true) }
        ensures none { IfNone result (self.now ≡ []) }
    {
        self.numbers.first().copied()
    }

    /// One more is due. Out of memory, the same are due as before.
    pub fn put(&mut self, number: Gen) -> Result<(), AllocError>
        ensures ok { OnOk result ((n : ℕ) → is_one_of self.new n ≡ (nat_eq number n || is_one_of self.old n)) }
        ensures err { OnErr result (self.new ≡ self.old) }
    {
        let Ok(_) = self.numbers.insert(number) else {
            return Err(AllocError);
        };
        Ok(())
    }

    /// One is no longer due.
    pub fn leave(&mut self, number: Gen)
        ensures left { (n : ℕ) → is_one_of self.new n ≡ (not (nat_eq number n) && is_one_of self.old n) }
        ensures count { length self.new + (if is_one_of self.old number then 1 else 0) ≡ length self.old }
    {
        self.numbers.swap_remove(&number);
    }
}
