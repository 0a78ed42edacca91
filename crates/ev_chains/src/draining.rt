ghost use Rattle.std.specs.Prelude.{◌≡◌, ◌+◌, ◌≤◌, ◌++◌, ◌∷◌, [], if◌then◌else◌, length, nat_eq, vec_len, vec_capacity, OnOk, OnErr};
ghost use Rattle.indexmap.specs.IndexSet.{contains, spare, index_set_len, IsUnique};
ghost use Rattle.ev_model.specs.Picture.{has_number};
ghost use Rattle.ev_chains.specs.Sets.{Gains, Loses};
ghost use Rattle.ev_chains.specs.State.{idle_among, busy_among};

use crate::closing::part_draining;
use ev_ledger::Ledger;
use ev_types::Gen;
use indexmap::IndexSet;
use std::alloc::{AllocError, Global};

// The numbers of the chains that drain.
#[derive(Drop)]
pub(crate) struct Draining {
    // Those on which no connection is open, with room for the others.
    pub idle: Vec<Gen>,
    // Those on which one is.
    pub busy: IndexSet<Gen>,
    ghost room: { length idle.items + length busy.keys ≤ vec_capacity idle },
}

impl Draining {
    // None drains. It takes no memory.
    pub fn new(alloc: Global) -> Draining
        ensures idle { result.idle.items ≡ [] }
        ensures busy { result.busy.keys ≡ [] }
    {
        Draining {
            idle: Vec::new(alloc),
            busy: IndexSet::new(alloc),
        }
    }

    // Those on which a connection is open.
    pub fn busy_numbers(&self) -> &[Gen]
        ensures keys { result.now ≡ self.now.busy.keys }
        ensures unique { IsUnique nat_eq self.now.busy }
    {
        self.busy.as_slice()
    }

    // These drain too. Out of memory, the same drain as before.
    pub fn start(
        &mut self,
        alloc: Global,
        ledger: &Ledger,
        numbers: &[Gen],
    ) -> Result<(), AllocError>
        ensures idle { OnOk result (self.new.idle.items ≡ self.old.idle.items ++ idle_among ledger.now numbers.now) }
        ensures busy { OnOk result (Gains (contains nat_eq) (λ n. has_number n (busy_among ledger.now numbers.now)) self.old.busy self.new.busy) }
        ensures same_idle { OnErr result (self.new.idle.items ≡ self.old.idle.items) }
        ensures same_busy { OnErr result (self.new.busy.keys ≡ self.old.busy.keys) }
    {
        let parted = part_draining(alloc, ledger, numbers)?;
        self.idle.reserve(self.busy.len() + numbers.len())?;
        self.busy.reserve(parted.busy.len())?;
        push_all(&mut self.idle, parted.idle.as_slice());
        put_all(&mut self.busy, parted.busy.as_slice());
        Ok(())
    }

    // No connection is open on the one of this number any more, where it drains. It takes no memory.
    pub fn end(&mut self, number: Gen)
        ensures idle { self.new.idle.items ≡ (if contains nat_eq self.old.busy number then self.old.idle.items ++ number ∷ [] else self.old.idle.items) }
        ensures busy { Loses (contains nat_eq) (nat_eq number) self.old.busy self.new.busy }
    {
        if self.busy.swap_remove(&number) {
            self.idle.push_reserved(number);
        }
    }

    // No connection is open on any of them any more. It takes no memory.
    pub fn end_all(&mut self, alloc: Global)
        ensures idle { self.new.idle.items ≡ self.old.idle.items ++ self.old.busy.keys }
        ensures busy { self.new.busy.keys ≡ [] }
    {
        push_all(&mut self.idle, self.busy.as_slice());
        self.busy = IndexSet::new(alloc);
    }

    // Those go on which no connection is open. It takes no memory.
    pub fn go(&mut self)
        ensures idle { self.new.idle.items ≡ [] }
        ensures busy { self.new.busy.keys ≡ self.old.busy.keys }
    {
        self.idle.clear();
    }
}

// Adds numbers to a list that has room for them.
pub(crate) fn push_all(list: &mut Vec<Gen>, numbers: &[Gen])
    requires fits { vec_len list.old + length numbers.now ≤ vec_capacity list.old }
    ensures items { list.new.items ≡ list.old.items ++ numbers.now }
    ensures capacity { vec_capacity list.old ≤ vec_capacity list.new }
{
    for number in numbers {
        list.push_reserved(*number);
    }
}

// Adds numbers to a set that has room for them.
fn put_all(set: &mut IndexSet<Gen>, numbers: &[Gen])
    requires fits { length numbers.now ≤ spare set.old }
    ensures gains { Gains (contains nat_eq) (λ n. has_number n numbers.now) set.old set.new }
    ensures few { index_set_len set.new ≤ index_set_len set.old + length numbers.now }
{
    for number in numbers {
        let Ok(_) = set.insert(*number) else {
            unreachable!()
        };
    }
}
