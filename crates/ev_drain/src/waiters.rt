ghost use Rattle.std.specs.Prelude.{◌≡◌, ℕ, List, [], ◌∷◌, ◌++◌, None, if◌then◌else◌, OnOk, OnErr, IfOk};
ghost use Rattle.std.specs.Option.{unwrap_or};
ghost use Rattle.std.specs.Str.{bytes_eq};
ghost use Rattle.indexmap.specs.IndexMap.{get};
ghost use Rattle.ev_drain.specs.Retired.{newly_retired};
ghost use Rattle.ev_drain.specs.Waiters.{ChangesUnder, Enters, EntersWaiter, HasNoEmpty, HasNoOtherEmpty, SameUnder, numbers_under, without_number};

use ev_keys::Keys;
use ev_types::{Gen, Kind, Name, Seq, TryCopy};
use indexmap::IndexMap;
use std::alloc::{AllocError, Global};
use std::marker::Model;

type Numbers = IndexMap<Name, Seq<Gen>, Keys>;

/// By a listener's name the numbers of the generations that may wait for its drain timeout.
/// A name without any has no entry.
#[derive(Drop)]
pub(crate) struct Waiters {
    numbers: Numbers,
}

impl Model for Waiters {
    ghost use Rattle.ev_drain.specs.Waiters.{HasNoEmpty, WaitersKept};

    ghost Value = { WaitersKept };

    ghost view = { λ w. w.numbers.entries };

    ghost invariant = { λ w. HasNoEmpty w.numbers.entries };
}

impl Waiters {
    /// No name. Names hash by these keys. It takes no memory.
    pub(crate) fn new(alloc: Global, keys: Keys) -> Waiters
        ensures { result ≡ [] }
    {
        Waiters {
            numbers: IndexMap::with_hasher(alloc, keys),
        }
    }

    /// The numbers under a name. It takes no memory.
    pub(crate) fn under(&self, name: &Name) -> &[Gen]
        ensures { result.now ≡ numbers_under self.now name.now }
    {
        match self.numbers.get(name) {
            Some(numbers) => numbers.as_slice(),
            None => &[],
        }
    }

    /// Appends the number of a generation that is retired to those of its name,
    /// where it is a draining listener. Out of memory, the numbers stay as they were.
    pub(crate) fn await_timeout(
        &mut self,
        alloc: Global,
        kind: Kind,
        number: Gen,
        name: &Name,
        dropped: bool,
    ) -> Result<(), AllocError>
        ensures entered { OnOk result (EntersWaiter (newly_retired kind number name.now dropped) self.old self.new) }
        ensures err { OnErr result (SameUnder self.old self.new) }
    {
        if dropped || !kind.is(Kind::Lds) {
            return Ok(());
        }
        self.enter(alloc, name, number)
    }

    // Appends a number to those of a name. Out of memory, the numbers stay as they were.
    fn enter(&mut self, alloc: Global, name: &Name, number: Gen) -> Result<(), AllocError>
        ensures entered { OnOk result (Enters (bytes_eq name.now) number self.old self.new) }
        ensures err { OnErr result (SameUnder self.old self.new) }
    {
        if let Some(numbers) = self.numbers.get_mut(name) {
            return numbers.push(number);
        }
        let mut numbers = Seq::new(alloc);
        numbers.push(number)?;
        let Ok(_) = self.numbers.insert(name.copy(alloc)?, numbers) else {
            return Err(AllocError);
        };
        Ok(())
    }

    /// A generation no longer waits under the name. It takes no memory, and looks at the numbers of this name alone.
    pub(crate) fn leave(&mut self, name: &Name, number: Gen)
        ensures { ChangesUnder name.now (without_number number) self.old self.new }
    {
        if let Some(numbers) = self.numbers.get_mut(name) {
            leave_out(numbers, number);
        }
        trim(&mut self.numbers, name);
    }

    /// Takes the numbers under a name out, where there are some. It takes no memory.
    pub(crate) fn take(&mut self, name: &Name) -> Option<Seq<Gen>>
        ensures taken { unwrap_or result [] ≡ numbers_under self.old name.now }
        ensures left { ChangesUnder name.now (λ numbers. []) self.old self.new }
    {
        self.numbers.swap_remove(name)
    }
}

// Takes out the entry of a name without any, where no other name is without any.
fn trim(map: &mut Numbers, name: &Name)
    ensures same { SameUnder map.old.entries map.new.entries }
    ensures none_empty { HasNoOtherEmpty name.now map.old.entries → HasNoEmpty map.new.entries }
{
    let Some(numbers) = map.get(name) else {
        return;
    };
    if numbers.is_empty() {
        take_out(map, name);
    }
}

// Leaves a number out of these.
fn leave_out(numbers: &mut Seq<Gen>, number: Gen)
    ensures { numbers.new ≡ without_number number numbers.old }
{
    numbers.retain(|other| *other != number);
}

// Takes out the entry of a name.
fn take_out(map: &mut Numbers, name: &Name)
    ensures { (n : List ℕ) → get bytes_eq map.new n ≡ (if bytes_eq name.now n then None else get bytes_eq map.old n) }
{
    map.swap_remove(name);
}
