ghost use Rattle.std.specs.Prelude.{◌≡◌, ◌++◌, [], ◌∷◌, IfOk, OnOk, if◌then◌else◌};
ghost use Rattle.ev_types.specs.declared.journals.Format.TheVariants.{One};
ghost use Rattle.ev_model.specs.Publishing.{dead_numbers};
ghost use Rattle.ev_retirement.specs.Asking.{AsksMore, IsKeptAside, is_dead_now, numbers_dead};
ghost use Rattle.ev_retirement.specs.Worlds.{IsAnswerOf};

use crate::asking::Asking;
use crate::in_use::InUse;
use crate::{Holders, Pictures};
use ev_ledger::Ledger;
use ev_types::{Format, Gen};
use std::alloc::{AllocError, Global};

impl Holders {
    /// The numbers of the generations that nothing holds any more, from the least, by the rules of format 1. It asks
    /// about all that drain.
    pub(crate) fn dead_of_all(&self, alloc: Global) -> Result<Vec<Gen>, AllocError>
        ensures world { IfOk result (λ dead. IsAnswerOf (dead_numbers One) self.now dead.items) }
    {
        let shown = InUse {
            pictures: &self.pictures,
        };
        self.drain.dead(alloc, Format::One, &self.ledger, &shown)
    }

    /// The numbers of the generations that nothing holds any more, from the least, by the rules of format 2. It asks
    /// only about those that are to be asked about; each other one of them is set aside under what holds it.
    pub(crate) fn dead_asked(&mut self, alloc: Global) -> Result<Vec<Gen>, AllocError>
        ensures dead { IfOk result (λ dead. dead.items ≡ numbers_dead self.old) }
        ensures same { self.new ≡ self.old }
    {
        let numbers = self.asking.numbers(alloc)?;
        let mut dead = Vec::new(alloc);
        for number in numbers.as_slice() {
            let is_dead = self.ask(alloc, *number)?;
            push_where(&mut dead, *number, is_dead)?;
        }
        Ok(dead)
    }

    // Whether a generation was retired and nothing holds it any more. Else it is no longer to be asked about, and is
    // set aside under what holds it. Out of memory, it is still to be asked about.
    fn ask(&mut self, alloc: Global, number: Gen) -> Result<bool, AllocError>
        ensures dead { IfOk result (λ dead. dead ≡ is_dead_now self.old number) }
        ensures same { self.new ≡ self.old }
    {
        let shown = InUse {
            pictures: &self.pictures,
        };
        if self
            .drain
            .is_dead(Format::Two, &self.ledger, &shown, number)
        {
            return Ok(true);
        }
        set_aside(
            alloc,
            &mut self.asking,
            &self.pictures,
            &self.ledger,
            number,
        )?;
        self.asking.forget(number);
        Ok(false)
    }
}

// Sets a generation aside under the version of a picture in use that shows it, unless a connection is open on it or
// there is none. Out of memory, all stays as it was.
fn set_aside(
    alloc: Global,
    asking: &mut Asking,
    pictures: &Pictures,
    ledger: &Ledger,
    number: Gen,
) -> Result<(), AllocError>
    ensures aside { OnOk result (IsKeptAside number asking.new pictures.now ledger.now) }
    ensures more { AsksMore asking.old asking.new }
{
    if ledger.count(number) != 0 {
        return Ok(());
    }
    match pictures.shown_in(number) {
        Some(version) => asking.put_aside(alloc, number, version),
        None => Ok(()),
    }
}

// Appends a number to the others, where it is one of those wanted.
fn push_where(numbers: &mut Vec<Gen>, number: Gen, wanted: bool) -> Result<(), AllocError>
    ensures { OnOk result (numbers.new.items ≡ numbers.old.items ++ (if wanted then number ∷ [] else [])) }
{
    if wanted {
        numbers.push(number)?;
    }
    Ok(())
}
