ghost use Rattle.std.specs.Prelude.{◌≡◌, ◌≤◌, ◌++◌, ◌∷◌, ℕ, [], length, true, slice_index, slice_set, IfOk, OnOk};
ghost use Rattle.ev_expand.specs.Numbers.{guarded_so_far};
ghost use Rattle.ev_dns.specs.declared.answers.Answers.{Answers as the_answers};
ghost use Rattle.ev_dns.specs.Known.{Leaves, places_under};
ghost use Rattle.ev_dns.specs.Marking.{is_listed};
ghost use Rattle.ev_dns.specs.Waiting.{Advances, AdvancesOne, AreWaiting, CountsAs, HasFrom, HavePassed, Wakes};

use crate::answers::Answers;
use crate::places::Places;
use crate::templates::rows_of;
use ev_expand::Numbers;
use ev_keys::Keys;
use ev_types::Name;
use std::alloc::{AllocError, Global};

/// What the places that aren't complete wait for.
#[derive(Drop)]
pub(crate) struct Waiting {
    /// By place how many of its hosts, from the first on, are known to have been answered.
    pub passed: Vec<usize>,
    /// Each place that isn't complete, under the first name that it still waits for.
    pub under: Places,
}

impl Waiting {
    /// There is no place. It takes no memory.
    pub(crate) fn new(alloc: Global, keys: Keys) -> Waiting
        ensures { (answers : the_answers) → AreWaiting answers [] result }
    {
        Waiting {
            passed: Vec::new(alloc),
            under: Places::new(alloc, keys),
        }
    }

    /// Takes up the places that are new, up to a count, and takes those out that wait for a name, where there is one:
    /// both may go on.
    pub(crate) fn wake(
        &mut self,
        alloc: Global,
        count: usize,
        name: &Option<Name>,
    ) -> Result<Vec<usize>, AllocError>
        ensures counted { length self.old.passed.items ≤ count → OnOk result (length self.new.passed.items ≡ count) }
        ensures passed { OnOk result (CountsAs self.old.passed.items self.new.passed.items) }
        ensures fresh { IfOk result (λ woken. HasFrom (length self.old.passed.items) count woken.items) }
        ensures wakes { IfOk result (λ woken. Wakes name.now self.old.under self.new.under woken.items) }
    {
        let mut woken = take_up(alloc, &mut self.passed, count)?;
        take_named(&mut self.under, name, &mut woken)?;
        Ok(woken)
    }

    /// Goes on with these places, and gives the complete ones.
    pub(crate) fn advance_all(
        &mut self,
        alloc: Global,
        answers: &Answers,
        numbers: &Numbers,
        places: &[usize],
    ) -> Result<Vec<usize>, AllocError>
        ensures passed { HavePassed answers.now (guarded_so_far numbers.now) self.old.passed.items
            → OnOk result (HavePassed answers.now (guarded_so_far numbers.now) self.new.passed.items) }
        ensures counted { length self.new.passed.items ≡ length self.old.passed.items }
        ensures advances { HavePassed answers.now (guarded_so_far numbers.now) self.old.passed.items
            → IfOk result (λ finished. Advances answers.now (guarded_so_far numbers.now) places.now
            self.old.under self.new.under finished.items) }
    {
        let mut finished = Vec::new(alloc);
        for place in places {
            self.advance(alloc, answers, numbers, *place, &mut finished)?;
        }
        Ok(finished)
    }

    // Goes on with a place: it is put under the first name that it still waits for, or it is complete.
    fn advance(
        &mut self,
        alloc: Global,
        answers: &Answers,
        numbers: &Numbers,
        place: usize,
        finished: &mut Vec<usize>,
    ) -> Result<(), AllocError>
        ensures passed { HavePassed answers.now (guarded_so_far numbers.now) self.old.passed.items
            → OnOk result (HavePassed answers.now (guarded_so_far numbers.now) self.new.passed.items) }
        ensures counted { length self.new.passed.items ≡ length self.old.passed.items }
        ensures advances { HavePassed answers.now (guarded_so_far numbers.now) self.old.passed.items
            → OnOk result (AdvancesOne answers.now (guarded_so_far numbers.now) place
            self.old.under self.new.under finished.old.items finished.new.items) }
    {
        let Some((key, _)) = numbers.get(place) else {
            return Ok(());
        };
        let rows = rows_of(key);
        let count = answers.first_unanswered(rows, passed_at(self.passed.as_slice(), place));
        set_passed(&mut self.passed, place, count);
        match rows.get(count) {
            Some(row) => self.under.put(alloc, &row.host.address, place),
            None => push_place(finished, place),
        }
    }
}

// Takes up the places that are new, up to a count, and gives them.
fn take_up(alloc: Global, passed: &mut Vec<usize>, count: usize) -> Result<Vec<usize>, AllocError>
    ensures counted { length passed.old.items ≤ count → OnOk result (length passed.new.items ≡ count) }
    ensures passed { OnOk result (CountsAs passed.old.items passed.new.items) }
    ensures fresh { IfOk result (λ places. HasFrom (length passed.old.items) count places.items) }
{
    let mut places = Vec::new(alloc);
    for place in passed.len()..count {
        passed.push(0)?;
        places.push(place)?;
    }
    Ok(places)
}

// Takes the places under a name out, where there is one, and puts them after the others.
fn take_named(
    under: &mut Places,
    name: &Option<Name>,
    woken: &mut Vec<usize>,
) -> Result<(), AllocError>
    ensures wakes { OnOk result (Wakes name.now under.old under.new woken.new.items) }
    ensures kept { OnOk result ((n : ℕ) → is_listed woken.old.items n ≡ true → is_listed woken.new.items n ≡ true) }
{
    match name {
        Some(name) => take_under(under, name, woken),
        None => Ok(()),
    }
}

// Takes the places under a name out, and puts them after the others.
fn take_under(under: &mut Places, name: &Name, woken: &mut Vec<usize>) -> Result<(), AllocError>
    ensures taken { OnOk result (woken.new.items ≡ woken.old.items ++ places_under under.old name.now) }
    ensures left { Leaves under.old under.new name.now }
{
    if let Some(places) = under.take(name) {
        woken.extend_from_slice(places.as_slice())?;
    }
    Ok(())
}

// How many of the hosts of a place are known to have been answered.
fn passed_at(passed: &[usize], place: usize) -> usize
    ensures { result ≡ slice_index passed.now place }
{
    match passed.get(place) {
        Some(count) => *count,
        None => 0,
    }
}

// Notes how many of the hosts of a place were answered.
fn set_passed(passed: &mut Vec<usize>, place: usize, count: usize)
    ensures { passed.new.items ≡ slice_set passed.old.items place count }
{
    if place < passed.len() {
        passed[place] = count;
    }
}

// Appends a place to the others.
fn push_place(places: &mut Vec<usize>, place: usize) -> Result<(), AllocError>
    ensures { OnOk result (places.new.items ≡ places.old.items ++ place ∷ []) }
{
    places.push(place)?;
    Ok(())
}
