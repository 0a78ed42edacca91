ghost use Rattle.std.specs.Prelude.{◌≡◌, ◌≤◌, ◌<◌, ◌++◌, ◌||◌, ℕ, List, [], length, nat_eq, true, Some, slice_get, slice_set, slice_index_or, take, IfOk, OnOk};
ghost use Rattle.indexmap.specs.IndexSet.{contains};
ghost use Rattle.ev_expand.specs.Guarding.{Guarded};
ghost use Rattle.ev_expand.specs.Numbers.{guarded_so_far};
ghost use Rattle.ev_tls.specs.declared.known.Told.{Told};
ghost use Rattle.ev_tls.specs.Known.{AddsAll, are_told, first_told};
ghost use Rattle.ev_tls.specs.Places.{has_place};
ghost use Rattle.ev_tls.specs.Waiting.{Advances, AdvancesOne, GoesOn, Grows, HasBetween, HavePassed, IsWaiting, Wakes};

use crate::awaited::Awaited;
use crate::complete::insert_place;
use crate::known::Told;
use crate::places::Places;
use ev_expand::Numbers;
use ev_keys::Keys;
use ev_types::Name;
use indexmap::IndexSet;
use std::alloc::{AllocError, Global};

/// What the places that aren't complete wait for.
#[derive(Drop)]
pub(crate) struct Waiting {
    /// By place how many of its secrets, from the first on, are known to have come.
    pub passed: Vec<usize>,
    /// Each place that isn't complete, under the first that it still waits for.
    pub under: Places,
}

impl Waiting {
    /// There is no place. It takes no memory.
    pub(crate) fn new(alloc: Global, keys: Keys) -> Waiting
        ensures { (told : Told) → IsWaiting told [] result }
    {
        Waiting {
            passed: Vec::new(alloc),
            under: Places::new(alloc, keys),
        }
    }

    /// Takes what has come and the places that are new, goes on with each place that can, and gives those that are
    /// complete now.
    pub(crate) fn go_on(
        &mut self,
        alloc: Global,
        told: &mut Told,
        heard: Vec<Awaited>,
        numbers: &Numbers,
    ) -> Result<IndexSet<usize>, AllocError>
        ensures told { OnOk result (AddsAll told.old told.new heard.items) }
        ensures goes { (guarded : List Guarded) → IsWaiting told.old guarded self.old
            → Grows guarded (guarded_so_far numbers.now)
            → IfOk result (λ finished. GoesOn told.old told.new guarded
            (guarded_so_far numbers.now) self.new finished) }
    {
        let mut woken = take_up(alloc, &mut self.passed, numbers.len())?;
        wake(alloc, &mut self.under, heard.as_slice(), &mut woken)?;
        told.add_all(heard)?;
        self.advance_all(alloc, told, numbers, woken.as_slice())
    }

    // Goes on with these places, and gives the complete ones.
    fn advance_all(
        &mut self,
        alloc: Global,
        told: &Told,
        numbers: &Numbers,
        places: &[usize],
    ) -> Result<IndexSet<usize>, AllocError>
        ensures { HavePassed told.now (guarded_so_far numbers.now) self.old.passed.items
            → IfOk result (λ finished. Advances told.now
            (guarded_so_far numbers.now) places.now self.old self.new finished) }
    {
        let mut finished = IndexSet::new(alloc);
        for place in places {
            self.advance(alloc, told, numbers, *place, &mut finished)?;
        }
        Ok(finished)
    }

    // Goes on with a place: it is put under the first that it still waits for, or it is complete.
    fn advance(
        &mut self,
        alloc: Global,
        told: &Told,
        numbers: &Numbers,
        place: usize,
        finished: &mut IndexSet<usize>,
    ) -> Result<(), AllocError>
        ensures { HavePassed told.now (guarded_so_far numbers.now) self.old.passed.items
            → OnOk result (AdvancesOne told.now (guarded_so_far numbers.now) place self.old self.new finished.old
            finished.new) }
    {
        let Some((key, _)) = numbers.get(place) else {
            return Ok(());
        };
        let passed = count_on(&mut self.passed, told, place, key.names.as_slice());
        match told.next_of(alloc, key, passed)? {
            Some(awaited) => self.under.put(alloc, &awaited, place),
            None => insert_place(finished, place),
        }
    }
}

// Takes up the places that are new, up to a count, and gives them.
fn take_up(alloc: Global, passed: &mut Vec<usize>, count: usize) -> Result<Vec<usize>, AllocError>
    ensures counted { length passed.old.items ≤ count → OnOk result (length passed.new.items ≡ count) }
    ensures passed { OnOk result ((n : ℕ) → slice_index_or passed.new.items n 0 ≡ slice_index_or passed.old.items n 0) }
    ensures taken { IfOk result (λ places. HasBetween (length passed.old.items) count places.items) }
{
    let mut places = Vec::new(alloc);
    for place in passed.len()..count {
        passed.push(0)?;
        places.push(place)?;
    }
    Ok(places)
}

// Takes the places that wait for one of these out, and puts them after the others.
fn wake(
    alloc: Global,
    under: &mut Places,
    told: &[Awaited],
    woken: &mut Vec<usize>,
) -> Result<(), AllocError>
    ensures wakes { OnOk result (Wakes told.now under.old under.new woken.new.items) }
    ensures kept { OnOk result ((n : ℕ) → has_place woken.old.items n ≡ true → has_place woken.new.items n ≡ true) }
{
    for awaited in told {
        woken.extend_from_slice(under.take(alloc, awaited).as_slice())?;
    }
    Ok(())
}

// Counts on how many of the secrets of a place, from the first on, have come.
fn count_on(passed: &mut Vec<usize>, told: &Told, place: usize, secrets: &[Name]) -> usize
    ensures counted { are_told told.now (take (slice_index_or passed.old.items place 0) secrets.now) ≡ true
        → result ≡ first_told told.now secrets.now }
    ensures set { passed.new.items ≡ slice_set passed.old.items place result }
{
    let Some(count) = passed.get_mut(place) else {
        return told.first_told(secrets, 0);
    };
    *count = told.first_told(secrets, *count);
    *count
}
