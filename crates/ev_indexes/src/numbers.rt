//! Numbers of the generations that depend on a name. They are lent as a slice,
//! so they stand one after another and not in a tree, and one is found by halves.
//! The first leaves its place empty, so that generations that retire in the order in which they were made cost no move;
//! the rest moves up after another. That numbers come in rising order is no condition of `put`,
//! so that each clause holds of every list: each list keeps whether it is known to rise, and is walked where it isn't,
//! which never comes of numbers in the order in which they are allocated.

ghost use Rattle.std.specs.Prelude.{◌≡◌, ◌++◌, [], ◌∷◌, ◌+◌, ◌-◌, ◌<◌, ◌≤◌, drop, IsTrue, ◌↔◌, length, nat_le, slice_get, OnOk, OnErr};
ghost use Rattle.std.specs.List.{list_any};
ghost use Rattle.ev_indexes.specs.Numbers.{is_above_other, is_first_up_to};
ghost use Rattle.ev_indexes.specs.Watched.{is_last, numbers_without, with_last};

use ev_types::Gen;
use std::alloc::{AllocError, Global};
use std::marker::Model;

/// Numbers of generations in the order in which they were made.
/// As long as each is above those before it, which is so of numbers in the order in which they are allocated,
/// one is found among them by binary search.
#[derive(Drop)]
pub struct Numbers {
    numbers: Vec<Gen>,
    // So many at the beginning were left out.
    gone: usize,
    // Whether each of the others is known to be above those before it.
    rise: bool,
}

impl Model for Numbers {
    ghost use Rattle.std.specs.Prelude.{List, ℕ, drop};
    ghost use Rattle.ev_indexes.specs.Numbers.{AreStored};

    ghost Value = { List ℕ };

    ghost view = { λ n. drop n.gone n.numbers.items };

    ghost invariant = { λ n. AreStored n.gone n.rise n.numbers.items };
}

impl Numbers {
    /// No number. It takes no memory.
    pub fn new(alloc: Global) -> Numbers
        ensures { result ≡ [] }
    {
        Numbers {
            numbers: Vec::new(alloc),
            gone: 0,
            rise: true,
        }
    }

    /// The numbers in order.
    pub fn as_slice(&self) -> &[Gen]
        ensures elements { result.now ≡ self.now }
    {
        self.numbers.as_slice().split_at(self.gone).1
    }

    /// How many there are.
    pub fn len(&self) -> usize
        ensures count { result ≡ length self.now }
    {
        self.as_slice().len()
    }

    /// Whether there is none.
    pub fn is_empty(&self) -> bool
        ensures { IsTrue result ↔ (length self.now ≡ 0) }
    {
        self.len() == 0
    }

    /// Puts a number after the others, unless it is the last of them. Without memory they stay as they were.
    pub fn put(&mut self, number: Gen) -> Result<(), AllocError>
        ensures ok { OnOk result (self.new ≡ with_last number self.old) }
        ensures err { OnErr result (self.new ≡ self.old) }
    {
        if is_last(number, self.as_slice()) {
            return Ok(());
        }
        self.push(number)
    }

    // Puts a number after the others. Without memory they stay as they were.
    fn push(&mut self, number: Gen) -> Result<(), AllocError>
        ensures ok { OnOk result (self.new ≡ self.old ++ number ∷ []) }
        ensures err { OnErr result (self.new ≡ self.old) }
    {
        let rise = self.rise && is_above_last(number, self.as_slice());
        self.numbers.push(number)?;
        self.rise = rise;
        Ok(())
    }

    /// Leaves a number out. Where they rise, it is found by binary search;
    /// the first leaves its place empty, and after another the rest moves up at once.
    pub fn leave_out(&mut self, number: Gen)
        ensures { self.new ≡ numbers_without number self.old }
    {
        if !self.rise {
            cut(&mut self.numbers, &mut self.gone);
            self.numbers.retain(|other| *other != number);
            return;
        }
        match self.as_slice().binary_search(&number) {
            Ok(0) => leave_first(&mut self.numbers, &mut self.gone),
            Ok(place) => {
                self.numbers.remove(self.gone + place);
            }
            Err(_) => {}
        }
    }

    /// Whether one is at most this number. Where they rise, the first decides.
    pub fn has_up_to(&self, made: u32) -> bool
        ensures { result ≡ list_any (λ n. nat_le n made) self.now }
    {
        let numbers = self.as_slice();
        if self.rise {
            is_first_up_to(numbers, made)
        } else {
            numbers.iter().any(|number| number.number() <= made)
        }
    }
}

// Whether a number is the last of these.
fn is_last(number: Gen, numbers: &[Gen]) -> bool
    ensures { result ≡ is_last number numbers.now }
{
    match numbers.last() {
        Some(last) => number == *last,
        None => false,
    }
}

// Whether a number is above the last of these, where there is one.
fn is_above_last(number: Gen, numbers: &[Gen]) -> bool
    ensures { result ≡ is_above_other number (slice_get numbers.now (length numbers.now - 1)) }
{
    match numbers.last() {
        Some(last) => *last < number,
        None => true,
    }
}

// Whether the first of these is at most this number.
fn is_first_up_to(numbers: &[Gen], made: u32) -> bool
    ensures { result ≡ is_first_up_to made numbers.now }
{
    match numbers.first() {
        Some(first) => first.number() <= made,
        None => false,
    }
}

// The first leaves its place empty. Once more than half of the places are, the rest moves to the beginning.
fn leave_first(numbers: &mut Vec<Gen>, gone: &mut usize)
    requires { gone.old < length numbers.old.items }
    ensures within { gone.new ≤ length numbers.new.items }
    ensures left { drop gone.new numbers.new.items ≡ drop (gone.old + 1) numbers.old.items }
{
    *gone += 1;
    if *gone > numbers.len() / 2 {
        cut(numbers, gone);
    }
}

// The rest moves to the beginning.
fn cut(numbers: &mut Vec<Gen>, gone: &mut usize)
    requires { gone.old ≤ length numbers.old.items }
    ensures gone { gone.new ≡ 0 }
    ensures left { numbers.new.items ≡ drop gone.old numbers.old.items }
{
    numbers.drain(..*gone);
    *gone = 0;
}
