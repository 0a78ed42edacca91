ghost use Rattle.std.specs.Prelude.{◌≡◌, ◌<◌, ◌≤◌, ◌*◌, ◌/◌, List, [], ◌∷◌, ◌++◌, length, slice_set, slice_index_or, false, OnOk, OnErr};
ghost use Rattle.ev_hosts.specs.Bits.{count_set, has_bit, KeepsMarks, PutsBit, PutsMark};

use ev_types::{Seq, TryCopy};
use std::alloc::{AllocError, Global};
use std::marker::Model;

/// A list of marks, one bit each.
#[derive(Drop)]
pub struct Marks {
    words: Seq<u64>,
    len: usize,
    count: usize,
}

impl Model for Marks {
    ghost use Rattle.std.specs.Prelude.{Bool, List};
    ghost use Rattle.ev_hosts.specs.Bits.{marks_of, AreCounted};

    ghost Value = { List Bool };

    ghost view = { λ m. marks_of m.words m.len };

    ghost invariant = { λ m. AreCounted m.words m.len m.count };
}

impl Marks {
    /// No marks. It takes no memory.
    pub fn new(alloc: Global) -> Marks
        ensures { result ≡ [] }
    {
        Marks {
            words: Seq::new(alloc),
            len: 0,
            count: 0,
        }
    }

    /// How many there are.
    pub fn len(&self) -> usize
        ensures { result ≡ length self.now }
    {
        self.len
    }

    /// How many are set.
    pub fn count(&self) -> usize
        ensures { result ≡ count_set self.now }
    {
        self.count
    }

    /// The mark at a place.
    pub fn get(&self, place: usize) -> bool
        requires { place < length self.now }
        ensures { result ≡ slice_index_or self.now place false }
    {
        has_bit(self.words.as_slice()[place / 64], place % 64)
    }

    /// Puts a mark in place of another. It takes no memory.
    pub fn set(&mut self, place: usize, mark: bool)
        requires { place < length self.old }
        ensures { self.new ≡ slice_set self.old place mark }
    {
        let before = self.get(place);
        put(&mut self.words, place, mark);
        self.count = self.count - before as usize + mark as usize;
    }

    /// Puts a mark at the end. Out of memory, the marks stay as they were.
    pub fn push(&mut self, mark: bool) -> Result<(), AllocError>
        ensures ok { OnOk result (self.new ≡ self.old ++ mark ∷ []) }
        ensures err { OnErr result (self.new ≡ self.old) }
    {
        let Some(len) = self.len.checked_add(1) else {
            return Err(AllocError);
        };
        make_room(&mut self.words, self.len)?;
        put(&mut self.words, self.len, mark);
        self.len = len;
        self.count += mark as usize;
        Ok(())
    }
}

// Makes room for one more mark after so many, where there is none.
fn make_room(words: &mut Seq<u64>, len: usize) -> Result<(), AllocError>
    requires { len ≤ 64 * length words.old }
    ensures ok { OnOk result (len < 64 * length words.new) }
    ensures keeps { KeepsMarks words.old words.new }
    ensures room { length words.old ≤ length words.new }
{
    if len / 64 < words.len() {
        return Ok(());
    }
    words.push(0)
}

// Whether the bit at a place of a word is set.
fn has_bit(word: u64, place: usize) -> bool
    requires { place < 64 }
    ensures { result ≡ has_bit word place }
{
    word >> place & 1 == 1
}

// The word with this bit at a place.
fn with_bit(word: u64, place: usize, mark: bool) -> u64
    requires { place < 64 }
    ensures { PutsBit place mark word result }
{
    let bit = 1u64 << place;
    if mark { word | bit } else { word & !bit }
}

// Puts a mark at a place of words.
fn put(words: &mut Seq<u64>, place: usize, mark: bool)
    requires { place / 64 < length words.old }
    ensures len { length words.new ≡ length words.old }
    ensures put { PutsMark place mark words.old words.new }
{
    let word = words.as_slice()[place / 64];
    words.set(place / 64, with_bit(word, place % 64, mark));
}

impl TryCopy for Marks {
    fn copy(&self, alloc: Global) -> Result<Marks, AllocError> {
        Ok(Marks {
            words: self.words.copy(alloc)?,
            len: self.len,
            count: self.count,
        })
    }
}
