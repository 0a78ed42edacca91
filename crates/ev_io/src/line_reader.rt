ghost use Rattle.std.specs.Prelude.{◌≡◌, ◌+◌, ◌<◌, ◌≤◌, ◌⊎◌, List, ℕ, [], ◌++◌, length, take, drop, None, Some, Ok, Err, OnOk, OnErr, IfOk, IfErr, IsTrue, vec_len};
ghost use Rattle.std.specs.Io.KnownBytes.{IsAtEnd};
ghost use Rattle.ev_io.specs.declared.limits.TheConstants.{MAX_INPUT_BYTES, MAX_PIECE_BYTES};
ghost use Rattle.ev_io.specs.Outside.{Rose, Takes};
ghost use Rattle.ev_io.specs.Found.{IsLine};
ghost use Rattle.ev_io.specs.declared.faults.LineFault.{LineFault};
ghost use Rattle.ev_io.specs.LinesState.{IsFresh, FindsNext, HasTaken, IsWithin, Grows};
ghost use Rattle.ev_io.specs.ReadLine.{ReadsOn, AsksWhereUnfinished, LeavesOpen, HasFailed};

use super::faults::{LineEnd, LineFault};
use super::found::{Found, find_next};
use super::limits::{MAX_INPUT_BYTES, MAX_PIECE_BYTES};
use super::outside::{Failed, Source};
use ev_keys::Keys;
use std::alloc::{AllocError, Global};
use std::hash::{DefaultHasher, Hasher};
use std::marker::Model;

/// Reads a source's bytes line by line. It keeps the line that it is at, and not the input.
#[derive(Drop)]
pub struct Lines {
    // the bytes taken, of which those from `start` on aren't given yet
    buffer: Vec<u8>,
    start: usize,
    // how many of those are known to be no line feeds
    searched: usize,
    // what a read puts its bytes into
    piece: Vec<u8>,
    taken: usize,
    given: u32,
    ended: bool,
    told: Option<LineFault>,
    // fed each line that was given
    hasher: DefaultHasher,
}

impl Model for Lines {
    ghost use Rattle.std.specs.Prelude.{drop};
    ghost use Rattle.ev_io.specs.LinesState.{LinesState, IsKept};

    ghost Value = { LinesState };

    ghost view = { λ s. record {
      taken = s.taken;
      given = s.given;
      pending = drop s.start s.buffer.items;
      ended = s.ended;
      told = s.told;
    } };

    ghost invariant = { λ s. IsKept s.start s.searched s.taken s.buffer.items s.piece.items (drop s.start s.buffer.items) };
}

impl Lines {
    /// A reader at an input's first byte. It is used with one source, which each call gets.
    ///
    /// # Errors
    /// `AllocError` where there is no memory for a piece of the source.
    #[tactic(auto, using(crate::proofs::ReadLemmas::nothing_taken))]
    pub fn new(alloc: Global) -> Result<Lines, AllocError>
        ensures opens { IfOk result IsFresh }
        ensures taken { IfOk result (λ lines. HasTaken lines []) }
    {
        Ok(Lines {
            buffer: Vec::new(alloc),
            start: 0,
            searched: 0,
            piece: buffer_of(alloc, MAX_PIECE_BYTES)?,
            taken: 0,
            given: 0,
            ended: false,
            told: None,
            hasher: DefaultHasher::new(),
        })
    }

    /// The number of lines given so far.
    pub fn number(&self) -> u32
        ensures { result ≡ self.now.given }
    {
        self.given
    }

    /// The keys that are made of the lines given so far: tables of names that stand
    /// in these lines hash by them. Which keys they are is unspecified.
    pub fn keys(&self) -> Keys {
        Keys::after(self.hasher)
    }

    /// Puts the next line into `out`, without its line feed, which the last line may lack. An empty
    /// line is a line. It asks the source for pieces of at most 65,536 bytes, each only where the
    /// bytes taken hold neither the next line's end nor a fault, and never for byte 67,108,866.
    /// After any answer but a line `out` is as before.
    ///
    /// # Errors
    /// `TooLong`, `TooMany` and `TooLarge` where the first fault of the bytes taken is in the
    /// next line, and `Failed` where a read failed before: each call from then on returns the same.
    /// `OutOfMemory` where there is no memory: the next call goes on with the bytes taken.
    pub fn read_line<S: Source>(
        &mut self,
        source: &mut S,
        out: &mut Vec<u8>,
    ) -> Result<LineEnd, LineFault>
        // What the answer means, whatever bytes were taken before, and what is taken and held at most.
        ensures reads { ReadsOn S.left source.old source.new self.old self.new out.old.items out.new.items result }
        ensures at_end { IsTrue self.new.ended → IsTrue self.old.ended ⊎ IsAtEnd (S.left source.new) }
        ensures at_most { IsWithin self.new }

        // A fault is reported ever after, and then nothing changes.
        ensures again { (fault : LineFault) → self.old.told ≡ Some fault → result ≡ Err fault }
        ensures again_self { (fault : LineFault) → self.old.told ≡ Some fault → self.new ≡ self.old }
        ensures again_source { (fault : LineFault) → self.old.told ≡ Some fault → source.new ≡ source.old }
        ensures again_out { (fault : LineFault) → self.old.told ≡ Some fault → out.new.items ≡ out.old.items }

        // The source isn't touched where it isn't needed, nor after its end, and its count rises where a read fails.
        ensures untouched { AsksWhereUnfinished source.old source.new self.old }
        ensures unended { LeavesOpen S.ended source.old source.new self.old self.new }
        ensures failed { result ≡ Err LineFault.Failed → HasFailed S.faults source.old source.new self.old }
        ensures same_count { (S.faults source.new ≡ S.faults source.old) ⊎ (result ≡ Err LineFault.Failed) }
        ensures count { S.faults source.old ≤ S.faults source.new }
    {
        if let Some(fault) = self.told {
            return Err(fault);
        }
        match self.find(source)? {
            Found::Line(length) => {
                self.give(length, out)?;
                Ok(LineEnd::Line)
            }
            Found::End => Ok(LineEnd::End),
            Found::Fault(fault) => {
                self.told = Some(fault);
                Err(fault)
            }
        }
    }

    // What comes next in the bytes taken.
    #[tactic(auto, using(std::proofs::lemmas::List::take_rest))]
    fn look(&self) -> Option<Found>
        ensures found { FindsNext self.now result }
        ensures at_most { IsWithin self.now }
    {
        find_next(
            &self.buffer[self.start..],
            self.searched,
            self.taken,
            self.given,
            self.ended,
        )
    }

    // Gives the next line, of `length` bytes.
    fn give(&mut self, length: usize, out: &mut Vec<u8>) -> Result<(), AllocError>
        requires { IsLine self.old.taken self.old.given self.old.pending self.old.ended length }
        ensures given { OnOk result (self.new ≡ record self.old {
          given = self.old.given + 1;
          pending = drop (length + 1) self.old.pending;
        }) }
        ensures line { OnOk result (out.new.items ≡ take length self.old.pending) }
        ensures unchanged { OnErr result (self.new ≡ self.old) }
        ensures out { OnErr result (out.new.items ≡ out.old.items) }
    {
        let end = self.start + length;
        replace(out, &self.buffer[self.start..end])?;
        self.hasher.write(&self.buffer[self.start..end]);
        self.start = self.buffer.len().min(end + 1);
        self.searched = 0;
        self.given += 1;
        Ok(())
    }

    // What comes next, of as many pieces as it takes.
    fn find<S: Source>(&mut self, source: &mut S) -> Result<Found, LineFault>
        requires { self.old.told ≡ None }
        ensures grows { (more : List ℕ) × Grows (S.left source.old) (S.left source.new) self.old self.new more }
        ensures found { IfOk result (λ found. FindsNext self.new (Some found)) }
        ensures told { OnOk result (self.new.told ≡ None) }
        ensures failed { result ≡ Err LineFault.Failed → self.new.told ≡ Some LineFault.Failed }
        ensures rose { result ≡ Err LineFault.Failed → Rose (S.faults source.old) (S.faults source.new) }
        ensures wanted { result ≡ Err LineFault.Failed → FindsNext self.new None }
        ensures no_memory { result ≡ Err LineFault.OutOfMemory → self.new.told ≡ None }
        ensures no_fault { result ≡ Err LineFault.OutOfMemory → S.faults source.new ≡ S.faults source.old }
        ensures causes { IfErr result (λ fault. (fault ≡ LineFault.Failed) ⊎ (fault ≡ LineFault.OutOfMemory)) }
        ensures untouched { ((source.new ≡ source.old) × (self.new ≡ self.old)) ⊎ FindsNext self.old None }
        ensures at_end { IsTrue self.new.ended → IsTrue self.old.ended ⊎ IsAtEnd (S.left source.new) }
        ensures unended { LeavesOpen S.ended source.old source.new self.old self.new }
        ensures at_most { IsWithin self.new }
        ensures same_count { OnOk result (S.faults source.new ≡ S.faults source.old) }
        ensures count { S.faults source.old ≤ S.faults source.new }
    {
        'pieces: loop {
            if let Some(found) = self.look() {
                return Ok(found);
            }
            self.take_piece(source)?;
        }
    }

    // Takes a piece of the source, or its end.
    fn take_piece<S: Source>(&mut self, source: &mut S) -> Result<(), LineFault>
        requires untold { self.old.told ≡ None }
        requires more { FindsNext self.old None }
        ensures grows { (more : List ℕ) × Grows (S.left source.old) (S.left source.new) self.old self.new more }
        ensures told { OnOk result (self.new.told ≡ None) }
        ensures progress { OnOk result (IsTrue self.new.ended ⊎ (self.old.taken < self.new.taken)) }
        ensures at_end { IsTrue self.new.ended → IsAtEnd (S.left source.new) }
        ensures unended { LeavesOpen S.ended source.old source.new self.old self.new }
        ensures at_most { IsWithin self.new }
        ensures failed { result ≡ Err LineFault.Failed → self.new ≡ record self.old { told = Some LineFault.Failed } }
        ensures rose { result ≡ Err LineFault.Failed → Rose (S.faults source.old) (S.faults source.new) }
        ensures no_memory { result ≡ Err LineFault.OutOfMemory → (self.new ≡ self.old) × (source.new ≡ source.old) }
        ensures causes { IfErr result (λ fault. (fault ≡ LineFault.Failed) ⊎ (fault ≡ LineFault.OutOfMemory)) }
        ensures same_count { OnOk result (S.faults source.new ≡ S.faults source.old) }
        ensures count { S.faults source.old ≤ S.faults source.new }
    {
        drop_front(&mut self.buffer, self.start);
        self.start = 0;
        self.searched = self.buffer.len();
        let most = MAX_PIECE_BYTES.min(MAX_INPUT_BYTES + 1 - self.taken);
        let piece = self.piece.as_mut_slice();
        let count = match append_piece(source, piece, &mut self.buffer, most) {
            Ok(count) => count,
            Err(fault) => {
                if fault == LineFault::Failed {
                    self.told = Some(fault);
                }
                return Err(fault);
            }
        };
        self.taken += count;
        self.ended = count == 0;
        Ok(())
    }
}

// A buffer of this many bytes.
fn buffer_of(alloc: Global, size: usize) -> Result<Vec<u8>, AllocError>
    ensures { IfOk result (λ buffer. vec_len buffer ≡ size) }
{
    vec![in alloc; 0; size]
}

// Puts `bytes` in place of what `out` holds.
fn replace(out: &mut Vec<u8>, bytes: &[u8]) -> Result<(), AllocError>
    ensures replaced { OnOk result (out.new.items ≡ bytes.now) }
    ensures unchanged { OnErr result (out.new.items ≡ out.old.items) }
{
    out.reserve(bytes.len().saturating_sub(out.len()))?;
    out.clear();
    match out.extend_from_slice(bytes) {
        Ok(()) => Ok(()),
        Err(_) => unreachable!(),
    }
}

// Drops the first `count` bytes. The others are moved only where there are some to drop, so that a
// long line isn't moved at each of its pieces.
fn drop_front(bytes: &mut Vec<u8>, count: usize)
    requires { count ≤ vec_len bytes.old }
    ensures { bytes.new.items ≡ drop count bytes.old.items }
{
    if count > 0 {
        drop(bytes.drain(..count));
    }
}

// Appends to `bytes` what one read of at most `most` bytes gives, and says how many: none at the
// end of the source. The memory is taken before.
#[tactic(auto, using(crate::proofs::Known::takes_front))]
fn append_piece<S: Source>(
    source: &mut S,
    piece: &mut [u8],
    bytes: &mut Vec<u8>,
    most: usize,
) -> Result<usize, LineFault>
    requires some { 0 < most }
    requires within { most ≤ length piece.old }
    ensures bound { IfOk result (λ count. count ≤ most) }
    ensures bytes { IfOk result (λ count. bytes.new.items ≡ bytes.old.items ++ take count piece.new) }
    ensures takes { IfOk result (λ count. Takes (S.left source.old) (S.left source.new) (take count piece.new)) }
    ensures end { IfOk result (λ count. count ≡ 0 → IsAtEnd (S.left source.new)) }
    ensures unended { (S.ended source.new ≡ S.ended source.old) ⊎ (result ≡ Ok 0) }
    ensures same_count { OnOk result (S.faults source.new ≡ S.faults source.old) }
    ensures count { S.faults source.old ≤ S.faults source.new }
    ensures unchanged { OnErr result ((bytes.new.items ≡ bytes.old.items) × (S.left source.new ≡ S.left source.old)) }
    ensures failed { result ≡ Err LineFault.Failed → Rose (S.faults source.old) (S.faults source.new) }
    ensures no_memory { result ≡ Err LineFault.OutOfMemory → source.new ≡ source.old }
    ensures causes { IfErr result (λ fault. (fault ≡ LineFault.Failed) ⊎ (fault ≡ LineFault.OutOfMemory)) }
{
    bytes.reserve(most)?;
    match source.read(&mut piece[..most]) {
        Ok(count) => match bytes.extend_from_slice(&piece[..count]) {
            Ok(()) => Ok(count),
            Err(_) => unreachable!(),
        },
        Err(Failed) => Err(LineFault::Failed),
    }
}
