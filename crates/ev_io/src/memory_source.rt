ghost use Rattle.std.specs.Prelude.{◌≡◌, ◌<◌, ◌≤◌, ◌⊎◌, ◌↔◌, IsTrue, false, min, length, take, drop, Some, Ok, OnOk, OnErr, IfOk, IsErr};
ghost use Rattle.std.specs.Io.KnownBytes.{prepend_known, IsAtEnd};
ghost use Rattle.ev_io.specs.Outside.{Rose, raised};
ghost use Rattle.ev_io.specs.Memory.{MemSourceState, NextReadFails};

use super::calls::Calls;
use super::outside::{Failed, Source};
use std::marker::Model;

/// A source over bytes in memory, which gives them in pieces and fails at calls that are named
/// beforehand. It says which bytes are left.
#[derive(Drop)]
pub struct MemSource {
    bytes: Vec<u8>,
    given: usize,
    most: usize,
    ended: bool,
    calls: Calls,
}

impl Model for MemSource {
    ghost Value = { MemSourceState };

    ghost view = { λ s. record {
      left = drop s.given s.bytes.items;
      piece = s.most;
      ended = s.ended;
      fails = s.calls.fails.items;
      calls = s.calls.made;
      faults = s.calls.faults;
    } };

    ghost invariant = { λ s. (0 < s.most) × (s.given ≤ length s.bytes.items) };
}

impl MemSource {
    /// A source of `bytes` that gives at most `piece` bytes a call, and fails at the calls whose
    /// numbers, counted from 1, are in `fails`.
    pub fn new(bytes: Vec<u8>, piece: usize, fails: Vec<u64>) -> MemSource
        requires { 0 < piece }
        ensures { result ≡ record {
          left = bytes.items;
          piece = piece;
          ended = false;
          fails = fails.items;
          calls = 0;
          faults = 0;
        } }
    {
        MemSource {
            bytes,
            given: 0,
            most: piece,
            ended: false,
            calls: Calls::new(fails),
        }
    }
}

impl Source for MemSource {
    ghost left = { λ s. Some s.left };

    ghost ended = { λ s. s.ended };

    ghost faults = { λ s. s.faults };

    #[tactic(auto, using(crate::proofs::Known::given_more, crate::proofs::Known::nothing_left))]
    fn read(&mut self, buf: &mut [u8]) -> Result<usize, Failed>
        ensures bound { IfOk result (λ n. n ≤ length buf.new) }
        ensures bytes { IfOk result (λ n. Some self.old.left ≡ prepend_known (take n buf.new) (Some self.new.left)) }
        ensures end { IfOk result (λ n. n ≡ 0 → 0 < length buf.new → IsAtEnd (Some self.new.left)) }
        ensures ended { IfOk result (λ n. n ≡ 0 → 0 < length buf.new → IsTrue self.new.ended) }
        ensures goes_on { (self.new.ended ≡ self.old.ended) ⊎ ((result ≡ Ok 0) × IsTrue self.new.ended) }
        ensures unchanged { OnErr result (Some self.new.left ≡ Some self.old.left) }
        ensures failed { OnErr result (Rose self.old.faults self.new.faults) }
        ensures same_count { OnOk result (self.new.faults ≡ self.old.faults) }
        ensures count { self.old.faults ≤ self.new.faults }

        // Which calls fail, how much the others give, and what is counted.
        ensures fails { IsErr result ↔ NextReadFails self.old }
        ensures gives { IfOk result (λ n. n ≡ min (length self.old.left) (min (length buf.new) self.old.piece)) }
        ensures counts { OnErr result (self.new.faults ≡ raised self.old.faults) }
        ensures plan { self.new ≡ record self.old {
          left = self.new.left;
          ended = self.new.ended;
          calls = raised self.old.calls;
          faults = self.new.faults;
        } }
    {
        if self.calls.begin() {
            self.calls.fail();
            return Err(Failed);
        }
        let n = copy_front(&self.bytes[self.given..], self.most, buf);
        self.given += n;
        if n == 0 && buf.len() > 0 {
            self.ended = true;
        }
        Ok(n)
    }
}

// Copies the first bytes of `from` to the beginning of `to`, as much as `most` and both of them allow.
fn copy_front(from: &[u8], most: usize, to: &mut [u8]) -> usize
    ensures count { result ≡ min (length from.now) (min (length to.new) most) }
    ensures copied { take result to.new ≡ take result from.now }
{
    let n = from.len().min(to.len().min(most));
    to[..n].copy_from_slice(&from[..n]);
    n
}
