ghost use Rattle.std.specs.Prelude.{◌≡◌, ◌<◌, ◌≤◌, ◌↔◌, ◌++◌, min, length, take, [], Some, OnOk, OnErr, IfOk, IsErr, vec_capacity};
ghost use Rattle.ev_io.specs.Outside.{Rose, raised};
ghost use Rattle.ev_io.specs.Memory.{MemSinkState, NextWriteFails, room_left};

use super::calls::Calls;
use super::outside::{Failed, Sink};
use std::alloc::{AllocError, Global};
use std::marker::Model;

/// A sink that keeps in memory what is written, takes it in pieces, and fails at calls that are
/// named beforehand and where its room is full. It says what is written.
#[derive(Drop)]
pub struct MemSink {
    bytes: Vec<u8>,
    limit: usize,
    most: usize,
    calls: Calls,
}

impl Model for MemSink {
    ghost Value = { MemSinkState };

    ghost view = { λ s. record {
      written = s.bytes.items;
      room = s.limit;
      piece = s.most;
      fails = s.calls.fails.items;
      calls = s.calls.made;
      faults = s.calls.faults;
    } };

    ghost invariant = { λ s. (0 < s.most) × (length s.bytes.items ≤ s.limit) × (s.limit ≤ vec_capacity s.bytes) };
}

impl MemSink {
    /// A sink with room for `room` bytes, whose memory it takes at once. It takes at most `piece`
    /// bytes a call, and fails at the calls whose numbers, counted from 1, are in `fails`.
    pub fn new(
        alloc: Global,
        room: usize,
        piece: usize,
        fails: Vec<u64>,
    ) -> Result<MemSink, AllocError>
        requires { 0 < piece }
        ensures { IfOk result (λ s. s ≡ record {
          written = [];
          room = room;
          piece = piece;
          fails = fails.items;
          calls = 0;
          faults = 0;
        }) }
    {
        Ok(MemSink {
            bytes: Vec::with_capacity(alloc, room)?,
            limit: room,
            most: piece,
            calls: Calls::new(fails),
        })
    }

    /// The bytes written so far.
    pub fn as_bytes(&self) -> &[u8]
        ensures { result.now ≡ self.now.written }
    {
        self.bytes.as_slice()
    }
}

impl Sink for MemSink {
    ghost written = { λ s. Some s.written };

    ghost faults = { λ s. s.faults };

    fn write(&mut self, bytes: &[u8]) -> Result<usize, Failed>
        ensures bound { IfOk result (λ n. n ≤ length bytes.now) }
        ensures some { IfOk result (λ n. 0 < length bytes.now → 0 < n) }
        ensures bytes { IfOk result (λ n. Some self.new.written ≡ Some (self.old.written ++ take n bytes.now)) }
        ensures unchanged { OnErr result (Some self.new.written ≡ Some self.old.written) }
        ensures failed { OnErr result (Rose self.old.faults self.new.faults) }
        ensures same_count { OnOk result (self.new.faults ≡ self.old.faults) }
        ensures count { self.old.faults ≤ self.new.faults }

        // Which calls fail, how much the others take, and what is counted.
        ensures fails { IsErr result ↔ NextWriteFails self.old bytes.now }
        ensures takes { IfOk result (λ n. n ≡ min (room_left self.old) (min (length bytes.now) self.old.piece)) }
        ensures counts { OnErr result (self.new.faults ≡ raised self.old.faults) }
        ensures plan { self.new ≡ record self.old {
          written = self.new.written;
          calls = raised self.old.calls;
          faults = self.new.faults;
        } }
    {
        let named = self.calls.begin();
        let room = self.limit - self.bytes.len();
        let is_full = room == 0 && bytes.len() > 0;
        if named || is_full {
            self.calls.fail();
            return Err(Failed);
        }
        let n = room.min(bytes.len().min(self.most));
        match self.bytes.extend_from_slice(&bytes[..n]) {
            Ok(()) => Ok(n),
            Err(_) => unreachable!(),
        }
    }
}
