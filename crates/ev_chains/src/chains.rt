ghost use Rattle.std.specs.Prelude.{◌≡◌, ◌+◌, ◌<◌, ◌≤◌, ◌^◌, ◌++◌, ◌==◌, length, map, not, false, filter, IfOk, OnOk, OnErr, is_ok, if◌then◌else◌};
ghost use Rattle.serde_json.specs.View.{view};
ghost use Rattle.ev_tree.specs.Rules.{ReadsAs};
ghost use Rattle.ev_model.specs.Connections.{is_open};
ghost use Rattle.ev_listener_json.specs.Chains.{chains_of};
ghost use Rattle.ev_chains.specs.Listeners.{chains_in};
ghost use Rattle.ev_chains.specs.State.{opening, accepted, listener_reading};
ghost use Rattle.ev_chains.specs.Steps.{accept, close, drain, drained_by, reap, reaped_by};

use crate::changes::{Changed, ascending, numbers_above, part_rows, plain_numbers};
use crate::closing::{close_all, closing_conns, has_open, on_chain};
use crate::draining::{Draining, push_all};
use crate::listed::Listed;
use crate::next::{Next, read_next};
use ev_keys::Keys;
use ev_ledger::Ledger;
use ev_tree::ReadError;
use ev_types::Gen;
use serde_json::Value;
use std::alloc::{AllocError, Global};
use std::marker::Model;

/// How the chains take a connection.
#[derive(Clone, Copy, Debug, PartialEq, Eq)]
pub enum ChainAnswer {
    /// A connection of this number is open.
    InUse,
    /// No chain takes it.
    NoChain,
    /// The chain of this number takes it.
    Chain(u32),
}

/// The filter chains of a listener that changes in place, and the connections on them.
#[derive(Drop)]
pub struct Chains {
    made: u32,
    serving: Listed,
    // The numbers of all chains that ever began to drain, in that order. Those drain still that are in `draining`.
    began: Vec<Gen>,
    draining: Draining,
    // A connection's listener is its chain.
    ledger: Ledger,
}

impl Model for Chains {
    ghost use Rattle.ev_chains.specs.State.{ChainState};
    ghost use Rattle.ev_chains.specs.Kept.{AreKept, draining_in};

    ghost Value = { ChainState };

    ghost view = { λ c. record {
      made = c.made;
      serving = c.serving;
      draining = draining_in c.began.items c.draining.idle.items c.draining.busy.keys;
      opened = c.ledger;
    } };

    ghost invariant = { λ c. AreKept c.made c.serving c.began.items c.draining.idle.items c.draining.busy.keys c.ledger };
}

impl Chains {
    /// No chain, and no connection; chains will be found by tables of these keys. It takes no memory.
    pub fn new(alloc: Global, keys: Keys) -> Chains
        ensures { result ≡ opening }
    {
        Chains {
            made: 0,
            serving: Listed::new(alloc, keys),
            began: Vec::new(alloc),
            draining: Draining::new(alloc),
            ledger: Ledger::new(alloc),
        }
    }

    /// How many numbers were allocated so far: the greatest number of a chain.
    pub fn made(&self) -> u32
        ensures { result ≡ self.now.made }
    {
        self.made
    }

    /// The listener comes in a version: each serving chain that equals one of its chains goes on,
    /// the others drain, and its other chains serve under new numbers. Numbers are allocated from 1 to 2^32 - 1.
    ///
    /// # Errors
    /// `Rule` with the lowest-numbered rule that it breaks, of V2, V6, V10, V14, V16 to V24, V26 and V27;
    /// then, and where there is no memory, all stays as it was.
    pub fn listener(&mut self, alloc: Global, body: &Value) -> Result<Changed, ReadError>
        requires room { self.old.made + length (chains_of (view body.now)) < 2 ^ 32 }
        ensures answer { ReadsAs result (listener_reading (view body.now) self.old) }
        ensures state { OnOk result (self.new ≡ accepted (chains_in (view body.now)) self.old) }
        ensures err { OnErr result (self.new ≡ self.old) }
    {
        let Next { rows, made } = read_next(alloc, self.made, &self.serving, body)?;
        let parted = part_rows(alloc, self.serving.rows(), &rows)?;
        let changed = Changed {
            drained: ascending(plain_numbers(alloc, parted.gone.as_slice())?)?,
            kept: ascending(parted.kept)?,
            made: numbers_above(alloc, self.made, made)?,
        };
        let gone = parted.gone.as_slice();
        self.began.reserve(gone.len())?;
        self.draining.start(alloc, &self.ledger, gone)?;
        push_all(&mut self.began, gone);
        self.serving = rows;
        self.made = made;
        Ok(changed)
    }

    /// A connection comes to a port and names a server, or none by the empty text. Out of memory, all stays as it was.
    pub fn accept(
        &mut self,
        alloc: Global,
        conn: u64,
        server: &str,
        port: u16,
    ) -> Result<ChainAnswer, AllocError>
        ensures answer { IfOk result (λ answer. answer ≡ (accept conn server.now port self.old).1) }
        ensures state { OnOk result (self.new ≡ (accept conn server.now port self.old).0) }
        ensures err { OnErr result (self.new ≡ self.old) }
    {
        if self.ledger.is_open(0, conn) {
            return Ok(ChainAnswer::InUse);
        }
        match self.serving.choose(alloc, server, port)? {
            Some(number) => {
                self.ledger.open(0, conn, on_chain(number))?;
                Ok(ChainAnswer::Chain(number.number()))
            }
            None => Ok(ChainAnswer::NoChain),
        }
    }

    /// A connection closes. Whether it was open. It takes no memory.
    pub fn close(&mut self, conn: u64) -> bool
        ensures answer { result ≡ is_open self.old.opened 0 conn }
        ensures state { self.new ≡ close conn self.old }
    {
        let on = self.ledger.on(0, conn);
        let was_open = self.ledger.close(0, conn);
        if let Some(on) = on {
            if !has_open(&self.ledger, on.listener) {
                self.draining.end(on.listener);
            }
        }
        was_open
    }

    /// The drain timeout comes: the connections on chains that drain are closed.
    /// Their numbers, from the least. Out of memory, all stays as it was.
    pub fn drain(&mut self, alloc: Global) -> Result<Vec<u64>, AllocError>
        ensures answer { IfOk result (λ closed. closed.items ≡ drained_by self.old) }
        ensures state { OnOk result (self.new ≡ drain self.old) }
        ensures err { OnErr result (self.new ≡ self.old) }
    {
        let closed = closing_conns(alloc, &self.ledger, self.draining.busy_numbers())?;
        close_all(&mut self.ledger, closed.as_slice());
        self.draining.end_all(alloc);
        Ok(closed)
    }

    /// The chains go that drain without a connection. Their numbers, from the least.
    /// Out of memory, all stays as it was.
    pub fn reap(&mut self, alloc: Global) -> Result<Vec<u32>, AllocError>
        ensures answer { IfOk result (λ reaped. reaped.items ≡ reaped_by self.old) }
        ensures state { OnOk result (self.new ≡ reap self.old) }
        ensures err { OnErr result (self.new ≡ self.old) }
    {
        let reaped = ascending(plain_numbers(alloc, self.draining.idle.as_slice())?)?;
        self.draining.go();
        Ok(reaped.into_vec())
    }
}
