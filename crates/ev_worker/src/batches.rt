ghost use Rattle.std.specs.Prelude.{◌≡◌, ◌≤◌, ◌<◌, [], ◌∷◌, ◌++◌, length, IfOk};
ghost use Rattle.ev_model.specs.Operations.{batch_limit};

use crate::lines::BatchLine;
use std::alloc::{AllocError, Global};
use std::marker::Model;

/// How many accepts and closes a worker may make between two settles.
pub(crate) const BATCH_LIMIT: usize = 256;

/// What a worker did since it settled: accepts and closes, in order, with how they were answered.
/// It has room for as many as there may be between two settles, 256.
#[derive(Drop)]
pub struct Batch {
    worker: u32,
    lines: Vec<BatchLine>,
}

impl Model for Batch {
    ghost use Rattle.std.specs.Prelude.{◌≤◌, vec_len, vec_capacity};
    ghost use Rattle.ev_model.specs.Operations.{batch_limit};
    ghost use Rattle.ev_worker.specs.Batches.{BatchParts};

    ghost Value = { BatchParts };

    ghost view = { λ b. record { worker = b.worker; lines = b.lines.items } };

    ghost invariant = { λ b. (vec_len b.lines ≤ batch_limit) × (batch_limit ≤ vec_capacity b.lines) };
}

impl Batch {
    /// The worker's batch with no line yet, and with room for all that it may have.
    pub(crate) fn new(alloc: Global, worker: u32) -> Result<Batch, AllocError>
        ensures { IfOk result (λ batch. batch ≡ record { worker = worker; lines = [] }) }
    {
        Ok(Batch {
            worker,
            lines: Vec::with_capacity(alloc, BATCH_LIMIT)?,
        })
    }

    /// The worker that made it.
    pub fn worker(&self) -> u32
        ensures { result ≡ self.now.worker }
    {
        self.worker
    }

    /// Its lines in order.
    pub fn lines(&self) -> &[BatchLine]
        ensures lines { result.now ≡ self.now.lines }
        ensures few { length self.now.lines ≤ batch_limit }
    {
        self.lines.as_slice()
    }

    /// Puts a line at the end, where there is room. It takes no memory.
    pub(crate) fn push(&mut self, line: BatchLine)
        requires { length self.old.lines < batch_limit }
        ensures { self.new ≡ record self.old { lines = self.old.lines ++ line ∷ [] } }
    {
        self.lines.push_reserved(line);
    }

    /// Takes all lines out. It takes no memory.
    pub(crate) fn clear(&mut self)
        ensures { self.new ≡ record self.old { lines = [] } }
    {
        self.lines.clear();
    }
}
