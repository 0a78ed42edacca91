use ev_model::Choice;
use ev_snapshot::Snapshot;
use ev_types::{Event, Seq};
use std::sync::Arc;

/// How a worker answers a connection that comes.
#[derive(Clone, Copy, Debug, PartialEq, Eq)]
pub enum Accepted {
    /// The worker has a connection of this number open.
    InUse,
    /// It goes where the worker's picture says.
    Chosen(Choice),
}

/// How a worker answers the close of a connection.
#[derive(Clone, Copy, Debug, PartialEq, Eq)]
pub enum Closed {
    /// It is closed.
    Done,
    /// The worker has no connection of this number open.
    NotOpen,
}

/// How a line of a batch was answered.
#[derive(Clone, Copy, Debug, PartialEq, Eq)]
pub enum Outcome {
    /// An accept.
    Accepted(Accepted),
    /// A close.
    Closed(Closed),
}

/// One accept or close of a worker.
#[derive(Drop)]
pub struct BatchLine {
    /// The number of its line in the script.
    pub at: u32,
    pub event: Event,
    pub outcome: Outcome,
}

/// What a worker takes over when it settles: which of its connections were closed,
/// which moved to a listener that keeps their chain, and the last picture with its version.
#[derive(Drop)]
pub struct Settled {
    pub closed: Seq<u64>,
    pub moved: Seq<u64>,
    pub version: u64,
    pub snapshot: Arc<Snapshot>,
}
