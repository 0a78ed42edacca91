use ev_types::Actor;
use ev_worker::Batch;
use std::sync::Wait;

/// What is called before each turn of an actor of the threaded run.
pub trait Pace {
    /// Called before the turn in which an actor makes its operation of this line,
    /// after its earlier turns and never inside one. A worker's batch has all lines that the turn will enter;
    /// other actors have none. A call that waits holds its actor up, and nothing else.
    fn step<R: Wait>(&self, rt: &R, actor: Actor, at: u32, batch: Option<&Batch>);
}

/// The pace that holds nobody up.
#[derive(Clone, Copy, Debug)]
pub struct Free;

impl Pace for Free {
    fn step<R: Wait>(&self, _rt: &R, _actor: Actor, _at: u32, _batch: Option<&Batch>) {}
}
