use crate::{Actor, Answer, Op};

/// One line of a journal as it is written: it has the event's word, and not the event.
#[derive(Drop)]
pub struct Row {
    pub actor: Actor,
    pub at: u32,
    pub step: u32,
    pub op: Op,
    pub answer: Answer,
}

/// Which rules a journal follows, as its first line says.
#[derive(Clone, Copy, Debug, PartialEq, Eq)]
pub enum Format {
    /// Format 1: a draining listener may be destroyed before its drain timeout, and no settle is left out.
    One,
    /// Format 2: a draining listener waits for its drain timeout, and settles of idle workers may be left out.
    Two,
}

/// What is found of a journal that is held against its script.
#[derive(Clone, Copy, Debug, PartialEq, Eq)]
pub enum Finding {
    /// It is a run of the machine that holds the script's operations.
    Legal,
    /// The row of this number, from 1, isn't answered as the machine answers, or breaks into a worker's batch.
    IllegalAt(u32),
    /// The row of this number, from 1, isn't its actor's next operation, or is missing.
    NotTheScript(u32),
}
