//! A pace that holds actors up until others have stepped, and looks at the last batch of a worker.
use ev_model::Choice;
use ev_run::Pace;
use ev_types::{Actor, Gen, Way};
use ev_worker::{Accepted, Batch, Outcome};
use std::sync::Wait;
use std::sync::atomic::{AtomicBool, AtomicU64, Ordering};
use std::time::Duration;

/// How often an actor looks at most whether the other has stepped, and how long it sleeps between, in microseconds.
const TURNS: u32 = 100_000;

const NAP: u64 = 200;

/// A step of an actor: who makes it, and at which line.
#[derive(Clone, Copy, Debug, PartialEq, Eq)]
pub struct Step {
    pub actor: Actor,
    pub at: u32,
}

/// One step is held up until another one is about to be made.
#[derive(Drop)]
pub struct Hold {
    held: Step,
    until: Step,
    // 1 once that came
    came: AtomicU64,
}

impl Hold {
    /// Nothing has stepped yet.
    pub fn new(held: Step, until: Step) -> Hold {
        Hold {
            held,
            until,
            came: AtomicU64::new(0),
        }
    }

    // Notes the step, and holds it up where it is the held one. Whether that was given up.
    fn gives_up<R: Wait>(&self, rt: &R, step: Step) -> bool {
        if step == self.until {
            self.came.store(1, Ordering::SeqCst);
            self.came.wake_all();
        }
        if step == self.held {
            for _turn in 0..TURNS {
                if self.came.load(Ordering::SeqCst) == 1 {
                    return false;
                }
                self.came.park_timeout(rt, 0, Duration::from_micros(NAP));
            }
            return true;
        }
        false
    }
}

/// Two holds, with what came of them.
#[derive(Drop)]
pub struct Holds {
    first: Hold,
    second: Hold,
    gave_up: AtomicBool,
    served: AtomicBool,
}

impl Holds {
    /// Nothing has stepped yet.
    pub fn new(first: Hold, second: Hold) -> Holds {
        Holds {
            first,
            second,
            gave_up: AtomicBool::new(false),
            served: AtomicBool::new(false),
        }
    }

    /// Whether one of them gave up.
    pub fn gave_up(&self) -> bool {
        self.gave_up.load(Ordering::SeqCst)
    }

    /// Whether a worker came at line 10 with one line, a connection that listener 2 gives
    /// to the first host of cluster 1.
    pub fn served(&self) -> bool {
        self.served.load(Ordering::SeqCst)
    }
}

impl Pace for Holds {
    fn step<R: Wait>(&self, rt: &R, actor: Actor, at: u32, batch: Option<&Batch>) {
        let step = Step { actor, at };
        if is_served(at, batch) {
            self.served.store(true, Ordering::SeqCst);
        }
        if self.first.gives_up(rt, step) || self.second.gives_up(rt, step) {
            self.gave_up.store(true, Ordering::SeqCst);
        }
    }
}

// Whether the batch of line 10 has one line, whose connection listener 2 gives to the first host of cluster 1.
fn is_served(at: u32, batch: Option<&Batch>) -> bool {
    let served = Outcome::Accepted(Accepted::Chosen(Choice::On {
        listener: Gen::new(2),
        chain: None,
        origin: None,
        way: Way::Served {
            cluster: Gen::new(1),
            host: 0,
        },
    }));
    let Some(batch) = batch else {
        return false;
    };
    match batch.lines() {
        [line] => at == 10 && line.outcome == served,
        _ => false,
    }
}
