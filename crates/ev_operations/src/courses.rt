ghost use Rattle.std.specs.Prelude.{◌≡◌, ◌<◌, List, [], false, length, IfOk, IfSome};
ghost use Rattle.std.specs.List.{list_any};
ghost use Rattle.ev_types.specs.declared.events.Entry.{Entry};
ghost use Rattle.ev_model.specs.Finding.{is_unfinished, operations_left, tells_of};
ghost use Rattle.ev_model.specs.Operations.{Operation, all_operations};
ghost use Rattle.ev_model_laws.specs.Walks.{may_leave_out, next_of};
ghost use Rattle.ev_operations.specs.Courses.{HaveCome, HaveMoved, IsFound, seat_of};

use crate::course::Course;
use crate::due::Due;
use ev_types::{Actor, Format, Row, Script};
use std::alloc::{AllocError, Global};

/// How far each actor of a script has come, by its seat.
#[derive(Drop)]
pub struct Courses {
    /// Which rules the journal follows.
    pub format: Format,
    /// The courses of the stream, the health checker, the timers and the main thread,
    /// and those of the workers by number.
    pub seats: Vec<Course>,
}

/// What a row records: the seat of its actor, and the place in its course.
#[derive(Clone, Copy, Debug)]
pub struct Found {
    pub seat: usize,
    pub place: usize,
    pub due: Due,
}

// The seat of an actor.
fn seat_of(actor: Actor) -> usize
    ensures { result ≡ seat_of actor }
{
    match actor {
        Actor::Stream => 0,
        Actor::Health => 1,
        Actor::Timer => 2,
        Actor::Main => 3,
        Actor::Worker(worker) => 4 + worker as usize,
    }
}

impl Courses {
    /// Nothing was done yet. It goes over the script's lines once for each actor.
    pub fn new(alloc: Global, format: Format, script: &Script) -> Result<Courses, AllocError>
        ensures format { IfOk result (λ courses. courses.format ≡ format) }
        ensures come { IfOk result (λ courses. HaveCome script.now [] courses) }
    {
        let mut seats = Vec::new(alloc);
        seats.push(Course::begin(alloc, format, script, Actor::Stream)?)?;
        seats.push(Course::begin(alloc, format, script, Actor::Health)?)?;
        seats.push(Course::begin(alloc, format, script, Actor::Timer)?)?;
        seats.push(Course::begin(alloc, format, script, Actor::Main)?)?;
        for worker in 0..script.workers {
            seats.push(Course::begin(alloc, format, script, Actor::Worker(worker))?)?;
        }
        Ok(Courses { format, seats })
    }

    /// What a row records, where it may come next for its actor.
    pub fn find(&self, script: &Script, row: &Row) -> Option<Found>
        ensures found { IfSome result (λ found. (journal : List Entry) → HaveCome script.now journal self.now
            → IsFound script.now journal row.now self.now found) }
        ensures seat { IfSome result (λ found. found.seat < length self.now.seats.items) }
        ensures place { IfSome result (λ found. found.place < u64.MAX) }
        ensures none { result ≡ None → (journal : List Entry) → HaveCome script.now journal self.now
            → list_any (tells_of row.now)
            (next_of (may_leave_out self.now.format script.now journal row.now.actor)
            (operations_left script.now journal row.now.actor)) ≡ false }
    {
        let seat = seat_of(row.actor);
        if seat >= self.seats.len() {
            let _ = &script.workers;
            return None;
        }
        let course = &self.seats[seat];
        let place = course.find(script, row)?;
        let due = course.dues.as_slice()[place];
        Some(Found { seat, place, due })
    }

    /// An actor's course goes on after what was found, and the actor is marked where settles may be left out then.
    pub fn move_on(&mut self, found: Found, rests: bool)
        requires seat { found.seat < length self.old.seats.items }
        requires place { found.place < u64.MAX }
        ensures { HaveMoved found rests self.old self.new }
    {
        let course = &mut self.seats[found.seat];
        course.place = found.place + 1;
        course.rests = rests;
    }

    /// Whether something is left to do that may not be left out.
    pub fn is_unfinished(&self, script: &Script) -> bool
        ensures { (journal : List Entry) → HaveCome script.now journal self.now
            → result ≡ list_any (λ (o : Operation). is_unfinished self.now.format script.now journal o.actor)
            (all_operations script.now) }
    {
        for course in self.seats.as_slice() {
            let unfinished = course.is_unfinished(script);
            if unfinished {
                return true;
            }
        }
        let _ = &script.workers;
        false
    }
}
