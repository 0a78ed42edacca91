ghost use Rattle.std.specs.Prelude.{◌≡◌, ◌<◌, List, false, drop, length, IfOk, IfSome};
ghost use Rattle.std.specs.List.{list_any};
ghost use Rattle.ev_model.specs.Finding.{tells_of};
ghost use Rattle.ev_model.specs.Operations.{Operation};
ghost use Rattle.ev_operations.specs.Dues.{AreDue};
ghost use Rattle.ev_model_laws.specs.Walks.{next_of};
ghost use Rattle.ev_operations.specs.Courses.{HasBegun, IsFoundAt, is_left};

use crate::due::Due;
use crate::dues::operations;
use crate::told::{is_left, tells};
use ev_types::{Actor, Format, Row, Script, Seq};
use std::alloc::{AllocError, Global};

/// How far an actor has come in what it is to do.
#[derive(Drop)]
pub struct Course {
    /// All that it is to do, in order.
    pub dues: Seq<Due>,
    /// How much of it is done: the place of what is due next.
    pub place: usize,
    /// Whether settles may be left out: in format 2, where the actor rests.
    pub rests: bool,
}

impl Course {
    /// The course of an actor that has done nothing yet. It goes over the script's lines once.
    pub(crate) fn begin(
        alloc: Global,
        format: Format,
        script: &Script,
        actor: Actor,
    ) -> Result<Course, AllocError>
        ensures { IfOk result (λ course. HasBegun format script.now actor course) }
    {
        let dues = operations(alloc, script, actor)?;
        Ok(Course {
            dues,
            place: 0,
            rests: matches!(format, Format::Two),
        })
    }

    /// The place of what a row records, where it may come next:
    /// settles alone come before it, and these may be left out.
    pub(crate) fn find(&self, script: &Script, row: &Row) -> Option<usize>
        ensures there { IfSome result (λ place. place < length self.now.dues) }
        ensures found { IfSome result (λ place. (os : List Operation)
            → AreDue script.now row.now.actor (drop self.now.place self.now.dues) os
            → IsFoundAt script.now row.now self.now os place) }
        ensures none { result ≡ None → (os : List Operation)
            → AreDue script.now row.now.actor (drop self.now.place self.now.dues) os
            → list_any (tells_of row.now) (next_of self.now.rests os) ≡ false }
    {
        let dues = self.dues.as_slice();
        for place in self.place..dues.len() {
            let due = dues[place];
            if tells(script, row, due) {
                return Some(place);
            }
            if is_left(script, self.rests, due) {
                return None;
            }
        }
        None
    }

    /// Whether something is left to do that may not be left out.
    pub(crate) fn is_unfinished(&self, script: &Script) -> bool
        ensures { result ≡ list_any (is_left script.now self.now.rests) (drop self.now.place self.now.dues) }
    {
        let dues = self.dues.as_slice();
        for place in self.place..dues.len() {
            let due = dues[place];
            if is_left(script, self.rests, due) {
                return true;
            }
        }
        false
    }
}
