ghost use Rattle.std.specs.Prelude.{◌≡◌, false, length, map, IfOk, IsTrue};
ghost use Rattle.ev_indexes.specs.Marked.{has_repeats, marks_with, NotesMark};

use ev_hosts::Marks;
use ev_types::{Assignment, Gen, Host, Shared};
use indexmap::IndexMap;

/// The rows of an assignment, each with a mark, whether its host may be chosen.
#[derive(Drop)]
pub(crate) struct MarkedRows {
    pub(crate) rows: Shared<Assignment>,
    pub(crate) marks: Marks,
}

impl MarkedRows {
    // A result of a host. It takes no memory.
    fn note(&mut self, host: &Host, healthy: bool)
        ensures rows { self.new.rows ≡ self.old.rows }
        ensures marks { self.new.marks ≡ marks_with host.now healthy self.old.rows self.old.marks }
    {
        let rows = self.rows.get();
        let Some(place) = rows.place_of(host) else {
            return;
        };
        let place = place as usize;
        if place < self.marks.len() {
            let usable = match rows.rows().get(place) {
                Some(row) => row.usable,
                None => false,
            };
            self.marks.set(place, usable && healthy);
        }
    }
}

/// A result of a host of the generation of this number, where its rows are marked. It takes no memory.
pub(crate) fn note_mark(
    marked: &mut IndexMap<u32, MarkedRows>,
    number: Gen,
    host: &Host,
    healthy: bool,
)
    ensures { NotesMark marked.old.entries marked.new.entries number host.now healthy }
{
    if let Some(rows) = marked.get_mut(&number.number()) {
        rows.note(host, healthy);
    }
}

/// Whether marks of these rows are worth their memory: there are many, and no host stands in two.
pub(crate) fn are_many(rows: &Assignment) -> bool
    ensures { IsTrue result → has_repeats rows.now ≡ false }
{
    let count = rows.count_indexed();
    count > 0 && count == rows.rows().len()
}
