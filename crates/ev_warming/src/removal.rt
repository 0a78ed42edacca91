//! What the holder of a manager takes out, and what it reads of the counter of numbers.

ghost use Rattle.std.specs.Prelude.{◌≡◌, [], Some, true};
ghost use Rattle.ev_indexes.specs.Tables.{row_in, without_row};
ghost use Rattle.ev_warming.specs.Changes.{is_over};
ghost use Rattle.ev_warming.specs.Managers.{IsKept};
ghost use Rattle.ev_warming.specs.Worlds.{Follows, without_generation};

use crate::Manager;
use ev_types::{Gen, GenRow};

impl Manager {
    /// Takes out a generation that drains or was dropped, once all is forgotten that nobody needs: forgetting finds the
    /// name that it depended on by its row. It costs a look-up: no other row moves.
    pub fn remove(&mut self, number: Gen) -> GenRow
        requires kept { IsKept self.old }
        requires forgotten { self.old.stale ≡ [] }
        requires over { is_over (row_in number self.old.state.table.rows) ≡ true }
        ensures kept { IsKept self.new }
        ensures row { row_in number self.old.state.table.rows ≡ Some result }
        ensures rows { self.new.state.table.rows ≡ without_row number self.old.state.table.rows }
        ensures made { self.new.state.table.made ≡ self.old.state.table.made }
        ensures others { self.new ≡ record self.old { state = record self.old.state { table = self.new.state.table } } }
        // Whatever world the manager represented, it represents that world without the generation.
        ensures stands { Follows self.old.state self.new.state (without_generation number) }
    {
        self.state.table.remove(number)
    }

    /// How many numbers were allocated for generations: no row has a greater one.
    pub fn made(&self) -> u32
        ensures { result ≡ self.now.state.table.made }
    {
        self.state.table.made()
    }
}
