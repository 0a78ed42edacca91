ghost use Rattle.std.specs.Prelude.{◌≡◌, ◌≤◌, ◌<◌, ◌-◌, [], ◌∷◌, ◌++◌, OnOk, OnErr};

use ev_types::{GenRow, Seq};
use std::alloc::{AllocError, Global};
use std::marker::Model;

/// Generations that were reaped and are still to be dropped, in the order in which they were named, with room for more.
/// Contracts see them and how many more have room.
#[derive(Drop)]
pub struct Deferred {
    rows: Vec<GenRow>,
}

impl Model for Deferred {
    ghost use Rattle.std.specs.Prelude.{ℕ, List, ◌-◌, vec_len, vec_capacity};
    ghost use Rattle.ev_types.specs.declared.rows.GenRow.{GenRow};

    ghost Value = { List GenRow × ℕ };

    ghost view = { λ d. (d.rows.items, vec_capacity d.rows - vec_len d.rows) };
}

impl Deferred {
    /// None, and no room. It takes no memory.
    pub fn new(alloc: Global) -> Deferred
        ensures empty { result.0 ≡ [] }
    {
        Deferred {
            rows: Vec::new(alloc),
        }
    }

    /// Makes room for this many more.
    pub fn make_room(&mut self, additional: usize) -> Result<(), AllocError>
        ensures rows { self.new.0 ≡ self.old.0 }
        ensures room { OnOk result (additional ≤ self.new.1) }
    {
        self.rows.reserve(additional)?;
        Ok(())
    }

    /// Appends one to the others, where there is room for it. It takes no memory.
    pub fn push(&mut self, row: GenRow)
        requires { 0 < self.old.1 }
        ensures rows { self.new.0 ≡ self.old.0 ++ row ∷ [] }
        ensures room { self.new.1 ≡ self.old.1 - 1 }
    {
        self.rows.push_reserved(row);
    }

    /// Appends the rows of the other to these, and leaves the other none. Out of memory, both stay as they were.
    pub fn append(&mut self, other: &mut Deferred) -> Result<(), AllocError>
        ensures ok { OnOk result (self.new.0 ≡ self.old.0 ++ other.old.0) }
        ensures none { OnOk result (other.new.0 ≡ []) }
        ensures err { OnErr result (self.new.0 ≡ self.old.0) }
        ensures other_kept { OnErr result (other.new.0 ≡ other.old.0) }
    {
        self.rows.append(&mut other.rows)
    }

    /// The rows. It takes no memory.
    pub fn into_rows(self) -> Seq<GenRow>
        ensures rows { result ≡ self.0 }
    {
        Seq::from_vec(self.rows)
    }
}
