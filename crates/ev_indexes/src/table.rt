ghost use Rattle.std.specs.Prelude.{◌≡◌, ◌+◌, ◌<◌, ◌≤◌, ◌^◌, [], ◌∷◌, ◌++◌, Some, IsSome, OnOk, OnErr, IfOk, if◌then◌else◌, ℕ, filter};
ghost use Rattle.std.specs.BTreeMap.{keys};
ghost use Rattle.std.specs.List.{AllByRecursion};
ghost use Rattle.std.specs.Map.Iter.{ShowsInOrder, deref};
ghost use Rattle.std.specs.Option.{option_copied};
ghost use Rattle.ev_types.specs.declared.rows.GenRow as declared;
ghost use Rattle.ev_types.specs.declared.rows.RowStatus.TheVariants.{Active, Draining, Dropped};
ghost use Rattle.ev_model.specs.Rows.{new_row};
ghost use Rattle.ev_indexes.specs.Tables.{IsTable, row_in, warming_row, with_status, without_row};

use crate::Steps;
use ev_types::{Content, Gen, GenRow, KeptChain, Kind, Name, RowStatus, Seq};
use std::alloc::{AllocError, Global};
use std::collections::BTreeMap;
use std::collections::btree_map::Values;
use std::marker::Model;
use std::sync::ledger::Ledger;

type Rows = BTreeMap<u32, GenRow>;

/// The rows of generations by number, and how many numbers were allocated.
/// Numbers rise as rows are added, so the order of the numbers is that in which the rows were added.
/// Contracts see the list of the rows. A row is found, added or taken out by one look-up of its number,
/// whose cost grows as the logarithm of how many rows there are; no other row moves.
#[derive(Drop)]
pub struct Generations {
    rows: Rows,
    made: u32,
}

impl Model for Generations {
    ghost use Rattle.std.specs.BTreeMap.{values};
    ghost use Rattle.ev_indexes.specs.Tables.{GenerationsParts, IsStored};

    ghost Value = { GenerationsParts };

    ghost view = { λ g. record { rows = values g.rows; made = g.made } };

    ghost invariant = { λ g. IsStored g.rows.entries g.made };
}

impl Generations {
    /// No row, and no number allocated. It takes no memory.
    pub fn new(alloc: Global) -> Generations
        ensures rows { result.rows ≡ [] }
        ensures made { result.made ≡ 0 }
    {
        Generations {
            rows: BTreeMap::new(alloc),
            made: 0,
        }
    }

    /// How many numbers were allocated.
    pub fn made(&self) -> u32
        ensures { result ≡ self.now.made }
    {
        self.made
    }

    /// Numbers go on after this one.
    pub fn advance(&mut self, made: u32)
        requires { self.old.made ≤ made }
        ensures rows { self.new.rows ≡ self.old.rows }
        ensures made { self.new.made ≡ made }
    {
        self.made = made;
    }

    /// A new row, which warms, has the next number and keeps these chains of the row before it.
    /// It costs one look-up by number. Out of memory, the table stays as it was.
    pub fn add(
        &mut self,
        kind: Kind,
        name: Name,
        content: Content,
        kept: Seq<KeptChain>,
    ) -> Result<Gen, AllocError>
        requires { self.old.made + 1 < 2 ^ 32 }
        ensures number { IfOk result (λ number. number ≡ self.old.made + 1) }
        ensures added { OnOk result (self.new.rows ≡ self.old.rows ++ new_row kind self.old.made name content kept ∷ []) }
        ensures made { OnOk result (self.new.made ≡ self.old.made + 1) }
        ensures table { OnOk result (IsTable self.new) }
        ensures err { OnErr result (self.new ≡ self.old) }
    {
        let number = self.made + 1;
        let row = warming_row(kind, Gen::new(number), name, content, kept);
        let Ok(_) = self.rows.insert(number, row) else {
            return Err(AllocError);
        };
        self.made = number;
        Ok(Gen::new(number))
    }

    /// The row of a number, by one look-up, which is counted.
    pub fn row<'a, L: Ledger>(&'a self, number: Gen, steps: &mut Steps<L>) -> Option<&'a GenRow>
        ensures row { option_copied result ≡ row_in number self.now.rows }
        ensures step { steps.new ≡ steps.old + 1 }
        ensures table { IsTable self.now }
    {
        steps.tick();
        self.rows.get(&number.number())
    }

    /// The row of a number, by one look-up, for a question that counts none.
    pub fn get(&self, number: Gen) -> Option<&GenRow>
        ensures { option_copied result ≡ row_in number self.now.rows }
    {
        self.rows.get(&number.number())
    }

    /// The row of this number serves. It costs one look-up by number.
    pub fn warm(&mut self, number: Gen)
        requires { IsSome (row_in number self.old.rows) }
        ensures rows { self.new.rows ≡ with_status number Active self.old.rows }
        ensures made { self.new.made ≡ self.old.made }
    {
        self.set_status(number, RowStatus::Active);
    }

    /// The row of this number drains, or is dropped where it never served. It costs one look-up by number.
    pub fn gone(&mut self, number: Gen, dropped: bool)
        requires { IsSome (row_in number self.old.rows) }
        ensures rows { self.new.rows ≡ with_status number (if dropped then Dropped else Draining) self.old.rows }
        ensures made { self.new.made ≡ self.old.made }
    {
        let status = if dropped {
            RowStatus::Dropped
        } else {
            RowStatus::Draining
        };
        self.set_status(number, status);
    }

    // The row of this number has this status.
    fn set_status(&mut self, number: Gen, status: RowStatus)
        requires { IsSome (row_in number self.old.rows) }
        ensures rows { self.new.rows ≡ with_status number status self.old.rows }
        ensures made { self.new.made ≡ self.old.made }
    {
        let Some(row) = self.rows.get_mut(&number.number()) else {
            unreachable!()
        };
        row.status = status;
    }

    /// Takes the row of this number out; the others keep their order.
    /// It costs one look-up by number: no other row moves.
    pub fn remove(&mut self, number: Gen) -> GenRow
        requires { IsSome (row_in number self.old.rows) }
        ensures row { row_in number self.old.rows ≡ Some result }
        ensures rows { self.new.rows ≡ without_row number self.old.rows }
        ensures made { self.new.made ≡ self.old.made }
    {
        let Some(row) = self.rows.remove(&number.number()) else {
            unreachable!()
        };
        row
    }

    /// All rows in order, for what shows the whole table, which it goes over. It counts no look-up.
    pub fn rows(&self) -> Values<'_, u32, GenRow>
        ensures rows { result ≡ self.now.rows }
        ensures runs { ShowsInOrder (deref {X = declared.GenRow}) }
        ensures table { IsTable self.now }
    {
        self.rows.values()
    }
}

// A row that warms.
fn warming_row(
    kind: Kind,
    number: Gen,
    name: Name,
    content: Content,
    kept: Seq<KeptChain>,
) -> GenRow
    ensures { result ≡ warming_row kind number name content kept }
{
    GenRow {
        kind,
        number,
        name,
        content,
        status: RowStatus::Warming,
        kept,
    }
}
