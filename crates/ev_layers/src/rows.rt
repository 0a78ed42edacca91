ghost use Rattle.std.specs.Prelude.{◌≡◌, [], None, Some, IfOk, OnOk, map, nat_eq};
ghost use Rattle.std.specs.Option.{option_copied};
ghost use Rattle.std.specs.Str.{bytes_eq};
ghost use Rattle.ev_model.specs.Picture.{has_number};
ghost use Rattle.ev_layers.specs.Rows.{IsInOrder, put_in};
ghost use Rattle.ev_layers.specs.Kept.{keeps_name, keeps_number};
ghost use Rattle.ev_layers.specs.Layers.{SetsEntry};
ghost use Rattle.ev_layers.specs.Rows.{named, numbered, put_before, without_name, without_number};

use crate::names::{NameOf, Row};
use crate::table::Table;
use ev_keys::Keys;
use ev_types::{Gen, Shared};
use std::alloc::{AllocError, Global};
use std::marker::Model;

/// The clusters or the listeners of a picture, with tables by name and by number.
/// Contracts see the list, in the order of names.
/// Each row is shared.
#[derive(Drop)]
pub struct Rows<T: Row> {
    by_name: Table<NameOf<T>, Shared<T>>,
    by_number: Table<Gen, Shared<T>>,
}

impl<T: Row> Model for Rows<T> {
    ghost use Rattle.std.specs.Prelude.{List, nat_eq};
    ghost use Rattle.std.specs.Str.{bytes_eq};
    ghost use Rattle.ev_layers.specs.Layers.{found, keys_in};
    ghost use Rattle.ev_layers.specs.Rows.{AreFound, listing};

    ghost Value = { List T };

    ghost view = { λ r. listing T.name_of (found bytes_eq r.by_name) (keys_in r.by_name) };

    ghost invariant = { λ r. AreFound T.number_of T.name_of (listing T.name_of (found bytes_eq r.by_name) (keys_in r.by_name)) (found bytes_eq r.by_name) (found nat_eq r.by_number) };
}

impl<T: Row> Rows<T> {
    /// No row. Its tables hash by these keys.
    pub fn new(alloc: Global, keys: Keys) -> Result<Rows<T>, AllocError>
        ensures { IfOk result (λ rows. rows ≡ []) }
    {
        Ok(Rows {
            by_name: Table::new(alloc, keys)?,
            by_number: Table::new(alloc, keys)?,
        })
    }

    /// The row of this name.
    pub fn named(&self, name: &str) -> Option<&T>
        ensures row { option_copied result ≡ named T.name_of self.now name.now }
        ensures order { IsInOrder T.number_of T.name_of self.now }
    {
        match self.by_name.get(name) {
            Some(row) => Some(row.get()),
            None => None,
        }
    }

    /// The row of this number.
    pub fn numbered(&self, number: Gen) -> Option<&Shared<T>>
        ensures row { option_copied result ≡ numbered T.number_of self.now number }
        ensures order { IsInOrder T.number_of T.name_of self.now }
    {
        self.by_number.get(&number)
    }

    /// Whether there is one of this number. It looks at no other.
    pub fn has(&self, number: Gen) -> bool
        ensures { result ≡ has_number number (map T.number_of self.now) }
    {
        match self.numbered(number) {
            Some(_) => true,
            None => false,
        }
    }

    /// Whether the row of this name is the same here as in rows after them, if there is one.
    pub fn keeps_name(&self, after: &Rows<T>, name: &str) -> bool
        ensures { result ≡ keeps_name T.name_of T.same self.now after.now name.now }
    {
        match (self.named(name), after.named(name)) {
            (Some(row), Some(other)) => row.is_same(other),
            (None, None) => true,
            _ => false,
        }
    }

    /// Whether the name that this number has here has the same row in rows after them.
    pub fn keeps_number(&self, after: &Rows<T>, number: Gen) -> bool
        ensures { result ≡ keeps_number T.number_of T.name_of T.same self.now after.now number }
    {
        match self.numbered(number) {
            Some(row) => self.keeps_name(after, row.get().name()),
            None => true,
        }
    }

    /// The rows without that of this number.
    pub fn without(self, number: Gen) -> Result<Rows<T>, AllocError>
        ensures { IfOk result (λ rows. rows ≡ without_number T.number_of number self) }
    {
        let Some(row) = self.numbered(number) else {
            return Ok(self);
        };
        let name = NameOf::new(row.share()?);
        let mut by_name = self.by_name;
        let mut by_number = self.by_number;
        leave(&mut by_name, &mut by_number, name, number)?;
        Ok(Rows { by_name, by_number })
    }

    // The rows without that of this name.
    fn without_name(self, name: &str) -> Result<Rows<T>, AllocError>
        ensures { IfOk result (λ rows. rows ≡ without_name T.name_of name.now self) }
    {
        let Some(row) = self.named(name) else {
            return Ok(self);
        };
        let number = row.number();
        self.without(number)
    }

    /// The rows with one more, which has another name and number than each.
    pub fn with(self, row: Shared<T>) -> Result<Rows<T>, AllocError>
        requires name { named T.name_of self (T.name_of row) ≡ None }
        requires number { numbered T.number_of self (T.number_of row) ≡ None }
        ensures rows { IfOk result (λ rows. rows ≡ put_before T.name_of row self) }
        ensures order { IsInOrder T.number_of T.name_of self }
    {
        let mut by_name = self.by_name;
        let mut by_number = self.by_number;
        enter(&mut by_name, &mut by_number, row)?;
        Ok(Rows { by_name, by_number })
    }

    /// The rows with this one in place of those of its number and its name.
    pub fn put(self, row: Shared<T>) -> Result<Rows<T>, AllocError>
        ensures { IfOk result (λ rows. rows ≡ put_in T.number_of T.name_of row self) }
    {
        let rows = self.without(row.get().number())?;
        let rows = rows.without_name(row.get().name())?;
        rows.with(row)
    }

    /// The same rows, each shared with these.
    pub fn copy(&self, alloc: Global) -> Result<Rows<T>, AllocError>
        ensures { IfOk result (λ rows. rows ≡ self.now) }
    {
        Ok(Rows {
            by_name: self.by_name.copy(alloc)?,
            by_number: self.by_number.copy(alloc)?,
        })
    }

    /// Makes layers of what lies over those of its tables, so that copies share them.
    /// The rows stay, also out of memory.
    pub fn settle(&mut self, alloc: Global) -> Result<(), AllocError>
        ensures { self.new ≡ self.old }
    {
        self.by_name.settle(alloc)?;
        self.by_number.settle(alloc)
    }
}

// Enters a row under its name and its number.
fn enter<T: Row>(
    by_name: &mut Table<NameOf<T>, Shared<T>>,
    by_number: &mut Table<Gen, Shared<T>>,
    row: Shared<T>,
) -> Result<(), AllocError>
    ensures name { OnOk result (SetsEntry bytes_eq (T.name_of row) (Some row) by_name.old by_name.new) }
    ensures number { OnOk result (SetsEntry nat_eq (T.number_of row) (Some row) by_number.old by_number.new) }
{
    let name = NameOf::new(row.share()?);
    let number = row.get().number();
    by_name.set(name, Some(row.share()?))?;
    by_number.set(number, Some(row))?;
    Ok(())
}

// Leaves nothing under a name and a number.
fn leave<T: Row>(
    by_name: &mut Table<NameOf<T>, Shared<T>>,
    by_number: &mut Table<Gen, Shared<T>>,
    name: NameOf<T>,
    number: Gen,
) -> Result<(), AllocError>
    ensures name { OnOk result (SetsEntry bytes_eq name None by_name.old by_name.new) }
    ensures number { OnOk result (SetsEntry nat_eq number None by_number.old by_number.new) }
{
    by_name.set(name, None)?;
    by_number.set(number, None)?;
    Ok(())
}
