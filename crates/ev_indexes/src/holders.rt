ghost use Rattle.std.specs.Prelude.{◌≡◌, ◌++◌, IfOk, OnOk};
ghost use Rattle.ev_indexes.specs.Addresses.{lives_numbered, lives_found, lives_listed};
ghost use Rattle.ev_indexes.specs.Indexes.{IsIndexed};
ghost use Rattle.ev_indexes.specs.Reads.{holders_in, holders_of};
ghost use Rattle.ev_indexes.specs.Worlds.{InWorlds};

use crate::{Addresses, Generations, State};
use ev_lookups::LiveRow;
use ev_types::{Gen, SocketAddress};
use std::alloc::{AllocError, Global};

impl State {
    /// The live generations that hold an address, in the order of their numbers:
    /// of clusters none does. It costs a look-up of the address, and one of each of them.
    /// It is out of memory where the list has no room.
    pub fn holders(
        &self,
        alloc: Global,
        address: &SocketAddress,
    ) -> Result<Vec<LiveRow<'_>>, AllocError>
        requires indexed { IsIndexed self.now }
        ensures rows { IfOk result (λ lives. lives.items ≡ holders_in self.now.table.rows address.now) }
        ensures world { IfOk result (λ lives. InWorlds self.now (λ world. lives.items ≡ holders_of world address.now)) }
    {
        lives_at(alloc, &self.addresses, &self.table, address)
    }
}

// What is seen of the generations that the index has at an address.
fn lives_at<'a>(
    alloc: Global,
    addresses: &Addresses,
    table: &'a Generations,
    address: &SocketAddress,
) -> Result<Vec<LiveRow<'a>>, AllocError>
    ensures { IfOk result (λ lives. lives.items ≡ lives_listed table.now.rows addresses.now address.now) }
{
    let mut lives = Vec::new(alloc);
    if let Some(numbers) = addresses.at(address) {
        push_numbered(table, numbers.as_slice(), &mut lives)?;
    }
    Ok(lives)
}

// Adds what is seen of the generations of these numbers to the others.
fn push_numbered<'a>(
    table: &'a Generations,
    numbers: &[Gen],
    lives: &mut Vec<LiveRow<'a>>,
) -> Result<(), AllocError>
    ensures { OnOk result (lives.new.items ≡ lives.old.items ++ lives_numbered table.now.rows numbers.now) }
{
    for number in numbers {
        push_number(table, *number, lives)?;
    }
    Ok(())
}

// Adds what is seen of the generation of this number to the others, where it is found.
fn push_number<'a>(
    table: &'a Generations,
    number: Gen,
    lives: &mut Vec<LiveRow<'a>>,
) -> Result<(), AllocError>
    ensures { OnOk result (lives.new.items ≡ lives.old.items ++ lives_found number table.now.rows) }
{
    if let Some(row) = table.get(number) {
        lives.push(LiveRow {
            kind: row.kind,
            number: row.number,
            name: row.name.as_str(),
            content: &row.content,
            warming: row.status.is_warming(),
        })?;
    }
    Ok(())
}
