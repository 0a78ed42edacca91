ghost use Rattle.std.specs.Prelude.{◌≡◌, ℕ, [], List, false, true, take, slice_get, if◌then◌else◌, IfOk, IfSome, OnOk};
ghost use Rattle.std.specs.List.{list_all};
ghost use Rattle.std.specs.Str.{bytes_eq};
ghost use Rattle.indexmap.specs.IndexSet.{insert_all};
ghost use Rattle.ev_dns.specs.Answers.{names_once};
ghost use Rattle.ev_dns.specs.Known.{AnswersOne, GivesOne, Takes, has_answer, has_row, known_addresses};

use crate::lines::Resolution;
use ev_keys::Keys;
use ev_types::{HostRow, Name, Seq};
use indexmap::{IndexMap, IndexSet};
use std::alloc::{AllocError, Global};

/// The host names that were answered, each with the addresses of its last success.
#[derive(Drop)]
pub(crate) struct Answers {
    pub by_name: IndexMap<Name, IndexSet<Name, Keys>, Keys>,
}

impl Answers {
    /// No name was answered. It takes no memory.
    pub(crate) fn new(alloc: Global, keys: Keys) -> Answers
        ensures answered { (name : List ℕ) → has_answer result name ≡ false }
        ensures addresses { (name : List ℕ) → known_addresses result name ≡ [] }
    {
        Answers {
            by_name: IndexMap::with_hasher(alloc, keys),
        }
    }

    /// Takes a resolution.
    pub(crate) fn take(&mut self, alloc: Global, resolution: Resolution) -> Result<(), AllocError>
        ensures { OnOk result (Takes self.old self.new resolution) }
    {
        let Resolution { name, addresses } = resolution;
        match addresses {
            Some(addresses) => {
                let keys = *self.by_name.hasher();
                self.put(name, each_once(alloc, keys, addresses)?)
            }
            None => self.note(alloc, name),
        }
    }

    // Puts the addresses of a name in place of those before.
    fn put(&mut self, name: Name, addresses: IndexSet<Name, Keys>) -> Result<(), AllocError>
        ensures answered { OnOk result (AnswersOne self.old self.new name) }
        ensures addresses { OnOk result (GivesOne self.old self.new name addresses.keys) }
    {
        let Ok(_) = self.by_name.insert(name, addresses) else {
            return Err(AllocError);
        };
        Ok(())
    }

    // Notes that a name was answered, and keeps its addresses.
    fn note(&mut self, alloc: Global, name: Name) -> Result<(), AllocError>
        ensures answered { OnOk result (AnswersOne self.old self.new name) }
        ensures addresses { OnOk result ((other : List ℕ)
            → known_addresses self.new other ≡ known_addresses self.old other) }
    {
        if self.by_name.contains_key(&name) {
            return Ok(());
        }
        let keys = *self.by_name.hasher();
        self.put(name, IndexSet::with_hasher(alloc, keys))
    }

    /// The place of the first of these hosts, from one of them on, whose name wasn't answered, or their number.
    pub(crate) fn first_unanswered(&self, rows: &[HostRow], from: usize) -> usize
        ensures passed { list_all (has_row self.now) (take from rows.now) ≡ true
            → list_all (has_row self.now) (take result rows.now) ≡ true }
        ensures next { IfSome (slice_get rows.now result) (λ row. has_row self.now row ≡ false) }
    {
        for index in from..rows.len() {
            if !self.has(&rows[index]) {
                return index;
            }
        }
        rows.len()
    }

    // Whether the name of a host was answered.
    fn has(&self, row: &HostRow) -> bool
        ensures { result ≡ has_row self.now row.now }
    {
        self.by_name.contains_key(&row.host.address)
    }
}

// Each of these names once, in the order of first appearance.
fn each_once(
    alloc: Global,
    keys: Keys,
    names: Seq<Name>,
) -> Result<IndexSet<Name, Keys>, AllocError>
    ensures { IfOk result (λ set. set.keys ≡ names_once names) }
{
    let mut set = IndexSet::with_hasher(alloc, keys);
    put_once(&mut set, names)?;
    Ok(set)
}

// Appends these names to those of a set, each once.
fn put_once(set: &mut IndexSet<Name, Keys>, names: Seq<Name>) -> Result<(), AllocError>
    ensures { OnOk result (set.new.keys ≡ insert_all bytes_eq set.old.keys names) }
{
    for name in names.into_vec() {
        let Ok(_) = set.insert(name) else {
            return Err(AllocError);
        };
    }
    Ok(())
}
