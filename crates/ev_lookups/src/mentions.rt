ghost use Rattle.std.specs.Prelude.{◌≡◌, ◌&&◌, List, ℕ, false, nat_le, length, IfOk, OnOk};
ghost use Rattle.std.specs.Str.{bytes_eq};
ghost use Rattle.indexmap.specs.IndexSet.{contains};
ghost use Rattle.ev_model.specs.Verdicts.{items_named, is_among, is_removed};
ghost use Rattle.ev_lookups.specs.Mentions.{HasNamed, Puts, PutsAgain};

use crate::keys::NameKey;
use ev_keys::Keys;
use ev_types::{Item, Response, Text};
use indexmap::IndexSet;
use std::alloc::{AllocError, Global};
use std::hash::{DefaultHasher, Hash};
use std::marker::Model;

type NameSet<'a> = IndexSet<NameKey<'a>, Keys>;

/// The names that a response mentions, each found by a look-up:
/// those of its resources, and those that it removes. Contracts see the response.
#[derive(Drop)]
pub struct Mentions<'a> {
    response: &'a Response,
    named: NameSet<'a>,
    twice: NameSet<'a>,
    removed: NameSet<'a>,
}

impl<'a> Model for Mentions<'a> {
    ghost use Rattle.std.specs.Str.{bytes_eq};
    ghost use Rattle.indexmap.specs.IndexSet.{contains};
    ghost use Rattle.ev_types.specs.Items.{ResponseParts};
    ghost use Rattle.ev_lookups.specs.Mentions.{AreFound};

    ghost Value = { ResponseParts };

    ghost view = { λ m. m.response.now };

    ghost invariant = { λ m. AreFound m.response.now (contains bytes_eq m.named) (contains bytes_eq m.twice) (contains bytes_eq m.removed) };
}

impl<'a> Mentions<'a> {
    /// What this response mentions. It is out of memory where a set has no room.
    pub fn of(alloc: Global, response: &'a Response) -> Result<Mentions<'a>, AllocError>
        ensures { IfOk result (λ mentions. mentions ≡ response.now) }
    {
        let keys = keys_of(response);
        let mut named = IndexSet::with_hasher(alloc, keys);
        let mut twice = IndexSet::with_hasher(alloc, keys);
        note_all(response.items.as_slice(), &mut named, &mut twice)?;
        let removed = set_of(alloc, keys, response.removed.as_slice())?;
        Ok(Mentions {
            response,
            named,
            twice,
            removed,
        })
    }

    /// The response.
    pub fn response(&self) -> &'a Response
        ensures { result.now ≡ self.now }
    {
        let _ = &self.named;
        self.response
    }

    /// Whether two resources or more have the name.
    pub fn is_twice(&self, name: &str) -> bool
        ensures { result ≡ nat_le 2 (length (items_named name.now self.now.items)) }
    {
        let _ = &self.response;
        self.twice.contains(&NameKey::new(name))
    }

    /// Whether the name is among the removed names.
    pub fn is_listed(&self, name: &str) -> bool
        ensures { result ≡ is_among name.now self.now.removed }
    {
        let _ = &self.response;
        self.removed.contains(&NameKey::new(name))
    }

    /// Whether the response removes the name: it is among the removed names
    /// and no resource has it. A name that is in both isn't removed.
    pub fn is_removed(&self, name: &str) -> bool
        ensures { result ≡ is_removed self.now name.now }
    {
        let _ = &self.response;
        let name = NameKey::new(name);
        self.removed.contains(&name) && !self.named.contains(&name)
    }
}

// The keys of the names that a response mentions.
fn keys_of(response: &Response) -> Keys {
    let mut fed = DefaultHasher::new();
    for item in response.items.as_slice() {
        item.name.as_str().hash(&mut fed);
    }
    for name in response.removed.as_slice() {
        name.as_str().hash(&mut fed);
    }
    Keys::after(fed)
}

// Notes which names resources have, and which two or more have.
fn note_all<'a>(
    items: &'a [Item],
    named: &mut NameSet<'a>,
    twice: &mut NameSet<'a>,
) -> Result<(), AllocError>
    requires named { (name : List ℕ) → contains bytes_eq named.old name ≡ false }
    requires twice { (name : List ℕ) → contains bytes_eq twice.old name ≡ false }
    ensures named { OnOk result (HasNamed 1 items.now (contains bytes_eq named.new)) }
    ensures twice { OnOk result (HasNamed 2 items.now (contains bytes_eq twice.new)) }
{
    for item in items {
        note(item.name.as_str(), named, twice)?;
    }
    Ok(())
}

// Notes one more resource of the name.
fn note<'a>(
    name: &'a str,
    named: &mut NameSet<'a>,
    twice: &mut NameSet<'a>,
) -> Result<(), AllocError>
    ensures named { OnOk result (Puts named.old named.new name.now) }
    ensures twice { OnOk result (PutsAgain named.old twice.old twice.new name.now) }
{
    if named.contains(&NameKey::new(name)) {
        insert(twice, name)
    } else {
        insert(named, name)
    }
}

// Puts the name into the set.
fn insert<'a>(set: &mut NameSet<'a>, name: &'a str) -> Result<(), AllocError>
    ensures { OnOk result (Puts set.old set.new name.now) }
{
    let Ok(_) = set.insert(NameKey::new(name)) else {
        return Err(AllocError);
    };
    Ok(())
}

// The set of these names.
fn set_of<'a>(alloc: Global, keys: Keys, names: &'a [Text]) -> Result<NameSet<'a>, AllocError>
    ensures { IfOk result (λ set. (name : List ℕ) → contains bytes_eq set name ≡ is_among name names.now) }
{
    let mut set = IndexSet::with_hasher(alloc, keys);
    for name in names {
        insert(&mut set, name.as_str())?;
    }
    Ok(set)
}
