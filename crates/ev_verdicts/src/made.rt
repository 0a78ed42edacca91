ghost use Rattle.std.specs.Prelude.{◌≡◌, [], Some, false, option_map, IfOk, OnOk};
ghost use Rattle.ev_types.specs.declared.hosts.SocketAddress.{SocketAddress};
ghost use Rattle.ev_verdicts.specs.Judged.{has_other, is_made, names_at, with_made};
ghost use Rattle.ev_verdicts.specs.Made.{AddsName, AddsAt, StartsAt};

use crate::keys::AddressKey;
use ev_keys::Keys;
use ev_lookups::NameKey;
use ev_types::{Seq, SocketAddress};
use indexmap::IndexMap;
use std::alloc::{AllocError, Global};
use std::marker::Model;

type Names<'a> = IndexMap<NameKey<'a>, Option<AddressKey<'a>>, Keys>;

type Addresses<'a> = IndexMap<AddressKey<'a>, Seq<NameKey<'a>>, Keys>;

/// The names under which a response made a generation so far, or went back to the one that serves,
/// each with the address of the listener that it made. Contracts see the list.
#[derive(Drop)]
pub(crate) struct Made<'a> {
    names: Names<'a>,
    by_address: Addresses<'a>,
}

impl<'a> Model for Made<'a> {
    ghost use Rattle.ev_verdicts.specs.Judged.{MadeKept};
    ghost use Rattle.ev_verdicts.specs.Made.{AreByAddress};

    ghost Value = { MadeKept };

    ghost view = { λ m. m.names.entries };

    ghost invariant = { λ m. AreByAddress m.names.entries m.by_address };
}

impl<'a> Made<'a> {
    /// Nothing yet. It takes no memory.
    pub(crate) fn new(alloc: Global, keys: Keys) -> Made<'a>
        ensures { result ≡ [] }
    {
        Made {
            names: IndexMap::with_hasher(alloc, keys),
            by_address: IndexMap::with_hasher(alloc, keys),
        }
    }

    /// Whether the name is among them.
    pub(crate) fn has(&self, name: &str) -> bool
        ensures { result ≡ is_made self.now name.now }
    {
        let _ = &self.by_address;
        self.names.contains_key(&NameKey::new(name))
    }

    /// Whether a listener that was made listens at the address, under another name.
    pub(crate) fn has_another_at(&self, address: &SocketAddress, name: &str) -> bool
        ensures { result ≡ has_other name.now (names_at address.now self.now) }
    {
        let _ = &self.names;
        match self.by_address.get(&AddressKey::new(address)) {
            Some(names) => has_other(names.as_slice(), name),
            None => false,
        }
    }

    /// With one more, where the name isn't among them.
    pub(crate) fn with(
        self,
        alloc: Global,
        name: &'a str,
        address: Option<&'a SocketAddress>,
    ) -> Result<Made<'a>, AllocError>
        ensures { IfOk result (λ made. made ≡ with_made name.now (option_map (λ a. a.now) address.entry) self.entry) }
    {
        if self.has(name) {
            return Ok(self);
        }
        let mut made = self;
        put_at(alloc, &mut made.by_address, name, address)?;
        put_name(&mut made.names, name, address)?;
        Ok(made)
    }
}

// Whether one of these names is another.
fn has_other(names: &[NameKey<'_>], name: &str) -> bool
    ensures { result ≡ has_other name.now names.now }
{
    names.iter().any(|other| other.as_str() != name)
}

// Puts one more name at the end, with its address.
fn put_name<'a>(
    table: &mut Names<'a>,
    name: &'a str,
    address: Option<&'a SocketAddress>,
) -> Result<(), AllocError>
    requires absent { is_made table.old.entries name.now ≡ false }
    ensures { OnOk result (AddsName table.old table.new name.now (option_map (λ a. a.now) address.entry)) }
{
    let Ok(_) = table.insert(NameKey::new(name), key_of(address)) else {
        return Err(AllocError);
    };
    Ok(())
}

// The key of an address, where there is one.
fn key_of(address: Option<&SocketAddress>) -> Option<AddressKey<'_>>
    ensures { result ≡ option_map (λ a. a.now) address.entry }
{
    match address {
        Some(address) => Some(AddressKey::new(address)),
        None => None,
    }
}

// Puts one more name at the address, where there is one.
fn put_at<'a>(
    alloc: Global,
    table: &mut Addresses<'a>,
    name: &'a str,
    address: Option<&'a SocketAddress>,
) -> Result<(), AllocError>
    ensures { OnOk result (AddsAt table.old table.new name.now (option_map (λ a. a.now) address.entry)) }
{
    match address {
        Some(address) => put_name_at(alloc, table, name, address),
        None => Ok(()),
    }
}

// Puts one more name at an address.
fn put_name_at<'a>(
    alloc: Global,
    table: &mut Addresses<'a>,
    name: &'a str,
    address: &'a SocketAddress,
) -> Result<(), AllocError>
    ensures { OnOk result (AddsAt table.old table.new name.now (Some address.now)) }
{
    if let Some(names) = table.get_mut(&AddressKey::new(address)) {
        return names.push(NameKey::new(name));
    }
    put_first_name_at(alloc, table, name, address)
}

// Puts a name at an address, in place of those that were there.
fn put_first_name_at<'a>(
    alloc: Global,
    table: &mut Addresses<'a>,
    name: &'a str,
    address: &'a SocketAddress,
) -> Result<(), AllocError>
    ensures { OnOk result (StartsAt table.old table.new name.now address.now) }
{
    let mut names = Seq::new(alloc);
    names.push(NameKey::new(name))?;
    let Ok(_) = table.insert(AddressKey::new(address), names) else {
        return Err(AllocError);
    };
    Ok(())
}
