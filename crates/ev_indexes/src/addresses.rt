//! By address the live generations that hold it. An address whose last holder retired has no entry,
//! so there are no more entries than live listeners.

ghost use Rattle.std.specs.Prelude.{◌≡◌, if◌then◌else◌, ◌++◌, [], ◌∷◌, None, Some, IfOk, OnOk, OnErr};
ghost use Rattle.std.specs.Map.{lookup};
ghost use Rattle.std.specs.Option.{option_copied};
ghost use Rattle.indexmap.specs.IndexMap.{get};
ghost use Rattle.ev_types.specs.SameHosts.{socket_same};
ghost use Rattle.ev_types.specs.declared.hosts.SocketAddress as declared;
ghost use Rattle.ev_model.specs.Verdicts.{listening_address};
ghost use Rattle.ev_indexes.specs.Watched.{numbers_without};
ghost use Rattle.ev_indexes.specs.Addresses.{EntersAt, EntersNumber, HoldsAddress, LeavesAt, LeavesNumber, ReleasesAddress};

use ev_keys::Keys;
use ev_types::{Content, Gen, Seq, SocketAddress, TryCopy};
use indexmap::IndexMap;
use std::alloc::{AllocError, Global};
use std::marker::Model;

type Numbers = IndexMap<SocketAddress, Seq<Gen>, Keys>;

/// By address, port and protocol the numbers of the generations that hold it. An address that none holds has no entry.
#[derive(Drop)]
pub struct Addresses {
    numbers: Numbers,
}

impl Model for Addresses {
    ghost use Rattle.ev_indexes.specs.Addresses.{AddressesKept, HaveNumbers};

    ghost Value = { AddressesKept };

    ghost view = { λ a. a.numbers.entries };

    ghost invariant = { λ a. HaveNumbers a.numbers.entries };
}

impl Addresses {
    /// No address is held. Addresses are hashed by these keys. It takes no memory.
    pub fn new(alloc: Global, keys: Keys) -> Addresses
        ensures { result ≡ [] }
    {
        Addresses {
            numbers: IndexMap::with_hasher(alloc, keys),
        }
    }

    /// The numbers at an address, where there are some.
    pub fn at(&self, address: &SocketAddress) -> Option<&Seq<Gen>>
        ensures { option_copied result ≡ lookup (socket_same address.now) self.now }
    {
        self.numbers.get(address)
    }

    /// A generation of this content holds the address at which it listens, where it listens.
    /// Out of memory, it is unspecified.
    pub fn hold(&mut self, alloc: Global, content: &Content, number: Gen) -> Result<(), AllocError>
        ensures { OnOk result (HoldsAddress self.old self.new number content.now) }
    {
        match address_of(content) {
            Some(address) => self.enter(alloc, address, number),
            None => Ok(()),
        }
    }

    /// A generation of this content no longer holds the address at which it listens. It takes no memory.
    pub fn release(&mut self, content: &Content, number: Gen)
        ensures { ReleasesAddress self.old self.new number content.now }
    {
        if let Some(address) = address_of(content) {
            self.leave(address, number);
        }
    }

    // One more number is at the address. Out of memory, it is unspecified.
    fn enter(
        &mut self,
        alloc: Global,
        address: &SocketAddress,
        number: Gen,
    ) -> Result<(), AllocError>
        ensures { OnOk result (EntersAt self.old self.new address.now number) }
    {
        enter_number(&mut self.numbers, alloc, address, number)
    }

    // A number is no longer at the address.
    fn leave(&mut self, address: &SocketAddress, number: Gen)
        ensures { LeavesAt self.old self.new address.now number }
    {
        leave_numbers(&mut self.numbers, address, number);
    }
}

// One more number is at an address. Out of memory, the numbers stay as they were.
fn enter_number(
    map: &mut Numbers,
    alloc: Global,
    address: &SocketAddress,
    number: Gen,
) -> Result<(), AllocError>
    ensures entered { OnOk result (EntersNumber map.old map.new address.now number) }
    ensures err { OnErr result ((a : declared.SocketAddress) → get socket_same map.new a ≡ get socket_same map.old a) }
{
    if let Some(numbers) = map.get_mut(address) {
        return numbers.push(number);
    }
    enter_first(map, alloc, address, number)
}

// A number alone is at an address. Out of memory, the numbers stay as they were.
fn enter_first(
    map: &mut Numbers,
    alloc: Global,
    address: &SocketAddress,
    number: Gen,
) -> Result<(), AllocError>
    ensures entered { OnOk result ((a : declared.SocketAddress) → get socket_same map.new a
        ≡ (if socket_same address.now a then Some (number ∷ []) else get socket_same map.old a)) }
    ensures err { OnErr result ((a : declared.SocketAddress) → get socket_same map.new a ≡ get socket_same map.old a) }
{
    let address = address.copy(alloc)?;
    let mut numbers = Seq::new(alloc);
    numbers.push(number)?;
    let Ok(_) = map.insert(address, numbers) else {
        return Err(AllocError);
    };
    Ok(())
}

// A number is left out at an address, and the entry of one without any is taken out.
fn leave_numbers(map: &mut Numbers, address: &SocketAddress, number: Gen)
    ensures { LeavesNumber map.old map.new address.now number }
{
    if let Some(numbers) = map.get_mut(address) {
        leave_out(numbers, number);
        if numbers.is_empty() {
            take_out(map, address);
        }
    }
}

// The address of a content, where it is a listener.
fn address_of(content: &Content) -> Option<&SocketAddress>
    ensures { option_copied result ≡ listening_address content.now }
{
    match content {
        Content::Listener(listener) => Some(&listener.get().address),
        _ => None,
    }
}

// Leaves a number out of these.
fn leave_out(numbers: &mut Seq<Gen>, number: Gen)
    ensures { numbers.new ≡ numbers_without number numbers.old }
{
    numbers.retain(|other| number != *other);
}

// Takes out the entry of an address.
fn take_out(map: &mut Numbers, address: &SocketAddress)
    ensures { (a : declared.SocketAddress) → get socket_same map.new a
        ≡ (if socket_same address.now a then None else get socket_same map.old a) }
{
    map.swap_remove(address);
}
