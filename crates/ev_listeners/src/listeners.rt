ghost use Rattle.std.specs.Prelude.{◌≡◌, [], false, true, None, Some, IfOk, OnOk, find, map, slice_get};
ghost use Rattle.std.specs.Option.{option_copied};
ghost use Rattle.ev_model.specs.Choice.{listener_at, listener_for, listener_for_every, listener_of_any, streams};
ghost use Rattle.ev_model.specs.Connections.{shows_chain};
ghost use Rattle.ev_model.specs.Picture.{has_number};
ghost use Rattle.ev_model.specs.declared.pictures.ServedListener.{ServedListener};
ghost use Rattle.ev_layers.specs.Rows.{IsInOrder, named, numbered, put_before, put_in, without_name, without_number};
ghost use Rattle.ev_listeners.specs.Groups.{ChangesGroup, with_listener, without_listener};
ghost use Rattle.ev_listeners.specs.Kept.{listener_name_keeps, listener_number_keeps};
ghost use Rattle.ev_listeners.specs.Origins.{ChangesByListener, group_after};

use crate::address_texts::AddressText;
use crate::groups::{Groups, enter_group, leave_group};
use crate::local_ends::LocalEnd;
use crate::origins::{Origins, enter_origins, leave_origins};
use crate::routed::RoutedListener;
use ev_keys::Keys;
use ev_layers::{Row, Rows, Table};
use ev_types::{Gen, Host, Ip, Origin, Shared};
use std::alloc::{AllocError, Global};
use std::marker::Model;

/// The listeners of a picture, with tables by name, by number, by address and by where their chains
/// began. Contracts see the list, in the order of names.
#[derive(Drop)]
pub struct Listeners {
    rows: Rows<RoutedListener>,
    groups: Groups,
    origins: Origins,
}

impl Model for Listeners {
    ghost use Rattle.std.specs.Prelude.{List};
    ghost use Rattle.ev_types.specs.SameHosts.{host_same};
    ghost use Rattle.ev_types.specs.Origins.{origin_same};
    ghost use Rattle.ev_model.specs.declared.pictures.ServedListener.{ServedListener};
    ghost use Rattle.ev_layers.specs.Layers.{found};
    ghost use Rattle.ev_listeners.specs.Origins.{AreIndexed};

    ghost Value = { List ServedListener };

    ghost view = { λ l. l.rows };

    ghost invariant = { λ l. AreIndexed l.rows (found host_same l.groups) (found origin_same l.origins) };
}

impl Listeners {
    /// No listener. Its tables hash by these keys.
    pub fn new(alloc: Global, keys: Keys) -> Result<Listeners, AllocError>
        ensures { IfOk result (λ listeners. listeners ≡ []) }
    {
        Ok(Listeners {
            rows: Rows::new(alloc, keys)?,
            groups: Table::new(alloc, keys)?,
            origins: Table::new(alloc, keys)?,
        })
    }

    /// The keys by which its tables hash.
    pub fn keys(&self) -> Keys {
        self.groups.keys()
    }

    /// The listener that a connection to this end comes to: at its address and port, else one that takes every address.
    pub fn for_end(&self, end: &LocalEnd<'_>) -> Option<&RoutedListener>
        ensures { option_copied result ≡ listener_for self.now end.now }
    {
        match self.at(end.host()) {
            Some(listener) => Some(listener),
            None => self.of_any(end.port(), end.ip()),
        }
    }

    // A listener that takes every address, for an IP address: at `0.0.0.0`, for IPv4 alone, else at `::`.
    fn of_any(&self, port: u16, ip: Option<Ip>) -> Option<&RoutedListener>
        ensures { option_copied result ≡ listener_of_any (streams self.now) port ip }
    {
        match ip {
            Some(Ip::V4(_)) => match self.for_every(port, "0.0.0.0") {
                Some(listener) => Some(listener),
                None => self.for_every(port, "::"),
            },
            Some(Ip::V6(_)) => self.for_every(port, "::"),
            None => None,
        }
    }

    // The first listener at this address and port that takes every address.
    fn for_every(&self, port: u16, address: &str) -> Option<&RoutedListener>
        ensures { option_copied result ≡ listener_for_every (streams self.now) port address.now }
    {
        let _ = &self.rows;
        let Some(group) = self.groups.get(&AddressText::new(address, port)) else {
            return None;
        };
        first_for_every(group.get().as_slice())
    }

    // The first listener at this address and port.
    fn at(&self, address: &Host) -> Option<&RoutedListener>
        ensures { option_copied result ≡ listener_at (streams self.now) address.now }
    {
        let _ = &self.rows;
        let Some(group) = self.groups.get(address) else {
            return None;
        };
        first_of(group.get().as_slice())
    }

    /// The first listener that has a chain which began there. It takes one look-up.
    pub fn with_chain(&self, origin: Option<Origin>) -> Option<&RoutedListener>
        ensures { option_copied result ≡ find (shows_chain origin) self.now }
    {
        let _ = &self.rows;
        let Some(origin) = origin else {
            return None;
        };
        let Some(group) = self.origins.get(&origin) else {
            return None;
        };
        first_of(group.get().as_slice())
    }

    /// The listener of this name.
    pub fn named(&self, name: &str) -> Option<&RoutedListener>
        ensures order { IsInOrder (λ (l : ServedListener). l.number) (λ (l : ServedListener). l.name) self.now }
        ensures row { option_copied result ≡ named (λ (l : ServedListener). l.name) self.now name.now }
    {
        self.rows.named(name)
    }

    /// Whether there is one of this number. It looks at no other.
    pub fn has(&self, number: Gen) -> bool
        ensures { result ≡ has_number number (map (λ (l : ServedListener). l.number) self.now) }
    {
        self.rows.has(number)
    }

    /// Whether the listener of this name is the same here as in listeners after them, if there is one.
    pub fn keeps_name(&self, after: &Listeners, name: &str) -> bool
        ensures { result ≡ listener_name_keeps self.now after.now name.now }
    {
        self.rows.keeps_name(&after.rows, name)
    }

    /// Whether the name that this number has here has the same listener in listeners after them.
    pub fn keeps_number(&self, after: &Listeners, number: Gen) -> bool
        ensures { result ≡ listener_number_keeps self.now after.now number }
    {
        self.rows.keeps_number(&after.rows, number)
    }

    /// The listeners without that of this number.
    pub fn without(self, alloc: Global, number: Gen) -> Result<Listeners, AllocError>
        ensures { IfOk result (λ listeners. listeners ≡ without_number (λ (l : ServedListener). l.number) number self) }
    {
        let listener = match self.rows.numbered(number) {
            Some(listener) => listener.share()?,
            None => return Ok(self),
        };
        self.without_listener(alloc, number, &listener)
    }

    // The listeners without that of this number, which is this one.
    fn without_listener(
        self,
        alloc: Global,
        number: Gen,
        listener: &Shared<RoutedListener>,
    ) -> Result<Listeners, AllocError>
        requires order { IsInOrder (λ (l : ServedListener). l.number) (λ (l : ServedListener). l.name) self }
        requires row { Some listener.now ≡ numbered (λ (l : ServedListener). l.number) self number }
        ensures { IfOk result (λ listeners. listeners ≡ without_number (λ (l : ServedListener). l.number) number self) }
    {
        let mut groups = self.groups;
        let mut origins = self.origins;
        leave(alloc, &mut groups, &mut origins, listener)?;
        let rows = self.rows.without(number)?;
        Ok(Listeners {
            rows,
            groups,
            origins,
        })
    }

    // The listeners without that of this name.
    fn without_name(self, alloc: Global, name: &str) -> Result<Listeners, AllocError>
        ensures { IfOk result (λ listeners. listeners ≡ without_name (λ (l : ServedListener). l.name) name.now self) }
    {
        let Some(listener) = self.rows.named(name) else {
            return Ok(self);
        };
        let number = listener.number();
        self.without(alloc, number)
    }

    // The listeners with one more, which has another name and number than each.
    fn with(self, alloc: Global, listener: Shared<RoutedListener>) -> Result<Listeners, AllocError>
        requires name { named (λ (l : ServedListener). l.name) self listener.name ≡ None }
        requires number { numbered (λ (l : ServedListener). l.number) self listener.number ≡ None }
        ensures { IfOk result (λ listeners. listeners ≡ put_before (λ (l : ServedListener). l.name) listener self) }
    {
        let mut groups = self.groups;
        let mut origins = self.origins;
        enter(alloc, &mut groups, &mut origins, &listener)?;
        let rows = self.rows.with(listener)?;
        Ok(Listeners {
            rows,
            groups,
            origins,
        })
    }

    /// The listeners with this one in place of those of its number and its name.
    pub fn put(
        self,
        alloc: Global,
        listener: Shared<RoutedListener>,
    ) -> Result<Listeners, AllocError>
        ensures { IfOk result (λ listeners.
            listeners ≡ put_in (λ (l : ServedListener). l.number) (λ (l : ServedListener). l.name) listener self) }
    {
        let listeners = self.without(alloc, listener.get().number())?;
        let listeners = listeners.without_name(alloc, listener.get().name())?;
        listeners.with(alloc, listener)
    }

    /// The same listeners, each shared with these.
    pub fn copy(&self, alloc: Global) -> Result<Listeners, AllocError>
        ensures { IfOk result (λ listeners. listeners ≡ self.now) }
    {
        Ok(Listeners {
            rows: self.rows.copy(alloc)?,
            groups: self.groups.copy(alloc)?,
            origins: self.origins.copy(alloc)?,
        })
    }

    /// Makes layers of what lies over those of its tables, so that copies share them.
    /// The listeners stay, also out of memory.
    pub fn settle(&mut self, alloc: Global) -> Result<(), AllocError>
        ensures { self.new ≡ self.old }
    {
        self.rows.settle(alloc)?;
        self.groups.settle(alloc)?;
        self.origins.settle(alloc)
    }
}

// Takes a listener out of its groups.
fn leave(
    alloc: Global,
    groups: &mut Groups,
    origins: &mut Origins,
    listener: &Shared<RoutedListener>,
) -> Result<(), AllocError>
    ensures address { OnOk result
        (ChangesGroup listener.now (without_listener listener.now.number) groups.old groups.new) }
    ensures origins { OnOk result
        (ChangesByListener listener.now (group_after false listener.now) origins.old origins.new) }
{
    leave_group(alloc, groups, listener)?;
    leave_origins(alloc, origins, listener)?;
    Ok(())
}

// Puts a listener into its groups.
fn enter(
    alloc: Global,
    groups: &mut Groups,
    origins: &mut Origins,
    listener: &Shared<RoutedListener>,
) -> Result<(), AllocError>
    ensures address { OnOk result (ChangesGroup listener.now (with_listener listener.now) groups.old groups.new) }
    ensures origins { OnOk result
        (ChangesByListener listener.now (group_after true listener.now) origins.old origins.new) }
{
    enter_group(alloc, groups, listener)?;
    enter_origins(alloc, origins, listener)?;
    Ok(())
}

// The first listener of a group.
fn first_of(group: &[Shared<RoutedListener>]) -> Option<&RoutedListener>
    ensures { option_copied result ≡ slice_get group.now 0 }
{
    match group.first() {
        Some(listener) => Some(listener.get()),
        None => None,
    }
}

// The first listener of a group that takes every address.
fn first_for_every(group: &[Shared<RoutedListener>]) -> Option<&RoutedListener>
    ensures { option_copied result ≡ find (λ (l : ServedListener). l.takes_every_address) group.now }
{
    match found_for_every(group) {
        Some(listener) => Some(listener.get()),
        None => None,
    }
}

// The same, with its owner.
fn found_for_every(group: &[Shared<RoutedListener>]) -> Option<&Shared<RoutedListener>>
    ensures { option_copied result ≡ find (λ (l : ServedListener). l.takes_every_address) group.now }
{
    group.iter().find(|listener| takes_every_address(listener))
}

// Whether a listener takes every address.
fn takes_every_address(listener: &Shared<RoutedListener>) -> bool
    ensures { result ≡ listener.now.takes_every_address }
{
    listener.get().takes_every_address()
}
