ghost use Rattle.std.specs.Prelude.{◌≡◌, ◌==◌, not, position, IfOk, OnOk};
ghost use Rattle.std.specs.Option.{option_copied};
ghost use Rattle.ev_model.specs.Versions.{is_before};
ghost use Rattle.ev_model.specs.declared.pictures.ServedListener.{ServedListener};
ghost use Rattle.ev_listeners.specs.Groups.{ChangesGroup, ChangesGroupAt, group_of, with_listener, without_listener};

use crate::addresses::ListenerAddress;
use crate::routed::RoutedListener;
use ev_layers::{Row, Table};
use ev_types::{Gen, Seq, Shared, TryCopy};
use std::alloc::{AllocError, Global};

/// The listeners at an address, in the order of their names. Each is shared, and so is the list.
pub(crate) type Group = Shared<Seq<Shared<RoutedListener>>>;

/// The groups by address.
pub(crate) type Groups = Table<ListenerAddress, Group>;

/// Takes a listener, which goes by its number, out of the group at its address. One by UDP is in none.
pub(crate) fn leave_group(
    alloc: Global,
    groups: &mut Groups,
    listener: &Shared<RoutedListener>,
) -> Result<(), AllocError>
    ensures { OnOk result (ChangesGroup listener.now (without_listener listener.now.number) groups.old groups.new) }
{
    if listener.get().is_udp() {
        return Ok(());
    }
    let group = group_without(
        alloc,
        groups.get(listener.get().address()),
        listener.get().number(),
    )?;
    set_group(alloc, groups, listener, group)?;
    Ok(())
}

/// Puts a listener into the group at its address. One by UDP is in none.
pub(crate) fn enter_group(
    alloc: Global,
    groups: &mut Groups,
    listener: &Shared<RoutedListener>,
) -> Result<(), AllocError>
    ensures { OnOk result (ChangesGroup listener.now (with_listener listener.now) groups.old groups.new) }
{
    if listener.get().is_udp() {
        return Ok(());
    }
    let group = group_with(alloc, groups.get(listener.get().address()), listener)?;
    set_group(alloc, groups, listener, group)?;
    Ok(())
}

// Sets the group at a listener's address.
fn set_group(
    alloc: Global,
    groups: &mut Groups,
    listener: &Shared<RoutedListener>,
    group: Seq<Shared<RoutedListener>>,
) -> Result<(), AllocError>
    ensures { OnOk result (ChangesGroupAt listener.now.address (λ before. group) groups.old groups.new) }
{
    let group = entry_of(alloc, group)?;
    let address = ListenerAddress::new(listener.share()?);
    groups.set(address, group)?;
    Ok(())
}

/// A group as a table has it: none where it is empty.
pub(crate) fn entry_of(
    alloc: Global,
    group: Seq<Shared<RoutedListener>>,
) -> Result<Option<Group>, AllocError>
    ensures { IfOk result (λ entry. group_of entry ≡ group) }
{
    if group.len() == 0 {
        return Ok(None);
    }
    Ok(Some(Shared::new(alloc, group)?))
}

/// A group without the listener of this number.
pub(crate) fn group_without(
    alloc: Global,
    group: Option<&Group>,
    number: Gen,
) -> Result<Seq<Shared<RoutedListener>>, AllocError>
    ensures { IfOk result (λ new. new ≡ without_listener number (group_of (option_copied group.entry))) }
{
    let mut group = copy_of(alloc, group)?;
    group.retain(|listener| is_other(listener, number));
    Ok(group)
}

// Whether a listener has another number.
fn is_other(listener: &Shared<RoutedListener>, number: Gen) -> bool
    ensures { result ≡ not (listener.now.number == number) }
{
    listener.get().number() != number
}

// A group with one more listener.
fn group_with(
    alloc: Global,
    group: Option<&Group>,
    listener: &Shared<RoutedListener>,
) -> Result<Seq<Shared<RoutedListener>>, AllocError>
    ensures { IfOk result (λ new. new ≡ with_listener listener.now (group_of (option_copied group.entry))) }
{
    insert_in_order(copy_of(alloc, group)?, listener)
}

/// A group of one more listener.
pub(crate) fn insert_in_order(
    group: Seq<Shared<RoutedListener>>,
    listener: &Shared<RoutedListener>,
) -> Result<Seq<Shared<RoutedListener>>, AllocError>
    ensures { IfOk result (λ new. new ≡ with_listener listener.now group) }
{
    let mut group = group;
    let Some(place) = place_in(group.as_slice(), listener.get()) else {
        group.push(listener.share()?)?;
        return Ok(group);
    };
    group.insert(place, listener.share()?)?;
    Ok(group)
}

// The place of the first listener of a group that this one comes before.
fn place_in(group: &[Shared<RoutedListener>], listener: &RoutedListener) -> Option<usize>
    ensures { result ≡ position (λ (l : ServedListener). is_before listener.now.name l.name) group.now }
{
    group
        .iter()
        .position(|other| listener.name() < other.get().name())
}

// The listeners of a group, or else none.
fn copy_of(alloc: Global, group: Option<&Group>) -> Result<Seq<Shared<RoutedListener>>, AllocError>
    ensures { IfOk result (λ copied. copied ≡ group_of (option_copied group.entry)) }
{
    match group {
        Some(group) => group.get().copy(alloc),
        None => Ok(Seq::new(alloc)),
    }
}
