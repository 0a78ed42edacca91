ghost use Rattle.std.specs.Prelude.{◌≡◌, false, true, Some, IfOk, OnOk, option_to_list};
ghost use Rattle.std.specs.Option.{option_copied};
ghost use Rattle.ev_types.specs.Origins.{origin_same};
ghost use Rattle.ev_types.specs.declared.origins.Origin.{Origin as BeganAt};
ghost use Rattle.ev_model.specs.Connections.{shares_origin};
ghost use Rattle.ev_listeners.specs.Groups.{group_of};
ghost use Rattle.ev_listeners.specs.Origins.{ChangesByChains, ChangesByListener, ChangesWhere, group_after};

use crate::groups::{Group, entry_of, group_without, insert_in_order};
use crate::routed::RoutedListener;
use crate::routed_chain::RoutedChain;
use ev_layers::{Row, Table};
use ev_types::{Origin, Seq, Shared};
use std::alloc::{AllocError, Global};

/// The groups of listeners by where their chains began.
pub(crate) type Origins = Table<Origin, Group>;

/// Takes a listener, which goes by its number, out of the group of each of its chains.
pub(crate) fn leave_origins(
    alloc: Global,
    origins: &mut Origins,
    listener: &Shared<RoutedListener>,
) -> Result<(), AllocError>
    ensures { OnOk result (ChangesByListener listener.now (group_after false listener.now) origins.old origins.new) }
{
    regroup(alloc, origins, listener, false)
}

/// Puts a listener into the group of each of its chains, in place of the one of its number.
pub(crate) fn enter_origins(
    alloc: Global,
    origins: &mut Origins,
    listener: &Shared<RoutedListener>,
) -> Result<(), AllocError>
    ensures { OnOk result (ChangesByListener listener.now (group_after true listener.now) origins.old origins.new) }
{
    regroup(alloc, origins, listener, true)
}

// Has a listener in the group of each of its chains from now on where it serves, and else in none.
fn regroup(
    alloc: Global,
    origins: &mut Origins,
    listener: &Shared<RoutedListener>,
    serves: bool,
) -> Result<(), AllocError>
    ensures { OnOk result (ChangesByListener listener.now (group_after serves listener.now) origins.old origins.new) }
{
    regroup_chains(
        alloc,
        origins,
        listener.get().filter_chains(),
        listener,
        serves,
    )?;
    regroup_chain(
        alloc,
        origins,
        listener.get().default_filter_chain(),
        listener,
        serves,
    )?;
    Ok(())
}

// The same for the groups of these chains.
fn regroup_chains(
    alloc: Global,
    origins: &mut Origins,
    chains: &[RoutedChain],
    listener: &Shared<RoutedListener>,
    serves: bool,
) -> Result<(), AllocError>
    ensures { OnOk result (ChangesByChains chains.now (group_after serves listener.now) origins.old origins.new) }
{
    for chain in chains {
        regroup_origin(alloc, origins, chain.origin(), listener, serves)?;
    }
    Ok(())
}

// The same for the group of a chain, if there is one.
fn regroup_chain(
    alloc: Global,
    origins: &mut Origins,
    chain: Option<&RoutedChain>,
    listener: &Shared<RoutedListener>,
    serves: bool,
) -> Result<(), AllocError>
    ensures { OnOk result
        (ChangesByChains (option_to_list (option_copied chain.entry)) (group_after serves listener.now)
        origins.old origins.new) }
{
    if let Some(chain) = chain {
        regroup_origin(alloc, origins, chain.origin(), listener, serves)?;
    }
    Ok(())
}

// The same for the group at an origin, if it is known.
fn regroup_origin(
    alloc: Global,
    origins: &mut Origins,
    origin: Option<Origin>,
    listener: &Shared<RoutedListener>,
    serves: bool,
) -> Result<(), AllocError>
    ensures { OnOk result
        (ChangesWhere (λ (o : BeganAt). shares_origin (Some o) origin) (group_after serves listener.now)
        origins.old origins.new) }
{
    let Some(origin) = origin else {
        return Ok(());
    };
    let group = group_after(alloc, origins.get(&origin), listener, serves)?;
    set_origin(alloc, origins, origin, group)?;
    Ok(())
}

// Sets the group at an origin.
fn set_origin(
    alloc: Global,
    origins: &mut Origins,
    origin: Origin,
    group: Seq<Shared<RoutedListener>>,
) -> Result<(), AllocError>
    ensures { OnOk result
        (ChangesWhere (λ (o : BeganAt). origin_same origin o) (λ before. group) origins.old origins.new) }
{
    let group = entry_of(alloc, group)?;
    origins.set(origin, group)?;
    Ok(())
}

// A group with the listener in place of the one of its number where it serves, and else without it.
fn group_after(
    alloc: Global,
    group: Option<&Group>,
    listener: &Shared<RoutedListener>,
    serves: bool,
) -> Result<Seq<Shared<RoutedListener>>, AllocError>
    ensures { IfOk result (λ new. new ≡ group_after serves listener.now (group_of (option_copied group.entry))) }
{
    let group = group_without(alloc, group, listener.get().number())?;
    if serves {
        insert_in_order(group, listener)
    } else {
        Ok(group)
    }
}
