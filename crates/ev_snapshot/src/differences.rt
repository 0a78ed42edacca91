ghost use Rattle.std.specs.Prelude.{◌≡◌, ◌++◌, not, filter, IfOk, OnOk, option_map};
ghost use Rattle.std.specs.List.{flat_map};
ghost use Rattle.ev_model.specs.Connections.{chains_shown};
ghost use Rattle.ev_model.specs.Picture.{is_shown};
ghost use Rattle.ev_model.specs.declared.pictures.ServedListener.{ServedListener};
ghost use Rattle.ev_layers.specs.Rows.{named};
ghost use Rattle.ev_snapshot.specs.Changes.{IsOrdered, shown_with};
ghost use Rattle.ev_snapshot.specs.Touched.{AreBegun, AreGone, begun_at, cluster_touches, listener_touches, numbers_touched, served_begun};

use crate::Snapshot;
use crate::changes::{Changes, ClusterChange, ListenerChange};
use ev_hosts::ShownCluster;
use ev_layers::{Row, Rows};
use ev_listeners::Listeners;
use ev_model::{ServedChain, ServedListener};
use ev_types::Gen;
use std::alloc::{AllocError, Global};

impl Snapshot {
    /// Numbers of generations: each that `before` shows and this snapshot, which is the one after these changes of
    /// it, doesn't show is among them. It looks at those alone that the changes touch.
    pub fn gone(
        &self,
        alloc: Global,
        before: &Snapshot,
        changes: &Changes,
    ) -> Result<Vec<Gen>, AllocError>
        requires after { self.now.shown ≡ shown_with changes.now before.now.shown }
        ensures gone { IfOk result (λ gone. AreGone gone.items before.now.shown self.now.shown) }
        ensures ordered { IsOrdered before.now.shown }
    {
        let touched = before.touched_by(alloc, changes)?;
        self.not_shown(alloc, touched.as_slice())
    }

    // The numbers of the generations that changes of this snapshot touch.
    fn touched_by(&self, alloc: Global, changes: &Changes) -> Result<Vec<Gen>, AllocError>
        ensures touched { IfOk result (λ touched. touched.items ≡ numbers_touched changes.now self.now.shown) }
        ensures ordered { IsOrdered self.now.shown }
    {
        let mut touched = Vec::new(alloc);
        let clusters = changes.clusters.as_slice();
        push_clusters(&mut touched, &self.parts.clusters, clusters)?;
        let listeners = changes.listeners.as_slice();
        push_listeners(&mut touched, &self.parts.listeners, listeners)?;
        Ok(touched)
    }

    // Of these numbers those of generations that it doesn't show.
    fn not_shown(&self, alloc: Global, numbers: &[Gen]) -> Result<Vec<Gen>, AllocError>
        ensures { IfOk result (λ hidden. hidden.items ≡ filter (λ n. not (is_shown n self.now.shown)) numbers.now) }
    {
        numbers
            .iter()
            .filter(|number| !self.shows(**number))
            .map(|number| *number)
            .collect(alloc)
    }

    /// Numbers of generations: of each chain that this snapshot shows, which is the one after these changes of
    /// `before`, and that `before` doesn't show, the one with which it began is among them. It looks at the chains
    /// alone of what the changes bring.
    pub fn begun(
        &self,
        alloc: Global,
        before: &Snapshot,
        changes: &Changes,
    ) -> Result<Vec<Gen>, AllocError>
        requires after { self.now.shown ≡ shown_with changes.now before.now.shown }
        ensures { IfOk result (λ begun. AreBegun begun.items before.now.shown self.now.shown) }
    {
        let mut begun = Vec::new(alloc);
        push_all_begun(&mut begun, before, changes.listeners.as_slice())?;
        Ok(begun)
    }
}

// Appends the numbers that changes of clusters touch.
fn push_clusters(
    numbers: &mut Vec<Gen>,
    before: &Rows<ShownCluster>,
    changes: &[ClusterChange],
) -> Result<(), AllocError>
    ensures { OnOk result (numbers.new.items ≡ numbers.old.items ++ flat_map (cluster_touches before.now) changes.now) }
{
    for change in changes {
        push_cluster(numbers, before, change)?;
    }
    Ok(())
}

// Appends the numbers that a change of clusters touches.
fn push_cluster(
    numbers: &mut Vec<Gen>,
    before: &Rows<ShownCluster>,
    change: &ClusterChange,
) -> Result<(), AllocError>
    ensures { OnOk result (numbers.new.items ≡ numbers.old.items ++ cluster_touches before.now change.now) }
{
    numbers.push(change.number)?;
    if let Some(cluster) = &change.served {
        numbers.push(cluster.number)?;
        if let Some(replaced) = before.named(cluster.name.as_str()) {
            numbers.push(replaced.number)?;
        }
    }
    Ok(())
}

// Appends the numbers that changes of listeners touch.
fn push_listeners(
    numbers: &mut Vec<Gen>,
    before: &Listeners,
    changes: &[ListenerChange],
) -> Result<(), AllocError>
    ensures { OnOk result (numbers.new.items
        ≡ numbers.old.items ++ flat_map (listener_touches before.now) changes.now) }
{
    for change in changes {
        push_listener(numbers, before, change)?;
    }
    Ok(())
}

// Appends the numbers that a change of listeners touches.
fn push_listener(
    numbers: &mut Vec<Gen>,
    before: &Listeners,
    change: &ListenerChange,
) -> Result<(), AllocError>
    ensures { OnOk result (numbers.new.items ≡ numbers.old.items ++ listener_touches before.now change.now) }
{
    numbers.push(change.number)?;
    if let Some(listener) = &change.served {
        numbers.push(listener.number)?;
        if let Some(replaced) = number_named(before, listener.name.as_str()) {
            numbers.push(replaced)?;
        }
    }
    Ok(())
}

// The number of the listener of this name, if there is one.
fn number_named(listeners: &Listeners, name: &str) -> Option<Gen>
    ensures { result ≡ option_map (λ (l : ServedListener). l.number)
        (named (λ (l : ServedListener). l.name) listeners.now name.now) }
{
    match listeners.named(name) {
        Some(listener) => Some(listener.number()),
        None => None,
    }
}

// Appends the generations with which the chains began of all that changes bring, where a snapshot doesn't show these
// chains.
fn push_all_begun(
    numbers: &mut Vec<Gen>,
    before: &Snapshot,
    changes: &[ListenerChange],
) -> Result<(), AllocError>
    ensures { OnOk result (numbers.new.items
        ≡ numbers.old.items ++ flat_map (λ c. served_begun before.now.shown c.served) changes.now) }
{
    for change in changes {
        push_served_begun(numbers, before, change)?;
    }
    Ok(())
}

// Appends those of the listener of a change, if it serves now.
fn push_served_begun(
    numbers: &mut Vec<Gen>,
    before: &Snapshot,
    change: &ListenerChange,
) -> Result<(), AllocError>
    ensures { OnOk result (numbers.new.items ≡ numbers.old.items ++ served_begun before.now.shown change.now.served) }
{
    match &change.served {
        Some(listener) => push_listener_begun(numbers, before, listener),
        None => Ok(()),
    }
}

// Appends those of a listener.
fn push_listener_begun(
    numbers: &mut Vec<Gen>,
    before: &Snapshot,
    listener: &ServedListener,
) -> Result<(), AllocError>
    ensures { OnOk result (numbers.new.items
        ≡ numbers.old.items ++ flat_map (begun_at before.now.shown) (chains_shown listener.now)) }
{
    push_chains_begun(numbers, before, listener.filter_chains.as_slice())?;
    match &listener.default_filter_chain {
        Some(chain) => push_begun(numbers, before, chain),
        None => Ok(()),
    }
}

// Appends those of these chains.
fn push_chains_begun(
    numbers: &mut Vec<Gen>,
    before: &Snapshot,
    chains: &[ServedChain],
) -> Result<(), AllocError>
    ensures { OnOk result (numbers.new.items ≡ numbers.old.items ++ flat_map (begun_at before.now.shown) chains.now) }
{
    for chain in chains {
        push_begun(numbers, before, chain)?;
    }
    Ok(())
}

// Appends the generation with which a chain began, where it is known and the chain isn't shown.
fn push_begun(
    numbers: &mut Vec<Gen>,
    before: &Snapshot,
    chain: &ServedChain,
) -> Result<(), AllocError>
    ensures { OnOk result (numbers.new.items ≡ numbers.old.items ++ begun_at before.now.shown chain.now) }
{
    if before.shows_chain(chain.origin) {
        return Ok(());
    }
    if let Some(origin) = &chain.origin {
        numbers.push(origin.listener)?;
    }
    Ok(())
}
