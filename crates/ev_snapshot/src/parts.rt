ghost use Rattle.std.specs.Prelude.{◌≡◌, [], IfOk};
ghost use Rattle.std.specs.List.{list_all};
ghost use Rattle.ev_snapshot.specs.Changes.{clusters_with, clusters_without, listeners_with, listeners_without, put_cluster, put_clusters, put_listener, put_listeners};
ghost use Rattle.ev_snapshot.specs.Kept.{all_keep, clusters_keep, listeners_keep, served_cluster_keeps, served_listener_keeps};

use crate::changes::{Changes, ClusterChange, ListenerChange};
use ev_hosts::ShownCluster;
use ev_keys::Keys;
use ev_layers::Rows;
use ev_listeners::{Listeners, RoutedListener};
use ev_model::ServedListener;
use ev_types::{Shared, TryCopy};
use std::alloc::{AllocError, Global};

/// The clusters and the listeners of a picture.
#[derive(Drop)]
pub(crate) struct Parts {
    pub(crate) clusters: Rows<ShownCluster>,
    pub(crate) listeners: Listeners,
}

impl Parts {
    /// No cluster and no listener. Their tables hash by these keys.
    pub(crate) fn new(alloc: Global, keys: Keys) -> Result<Parts, AllocError>
        ensures clusters { IfOk result (λ parts. parts.clusters ≡ []) }
        ensures listeners { IfOk result (λ parts. parts.listeners ≡ []) }
    {
        Ok(Parts {
            clusters: Rows::new(alloc, keys)?,
            listeners: Listeners::new(alloc, keys)?,
        })
    }

    /// Makes layers of what lies over those of the tables, so that copies share them. All is as before, also out of
    /// memory.
    pub(crate) fn settle(&mut self, alloc: Global) -> Result<(), AllocError>
        ensures clusters { self.new.clusters ≡ self.old.clusters }
        ensures listeners { self.new.listeners ≡ self.old.listeners }
    {
        self.clusters.settle(alloc)?;
        self.listeners.settle(alloc)
    }
}

/// The clusters and the listeners after these changes. Each that is as before is shared with those before.
pub(crate) fn parts_with(
    alloc: Global,
    clusters: &Rows<ShownCluster>,
    listeners: &Listeners,
    changes: &Changes,
) -> Result<Parts, AllocError>
    ensures clusters { IfOk result (λ parts. parts.clusters ≡ clusters_with changes.now.clusters clusters.now) }
    ensures listeners { IfOk result (λ parts. parts.listeners ≡ listeners_with changes.now.listeners listeners.now) }
{
    let clusters = clusters_with(alloc, clusters, changes.clusters.as_slice())?;
    let listeners = listeners_with(alloc, listeners, changes.listeners.as_slice())?;
    Ok(Parts {
        clusters,
        listeners,
    })
}

// The clusters after these changes.
fn clusters_with(
    alloc: Global,
    before: &Rows<ShownCluster>,
    changes: &[ClusterChange],
) -> Result<Rows<ShownCluster>, AllocError>
    ensures { IfOk result (λ clusters. clusters ≡ clusters_with changes.now before.now) }
{
    let clusters = without_clusters(before.copy(alloc)?, changes)?;
    put_clusters(alloc, clusters, before, changes)
}

// The clusters without those of the numbers that changed.
fn without_clusters(
    clusters: Rows<ShownCluster>,
    changes: &[ClusterChange],
) -> Result<Rows<ShownCluster>, AllocError>
    ensures { IfOk result (λ new. new ≡ clusters_without changes.now clusters) }
{
    let mut left = clusters;
    for change in changes {
        left = left.without(change.number)?;
    }
    Ok(left)
}

// The clusters with those that changed and serve now.
fn put_clusters(
    alloc: Global,
    clusters: Rows<ShownCluster>,
    before: &Rows<ShownCluster>,
    changes: &[ClusterChange],
) -> Result<Rows<ShownCluster>, AllocError>
    ensures { IfOk result (λ new. new ≡ put_clusters changes.now clusters) }
{
    let mut all = clusters;
    for change in changes {
        all = put_cluster(alloc, all, before, change)?;
    }
    Ok(all)
}

// The clusters with that of a change, if it serves now.
fn put_cluster(
    alloc: Global,
    clusters: Rows<ShownCluster>,
    before: &Rows<ShownCluster>,
    change: &ClusterChange,
) -> Result<Rows<ShownCluster>, AllocError>
    ensures { IfOk result (λ new. new ≡ put_cluster change.now.served clusters) }
{
    match &change.served {
        Some(cluster) => clusters.put(shared_cluster(alloc, cluster, before)?),
        None => Ok(clusters),
    }
}

// The cluster, shared with those before where that of its number is the same.
fn shared_cluster(
    alloc: Global,
    cluster: &ShownCluster,
    before: &Rows<ShownCluster>,
) -> Result<Shared<ShownCluster>, AllocError>
    ensures { IfOk result (λ shared. shared ≡ cluster.now) }
{
    if let Some(held) = before.numbered(cluster.number) {
        if *held.get() == *cluster {
            return held.share();
        }
    }
    Shared::new(alloc, cluster.copy(alloc)?)
}

// Whether these changes leave the clusters under each name that they touch.
fn keep_clusters(
    before: &Rows<ShownCluster>,
    after: &Rows<ShownCluster>,
    changes: &[ClusterChange],
) -> bool
    ensures { result ≡ list_all (clusters_keep before.now after.now) changes.now }
{
    changes
        .iter()
        .all(|change| keeps_cluster(before, after, change))
}

// Whether a change leaves the clusters under each name that it touches.
fn keeps_cluster(
    before: &Rows<ShownCluster>,
    after: &Rows<ShownCluster>,
    change: &ClusterChange,
) -> bool
    ensures { result ≡ clusters_keep before.now after.now change.now }
{
    before.keeps_number(after, change.number) && keeps_served_cluster(before, after, change)
}

// Whether the cluster of a change leaves the clusters under each name that it touches.
fn keeps_served_cluster(
    before: &Rows<ShownCluster>,
    after: &Rows<ShownCluster>,
    change: &ClusterChange,
) -> bool
    ensures { result ≡ served_cluster_keeps before.now after.now change.now.served }
{
    match &change.served {
        Some(cluster) => {
            before.keeps_number(after, cluster.number)
                && before.keeps_name(after, cluster.name.as_str())
        }
        None => true,
    }
}

// The listeners after these changes.
fn listeners_with(
    alloc: Global,
    before: &Listeners,
    changes: &[ListenerChange],
) -> Result<Listeners, AllocError>
    ensures { IfOk result (λ listeners. listeners ≡ listeners_with changes.now before.now) }
{
    let listeners = without_listeners(alloc, before.copy(alloc)?, changes)?;
    put_listeners(alloc, listeners, before, changes)
}

// The listeners without those of the numbers that changed.
fn without_listeners(
    alloc: Global,
    listeners: Listeners,
    changes: &[ListenerChange],
) -> Result<Listeners, AllocError>
    ensures { IfOk result (λ new. new ≡ listeners_without changes.now listeners) }
{
    let mut left = listeners;
    for change in changes {
        left = left.without(alloc, change.number)?;
    }
    Ok(left)
}

// The listeners with those that changed and serve now.
fn put_listeners(
    alloc: Global,
    listeners: Listeners,
    before: &Listeners,
    changes: &[ListenerChange],
) -> Result<Listeners, AllocError>
    ensures { IfOk result (λ new. new ≡ put_listeners changes.now listeners) }
{
    let mut all = listeners;
    for change in changes {
        all = put_listener(alloc, all, before, change)?;
    }
    Ok(all)
}

// The listeners with that of a change, if it serves now.
fn put_listener(
    alloc: Global,
    listeners: Listeners,
    before: &Listeners,
    change: &ListenerChange,
) -> Result<Listeners, AllocError>
    ensures { IfOk result (λ new. new ≡ put_listener change.now.served listeners) }
{
    match &change.served {
        Some(listener) => listeners.put(alloc, shared_listener(alloc, listener, before)?),
        None => Ok(listeners),
    }
}

// The listener, which shares the tables of its chains with that of its name before.
fn shared_listener(
    alloc: Global,
    listener: &ServedListener,
    before: &Listeners,
) -> Result<Shared<RoutedListener>, AllocError>
    ensures { IfOk result (λ shared. shared ≡ listener.now) }
{
    let keys = before.keys();
    let before = before.named(listener.name.as_str());
    Shared::new(alloc, RoutedListener::new(alloc, keys, listener, before)?)
}

// Whether these changes leave the listeners under each name that they touch.
fn keep_listeners(before: &Listeners, after: &Listeners, changes: &[ListenerChange]) -> bool
    ensures { result ≡ list_all (listeners_keep before.now after.now) changes.now }
{
    changes
        .iter()
        .all(|change| keeps_listener(before, after, change))
}

// Whether a change leaves the listeners under each name that it touches.
fn keeps_listener(before: &Listeners, after: &Listeners, change: &ListenerChange) -> bool
    ensures { result ≡ listeners_keep before.now after.now change.now }
{
    before.keeps_number(after, change.number) && keeps_served_listener(before, after, change)
}

// Whether the listener of a change leaves the listeners under each name that it touches.
fn keeps_served_listener(before: &Listeners, after: &Listeners, change: &ListenerChange) -> bool
    ensures { result ≡ served_listener_keeps before.now after.now change.now.served }
{
    match &change.served {
        Some(listener) => {
            before.keeps_number(after, listener.number)
                && before.keeps_name(after, listener.name.as_str())
        }
        None => true,
    }
}

/// Whether changes leave the clusters and the listeners under each name that they touch.
pub(crate) fn keep_all(
    clusters: &Rows<ShownCluster>,
    listeners: &Listeners,
    after: &Parts,
    changes: &Changes,
) -> bool
    ensures { result ≡ all_keep clusters.now listeners.now after.now.clusters after.now.listeners changes.now }
{
    keep_clusters(clusters, &after.clusters, changes.clusters.as_slice())
        && keep_listeners(listeners, &after.listeners, changes.listeners.as_slice())
}
