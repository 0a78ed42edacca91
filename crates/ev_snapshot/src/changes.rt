use ev_hosts::ShownCluster;
use ev_model::ServedListener;
use ev_types::{Gen, Seq};

/// What a picture shows of the generation of this number from now on: a cluster, or nothing.
#[derive(Drop)]
pub struct ClusterChange {
    pub number: Gen,
    pub served: Option<ShownCluster>,
}

/// What a picture shows of the generation of this number from now on: a listener, or nothing.
#[derive(Drop)]
pub struct ListenerChange {
    pub number: Gen,
    pub served: Option<ServedListener>,
}

/// What a publication changes: the generations of which another cluster or listener is shown from now on, or none. Of
/// all others the same is shown as before.
#[derive(Drop)]
pub struct Changes {
    pub clusters: Seq<ClusterChange>,
    pub listeners: Seq<ListenerChange>,
}
