use crate::{RouteMatch, Seq, Text, TryCopy};
use std::alloc::{AllocError, Global};
use std::marker::Model;

/// One cluster of a weighted target, and its share.
#[derive(Drop)]
pub struct WeightedCluster {
    pub name: Text,
    pub weight: u32,
}

impl TryCopy for WeightedCluster {
    fn copy(&self, alloc: Global) -> Result<WeightedCluster, AllocError> {
        Ok(WeightedCluster {
            name: self.name.copy(alloc)?,
            weight: self.weight,
        })
    }
}

impl PartialEq for WeightedCluster {
    ghost use Rattle.std.specs.Cmp.{decided, partial_equiv_from_equiv};
    ghost use Rattle.ev_types.specs.SameRoutes.{weighted_cluster_same, weighted_cluster_decides};

    ghost eq = { weighted_cluster_same };

    ghost laws = { partial_equiv_from_equiv (decided weighted_cluster_same weighted_cluster_decides) };

    fn eq(&self, other: &WeightedCluster) -> bool {
        self.name == other.name && self.weight == other.weight
    }
}

impl Eq for WeightedCluster {
    ghost use Rattle.std.specs.Cmp.{decided};
    ghost use Rattle.ev_types.specs.SameRoutes.{weighted_cluster_same, weighted_cluster_decides};

    ghost laws = { decided weighted_cluster_same weighted_cluster_decides };
}

/// The clusters of a weighted target, in order. Their weights sum to 1 to `MAX_WEIGHT_SUM`.
#[derive(Drop)]
pub struct WeightedClusters {
    clusters: Seq<WeightedCluster>,
}

impl Model for WeightedClusters {
    ghost use Rattle.std.specs.Prelude.{List};
    ghost use Rattle.ev_types.specs.declared.routes.WeightedCluster.{WeightedCluster};

    ghost Value = { List WeightedCluster };

    ghost use Rattle.ev_types.specs.Weights.{HasWeight};

    ghost view = { λ w. w.clusters };

    ghost invariant = { λ w. HasWeight w.clusters };
}

impl WeightedClusters {
    ghost use Rattle.std.specs.Prelude.{◌≡◌};
    ghost use Rattle.ev_types.specs.Weights.{HasWeight};

    /// The target of these clusters.
    pub fn new(clusters: Seq<WeightedCluster>) -> WeightedClusters
        requires { HasWeight clusters }
        ensures clusters { result ≡ clusters }
    {
        WeightedClusters { clusters }
    }

    /// The clusters in order.
    pub fn clusters(&self) -> &[WeightedCluster]
        ensures clusters { result.now ≡ self.now }
        ensures weight { HasWeight self.now }
    {
        self.clusters.as_slice()
    }
}

impl TryCopy for WeightedClusters {
    fn copy(&self, alloc: Global) -> Result<WeightedClusters, AllocError> {
        Ok(WeightedClusters {
            clusters: self.clusters.copy(alloc)?,
        })
    }
}

impl PartialEq for WeightedClusters {
    ghost use Rattle.std.specs.Cmp.{decided, partial_equiv_from_equiv};
    ghost use Rattle.ev_types.specs.SameRoutes.{weighted_clusters_same, weighted_clusters_decide};

    ghost eq = { weighted_clusters_same };

    ghost laws = { partial_equiv_from_equiv (decided weighted_clusters_same weighted_clusters_decide) };

    fn eq(&self, other: &WeightedClusters) -> bool {
        self.clusters == other.clusters
    }
}

impl Eq for WeightedClusters {
    ghost use Rattle.std.specs.Cmp.{decided};
    ghost use Rattle.ev_types.specs.SameRoutes.{weighted_clusters_same, weighted_clusters_decide};

    ghost laws = { decided weighted_clusters_same weighted_clusters_decide };
}

/// Where requests are forwarded to.
#[derive(Drop)]
pub enum Target {
    /// The cluster of this name.
    One(Text),
    /// One of several clusters, by their weights.
    Weighted(WeightedClusters),
    /// A cluster that a header of the request names, or an extension: no script tells which.
    Elsewhere,
}

impl TryCopy for Target {
    fn copy(&self, alloc: Global) -> Result<Target, AllocError> {
        match self {
            Target::One(name) => Ok(Target::One(name.copy(alloc)?)),
            Target::Weighted(clusters) => Ok(Target::Weighted(clusters.copy(alloc)?)),
            Target::Elsewhere => Ok(Target::Elsewhere),
        }
    }
}

impl PartialEq for Target {
    ghost use Rattle.std.specs.Cmp.{decided, partial_equiv_from_equiv};
    ghost use Rattle.ev_types.specs.SameRoutes.{target_same, target_decides};

    ghost eq = { target_same };

    ghost laws = { partial_equiv_from_equiv (decided target_same target_decides) };

    fn eq(&self, other: &Target) -> bool {
        match (self, other) {
            (Target::One(name), Target::One(other)) => name == other,
            (Target::Weighted(clusters), Target::Weighted(other)) => clusters == other,
            (Target::Elsewhere, Target::Elsewhere) => true,
            _ => false,
        }
    }
}

impl Eq for Target {
    ghost use Rattle.std.specs.Cmp.{decided};
    ghost use Rattle.ev_types.specs.SameRoutes.{target_same, target_decides};

    ghost laws = { decided target_same target_decides };
}

/// What a route does with a request.
#[derive(Drop)]
pub enum Action {
    /// It goes on to a cluster.
    Forward(Target),
    /// It is answered by a redirect.
    Redirect,
    /// It is answered at once with this status, 200 to 599.
    Local(u16),
    /// A filter does with it what no script tells.
    Elsewhere,
}

impl PartialEq for Action {
    ghost use Rattle.std.specs.Cmp.{decided, partial_equiv_from_equiv};
    ghost use Rattle.ev_types.specs.SameRoutes.{action_same, action_decides};

    ghost eq = { action_same };

    ghost laws = { partial_equiv_from_equiv (decided action_same action_decides) };

    fn eq(&self, other: &Action) -> bool {
        match (self, other) {
            (Action::Forward(target), Action::Forward(other)) => target == other,
            (Action::Redirect, Action::Redirect) => true,
            (Action::Local(status), Action::Local(other)) => status == other,
            (Action::Elsewhere, Action::Elsewhere) => true,
            _ => false,
        }
    }
}

impl Eq for Action {
    ghost use Rattle.std.specs.Cmp.{decided};
    ghost use Rattle.ev_types.specs.SameRoutes.{action_same, action_decides};

    ghost laws = { decided action_same action_decides };
}

/// Which paths a route takes.
#[derive(Drop)]
pub enum PathMatch {
    /// Those that begin with it.
    Prefix(Text),
    /// The one that is equal to it.
    Path(Text),
    /// The one that is equal to it, and those that go on with a `/` after it.
    Separated(Text),
}

impl PartialEq for PathMatch {
    ghost use Rattle.std.specs.Cmp.{decided, partial_equiv_from_equiv};
    ghost use Rattle.ev_types.specs.SamePaths.{path_match_same, path_match_decides};

    ghost eq = { path_match_same };

    ghost laws = { partial_equiv_from_equiv (decided path_match_same path_match_decides) };

    fn eq(&self, other: &PathMatch) -> bool {
        match (self, other) {
            (PathMatch::Prefix(text), PathMatch::Prefix(other)) => text == other,
            (PathMatch::Path(text), PathMatch::Path(other)) => text == other,
            (PathMatch::Separated(text), PathMatch::Separated(other)) => text == other,
            _ => false,
        }
    }
}

impl Eq for PathMatch {
    ghost use Rattle.std.specs.Cmp.{decided};
    ghost use Rattle.ev_types.specs.SamePaths.{path_match_same, path_match_decides};

    ghost laws = { decided path_match_same path_match_decides };
}

/// A route of a virtual host.
#[derive(Drop)]
pub struct Route {
    /// Which requests it takes.
    pub route_match: RouteMatch,
    pub action: Action,
}

impl PartialEq for Route {
    ghost use Rattle.std.specs.Cmp.{decided, partial_equiv_from_equiv};
    ghost use Rattle.ev_types.specs.SameRoutes.{route_same, route_decides};

    ghost eq = { route_same };

    ghost laws = { partial_equiv_from_equiv (decided route_same route_decides) };

    fn eq(&self, other: &Route) -> bool {
        self.route_match == other.route_match && self.action == other.action
    }
}

impl Eq for Route {
    ghost use Rattle.std.specs.Cmp.{decided};
    ghost use Rattle.ev_types.specs.SameRoutes.{route_same, route_decides};

    ghost laws = { decided route_same route_decides };
}

/// A virtual host: the domains that it serves and its routes, both in order.
#[derive(Drop)]
pub struct VirtualHost {
    pub name: Text,
    pub domains: Seq<Text>,
    pub routes: Seq<Route>,
}

impl PartialEq for VirtualHost {
    ghost use Rattle.std.specs.Cmp.{decided, partial_equiv_from_equiv};
    ghost use Rattle.ev_types.specs.SameRoutes.{virtual_host_same, virtual_host_decides};

    ghost eq = { virtual_host_same };

    ghost laws = { partial_equiv_from_equiv (decided virtual_host_same virtual_host_decides) };

    fn eq(&self, other: &VirtualHost) -> bool {
        self.name == other.name && self.domains == other.domains && self.routes == other.routes
    }
}

impl Eq for VirtualHost {
    ghost use Rattle.std.specs.Cmp.{decided};
    ghost use Rattle.ev_types.specs.SameRoutes.{virtual_host_same, virtual_host_decides};

    ghost laws = { decided virtual_host_same virtual_host_decides };
}

/// The virtual hosts of a route configuration, in order.
#[derive(Drop)]
pub struct RouteTable {
    pub hosts: Seq<VirtualHost>,
}

impl PartialEq for RouteTable {
    ghost use Rattle.std.specs.Cmp.{decided, partial_equiv_from_equiv};
    ghost use Rattle.ev_types.specs.SameRoutes.{route_table_same, route_table_decides};

    ghost eq = { route_table_same };

    ghost laws = { partial_equiv_from_equiv (decided route_table_same route_table_decides) };

    fn eq(&self, other: &RouteTable) -> bool {
        self.hosts == other.hosts
    }
}

impl Eq for RouteTable {
    ghost use Rattle.std.specs.Cmp.{decided};
    ghost use Rattle.ev_types.specs.SameRoutes.{route_table_same, route_table_decides};

    ghost laws = { decided route_table_same route_table_decides };
}
