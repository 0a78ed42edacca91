use crate::{Assignment, Name, Reference, Seq, Shared, Text, TryCopy};
use std::alloc::{AllocError, Global};

/// How a cluster finds its hosts.
#[derive(Drop)]
pub enum Discovery {
    /// They are given in the cluster itself.
    Static(Shared<Assignment>),
    /// They come by the endpoint discovery service.
    Eds {
        /// The name that is asked for.
        service: Name,
        /// Whether the wait for them ends at the initial fetch timeout.
        limited: bool,
        /// Whether a generation waits until they are sent anew, though they may be known. Source: cluster manager
        /// warming.
        fresh: bool,
    },
    /// Envoy, or an extension of it, finds the host of each connection by itself.
    Elsewhere,
}

impl TryCopy for Discovery {
    fn copy(&self, alloc: Global) -> Result<Discovery, AllocError> {
        match self {
            Discovery::Static(assignment) => Ok(Discovery::Static(assignment.copy(alloc)?)),
            Discovery::Eds {
                service,
                limited,
                fresh,
            } => Ok(Discovery::Eds {
                service: service.copy(alloc)?,
                limited: *limited,
                fresh: *fresh,
            }),
            Discovery::Elsewhere => Ok(Discovery::Elsewhere),
        }
    }
}

impl PartialEq for Discovery {
    ghost use Rattle.std.specs.Cmp.{decided, partial_equiv_from_equiv};
    ghost use Rattle.ev_types.specs.SameClusters.{discovery_same, discovery_decides};

    ghost eq = { discovery_same };

    ghost laws = { partial_equiv_from_equiv (decided discovery_same discovery_decides) };

    fn eq(&self, other: &Discovery) -> bool {
        match (self, other) {
            (Discovery::Static(mine), Discovery::Static(theirs)) => mine == theirs,
            (
                Discovery::Eds {
                    service,
                    limited,
                    fresh,
                },
                Discovery::Eds {
                    service: other_service,
                    limited: other_limited,
                    fresh: other_fresh,
                },
            ) => service == other_service && limited == other_limited && fresh == other_fresh,
            (Discovery::Elsewhere, Discovery::Elsewhere) => true,
            _ => false,
        }
    }
}

impl Eq for Discovery {
    ghost use Rattle.std.specs.Cmp.{decided};
    ghost use Rattle.ev_types.specs.SameClusters.{discovery_same, discovery_decides};

    ghost laws = { decided discovery_same discovery_decides };
}

/// The fields of a cluster that are read.
#[derive(Drop)]
pub struct Cluster {
    pub name: Name,
    pub discovery: Discovery,
    /// Whether its hosts are health checked.
    pub checked: bool,
    /// The secrets that its transport socket refers to, in order.
    pub secrets: Seq<Reference>,
    /// The secrets that the transport sockets refer to which it chooses by a host's metadata,
    /// in order. `None` where it has no such socket. Source: Envoy's `transport_socket_matches`.
    pub secrets_by_match: Option<Seq<Reference>>,
    /// The text of its body, by which a change of any field is seen. It is empty where only the fields that are read
    /// count.
    pub body_text: Text,
}

impl PartialEq for Cluster {
    ghost use Rattle.std.specs.Cmp.{decided, partial_equiv_from_equiv};
    ghost use Rattle.ev_types.specs.SameClusters.{cluster_same, cluster_decides};

    ghost eq = { cluster_same };

    ghost laws = { partial_equiv_from_equiv (decided cluster_same cluster_decides) };

    fn eq(&self, other: &Cluster) -> bool {
        self.name == other.name
            && self.discovery == other.discovery
            && self.checked == other.checked
            && self.secrets == other.secrets
            && self.secrets_by_match == other.secrets_by_match
            && self.body_text == other.body_text
    }
}

impl Eq for Cluster {
    ghost use Rattle.std.specs.Cmp.{decided};
    ghost use Rattle.ev_types.specs.SameClusters.{cluster_same, cluster_decides};

    ghost laws = { decided cluster_same cluster_decides };
}
