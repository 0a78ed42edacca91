use ev_types::{
    Assignment, ChainPlace, FilterChainMatch, Gen, Host, Name, Origin, RouteTable, Seq, Shared,
    Target, TryCopy, Way,
};
use std::alloc::{AllocError, Global};

/// What is known of the secrets that a cluster's connections need.
#[derive(Clone, Copy, Debug)]
pub enum Secrets {
    /// Each of them has a value.
    There,
    /// One of them has none: no handshake succeeds.
    Missing,
    /// One of them may be needed and has none: a match chooses among transport sockets, which no script tells.
    Unknown,
}

impl PartialEq for Secrets {
    ghost use Rattle.std.specs.Cmp.{decided, partial_equiv_from_equiv};
    ghost use Rattle.ev_model.specs.Picture.{secrets_same, secrets_decide};

    ghost eq = { secrets_same };

    ghost laws = { partial_equiv_from_equiv (decided secrets_same secrets_decide) };

    fn eq(&self, other: &Secrets) -> bool {
        matches!(
            (*self, *other),
            (Secrets::There, Secrets::There)
                | (Secrets::Missing, Secrets::Missing)
                | (Secrets::Unknown, Secrets::Unknown)
        )
    }
}

impl Eq for Secrets {
    ghost use Rattle.std.specs.Cmp.{decided};
    ghost use Rattle.ev_model.specs.Picture.{secrets_same, secrets_decide};

    ghost laws = { decided secrets_same secrets_decide };
}

/// An active cluster as workers see it, with the hosts that may be chosen, in the order of its assignment.
#[derive(Drop)]
pub struct ServedCluster {
    pub number: Gen,
    pub name: Name,
    pub hosts: Assignment,
    /// Whether Envoy, or an extension of it, finds the host of each connection by itself.
    pub elsewhere: bool,
    /// What is known of its secrets.
    pub secrets: Secrets,
}

/// Where the connections of a filter chain go.
#[derive(Drop)]
pub enum Routing {
    /// By routes, which are shared with the resource that brought them.
    Table(Shared<RouteTable>),
    /// By a TCP proxy to this target.
    Tcp(Target),
    /// By other filters, or routes by scopes, where no script tells.
    Other,
}

impl TryCopy for Routing {
    fn copy(&self, alloc: Global) -> Result<Routing, AllocError> {
        match self {
            Routing::Table(table) => Ok(Routing::Table(table.copy(alloc)?)),
            Routing::Tcp(target) => Ok(Routing::Tcp(target.copy(alloc)?)),
            Routing::Other => Ok(Routing::Other),
        }
    }
}

impl PartialEq for Routing {
    ghost use Rattle.std.specs.Cmp.{decided, partial_equiv_from_equiv};
    ghost use Rattle.ev_model.specs.Picture.{routing_same, routing_decides};

    ghost eq = { routing_same };

    ghost laws = { partial_equiv_from_equiv (decided routing_same routing_decides) };

    fn eq(&self, other: &Routing) -> bool {
        match (self, other) {
            (Routing::Table(table), Routing::Table(other)) => table == other,
            (Routing::Tcp(target), Routing::Tcp(other)) => target == other,
            (Routing::Other, Routing::Other) => true,
            _ => false,
        }
    }
}

impl Eq for Routing {
    ghost use Rattle.std.specs.Cmp.{decided};
    ghost use Rattle.ev_model.specs.Picture.{routing_same, routing_decides};

    ghost laws = { decided routing_same routing_decides };
}

/// A filter chain of an active listener as workers see it: which connections it takes, and where they go.
#[derive(Drop)]
pub struct ServedChain {
    /// Its place in the listener; nothing where only the fields that are read count.
    pub place: Option<ChainPlace>,
    /// Where it began: the same for a chain that stays when its listener is changed in place.
    pub origin: Option<Origin>,
    /// Which connections it takes. It is shared with the resource that brought it.
    pub criteria: Shared<FilterChainMatch>,
    pub routing: Routing,
    /// Whether a secret of its transport socket has no value: then no handshake succeeds.
    pub lacks_secret: bool,
}

/// An active listener as workers see it.
#[derive(Drop)]
pub struct ServedListener {
    pub number: Gen,
    pub name: Name,
    pub address: Host,
    /// Whether its address represents every address of its port, where no listener has that address itself.
    pub takes_every_address: bool,
    /// Whether it listens by UDP: then no connection reaches it.
    pub udp: bool,
    /// Whether a redirected connection is taken as one to the address that it was meant for.
    pub restores: bool,
    /// Whether it hands such a connection over to the listener at that address.
    pub hands_over: bool,
    /// Its chains in order.
    pub filter_chains: Seq<ServedChain>,
    /// The chain that takes what no other chain does, if there is one.
    pub default_filter_chain: Option<ServedChain>,
}

/// What a picture shows, which is what workers may serve:
/// clusters and listeners, both sorted by name. It has no listeners before the phase is Serving.
#[derive(Drop)]
pub struct Shown {
    pub clusters: Seq<ServedCluster>,
    pub listeners: Seq<ServedListener>,
}

/// A published picture: its version, counted from 0, and what it shows. Picture 0 shows nothing.
#[derive(Drop)]
pub struct Picture {
    pub version: u64,
    pub shown: Shown,
}

/// What a route, or one of its conditions, says of a request.
#[derive(Clone, Copy, Debug, PartialEq, Eq)]
pub enum Taken {
    No,
    Yes,
    /// That depends on what no script says.
    Undecided,
}

/// Where a connection goes, as it is chosen in a picture.
#[derive(Clone, Copy, Debug, PartialEq, Eq)]
pub enum Choice {
    /// No listener has the address.
    NoListener,
    /// No filter chain of the listener takes it.
    NoChain,
    /// A listener takes it.
    On {
        listener: Gen,
        /// The place of the chain that takes it, if a chain is known to.
        chain: Option<ChainPlace>,
        /// Where that chain began.
        origin: Option<Origin>,
        /// What becomes of it; a host is named by its place in the cluster's list.
        way: Way<u32>,
    },
}
