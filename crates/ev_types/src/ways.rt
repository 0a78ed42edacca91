use crate::{Gen, TryCopy};
use std::alloc::{AllocError, Global};

/// What becomes of a connection that a listener takes. `H` says how a host is named:
/// by its address, or by its place in the cluster's list.
#[derive(Clone, Copy, Debug, Drop, PartialEq, Eq)]
pub enum Way<H> {
    /// That depends on what no script tells.
    Undecided,
    /// It goes where no script tells: to a host of the cluster where there is one, else by a filter or an extension.
    Elsewhere { cluster: Option<Gen> },
    /// No route takes it.
    NoRoute,
    /// It is answered by a redirect.
    Redirect,
    /// There is no cluster of the name that it is to go to.
    NoCluster,
    /// The cluster has no host that may be chosen.
    NoEndpoint,
    /// A secret isn't there: of the cluster where there is one, else of the filter chain. The handshake fails.
    NoSecret { cluster: Option<Gen> },
    /// It is answered at once with this status.
    Local { status: u16 },
    /// It goes to this host of the cluster.
    Served { cluster: Gen, host: H },
}

impl<H: TryCopy> TryCopy for Way<H> {
    fn copy(&self, alloc: Global) -> Result<Way<H>, AllocError> {
        Ok(match self {
            Way::Undecided => Way::Undecided,
            Way::Elsewhere { cluster } => Way::Elsewhere { cluster: *cluster },
            Way::NoRoute => Way::NoRoute,
            Way::Redirect => Way::Redirect,
            Way::NoCluster => Way::NoCluster,
            Way::NoEndpoint => Way::NoEndpoint,
            Way::NoSecret { cluster } => Way::NoSecret { cluster: *cluster },
            Way::Local { status } => Way::Local { status: *status },
            Way::Served { cluster, host } => Way::Served {
                cluster: *cluster,
                host: host.copy(alloc)?,
            },
        })
    }
}
