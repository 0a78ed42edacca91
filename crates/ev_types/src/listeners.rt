use crate::{
    FilterChainMatch, Name, Reference, RouteTable, Seq, Shared, SocketAddress, Target, Text,
};

/// What a filter chain serves.
#[derive(Drop)]
pub enum Serve {
    /// Routes that come by the route discovery service.
    Rds {
        /// The name that is asked for.
        name: Name,
        /// Whether the wait for them ends at the initial fetch timeout.
        limited: bool,
    },
    /// Routes given in the listener itself. They are shared.
    Inline(Shared<RouteTable>),
    /// A TCP proxy to this target.
    Tcp(Target),
    /// Something else: other filters, or routes by scopes.
    Other,
}

impl PartialEq for Serve {
    ghost use Rattle.std.specs.Cmp.{decided, partial_equiv_from_equiv};
    ghost use Rattle.ev_types.specs.SameListeners.{serve_same, serve_decides};

    ghost eq = { serve_same };

    ghost laws = { partial_equiv_from_equiv (decided serve_same serve_decides) };

    fn eq(&self, other: &Serve) -> bool {
        match (self, other) {
            (
                Serve::Rds { name, limited },
                Serve::Rds {
                    name: other_name,
                    limited: other_limited,
                },
            ) => name == other_name && limited == other_limited,
            (Serve::Inline(table), Serve::Inline(other)) => table == other,
            (Serve::Tcp(target), Serve::Tcp(other)) => target == other,
            (Serve::Other, Serve::Other) => true,
            _ => false,
        }
    }
}

impl Eq for Serve {
    ghost use Rattle.std.specs.Cmp.{decided};
    ghost use Rattle.ev_types.specs.SameListeners.{serve_same, serve_decides};

    ghost laws = { decided serve_same serve_decides };
}

/// A filter chain of a listener: which connections it takes, and what it serves them. Source: Envoy's `FilterChain`.
#[derive(Drop)]
pub struct FilterChain {
    /// Which connections it takes. It is shared with the pictures that show it.
    pub criteria: Shared<FilterChainMatch>,
    pub serve: Serve,
    /// The secrets that its transport socket refers to, in order.
    pub secrets: Seq<Reference>,
    /// The extensions that its filters refer to, in order.
    pub extensions: Seq<Reference>,
    /// The text of its own element of the listener, by which a change of any field of it is seen.
    /// It is empty where only the fields that are read count.
    pub body_text: Text,
}

impl PartialEq for FilterChain {
    ghost use Rattle.std.specs.Cmp.{decided, partial_equiv_from_equiv};
    ghost use Rattle.ev_types.specs.SameListeners.{filter_chain_same, filter_chain_decides};

    ghost eq = { filter_chain_same };

    ghost laws = { partial_equiv_from_equiv (decided filter_chain_same filter_chain_decides) };

    fn eq(&self, other: &FilterChain) -> bool {
        self.criteria == other.criteria
            && self.serve == other.serve
            && self.secrets == other.secrets
            && self.extensions == other.extensions
            && self.body_text == other.body_text
    }
}

impl Eq for FilterChain {
    ghost use Rattle.std.specs.Cmp.{decided};
    ghost use Rattle.ev_types.specs.SameListeners.{filter_chain_same, filter_chain_decides};

    ghost laws = { decided filter_chain_same filter_chain_decides };
}

/// The fields of a listener that are read. Source: Envoy's `Listener`.
#[derive(Drop)]
pub struct Listener {
    pub name: Name,
    pub address: SocketAddress,
    /// Whether its address represents every address of its port, where no listener has that address itself.
    pub takes_every_address: bool,
    /// Whether a redirected connection is taken as one to the address that it was meant for. Source: Envoy's original
    /// destination listener filter.
    pub restores: bool,
    /// Whether it hands such a connection over to the listener at that address. Source: Envoy's `use_original_dst`.
    pub hands_over: bool,
    /// Its chains in order.
    pub filter_chains: Seq<FilterChain>,
    /// The chain of connections that no other chain takes, if there is one. Its criteria ask for nothing.
    pub default_filter_chain: Option<FilterChain>,
    /// The extensions that its listener filters refer to, in order.
    pub extensions: Seq<Reference>,
    /// The text of its body without its chains, by which it is seen whether the chains alone changed.
    /// It is empty where only the fields that are read count.
    pub frame_text: Text,
    /// The text of its body, by which a change of any field is seen. It is empty where only the fields that are read
    /// count.
    pub body_text: Text,
}

impl PartialEq for Listener {
    ghost use Rattle.std.specs.Cmp.{decided, partial_equiv_from_equiv};
    ghost use Rattle.ev_types.specs.SameListeners.{listener_same, listener_decides};

    ghost eq = { listener_same };

    ghost laws = { partial_equiv_from_equiv (decided listener_same listener_decides) };

    fn eq(&self, other: &Listener) -> bool {
        self.listens_as(other) && self.serves_as(other) && self.is_written_as(other)
    }
}

impl Eq for Listener {
    ghost use Rattle.std.specs.Cmp.{decided};
    ghost use Rattle.ev_types.specs.SameListeners.{listener_same, listener_decides};

    ghost laws = { decided listener_same listener_decides };
}

impl Listener {
    ghost use Rattle.std.specs.Prelude.{◌≡◌};
    ghost use Rattle.ev_types.specs.SameListeners.{listens_same, serves_same, written_same};

    // Whether both have the same address and the same marks.
    fn listens_as(&self, other: &Listener) -> bool
        ensures { result ≡ listens_same self.now other.now }
    {
        self.address == other.address
            && self.takes_every_address == other.takes_every_address
            && self.restores == other.restores
            && self.hands_over == other.hands_over
    }

    // Whether both have the same chains and refer to the same extensions.
    fn serves_as(&self, other: &Listener) -> bool
        ensures { result ≡ serves_same self.now other.now }
    {
        self.filter_chains == other.filter_chains
            && self.default_filter_chain == other.default_filter_chain
            && self.extensions == other.extensions
    }

    // Whether both have the same name and texts.
    fn is_written_as(&self, other: &Listener) -> bool
        ensures { result ≡ written_same self.now other.now }
    {
        self.name == other.name
            && self.frame_text == other.frame_text
            && self.body_text == other.body_text
    }
}
