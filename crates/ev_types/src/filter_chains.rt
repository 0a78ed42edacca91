use crate::{CidrRange, Seq, Text};

/// Where a connection comes from. Source: Envoy's `FilterChainMatch.ConnectionSourceType`.
#[derive(Clone, Copy, Debug)]
pub enum SourceType {
    /// From this machine: from a loopback address, or from the address that it goes to.
    SameIpOrLoopback,
    /// From elsewhere.
    External,
}

impl PartialEq for SourceType {
    ghost use Rattle.std.specs.Cmp.{decided, partial_equiv_from_equiv};
    ghost use Rattle.ev_types.specs.FilterChains.{source_type_same, source_type_decides};

    ghost eq = { source_type_same };

    ghost laws = { partial_equiv_from_equiv (decided source_type_same source_type_decides) };

    fn eq(&self, other: &SourceType) -> bool {
        match (self, other) {
            (SourceType::SameIpOrLoopback, SourceType::SameIpOrLoopback) => true,
            (SourceType::External, SourceType::External) => true,
            _ => false,
        }
    }
}

impl Eq for SourceType {
    ghost use Rattle.std.specs.Cmp.{decided};
    ghost use Rattle.ev_types.specs.FilterChains.{source_type_same, source_type_decides};

    ghost laws = { decided source_type_same source_type_decides };
}

/// Which connections a filter chain takes: of each criterion what it asks for, or nothing. Source:
/// Envoy's `FilterChainMatch`.
#[derive(Drop)]
pub struct FilterChainMatch {
    /// The port that the connection goes to.
    pub destination_port: Option<u16>,
    /// Where the address that it goes to lies.
    pub prefix_ranges: Seq<CidrRange>,
    /// The server that it names, with ASCII letters in lower case: a name, or `*.` and how it ends.
    pub server_names: Seq<Text>,
    /// `tls`, `raw_buffer` or another transport.
    pub transport_protocol: Option<Text>,
    /// The application protocols that it offers.
    pub application_protocols: Seq<Text>,
    /// Where the address of the peer that connects directly lies.
    pub direct_source_prefix_ranges: Seq<CidrRange>,
    /// Whether the connection comes from this machine or from elsewhere; nothing is any source.
    pub source_type: Option<SourceType>,
    /// Where the address that it comes from lies.
    pub source_prefix_ranges: Seq<CidrRange>,
    /// The ports that it comes from.
    pub source_ports: Seq<u16>,
}

impl PartialEq for FilterChainMatch {
    ghost use Rattle.std.specs.Cmp.{decided, partial_equiv_from_equiv};
    ghost use Rattle.ev_types.specs.FilterChains.{filter_chain_match_same, filter_chain_match_decides};

    ghost eq = { filter_chain_match_same };

    ghost laws = { partial_equiv_from_equiv (decided filter_chain_match_same filter_chain_match_decides) };

    fn eq(&self, other: &FilterChainMatch) -> bool {
        self.destination_port == other.destination_port
            && self.prefix_ranges == other.prefix_ranges
            && self.server_names == other.server_names
            && self.transport_protocol == other.transport_protocol
            && self.application_protocols == other.application_protocols
            && self.direct_source_prefix_ranges == other.direct_source_prefix_ranges
            && self.source_type == other.source_type
            && self.source_prefix_ranges == other.source_prefix_ranges
            && self.source_ports == other.source_ports
    }
}

impl Eq for FilterChainMatch {
    ghost use Rattle.std.specs.Cmp.{decided};
    ghost use Rattle.ev_types.specs.FilterChains.{filter_chain_match_same, filter_chain_match_decides};

    ghost laws = { decided filter_chain_match_same filter_chain_match_decides };
}
