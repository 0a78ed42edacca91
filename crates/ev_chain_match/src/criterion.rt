ghost use Rattle.std.specs.Prelude.{◌≡◌, ◌∷◌, ◌==◌, Bool, List, length};
ghost use Rattle.std.specs.Str.{bytes_eq, str_to_ascii_lowercase};
ghost use Rattle.ev_types.specs.FilterChains.{has_value};
ghost use Rattle.ev_types.specs.declared.filter_chains.FilterChainMatch.{FilterChainMatch};
ghost use Rattle.ev_model.specs.Narrowing.{transport_of};
ghost use Rattle.ev_chain_match.specs.RangeCriteria.{ranges_by};

use ev_routes::{SuffixText, is_lower};
use ev_types::{CidrRange, FilterChainMatch, SourceType, Text};
use std::marker::Model;

/// A value that a connection brings by one of the criteria of filter chains.
pub(crate) trait Criterion: Drop {
    ghost same: { Self → Self → Bool };

    ghost values: { FilterChainMatch → List Self };

    /// Whether a chain asks for it.
    fn is_asked_by(&self, criteria: &FilterChainMatch) -> bool
        ensures { result ≡ has_value same (values criteria.now) self.now };

    /// Whether a chain asks for nothing by the criterion.
    fn is_unasked(criteria: &FilterChainMatch) -> bool
        ensures { result ≡ (length (values criteria.now) == 0) };
}

/// The port that a connection goes to.
impl Criterion for u16 {
    ghost use Rattle.ev_types.specs.FilterChains.{nat_same, ports};

    ghost same = { nat_same };

    ghost values = { ports };

    fn is_asked_by(&self, criteria: &FilterChainMatch) -> bool {
        match criteria.destination_port {
            Some(port) => *self == port,
            None => false,
        }
    }

    fn is_unasked(criteria: &FilterChainMatch) -> bool {
        criteria.destination_port.is_none()
    }
}

/// The type of the source that a connection comes from.
impl Criterion for SourceType {
    ghost use Rattle.ev_types.specs.FilterChains.{source_type_same, source_types};

    ghost same = { source_type_same };

    ghost values = { source_types };

    fn is_asked_by(&self, criteria: &FilterChainMatch) -> bool {
        match criteria.source_type {
            Some(asked) => *self == asked,
            None => false,
        }
    }

    fn is_unasked(criteria: &FilterChainMatch) -> bool {
        criteria.source_type.is_none()
    }
}

/// The port that a connection comes from.
#[derive(Drop)]
pub(crate) struct SourcePort {
    port: u16,
}

impl Model for SourcePort {
    ghost use Rattle.std.specs.Prelude.{ℕ};

    ghost Value = { ℕ };

    ghost view = { λ p. p.port };
}

impl SourcePort {
    /// The criterion of this port.
    pub(crate) fn new(port: u16) -> SourcePort
        ensures { result ≡ port }
    {
        SourcePort { port }
    }
}

impl Criterion for SourcePort {
    ghost use Rattle.std.specs.Prelude.{◌≡◌, ◌==◌, length};
    ghost use Rattle.ev_types.specs.FilterChains.{nat_same, source_ports};

    ghost same = { nat_same };

    ghost values = { source_ports };

    fn is_asked_by(&self, criteria: &FilterChainMatch) -> bool {
        criteria.source_ports.iter().any(|port| self.port == *port)
    }

    fn is_unasked(criteria: &FilterChainMatch) -> bool
        ensures { result ≡ (length (source_ports criteria.now) == 0) }
    {
        criteria.source_ports.len() == 0
    }
}

/// A criterion by ranges of IP addresses.
#[derive(Clone, Copy, Debug)]
pub(crate) enum RangeCriterion {
    /// Where the address that a connection goes to lies.
    Destination,
    /// Where the address of the peer that connects directly lies.
    DirectSource,
    /// Where the address that it comes from lies.
    Source,
}

/// The ranges that a chain asks for by such a criterion.
pub(crate) fn ranges_by(by: RangeCriterion, criteria: &FilterChainMatch) -> &[CidrRange]
    ensures { result.now ≡ ranges_by by criteria.now }
{
    match by {
        RangeCriterion::Destination => criteria.prefix_ranges.as_slice(),
        RangeCriterion::DirectSource => criteria.direct_source_prefix_ranges.as_slice(),
        RangeCriterion::Source => criteria.source_prefix_ranges.as_slice(),
    }
}

/// A name that the server of a connection goes by: its own, or a star and how its own ends.
/// It is seen with its ASCII letters as lower case, and takes no memory.
#[derive(Drop)]
pub(crate) struct ServerName<'a> {
    starred: bool,
    text: &'a [u8],
}

impl<'a> Model for ServerName<'a> {
    ghost use Rattle.std.specs.Prelude.{List, ℕ, ◌∷◌, cond};
    ghost use Rattle.std.specs.Str.{str_to_ascii_lowercase};

    ghost Value = { List ℕ };

    ghost view = { λ n. cond n.starred (42 ∷ str_to_ascii_lowercase n.text.now) (str_to_ascii_lowercase n.text.now) };
}

impl<'a> ServerName<'a> {
    /// The name itself.
    pub(crate) fn whole(text: &'a [u8]) -> ServerName<'a>
        ensures { result ≡ str_to_ascii_lowercase text.now }
    {
        ServerName {
            starred: false,
            text,
        }
    }

    /// A star, and how the name ends.
    pub(crate) fn ending(text: &'a [u8]) -> ServerName<'a>
        ensures { result ≡ 42 ∷ str_to_ascii_lowercase text.now }
    {
        ServerName {
            starred: true,
            text,
        }
    }

    // Whether it is this name.
    fn is(&self, name: &[u8]) -> bool
        ensures { result ≡ bytes_eq self.now name.now }
    {
        if self.starred {
            SuffixText::new(self.text).is(name)
        } else {
            is_lower(self.text, name)
        }
    }
}

impl<'a> Criterion for ServerName<'a> {
    ghost use Rattle.std.specs.Prelude.{◌≡◌, ◌==◌, length};
    ghost use Rattle.std.specs.Str.{bytes_eq};
    ghost use Rattle.ev_types.specs.FilterChains.{server_names};

    ghost same = { bytes_eq };

    ghost values = { server_names };

    fn is_asked_by(&self, criteria: &FilterChainMatch) -> bool {
        criteria
            .server_names
            .iter()
            .any(|name| self.is(name.as_str().as_bytes()))
    }

    fn is_unasked(criteria: &FilterChainMatch) -> bool
        ensures { result ≡ (length (server_names criteria.now) == 0) }
    {
        criteria.server_names.len() == 0
    }
}

/// The transport protocol of a connection, seen by its name.
#[derive(Drop)]
pub(crate) struct Transport {
    tls: bool,
}

impl Model for Transport {
    ghost use Rattle.std.specs.Prelude.{List, ℕ};
    ghost use Rattle.ev_model.specs.Narrowing.{transport_of};
    ghost use Rattle.ev_chain_match.specs.RangeCriteria.{ranges_by};

    ghost Value = { List ℕ };

    ghost view = { λ t. transport_of t.tls };
}

impl Transport {
    /// That of a connection over TLS, or of another.
    pub(crate) fn of(tls: bool) -> Transport
        ensures { result ≡ transport_of tls }
    {
        Transport { tls }
    }

    // Whether it has this name.
    fn is(&self, name: &str) -> bool
        ensures { result ≡ bytes_eq self.now name.now }
    {
        if self.tls {
            "tls" == name
        } else {
            "raw_buffer" == name
        }
    }
}

impl Criterion for Transport {
    ghost use Rattle.std.specs.Str.{bytes_eq};
    ghost use Rattle.ev_types.specs.FilterChains.{transports};

    ghost same = { bytes_eq };

    ghost values = { transports };

    fn is_asked_by(&self, criteria: &FilterChainMatch) -> bool {
        match &criteria.transport_protocol {
            Some(name) => self.is(name.as_str()),
            None => false,
        }
    }

    fn is_unasked(criteria: &FilterChainMatch) -> bool {
        criteria.transport_protocol.is_none()
    }
}

/// An application protocol that a connection offers.
#[derive(Drop)]
pub(crate) struct Protocol<'a> {
    name: &'a Text,
}

impl<'a> Model for Protocol<'a> {
    ghost use Rattle.std.specs.Prelude.{List, ℕ};

    ghost Value = { List ℕ };

    ghost view = { λ p. p.name.now };
}

impl<'a> Protocol<'a> {
    /// The protocol of this name.
    pub(crate) fn new(name: &'a Text) -> Protocol<'a>
        ensures { result ≡ name.now }
    {
        Protocol { name }
    }

    // Whether it has this name.
    fn is(&self, name: &Text) -> bool
        ensures { result ≡ bytes_eq self.now name.now }
    {
        *self.name == *name
    }
}

impl<'a> Criterion for Protocol<'a> {
    ghost use Rattle.std.specs.Prelude.{◌≡◌, ◌==◌, length};
    ghost use Rattle.std.specs.Str.{bytes_eq};
    ghost use Rattle.ev_types.specs.FilterChains.{application_protocols};

    ghost same = { bytes_eq };

    ghost values = { application_protocols };

    fn is_asked_by(&self, criteria: &FilterChainMatch) -> bool {
        criteria
            .application_protocols
            .iter()
            .any(|name| self.is(name))
    }

    fn is_unasked(criteria: &FilterChainMatch) -> bool
        ensures { result ≡ (length (application_protocols criteria.now) == 0) }
    {
        criteria.application_protocols.len() == 0
    }
}
