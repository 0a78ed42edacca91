ghost use Rattle.std.specs.Prelude.{◌≡◌, ◌+◌, ◌≤◌, ◌∷◌, ◌&&◌, [], Some, drop, find, is_some, not, slice_get};
ghost use Rattle.std.specs.List.{list_any};
ghost use Rattle.std.specs.Option.{option_copied};
ghost use Rattle.std.specs.Str.{str_to_ascii_lowercase};
ghost use Rattle.ev_types.specs.FilterChains.{asks_source, has_value};
ghost use Rattle.ev_types.specs.Ips.{cidr_range_same, range_about, ranges_about, width};
ghost use Rattle.ev_model.specs.Choice.{chain_left, incoming_of};
ghost use Rattle.ev_model.specs.Narrowing.{by_source, chains_left, is_asked, is_loopback, names_brought, source_type_of, wildcards};
ghost use Rattle.ev_model.specs.declared.pictures.ServedChain.{ServedChain};
ghost use Rattle.ev_chain_match.specs.RangeCriteria.{ranges_by};
ghost use Rattle.ev_chain_match.specs.Unnarrowed.{ignores_source};
ghost use Rattle.ev_chain_match.specs.Wanted.{asks_range, first_asked, first_name, first_protocol, first_range, is_left, is_met, left_by, meets_destination, wanted_of, wildcard_of};

use crate::criterion::{
    Criterion, Protocol, RangeCriterion, ServerName, SourcePort, Transport, ranges_by,
};
use ev_listeners::{LocalEnd, RoutedChain, RoutedListener};
use ev_types::{Ask, CidrRange, FilterChainMatch, Ip, Peer, SourceType, Text};

/// What the chains that are left have to ask for by a criterion.
#[derive(Drop)]
pub(crate) enum Wanted<T> {
    /// Anything: they weren't narrowed by it.
    Anything,
    Nothing,
    Value(T),
}

/// The criteria by which the filter chains of a listener are narrowed for a connection. They take no memory.
#[derive(Drop)]
pub struct Criteria<'a> {
    port: Wanted<u16>,
    range: Wanted<CidrRange>,
    server_name: Wanted<ServerName<'a>>,
    transport: Wanted<Transport>,
    protocol: Wanted<Protocol<'a>>,
    direct_range: Wanted<CidrRange>,
    source_type: Wanted<SourceType>,
    source_range: Wanted<CidrRange>,
    source_port: Wanted<SourcePort>,
}

impl<'a> Criteria<'a> {
    /// The criteria by which these chains are narrowed for a connection that is taken to come to this end.
    pub fn of(chains: &[RoutedChain], ask: &'a Ask, local_end: &LocalEnd<'_>) -> Criteria<'a>
        ensures { left_by result chains.now ≡ chains_left (incoming_of ask.now local_end.now) chains.now }
    {
        let mut criteria = Criteria {
            port: Wanted::Anything,
            range: Wanted::Anything,
            server_name: Wanted::Anything,
            transport: Wanted::Anything,
            protocol: Wanted::Anything,
            direct_range: Wanted::Anything,
            source_type: Wanted::Anything,
            source_range: Wanted::Anything,
            source_port: Wanted::Anything,
        };
        criteria.port = criteria.wanted(chains, local_end.port());
        criteria.range = criteria.range_wanted(RangeCriterion::Destination, chains, local_end.ip());
        criteria.server_name = criteria.name_wanted(chains, ask.server_name.as_str().as_bytes());
        criteria.transport = criteria.wanted(chains, Transport::of(ask.tls));
        criteria.protocol = criteria.protocol_wanted(chains, ask.alpn.as_slice());
        match &ask.source {
            Some(source) => criteria.and_source(chains, local_end.ip(), source),
            None => criteria,
        }
    }

    // These criteria, which don't look at the source yet, and those of the source.
    fn and_source(self, chains: &[RoutedChain], local_ip: Option<Ip>, source: &Peer) -> Criteria<'a>
        requires { ignores_source self }
        ensures { left_by result chains.now ≡ by_source local_ip (Some source.now) (left_by self.entry chains.now) }
    {
        let mut criteria = self;
        criteria.direct_range = criteria.range_wanted(
            RangeCriterion::DirectSource,
            chains,
            source.ip,
        );
        criteria.source_type = criteria.wanted(chains, source_type_of(local_ip, source.ip));
        criteria.source_range = criteria.range_wanted(RangeCriterion::Source, chains, source.ip);
        criteria.source_port = criteria.wanted(chains, SourcePort::new(source.host.port));
        criteria
    }

    /// Whether one of the chains that are left asks for a source, and the connection gives none.
    pub fn lack_source(&self, chains: &[RoutedChain], ask: &Ask) -> bool
        ensures { result ≡ (not (is_some ask.now.source)
            && list_any (λ (c : ServedChain). asks_source c.criteria) (left_by self.now chains.now)) }
    {
        ask.source.is_none() && self.leave_source(chains)
    }

    // Whether one of the chains that are left asks for a source.
    fn leave_source(&self, chains: &[RoutedChain]) -> bool
        ensures { result ≡ list_any (λ (c : ServedChain). asks_source c.criteria) (left_by self.now chains.now) }
    {
        self.any_leaves_source(chains)
    }

    // Whether one of these chains is left and asks for a source.
    fn any_leaves_source(&self, chains: &[RoutedChain]) -> bool
        ensures { result ≡ list_any (λ (c : ServedChain). is_left self.now c.criteria
            && asks_source c.criteria) chains.now }
    {
        chains.iter().any(|chain| self.leaves_source(chain))
    }

    // Whether a chain is left and asks for a source.
    fn leaves_source(&self, chain: &RoutedChain) -> bool
        ensures { result ≡ (is_left self.now chain.now.criteria && asks_source chain.now.criteria) }
    {
        self.leaves(chain) && asks_source(chain.criteria())
    }

    /// The first of a listener's chains that is left, or else its default chain.
    pub fn chain_left<'c>(&self, listener: &'c RoutedListener) -> Option<&'c RoutedChain>
        ensures { option_copied result
            ≡ chain_left (left_by self.now listener.now.filter_chains) listener.now.default_filter_chain }
    {
        match self.first_left(listener.filter_chains()) {
            Some(chain) => Some(chain),
            None => listener.default_filter_chain(),
        }
    }

    // The first of the chains that are left.
    fn first_left<'c>(&self, chains: &'c [RoutedChain]) -> Option<&'c RoutedChain>
        ensures { option_copied result ≡ slice_get (left_by self.now chains.now) 0 }
    {
        self.find_left(chains)
    }

    // The first of these chains that is left.
    fn find_left<'c>(&self, chains: &'c [RoutedChain]) -> Option<&'c RoutedChain>
        ensures { option_copied result ≡ find (λ (c : ServedChain). is_left self.now c.criteria) chains.now }
    {
        chains.iter().find(|chain| self.leaves(chain))
    }

    // Whether a chain is left.
    fn leaves(&self, chain: &RoutedChain) -> bool
        ensures { result ≡ is_left self.now chain.now.criteria }
    {
        let criteria = chain.criteria();
        is_met(&self.source_port, criteria)
            && is_range_met(RangeCriterion::Source, &self.source_range, criteria)
            && is_met(&self.source_type, criteria)
            && is_range_met(RangeCriterion::DirectSource, &self.direct_range, criteria)
            && self.meets_destination(criteria)
    }

    // Whether a chain's match meets each criterion of where a connection goes and what it offers.
    fn meets_destination(&self, criteria: &FilterChainMatch) -> bool
        ensures { result ≡ meets_destination self.now criteria.now }
    {
        is_met(&self.protocol, criteria)
            && is_met(&self.transport, criteria)
            && is_met(&self.server_name, criteria)
            && is_range_met(RangeCriterion::Destination, &self.range, criteria)
            && is_met(&self.port, criteria)
    }

    // Whether one of the chains that are left asks for a value.
    fn is_asked<V: Criterion>(&self, chains: &[RoutedChain], value: &V) -> bool
        ensures { result ≡ is_asked V.same V.values (left_by self.now chains.now) value.now }
    {
        self.any_asks(chains, value)
    }

    // Whether one of these chains is left and asks for a value.
    fn any_asks<V: Criterion>(&self, chains: &[RoutedChain], value: &V) -> bool
        ensures { result ≡ list_any
            (λ (c : ServedChain). is_left self.now c.criteria
            && has_value V.same (V.values c.criteria) value.now) chains.now }
    {
        chains.iter().any(|chain| self.asks(chain, value))
    }

    // Whether a chain is left and asks for a value.
    fn asks<V: Criterion>(&self, chain: &RoutedChain, value: &V) -> bool
        ensures { result ≡ (is_left self.now chain.now.criteria
            && has_value V.same (V.values chain.now.criteria) value.now) }
    {
        self.leaves(chain) && value.is_asked_by(chain.criteria())
    }

    // The value, where a chain asks for it.
    fn wanted<V: Criterion>(&self, chains: &[RoutedChain], value: V) -> Wanted<V>
        ensures { result ≡ wanted_of (first_asked V.same V.values (left_by self.now chains.now) (value ∷ [])) }
    {
        if self.is_asked(chains, &value) {
            Wanted::Value(value)
        } else {
            Wanted::Nothing
        }
    }

    // Whether one of the chains that are left asks for a range by a criterion.
    fn is_range_asked(&self, by: RangeCriterion, chains: &[RoutedChain], range: &CidrRange) -> bool
        ensures { result ≡ is_asked cidr_range_same (ranges_by by) (left_by self.now chains.now) range.now }
    {
        self.any_asks_for(by, chains, range)
    }

    // Whether one of these chains is left and asks for a range.
    fn any_asks_for(&self, by: RangeCriterion, chains: &[RoutedChain], range: &CidrRange) -> bool
        ensures { result ≡ list_any
            (λ (c : ServedChain). is_left self.now c.criteria
            && has_value cidr_range_same (ranges_by by c.criteria) range.now) chains.now }
    {
        chains.iter().any(|chain| self.asks_for(by, chain, range))
    }

    // Whether a chain is left and asks for a range.
    fn asks_for(&self, by: RangeCriterion, chain: &RoutedChain, range: &CidrRange) -> bool
        ensures { result ≡ (is_left self.now chain.now.criteria
            && has_value cidr_range_same (ranges_by by chain.now.criteria) range.now) }
    {
        self.leaves(chain) && has_range(ranges_by(by, chain.criteria()), range)
    }

    // The longest range with the address that a chain asks for by a criterion.
    fn range_wanted(
        &self,
        by: RangeCriterion,
        chains: &[RoutedChain],
        ip: Option<Ip>,
    ) -> Wanted<CidrRange>
        ensures { result ≡ wanted_of (first_range by self.now chains.now (ranges_about ip)) }
    {
        match ip {
            Some(ip) if self.ask_range(by, chains) => {
                self.range_about(by, chains, ip, count_about(ip))
            }
            _ => Wanted::Nothing,
        }
    }

    // Whether one of the chains that are left asks for a range by a criterion.
    fn ask_range(&self, by: RangeCriterion, chains: &[RoutedChain]) -> bool
        ensures { result ≡ list_any (λ (c : ServedChain). asks_range by c.criteria) (left_by self.now chains.now) }
    {
        self.any_asks_range(by, chains)
    }

    // Whether one of these chains is left and asks for a range by a criterion.
    fn any_asks_range(&self, by: RangeCriterion, chains: &[RoutedChain]) -> bool
        ensures { result ≡ list_any (λ (c : ServedChain). is_left self.now c.criteria
            && asks_range by c.criteria) chains.now }
    {
        chains.iter().any(|chain| self.asks_range(by, chain))
    }

    // Whether a chain is left and asks for a range by a criterion.
    fn asks_range(&self, by: RangeCriterion, chain: &RoutedChain) -> bool
        ensures { result ≡ (is_left self.now chain.now.criteria && asks_range by chain.now.criteria) }
    {
        self.leaves(chain) && ranges_by(by, chain.criteria()).len() > 0
    }

    // The longest range with the address that a chain asks for; of those, there is one of each length below the count.
    fn range_about(
        &self,
        by: RangeCriterion,
        chains: &[RoutedChain],
        ip: Ip,
        count: u32,
    ) -> Wanted<CidrRange>
        requires { count ≡ width ip + 1 }
        ensures { result ≡ wanted_of (first_range by self.now chains.now (ranges_about (Some ip))) }
    {
        for length in (0..count).rev() {
            if let Some(range) = self.range_of(by, chains, ip, length) {
                return Wanted::Value(range);
            }
        }
        Wanted::Nothing
    }

    // The range of this length with the address, where a chain asks for it.
    fn range_of(
        &self,
        by: RangeCriterion,
        chains: &[RoutedChain],
        ip: Ip,
        length: u32,
    ) -> Option<CidrRange>
        requires { length ≤ width ip }
        ensures { result ≡ first_range by self.now chains.now (range_about ip length ∷ []) }
    {
        let Some(range) = CidrRange::about(ip, length) else {
            return None;
        };
        if self.is_range_asked(by, chains, &range) {
            Some(range)
        } else {
            None
        }
    }

    // The name, or else a star and the longest of its endings from a dot on, that a chain asks for.
    fn name_wanted(&self, chains: &[RoutedChain], name: &'a [u8]) -> Wanted<ServerName<'a>>
        ensures { result ≡ wanted_of (first_name self.now chains.now
            (names_brought (str_to_ascii_lowercase name.now))) }
    {
        if name.is_empty() {
            return Wanted::Nothing;
        }
        let whole = ServerName::whole(name);
        if self.is_asked(chains, &whole) {
            return Wanted::Value(whole);
        }
        self.ending_wanted(chains, name)
    }

    // A star and the longest of a name's endings from a later dot on that a chain asks for.
    fn ending_wanted(&self, chains: &[RoutedChain], name: &'a [u8]) -> Wanted<ServerName<'a>>
        ensures { result ≡ wanted_of (first_name self.now chains.now
            (wildcards (drop 1 (str_to_ascii_lowercase name.now)))) }
    {
        for place in 1..name.len() {
            let (_, rest) = name.split_at(place);
            if let Some(ending) = self.ending_of(chains, rest) {
                return Wanted::Value(ending);
            }
        }
        Wanted::Nothing
    }

    // A star and what is left of a name, where it begins with a dot and a chain asks for it.
    fn ending_of(&self, chains: &[RoutedChain], rest: &'a [u8]) -> Option<ServerName<'a>>
        ensures { result ≡ first_name self.now chains.now (wildcard_of (str_to_ascii_lowercase rest.now)) }
    {
        if rest.is_empty() || rest[0] != b'.' {
            return None;
        }
        let ending = ServerName::ending(rest);
        if self.is_asked(chains, &ending) {
            Some(ending)
        } else {
            None
        }
    }

    // The first of the protocols that a chain asks for.
    fn protocol_wanted(&self, chains: &[RoutedChain], alpn: &'a [Text]) -> Wanted<Protocol<'a>>
        ensures { result ≡ wanted_of (first_protocol self.now chains.now alpn.now) }
    {
        for name in alpn {
            let protocol = Protocol::new(name);
            if self.is_asked(chains, &protocol) {
                return Wanted::Value(protocol);
            }
        }
        Wanted::Nothing
    }
}

// How many ranges hold an address.
fn count_about(ip: Ip) -> u32
    ensures { result ≡ width ip + 1 }
{
    match ip {
        Ip::V4(_) => 33,
        Ip::V6(_) => 129,
    }
}

// Whether what a chain asks for by a criterion is what is wanted.
fn is_met<V: Criterion>(wanted: &Wanted<V>, criteria: &FilterChainMatch) -> bool
    ensures { result ≡ is_met V.same wanted.now (V.values criteria.now) }
{
    match wanted {
        Wanted::Anything => true,
        Wanted::Nothing => V::is_unasked(criteria),
        Wanted::Value(value) => value.is_asked_by(criteria),
    }
}

// The same of a criterion by ranges.
fn is_range_met(by: RangeCriterion, wanted: &Wanted<CidrRange>, criteria: &FilterChainMatch) -> bool
    ensures { result ≡ is_met cidr_range_same wanted.now (ranges_by by criteria.now) }
{
    let ranges = ranges_by(by, criteria);
    match wanted {
        Wanted::Anything => true,
        Wanted::Nothing => ranges.len() == 0,
        Wanted::Value(range) => has_range(ranges, range),
    }
}

// Whether a range is among these.
fn has_range(ranges: &[CidrRange], range: &CidrRange) -> bool
    ensures { result ≡ has_value cidr_range_same ranges.now range.now }
{
    ranges.iter().any(|other| *range == *other)
}

// Whether a match asks where a connection comes from.
fn asks_source(criteria: &FilterChainMatch) -> bool
    ensures { result ≡ asks_source criteria.now }
{
    criteria.direct_source_prefix_ranges.len() != 0
        || criteria.source_type.is_some()
        || criteria.source_prefix_ranges.len() != 0
        || criteria.source_ports.len() != 0
}

// The type of the source of a connection, by the address that it comes to and its own.
fn source_type_of(local_ip: Option<Ip>, ip: Option<Ip>) -> SourceType
    ensures { result ≡ source_type_of local_ip ip }
{
    match ip {
        None => SourceType::SameIpOrLoopback,
        Some(ip) if is_loopback(ip) || local_ip == Some(ip) => SourceType::SameIpOrLoopback,
        Some(_) => SourceType::External,
    }
}

// Whether an address is one by which a machine reaches itself.
fn is_loopback(ip: Ip) -> bool
    ensures { result ≡ is_loopback ip }
{
    match ip {
        Ip::V4(bits) => bits / 16_777_216 == 127,
        Ip::V6(bits) => bits == 1,
    }
}
