ghost use Rattle.std.specs.Prelude.{◌≡◌, ◌≤◌, ◌<◌, ◌∷◌, [], length, map, codes, IfOk};
ghost use Rattle.std.specs.List.{range_with_len};
ghost use Rattle.ev_types.specs.Items.{IsOwnName, content_kind};
ghost use Rattle.ev_types.specs.declared.contents.Body.TheVariants.{Good};
ghost use Rattle.ev_types.specs.declared.contents.Kind.TheVariants.{Cds, Eds, Lds, Rds};
ghost use Rattle.ev_types.specs.declared.limits.TheConstants.{ROW_LIMIT};
ghost use Rattle.ev_soak.specs.Soak.{numbered, cluster_name, listener_name, routes_name, host_numbered, host_row, listening, cluster_content, hosts_content, no_criteria, chain_for, listener_content, routes_content};

use ev_types::{
    Action, Assignment, Cluster, Content, Discovery, FilterChain, FilterChainMatch, Host, HostRow,
    Listener, Name, NameError, PathMatch, PathSpecifier, Route, RouteMatch, RouteTable, Seq, Serve,
    Shared, SocketAddress, Target, Text, VirtualHost,
};
use std::alloc::{AllocError, Global};

// A text with a number after a word.
pub(crate) fn numbered_text(alloc: Global, word: &str, number: u32) -> Result<Text, AllocError>
    ensures { IfOk result (λ text. text ≡ numbered word.now number) }
{
    let text = format!(in alloc; "{word}{number}")?;
    Text::new(alloc, text.as_str())
}

// A name with a number after a short word.
#[tactic(auto, using(crate::proofs::NameLemmas::never_long))]
pub(crate) fn numbered_name(alloc: Global, word: &str, number: u32) -> Result<Name, AllocError>
    requires given { 1 ≤ length word.now }
    requires short { length word.now ≤ 10 }
    ensures { IfOk result (λ name. name ≡ numbered word.now number) }
{
    let text = format!(in alloc; "{word}{number}")?;
    match Name::new(alloc, text.as_str()) {
        Ok(name) => Ok(name),
        Err(NameError::OutOfMemory) => Err(AllocError),
        Err(NameError::Length) => unreachable!(),
    }
}

// The name of a cluster.
pub(crate) fn cluster_name(alloc: Global, number: u32) -> Result<Name, AllocError>
    ensures { IfOk result (λ name. name ≡ cluster_name number) }
{
    numbered_name(alloc, "c", number)
}

// The name of a listener.
pub(crate) fn listener_name(alloc: Global, number: u32) -> Result<Name, AllocError>
    ensures { IfOk result (λ name. name ≡ listener_name number) }
{
    numbered_name(alloc, "l", number)
}

// The name of routes.
pub(crate) fn routes_name(alloc: Global, number: u32) -> Result<Name, AllocError>
    ensures { IfOk result (λ name. name ≡ routes_name number) }
{
    numbered_name(alloc, "r", number)
}

// The host of this number.
pub(crate) fn host_numbered(alloc: Global, number: u32) -> Result<Host, AllocError>
    ensures { IfOk result (λ host. host ≡ host_numbered number) }
{
    let address = numbered_name(alloc, "10.0.0.", number)?;
    Ok(Host { address, port: 80 })
}

// Where listeners listen.
pub(crate) fn listening(alloc: Global, port: u16) -> Result<Host, AllocError>
    ensures { IfOk result (λ host. host ≡ listening port) }
{
    match Name::new(alloc, "10.1.0.1") {
        Ok(address) => Ok(Host { address, port }),
        Err(NameError::OutOfMemory) => Err(AllocError),
        Err(NameError::Length) => unreachable!(),
    }
}

// The cluster of this number.
pub(crate) fn cluster_content(
    alloc: Global,
    number: u32,
    checked: bool,
) -> Result<Content, AllocError>
    ensures { IfOk result (λ content. content ≡ cluster_content number checked) }
{
    let cluster = Cluster {
        name: cluster_name(alloc, number)?,
        discovery: Discovery::Eds {
            service: cluster_name(alloc, number)?,
            limited: true,
            fresh: false,
        },
        checked,
        secrets: Seq::new(alloc),
        secrets_by_match: None,
        body_text: Text::new(alloc, "")?,
    };
    Ok(Content::Cluster(Shared::new(alloc, cluster)?))
}

// The first hosts, this many.
pub(crate) fn hosts_content(alloc: Global, count: u32) -> Result<Content, AllocError>
    requires few { count ≤ 3 }
    ensures { IfOk result (λ content. content ≡ hosts_content count) }
{
    let rows = host_rows(alloc, count)?;
    let assignment = Assignment::indexed(alloc, Seq::from_vec(rows))?;
    Ok(Content::Assignment(Shared::new(alloc, assignment)?))
}

// The rows of the first hosts, this many.
#[tactic(auto, using(crate::proofs::NameLemmas::hosts_more, crate::proofs::NameLemmas::few_hosts))]
fn host_rows(alloc: Global, count: u32) -> Result<Vec<HostRow>, AllocError>
    requires few { count ≤ 3 }
    ensures rows { IfOk result (λ rows. rows.items ≡ map host_row (range_with_len 1 count)) }
    ensures few { IfOk result (λ rows. length rows.items < ROW_LIMIT) }
{
    let mut rows = Vec::new(alloc);
    for place in 0..count {
        rows.push(HostRow {
            host: host_numbered(alloc, place + 1)?,
            weight: 1,
            priority: 0,
            usable: true,
        })?;
    }
    Ok(rows)
}

// The listener of this number.
pub(crate) fn listener_content(alloc: Global, number: u32, port: u16) -> Result<Content, AllocError>
    ensures { IfOk result (λ content. content ≡ listener_content number port) }
{
    let listener = Listener {
        name: listener_name(alloc, number)?,
        address: SocketAddress {
            host: listening(alloc, port)?,
            udp: false,
        },
        takes_every_address: false,
        restores: false,
        hands_over: false,
        filter_chains: Seq::from_vec(vec![in alloc; chain_for(alloc, number)?]?),
        default_filter_chain: None,
        extensions: Seq::new(alloc),
        frame_text: Text::new(alloc, "")?,
        body_text: Text::new(alloc, "")?,
    };
    Ok(Content::Listener(Shared::new(alloc, listener)?))
}

// A filter chain that takes every connection, with the routes of this number.
fn chain_for(alloc: Global, number: u32) -> Result<FilterChain, AllocError>
    ensures { IfOk result (λ chain. chain ≡ chain_for number) }
{
    Ok(FilterChain {
        criteria: Shared::new(alloc, no_criteria(alloc))?,
        serve: Serve::Rds {
            name: routes_name(alloc, number)?,
            limited: true,
        },
        secrets: Seq::new(alloc),
        extensions: Seq::new(alloc),
        body_text: Text::new(alloc, "")?,
    })
}

// What a filter chain asks for that takes every connection.
fn no_criteria(alloc: Global) -> FilterChainMatch
    ensures { result ≡ no_criteria }
{
    FilterChainMatch {
        destination_port: None,
        prefix_ranges: Seq::new(alloc),
        server_names: Seq::new(alloc),
        transport_protocol: None,
        application_protocols: Seq::new(alloc),
        direct_source_prefix_ranges: Seq::new(alloc),
        source_type: None,
        source_prefix_ranges: Seq::new(alloc),
        source_ports: Seq::new(alloc),
    }
}

// Routes to the cluster of this number.
pub(crate) fn routes_content(alloc: Global, number: u32) -> Result<Content, AllocError>
    ensures { IfOk result (λ content. content ≡ routes_content number) }
{
    let route = Route {
        route_match: RouteMatch {
            path: PathSpecifier::Cased(PathMatch::Prefix(Text::new(alloc, "/")?)),
            conditions: Seq::new(alloc),
        },
        action: Action::Forward(Target::One(numbered_text(alloc, "c", number)?)),
    };
    let host = VirtualHost {
        name: Text::new(alloc, "v")?,
        domains: Seq::from_vec(vec![in alloc; Text::new(alloc, "*")?]?),
        routes: Seq::from_vec(vec![in alloc; route]?),
    };
    let table = RouteTable {
        hosts: Seq::from_vec(vec![in alloc; host]?),
    };
    Ok(Content::Routes(Shared::new(alloc, table)?))
}
