ghost use Rattle.std.specs.Prelude.{◌≡◌, ◌<◌, [], ◌∷◌, ◌++◌, IfOk, length, map};
ghost use Rattle.std.specs.Str.{str_to_ascii_lowercase};
ghost use Rattle.ev_model.specs.Choice.{domains_of};
ghost use Rattle.ev_routes.specs.Domains.{domains_in, host_at, lower_domain};

use crate::domain_table::Domains;
use crate::domains::Domain;
use crate::routed_host::RoutedHost;
use ev_keys::Keys;
use ev_model::Routing;
use ev_types::{RouteTable, Shared, Text};
use std::alloc::{AllocError, Global};

/// The domains by which connections go. Their tables hash by these keys.
pub(crate) fn domains_in(
    alloc: Global,
    keys: Keys,
    routing: &Routing,
) -> Result<Domains, AllocError>
    ensures { IfOk result (λ domains. domains ≡ domains_in routing.now) }
{
    match routing {
        Routing::Table(table) => domains_of(alloc, keys, table),
        Routing::Tcp(_) | Routing::Other => Ok(Domains::new(alloc, keys)),
    }
}

// The domains of each virtual host of a table, in order.
fn domains_of(alloc: Global, keys: Keys, table: &Shared<RouteTable>) -> Result<Domains, AllocError>
    ensures { IfOk result (λ domains. domains ≡ domains_of table.now) }
{
    let mut domains = Domains::new(alloc, keys);
    for place in 0..table.get().hosts.len() {
        domains = with_host(alloc, keys, domains, table, place)?;
    }
    Ok(domains)
}

// The domains with those of the virtual host at this place.
fn with_host(
    alloc: Global,
    keys: Keys,
    domains: Domains,
    table: &Shared<RouteTable>,
    place: usize,
) -> Result<Domains, AllocError>
    requires { place < length table.now.hosts }
    ensures { IfOk result (λ new. new ≡ domains ++ domains_of (record { hosts = host_at table.now.hosts place ∷ [] })) }
{
    let host = shared_host(alloc, keys, table, place)?;
    with_domains(alloc, domains, &host)
}

// The virtual host at this place, for each of its domains to share.
fn shared_host(
    alloc: Global,
    keys: Keys,
    table: &Shared<RouteTable>,
    place: usize,
) -> Result<Shared<RoutedHost>, AllocError>
    requires { place < length table.now.hosts }
    ensures { IfOk result (λ host. host ≡ host_at table.now.hosts place) }
{
    Shared::new(alloc, RoutedHost::new(alloc, keys, table, place)?)
}

// The domains with those of this virtual host.
fn with_domains(
    alloc: Global,
    domains: Domains,
    host: &Shared<RoutedHost>,
) -> Result<Domains, AllocError>
    ensures { IfOk result (λ new. new ≡ domains ++ map (λ text. lower_domain text host.now) host.now.domains) }
{
    let mut domains = domains;
    for domain in host.get().host().domains.as_slice() {
        domains = domains.with(lower_domain(alloc, domain, host)?)?;
    }
    Ok(domains)
}

// A domain of the virtual host, with its ASCII letters as lower case.
fn lower_domain(
    alloc: Global,
    domain: &Text,
    host: &Shared<RoutedHost>,
) -> Result<Domain, AllocError>
    ensures { IfOk result (λ made. made ≡ lower_domain domain.now host.now) }
{
    let text = Shared::new(alloc, lower_case(alloc, domain)?)?;
    Ok(Domain::new(text, host.share()?))
}

// The text with its ASCII letters as lower case.
fn lower_case(alloc: Global, text: &Text) -> Result<Text, AllocError>
    ensures { IfOk result (λ lower. lower ≡ str_to_ascii_lowercase text.now) }
{
    let mut lower = String::from_str(alloc, text.as_str())?;
    lower.make_ascii_lowercase();
    Text::new(alloc, lower.as_str())
}
