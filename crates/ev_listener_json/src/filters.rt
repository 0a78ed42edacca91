ghost use Rattle.std.specs.Prelude.{◌≡◌, IfOk, map};
ghost use Rattle.serde_json.specs.View.{view};
ghost use Rattle.ev_tree.specs.Forms.{tree_of, found_map};
ghost use Rattle.ev_tree.specs.Broken.{any_broken};
ghost use Rattle.ev_listener_json.specs.Parts.{first_of};
ghost use Rattle.ev_listener_json.specs.Filters.{kind_in, named_kind, config_serve, config_broken, filter_serves, filter_serve, filter_broken};

use crate::managers::inspect_manager;
use ev_route_json::inspect_proxy_target;
use ev_tree::{BrokenRules, Found, Inspection, member};
use ev_types::{Profile, Serve};
use serde_json::Value;
use std::alloc::{AllocError, Global};

/// What a network filter is, by the type of its configuration.
#[derive(Clone, Copy, Debug)]
pub enum FilterKind {
    /// An HTTP connection manager.
    Manager,
    TcpProxy,
    /// Another filter, which is passed over.
    Other,
}

// The kind that a type's name says.
fn find_kind(name: &str) -> FilterKind
    ensures { result ≡ named_kind name.now }
{
    if name
        == "type.googleapis.com/envoy.extensions.filters.network.http_connection_manager.v3.HttpConnectionManager"
    {
        FilterKind::Manager
    } else if name == "type.googleapis.com/envoy.extensions.filters.network.tcp_proxy.v3.TcpProxy" {
        FilterKind::TcpProxy
    } else {
        FilterKind::Other
    }
}

/// The kind of a filter whose configuration has this type.
pub fn choose_kind(name: Found<&str>) -> FilterKind
    ensures { result ≡ kind_in (found_map (λ s. s.now) name.entry) }
{
    match name {
        Found::Given(name) => find_kind(name),
        Found::Absent | Found::Wrong => FilterKind::Other,
    }
}

// Inspects a TCP proxy, which has the members of a target.
fn inspect_tcp_proxy(
    alloc: Global,
    profile: Profile,
    config: Option<&Value>,
) -> Result<Inspection<Option<Serve>>, AllocError>
    ensures value { IfOk result (λ found. found.value
        ≡ config_serve profile FilterKind.TcpProxy (tree_of config.entry)) }
    ensures broken { IfOk result (λ found. found.broken
        ≡ config_broken profile FilterKind.TcpProxy (tree_of config.entry)) }
{
    let target = inspect_proxy_target(alloc, profile, config)?;
    Ok(Inspection {
        broken: target.broken,
        value: Some(Serve::Tcp(target.value)),
    })
}

/// Inspects the configuration of a filter of this kind.
pub fn inspect_config(
    alloc: Global,
    profile: Profile,
    kind: FilterKind,
    config: Option<&Value>,
) -> Result<Inspection<Option<Serve>>, AllocError>
    ensures value { IfOk result (λ found. found.value ≡ config_serve profile kind (tree_of config.entry)) }
    ensures broken { IfOk result (λ found. found.broken ≡ config_broken profile kind (tree_of config.entry)) }
{
    match kind {
        FilterKind::Manager => inspect_manager(alloc, profile, config),
        FilterKind::TcpProxy => inspect_tcp_proxy(alloc, profile, config),
        FilterKind::Other => Ok(Inspection {
            value: None,
            broken: BrokenRules::none(),
        }),
    }
}

// Inspects a filter of a chain.
fn inspect_filter(
    alloc: Global,
    profile: Profile,
    filter: &Value,
) -> Result<Inspection<Option<Serve>>, AllocError>
    ensures value { IfOk result (λ found. found.value ≡ filter_serve profile (view filter.now)) }
    ensures broken { IfOk result (λ found. found.broken ≡ filter_broken profile (view filter.now)) }
{
    let config = member::object(alloc, Some(filter), "typed_config")?;
    let inner = member::inner(config);
    let name = member::text(alloc, inner, "@type")?;
    let below = inspect_config(alloc, profile, choose_kind(name), inner)?;
    let own = BrokenRules {
        v6: config.is_wrong() | name.is_wrong(),
        ..BrokenRules::none()
    };
    Ok(Inspection {
        broken: below.broken.or(own),
        value: below.value,
    })
}

/// What is found of the filters of a chain.
#[derive(Drop)]
pub struct Filters {
    /// Of each filter, whether it is a connection manager or a TCP proxy.
    pub serving: Vec<bool>,
    /// What the first of those serves. It counts where no rule is broken.
    pub serve: Option<Serve>,
    /// What one of the filters breaks.
    pub broken: BrokenRules,
}

/// Inspects the filters of a chain.
pub fn inspect_filters(
    alloc: Global,
    profile: Profile,
    filters: &[Value],
) -> Result<Filters, AllocError>
    ensures serving { IfOk result (λ found. found.serving.items ≡ map (filter_serves profile) (map view filters.now)) }
    ensures serve { IfOk result (λ found. found.serve ≡ first_of (map (filter_serve profile) (map view filters.now))) }
    ensures broken { IfOk result (λ found. found.broken ≡ any_broken (filter_broken profile) (map view filters.now)) }
{
    let mut serving = Vec::new(alloc);
    let mut serve = None;
    let mut broken = BrokenRules::none();
    for filter in filters {
        let found = inspect_filter(alloc, profile, filter)?;
        broken = broken.or(found.broken);
        serving.push(found.value.is_some())?;
        serve = serve.or(found.value);
    }
    Ok(Filters {
        serving,
        serve,
        broken,
    })
}
