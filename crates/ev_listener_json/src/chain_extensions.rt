//! The extensions that the filters of a chain ask for by name.
ghost use Rattle.std.specs.Prelude.{◌≡◌, IfOk, map};
ghost use Rattle.serde_json.specs.View.{view};
ghost use Rattle.ev_tree.specs.Forms.{tree_of};
ghost use Rattle.ev_secret_json.specs.References.{each_joined};
ghost use Rattle.ev_listener_json.specs.ChainExtensions.{manager_extensions, kind_extensions, network_extensions, chain_extensions};

use crate::filters::{FilterKind, choose_kind};
use ev_secret_json::{
    References, find_extension, find_extensions, join_references, no_references, wrong_form,
};
use ev_tree::member;
use serde_json::Value;
use std::alloc::{AllocError, Global};

// The extensions of a connection manager's HTTP filters.
fn find_manager_extensions(alloc: Global, manager: Option<&Value>) -> Result<References, AllocError>
    ensures { IfOk result (λ found. found ≡ manager_extensions (tree_of manager.entry)) }
{
    let filters = member::objects(alloc, manager, "http_filters")?;
    let below = find_extensions(alloc, member::elements(filters))?;
    let both = join_references(below, wrong_form(alloc, filters.is_wrong()))?;
    Ok(both)
}

/// The extensions that the configuration of a filter of this kind asks for.
pub(crate) fn find_kind_extensions(
    alloc: Global,
    kind: FilterKind,
    config: Option<&Value>,
) -> Result<References, AllocError>
    ensures { IfOk result (λ found. found ≡ kind_extensions kind (tree_of config.entry)) }
{
    match kind {
        FilterKind::Manager => find_manager_extensions(alloc, config),
        FilterKind::TcpProxy | FilterKind::Other => Ok(no_references(alloc)),
    }
}

// The extensions of a network filter: its own, then those of its connection manager.
fn find_network_extensions(alloc: Global, filter: &Value) -> Result<References, AllocError>
    ensures { IfOk result (λ found. found ≡ network_extensions (view filter.now)) }
{
    let own = find_extension(alloc, filter)?;
    let config = member::object(alloc, Some(filter), "typed_config")?;
    let inner = member::inner(config);
    let name = member::text(alloc, inner, "@type")?;
    let below = find_kind_extensions(alloc, choose_kind(name), inner)?;
    let both = join_references(own, below)?;
    Ok(both)
}

// The extensions of these network filters, in order.
fn find_each(alloc: Global, filters: &[Value]) -> Result<References, AllocError>
    ensures { IfOk result (λ found. found ≡ each_joined network_extensions (map view filters.now)) }
{
    let mut found = no_references(alloc);
    for filter in filters {
        let here = find_network_extensions(alloc, filter)?;
        found = join_references(found, here)?;
    }
    Ok(found)
}

/// The extensions of a chain's filters, in order.
pub(crate) fn find_chain_extensions(alloc: Global, chain: &Value) -> Result<References, AllocError>
    ensures { IfOk result (λ found. found ≡ chain_extensions (view chain.now)) }
{
    let filters = member::objects(alloc, Some(chain), "filters")?;
    let found = find_each(alloc, member::elements(filters))?;
    Ok(found)
}
