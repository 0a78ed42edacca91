//! Listener filters: what a listener does with a redirected connection, and the extensions that they ask for.
ghost use Rattle.std.specs.Prelude.{◌≡◌, map, IfOk};
ghost use Rattle.std.specs.List.{list_any};
ghost use Rattle.serde_json.specs.View.{view};
ghost use Rattle.ev_tree.specs.Broken.{any_broken};
ghost use Rattle.ev_listener_json.specs.ListenerFilters.{is_original_dst_by, is_original_dst, listener_filter_broken, hands_over, restores, redirection_broken, hidden_where, listener_extensions};

use crate::envoy_chains::has_api;
use ev_secret_json::{References, find_extensions};
use ev_tree::{BrokenRules, Inspection, member};
use ev_types::Seq;
use serde_json::Value;
use std::alloc::{AllocError, Global};

/// What is found of a listener's members about redirected connections.
#[derive(Clone, Copy)]
pub(crate) struct Redirection {
    /// Whether it takes such a connection as one to the address that it was meant for.
    pub restores: bool,
    /// Whether it hands it over to the listener there.
    pub hands_over: bool,
    /// The rules that these members break: V6.
    pub broken: BrokenRules,
}

/// Inspects `use_original_dst` and the listener filters of a listener.
pub(crate) fn inspect_redirection(
    alloc: Global,
    listener: &Value,
) -> Result<Redirection, AllocError>
    ensures restores { IfOk result (λ found. found.restores ≡ restores (view listener.now)) }
    ensures hands_over { IfOk result (λ found. found.hands_over ≡ hands_over (view listener.now)) }
    ensures broken { IfOk result (λ found. found.broken ≡ redirection_broken (view listener.now)) }
{
    let flag = member::boolean(alloc, Some(listener), "use_original_dst")?;
    let filters = member::objects(alloc, Some(listener), "listener_filters")?;
    let below = inspect_listener_filters(alloc, member::elements(filters))?;
    let hands_over = flag.given_or(false);
    let own = BrokenRules {
        v6: flag.is_wrong() | filters.is_wrong(),
        ..BrokenRules::none()
    };
    Ok(Redirection {
        restores: hands_over | below.value,
        hands_over,
        broken: below.broken.or(own),
    })
}

// Inspects listener filters: whether one restores, and what they break.
fn inspect_listener_filters(
    alloc: Global,
    filters: &[Value],
) -> Result<Inspection<bool>, AllocError>
    ensures value { IfOk result (λ found. found.value ≡ list_any is_original_dst (map view filters.now)) }
    ensures broken { IfOk result (λ found. found.broken ≡ any_broken listener_filter_broken (map view filters.now)) }
{
    let mut restores = false;
    let mut broken = BrokenRules::none();
    for filter in filters {
        let found = inspect_listener_filter(alloc, filter)?;
        broken = broken.or(found.broken);
        restores = restores | found.value;
    }
    Ok(Inspection {
        value: restores,
        broken,
    })
}

// Inspects a listener filter.
fn inspect_listener_filter(alloc: Global, filter: &Value) -> Result<Inspection<bool>, AllocError>
    ensures value { IfOk result (λ found. found.value ≡ is_original_dst (view filter.now)) }
    ensures broken { IfOk result (λ found. found.broken ≡ listener_filter_broken (view filter.now)) }
{
    let config = member::object(alloc, Some(filter), "typed_config")?;
    let inner = member::inner(config);
    let kind = member::text(alloc, inner, "@type")?;
    let name = member::text(alloc, Some(filter), "name")?;
    Ok(Inspection {
        value: is_original_dst_by(
            config.is_absent(),
            member::text_or_empty(name),
            member::text_or_empty(kind),
        ),
        broken: BrokenRules {
            v6: config.is_wrong() | kind.is_wrong(),
            ..BrokenRules::none()
        },
    })
}

// Whether a filter restores, by the type of its configuration, or by its name where it has none.
fn is_original_dst_by(unconfigured: bool, name: &str, kind: &str) -> bool
    ensures { result ≡ is_original_dst_by unconfigured name.now kind.now }
{
    if unconfigured {
        name == "envoy.filters.listener.original_dst"
    } else {
        kind == "type.googleapis.com/envoy.extensions.filters.listener.original_dst.v3.OriginalDst"
    }
}

/// The extensions that the listener filters of a listener ask for: an API listener waits for none of them.
pub(crate) fn find_listener_extensions(
    alloc: Global,
    listener: &Value,
) -> Result<References, AllocError>
    ensures { IfOk result (λ found. found ≡ listener_extensions (view listener.now)) }
{
    let filters = member::objects(alloc, Some(listener), "listener_filters")?;
    let found = find_extensions(alloc, member::elements(filters))?;
    let hides = has_api(alloc, listener)?;
    Ok(hide_where(alloc, hides, found))
}

// These references without their list where it is hidden.
fn hide_where(alloc: Global, hides: bool, found: References) -> References
    ensures { result ≡ hidden_where hides found }
{
    if !hides {
        return found;
    }
    References {
        list: Seq::new(alloc),
        broken: found.broken,
    }
}
