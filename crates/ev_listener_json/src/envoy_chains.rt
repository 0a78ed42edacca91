//! Filter chains of a listener as Envoy reads them: each with its match, a default chain, and an API listener's.
ghost use Rattle.std.specs.Prelude.{◌≡◌, None, [], ◌∷◌, IfOk, map};
ghost use Rattle.serde_json.specs.View.{view};
ghost use Rattle.ev_tree.specs.Broken.{any_broken};
ghost use Rattle.ev_tree.specs.Floats.{plain_text};
ghost use Rattle.ev_tree.specs.Forms.{found_map, tree_of};
ghost use Rattle.ev_listener_json.specs.Chains.{no_criteria, plain_chain, served_by, serve_or_other, filters_broken, served_broken, chain_with, envoy_chain_of, envoy_chain_broken, has_api, is_manager, api_chain, api_chain_of, api_broken, chains_of, default_chain, default_broken, given_default_of, given_chains_broken, envoy_chains_broken, envoy_chains_of, envoy_default_of};

use crate::chain_extensions::{find_chain_extensions, find_kind_extensions};
use crate::chain_matches::inspect_filter_chain_match;
use crate::collisions::has_collision;
use crate::filters::{FilterKind, choose_kind, inspect_config, inspect_filters};
use ev_secret_json::find_transport_secrets;
use ev_tree::{BrokenRules, Found, Inspection, body_text, member, more_than_one};
use ev_types::{FilterChain, FilterChainMatch, Profile, Reference, Seq, Serve, Shared, Text};
use serde_json::Value;
use std::alloc::{AllocError, Global};

/// What is found of the chains of a listener.
#[derive(Drop)]
pub struct ChainsFound {
    /// The chains in order.
    pub chains: Vec<FilterChain>,
    /// The default chain, if there is one.
    pub default: Option<FilterChain>,
    /// The rules that they break.
    pub broken: BrokenRules,
}

/// Inspects the chains of a listener as Envoy reads them: one that listens by UDP needs none.
/// An API listener hides those that are given.
#[tactic(auto, unfolding(crate::specs::Chains::envoy_chains_of, crate::specs::Chains::envoy_default_of, crate::specs::Chains::envoy_chains_broken))]
pub fn inspect_envoy_chains(
    alloc: Global,
    listener: &Value,
    udp: bool,
) -> Result<ChainsFound, AllocError>
    ensures chains { IfOk result (λ found. found.chains.items ≡ envoy_chains_of (view listener.now)) }
    ensures default { IfOk result (λ found. found.default ≡ envoy_default_of (view listener.now)) }
    ensures broken { IfOk result (λ found. found.broken ≡ envoy_chains_broken udp (view listener.now)) }
{
    if has_api(alloc, listener)? {
        inspect_api(alloc, listener)
    } else {
        inspect_given(alloc, listener, udp)
    }
}

// Inspects the chains that are given.
fn inspect_given(alloc: Global, listener: &Value, udp: bool) -> Result<ChainsFound, AllocError>
    ensures chains { IfOk result (λ found. found.chains.items ≡ map envoy_chain_of (chains_of (view listener.now))) }
    ensures default { IfOk result (λ found. found.default ≡ given_default_of (view listener.now)) }
    ensures broken { IfOk result (λ found. found.broken ≡ given_chains_broken udp (view listener.now)) }
{
    let chains = member::objects(alloc, Some(listener), "filter_chains")?;
    let default = member::object(alloc, Some(listener), "default_filter_chain")?;
    let elements = member::elements(chains);
    let below = inspect_each(alloc, elements)?;
    let last = inspect_default(alloc, default)?;
    let own = BrokenRules {
        v6: chains.is_wrong() | default.is_wrong(),
        v16: elements.is_empty() & !default.is_given() & !udp,
        v26: has_collision(alloc, below.value.as_slice())?,
        ..BrokenRules::none()
    };
    Ok(ChainsFound {
        chains: below.value,
        default: last.value,
        broken: below.broken.or(last.broken.or(own)),
    })
}

/// Whether an API listener is given, in any form.
pub fn has_api(alloc: Global, listener: &Value) -> Result<bool, AllocError>
    ensures { IfOk result (λ has. has ≡ has_api (view listener.now)) }
{
    let api = member::field(alloc, Some(listener), "api_listener")?;
    Ok(!api.is_absent())
}

// Inspects an API listener: its connection manager represents the one filter of one chain without a match.
fn inspect_api(alloc: Global, listener: &Value) -> Result<ChainsFound, AllocError>
    ensures chains { IfOk result (λ found. found.chains.items ≡ api_chain_of (view listener.now) ∷ []) }
    ensures default { IfOk result (λ found. found.default ≡ None) }
    ensures broken { IfOk result (λ found. found.broken ≡ api_broken (view listener.now)) }
{
    let outer = member::object(alloc, Some(listener), "api_listener")?;
    let inner = member::object(alloc, member::inner(outer), "api_listener")?;
    let config = member::inner(inner);
    let name = member::text(alloc, config, "@type")?;
    let kind = choose_kind(name);
    let below = inspect_config(alloc, Profile::Envoy, kind, config)?;
    let extensions = find_kind_extensions(alloc, kind, config)?;
    let own = BrokenRules {
        v6: outer.is_wrong() | inner.is_wrong() | name.is_wrong(),
        v17: !is_manager(kind),
        ..BrokenRules::none()
    };
    Ok(ChainsFound {
        broken: below.broken.or(extensions.broken.or(own)),
        chains: make_api_chains(alloc, config, serve_or_other(below.value), extensions.list)?,
        default: None,
    })
}

// The one chain of an API listener.
fn make_api_chains(
    alloc: Global,
    config: Option<&Value>,
    serve: Serve,
    extensions: Seq<Reference>,
) -> Result<Vec<FilterChain>, AllocError>
    ensures { IfOk result (λ chains. chains.items ≡ api_chain (tree_of config.entry) serve extensions ∷ []) }
{
    let body_text = part_text(alloc, config)?;
    let criteria = Shared::new(alloc, no_criteria(alloc))?;
    let mut chains = Vec::new(alloc);
    chains.push(FilterChain {
        criteria,
        serve,
        secrets: Seq::new(alloc),
        extensions,
        body_text,
    })?;
    Ok(chains)
}

// The text of a part of a listener that may be missing.
fn part_text(alloc: Global, part: Option<&Value>) -> Result<Text, AllocError>
    ensures { IfOk result (λ text. text ≡ plain_text (tree_of part.entry)) }
{
    match part {
        Some(part) => body_text(alloc, Profile::Envoy, part),
        None => body_text(alloc, Profile::Envoy, &Value::Null),
    }
}

// Whether a filter of this kind is a connection manager.
fn is_manager(kind: FilterKind) -> bool
    ensures { result ≡ is_manager kind }
{
    matches!(kind, FilterKind::Manager)
}

/// A match that asks for nothing.
pub fn no_criteria(alloc: Global) -> FilterChainMatch
    ensures { result ≡ no_criteria }
{
    FilterChainMatch {
        destination_port: None,
        prefix_ranges: Seq::new(alloc),
        server_names: Seq::new(alloc),
        transport_protocol: None,
        application_protocols: Seq::new(alloc),
        direct_source_prefix_ranges: Seq::new(alloc),
        source_type: None,
        source_prefix_ranges: Seq::new(alloc),
        source_ports: Seq::new(alloc),
    }
}

// Inspects the chains that are given, in order.
fn inspect_each(alloc: Global, chains: &[Value]) -> Result<Inspection<Vec<FilterChain>>, AllocError>
    ensures value { IfOk result (λ found. found.value.items ≡ map envoy_chain_of (map view chains.now)) }
    ensures broken { IfOk result (λ found. found.broken ≡ any_broken envoy_chain_broken (map view chains.now)) }
{
    let mut values = Vec::new(alloc);
    let mut broken = BrokenRules::none();
    for chain in chains {
        let found = inspect_envoy_chain(alloc, chain)?;
        broken = broken.or(found.broken);
        values.push(found.value)?;
    }
    Ok(Inspection {
        value: values,
        broken,
    })
}

// Inspects a chain with its match.
fn inspect_envoy_chain(alloc: Global, chain: &Value) -> Result<Inspection<FilterChain>, AllocError>
    ensures value { IfOk result (λ found. found.value ≡ envoy_chain_of (view chain.now)) }
    ensures broken { IfOk result (λ found. found.broken ≡ envoy_chain_broken (view chain.now)) }
{
    let matched = member::object(alloc, Some(chain), "filter_chain_match")?;
    let criteria = inspect_filter_chain_match(alloc, member::inner(matched))?;
    let below = inspect_with(alloc, criteria.value, chain)?;
    let own = BrokenRules {
        v6: matched.is_wrong(),
        ..BrokenRules::none()
    };
    Ok(Inspection {
        broken: below.broken.or(criteria.broken.or(own)),
        value: below.value,
    })
}

// Inspects a chain that takes the connections that a match asks for, its own match left aside.
fn inspect_with(
    alloc: Global,
    criteria: FilterChainMatch,
    chain: &Value,
) -> Result<Inspection<FilterChain>, AllocError>
    ensures value { IfOk result (λ found. found.value ≡ chain_with criteria (view chain.now)) }
    ensures broken { IfOk result (λ found. found.broken ≡ served_broken (view chain.now)) }
{
    let criteria = Shared::new(alloc, criteria)?;
    let body_text = body_text(alloc, Profile::Envoy, chain)?;
    let served = inspect_served(alloc, chain)?;
    let secrets = find_transport_secrets(alloc, Some(chain))?;
    let extensions = find_chain_extensions(alloc, chain)?;
    Ok(Inspection {
        broken: served.broken.or(secrets.broken.or(extensions.broken)),
        value: FilterChain {
            criteria,
            serve: served.value,
            secrets: secrets.list,
            extensions: extensions.list,
            body_text,
        },
    })
}

/// A chain that has a way of serving alone, and takes every connection.
pub fn plain_chain(alloc: Global, serve: Serve) -> Result<FilterChain, AllocError>
    ensures { IfOk result (λ chain. chain ≡ plain_chain serve) }
{
    Ok(FilterChain {
        criteria: Shared::new(alloc, no_criteria(alloc))?,
        serve,
        secrets: Seq::new(alloc),
        extensions: Seq::new(alloc),
        body_text: Text::from_string(String::new(alloc)),
    })
}

// Inspects what a chain serves, its match left aside.
fn inspect_served(alloc: Global, chain: &Value) -> Result<Inspection<Serve>, AllocError>
    ensures value { IfOk result (λ found. found.value ≡ served_by (view chain.now)) }
    ensures broken { IfOk result (λ found. found.broken ≡ filters_broken (view chain.now)) }
{
    let filters = member::objects(alloc, Some(chain), "filters")?;
    let below = inspect_filters(alloc, Profile::Envoy, member::elements(filters))?;
    let own = BrokenRules {
        v6: filters.is_wrong(),
        v17: more_than_one(below.serving.as_slice()),
        ..BrokenRules::none()
    };
    Ok(Inspection {
        broken: below.broken.or(own),
        value: serve_or_other(below.serve),
    })
}

// Inspects the default chain, if there is one.
fn inspect_default(
    alloc: Global,
    chain: Found<&Value>,
) -> Result<Inspection<Option<FilterChain>>, AllocError>
    ensures value { IfOk result (λ found. found.value ≡ default_chain (found_map (λ v. view v.now) chain.entry)) }
    ensures broken { IfOk result (λ found. found.broken ≡ default_broken (found_map (λ v. view v.now) chain.entry)) }
{
    match chain {
        Found::Given(chain) => {
            let found = inspect_with(alloc, no_criteria(alloc), chain)?;
            Ok(Inspection {
                value: Some(found.value),
                broken: found.broken,
            })
        }
        Found::Absent | Found::Wrong => Ok(Inspection {
            value: None,
            broken: BrokenRules::none(),
        }),
    }
}

// What is served, or something that isn't read.
fn serve_or_other(serve: Option<Serve>) -> Serve
    ensures { result ≡ serve_or_other serve }
{
    match serve {
        Some(serve) => serve,
        None => Serve::Other,
    }
}
