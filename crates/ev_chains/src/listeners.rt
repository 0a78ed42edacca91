ghost use Rattle.std.specs.Prelude.{◌≡◌, ◌==◌, IfOk, map, [], unwrap_or, length, false};
ghost use Rattle.serde_json.specs.View.{view};
ghost use Rattle.ev_types.specs.declared.listeners.Serve.TheVariants.{Inline};
ghost use Rattle.ev_tree.specs.Broken.{any_broken};
ghost use Rattle.ev_listener_json.specs.Listeners.{is_udp};
ghost use Rattle.ev_chains.specs.Listeners.{chain_of, one_broken, chains_in, parts_broken};

use crate::matches::inspect_match;
use crate::rows::{Chain, Listening};
use ev_listener_json::inspect_chain;
use ev_tree::{BrokenRules, EnumTable, Found, Inspection, member, socket_address};
use ev_types::{RouteTable, Seq, Serve, Shared, Text};
use serde_json::Value;
use std::alloc::{AllocError, Global};

/// Inspects a listener (`envoy.config.listener.v3.Listener`) with several filter chains:
/// its chains, which count where no rule is broken, and the rules that it breaks but V26.
pub(crate) fn inspect_listener(
    alloc: Global,
    value: &Value,
) -> Result<Inspection<Vec<Chain>>, AllocError>
    ensures value { IfOk result (λ found. found.value.items ≡ chains_in (view value.now)) }
    ensures broken { IfOk result (λ found. found.broken ≡ parts_broken (view value.now)) }
{
    let name = member::text(alloc, Some(value), "name")?;
    let address = socket_address(alloc, Some(value))?;
    let protocol = member::enumeration(alloc, address.socket, "protocol", EnumTable::Protocol)?;
    let chains = member::objects(alloc, Some(value), "filter_chains")?;
    let default_chain = member::object(alloc, Some(value), "default_filter_chain")?;
    let elements = member::elements(chains);
    let listening = Listening {
        address: Text::new(alloc, address.address)?,
        port: address.port,
    };
    let below = inspect_chains(alloc, &Shared::new(alloc, listening)?, elements)?;
    let own = BrokenRules {
        v6: name.is_wrong()
            | address.broken.v6
            | protocol.is_wrong()
            | chains.is_wrong()
            | default_chain.is_wrong(),
        v14: address.broken.v12 | is_udp(protocol),
        v16: is_none(elements) | default_chain.is_given(),
        ..BrokenRules::none()
    };
    Ok(Inspection {
        broken: below.broken.or(own),
        value: below.value,
    })
}

// Inspects the chains of a listener that listens there.
fn inspect_chains(
    alloc: Global,
    listening: &Shared<Listening>,
    elements: &[Value],
) -> Result<Inspection<Vec<Chain>>, AllocError>
    ensures value { IfOk result (λ found. found.value.items ≡ map (chain_of listening.now) (map view elements.now)) }
    ensures broken { IfOk result (λ found. found.broken ≡ any_broken one_broken (map view elements.now)) }
{
    let mut chains = Vec::new(alloc);
    let mut broken = BrokenRules::none();
    for element in elements {
        let found = inspect_one(alloc, listening, element)?;
        broken = broken.or(found.broken);
        chains.push(found.value)?;
    }
    Ok(Inspection {
        value: chains,
        broken,
    })
}

// Inspects a chain of a listener that listens there.
fn inspect_one(
    alloc: Global,
    listening: &Shared<Listening>,
    chain: &Value,
) -> Result<Inspection<Chain>, AllocError>
    ensures value { IfOk result (λ found. found.value ≡ chain_of listening.now (view chain.now)) }
    ensures broken { IfOk result (λ found. found.broken ≡ one_broken (view chain.now)) }
{
    let matched = member::object(alloc, Some(chain), "filter_chain_match")?;
    let found = inspect_match(alloc, member::inner(matched))?;
    let below = inspect_chain(alloc, chain)?;
    Ok(Inspection {
        broken: without_v16(below.broken).or(found.broken),
        value: Chain {
            listening: listening.share()?,
            matches: found.value,
            serve: serve_or_none(alloc, below.value)?,
        },
    })
}

// The same rules without V16.
fn without_v16(broken: BrokenRules) -> BrokenRules
    ensures { result ≡ record broken { v16 = false } }
{
    BrokenRules {
        v16: false,
        ..broken
    }
}

// What is served: a table with no hosts where nothing is.
fn serve_or_none(alloc: Global, serve: Option<Serve>) -> Result<Serve, AllocError>
    ensures { IfOk result (λ served. served ≡ unwrap_or serve (Inline (record { hosts = [] }))) }
{
    match serve {
        Some(serve) => Ok(serve),
        None => {
            let table = RouteTable {
                hosts: Seq::new(alloc),
            };
            Ok(Serve::Inline(Shared::new(alloc, table)?))
        }
    }
}

// Whether there is no chain.
fn is_none(elements: &[Value]) -> bool
    ensures { result ≡ (length elements.now == 0) }
{
    elements.len() == 0
}

// Whether UDP is given.
fn is_udp(protocol: Found<u32>) -> bool
    ensures { result ≡ is_udp protocol }
{
    matches!(protocol, Found::Given(1))
}
