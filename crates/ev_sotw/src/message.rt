ghost use Rattle.std.specs.Prelude.{◌≡◌, map, option_map, IfOk, OnOk};
ghost use Rattle.serde_json.specs.Data.{string};
ghost use Rattle.serde_json.specs.View.{view};
ghost use Rattle.ev_wire.specs.Requests.{Puts};
ghost use Rattle.ev_sotw.specs.Discovery.{seen};
ghost use Rattle.ev_sotw.specs.Delta.{IsMessageOf, item_tree, items_for, with_list, delta_message};

use crate::discovery::{Discovery, resource_name};
use ev_types::Kind;
use serde_json::{Map, Value, json, put};
use std::alloc::{AllocError, Global};

/// The message of the incremental protocol that says what a response says, with these removed names, as JSON texts.
///
/// # Errors
/// `AllocError` where there is no memory for it.
pub fn delta_message(
    alloc: Global,
    response: &Discovery<'_>,
    removed: Vec<Value>,
) -> Result<Value, AllocError>
    ensures { IfOk result (λ message. view message ≡ delta_message (seen response.now) (map view removed.items)) }
{
    let items = items_for(alloc, response)?;
    message_value(alloc, response.url, response.nonce, items, removed)
}

// The message of this type, nonce, items and removed names.
#[tactic(auto, unfolding(crate::specs::Delta::message_tree))]
fn message_value(
    alloc: Global,
    url: &str,
    nonce: &str,
    items: Vec<Value>,
    removed: Vec<Value>,
) -> Result<Value, AllocError>
    ensures { IfOk result (IsMessageOf url.now nonce.now items.items removed.items) }
{
    let mut members = Map::new(alloc);
    put(&mut members, alloc, "nonce", json!(in alloc; nonce)?)?;
    put_list(alloc, &mut members, "removedResources", removed)?;
    put_list(alloc, &mut members, "resources", items)?;
    put(&mut members, alloc, "typeUrl", json!(in alloc; url)?)?;
    Ok(Value::Object(members))
}

// Puts a list, where it isn't empty.
fn put_list(
    alloc: Global,
    members: &mut Map<String, Value>,
    key: &str,
    values: Vec<Value>,
) -> Result<(), AllocError>
    ensures { OnOk result (Puts (with_list key.now (map view values.items)) members.old.entries members.new.entries) }
{
    if values.len() != 0 {
        put(members, alloc, key, Value::Array(values))?;
    }
    Ok(())
}

// The items of a response: none of a type that isn't read.
fn items_for(alloc: Global, response: &Discovery<'_>) -> Result<Vec<Value>, AllocError>
    ensures { IfOk result (λ items. map view items.items ≡ items_for (seen response.now)) }
{
    match response.kind {
        Some(kind) => item_values(alloc, kind, response.version, response.resources),
        None => Ok(Vec::new(alloc)),
    }
}

// The items of these resources, in order.
fn item_values(
    alloc: Global,
    kind: Kind,
    version: &str,
    resources: &[Value],
) -> Result<Vec<Value>, AllocError>
    ensures { IfOk result (λ items. map view items.items ≡ map (item_tree kind version.now) (map view resources.now)) }
{
    let mut items = Vec::with_capacity(alloc, resources.len())?;
    for resource in resources {
        items.push(item_value(alloc, kind, version, resource)?)?;
    }
    Ok(items)
}

// The item of a resource.
#[tactic(auto, unfolding(crate::specs::Delta::item_tree))]
fn item_value(
    alloc: Global,
    kind: Kind,
    version: &str,
    resource: &Value,
) -> Result<Value, AllocError>
    ensures { IfOk result (λ item. view item ≡ item_tree kind version.now (view resource.now)) }
{
    let name = resource_name(alloc, kind, resource)?;
    json!(in alloc; {"name": name, "resource": resource, "version": version})
}
