ghost use Rattle.std.specs.Prelude.{◌≡◌, ◌++◌, ◌∷◌, [], List, map, filter_map, option_map, IfOk, OnOk, string_bytes};
ghost use Rattle.serde_json.specs.Data.{string};
ghost use Rattle.serde_json.specs.View.{view};
ghost use Rattle.ev_expand.specs.Following.{PutsList, endpoints_entry, entry_due, name_due, following_at, due_shown};
ghost use Rattle.ev_expand.specs.Guarding.{private_name, response_tree};

use serde_json::{Map, Value, json, put};
use std::alloc::{AllocError, Global};

// The type of endpoints.
const ENDPOINTS: &str = "type.googleapis.com/envoy.config.endpoint.v3.ClusterLoadAssignment";

/// Something guarded that is due, by its place, and its endpoints, where there are some.
#[derive(Drop)]
pub struct Due {
    /// From 0; the number is one above it.
    pub place: usize,
    /// The list of its endpoints.
    pub endpoints: Option<Value>,
}

// The name by which the endpoints of a place are asked for.
pub(crate) fn private_name(alloc: Global, prefix: &str, place: usize) -> Result<String, AllocError>
    ensures { IfOk result (λ name. string_bytes name ≡ private_name prefix.now place) }
{
    let Some(number) = place.checked_add(1) else {
        return Err(AllocError);
    };
    format!(in alloc; "{prefix}{number}")
}

// A line of a response of this message.
pub(crate) fn response_value(alloc: Global, message: Value) -> Result<Value, AllocError>
    ensures { IfOk result (λ line. view line ≡ response_tree (view message)) }
{
    json!(in alloc; {"op": "response", "message": message})
}

// The line that follows a line of this version, where these are due.
pub(crate) fn following_value(
    alloc: Global,
    prefix: &str,
    nonce: &str,
    at: u32,
    due: Vec<Due>,
) -> Result<Value, AllocError>
    ensures { IfOk result (λ line. view line ≡ following_at prefix.now nonce.now at due.items) }
{
    let version = format!(in alloc; "{at}")?;
    let mut resources = Vec::new(alloc);
    let mut removed = Vec::new(alloc);
    sort_out(
        alloc,
        prefix,
        version.as_str(),
        due,
        &mut resources,
        &mut removed,
    )?;
    let mut members = Map::new(alloc);
    let nonce = format!(in alloc; "{nonce}{at}")?;
    put(&mut members, alloc, "nonce", Value::String(nonce))?;
    put(&mut members, alloc, "typeUrl", json!(in alloc; ENDPOINTS)?)?;
    put_list(alloc, &mut members, "removedResources", removed)?;
    put_list(alloc, &mut members, "resources", resources)?;
    response_value(alloc, Value::Object(members))
}

// Puts a list of these, where there are any.
fn put_list(
    alloc: Global,
    members: &mut Map<String, Value>,
    name: &str,
    values: Vec<Value>,
) -> Result<(), AllocError>
    ensures { OnOk result (PutsList name.now values.items members.old.entries members.new.entries) }
{
    if values.len() != 0 {
        put(members, alloc, name, Value::Array(values))?;
    }
    Ok(())
}

// Sorts those that are due into the resources with endpoints and the removed names.
fn sort_out(
    alloc: Global,
    prefix: &str,
    version: &str,
    due: Vec<Due>,
    resources: &mut Vec<Value>,
    removed: &mut Vec<Value>,
) -> Result<(), AllocError>
    ensures resources { OnOk result (map view resources.new.items
        ≡ map view resources.old.items ++ filter_map (entry_due prefix.now version.now) (map due_shown due.items)) }
    ensures removed { OnOk result (map view removed.new.items
        ≡ map view removed.old.items ++ filter_map (name_due prefix.now) (map due_shown due.items)) }
{
    for Due { place, endpoints } in due {
        let name = private_name(alloc, prefix, place)?;
        match endpoints {
            Some(endpoints) => {
                resources.push(endpoints_entry(alloc, name, version, endpoints)?)?;
            }
            None => {
                removed.push(name_value(name))?;
            }
        }
    }
    Ok(())
}

// A name as a value.
fn name_value(name: String) -> Value
    ensures { view result ≡ string (string_bytes name) }
{
    Value::String(name)
}

// The resource with these endpoints.
fn endpoints_entry(
    alloc: Global,
    name: String,
    version: &str,
    endpoints: Value,
) -> Result<Value, AllocError>
    ensures { IfOk result (λ entry. view entry ≡ endpoints_entry version.now (string_bytes name) (view endpoints)) }
{
    json!(in alloc; {
        "version": version,
        "resource": {"endpoints": endpoints, "clusterName": name.as_str(), "@type": ENDPOINTS},
        "name": name.as_str(),
    })
}
