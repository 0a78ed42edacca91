ghost use Rattle.std.specs.Prelude.{◌≡◌, map, IfOk, OnOk};
ghost use Rattle.serde_json.specs.Data.{string, array, object, no_members};
ghost use Rattle.serde_json.specs.View.{view, items_of};
ghost use Rattle.ev_wire.specs.Requests.{request_tree, request_text, Puts, with_nonce, with_names, with_node, with_versions, version_members, with_error};

use ev_types::{Name, Request, Seq, Text};
use serde_json::{Map, Value, json, put};
use std::alloc::{AllocError, Global};

/// The text of a request: its tree without spaces, as it is on the wire and in a journal. Strings are
/// escaped as `serde_json` does it.
#[tactic(auto, using(crate::proofs::RequestLemmas::request_whole))]
pub fn write_request(alloc: Global, request: &Request) -> Result<Vec<u8>, AllocError>
    ensures { IfOk result (λ text. text.items ≡ request_text request.now) }
{
    request_value(alloc, request)?.to_vec(alloc)
}

/// A request as an object: a `DeltaDiscoveryRequest` by the proto3 JSON mapping. Members are in the order of
/// bytes, and empty ones are left out.
pub fn request_value(alloc: Global, request: &Request) -> Result<Value, AllocError>
    ensures { IfOk result (λ v. view v ≡ request_tree request.now) }
{
    let mut members = Map::new(alloc);
    put(
        &mut members,
        alloc,
        "typeUrl",
        json!(in alloc; request.kind.type_url())?,
    )?;
    put_nonce(alloc, &mut members, &request.nonce)?;
    put_names(
        alloc,
        &mut members,
        "resourceNamesUnsubscribe",
        &request.unsubscribe,
    )?;
    put_names(
        alloc,
        &mut members,
        "resourceNamesSubscribe",
        &request.subscribe,
    )?;
    put_node(alloc, &mut members, &request.node)?;
    put_versions(alloc, &mut members, &request.versions)?;
    put_error(alloc, &mut members, &request.error)?;
    Ok(Value::Object(members))
}

type Members = Map<String, Value>;

// Puts the nonce, where there is one that isn't empty.
#[tactic(auto, using(crate::proofs::RequestLemmas::nonce_given))]
fn put_nonce(alloc: Global, members: &mut Members, nonce: &Option<Text>) -> Result<(), AllocError>
    ensures { OnOk result (Puts (with_nonce nonce.now) members.old.entries members.new.entries) }
{
    if let Some(nonce) = nonce {
        let nonce = nonce.as_str();
        if nonce.len() != 0 {
            put(members, alloc, "responseNonce", json!(in alloc; nonce)?)?;
        }
    }
    Ok(())
}

// Puts names, where there are any.
fn put_names(
    alloc: Global,
    members: &mut Members,
    key: &str,
    names: &Seq<Name>,
) -> Result<(), AllocError>
    ensures { OnOk result (Puts (with_names key.now names.now) members.old.entries members.new.entries) }
{
    if names.len() != 0 {
        put(members, alloc, key, name_values(alloc, names.as_slice())?)?;
    }
    Ok(())
}

// Puts the node by its id, where one is given.
fn put_node(alloc: Global, members: &mut Members, node: &Option<Text>) -> Result<(), AllocError>
    ensures { OnOk result (Puts (with_node node.now) members.old.entries members.new.entries) }
{
    if let Some(id) = node {
        put(
            members,
            alloc,
            "node",
            json!(in alloc; {"id": id.as_str()})?,
        )?;
    }
    Ok(())
}

// Puts the versions that are held, where there are any.
#[tactic(auto, using(crate::proofs::RequestLemmas::versions_given))]
fn put_versions(
    alloc: Global,
    members: &mut Members,
    versions: &Seq<(Name, Text)>,
) -> Result<(), AllocError>
    ensures { OnOk result (Puts (with_versions versions.now) members.old.entries members.new.entries) }
{
    if versions.len() != 0 {
        let held = version_values(alloc, versions.as_slice())?;
        put(members, alloc, "initialResourceVersions", held)?;
    }
    Ok(())
}

// An object from name to version.
fn version_values(alloc: Global, versions: &[(Name, Text)]) -> Result<Value, AllocError>
    ensures { IfOk result (λ v. view v ≡ object (version_members versions.now no_members)) }
{
    let mut held = Map::new(alloc);
    for (name, version) in versions {
        put(
            &mut held,
            alloc,
            name.as_str(),
            json!(in alloc; version.as_str())?,
        )?;
    }
    Ok(Value::Object(held))
}

// Puts the reason of a refusal, where there is one.
fn put_error(alloc: Global, members: &mut Members, error: &Option<Text>) -> Result<(), AllocError>
    ensures { OnOk result (Puts (with_error error.now) members.old.entries members.new.entries) }
{
    if let Some(message) = error {
        let detail = json!(in alloc; {"code": 13, "message": message.as_str()})?;
        put(members, alloc, "errorDetail", detail)?;
    }
    Ok(())
}

// An array of names.
fn name_values(alloc: Global, names: &[Name]) -> Result<Value, AllocError>
    ensures { IfOk result (λ v. view v ≡ array (items_of (map string names.now))) }
{
    let mut values = Vec::with_capacity(alloc, names.len())?;
    for name in names {
        values.push(json!(in alloc; name.as_str())?)?;
    }
    Ok(Value::Array(values))
}
