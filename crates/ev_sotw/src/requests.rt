ghost use Rattle.std.specs.Prelude.{◌≡◌, codes, map, IfOk, OnOk};
ghost use Rattle.serde_json.specs.Data.{array};
ghost use Rattle.serde_json.specs.View.{view, items_of};
ghost use Rattle.ev_wire.specs.Requests.{Puts, with_names, with_node, with_error};
ghost use Rattle.ev_sotw.specs.Stated.{with_text, sotw_request};

use crate::NameSet;
use crate::known::TypeSoFar;
use ev_types::{Request, Text};
use serde_json::{Map, Value, json, put};
use std::alloc::{AllocError, Global};

type Members = Map<String, Value>;

// A request of the state of the world, by what is known of its type.
#[tactic(auto, unfolding(crate::specs::Stated::sotw_request))]
pub(crate) fn sotw_request(
    alloc: Global,
    known: &TypeSoFar,
    request: &Request,
) -> Result<Value, AllocError>
    ensures { IfOk result (λ made. view made ≡ sotw_request known.now request.now) }
{
    let mut members = Map::new(alloc);
    let url = json!(in alloc; request.kind.type_url())?;
    put(&mut members, alloc, "typeUrl", url)?;
    put_text(alloc, &mut members, "responseNonce", known.nonce())?;
    put_names(alloc, &mut members, known.names())?;
    put_node(alloc, &mut members, &request.node)?;
    put_error(alloc, &mut members, &request.error)?;
    put_text(alloc, &mut members, "versionInfo", known.version())?;
    Ok(Value::Object(members))
}

// Puts a text, where it isn't empty.
#[tactic(auto, using(crate::proofs::MemberLemmas::text_given))]
fn put_text(alloc: Global, members: &mut Members, key: &str, text: &str) -> Result<(), AllocError>
    ensures { OnOk result (Puts (with_text key.now text.now) members.old.entries members.new.entries) }
{
    if text.len() != 0 {
        put(members, alloc, key, json!(in alloc; text)?)?;
    }
    Ok(())
}

// Puts the names that are asked for, where there are any.
fn put_names(alloc: Global, members: &mut Members, names: &NameSet) -> Result<(), AllocError>
    ensures { OnOk result (Puts (with_names (codes "resourceNames") names.now) members.old.entries
        members.new.entries) }
{
    let values = names.values(alloc)?;
    if values.len() != 0 {
        put(members, alloc, "resourceNames", array_of(values))?;
    }
    Ok(())
}

// An array of values.
fn array_of(values: Vec<Value>) -> Value
    ensures { view result ≡ array (items_of (map view values.items)) }
{
    Value::Array(values)
}

// Puts the node by its id, where one is given.
fn put_node(alloc: Global, members: &mut Members, node: &Option<Text>) -> Result<(), AllocError>
    ensures { OnOk result (Puts (with_node node.now) members.old.entries members.new.entries) }
{
    if let Some(id) = node {
        let id = json!(in alloc; {"id": id.as_str()})?;
        put(members, alloc, "node", id)?;
    }
    Ok(())
}

// Puts the reason of a refusal, where there is one.
fn put_error(alloc: Global, members: &mut Members, error: &Option<Text>) -> Result<(), AllocError>
    ensures { OnOk result (Puts (with_error error.now) members.old.entries members.new.entries) }
{
    if let Some(message) = error {
        let detail = json!(in alloc; {"code": 13, "message": message.as_str()})?;
        put(members, alloc, "errorDetail", detail)?;
    }
    Ok(())
}
