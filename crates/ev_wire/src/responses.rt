ghost use Rattle.std.specs.Prelude.{◌≡◌, ◌≤◌, length, map, Some, IfOk};
ghost use Rattle.serde_json.specs.View.{view};
ghost use Rattle.ev_types.specs.Items.{IsOwnName, IsBeating};
ghost use Rattle.ev_tree.specs.Forms.{text_in};
ghost use Rattle.ev_wire.specs.Responses.{Reads, given_if, is_entry, item_of, items_in, head_of, has_lists, parts_of, response_of};

use crate::bodies::{is_positive, read_body};
use crate::kinds::kind_with;
use crate::outcome::WireError;
use ev_tree::member;
use ev_types::{Body, Item, Kind, Profile, Response, Seq, Text};
use serde_json::Value;
use std::alloc::{AllocError, Global};

/// Reads a response of incremental xDS (`DeltaDiscoveryResponse`, by the proto3 JSON mapping): its type, its
/// nonce, its resources and the names of removed ones. All other fields are passed over. Of a type that the
/// profile doesn't read the type and the nonce alone are read.
///
/// A resource that breaks form rules stays in the response, with the least of them as its body. A resource without a
/// body whose `ttl` is positive is a heartbeat.
///
/// # Errors
/// `NotResponse` comes where the tree is no object, `nonce` is empty or one of the fields of the message itself
/// has a wrong form: `type_url` and `nonce` are texts, `removed_resources` is a list of texts, and `resources` a
/// list of objects whose `name` and `version` are texts. `OutOfMemory` comes without memory.
pub fn read_response(alloc: Global, profile: Profile, value: &Value) -> Result<Response, WireError>
    ensures { Reads result (response_of profile (view value.now)) }
{
    let Some(head) = read_head(alloc, profile, value)? else {
        return Err(WireError::NotResponse);
    };
    match head.kind {
        Some(kind) => read_lists(alloc, profile, kind, head.nonce, value),
        None => Ok(Response {
            kind: None,
            nonce: head.nonce,
            items: Seq::new(alloc),
            removed: Seq::new(alloc),
        }),
    }
}

// What a response of any type has.
#[derive(Drop)]
struct Head {
    kind: Option<Kind>,
    nonce: Text,
}

// The type and the nonce of a response, or none where they aren't those of one.
#[tactic(auto, unfolding(crate::specs::Responses::has_head, crate::specs::Responses::response_kind, crate::specs::Responses::nonce_of))]
fn read_head(alloc: Global, profile: Profile, value: &Value) -> Result<Option<Head>, AllocError>
    ensures { IfOk result (λ head. head ≡ head_of profile (view value.now)) }
{
    let url = member::text(alloc, Some(value), "type_url")?;
    let nonce = member::text(alloc, Some(value), "nonce")?;
    let nonce = member::text_or_empty(nonce);
    if !(value.is_object() & !url.is_wrong() & !(nonce.len() == 0)) {
        return Ok(None);
    }
    Ok(Some(Head {
        kind: kind_with(profile, member::text_or_empty(url)),
        nonce: Text::new(alloc, nonce)?,
    }))
}

// A response of a type that is read, with its lists.
#[tactic(auto, unfolding(crate::specs::Responses::has_lists))]
fn read_lists(
    alloc: Global,
    profile: Profile,
    kind: Kind,
    nonce: Text,
    value: &Value,
) -> Result<Response, WireError>
    requires { 1 ≤ length nonce }
    ensures { Reads result (given_if (has_lists (view value.now))
        (parts_of profile (Some kind) nonce (view value.now))) }
{
    let resources = member::objects(alloc, Some(value), "resources")?;
    let removed = member::texts(alloc, Some(value), "removed_resources")?;
    if resources.is_wrong() | removed.is_wrong() {
        return Err(WireError::NotResponse);
    }
    let items = read_items(alloc, profile, kind, member::elements(resources))?;
    let removed = read_texts(alloc, member::elements(removed))?;
    Ok(Response {
        kind: Some(kind),
        nonce,
        items,
        removed,
    })
}

// The resources of a response, in order.
fn read_items(
    alloc: Global,
    profile: Profile,
    kind: Kind,
    entries: &[Value],
) -> Result<Seq<Item>, WireError>
    ensures { Reads result (items_in profile kind (map view entries.now)) }
{
    let mut items = Vec::with_capacity(alloc, entries.len())?;
    for entry in entries {
        items.push(read_item(alloc, profile, kind, entry)?)?;
    }
    Ok(Seq::from_vec(items))
}

// A resource of a response.
#[tactic(auto, unfolding(crate::specs::Responses::is_entry, crate::specs::Responses::ttl_of, crate::specs::Responses::item_of))]
fn read_item(alloc: Global, profile: Profile, kind: Kind, entry: &Value) -> Result<Item, WireError>
    ensures { Reads result (given_if (is_entry (view entry.now)) (item_of profile kind (view entry.now))) }
{
    let name = member::text(alloc, Some(entry), "name")?;
    let version = member::text(alloc, Some(entry), "version")?;
    if !(!name.is_wrong() & !version.is_wrong()) {
        return Err(WireError::NotResponse);
    }
    let name = member::text_or_empty(name);
    let ttl = member::duration(alloc, Some(entry), "ttl")?;
    let resource = member::field(alloc, Some(entry), "resource")?;
    let body = read_body(alloc, profile, kind, name, ttl, resource)?;
    let version = member::text_or_empty(version);
    Ok(make_item(alloc, name, version, is_positive(ttl), body)?)
}

// The resource of these parts.
fn make_item(
    alloc: Global,
    name: &str,
    version: &str,
    ttl: bool,
    body: Body,
) -> Result<Item, AllocError>
    requires named { IsOwnName name.now body }
    requires beating { IsBeating ttl body }
    ensures { IfOk result (λ item. item ≡ record { name = name.now; version = version.now; ttl = ttl; body = body }) }
{
    let name = Text::new(alloc, name)?;
    let version = Text::new(alloc, version)?;
    Ok(Item {
        name,
        version,
        ttl,
        body,
    })
}

// The texts of a list of texts, in order.
fn read_texts(alloc: Global, values: &[Value]) -> Result<Seq<Text>, AllocError>
    ensures { IfOk result (λ texts. texts ≡ map text_in (map view values.now)) }
{
    let mut texts = Vec::with_capacity(alloc, values.len())?;
    for value in values {
        texts.push(Text::new(alloc, member::text_value(value))?)?;
    }
    Ok(Seq::from_vec(texts))
}
