ghost use Rattle.std.specs.Prelude.{◌≡◌, ◌++◌, map, option_to_list, Some, IfOk, OnOk};
ghost use Rattle.std.specs.List.{filter_map};
ghost use Rattle.serde_json.specs.View.{view};
ghost use Rattle.ev_tree.specs.Forms.{tree_of};
ghost use Rattle.ev_expand.specs.Fronts.{event_of};
ghost use Rattle.ev_tls.specs.References.{own_name};
ghost use Rattle.ev_tls.specs.Told.{told_by, told_as, secrets_told, secrets_in, removed_name, endpoints_told, item_told};
ghost use Rattle.ev_cluster_json.specs.Made.{name_in};

use crate::awaited::{Awaited, endpoints, secrets};
use crate::names::{make_name, push_name};
use crate::references::own_name;
use ev_expand::message_of;
use ev_tree::member;
use ev_types::{Body, Event, Item, Kind, Name, Profile, Response, Text};
use serde_json::Value;
use std::alloc::{AllocError, Global};

/// The type of secrets.
const SECRETS: &str = "type.googleapis.com/envoy.extensions.transport_sockets.tls.v3.Secret";

// What comes with a line. The event is what it is read as.
pub(crate) fn told_by(
    alloc: Global,
    profile: Profile,
    line: &Value,
    event: &Option<Event>,
) -> Result<Vec<Awaited>, AllocError>
    requires { event.now ≡ event_of profile (view line.now) }
    ensures { IfOk result (λ told. told.items ≡ told_by profile (view line.now)) }
{
    match event {
        Some(Event::Response(response)) => told_as(alloc, response.get(), message_of(line)),
        _ => Ok(Vec::new(alloc)),
    }
}

// What comes with a response, by its kind.
fn told_as(
    alloc: Global,
    response: &Response,
    message: Option<&Value>,
) -> Result<Vec<Awaited>, AllocError>
    ensures { IfOk result (λ told. told.items ≡ told_as response.now.kind response.now (tree_of message.entry)) }
{
    match response.kind {
        None => secrets(alloc, secrets_told(alloc, message)?.as_slice()),
        Some(Kind::Eds) => endpoints(alloc, endpoints_told(alloc, response)?.as_slice()),
        Some(Kind::Cds | Kind::Lds | Kind::Rds | Kind::Sds | Kind::Ecds) => Ok(Vec::new(alloc)),
    }
}

// The secrets that come with a message, where it is one of secrets.
fn secrets_told(alloc: Global, message: Option<&Value>) -> Result<Vec<Name>, AllocError>
    ensures { IfOk result (λ names. names.items ≡ secrets_told (tree_of message.entry)) }
{
    let url = member::text(alloc, message, "type_url")?;
    if member::text_or_empty(url) != SECRETS {
        return Ok(Vec::new(alloc));
    }
    secrets_in(alloc, message)
}

// The secrets that come with a message of secrets.
fn secrets_in(alloc: Global, message: Option<&Value>) -> Result<Vec<Name>, AllocError>
    ensures { IfOk result (λ names. names.items ≡ secrets_in (tree_of message.entry)) }
{
    let mut names = Vec::new(alloc);
    let resources = member::list(alloc, message, "resources")?;
    push_own(alloc, &mut names, member::elements(resources))?;
    let removed = member::list(alloc, message, "removed_resources")?;
    push_removed(alloc, &mut names, member::elements(removed))?;
    Ok(names)
}

// Appends the names of these resources to these.
fn push_own(alloc: Global, names: &mut Vec<Name>, resources: &[Value]) -> Result<(), AllocError>
    ensures { OnOk result (names.new.items ≡ names.old.items ++ filter_map own_name (map view resources.now)) }
{
    for resource in resources {
        push_name(names, own_name(alloc, resource)?)?;
    }
    Ok(())
}

// Appends the removed names to these.
fn push_removed(alloc: Global, names: &mut Vec<Name>, removed: &[Value]) -> Result<(), AllocError>
    ensures { OnOk result (names.new.items ≡ names.old.items ++ filter_map removed_name (map view removed.now)) }
{
    for name in removed {
        push_name(names, removed_name(alloc, name)?)?;
    }
    Ok(())
}

// The name that an element of a list of removed names is.
fn removed_name(alloc: Global, name: &Value) -> Result<Option<Name>, AllocError>
    ensures { IfOk result (λ made. made ≡ removed_name (view name.now)) }
{
    match name.as_str() {
        Some(name) => make_name(alloc, name),
        None => Ok(None),
    }
}

// The names of endpoints that come with a response of endpoints.
fn endpoints_told(alloc: Global, response: &Response) -> Result<Vec<Name>, AllocError>
    ensures { IfOk result (λ names. names.items ≡ endpoints_told response.now) }
{
    let mut names = Vec::new(alloc);
    push_items(alloc, &mut names, response.items.as_slice())?;
    push_texts(alloc, &mut names, response.removed.as_slice())?;
    Ok(names)
}

// Appends the names that come with these resources to these.
fn push_items(alloc: Global, names: &mut Vec<Name>, items: &[Item]) -> Result<(), AllocError>
    ensures { OnOk result (names.new.items ≡ names.old.items ++ filter_map item_told items.now) }
{
    for item in items {
        push_name(names, name_told(alloc, item)?)?;
    }
    Ok(())
}

// Appends those of these texts that are names to these.
fn push_texts(alloc: Global, names: &mut Vec<Name>, texts: &[Text]) -> Result<(), AllocError>
    ensures { OnOk result (names.new.items ≡ names.old.items ++ filter_map name_in texts.now) }
{
    for text in texts {
        push_name(names, make_name(alloc, text.as_str())?)?;
    }
    Ok(())
}

// The name that comes with a resource, unless it is a heartbeat.
fn name_told(alloc: Global, item: &Item) -> Result<Option<Name>, AllocError>
    ensures { IfOk result (λ name. name ≡ item_told item.now) }
{
    match &item.body {
        Body::Good(_) => make_name(alloc, item.name.as_str()),
        Body::Bad(_) => make_name(alloc, item.name.as_str()),
        Body::Beat => Ok(None),
    }
}
