ghost use Rattle.std.specs.Prelude.{◌≡◌, ◌<◌, map, length, is_some, option_map, codes, IfOk, IfSome, OnOk};
ghost use Rattle.std.specs.List.{list_any};
ghost use Rattle.serde_json.specs.Data.{array, string};
ghost use Rattle.serde_json.specs.View.{view, items_of};
ghost use Rattle.ev_expand.specs.Editing.{with_value};
ghost use Rattle.ev_expand.specs.Fronts.{event_of, message_of};
ghost use Rattle.ev_expand.specs.Guarding.{waiting_config, stripped_body, waiting_body, body_in, waiting_entry, kind_of, items_as, items_by, listed_as, clusters_by, place_in};
ghost use Rattle.ev_expand.specs.Numbers.{HasPlaces, TakesUp, TakesUpLine, guarded_so_far};
ghost use Rattle.ev_expand.specs.Placing.{IsPlaced, placed_entries};
ghost use Rattle.ev_tree.specs.Forms.{tree_of};

use crate::editing::{with_value, without};
use crate::expansion::Expansion;
use crate::following::{private_name, response_value};
use crate::fronts::message_of;
use crate::keys::Key;
use crate::numbers::Numbers;
use ev_tree::member;
use ev_types::{Event, Item, Kind, Profile, Response};
use serde_json::{Value, json};
use std::alloc::{AllocError, Global};

// The endpoints come on the stream by this name, and are waited for without limit.
fn waiting_config(alloc: Global, name: &str) -> Result<Value, AllocError>
    ensures { IfOk result (λ config. view config ≡ waiting_config name.now) }
{
    json!(in alloc; {
        "serviceName": name,
        "edsConfig": {"initialFetchTimeout": "0s", "ads": {}},
    })
}

// A cluster that waits for this name, and is otherwise the same.
fn waiting_body(alloc: Global, name: &str, body: &Value) -> Result<Value, AllocError>
    ensures { IfOk result (λ made. view made ≡ waiting_body name.now (view body.now)) }
{
    let body = eds_body(alloc, stripped_body(body)?)?;
    with_value(
        alloc,
        body,
        "edsClusterConfig",
        waiting_config(alloc, name)?,
    )
}

// The same cluster with the type EDS.
fn eds_body(alloc: Global, body: Value) -> Result<Value, AllocError>
    ensures { IfOk result (λ made. view made ≡ with_value (codes "type") (string (codes "EDS")) (view body)) }
{
    with_value(alloc, body, "type", json!(in alloc; "EDS")?)
}

// A cluster without its endpoints, in either spelling, and without the second spelling of the configuration of EDS.
fn stripped_body(body: &Value) -> Result<Value, AllocError>
    ensures { IfOk result (λ made. view made ≡ stripped_body (view body.now)) }
{
    let body = without(body.clone()?, "loadAssignment");
    let body = without(body, "load_assignment");
    Ok(without(body, "eds_cluster_config"))
}

// The body of a resource of a response.
fn body_in(alloc: Global, entry: &Value) -> Result<Value, AllocError>
    ensures { IfOk result (λ body. view body ≡ body_in (view entry.now)) }
{
    match entry.get("resource") {
        Some(body) => body.clone(),
        None => json!(in alloc; null),
    }
}

// A resource, with a body that waits by the number of this place, where there is one.
fn waiting_entry(
    alloc: Global,
    prefix: &str,
    place: Option<usize>,
    entry: &Value,
) -> Result<Value, AllocError>
    ensures { IfOk result (λ made. view made ≡ waiting_entry prefix.now place (view entry.now)) }
{
    let Some(place) = place else {
        return entry.clone();
    };
    let name = private_name(alloc, prefix, place)?;
    let body = waiting_body(alloc, name.as_str(), &body_in(alloc, entry)?)?;
    with_value(alloc, entry.clone()?, "resource", body)
}

// The resources, the guarded ones as they wait.
fn waiting_entries(
    alloc: Global,
    prefix: &str,
    entries: &[Value],
    places: &[Option<usize>],
) -> Result<Vec<Value>, AllocError>
    requires { length places.now ≡ length entries.now }
    ensures { IfOk result (λ made. map view made.items ≡ placed_entries prefix.now (map view entries.now) places.now) }
{
    let mut made = Vec::with_capacity(alloc, entries.len())?;
    for (index, entry) in entries.iter().enumerate() {
        made.push(waiting_entry(alloc, prefix, places[index], entry)?)?;
    }
    Ok(made)
}

// Whether a resource of a line is guarded, by the places of all.
fn has_guarded(places: &[Option<usize>]) -> bool
    ensures { result ≡ list_any is_some places.now }
{
    places.iter().any(|place| place.is_some())
}

// The message of a line, with these resources.
fn waiting_message(alloc: Global, line: &Value, entries: Vec<Value>) -> Result<Value, AllocError>
    ensures { IfOk result (λ made. view made
        ≡ with_value (codes "resources") (array (items_of (map view entries.items))) (message_of (view line.now))) }
{
    let message = match line.get("message") {
        Some(message) => message.clone()?,
        None => json!(in alloc; null)?,
    };
    with_value(alloc, message, "resources", Value::Array(entries))
}

// A line with its guarded resources as they wait, where it has some. The event is what the line is read as.
pub(crate) fn waiting_value(
    alloc: Global,
    prefix: &str,
    line: &Value,
    event: &Option<Event>,
    places: &[Option<usize>],
) -> Result<Option<Value>, AllocError>
    requires { length places.now ≡ length (clusters_by event.now (view line.now)) }
    ensures { IfOk result (IsPlaced prefix.now (clusters_by event.now (view line.now)) (view line.now) places.now) }
{
    if !has_guarded(places) {
        return Ok(None);
    }
    let entries = clusters_by(alloc, event, line)?;
    let entries = waiting_entries(alloc, prefix, entries, places)?;
    let message = waiting_message(alloc, line, entries)?;
    Ok(Some(response_value(alloc, message)?))
}

// The resources of clusters of a line, where it is a response of some.
fn clusters_by<'a>(
    alloc: Global,
    event: &Option<Event>,
    line: &'a Value,
) -> Result<&'a [Value], AllocError>
    ensures { IfOk result (λ entries. map view entries.now ≡ clusters_by event.now (view line.now)) }
{
    listed_as(alloc, kind_of(event), message_of(line))
}

// The resources of a message, where it is one of clusters.
#[tactic(auto, unfolding(ev_wire::specs::Responses::entries_of))]
fn listed_as<'a>(
    alloc: Global,
    kind: Option<Kind>,
    message: Option<&'a Value>,
) -> Result<&'a [Value], AllocError>
    ensures { IfOk result (λ entries. map view entries.now ≡ listed_as kind (tree_of message.entry)) }
{
    match kind {
        Some(Kind::Cds) => Ok(member::elements(member::objects(alloc, message, "resources")?)),
        Some(Kind::Eds | Kind::Lds | Kind::Rds | Kind::Sds | Kind::Ecds) | None => Ok(&[]),
    }
}

// The kind of the response that an event is.
fn kind_of(event: &Option<Event>) -> Option<Kind>
    ensures { result ≡ kind_of event.now }
{
    match event {
        Some(Event::Response(response)) => response.get().kind,
        _ => None,
    }
}

// The resources of clusters of an event, as they are read.
fn items_by(event: &Option<Event>) -> &[Item]
    ensures { result.now ≡ items_by event.now }
{
    match event {
        Some(Event::Response(response)) => response_items(response.get()),
        _ => &[],
    }
}

fn response_items(response: &Response) -> &[Item]
    ensures { result.now ≡ items_as response.now.kind response.now.items }
{
    match response.kind {
        Some(Kind::Cds) => response.items.as_slice(),
        Some(Kind::Eds | Kind::Lds | Kind::Rds | Kind::Sds | Kind::Ecds) | None => &[],
    }
}

// The places of the keys of a line's resources of clusters, where they are guarded. A new key goes after the others.
// The event is what the line is read as.
pub(crate) fn places_in<E: Expansion>(
    alloc: Global,
    profile: Profile,
    expansion: &E,
    numbers: &mut Numbers,
    line: &Value,
    event: &Option<Event>,
) -> Result<Vec<Option<usize>>, AllocError>
    requires { event.now ≡ event_of (E.rules profile).guard.profile (view line.now) }
    ensures numbers { OnOk result (TakesUpLine (E.rules profile).guard (view line.now) numbers.old numbers.new) }
    ensures places { IfOk result (HasPlaces (E.rules profile).guard (view line.now) numbers.new) }
{
    let entries = clusters_by(alloc, event, line)?;
    let items = items_by(event);
    let mut places = Vec::with_capacity(alloc, entries.len())?;
    for (index, entry) in entries.iter().enumerate() {
        let key = expansion.key(alloc, profile, &items[index], entry)?;
        places.push(place_entry(alloc, profile, expansion, numbers, key, entry)?)?;
    }
    Ok(places)
}

// The place of a resource of this key, where it is guarded. A new key goes after the others.
fn place_entry<E: Expansion>(
    alloc: Global,
    profile: Profile,
    expansion: &E,
    numbers: &mut Numbers,
    key: Option<Key>,
    entry: &Value,
) -> Result<Option<usize>, AllocError>
    ensures numbers { OnOk result (TakesUp (E.rules profile).guard key (view entry.now) numbers.old numbers.new) }
    ensures place { IfOk result (λ place. place ≡ option_map (place_in (guarded_so_far numbers.new)) key) }
    ensures within { IfOk result (λ place. IfSome place (λ p. p < length (guarded_so_far numbers.new))) }
{
    let Some(key) = key else {
        return Ok(None);
    };
    if let Some(place) = numbers.find(&key) {
        return Ok(Some(place));
    }
    let place = numbers.len();
    let own = expansion.own(alloc, profile, entry)?;
    numbers.push(alloc, key, &own)?;
    Ok(Some(place))
}
