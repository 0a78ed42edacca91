ghost use Rattle.std.specs.Prelude.{◌≡◌, ◌++◌, map, option_to_list, Some, IfOk, OnOk};
ghost use Rattle.serde_json.specs.View.{view};
ghost use Rattle.ev_tree.specs.Forms.{tree_of};
ghost use Rattle.ev_types.specs.declared.contents.Kind.TheVariants.{Eds};
ghost use Rattle.ev_types.specs.declared.events.Event.TheVariants.{Response as a_response};
ghost use Rattle.ev_wire.specs.Responses.{item_of, entries_of};
ghost use Rattle.ev_expand.specs.Fronts.{event_of};
ghost use Rattle.ev_tls.specs.Told.{values_in, given_in, given_among, value_given, gives_value, is_good, value_shown};

use crate::references::{body_in, endpoints_in};
use ev_expand::message_of;
use ev_lookups::Mentions;
use ev_tree::member;
use ev_types::{Body, Event, Item, Kind, Name, Profile, Response};
use serde_json::Value;
use std::alloc::{AllocError, Global};

// The values that a line gives, by name. The event is what the line is read as.
pub(crate) fn values_in(
    alloc: Global,
    profile: Profile,
    line: &Value,
    event: &Option<Event>,
) -> Result<Vec<(Name, Value)>, AllocError>
    requires { event.now ≡ event_of profile (view line.now) }
    ensures { IfOk result (λ values. map value_shown values.items ≡ values_in profile (view line.now)) }
{
    match event {
        Some(event) => event_values(alloc, profile, line, event),
        None => Ok(Vec::new(alloc)),
    }
}

fn event_values(
    alloc: Global,
    profile: Profile,
    line: &Value,
    event: &Event,
) -> Result<Vec<(Name, Value)>, AllocError>
    requires { event_of profile (view line.now) ≡ Some event.now }
    ensures { IfOk result (λ values. map value_shown values.items ≡ values_in profile (view line.now)) }
{
    match event {
        Event::Response(response) => response_values(alloc, profile, line, response.get()),
        _ => Ok(Vec::new(alloc)),
    }
}

fn response_values(
    alloc: Global,
    profile: Profile,
    line: &Value,
    response: &Response,
) -> Result<Vec<(Name, Value)>, AllocError>
    requires { event_of profile (view line.now) ≡ Some (a_response response.now) }
    ensures { IfOk result (λ values. map value_shown values.items ≡ values_in profile (view line.now)) }
{
    match response.kind {
        Some(kind) => kind_values(alloc, profile, line, response, kind),
        None => Ok(Vec::new(alloc)),
    }
}

fn kind_values(
    alloc: Global,
    profile: Profile,
    line: &Value,
    response: &Response,
    kind: Kind,
) -> Result<Vec<(Name, Value)>, AllocError>
    requires event { event_of profile (view line.now) ≡ Some (a_response response.now) }
    requires kind { response.now.kind ≡ Some kind }
    ensures { IfOk result (λ values. map value_shown values.items ≡ values_in profile (view line.now)) }
{
    match kind {
        Kind::Eds => endpoint_values(alloc, profile, response, message_of(line)),
        Kind::Cds | Kind::Lds | Kind::Rds | Kind::Sds | Kind::Ecds => Ok(Vec::new(alloc)),
    }
}

// The values that a response of endpoints gives.
fn endpoint_values(
    alloc: Global,
    profile: Profile,
    response: &Response,
    message: Option<&Value>,
) -> Result<Vec<(Name, Value)>, AllocError>
    requires { response.now.items ≡ map (item_of profile Eds) (entries_of (tree_of message)) }
    ensures { IfOk result (λ values. map value_shown values.items
        ≡ given_in profile response.now (tree_of message.entry)) }
{
    let entries = entries_of(alloc, message)?;
    let mentions = Mentions::of(alloc, response)?;
    entry_values(alloc, profile, &mentions, items_of(response), entries)
}

// The resources of a message.
#[tactic(auto, unfolding(ev_wire::specs::Responses::entries_of))]
fn entries_of(alloc: Global, message: Option<&Value>) -> Result<&[Value], AllocError>
    ensures { IfOk result (λ entries. map view entries.now ≡ entries_of (tree_of message.entry)) }
{
    Ok(member::elements(member::objects(alloc, message, "resources")?))
}

// The resources of a response, as they are read.
fn items_of(response: &Response) -> &[Item]
    ensures { result.now ≡ response.now.items }
{
    response.items.as_slice()
}

// The values of these resources, which are read as these.
fn entry_values(
    alloc: Global,
    profile: Profile,
    mentions: &Mentions<'_>,
    items: &[Item],
    entries: &[Value],
) -> Result<Vec<(Name, Value)>, AllocError>
    requires { items.now ≡ map (item_of profile Eds) (map view entries.now) }
    ensures { IfOk result (λ values. map value_shown values.items
        ≡ given_among profile mentions.now (map view entries.now)) }
{
    let mut values = Vec::new(alloc);
    for (index, entry) in entries.iter().enumerate() {
        push_value(alloc, profile, &mut values, mentions, &items[index], entry)?;
    }
    Ok(values)
}

// Appends the value that a resource gives to these, where it gives one.
fn push_value(
    alloc: Global,
    profile: Profile,
    values: &mut Vec<(Name, Value)>,
    mentions: &Mentions<'_>,
    item: &Item,
    entry: &Value,
) -> Result<(), AllocError>
    requires { item.now ≡ item_of profile Eds (view entry.now) }
    ensures { OnOk result (map value_shown values.new.items
        ≡ map value_shown values.old.items ++ option_to_list (value_given profile mentions.now (view entry.now))) }
{
    if !gives_value(mentions, item) {
        return Ok(());
    }
    let name = item.resource_name(alloc)?;
    values.push((name, endpoints_in(alloc, body_in(entry))?))?;
    Ok(())
}

// Whether a resource gives its name a value.
fn gives_value(mentions: &Mentions<'_>, item: &Item) -> bool
    ensures { result ≡ gives_value mentions.now item.now }
{
    let name = item.name.as_str();
    is_good(&item.body) && !mentions.is_twice(name) && !mentions.is_listed(name)
}

// Whether a body is good.
fn is_good(body: &Body) -> bool
    ensures { result ≡ is_good body.now }
{
    match body {
        Body::Good(_) => true,
        Body::Bad(_) => false,
        Body::Beat => false,
    }
}
