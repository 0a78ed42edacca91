ghost use Rattle.std.specs.Prelude.{◌≡◌, option_map, option_and_then, codes, IfOk};
ghost use Rattle.serde_json.specs.View.{view};
ghost use Rattle.ev_wire.specs.Responses.{response_of};
ghost use Rattle.ev_script.specs.Members.{member_of};
ghost use Rattle.ev_script.specs.StreamLines.{connect_line, disconnect_line, response_line};
ghost use Rattle.ev_types.specs.declared.events.Event.TheVariants.{Response as response_event};

use crate::line_forms::line_at;
use crate::members::has_only;
use ev_types::{Actor, Event, Line, Profile, Response, Shared};
use ev_wire::{WireError, read_response};
use serde_json::Value;
use std::alloc::{AllocError, Global};

// A `connect`: the stream opens.
pub(crate) fn connect_line(at: u32, tree: &Value) -> Option<Line>
    ensures { result ≡ connect_line at (view tree.now) }
{
    if !has_only(tree, &["op"]) {
        return None;
    }
    line_at(at, Actor::Stream, Some(Event::Connect))
}

// A `disconnect`: the stream is lost.
pub(crate) fn disconnect_line(at: u32, tree: &Value) -> Option<Line>
    ensures { result ≡ disconnect_line at (view tree.now) }
{
    if !has_only(tree, &["op"]) {
        return None;
    }
    line_at(at, Actor::Stream, Some(Event::Disconnect))
}

// A `response`: a message comes on the stream.
pub(crate) fn response_line(
    alloc: Global,
    profile: Profile,
    at: u32,
    tree: &Value,
) -> Result<Option<Line>, AllocError>
    ensures { IfOk result (λ line. line ≡ response_line profile at (view tree.now)) }
{
    if !has_only(tree, &["op", "message"]) {
        return Ok(None);
    }
    let event = response_event(alloc, read_message(alloc, profile, tree.get("message"))?)?;
    Ok(line_at(at, Actor::Stream, event))
}

// The event of a response, where there is one.
fn response_event(alloc: Global, response: Option<Response>) -> Result<Option<Event>, AllocError>
    ensures { IfOk result (λ event. event ≡ option_map (λ response. response_event response) response) }
{
    match response {
        Some(response) => Ok(Some(Event::Response(Shared::new(alloc, response)?))),
        None => Ok(None),
    }
}

// The response that a message is, whose resources are read by the profile.
fn read_message(
    alloc: Global,
    profile: Profile,
    message: Option<&Value>,
) -> Result<Option<Response>, AllocError>
    ensures { IfOk result (λ response. response
        ≡ option_and_then (response_of profile) (option_map (λ message. view message.now) message.entry)) }
{
    let Some(message) = message else {
        return Ok(None);
    };
    match read_response(alloc, profile, message) {
        Ok(response) => Ok(Some(response)),
        Err(WireError::NotResponse) => Ok(None),
        Err(WireError::OutOfMemory) => Err(AllocError),
    }
}
