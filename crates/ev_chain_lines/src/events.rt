ghost use Rattle.std.specs.Prelude.{◌≡◌, option_map, codes, Option};
ghost use Rattle.serde_json.specs.View.{view};
ghost use Rattle.ev_tree.specs.Forms.{object_in};
ghost use Rattle.ev_script.specs.Members.{member_of};
ghost use Rattle.ev_chains.specs.Events.{seen};
ghost use Rattle.ev_chain_lines.specs.Lines.{header_of, event_of, event_by, listener_event, accept_event, asked_in, close_event, conn_in, port_in, server_in, bare_event};

use crate::event_line::EventLine;
use crate::limits::{MAX_NUMBER, MAX_PORT_NUMBER};
use ev_chains::ChainEvent;
use ev_script::{
    FormedHead, FormedLine, Forms, Settings, flag_at, has_only, number_at, text_or, word_at,
};
use ev_types::{MAX_NAME_LENGTH, Profile};
use serde_json::Value;
use std::alloc::{AllocError, Global};

/// The lines of an input of filter chains, each kept as the text of its event.
#[derive(Clone, Copy, Debug)]
pub struct ChainLines;

impl Forms for ChainLines {
    ghost use Rattle.std.specs.Prelude.{Some, ⊤};
    ghost use Rattle.ev_chain_lines.specs.Lines.{chain_lines, event_of, event_told};

    type Head = ();

    type Kept = EventLine;

    ghost forms = { chain_lines };

    ghost keeps_head = { λ tree head. ⊤ };

    ghost keeps = { λ profile at tree line. event_of tree ≡ Some (event_told line) };

    fn read_head(&self, _alloc: Global, tree: Value) -> Result<Option<FormedHead<()>>, AllocError> {
        match header(&tree) {
            Some(settings) => Ok(Some(FormedHead { kept: (), settings })),
            None => Ok(None),
        }
    }

    fn read(
        &self,
        alloc: Global,
        _profile: Profile,
        _at: u32,
        text: &[u8],
        tree: Value,
    ) -> Result<Option<FormedLine<EventLine>>, AllocError> {
        if read_event(&tree).is_none() {
            return Ok(None);
        }
        Ok(Some(FormedLine {
            kept: EventLine::new(alloc, text)?,
            worker: None,
        }))
    }
}

// What a header sets, where the tree is one: no workers, and the project's own profile.
fn header(tree: &Value) -> Option<Settings>
    ensures { result ≡ header_of (view tree.now) }
{
    if !has_only(tree, &["chains"]) {
        return None;
    }
    match flag_at(tree, "chains") {
        Some(true) => Some(Settings {
            workers: 0,
            profile: Profile::Own,
        }),
        _ => None,
    }
}

/// The event that a line's tree is, or none where it isn't one: its operation, or one of its members, hasn't its form.
pub fn read_event(tree: &Value) -> Option<ChainEvent<'_>>
    ensures { option_map seen result ≡ event_of (view tree.now) }
{
    match word_at(tree, "op") {
        Some(op) => event_by(op, tree),
        None => None,
    }
}

// The event of an operation.
fn event_by<'a>(op: &str, tree: &'a Value) -> Option<ChainEvent<'a>>
    ensures { option_map seen result ≡ event_by op.now (view tree.now) }
{
    match op {
        "listener" => listener_event(tree),
        "accept" => accept_event(tree),
        "close" => close_event(tree),
        "drainTimeout" => bare_event(ChainEvent::DrainTimeout, tree),
        "reap" => bare_event(ChainEvent::Reap, tree),
        _ => None,
    }
}

// A `listener`: the listener comes in a version.
fn listener_event(tree: &Value) -> Option<ChainEvent<'_>>
    ensures { option_map seen result ≡ listener_event (view tree.now) }
{
    if !has_only(tree, &["op", "message"]) {
        return None;
    }
    match message_in(tree) {
        Some(message) => Some(ChainEvent::Listener(message)),
        None => None,
    }
}

// The message of a listener, which is an object.
fn message_in(tree: &Value) -> Option<&Value>
    ensures { option_map (λ message. view message.now) result ≡ member_of object_in (codes "message") (view tree.now) }
{
    let message = tree.get("message")?;
    if message.is_object() {
        Some(message)
    } else {
        None
    }
}

// An `accept`: a connection comes.
fn accept_event(tree: &Value) -> Option<ChainEvent<'_>>
    ensures { option_map seen result ≡ accept_event (view tree.now) }
{
    if !has_only(tree, &["op", "conn", "port", "serverName"]) {
        return None;
    }
    asked_in(tree)
}

// A connection's number, port and server.
fn asked_in(tree: &Value) -> Option<ChainEvent<'_>>
    ensures { option_map seen result ≡ asked_in (view tree.now) }
{
    let conn = number_at(tree, "conn", 0, MAX_NUMBER)?;
    let port = number_at(tree, "port", 0, MAX_PORT_NUMBER)?;
    let server = text_or(tree, "serverName", 0, MAX_NAME_LENGTH, "")?;
    Some(ChainEvent::Accept {
        conn,
        port: port as u16,
        server,
    })
}

// A `close`: a connection closes.
fn close_event(tree: &Value) -> Option<ChainEvent<'_>>
    ensures { option_map seen result ≡ close_event (view tree.now) }
{
    if !has_only(tree, &["op", "conn"]) {
        return None;
    }
    match number_at(tree, "conn", 0, MAX_NUMBER) {
        Some(conn) => Some(ChainEvent::Close(conn)),
        None => None,
    }
}

// An operation without members.
fn bare_event<'a>(event: ChainEvent<'a>, tree: &'a Value) -> Option<ChainEvent<'a>>
    ensures { option_map seen result ≡ bare_event (seen event.entry) (view tree.now) }
{
    if has_only(tree, &["op"]) {
        Some(event)
    } else {
        None
    }
}
