ghost use Rattle.std.specs.Prelude.{◌≡◌, ◌∷◌, codes, option_map, IfOk};
ghost use Rattle.serde_json.specs.View.{view};
ghost use Rattle.ev_types.specs.declared.events.Event.TheVariants.{Close};
ghost use Rattle.ev_script.specs.Members.{has_only};
ghost use Rattle.ev_script.specs.WorkerLines.{worker_in, worker_line, accept_members, accept_in, accept_line, close_line, settle_line};

use crate::asks::{ask_in, conn_in};
use crate::limits::MAX_WORKER;
use crate::line_forms::line_at;
use crate::members::{has_only, number_at};
use ev_types::{Actor, Event, Line, Profile, Shared};
use serde_json::Value;
use std::alloc::{AllocError, Global};

// An `accept`: a worker accepts a connection.
pub(crate) fn accept_line(
    alloc: Global,
    profile: Profile,
    at: u32,
    tree: &Value,
) -> Result<Option<Line>, AllocError>
    ensures { IfOk result (λ line. line ≡ accept_line profile at (view tree.now)) }
{
    if !has_accept_members(profile, tree) {
        return Ok(None);
    }
    let event = accept_in(alloc, tree)?;
    Ok(worker_line(at, event, tree))
}

// Whether a line has only the members of an accept.
fn has_accept_members(profile: Profile, tree: &Value) -> bool
    ensures { result ≡ has_only (codes "op" ∷ accept_members profile) (view tree.now) }
{
    match profile {
        Profile::Own => has_only(
            tree,
            &[
                "op", "worker", "conn", "address", "port", "host", "path", "pick",
            ],
        ),
        Profile::Envoy => has_only(
            tree,
            &[
                "op",
                "worker",
                "conn",
                "address",
                "port",
                "host",
                "path",
                "pick",
                "source",
                "redirectedTo",
                "serverName",
                "tls",
                "alpn",
                "headers",
            ],
        ),
    }
}

// The event of what a connection asks for, where there is one.
fn accept_in(alloc: Global, tree: &Value) -> Result<Option<Event>, AllocError>
    ensures { IfOk result (λ event. event ≡ accept_in (view tree.now)) }
{
    match ask_in(alloc, tree)? {
        Some(ask) => Ok(Some(Event::Accept(Shared::new(alloc, ask)?))),
        None => Ok(None),
    }
}

// A `close`: a worker closes a connection.
pub(crate) fn close_line(at: u32, tree: &Value) -> Option<Line>
    ensures { result ≡ close_line at (view tree.now) }
{
    if !has_only(tree, &["op", "worker", "conn"]) {
        return None;
    }
    worker_line(at, close_event(conn_in(tree)), tree)
}

// The event of a connection's number, where there is one.
fn close_event(conn: Option<u64>) -> Option<Event>
    ensures { result ≡ option_map (λ conn. Close conn) conn }
{
    match conn {
        Some(conn) => Some(Event::Close(conn)),
        None => None,
    }
}

// A `settle`: a worker takes over the last picture.
pub(crate) fn settle_line(at: u32, tree: &Value) -> Option<Line>
    ensures { result ≡ settle_line at (view tree.now) }
{
    if !has_only(tree, &["op", "worker"]) {
        return None;
    }
    worker_line(at, Some(Event::Settle), tree)
}

// The line of a worker's event, where there is one.
fn worker_line(at: u32, event: Option<Event>, tree: &Value) -> Option<Line>
    ensures { result ≡ worker_line at event (view tree.now) }
{
    match worker_in(tree) {
        Some(worker) => line_at(at, Actor::Worker(worker), event),
        None => None,
    }
}

// A worker's number.
fn worker_in(tree: &Value) -> Option<u32>
    ensures { result ≡ worker_in (view tree.now) }
{
    match number_at(tree, "worker", 0, MAX_WORKER) {
        Some(worker) => Some(worker as u32),
        None => None,
    }
}
