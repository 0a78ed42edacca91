ghost use Rattle.std.specs.Prelude.{◌≡◌, true, false, option_map, IfOk};
ghost use Rattle.serde_json.specs.View.{view};
ghost use Rattle.ev_types.specs.Kinds.{is_by_name};
ghost use Rattle.ev_types.specs.declared.events.Event.TheVariants.{DrainTimeout};
ghost use Rattle.ev_script.specs.TimerLines.{whole_timeout, named_timeout, timeout_of, timeout_line, drain_line, expired_in, expired_line};

use crate::line_forms::{kind_in, line_at};
use crate::members::{has_only, name_at};
use ev_types::{Actor, Event, FetchTimeout, Kind, Line, Name, Profile};
use serde_json::Value;
use std::alloc::{AllocError, Global};

// A `fetchTimeout`: an initial fetch timeout came.
pub(crate) fn timeout_line(
    alloc: Global,
    profile: Profile,
    at: u32,
    tree: &Value,
) -> Result<Option<Line>, AllocError>
    ensures { IfOk result (λ line. line ≡ timeout_line profile at (view tree.now)) }
{
    let Some(kind) = kind_in(profile, tree) else {
        return Ok(None);
    };
    Ok(line_at(at, Actor::Timer, timeout_of(alloc, kind, tree)?))
}

// The fetch timeout of a type.
fn timeout_of(alloc: Global, kind: Kind, tree: &Value) -> Result<Option<Event>, AllocError>
    ensures { IfOk result (λ event. event ≡ timeout_of kind (view tree.now)) }
{
    if kind.is_by_name() {
        named_timeout(alloc, kind, tree)
    } else {
        Ok(whole_timeout(kind, tree))
    }
}

// The fetch timeout of all clusters or all listeners.
fn whole_timeout(kind: Kind, tree: &Value) -> Option<Event>
    requires { is_by_name kind ≡ false }
    ensures { result ≡ whole_timeout kind (view tree.now) }
{
    if !has_only(tree, &["op", "type"]) {
        return None;
    }
    Some(Event::FetchTimeout(FetchTimeout { kind, name: None }))
}

// The fetch timeout of one name of a type whose resources are asked for by name.
fn named_timeout(alloc: Global, kind: Kind, tree: &Value) -> Result<Option<Event>, AllocError>
    requires { is_by_name kind ≡ true }
    ensures { IfOk result (λ event. event ≡ named_timeout kind (view tree.now)) }
{
    if !has_only(tree, &["op", "type", "name"]) {
        return Ok(None);
    }
    match name_at(alloc, tree, "name")? {
        Some(name) => Ok(Some(Event::FetchTimeout(FetchTimeout {
            kind,
            name: Some(name),
        }))),
        None => Ok(None),
    }
}

// A `drainTimeout`: the drain timeout of a listener's old generations came.
pub(crate) fn drain_line(alloc: Global, at: u32, tree: &Value) -> Result<Option<Line>, AllocError>
    ensures { IfOk result (λ line. line ≡ drain_line at (view tree.now)) }
{
    if !has_only(tree, &["op", "listener"]) {
        return Ok(None);
    }
    let event = drain_event(name_at(alloc, tree, "listener")?);
    Ok(line_at(at, Actor::Timer, event))
}

// The event of a listener's name, where there is one.
fn drain_event(name: Option<Name>) -> Option<Event>
    ensures { result ≡ option_map (λ name. DrainTimeout name) name }
{
    match name {
        Some(name) => Some(Event::DrainTimeout(name)),
        None => None,
    }
}

// A `ttlExpired`: the time to live of a resource came to its end.
pub(crate) fn expired_line(
    alloc: Global,
    profile: Profile,
    at: u32,
    tree: &Value,
) -> Result<Option<Line>, AllocError>
    ensures { IfOk result (λ line. line ≡ expired_line profile at (view tree.now)) }
{
    if !has_only(tree, &["op", "type", "name"]) {
        return Ok(None);
    }
    Ok(line_at(at, Actor::Timer, expired_in(alloc, profile, tree)?))
}

// A type and a name.
fn expired_in(alloc: Global, profile: Profile, tree: &Value) -> Result<Option<Event>, AllocError>
    ensures { IfOk result (λ event. event ≡ expired_in profile (view tree.now)) }
{
    let Some(kind) = kind_in(profile, tree) else {
        return Ok(None);
    };
    let Some(name) = name_at(alloc, tree, "name")? else {
        return Ok(None);
    };
    Ok(Some(Event::TtlExpired { kind, name }))
}
