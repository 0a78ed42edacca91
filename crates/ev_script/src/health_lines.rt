ghost use Rattle.std.specs.Prelude.{◌≡◌, IfOk};
ghost use Rattle.serde_json.specs.View.{view};
ghost use Rattle.ev_script.specs.HealthLines.{health_in, health_line};

use crate::line_forms::{host_in, line_at};
use crate::members::{flag_at, has_only, name_at};
use ev_types::{Actor, Event, Line};
use serde_json::Value;
use std::alloc::{AllocError, Global};

// A `health`: a health check of a cluster's host ended.
pub(crate) fn health_line(alloc: Global, at: u32, tree: &Value) -> Result<Option<Line>, AllocError>
    ensures { IfOk result (λ line. line ≡ health_line at (view tree.now)) }
{
    if !has_only(tree, &["op", "cluster", "address", "port", "healthy"]) {
        return Ok(None);
    }
    Ok(line_at(at, Actor::Health, health_in(alloc, tree)?))
}

// A cluster's name, a host and whether it is healthy.
fn health_in(alloc: Global, tree: &Value) -> Result<Option<Event>, AllocError>
    ensures { IfOk result (λ event. event ≡ health_in (view tree.now)) }
{
    let Some(cluster) = name_at(alloc, tree, "cluster")? else {
        return Ok(None);
    };
    let Some(host) = host_in(alloc, tree)? else {
        return Ok(None);
    };
    let Some(healthy) = flag_at(tree, "healthy") else {
        return Ok(None);
    };
    Ok(Some(Event::Health {
        cluster,
        host,
        healthy,
    }))
}
