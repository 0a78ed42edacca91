ghost use Rattle.std.specs.Prelude.{◌≡◌, IfOk};
ghost use Rattle.serde_json.specs.View.{view};
ghost use Rattle.ev_script.specs.LineForms.{line_at, host_in, kind_with, kind_in};

use crate::members::{name_at, number_at, word_at};
use ev_types::{Actor, Event, Host, Kind, Line, Profile};
use ev_wire::read_in;
use serde_json::Value;
use std::alloc::{AllocError, Global};

// The line of an actor's event, where there is one.
pub(crate) fn line_at(at: u32, actor: Actor, event: Option<Event>) -> Option<Line>
    ensures { result ≡ line_at at actor event }
{
    match event {
        Some(event) => Some(Line { at, actor, event }),
        None => None,
    }
}

// The members `address` and `port`.
pub(crate) fn host_in(alloc: Global, tree: &Value) -> Result<Option<Host>, AllocError>
    ensures { IfOk result (λ host. host ≡ host_in (view tree.now)) }
{
    let Some(address) = name_at(alloc, tree, "address")? else {
        return Ok(None);
    };
    let Some(port) = number_at(tree, "port", 0, 65535) else {
        return Ok(None);
    };
    Ok(Some(Host {
        address,
        port: port as u16,
    }))
}

// The member `type`: a type that the profile reads.
pub(crate) fn kind_in(profile: Profile, tree: &Value) -> Option<Kind>
    ensures { result ≡ kind_in profile (view tree.now) }
{
    let kind = kind_with(word_at(tree, "type")?)?;
    read_in(profile, kind)
}

// A type of resource, by its word.
fn kind_with(word: &str) -> Option<Kind>
    ensures { result ≡ kind_with word.now }
{
    match word {
        "cds" => Some(Kind::Cds),
        "eds" => Some(Kind::Eds),
        "lds" => Some(Kind::Lds),
        "rds" => Some(Kind::Rds),
        "sds" => Some(Kind::Sds),
        "ecds" => Some(Kind::Ecds),
        _ => None,
    }
}
