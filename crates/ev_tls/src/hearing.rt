ghost use Rattle.std.specs.Prelude.{◌≡◌, map, flat_map, IfOk};
ghost use Rattle.serde_json.specs.View.{view};
ghost use Rattle.ev_expand.specs.Fronts.{event_of};
ghost use Rattle.ev_tls.specs.Hearing.{heard_now, is_quiet, open_after};
ghost use Rattle.ev_tls.specs.Told.{told_by, values_in, value_shown};

use crate::awaited::Awaited;
use crate::told::told_by;
use crate::values::values_in;
use ev_types::{Event, Name, Profile};
use serde_json::Value;
use std::alloc::{AllocError, Global};

/// What comes with a line, and the values that it gives.
#[derive(Drop)]
pub(crate) struct News {
    pub told: Vec<Awaited>,
    pub values: Vec<(Name, Value)>,
}

// What comes with a line, and the values that it gives, where a stream is open.
pub(crate) fn hear(
    alloc: Global,
    profile: Profile,
    connected: bool,
    line: &Value,
    event: &Option<Event>,
) -> Result<News, AllocError>
    requires { event.now ≡ event_of profile (view line.now) }
    ensures told { IfOk result (λ news. news.told.items
        ≡ flat_map (told_by profile) (heard_now connected (view line.now))) }
    ensures values { IfOk result (λ news. map value_shown news.values.items
        ≡ flat_map (values_in profile) (heard_now connected (view line.now))) }
{
    if !connected {
        return Ok(News {
            told: Vec::new(alloc),
            values: Vec::new(alloc),
        });
    }
    Ok(News {
        told: told_by(alloc, profile, line, event)?,
        values: values_in(alloc, profile, line, event)?,
    })
}

// Whether an event says nothing of the stream, of secrets or of endpoints.
pub(crate) fn is_quiet(event: &Option<Event>) -> bool
    ensures { result ≡ is_quiet event.now }
{
    match event {
        Some(Event::Connect) => false,
        Some(Event::Disconnect) => false,
        Some(Event::Response(_)) => false,
        _ => true,
    }
}

// Whether a stream is open after an event.
pub(crate) fn open_after(connected: bool, event: &Option<Event>) -> bool
    ensures { result ≡ open_after connected event.now }
{
    match event {
        Some(Event::Connect) => true,
        Some(Event::Disconnect) => false,
        _ => connected,
    }
}
