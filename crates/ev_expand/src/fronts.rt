ghost use Rattle.std.specs.Prelude.{◌≡◌, option_map, IfOk};
ghost use Rattle.serde_json.specs.View.{view};
ghost use Rattle.ev_tree.specs.Forms.{tree_of};
ghost use Rattle.ev_expand.specs.Fronts.{event_of, message_of};

use ev_script::read_line;
use ev_types::{Event, Line, Profile};
use serde_json::Value;
use std::alloc::{AllocError, Global};

// The event of a line of a script of this profile.
pub(crate) fn read_event(
    alloc: Global,
    profile: Profile,
    line: &Value,
) -> Result<Option<Event>, AllocError>
    ensures { IfOk result (λ event. event ≡ event_of profile (view line.now)) }
{
    match read_line(alloc, profile, 0, line)? {
        Some(Line { event, .. }) => Ok(Some(event)),
        None => Ok(None),
    }
}

/// The message of a line, where it has one.
pub fn message_of(line: &Value) -> Option<&Value>
    ensures { tree_of result ≡ message_of (view line.now) }
{
    line.get("message")
}
