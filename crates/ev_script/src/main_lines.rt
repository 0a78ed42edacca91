ghost use Rattle.std.specs.Prelude.{◌≡◌};
ghost use Rattle.serde_json.specs.View.{view};
ghost use Rattle.ev_script.specs.MainLines.{publish_line, reap_line};

use crate::line_forms::line_at;
use crate::members::has_only;
use ev_types::{Actor, Event, Line};
use serde_json::Value;

// A `publish`: a new picture is published for the workers, where it changed.
pub(crate) fn publish_line(at: u32, tree: &Value) -> Option<Line>
    ensures { result ≡ publish_line at (view tree.now) }
{
    if !has_only(tree, &["op"]) {
        return None;
    }
    line_at(at, Actor::Main, Some(Event::Publish))
}

// A `reap`: generations that nothing holds any more are destroyed.
pub(crate) fn reap_line(at: u32, tree: &Value) -> Option<Line>
    ensures { result ≡ reap_line at (view tree.now) }
{
    if !has_only(tree, &["op"]) {
        return None;
    }
    line_at(at, Actor::Main, Some(Event::Reap))
}
