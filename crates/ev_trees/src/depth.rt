ghost use Rattle.std.specs.Prelude.{◌≡◌, nat_le};
ghost use Rattle.serde_json.specs.Data.{depth, items_depth, members_depth};
ghost use Rattle.serde_json.specs.View.{view, items_view, members_view};

use serde_json::{Map, Value};

/// Whether arrays and objects nest no deeper in a tree than `room`.
#[tactic(auto, using(crate::proofs::DepthLemmas::max_within))]
#[cycle(nests_within)]
pub fn nests_within(value: &Value, room: u32) -> bool
    ensures { result ≡ nat_le (depth (view value.now)) room }
{
    match value {
        Value::Null | Value::Bool(_) | Value::Number(_) | Value::String(_) => true,
        Value::Array(items) => room != 0 && items_nest_within(items, room - 1),
        Value::Object(members) => room != 0 && members_nest_within(members, room - 1),
    }
}

#[tactic(auto, using(crate::proofs::DepthLemmas::max_within))]
#[cycle(nests_within)]
fn items_nest_within(items: &Vec<Value>, room: u32) -> bool
    ensures { result ≡ nat_le (items_depth (items_view items.now.items)) room }
{
    for item in items {
        if !nests_within(item, room) {
            return false;
        }
    }
    true
}

#[tactic(auto, using(crate::proofs::DepthLemmas::max_within))]
#[cycle(nests_within)]
fn members_nest_within(members: &Map<String, Value>, room: u32) -> bool
    ensures { result ≡ nat_le (members_depth (members_view members.now.entries)) room }
{
    for (_, member) in members.iter() {
        if !nests_within(member, room) {
            return false;
        }
    }
    true
}
