ghost use Rattle.std.specs.Prelude.{◌≡◌};
ghost use Rattle.std.specs.BTreeMap.{values};
ghost use Rattle.std.specs.List.{list_any};
ghost use Rattle.serde_json.specs.View.{view};
ghost use Rattle.ev_tree.specs.Forms.{tree_of};
ghost use Rattle.ev_listener_json.specs.Members.{has_member, is_present};

use serde_json::{Map, Value};

/// Whether an object has a member, of any name, that isn't `null`.
pub fn has_member(object: Option<&Value>) -> bool
    ensures { result ≡ has_member (tree_of object.entry) }
{
    match object {
        Some(value) => value_has_member(value),
        None => false,
    }
}

// The same of an object that is there.
fn value_has_member(value: &Value) -> bool
    ensures { result ≡ has_member (view value.now) }
{
    match value.as_object() {
        Some(members) => any_present(members),
        None => false,
    }
}

// Whether one of the members isn't `null`.
fn any_present(members: &Map<String, Value>) -> bool
    ensures { result ≡ list_any (λ v. is_present (view v)) (values members.now) }
{
    members.values().any(|member| !member.is_null())
}
