ghost use Rattle.std.specs.Prelude.{◌≡◌, IfOk, map};
ghost use Rattle.std.specs.Map.Iter.{deref};
ghost use Rattle.ev_tree.specs.Forms.{tree_of, found_map};
ghost use Rattle.serde_json.specs.View.{view};
ghost use Rattle.ev_route_json.specs.Presence.{any_given, any_doubled, any_filled, is_filled, is_empty_array};

use ev_tree::{Found, member};
use serde_json::Value;
use std::alloc::{AllocError, Global};

/// What is found of several fields that only count as given.
#[derive(Clone, Copy, Debug)]
pub struct Presence {
    /// One of them is given.
    pub given: bool,
    /// One of them is given and isn't an empty array.
    pub filled: bool,
    /// One of them is given in both spellings.
    pub doubled: bool,
}

/// Inspects the fields of these names.
pub fn inspect_fields(
    alloc: Global,
    object: Option<&Value>,
    names: &[&str],
) -> Result<Presence, AllocError>
    ensures given { IfOk result (λ p. p.given ≡ any_given (map deref names.now) (tree_of object.entry)) }
    ensures filled { IfOk result (λ p. p.filled ≡ any_filled (map deref names.now) (tree_of object.entry)) }
    ensures doubled { IfOk result (λ p. p.doubled ≡ any_doubled (map deref names.now) (tree_of object.entry)) }
{
    let mut given = false;
    let mut filled = false;
    let mut doubled = false;
    for name in names {
        let found = member::field(alloc, object, name)?;
        given = given | found.is_given();
        filled = filled | is_filled(found);
        doubled = doubled | found.is_wrong();
    }
    Ok(Presence {
        given,
        filled,
        doubled,
    })
}

// Whether a value is given that isn't an empty array.
fn is_filled(found: Found<&Value>) -> bool
    ensures { result ≡ is_filled (found_map (λ v. view v.now) found.entry) }
{
    match found {
        Found::Given(value) => !is_empty_array(value),
        Found::Absent | Found::Wrong => false,
    }
}

// Whether a value is an array without elements.
fn is_empty_array(value: &Value) -> bool
    ensures { result ≡ is_empty_array (view value.now) }
{
    match value.as_array() {
        Some(elements) => elements.as_slice().is_empty(),
        None => false,
    }
}
