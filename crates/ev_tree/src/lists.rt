ghost use Rattle.std.specs.Prelude.{◌≡◌, map, option_map};
ghost use Rattle.std.specs.List.{list_all};
ghost use Rattle.ev_tree.specs.Scalars.{list_in};
ghost use Rattle.ev_tree.specs.Forms.{object_in, objects_in, texts_in, is_object, is_text};
ghost use Rattle.serde_json.specs.View.{view};

use serde_json::Value;

/// A value that is an object.
pub fn object_value(value: &Value) -> Option<&Value>
    ensures { option_map (λ v. view v.now) result ≡ object_in (view value.now) }
{
    if value.is_object() { Some(value) } else { None }
}

/// The elements of an array.
#[tactic(auto, using(crate::proofs::Elements::the_elements), unfolding(crate::specs::Scalars::list_in))]
pub fn list_value(value: &Value) -> Option<&[Value]>
    ensures { option_map (λ vs. map view vs.now) result ≡ list_in (view value.now) }
{
    match value.as_array() {
        Some(elements) => Some(elements.as_slice()),
        None => None,
    }
}

/// The elements of an array of objects.
#[tactic(auto, using(crate::proofs::Elements::the_tests))]
pub fn objects_value(value: &Value) -> Option<&[Value]>
    ensures { option_map (λ vs. map view vs.now) result ≡ objects_in (view value.now) }
{
    let elements = list_value(value)?;
    if are_objects(elements) {
        Some(elements)
    } else {
        None
    }
}

/// The elements of an array of texts.
#[tactic(auto, using(crate::proofs::Elements::the_tests))]
pub fn texts_value(value: &Value) -> Option<&[Value]>
    ensures { option_map (λ vs. map view vs.now) result ≡ texts_in (view value.now) }
{
    let elements = list_value(value)?;
    if are_texts(elements) {
        Some(elements)
    } else {
        None
    }
}

// Whether each element is an object.
fn are_objects(elements: &[Value]) -> bool
    ensures { result ≡ list_all (λ v. is_object (view v)) elements.now }
{
    elements.iter().all(|element| element.is_object())
}

// Whether each element is a text.
fn are_texts(elements: &[Value]) -> bool
    ensures { result ≡ list_all (λ v. is_text (view v)) elements.now }
{
    elements.iter().all(|element| element.is_string())
}
