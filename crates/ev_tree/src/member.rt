//! What a look at a field of an object finds, wrong forms among it: for callers that go on after a wrong
//! form. An object that is missing has no fields.
ghost use Rattle.std.specs.Prelude.{◌≡◌, [], IfOk, map, option_map};
ghost use Rattle.serde_json.specs.Find.{get};
ghost use Rattle.serde_json.specs.View.{view};
ghost use Rattle.ev_tree.specs.Forms.{Shows, text_in, given_or, inside, listed, found_map, tree_of, present_member, value_or_absent, either_spelling, value_or_wrong, field_of, text_of, number_of, integer_of, boolean_of, duration_of, object_of, list_of, objects_of, texts_of, enumeration_of};

use crate::durations::span;
use crate::lists::{list_value, object_value, objects_value, texts_value};
use crate::numbers::{i64_value, u32_value};
use crate::outcome::Found;
use crate::span::Span;
use crate::spelling::camel_case;
use crate::tables::{EnumTable, enum_value};
use serde_json::Value;
use std::alloc::{AllocError, Global};

// A member of exactly this name; `null` counts as absent.
fn get_member<'a>(object: &'a Value, name: &str) -> Option<&'a Value>
    ensures { option_map (λ v. view v.now) result ≡ present_member (get name.now (view object.now)) }
{
    let value = object.get(name)?;
    if value.is_null() { None } else { Some(value) }
}

// A value that is there, of any form.
fn give_or_absent(value: Option<&Value>) -> Found<&Value>
    ensures { found_map (λ v. view v.now) result ≡ value_or_absent (option_map (λ v. view v.now) value.entry) }
{
    match value {
        Some(value) => Found::Given(value),
        None => Found::Absent,
    }
}

// What is given in one of the two spellings; both are the wrong form.
fn choose_spelling<'a>(first: Option<&'a Value>, second: Option<&'a Value>) -> Found<&'a Value>
    ensures { found_map (λ v. view v.now) result
        ≡ either_spelling (option_map (λ v. view v.now) first.entry) (option_map (λ v. view v.now) second.entry) }
{
    match (first, second) {
        (None, second) => give_or_absent(second),
        (Some(value), None) => Found::Given(value),
        (Some(_), Some(_)) => Found::Wrong,
    }
}

/// A field by its name or its lowerCamelCase spelling.
#[tactic(auto, unfolding(crate::specs::Forms::field_of))]
pub fn field<'a>(
    alloc: Global,
    object: Option<&'a Value>,
    name: &str,
) -> Result<Found<&'a Value>, AllocError>
    ensures { IfOk result (λ found. Shows (λ v. view v.now) found (field_of name.now (tree_of object.entry))) }
{
    let Some(object) = object else {
        return Ok(Found::Absent);
    };
    let camel = camel_case(alloc, name)?;
    if camel.as_str() == name {
        return Ok(give_or_absent(get_member(object, name)));
    }
    Ok(choose_spelling(get_member(object, name), get_member(object, camel.as_str())))
}

// A value that the form takes, or the wrong form.
fn give_or_wrong<T>(value: Option<T>) -> Found<T>
    ensures { result ≡ value_or_wrong value }
{
    match value {
        Some(value) => Found::Given(value),
        None => Found::Wrong,
    }
}

/// A field that is a text.
#[tactic(auto, unfolding(crate::specs::Forms::text_of))]
pub fn text<'a>(
    alloc: Global,
    object: Option<&'a Value>,
    name: &str,
) -> Result<Found<&'a str>, AllocError>
    ensures { IfOk result (λ found. Shows (λ s. s.now) found (text_of name.now (tree_of object.entry))) }
{
    match field(alloc, object, name)? {
        Found::Absent => Ok(Found::Absent),
        Found::Wrong => Ok(Found::Wrong),
        Found::Given(value) => Ok(give_or_wrong(value.as_str())),
    }
}

/// A field that is a u32: a whole number below 2^32, or a string of digits that writes one.
#[tactic(auto, unfolding(crate::specs::Forms::number_of))]
pub fn number32(alloc: Global, object: Option<&Value>, name: &str) -> Result<Found<u32>, AllocError>
    ensures { IfOk result (λ found. found ≡ number_of name.now (tree_of object.entry)) }
{
    match field(alloc, object, name)? {
        Found::Absent => Ok(Found::Absent),
        Found::Wrong => Ok(Found::Wrong),
        Found::Given(value) => Ok(give_or_wrong(u32_value(value))),
    }
}

/// A field that is an i64: a whole number below 2^63 that isn't negative, or a decimal text.
#[tactic(auto, unfolding(crate::specs::Forms::integer_of))]
pub fn number64(alloc: Global, object: Option<&Value>, name: &str) -> Result<Found<i64>, AllocError>
    ensures { IfOk result (λ found. found ≡ integer_of name.now (tree_of object.entry)) }
{
    match field(alloc, object, name)? {
        Found::Absent => Ok(Found::Absent),
        Found::Wrong => Ok(Found::Wrong),
        Found::Given(value) => Ok(give_or_wrong(i64_value(value))),
    }
}

/// A field that is `true` or `false`.
#[tactic(auto, unfolding(crate::specs::Forms::boolean_of))]
pub fn boolean(alloc: Global, object: Option<&Value>, name: &str) -> Result<Found<bool>, AllocError>
    ensures { IfOk result (λ found. found ≡ boolean_of name.now (tree_of object.entry)) }
{
    match field(alloc, object, name)? {
        Found::Absent => Ok(Found::Absent),
        Found::Wrong => Ok(Found::Wrong),
        Found::Given(value) => Ok(give_or_wrong(value.as_bool())),
    }
}

/// A field that is a duration.
#[tactic(auto, unfolding(crate::specs::Forms::duration_of))]
pub fn duration(
    alloc: Global,
    object: Option<&Value>,
    name: &str,
) -> Result<Found<Span>, AllocError>
    ensures { IfOk result (λ found. found ≡ duration_of name.now (tree_of object.entry)) }
{
    match field(alloc, object, name)? {
        Found::Absent => Ok(Found::Absent),
        Found::Wrong => Ok(Found::Wrong),
        Found::Given(value) => Ok(give_or_wrong(value.as_str().and_then(span))),
    }
}

/// A field that is an object.
#[tactic(auto, unfolding(crate::specs::Forms::object_of))]
pub fn object<'a>(
    alloc: Global,
    object: Option<&'a Value>,
    name: &str,
) -> Result<Found<&'a Value>, AllocError>
    ensures { IfOk result (λ found. Shows (λ v. view v.now) found (object_of name.now (tree_of object.entry))) }
{
    match field(alloc, object, name)? {
        Found::Absent => Ok(Found::Absent),
        Found::Wrong => Ok(Found::Wrong),
        Found::Given(value) => Ok(give_or_wrong(object_value(value))),
    }
}

/// A field that is an array, of any elements.
#[tactic(auto, unfolding(crate::specs::Forms::list_of))]
pub fn list<'a>(
    alloc: Global,
    object: Option<&'a Value>,
    name: &str,
) -> Result<Found<&'a [Value]>, AllocError>
    ensures { IfOk result (λ found. Shows (λ vs. map view vs.now) found (list_of name.now (tree_of object.entry))) }
{
    match field(alloc, object, name)? {
        Found::Absent => Ok(Found::Absent),
        Found::Wrong => Ok(Found::Wrong),
        Found::Given(value) => Ok(give_or_wrong(list_value(value))),
    }
}

/// A field that is an array of objects.
#[tactic(auto, unfolding(crate::specs::Forms::objects_of))]
pub fn objects<'a>(
    alloc: Global,
    object: Option<&'a Value>,
    name: &str,
) -> Result<Found<&'a [Value]>, AllocError>
    ensures { IfOk result (λ found. Shows (λ vs. map view vs.now) found (objects_of name.now (tree_of object.entry))) }
{
    match field(alloc, object, name)? {
        Found::Absent => Ok(Found::Absent),
        Found::Wrong => Ok(Found::Wrong),
        Found::Given(value) => Ok(give_or_wrong(objects_value(value))),
    }
}

/// A field that is an array of texts.
#[tactic(auto, unfolding(crate::specs::Forms::texts_of))]
pub fn texts<'a>(
    alloc: Global,
    object: Option<&'a Value>,
    name: &str,
) -> Result<Found<&'a [Value]>, AllocError>
    ensures { IfOk result (λ found. Shows (λ vs. map view vs.now) found (texts_of name.now (tree_of object.entry))) }
{
    match field(alloc, object, name)? {
        Found::Absent => Ok(Found::Absent),
        Found::Wrong => Ok(Found::Wrong),
        Found::Given(value) => Ok(give_or_wrong(texts_value(value))),
    }
}

/// A field that is an enum, by a listed name or a listed number.
#[tactic(auto, unfolding(crate::specs::Forms::enumeration_of))]
pub fn enumeration(
    alloc: Global,
    object: Option<&Value>,
    name: &str,
    table: EnumTable,
) -> Result<Found<u32>, AllocError>
    ensures { IfOk result (λ found. found ≡ enumeration_of name.now table (tree_of object.entry)) }
{
    match field(alloc, object, name)? {
        Found::Absent => Ok(Found::Absent),
        Found::Wrong => Ok(Found::Wrong),
        Found::Given(value) => Ok(give_or_wrong(enum_value(value, table))),
    }
}

/// The object to look into: none, which has no fields, where none is given.
pub fn inner(found: Found<&Value>) -> Option<&Value>
    ensures { tree_of result ≡ inside (found_map (λ v. view v.now) found.entry) }
{
    match found {
        Found::Given(value) => Some(value),
        Found::Absent | Found::Wrong => None,
    }
}

/// The elements that count: none where no list is given.
pub fn elements(found: Found<&[Value]>) -> &[Value]
    ensures { map view result.now ≡ listed (found_map (λ vs. map view vs.now) found.entry) }
{
    match found {
        Found::Given(values) => values,
        Found::Absent | Found::Wrong => &[],
    }
}

/// The text that counts: the empty one where none is given.
pub fn text_or_empty(found: Found<&str>) -> &str
    ensures { result.now ≡ given_or [] (found_map (λ s. s.now) found.entry) }
{
    match found {
        Found::Given(text) => text,
        Found::Absent | Found::Wrong => "",
    }
}

/// The text of a value, as of an element of a list of texts: the empty one where it is none.
pub fn text_value(value: &Value) -> &str
    ensures { result.now ≡ text_in (view value.now) }
{
    match value.as_str() {
        Some(text) => text,
        None => "",
    }
}
