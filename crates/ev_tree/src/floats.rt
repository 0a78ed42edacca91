ghost use Rattle.std.specs.Prelude.{◌≡◌, IfOk};
ghost use Rattle.serde_json.specs.View.{view, number_view, items_view, members_view};
ghost use Rattle.serde_json.specs.Written.{has_float, items_have_float, members_have_float};
ghost use Rattle.ev_tree.specs.Floats.{whole, whole_number, whole_items, whole_members, plain_text, body_text_of};
ghost use Rattle.std.specs.String.{string_bytes};

use ev_types::{Profile, Text};
use serde_json::{Map, Number, Value};
use std::alloc::{AllocError, Global};
use std::default::Emptied;

/// Whether a tree has a float.
#[cycle(has_float)]
pub fn has_float(value: &Value) -> bool
    ensures { result ≡ has_float (view value.now) }
{
    match value {
        Value::Null => false,
        Value::Bool(_) => false,
        Value::Number(number) => number.is_f64(),
        Value::String(_) => false,
        Value::Array(items) => items_have_float(items),
        Value::Object(members) => members_have_float(members),
    }
}

#[cycle(has_float)]
fn items_have_float(items: &Vec<Value>) -> bool
    ensures { result ≡ items_have_float (items_view items.now.items) }
{
    for item in items {
        if has_float(item) {
            return true;
        }
    }
    false
}

#[cycle(has_float)]
fn members_have_float(members: &Map<String, Value>) -> bool
    ensures { result ≡ members_have_float (members_view members.now.entries) }
{
    for (_, member) in members.iter() {
        if has_float(member) {
            return true;
        }
    }
    false
}

// A number, with -1 for a float.
fn whole_number(number: Number) -> Number
    ensures { number_view result ≡ whole_number (number_view number) }
{
    if number.is_f64() {
        Number::from(-1i64)
    } else {
        number
    }
}

/// The copy of a tree, with -1 for each float in it.
#[cycle(whole_copy)]
pub fn whole_copy(value: &Value) -> Result<Value, AllocError>
    ensures { IfOk result (λ copy. view copy ≡ whole (view value.now)) }
{
    match value {
        Value::Null => Ok(Value::Null),
        Value::Bool(b) => Ok(Value::Bool(*b)),
        Value::Number(number) => Ok(Value::Number(whole_number(*number))),
        Value::String(text) => Ok(Value::String(text.clone()?)),
        Value::Array(items) => Ok(Value::Array(whole_items(items)?)),
        Value::Object(members) => Ok(Value::Object(whole_members(members)?)),
    }
}

#[cycle(whole_copy)]
fn whole_items(items: &Vec<Value>) -> Result<Vec<Value>, AllocError>
    ensures { IfOk result (λ copies. items_view copies.items ≡ whole_items (items_view items.now.items)) }
{
    let mut copies = Vec::with_capacity(*items.allocator(), items.len())?;
    for item in items {
        copies.push(whole_copy(item)?)?;
    }
    Ok(copies)
}

#[cycle(whole_copy)]
fn whole_members(members: &Map<String, Value>) -> Result<Map<String, Value>, AllocError>
    ensures { IfOk result (λ copies. members_view copies.entries ≡ whole_members (members_view members.now.entries)) }
{
    let mut copies = Map::emptied(members)?;
    for (key, member) in members.iter() {
        let name = key.clone()?;
        drop(copies.insert(name, whole_copy(member)?)?);
    }
    Ok(copies)
}

/// The plain text of a tree: without spaces, with -1 for each float in it.
#[tactic(auto, using(crate::proofs::FloatLemmas::made_whole, crate::proofs::FloatLemmas::stays))]
pub fn plain_text(alloc: Global, tree: &Value) -> Result<String, AllocError>
    ensures { IfOk result (λ text. string_bytes text ≡ plain_text (view tree.now)) }
{
    if has_float(tree) {
        let copy = whole_copy(tree)?;
        copy.to_string(alloc)
    } else {
        tree.to_string(alloc)
    }
}

/// The text of a body, or an empty one where the fields that are read count alone.
pub fn body_text(alloc: Global, profile: Profile, body: &Value) -> Result<Text, AllocError>
    ensures { IfOk result (λ text. text ≡ body_text_of profile (view body.now)) }
{
    match profile {
        Profile::Own => Ok(Text::from_string(String::new(alloc))),
        Profile::Envoy => Ok(Text::from_string(plain_text(alloc, body)?)),
    }
}
