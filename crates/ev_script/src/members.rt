ghost use Rattle.std.specs.Prelude.{◌≡◌, ◌≤◌, length, map, option_map, option_copied, IfOk, IfSome, Some, string_bytes};
ghost use Rattle.std.specs.BTreeMap.{keys};
ghost use Rattle.std.specs.List.{list_all};
ghost use Rattle.serde_json.specs.Find.{as_str, as_bool};
ghost use Rattle.serde_json.specs.View.{view, items_view};
ghost use Rattle.ev_types.specs.declared.limits.TheConstants.{MAX_NAME_LENGTH};
ghost use Rattle.ev_script.specs.Members.{tree_of, is_text_among, has_only, whole_within, text_within, name_of, texts_of, texts_in, member_of, member_or, is_op};

use ev_types::{MAX_NAME_LENGTH, Name, NameError, Seq, Text};
use serde_json::{Map, Value};
use std::alloc::{AllocError, Global};

/// The value that `bytes` are, or none where they aren't JSON in UTF-8. Nesting of 127 is read, and
/// of 128 not.
///
/// # Errors
/// `AllocError` where there is no memory for it.
pub fn read_tree(alloc: Global, bytes: &[u8]) -> Result<Option<Value>, AllocError>
    ensures { IfOk result (λ tree. option_map view tree ≡ tree_of bytes.now) }
{
    match Value::from_slice(alloc, bytes) {
        Ok(tree) => Ok(Some(tree)),
        Err(error) => {
            if error.is_memory() {
                Err(AllocError)
            } else {
                Ok(None)
            }
        }
    }
}

/// Whether `tree` is an object whose members all have one of these names, byte for byte once JSON's escapes are read.
/// None of them needs to be there.
pub fn has_only(tree: &Value, names: &[&str]) -> bool
    ensures { result ≡ has_only (map (λ name. name.now) names.now) (view tree.now) }
{
    match tree.as_object() {
        Some(members) => are_among(members, names),
        None => false,
    }
}

// Whether each member has one of these names.
fn are_among(members: &Map<String, Value>, names: &[&str]) -> bool
    ensures { result ≡ list_all (λ key. is_text_among (string_bytes key) names.now) (keys members.now) }
{
    members.keys().all(|key| is_among(key.as_str(), names))
}

// Whether a text is one of these.
fn is_among(text: &str, names: &[&str]) -> bool
    ensures { result ≡ is_text_among text.now names.now }
{
    names.iter().any(|name| text == *name)
}

// The whole number that `tree` is, where it is from `low` to `high`.
pub(crate) fn whole_within(low: u64, high: u64, tree: &Value) -> Option<u64>
    ensures number { result ≡ whole_within low high (view tree.now) }
    ensures low { IfSome result (λ number. low ≤ number) }
    ensures high { IfSome result (λ number. number ≤ high) }
{
    match tree.as_u64() {
        Some(number) if low <= number && number <= high => Some(number),
        _ => None,
    }
}

// The text that `tree` is, where it has this many bytes.
pub(crate) fn text_within(low: usize, high: usize, tree: &Value) -> Option<&str>
    ensures text { option_copied result ≡ text_within low high (view tree.now) }
    ensures low { IfSome result (λ text. low ≤ length text.now) }
    ensures high { IfSome result (λ text. length text.now ≤ high) }
{
    match tree.as_str() {
        Some(text) if low <= text.len() && text.len() <= high => Some(text),
        _ => None,
    }
}

/// The whole number from `low` to `high` that a member of `tree` is, or none: there is no such member, or it is another
/// value. A number with a fraction or an exponent is another value, and so is one in quotes.
pub fn number_at(tree: &Value, name: &str, low: u64, high: u64) -> Option<u64>
    ensures number { result ≡ member_of (whole_within low high) name.now (view tree.now) }
    ensures low { IfSome result (λ number. low ≤ number) }
    ensures high { IfSome result (λ number. number ≤ high) }
{
    whole_within(low, high, tree.get(name)?)
}

// The same, or a default where there is no such member.
pub(crate) fn number_or(tree: &Value, name: &str, low: u64, high: u64, default: u64) -> Option<u64>
    ensures { result ≡ member_or default (whole_within low high) name.now (view tree.now) }
{
    match tree.get(name) {
        Some(value) => whole_within(low, high, value),
        None => Some(default),
    }
}

/// The text of `low` to `high` bytes that a member of `tree` is, once JSON's escapes are read, or none: it is another
/// value, as `null`. Where there is no such member, the default, of any length.
pub fn text_or<'a>(
    tree: &'a Value,
    name: &str,
    low: usize,
    high: usize,
    default: &'a str,
) -> Option<&'a str>
    ensures { option_copied result ≡ member_or default.now (text_within low high) name.now (view tree.now) }
{
    match tree.get(name) {
        Some(value) => text_within(low, high, value),
        None => Some(default),
    }
}

/// The text of any length that a member of `tree` is, or none: there is no such member, or it is another value. It is
/// for members that are one of a few words.
pub fn word_at<'a>(tree: &'a Value, name: &str) -> Option<&'a str>
    ensures { option_copied result ≡ member_of as_str name.now (view tree.now) }
{
    tree.get(name)?.as_str()
}

/// Whether the operation of a line, its member `op`, is this word, byte for byte once JSON's escapes are read. Of a
/// line that is no object, or has no text there, it isn't.
pub fn is_op(word: &str, tree: &Value) -> bool
    ensures { result ≡ is_op word.now (view tree.now) }
{
    match word_at(tree, "op") {
        Some(op) => op == word,
        None => false,
    }
}

/// The boolean that a member of `tree` is, or none: there is no such member, or it is another value.
pub fn flag_at(tree: &Value, name: &str) -> Option<bool>
    ensures { result ≡ member_of as_bool name.now (view tree.now) }
{
    tree.get(name)?.as_bool()
}

// The same, or a default where there is no such member.
pub(crate) fn flag_or(tree: &Value, name: &str, default: bool) -> Option<bool>
    ensures { result ≡ member_or default as_bool name.now (view tree.now) }
{
    match tree.get(name) {
        Some(value) => value.as_bool(),
        None => Some(default),
    }
}

// The texts of any lengths that a list is, or none: `tree` is another value, or an element is.
pub(crate) fn texts_in(alloc: Global, tree: &Value) -> Result<Option<Seq<Text>>, AllocError>
    ensures { IfOk result (λ texts. texts ≡ texts_in (view tree.now)) }
{
    match tree.as_array() {
        Some(values) => texts_of(alloc, values.as_slice()),
        None => Ok(None),
    }
}

// The texts that values are, or none where one of them is another value.
fn texts_of(alloc: Global, values: &[Value]) -> Result<Option<Seq<Text>>, AllocError>
    ensures { IfOk result (λ texts. texts ≡ texts_of (items_view values.now)) }
{
    let mut texts = Vec::with_capacity(alloc, values.len())?;
    for value in values {
        match value.as_str() {
            Some(text) => texts.push(Text::new(alloc, text)?)?,
            None => return Ok(None),
        }
    }
    Ok(Some(Seq::from_vec(texts)))
}

/// The name that a member of `tree` is, a text of 1 to 512 bytes once JSON's escapes are read, or none: there is no
/// such member, or it is another value.
///
/// # Errors
/// `AllocError` where there is no memory for it.
pub fn name_at(alloc: Global, tree: &Value, name: &str) -> Result<Option<Name>, AllocError>
    ensures { IfOk result (λ made. made ≡ member_of name_of name.now (view tree.now)) }
{
    match tree.get(name) {
        Some(value) => read_name(alloc, value),
        None => Ok(None),
    }
}

/// The name that a value is, a text of 1 to 512 bytes once JSON's escapes are read, or none where it is another value.
///
/// # Errors
/// `AllocError` where there is no memory for it.
pub fn read_name(alloc: Global, tree: &Value) -> Result<Option<Name>, AllocError>
    ensures { IfOk result (λ made. made ≡ name_of (view tree.now)) }
{
    match text_within(1, MAX_NAME_LENGTH, tree) {
        Some(text) => made_name(alloc, text),
        None => Ok(None),
    }
}

// The name of these bytes.
fn made_name(alloc: Global, text: &str) -> Result<Option<Name>, AllocError>
    requires low { 1 ≤ length text.now }
    requires high { length text.now ≤ MAX_NAME_LENGTH }
    ensures { IfOk result (λ made. made ≡ Some text.now) }
{
    match Name::new(alloc, text) {
        Ok(name) => Ok(Some(name)),
        Err(NameError::Length) => unreachable!(),
        Err(NameError::OutOfMemory) => Err(AllocError),
    }
}
