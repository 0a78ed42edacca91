ghost use Rattle.std.specs.Prelude.{◌≡◌, map};
ghost use Rattle.serde_json.specs.View.{view};
ghost use Rattle.ev_tree.specs.Forms.{Answers, answer_of, field_of, text_of, number_of, boolean_of, duration_of, object_of, list_of, enumeration_of};

use crate::member;
use crate::outcome::{Found, ReadError};
use crate::span::Span;
use crate::tables::EnumTable;
use ev_types::Rule;
use serde_json::Value;
use std::alloc::Global;

// The answer that a reader gives: a wrong form is V6.
fn answer<T>(found: Found<T>) -> Result<Option<T>, ReadError>
    ensures { result ≡ answer_of found }
{
    match found {
        Found::Absent => Ok(None),
        Found::Wrong => Err(ReadError::Rule(Rule::V6)),
        Found::Given(value) => Ok(Some(value)),
    }
}

/// A field of an object, of any form: by its name, or by the lowerCamelCase spelling of it. `null` counts
/// as absent, and what is no object has no fields.
///
/// # Errors
/// `V6` where the field is given in both spellings, and `OutOfMemory`.
pub fn field<'a>(
    alloc: Global,
    object: &'a Value,
    name: &str,
) -> Result<Option<&'a Value>, ReadError>
    ensures { Answers (λ v. view v.now) result (field_of name.now (view object.now)) }
{
    answer(member::field(alloc, Some(object), name)?)
}

/// A field that is a string.
///
/// # Errors
/// `V6` where it has another form or both spellings, and `OutOfMemory`; so do all readers below.
pub fn text<'a>(alloc: Global, object: &'a Value, name: &str) -> Result<Option<&'a str>, ReadError>
    ensures { Answers (λ s. s.now) result (text_of name.now (view object.now)) }
{
    answer(member::text(alloc, Some(object), name)?)
}

/// A field that is a whole number from 0 to 2^32 - 1, or a string of 1 to 10 digits that writes one.
pub fn number32(alloc: Global, object: &Value, name: &str) -> Result<Option<u32>, ReadError>
    ensures { Answers (λ n. n) result (number_of name.now (view object.now)) }
{
    answer(member::number32(alloc, Some(object), name)?)
}

/// A field that is `true` or `false`.
pub fn boolean(alloc: Global, object: &Value, name: &str) -> Result<Option<bool>, ReadError>
    ensures { Answers (λ b. b) result (boolean_of name.now (view object.now)) }
{
    answer(member::boolean(alloc, Some(object), name)?)
}

/// A field that is a duration: a string of an optional `-`, 1 to 12 digits of whole seconds, which are at
/// most 315576000000, optionally `.` and 1 to 9 digits, and `s`.
pub fn duration(alloc: Global, object: &Value, name: &str) -> Result<Option<Span>, ReadError>
    ensures { Answers (λ s. s) result (duration_of name.now (view object.now)) }
{
    answer(member::duration(alloc, Some(object), name)?)
}

/// A field that is an object.
pub fn object<'a>(
    alloc: Global,
    object: &'a Value,
    name: &str,
) -> Result<Option<&'a Value>, ReadError>
    ensures { Answers (λ v. view v.now) result (object_of name.now (view object.now)) }
{
    answer(member::object(alloc, Some(object), name)?)
}

/// A field that is an array. Its elements have any form.
pub fn list<'a>(
    alloc: Global,
    object: &'a Value,
    name: &str,
) -> Result<Option<&'a [Value]>, ReadError>
    ensures { Answers (λ vs. map view vs.now) result (list_of name.now (view object.now)) }
{
    answer(member::list(alloc, Some(object), name)?)
}

/// A field that is an enum: a listed name, or a listed number. It gives the number.
pub fn enumeration(
    alloc: Global,
    object: &Value,
    name: &str,
    table: EnumTable,
) -> Result<Option<u32>, ReadError>
    ensures { Answers (λ n. n) result (enumeration_of name.now table (view object.now)) }
{
    answer(member::enumeration(alloc, Some(object), name, table)?)
}
