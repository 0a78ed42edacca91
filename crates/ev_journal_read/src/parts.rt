ghost use Rattle.std.specs.Prelude.{◌≡◌, ◌≤◌, IfOk, IfSome};
ghost use Rattle.serde_json.specs.View.{view};
ghost use Rattle.ev_types.specs.declared.limits.TheConstants.{MAX_NAME_LENGTH};
ghost use Rattle.serde_json.specs.Data.{string};
ghost use Rattle.ev_script.specs.Members.{whole_within, text_within, member_of};
ghost use Rattle.ev_journal_read.specs.Trees.{number16, number32, number64, generation_of, given_text};

use ev_types::{Gen, Name, NameError, Text};
use serde_json::Value;
use std::alloc::{AllocError, Global};

// The whole number that `tree` is, where it is from `low` to `high`.
fn whole_within(low: u64, high: u64, tree: &Value) -> Option<u64>
    ensures number { result ≡ whole_within low high (view tree.now) }
    ensures low { IfSome result (λ number. low ≤ number) }
    ensures high { IfSome result (λ number. number ≤ high) }
{
    match tree.as_u64() {
        Some(number) if low <= number && number <= high => Some(number),
        _ => None,
    }
}

// A number of 16 bits.
fn number16(tree: &Value) -> Option<u16>
    ensures { result ≡ number16 (view tree.now) }
{
    match whole_within(0, 65535, tree) {
        Some(number) => Some(number as u16),
        None => None,
    }
}

// A number of 32 bits.
pub(crate) fn number32(tree: &Value) -> Option<u32>
    ensures { result ≡ number32 (view tree.now) }
{
    match whole_within(0, 4294967295, tree) {
        Some(number) => Some(number as u32),
        None => None,
    }
}

// A number of 64 bits.
pub(crate) fn number64(tree: &Value) -> Option<u64>
    ensures { result ≡ number64 (view tree.now) }
{
    whole_within(0, 18446744073709551615, tree)
}

// A generation's number.
pub(crate) fn generation_of(tree: &Value) -> Option<Gen>
    ensures { result ≡ generation_of (view tree.now) }
{
    match whole_within(1, 4294967295, tree) {
        Some(number) => Some(Gen::new(number as u32)),
        None => None,
    }
}

// A member that is a number of 16 bits.
pub(crate) fn number16_at(tree: &Value, key: &str) -> Option<u16>
    ensures { result ≡ member_of number16 key.now (view tree.now) }
{
    number16(tree.get(key)?)
}

// A member that is a number of 32 bits.
pub(crate) fn number32_at(tree: &Value, key: &str) -> Option<u32>
    ensures { result ≡ member_of number32 key.now (view tree.now) }
{
    number32(tree.get(key)?)
}

// A member that is a generation's number.
pub(crate) fn generation_at(tree: &Value, key: &str) -> Option<Gen>
    ensures { result ≡ member_of generation_of key.now (view tree.now) }
{
    generation_of(tree.get(key)?)
}

// The name of these bytes, where they are one.
pub(crate) fn named(alloc: Global, text: &str) -> Result<Option<Name>, AllocError>
    ensures { IfOk result (λ made. made ≡ text_within 1 MAX_NAME_LENGTH (string text.now)) }
{
    match Name::new(alloc, text) {
        Ok(name) => Ok(Some(name)),
        Err(NameError::Length) => Ok(None),
        Err(NameError::OutOfMemory) => Err(AllocError),
    }
}

// The text that a value gives.
pub(crate) fn given_text(alloc: Global, tree: &Value) -> Result<Option<Option<Text>>, AllocError>
    ensures { IfOk result (λ text. text ≡ given_text (view tree.now)) }
{
    match tree.as_str() {
        Some(text) => Ok(Some(Some(Text::new(alloc, text)?))),
        None => Ok(None),
    }
}

// The text that a member gives.
pub(crate) fn given_text_at(
    alloc: Global,
    tree: &Value,
    key: &str,
) -> Result<Option<Option<Text>>, AllocError>
    ensures { IfOk result (λ text. text ≡ member_of given_text key.now (view tree.now)) }
{
    match tree.get(key) {
        Some(value) => given_text(alloc, value),
        None => Ok(None),
    }
}
