ghost use Rattle.std.specs.Prelude.{◌≡◌};
ghost use Rattle.ev_tree.specs.Scalars.{u32_text, u32_in, i64_in};
ghost use Rattle.serde_json.specs.View.{view};

use crate::limits::MAX_U32_DIGITS;
use ev_types::{is_numeral, read_decimal};
use serde_json::Value;

// The number that 1 to 10 digits write, if it is below 2^32.
#[tactic(auto, unfolding(crate::specs::Scalars::u32_text))]
fn parse_u32(text: &str) -> Option<u32>
    ensures { result ≡ u32_text text.now }
{
    if is_numeral(text, MAX_U32_DIGITS) {
        text.parse::<u32>().ok()
    } else {
        None
    }
}

/// A value as a u32: a whole number below 2^32, or a string of 1 to 10 digits that writes one.
#[tactic(auto, unfolding(crate::specs::Scalars::u32_in))]
pub fn u32_value(value: &Value) -> Option<u32>
    ensures { result ≡ u32_in (view value.now) }
{
    if let Some(text) = value.as_str() {
        return parse_u32(text);
    }
    u32::try_from(value.as_u64()?).ok()
}

/// A value as an i64: a whole number below 2^63 that isn't negative,
/// or a decimal text that writes one. A negative number stands as a text, as protobuf's JSON mapping writes it.
#[tactic(auto, unfolding(crate::specs::Scalars::i64_in))]
pub fn i64_value(value: &Value) -> Option<i64>
    ensures { result ≡ i64_in (view value.now) }
{
    if let Some(text) = value.as_str() {
        return read_decimal(text);
    }
    i64::try_from(value.as_u64()?).ok()
}
