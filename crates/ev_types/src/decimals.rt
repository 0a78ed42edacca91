ghost use Rattle.std.specs.Prelude.{◌≡◌};
ghost use Rattle.std.specs.Char.{is_ascii_digit};
ghost use Rattle.std.specs.List.{list_all};
ghost use Rattle.ev_types.specs.Decimals.{as_negative, as_positive, decimal_of, is_numeral, magnitude_of};

use crate::limits::MAX_DECIMAL_DIGITS;

/// Whether a text is 1 digit to `longest` digits.
pub fn is_numeral(text: &str, longest: usize) -> bool
    ensures { result ≡ is_numeral longest text.now }
{
    !text.is_empty() && text.len() <= longest && are_digits(text.as_bytes())
}

// Whether each byte is a digit.
fn are_digits(bytes: &[u8]) -> bool
    ensures { result ≡ list_all is_ascii_digit bytes.now }
{
    bytes.iter().all(|byte| byte.is_ascii_digit())
}

// The number that 1 to 19 digits write.
#[tactic(auto, unfolding(crate::specs::Decimals::magnitude_of))]
fn magnitude(text: &str) -> Option<u64>
    ensures { result ≡ magnitude_of text.now }
{
    if is_numeral(text, MAX_DECIMAL_DIGITS) {
        text.parse::<u64>().ok()
    } else {
        None
    }
}

// A number without a sign, where 64 bits with a sign hold it.
fn as_positive(magnitude: u64) -> Option<i64>
    ensures { result ≡ as_positive magnitude }
{
    i64::try_from(magnitude).ok()
}

// The same after a minus.
fn as_negative(magnitude: u64) -> Option<i64>
    ensures { result ≡ as_negative magnitude }
{
    0i64.checked_sub_unsigned(magnitude)
}

/// The number of 64 bits with a sign that a decimal text writes: a minus or none, then 1 to 19 digits, which may begin
/// with zeros. There is none where the text is another, or the number is beyond 64 bits with a sign. Source: 64-bit
/// integers in protobuf's JSON mapping.
#[tactic(auto, unfolding(crate::specs::Decimals::decimal_of))]
pub fn read_decimal(text: &str) -> Option<i64>
    ensures { result ≡ decimal_of text.now }
{
    match text.strip_prefix('-') {
        Some(digits) => as_negative(magnitude(digits)?),
        None => as_positive(magnitude(text)?),
    }
}
