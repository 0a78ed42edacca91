ghost use Rattle.std.specs.Prelude.{◌≡◌};
ghost use Rattle.ev_tree.specs.Scalars.{is_seconds, all_zeros, seconds_span, whole_span, fraction_span, signed_span, span_of, span_at};

use crate::limits::{MAX_FRACTION_DIGITS, MAX_SECONDS, MAX_SECONDS_DIGITS};
use crate::span::Span;
use ev_types::is_numeral;

/// Where the duration lies that a text writes: an optional minus, 1 to 12 digits of whole seconds,
/// optionally a point and 1 to 9 digits, and `s`.
#[tactic(auto, unfolding(crate::specs::Scalars::span_of))]
pub fn span(text: &str) -> Option<Span>
    ensures { result ≡ span_of text.now }
{
    signed_span(text.strip_suffix('s')?)
}

// Of the seconds, after a minus or not.
#[tactic(auto, unfolding(crate::specs::Scalars::signed_span))]
fn signed_span(text: &str) -> Option<Span>
    ensures { result ≡ signed_span text.now }
{
    match text.strip_prefix('-') {
        Some(seconds) => seconds_span(true, seconds),
        None => seconds_span(false, text),
    }
}

// Of the seconds without a sign, with a point or without.
#[tactic(auto, unfolding(crate::specs::Scalars::seconds_span))]
fn seconds_span(minus: bool, text: &str) -> Option<Span>
    ensures { result ≡ seconds_span minus text.now }
{
    match text.split_once('.') {
        Some((whole, fraction)) => fraction_span(minus, whole, fraction),
        None => whole_span(minus, text),
    }
}

// Of whole seconds.
#[tactic(auto, unfolding(crate::specs::Scalars::whole_span))]
fn whole_span(minus: bool, whole: &str) -> Option<Span>
    ensures { result ≡ whole_span minus whole.now }
{
    if is_seconds(whole) {
        Some(span_at(minus, is_zeros(whole)))
    } else {
        None
    }
}

// Of whole seconds and a fraction.
#[tactic(auto, unfolding(crate::specs::Scalars::fraction_span))]
fn fraction_span(minus: bool, whole: &str, fraction: &str) -> Option<Span>
    ensures { result ≡ fraction_span minus whole.now fraction.now }
{
    if is_seconds(whole) && is_numeral(fraction, MAX_FRACTION_DIGITS) {
        Some(span_at(minus, is_zeros(whole) && is_zeros(fraction)))
    } else {
        None
    }
}

// Where a duration lies of this sign whose digits are all zeros or not.
fn span_at(minus: bool, zeros: bool) -> Span
    ensures { result ≡ span_at minus zeros }
{
    if zeros {
        Span::Zero
    } else if minus {
        Span::Negative
    } else {
        Span::Positive
    }
}

// Whether a text writes whole seconds that a duration may have.
fn is_seconds(whole: &str) -> bool
    ensures { result ≡ is_seconds whole.now }
{
    if !is_numeral(whole, MAX_SECONDS_DIGITS) {
        return false;
    }
    match whole.parse::<u64>() {
        Ok(seconds) => seconds <= MAX_SECONDS,
        Err(_) => false,
    }
}

// Whether all digits are 0.
fn is_zeros(digits: &str) -> bool
    ensures { result ≡ all_zeros digits.now }
{
    digits.as_bytes().iter().all(|byte| *byte == b'0')
}
