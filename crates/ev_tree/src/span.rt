ghost use Rattle.std.specs.Prelude.{◌≡◌};
ghost use Rattle.ev_tree.specs.Spans.{is_negative, is_zero, is_not_positive};

use crate::outcome::Found;

/// Where a duration lies: below zero, at zero or above.
#[derive(Clone, Copy, Debug, PartialEq, Eq)]
pub enum Span {
    Negative,
    Zero,
    Positive,
}

/// Whether a duration is given that is negative.
pub fn is_negative(found: Found<Span>) -> bool
    ensures { result ≡ is_negative found }
{
    matches!(found, Found::Given(Span::Negative))
}

/// Whether a duration is given that is zero.
pub fn is_zero(found: Found<Span>) -> bool
    ensures { result ≡ is_zero found }
{
    matches!(found, Found::Given(Span::Zero))
}

/// Whether a duration is given that isn't positive.
pub fn is_not_positive(found: Found<Span>) -> bool
    ensures { result ≡ is_not_positive found }
{
    match found {
        Found::Given(Span::Negative | Span::Zero) => true,
        Found::Given(Span::Positive) | Found::Absent | Found::Wrong => false,
    }
}
