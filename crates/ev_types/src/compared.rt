ghost use Rattle.std.specs.Prelude.{◌≡◌, Bool};
ghost use lib.Pointwise.{pointwise};
ghost use Rattle.ev_types.specs.SameAnswers.{told_same};

use crate::contents::Request;
use crate::events::Verdict;
use crate::texts::{Name, Text};

/// What can be compared, by a test of its own.
pub(crate) trait Compared {
    // the test
    ghost same: { Self → Self → Bool };

    /// Whether the two are the same.
    fn is_same(&self, other: &Self) -> bool
        ensures { result ≡ same self.now other.now };
}

/// Whether both lists have the same elements, in the same order.
pub(crate) fn are_same<T: Compared>(ones: &[T], others: &[T]) -> bool
    ensures { result ≡ pointwise T.same ones.now others.now }
{
    if ones.len() != others.len() {
        return false;
    }
    for place in 0..ones.len() {
        let same = ones[place].is_same(&others[place]);
        if !same {
            return false;
        }
    }
    true
}

impl Compared for Request {
    ghost use Rattle.ev_types.specs.SameAnswers.{request_same};

    ghost same = { request_same };

    fn is_same(&self, other: &Request) -> bool {
        self.kind == other.kind
            && is_same_text(&self.node, &other.node)
            && self.subscribe == other.subscribe
            && self.unsubscribe == other.unsubscribe
            && are_same(self.versions.as_slice(), other.versions.as_slice())
            && is_same_text(&self.nonce, &other.nonce)
            && is_same_text(&self.error, &other.error)
    }
}

// Whether both have the same text, or neither has one.
fn is_same_text(one: &Option<Text>, other: &Option<Text>) -> bool
    ensures { result ≡ told_same one.now other.now }
{
    match (one, other) {
        (None, None) => true,
        (Some(one), Some(other)) => one == other,
        _ => false,
    }
}

impl Compared for (Name, Text) {
    ghost use Rattle.ev_types.specs.SameAnswers.{named_same};

    ghost same = { named_same };

    fn is_same(&self, other: &(Name, Text)) -> bool {
        self.0 == other.0 && self.1 == other.1
    }
}

impl Compared for Verdict {
    ghost use Rattle.ev_types.specs.SameAnswers.{verdict_same};

    ghost same = { verdict_same };

    fn is_same(&self, other: &Verdict) -> bool {
        match (self, other) {
            (Verdict::New, Verdict::New) => true,
            (Verdict::Same, Verdict::Same) => true,
            (Verdict::InPlace, Verdict::InPlace) => true,
            (Verdict::Back, Verdict::Back) => true,
            (Verdict::Kept, Verdict::Kept) => true,
            (Verdict::Unasked, Verdict::Unasked) => true,
            (Verdict::Renewed, Verdict::Renewed) => true,
            (Verdict::Refused(one), Verdict::Refused(other)) => one == other,
            _ => false,
        }
    }
}
