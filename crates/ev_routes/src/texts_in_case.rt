ghost use Rattle.std.specs.Prelude.{◌≡◌};
ghost use Rattle.std.specs.Str.{bytes_eq};
ghost use Rattle.ev_model.specs.Conditions.{has_part, in_case};
ghost use Rattle.ev_model.specs.Paths.{begins_with, ends_with};

use crate::same_lower;

/// Whether two texts are the same; `ignore` compares their ASCII letters as lower case.
pub(crate) fn same_in_case(ignore: bool, text: &[u8], other: &[u8]) -> bool
    ensures { result ≡ bytes_eq (in_case ignore text.now) (in_case ignore other.now) }
{
    if ignore {
        same_lower(text, other)
    } else {
        text == other
    }
}

/// Whether the text begins with the front.
pub(crate) fn begins_in_case(ignore: bool, text: &[u8], front: &[u8]) -> bool
    ensures { result ≡ begins_with (in_case ignore text.now) (in_case ignore front.now) }
{
    let (head, _) = text.split_at(front.len().min(text.len()));
    same_in_case(ignore, head, front)
}

/// Whether the text ends with the back.
pub(crate) fn ends_in_case(ignore: bool, text: &[u8], back: &[u8]) -> bool
    ensures { result ≡ ends_with (in_case ignore text.now) (in_case ignore back.now) }
{
    if back.len() > text.len() {
        return false;
    }
    let (_, tail) = text.split_at(text.len() - back.len());
    same_in_case(ignore, tail, back)
}

/// Whether the text has the other as a part.
pub(crate) fn has_part_in_case(ignore: bool, text: &[u8], part: &[u8]) -> bool
    ensures { result ≡ has_part (in_case ignore text.now) (in_case ignore part.now) }
{
    for place in 0..text.len() {
        let (_, rest) = text.split_at(place);
        if begins_in_case(ignore, rest, part) {
            return true;
        }
    }
    begins_in_case(ignore, b"", part)
}
