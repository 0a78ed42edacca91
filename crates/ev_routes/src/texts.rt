ghost use Rattle.std.specs.Prelude.{◌≡◌};
ghost use Rattle.std.specs.Str.{bytes_eq, str_to_ascii_lowercase};
ghost use Rattle.ev_model.specs.Paths.{begins_with, ends_with, without_query};

/// Whether the text begins with the prefix.
pub fn begins_with(text: &[u8], front: &[u8]) -> bool
    ensures { result ≡ begins_with text.now front.now }
{
    let (head, _) = text.split_at(front.len().min(text.len()));
    head == front
}

/// Whether the text ends with the back.
pub(crate) fn ends_with(text: &[u8], back: &[u8]) -> bool
    ensures { result ≡ ends_with text.now back.now }
{
    if back.len() > text.len() {
        return false;
    }
    let (_, tail) = text.split_at(text.len() - back.len());
    tail == back
}

/// Whether the text, with its ASCII letters as lower case, is this one.
pub fn is_lower(text: &[u8], lower: &[u8]) -> bool
    ensures { result ≡ bytes_eq (str_to_ascii_lowercase text.now) lower.now }
{
    if text.len() != lower.len() {
        return false;
    }
    for place in 0..text.len() {
        if text[place].to_ascii_lowercase() != lower[place] {
            return false;
        }
    }
    true
}

/// Whether two texts are the same with their ASCII letters as lower case.
pub fn same_lower(text: &[u8], other: &[u8]) -> bool
    ensures { result ≡ bytes_eq (str_to_ascii_lowercase text.now) (str_to_ascii_lowercase other.now) }
{
    if text.len() != other.len() {
        return false;
    }
    for place in 0..text.len() {
        if text[place].to_ascii_lowercase() != other[place].to_ascii_lowercase() {
            return false;
        }
    }
    true
}

/// Whether the text, with its ASCII letters as lower case, begins with the prefix.
pub(crate) fn begins_lower(text: &[u8], front: &[u8]) -> bool
    ensures { result ≡ begins_with (str_to_ascii_lowercase text.now) front.now }
{
    let (head, _) = text.split_at(front.len().min(text.len()));
    is_lower(head, front)
}

/// The path without its query.
pub fn without_query(path: &[u8]) -> &[u8]
    ensures { result.now ≡ without_query path.now }
{
    for place in 0..path.len() {
        if path[place] == b'?' {
            let (before, _) = path.split_at(place);
            return before;
        }
    }
    path
}
