ghost use Rattle.std.specs.Prelude.{◌≡◌, ◌++◌, codes};
ghost use Rattle.std.specs.Str.{str_to_ascii_lowercase};
ghost use Rattle.ev_model.specs.Conditions.{lower_match};
ghost use Rattle.ev_model.specs.Paths.{begins_with, is_path_taken};

use crate::texts_in_case::begins_in_case;
use crate::{same_lower, without_query};
use ev_types::PathMatch;

/// Whether the match takes the path, with the ASCII letters of both as lower case.
pub(crate) fn is_folded_path_taken(path: &[u8], path_match: &PathMatch) -> bool
    ensures { result ≡ is_path_taken (str_to_ascii_lowercase path.now) (lower_match path_match.now) }
{
    match path_match {
        PathMatch::Prefix(front) => begins_in_case(true, path, front.as_str().as_bytes()),
        PathMatch::Path(whole) => same_lower(without_query(path), whole.as_str().as_bytes()),
        PathMatch::Separated(front) => {
            let front = front.as_str().as_bytes();
            let bare = without_query(path);
            same_lower(bare, front) || goes_on_lower(bare, front)
        }
    }
}

// Whether the path goes on with a `/` after the front, both as lower case.
fn goes_on_lower(path: &[u8], front: &[u8]) -> bool
    ensures { result ≡ begins_with (str_to_ascii_lowercase path.now) (str_to_ascii_lowercase front.now ++ codes "/") }
{
    if path.len() <= front.len() {
        return false;
    }
    begins_in_case(true, path, front) && path[front.len()] == b'/'
}
