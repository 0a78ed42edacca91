ghost use Rattle.std.specs.Prelude.{◌≡◌, find, option_map};
ghost use Rattle.std.specs.Option.{option_copied};
ghost use Rattle.ev_model.specs.Conditions.{has_unclear_key, is_piece_of, is_piece_unclear, key_of, may_be_decoded, parameter_says, pieces_of, pieces_say, query_of, value_of};

use crate::conditions::{is_pattern_met, yes_if};
use ev_model::Taken;
use ev_types::{QueryParameterMatcher, QueryTest};

/// What a query parameter's matcher says of the path that is asked.
pub(crate) fn query_says(path: &str, matcher: &QueryParameterMatcher) -> Taken
    ensures { result ≡ pieces_say matcher.now (pieces_of (query_of path.now)) }
{
    let name = matcher.name.as_str();
    let query = query_of(path);
    if is_piece_unclear(query, name) {
        return Taken::Undecided;
    }
    parameter_says(&matcher.test, find_value(query, name))
}

// The query of a path: what follows its first `?`.
fn query_of(path: &str) -> &str
    ensures { result.now ≡ query_of path.now }
{
    match path.split_once('?') {
        Some((_, query)) => query,
        None => "",
    }
}

// The key of a piece: what stands before its first `=`.
fn key_of(piece: &str) -> &str
    ensures { result.now ≡ key_of piece.now }
{
    match piece.split_once('=') {
        Some((key, _)) => key,
        None => piece,
    }
}

// The value of a piece: what follows its first `=`.
fn value_of(piece: &str) -> &str
    ensures { result.now ≡ value_of piece.now }
{
    match piece.split_once('=') {
        Some((_, value)) => value,
        None => "",
    }
}

// Whether a piece is of this parameter.
fn is_piece_of(name: &str, piece: &str) -> bool
    ensures { result ≡ is_piece_of name.now piece.now }
{
    key_of(piece) == name
}

// Whether Envoy may decode a text to another.
fn may_be_decoded(text: &str) -> bool
    ensures { result ≡ may_be_decoded text.now }
{
    text.as_bytes()
        .iter()
        .any(|byte| *byte == b'%' || *byte == b'+')
}

// Whether nothing says which piece is the parameter's first.
fn is_piece_unclear(query: &str, name: &str) -> bool
    ensures { result ≡ is_piece_unclear name.now (pieces_of query.now) }
{
    may_be_decoded(name) || has_unclear_key(query, name)
}

// Whether Envoy may decode the key of a piece before the first one of this parameter.
fn has_unclear_key(query: &str, name: &str) -> bool
    ensures { result ≡ has_unclear_key name.now (pieces_of query.now) }
{
    query
        .split('&')
        .take_while(|piece| !is_piece_of(name, piece))
        .any(|piece| may_be_decoded(key_of(piece)))
}

// The value of the first piece of this parameter.
fn find_value<'a>(query: &'a str, name: &str) -> Option<&'a str>
    ensures { option_copied result ≡ option_map value_of (find (is_piece_of name.now) (pieces_of query.now)) }
{
    match query.split('&').find(|piece| is_piece_of(name, piece)) {
        Some(piece) => Some(value_of(piece)),
        None => None,
    }
}

// What a test says of a parameter's value, or of a parameter that is missing.
fn parameter_says(test: &QueryTest, found: Option<&str>) -> Taken
    ensures { result ≡ parameter_says test.now (option_copied found.entry) }
{
    match (test, found) {
        (QueryTest::Text(matcher), Some(value)) => {
            if may_be_decoded(value) {
                return Taken::Undecided;
            }
            let text = value.as_bytes();
            yes_if(is_pattern_met(matcher.ignore_case, text, &matcher.pattern))
        }
        (QueryTest::Present(there), found) => yes_if(*there == found.is_some()),
        (QueryTest::Open, Some(_)) => Taken::Undecided,
        (QueryTest::Text(_) | QueryTest::Open, None) => Taken::No,
    }
}
