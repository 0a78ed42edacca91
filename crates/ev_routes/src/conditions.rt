ghost use Rattle.std.specs.Prelude.{◌≡◌, map};
ghost use Rattle.std.specs.List.{list_any};
ghost use Rattle.std.specs.Option.{option_copied};
ghost use Rattle.std.specs.Str.{bytes_eq};
ghost use Rattle.ev_model.specs.Choice.{requested_of};
ghost use Rattle.ev_model.specs.Conditions.{condition_says, found_says, header_value, inverted, is_grpc, is_in_range, is_no, is_pattern_met, is_undecided, match_says, missing_says, path_says, value_says, yes_if};
ghost use Rattle.ev_routes.specs.Requests.{has_grpc_type, is_connect, value_in};

use crate::begins_with;
use crate::folded_paths::is_folded_path_taken;
use crate::queries::query_says;
use crate::routes::is_path_taken;
use crate::texts_in_case::{begins_in_case, ends_in_case, has_part_in_case, same_in_case};
use ev_model::Taken;
use ev_types::{
    Ask, HeaderMatcher, HeaderTest, PathSpecifier, RouteCondition, RouteMatch, StringPattern, Text,
    read_decimal,
};

/// What a route's match says of a request.
pub fn match_says(ask: &Ask, route_match: &RouteMatch) -> Taken
    ensures { result ≡ match_says (requested_of ask.now) route_match.now }
{
    let path = path_says(ask, &route_match.path);
    let conditions = route_match.conditions.as_slice();
    if is_no(path) || any_says_no(ask, conditions) {
        return Taken::No;
    }
    if is_undecided(path) || any_is_undecided(ask, conditions) {
        return Taken::Undecided;
    }
    Taken::Yes
}

/// Whether it is a no.
pub(crate) fn is_no(said: Taken) -> bool
    ensures { result ≡ is_no said }
{
    match said {
        Taken::No => true,
        Taken::Yes | Taken::Undecided => false,
    }
}

// Whether it is undecided.
fn is_undecided(said: Taken) -> bool
    ensures { result ≡ is_undecided said }
{
    match said {
        Taken::Undecided => true,
        Taken::No | Taken::Yes => false,
    }
}

// Whether one of the conditions says no.
fn any_says_no(ask: &Ask, conditions: &[RouteCondition]) -> bool
    ensures { result ≡ list_any is_no (map (condition_says (requested_of ask.now)) conditions.now) }
{
    conditions
        .iter()
        .map(|condition| condition_says(ask, condition))
        .any(|said| is_no(said))
}

// Whether one of the conditions is undecided.
fn any_is_undecided(ask: &Ask, conditions: &[RouteCondition]) -> bool
    ensures { result ≡ list_any is_undecided (map (condition_says (requested_of ask.now)) conditions.now) }
{
    conditions
        .iter()
        .map(|condition| condition_says(ask, condition))
        .any(|said| is_undecided(said))
}

/// Yes where it is so, else no.
pub(crate) fn yes_if(so: bool) -> Taken
    ensures { result ≡ yes_if so }
{
    if so { Taken::Yes } else { Taken::No }
}

// What is asked of the path says of a request.
fn path_says(ask: &Ask, path: &PathSpecifier) -> Taken
    ensures { result ≡ path_says (requested_of ask.now) path.now }
{
    let asked = ask.path.as_str().as_bytes();
    match path {
        PathSpecifier::Cased(path) => yes_if(is_path_taken(asked, path)),
        PathSpecifier::Folded(path) => yes_if(is_folded_path_taken(asked, path)),
        PathSpecifier::Connect => yes_if(is_connect(ask)),
        PathSpecifier::Open => Taken::Undecided,
    }
}

// Whether the method is CONNECT.
fn is_connect(ask: &Ask) -> bool
    ensures { result ≡ is_connect (requested_of ask.now) }
{
    match header_value(ask, ":method") {
        Some(method) => "CONNECT" == method,
        None => false,
    }
}

// What a condition says of a request.
fn condition_says(ask: &Ask, condition: &RouteCondition) -> Taken
    ensures { result ≡ condition_says (requested_of ask.now) condition.now }
{
    match condition {
        RouteCondition::Header(matcher) => {
            found_says(matcher, header_value(ask, matcher.name.as_str()))
        }
        RouteCondition::Query(matcher) => query_says(ask.path.as_str(), matcher),
        RouteCondition::Grpc => yes_if(has_grpc_type(ask)),
        RouteCondition::Open => Taken::Undecided,
    }
}

// Whether the request has the content type of gRPC.
fn has_grpc_type(ask: &Ask) -> bool
    ensures { result ≡ has_grpc_type (requested_of ask.now) }
{
    match header_value(ask, "content-type") {
        Some(value) => is_grpc(value.as_bytes()),
        None => false,
    }
}

// Whether the value is the content type of a gRPC request.
fn is_grpc(value: &[u8]) -> bool
    ensures { result ≡ is_grpc value.now }
{
    let grpc: &[u8] = b"application/grpc";
    value == grpc || begins_with(value, b"application/grpc+")
}

// What a matcher says of what was found of its header.
fn found_says(matcher: &HeaderMatcher, found: Option<&str>) -> Taken
    ensures { result ≡ found_says matcher.now (option_copied found.entry) }
{
    match found {
        Some(value) => value_says(&matcher.test, matcher.invert_match, value),
        None if matcher.treat_missing_header_as_empty => {
            value_says(&matcher.test, matcher.invert_match, "")
        }
        None => missing_says(&matcher.test, matcher.invert_match),
    }
}

// What a test says of a header's value.
fn value_says(test: &HeaderTest, invert: bool, value: &str) -> Taken
    ensures { result ≡ value_says test.now invert value.now }
{
    match test {
        HeaderTest::Text(matcher) => yes_if(inverted(
            invert,
            is_pattern_met(matcher.ignore_case, value.as_bytes(), &matcher.pattern),
        )),
        HeaderTest::Present => yes_if(inverted(invert, true)),
        HeaderTest::Range { start, end } => {
            yes_if(inverted(invert, is_in_range(*start, *end, value)))
        }
        HeaderTest::Open => Taken::Undecided,
    }
}

// What a test says of a header that is missing.
fn missing_says(test: &HeaderTest, invert: bool) -> Taken
    ensures { result ≡ missing_says test.now invert }
{
    match test {
        HeaderTest::Text(_) | HeaderTest::Range { .. } | HeaderTest::Open => Taken::No,
        HeaderTest::Present => yes_if(inverted(invert, false)),
    }
}

// Whether the text is the decimal text of a number that is at least the start and below the end.
fn is_in_range(start: i64, end: i64, text: &str) -> bool
    ensures { result ≡ is_in_range start end text.now }
{
    match read_decimal(text) {
        Some(number) => start <= number && number < end,
        None => false,
    }
}

// Turned over where it is inverted.
fn inverted(invert: bool, said: bool) -> bool
    ensures { result ≡ inverted invert said }
{
    if invert { !said } else { said }
}

/// Whether the pattern takes the text.
pub(crate) fn is_pattern_met(ignore: bool, text: &[u8], pattern: &StringPattern) -> bool
    ensures { result ≡ is_pattern_met ignore text.now pattern.now }
{
    match pattern {
        StringPattern::Exact(other) => same_in_case(ignore, text, other.as_str().as_bytes()),
        StringPattern::Prefix(front) => begins_in_case(ignore, text, front.as_str().as_bytes()),
        StringPattern::Suffix(back) => ends_in_case(ignore, text, back.as_str().as_bytes()),
        StringPattern::Contains(part) => has_part_in_case(ignore, text, part.as_str().as_bytes()),
    }
}

// The value of a header of the request; its host and its path are headers, too.
fn header_value<'a>(ask: &'a Ask, name: &str) -> Option<&'a str>
    ensures { option_copied result ≡ header_value (requested_of ask.now) name.now }
{
    if ":authority" == name {
        return Some(ask.host.as_str());
    }
    if ":path" == name {
        return Some(ask.path.as_str());
    }
    header_in(ask.headers.as_slice(), name)
}

// The value of the header of this name.
fn header_in<'a>(headers: &'a [(Text, Text)], name: &str) -> Option<&'a str>
    ensures { option_copied result ≡ value_in headers.now name.now }
{
    match headers.iter().find(|header| is_named(header, name)) {
        Some(header) => Some(header.1.as_str()),
        None => None,
    }
}

// Whether a header has this name.
fn is_named(header: &(Text, Text), name: &str) -> bool
    ensures { result ≡ bytes_eq header.now.0 name.now }
{
    header.0.as_str() == name
}
