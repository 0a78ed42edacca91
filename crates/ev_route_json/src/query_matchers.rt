ghost use Rattle.std.specs.Prelude.{◌≡◌, IfOk};
ghost use Rattle.serde_json.specs.View.{view};
ghost use Rattle.ev_route_json.specs.Conditions.{value_test, query_test_with, query_matcher_of, query_matcher_broken};

use crate::string_matchers::inspect_string_matcher;
use ev_tree::{BrokenRules, Inspection, member, more_than_one};
use ev_types::{QueryParameterMatcher, QueryTest, StringMatcher, Text};
use serde_json::Value;
use std::alloc::{AllocError, Global};

// The test by a string matcher; without a pattern it isn't decided here.
fn value_test(matcher: Option<StringMatcher>) -> QueryTest
    ensures { result ≡ value_test matcher }
{
    match matcher {
        Some(matcher) => QueryTest::Text(matcher),
        None => QueryTest::Open,
    }
}

// The test by a string matcher where one is given, else that the parameter is there, or isn't.
fn query_test_with(by_string: bool, matcher: Option<StringMatcher>, there: bool) -> QueryTest
    ensures { result ≡ query_test_with by_string matcher there }
{
    if by_string {
        value_test(matcher)
    } else {
        QueryTest::Present(there)
    }
}

/// Inspects the matcher of a query parameter.
pub(crate) fn inspect_query_matcher(
    alloc: Global,
    parameter: &Value,
) -> Result<Inspection<QueryParameterMatcher>, AllocError>
    ensures value { IfOk result (λ found. found.value ≡ query_matcher_of (view parameter.now)) }
    ensures broken { IfOk result (λ found. found.broken ≡ query_matcher_broken (view parameter.now)) }
{
    let name = member::text(alloc, Some(parameter), "name")?;
    let string = member::object(alloc, Some(parameter), "string_match")?;
    let present = member::boolean(alloc, Some(parameter), "present_match")?;
    let text = member::text_or_empty(name);
    let copied = Text::new(alloc, text)?;
    let matcher = inspect_string_matcher(alloc, member::inner(string))?;
    let own = BrokenRules {
        v6: name.is_wrong() | string.is_wrong() | present.is_wrong(),
        v21: text.is_empty() | more_than_one(&[string.is_given(), present.is_given()]),
        ..BrokenRules::none()
    };
    Ok(Inspection {
        broken: matcher.broken.only_if(string.is_given()).or(own),
        value: QueryParameterMatcher {
            name: copied,
            test: query_test_with(string.is_given(), matcher.value, present.given_or(true)),
        },
    })
}
