ghost use Rattle.std.specs.Prelude.{◌≡◌, false, None, IfOk};
ghost use Rattle.std.specs.Str.{str_to_ascii_lowercase};
ghost use Rattle.serde_json.specs.View.{view};
ghost use Rattle.ev_tree.specs.Forms.{tree_of};
ghost use Rattle.ev_types.specs.declared.matchers.HeaderTest.TheVariants.{Range};
ghost use Rattle.ev_route_json.specs.Conditions.{text_test, header_test_with, tests_broken, header_test_of, header_test_broken, range_of, range_broken, turned_over, header_matcher_of, header_matcher_broken};

use crate::matches::is_false;
use crate::parts::Inspect;
use crate::query_matchers::inspect_query_matcher;
use crate::string_matchers::{Patterns, find_patterns, inspect_string_matcher, make_pattern};
use crate::targets::is_empty_text;
use ev_tree::{BrokenRules, Found, Inspection, member, more_than_one};
use ev_types::{HeaderMatcher, HeaderTest, RouteCondition, StringMatcher, StringPattern, Text};
use serde_json::Value;
use std::alloc::{AllocError, Global};

/// Which list of a match an element stands in.
#[derive(Clone, Copy)]
pub enum MatcherKind {
    /// `headers`.
    OfHeader,
    /// `query_parameters`.
    OfQuery,
}

impl Inspect<MatcherKind> for RouteCondition {
    ghost use Rattle.ev_route_json.specs.Conditions.{condition_of, condition_broken};

    ghost value_of = { condition_of };

    ghost broken_of = { condition_broken };

    fn inspect(
        alloc: Global,
        kind: MatcherKind,
        tree: &Value,
    ) -> Result<Inspection<RouteCondition>, AllocError> {
        match kind {
            MatcherKind::OfHeader => {
                let found = inspect_header_matcher(alloc, tree)?;
                Ok(Inspection {
                    value: RouteCondition::Header(found.value),
                    broken: found.broken,
                })
            }
            MatcherKind::OfQuery => {
                let found = inspect_query_matcher(alloc, tree)?;
                Ok(Inspection {
                    value: RouteCondition::Query(found.value),
                    broken: found.broken,
                })
            }
        }
    }
}

// The test of what is given. Without any it is that the header is there.
fn header_test_with(
    pattern: Option<StringPattern>,
    by_string: bool,
    matcher: Option<StringMatcher>,
    by_range: bool,
    range: Numbers,
    by_regex: bool,
) -> HeaderTest
    ensures { result ≡ header_test_with pattern by_string matcher by_range (Range range.start range.end) by_regex }
{
    match pattern {
        Some(pattern) => HeaderTest::Text(StringMatcher {
            pattern,
            ignore_case: false,
        }),
        None => patternless_test(by_string, matcher, by_range, range, by_regex),
    }
}

// The same where no pattern is given.
fn patternless_test(
    by_string: bool,
    matcher: Option<StringMatcher>,
    by_range: bool,
    range: Numbers,
    by_regex: bool,
) -> HeaderTest
    ensures { result ≡ header_test_with None by_string matcher by_range (Range range.start range.end) by_regex }
{
    if by_string {
        text_test(matcher)
    } else {
        textless_test(by_range, range, by_regex)
    }
}

// The same where no string matcher is given either.
fn textless_test(by_range: bool, range: Numbers, by_regex: bool) -> HeaderTest
    ensures { result ≡ header_test_with None false None by_range (Range range.start range.end) by_regex }
{
    if by_range {
        HeaderTest::Range {
            start: range.start,
            end: range.end,
        }
    } else if by_regex {
        HeaderTest::Open
    } else {
        HeaderTest::Present
    }
}

// The test by a string matcher; without a pattern it isn't decided here.
fn text_test(matcher: Option<StringMatcher>) -> HeaderTest
    ensures { result ≡ text_test matcher }
{
    match matcher {
        Some(matcher) => HeaderTest::Text(matcher),
        None => HeaderTest::Open,
    }
}

// A range of numbers: from its start, up to and without its end.
#[derive(Clone, Copy)]
struct Numbers {
    start: i64,
    end: i64,
    // The rules that it breaks.
    broken: BrokenRules,
}

// Inspects a range of numbers, which may be missing.
fn inspect_range(alloc: Global, tree: Option<&Value>) -> Result<Numbers, AllocError>
    ensures value { IfOk result (λ found. Range found.start found.end ≡ range_of (tree_of tree.entry)) }
    ensures broken { IfOk result (λ found. found.broken ≡ range_broken (tree_of tree.entry)) }
{
    let start = member::number64(alloc, tree, "start")?;
    let end = member::number64(alloc, tree, "end")?;
    Ok(Numbers {
        start: start.given_or(0),
        end: end.given_or(0),
        broken: BrokenRules {
            v6: start.is_wrong() | end.is_wrong(),
            ..BrokenRules::none()
        },
    })
}

// Turned over, or as it is.
fn turned_over(turn: bool, said: bool) -> bool
    ensures { result ≡ turned_over turn said }
{
    if turn { !said } else { said }
}

// A text with its ASCII letters as lower case.
fn lower(alloc: Global, text: &str) -> Result<Text, AllocError>
    ensures { IfOk result (λ made. made ≡ str_to_ascii_lowercase text.now) }
{
    let mut lower = String::from_str(alloc, text)?;
    lower.make_ascii_lowercase();
    Text::new(alloc, lower.as_str())
}

// The rules that the tests of a header break themselves, by what is found of each.
fn judge_tests(
    patterns: Patterns<'_>,
    present: Found<bool>,
    string: Found<&Value>,
    regex: Found<&Value>,
    range: Found<&Value>,
) -> BrokenRules
    ensures { result ≡ tests_broken patterns.entry present string.entry regex.entry range.entry }
{
    let tests = [
        patterns.exact.is_given(),
        patterns.prefix.is_given(),
        patterns.suffix.is_given(),
        patterns.contains.is_given(),
        present.is_given(),
        string.is_given(),
        regex.is_given(),
        range.is_given(),
    ];
    BrokenRules {
        v6: patterns.exact.is_wrong()
            | patterns.prefix.is_wrong()
            | patterns.suffix.is_wrong()
            | patterns.contains.is_wrong()
            | present.is_wrong()
            | string.is_wrong()
            | regex.is_wrong()
            | range.is_wrong(),
        v21: more_than_one(&tests)
            | is_empty_text(patterns.prefix)
            | is_empty_text(patterns.suffix)
            | is_empty_text(patterns.contains),
        ..BrokenRules::none()
    }
}

// Inspects what is asked of a header's value.
fn inspect_header_test(alloc: Global, header: &Value) -> Result<Inspection<HeaderTest>, AllocError>
    ensures value { IfOk result (λ found. found.value ≡ header_test_of (view header.now)) }
    ensures broken { IfOk result (λ found. found.broken ≡ header_test_broken (view header.now)) }
{
    let object = Some(header);
    let patterns = find_patterns(
        alloc,
        object,
        "exact_match",
        "prefix_match",
        "suffix_match",
        "contains_match",
    )?;
    let present = member::boolean(alloc, object, "present_match")?;
    let string = member::object(alloc, object, "string_match")?;
    let regex = member::object(alloc, object, "safe_regex_match")?;
    let range = member::object(alloc, object, "range_match")?;
    let matcher = inspect_string_matcher(alloc, member::inner(string))?;
    let numbers = inspect_range(alloc, member::inner(range))?;
    let pattern = make_pattern(alloc, patterns)?;
    let by_string = string.is_given();
    let parts = matcher.broken.only_if(by_string).or(numbers.broken);
    let own = judge_tests(patterns, present, string, regex, range);
    Ok(Inspection {
        broken: parts.or(own),
        value: header_test_with(
            pattern,
            by_string,
            matcher.value,
            range.is_given(),
            numbers,
            regex.is_given(),
        ),
    })
}

// Inspects a header matcher.
fn inspect_header_matcher(
    alloc: Global,
    header: &Value,
) -> Result<Inspection<HeaderMatcher>, AllocError>
    ensures value { IfOk result (λ found. found.value ≡ header_matcher_of (view header.now)) }
    ensures broken { IfOk result (λ found. found.broken ≡ header_matcher_broken (view header.now)) }
{
    let name = member::text(alloc, Some(header), "name")?;
    let present = member::boolean(alloc, Some(header), "present_match")?;
    let invert = member::boolean(alloc, Some(header), "invert_match")?;
    let as_empty = member::boolean(alloc, Some(header), "treat_missing_header_as_empty")?;
    let text = member::text_or_empty(name);
    let lowered = lower(alloc, text)?;
    let test = inspect_header_test(alloc, header)?;
    let own = BrokenRules {
        v6: name.is_wrong() | invert.is_wrong() | as_empty.is_wrong(),
        v21: text.is_empty(),
        ..BrokenRules::none()
    };
    Ok(Inspection {
        broken: test.broken.or(own),
        value: HeaderMatcher {
            name: lowered,
            test: test.value,
            invert_match: turned_over(is_false(present), invert.given_or(false)),
            treat_missing_header_as_empty: as_empty.given_or(false),
        },
    })
}
