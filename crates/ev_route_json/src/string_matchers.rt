ghost use Rattle.std.specs.Prelude.{◌≡◌, IfOk};
ghost use Rattle.ev_tree.specs.Forms.{Shows, tree_of, text_of};
ghost use Rattle.ev_route_json.specs.Conditions.{pattern_found, matcher_with, string_matcher_of, string_matcher_broken};

use crate::targets::is_empty_text;
use ev_tree::{BrokenRules, Found, Inspection, exactly_one, member};
use ev_types::{StringMatcher, StringPattern, Text};
use serde_json::Value;
use std::alloc::{AllocError, Global};

/// What is found of the four fields that a pattern may be given by.
#[derive(Clone, Copy)]
pub(crate) struct Patterns<'a> {
    pub(crate) exact: Found<&'a str>,
    pub(crate) prefix: Found<&'a str>,
    pub(crate) suffix: Found<&'a str>,
    pub(crate) contains: Found<&'a str>,
}

/// Looks at the fields of these names.
pub(crate) fn find_patterns<'a>(
    alloc: Global,
    tree: Option<&'a Value>,
    exact: &str,
    prefix: &str,
    suffix: &str,
    contains: &str,
) -> Result<Patterns<'a>, AllocError>
    ensures exact { IfOk result (λ found. Shows (λ s. s.now) found.exact (text_of exact.now (tree_of tree.entry))) }
    ensures prefix { IfOk result (λ found. Shows (λ s. s.now) found.prefix (text_of prefix.now (tree_of tree.entry))) }
    ensures suffix { IfOk result (λ found. Shows (λ s. s.now) found.suffix (text_of suffix.now (tree_of tree.entry))) }
    ensures contains { IfOk result (λ found. Shows (λ s. s.now) found.contains (text_of contains.now (tree_of tree.entry))) }
{
    Ok(Patterns {
        exact: member::text(alloc, tree, exact)?,
        prefix: member::text(alloc, tree, prefix)?,
        suffix: member::text(alloc, tree, suffix)?,
        contains: member::text(alloc, tree, contains)?,
    })
}

/// The pattern that is given.
pub(crate) fn make_pattern(
    alloc: Global,
    patterns: Patterns<'_>,
) -> Result<Option<StringPattern>, AllocError>
    ensures { IfOk result (λ made. made
        ≡ pattern_found patterns.entry.exact patterns.entry.prefix patterns.entry.suffix patterns.entry.contains) }
{
    if let Found::Given(text) = patterns.exact {
        return Ok(Some(StringPattern::Exact(Text::new(alloc, text)?)));
    }
    if let Found::Given(text) = patterns.prefix {
        return Ok(Some(StringPattern::Prefix(Text::new(alloc, text)?)));
    }
    if let Found::Given(text) = patterns.suffix {
        return Ok(Some(StringPattern::Suffix(Text::new(alloc, text)?)));
    }
    if let Found::Given(text) = patterns.contains {
        return Ok(Some(StringPattern::Contains(Text::new(alloc, text)?)));
    }
    Ok(None)
}

// The matcher by a pattern; there is none without one.
fn matcher_with(pattern: Option<StringPattern>, ignore_case: bool) -> Option<StringMatcher>
    ensures { result ≡ matcher_with pattern ignore_case }
{
    match pattern {
        Some(pattern) => Some(StringMatcher {
            pattern,
            ignore_case,
        }),
        None => None,
    }
}

/// Inspects a string matcher, which may be missing.
pub(crate) fn inspect_string_matcher(
    alloc: Global,
    tree: Option<&Value>,
) -> Result<Inspection<Option<StringMatcher>>, AllocError>
    ensures value { IfOk result (λ found. found.value ≡ string_matcher_of (tree_of tree.entry)) }
    ensures broken { IfOk result (λ found. found.broken ≡ string_matcher_broken (tree_of tree.entry)) }
{
    let patterns = find_patterns(alloc, tree, "exact", "prefix", "suffix", "contains")?;
    let regex = member::object(alloc, tree, "safe_regex")?;
    let custom = member::object(alloc, tree, "custom")?;
    let ignore_case = member::boolean(alloc, tree, "ignore_case")?;
    let kinds = [
        patterns.exact.is_given(),
        patterns.prefix.is_given(),
        patterns.suffix.is_given(),
        patterns.contains.is_given(),
        regex.is_given(),
        custom.is_given(),
    ];
    let pattern = make_pattern(alloc, patterns)?;
    Ok(Inspection {
        value: matcher_with(pattern, ignore_case.given_or(false)),
        broken: BrokenRules {
            v6: patterns.exact.is_wrong()
                | patterns.prefix.is_wrong()
                | patterns.suffix.is_wrong()
                | patterns.contains.is_wrong()
                | regex.is_wrong()
                | custom.is_wrong()
                | ignore_case.is_wrong(),
            v21: !exactly_one(&kinds)
                | is_empty_text(patterns.prefix)
                | is_empty_text(patterns.suffix)
                | is_empty_text(patterns.contains),
            ..BrokenRules::none()
        },
    })
}
