ghost use Rattle.std.specs.Prelude.{◌≡◌, IfOk};
ghost use Rattle.ev_tree.specs.Forms.{tree_of, found_map};
ghost use Rattle.ev_route_json.specs.Matches.{match_broken, path_of, path_found, is_false, is_bad_separated, separated_is_bad, ends_a_path};
ghost use Rattle.std.specs.List.{list_any};

use crate::presence::inspect_fields;
use ev_tree::{BrokenRules, Found, Inspection, exactly_one, member};
use ev_types::{PathMatch, Text};
use serde_json::Value;
use std::alloc::{AllocError, Global};

/// Inspects the match of a route, which may be missing.
pub fn inspect_match(
    alloc: Global,
    tree: Option<&Value>,
) -> Result<Inspection<PathMatch>, AllocError>
    ensures value { IfOk result (λ found. found.value ≡ path_of (tree_of tree.entry)) }
    ensures broken { IfOk result (λ found. found.broken ≡ match_broken (tree_of tree.entry)) }
{
    let prefix = member::text(alloc, tree, "prefix")?;
    let path = member::text(alloc, tree, "path")?;
    let separated = member::text(alloc, tree, "path_separated_prefix")?;
    let sensitive = member::boolean(alloc, tree, "case_sensitive")?;
    let barred = inspect_fields(
        alloc,
        tree,
        &[
            "safe_regex",
            "connect_matcher",
            "path_match_policy",
            "runtime_fraction",
            "grpc",
            "tls_context",
        ],
    )?;
    let listed = inspect_fields(
        alloc,
        tree,
        &[
            "headers",
            "query_parameters",
            "dynamic_metadata",
            "filter_state",
        ],
    )?;
    let kinds = [prefix.is_given(), path.is_given(), separated.is_given()];
    Ok(Inspection {
        value: make_path(alloc, prefix, path, separated)?,
        broken: BrokenRules {
            v6: prefix.is_wrong()
                | path.is_wrong()
                | separated.is_wrong()
                | sensitive.is_wrong()
                | barred.doubled
                | listed.doubled,
            v21: !exactly_one(&kinds)
                | barred.given
                | listed.filled
                | is_false(sensitive)
                | separated_is_bad(separated),
            ..BrokenRules::none()
        },
    })
}

// Whether `false` is given.
pub(crate) fn is_false(found: Found<bool>) -> bool
    ensures { result ≡ is_false found }
{
    matches!(found, Found::Given(false))
}

// Whether a prefix of whole segments is given that can't be one.
pub(crate) fn separated_is_bad(separated: Found<&str>) -> bool
    ensures { result ≡ separated_is_bad (found_map (λ s. s.now) separated.entry) }
{
    match separated {
        Found::Given(text) => is_bad_separated(text.as_bytes()),
        Found::Absent | Found::Wrong => false,
    }
}

// Whether a prefix of whole segments is empty, ends with `/`, or has a `?` or `#`.
fn is_bad_separated(text: &[u8]) -> bool
    ensures { result ≡ is_bad_separated text.now }
{
    if text.is_empty() {
        return true;
    }
    text[text.len() - 1] == b'/' || has_path_end(text)
}

// Whether a byte ends a path.
fn has_path_end(text: &[u8]) -> bool
    ensures { result ≡ list_any ends_a_path text.now }
{
    text.iter().any(|byte| *byte == b'?' || *byte == b'#')
}

// The match of what is given.
pub(crate) fn make_path(
    alloc: Global,
    prefix: Found<&str>,
    path: Found<&str>,
    separated: Found<&str>,
) -> Result<PathMatch, AllocError>
    ensures { IfOk result (λ made. made ≡ path_found prefix.entry path.entry separated.entry) }
{
    if let Found::Given(text) = prefix {
        return Ok(PathMatch::Prefix(Text::new(alloc, text)?));
    }
    if let Found::Given(text) = path {
        return Ok(PathMatch::Path(Text::new(alloc, text)?));
    }
    let text = member::text_or_empty(separated);
    Ok(PathMatch::Separated(Text::new(alloc, text)?))
}
