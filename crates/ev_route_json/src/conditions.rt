ghost use Rattle.std.specs.Prelude.{◌≡◌, ◌++◌, IfOk, map};
ghost use Rattle.serde_json.specs.View.{view};
ghost use Rattle.ev_tree.specs.Forms.{tree_of, found_map};
ghost use Rattle.ev_tree.specs.Broken.{any_broken};
ghost use Rattle.ev_route_json.specs.Conditions.{condition_of, condition_broken, has_elements, is_open, open_wrong, with_condition, conditions_with, conditions_of, conditions_broken, specifier_with, path_specifier_of, path_specifier_broken, route_match_of, route_match_broken, own_match_of, match_in, match_broken_in};
ghost use Rattle.ev_types.specs.declared.matchers.RouteCondition.TheVariants.{Grpc};
ghost use Rattle.ev_route_json.specs.Matches.{match_broken};

use crate::header_matchers::MatcherKind;
use crate::matches::{inspect_match, is_false, make_path, separated_is_bad};
use crate::parts::inspect_all;
use ev_tree::{BrokenRules, Found, Inspection, exactly_one, member};
use ev_types::{PathMatch, PathSpecifier, Profile, RouteCondition, RouteMatch, Seq};
use serde_json::Value;
use std::alloc::{AllocError, Global};

// What is found of the conditions that aren't decided here.
#[derive(Clone, Copy)]
struct OpenConditions {
    // One of them is given.
    given: bool,
    // One of them has the wrong form.
    wrong: bool,
}

// Inspects the conditions that aren't decided here.
fn inspect_open(alloc: Global, tree: Option<&Value>) -> Result<OpenConditions, AllocError>
    ensures given { IfOk result (λ found. found.given ≡ is_open (tree_of tree.entry)) }
    ensures wrong { IfOk result (λ found. found.wrong ≡ open_wrong (tree_of tree.entry)) }
{
    let fraction = member::object(alloc, tree, "runtime_fraction")?;
    let certificate = member::object(alloc, tree, "tls_context")?;
    let metadata = member::objects(alloc, tree, "dynamic_metadata")?;
    let state = member::objects(alloc, tree, "filter_state")?;
    Ok(OpenConditions {
        given: fraction.is_given()
            | certificate.is_given()
            | has_elements(metadata)
            | has_elements(state),
        wrong: fraction.is_wrong()
            | certificate.is_wrong()
            | metadata.is_wrong()
            | state.is_wrong(),
    })
}

// Whether a list is given that has elements.
fn has_elements(found: Found<&[Value]>) -> bool
    ensures { result ≡ has_elements (found_map (λ vs. map view vs.now) found.entry) }
{
    !member::elements(found).is_empty()
}

// These conditions, and after them that it is a gRPC request, where that is asked.
fn with_grpc(
    conditions: Vec<RouteCondition>,
    asked: bool,
) -> Result<Vec<RouteCondition>, AllocError>
    ensures { IfOk result (λ made. made.items ≡ with_condition conditions.items asked Grpc) }
{
    let mut more = conditions;
    if asked {
        more.push(RouteCondition::Grpc)?;
    }
    Ok(more)
}

// Those on headers and query parameters, then that it is a gRPC request, then one for all that aren't decided here.
fn conditions_with(
    matched: Vec<RouteCondition>,
    grpc: bool,
    undecided: bool,
) -> Result<Vec<RouteCondition>, AllocError>
    ensures { IfOk result (λ made. made.items ≡ conditions_with matched.items grpc undecided) }
{
    let mut all = with_grpc(matched, grpc)?;
    if undecided {
        all.push(RouteCondition::Open)?;
    }
    Ok(all)
}

// Inspects what a match asks beside the path.
fn inspect_conditions(
    alloc: Global,
    tree: Option<&Value>,
) -> Result<Inspection<Vec<RouteCondition>>, AllocError>
    ensures value { IfOk result (λ found. found.value.items ≡ conditions_of (tree_of tree.entry)) }
    ensures broken { IfOk result (λ found. found.broken ≡ conditions_broken (tree_of tree.entry)) }
{
    let headers = member::objects(alloc, tree, "headers")?;
    let parameters = member::objects(alloc, tree, "query_parameters")?;
    let grpc = member::object(alloc, tree, "grpc")?;
    let undecided = inspect_open(alloc, tree)?;
    let by_header = inspect_matchers(alloc, MatcherKind::OfHeader, member::elements(headers))?;
    let by_query = inspect_matchers(alloc, MatcherKind::OfQuery, member::elements(parameters))?;
    let own = BrokenRules {
        v6: headers.is_wrong() | parameters.is_wrong() | grpc.is_wrong() | undecided.wrong,
        ..BrokenRules::none()
    };
    let matched = joined(by_header.value, by_query.value)?;
    Ok(Inspection {
        broken: by_header.broken.or(by_query.broken).or(own),
        value: conditions_with(matched, grpc.is_given(), undecided.given)?,
    })
}

// Inspects the elements of one of the two lists of matchers.
fn inspect_matchers(
    alloc: Global,
    kind: MatcherKind,
    trees: &[Value],
) -> Result<Inspection<Vec<RouteCondition>>, AllocError>
    ensures values { IfOk result (λ found. found.value.items ≡ map (condition_of kind) (map view trees.now)) }
    ensures broken { IfOk result (λ found. found.broken ≡ any_broken (condition_broken kind) (map view trees.now)) }
{
    inspect_all::<MatcherKind, RouteCondition>(alloc, kind, trees)
}

// One list after the other.
fn joined(
    first: Vec<RouteCondition>,
    second: Vec<RouteCondition>,
) -> Result<Vec<RouteCondition>, AllocError>
    ensures { IfOk result (λ made. made.items ≡ first.items ++ second.items) }
{
    let mut all = first;
    let mut others = second;
    all.append(&mut others)?;
    Ok(all)
}

// The path specifier of what is given.
fn specifier_with(connects: bool, undecided: bool, folds: bool, path: PathMatch) -> PathSpecifier
    ensures { result ≡ specifier_with connects undecided folds path }
{
    if connects {
        PathSpecifier::Connect
    } else if undecided {
        PathSpecifier::Open
    } else if folds {
        PathSpecifier::Folded(path)
    } else {
        PathSpecifier::Cased(path)
    }
}

// Inspects which paths a match takes.
fn inspect_path_specifier(
    alloc: Global,
    tree: Option<&Value>,
) -> Result<Inspection<PathSpecifier>, AllocError>
    ensures value { IfOk result (λ found. found.value ≡ path_specifier_of (tree_of tree.entry)) }
    ensures broken { IfOk result (λ found. found.broken ≡ path_specifier_broken (tree_of tree.entry)) }
{
    let prefix = member::text(alloc, tree, "prefix")?;
    let path = member::text(alloc, tree, "path")?;
    let separated = member::text(alloc, tree, "path_separated_prefix")?;
    let regex = member::object(alloc, tree, "safe_regex")?;
    let connect = member::object(alloc, tree, "connect_matcher")?;
    let policy = member::object(alloc, tree, "path_match_policy")?;
    let sensitive = member::boolean(alloc, tree, "case_sensitive")?;
    let by_regex = regex.is_given();
    let connects = connect.is_given();
    let by_policy = policy.is_given();
    let kinds = [
        prefix.is_given(),
        path.is_given(),
        separated.is_given(),
        by_regex,
        connects,
        by_policy,
    ];
    let broken = BrokenRules {
        v6: prefix.is_wrong()
            | path.is_wrong()
            | separated.is_wrong()
            | regex.is_wrong()
            | connect.is_wrong()
            | policy.is_wrong()
            | sensitive.is_wrong(),
        v21: !exactly_one(&kinds) | separated_is_bad(separated),
        ..BrokenRules::none()
    };
    let made = make_path(alloc, prefix, path, separated)?;
    Ok(Inspection {
        value: specifier_with(connects, by_regex | by_policy, is_false(sensitive), made),
        broken,
    })
}

/// Inspects the match of a route in a profile, which may be missing: by the own rules it has a path alone.
pub fn inspect_match_in(
    alloc: Global,
    profile: Profile,
    tree: Option<&Value>,
) -> Result<Inspection<RouteMatch>, AllocError>
    ensures value { IfOk result (λ found. found.value ≡ match_in profile (tree_of tree.entry)) }
    ensures broken { IfOk result (λ found. found.broken ≡ match_broken_in profile (tree_of tree.entry)) }
{
    match profile {
        Profile::Own => inspect_own_match(alloc, tree),
        Profile::Envoy => inspect_route_match(alloc, tree),
    }
}

// Inspects a match by the own rules.
fn inspect_own_match(
    alloc: Global,
    tree: Option<&Value>,
) -> Result<Inspection<RouteMatch>, AllocError>
    ensures value { IfOk result (λ found. found.value ≡ own_match_of (tree_of tree.entry)) }
    ensures broken { IfOk result (λ found. found.broken ≡ match_broken (tree_of tree.entry)) }
{
    let found = inspect_match(alloc, tree)?;
    Ok(Inspection {
        broken: found.broken,
        value: RouteMatch {
            path: PathSpecifier::Cased(found.value),
            conditions: Seq::new(alloc),
        },
    })
}

// Inspects the match of a route as Envoy reads it: its path and its conditions.
pub(crate) fn inspect_route_match(
    alloc: Global,
    tree: Option<&Value>,
) -> Result<Inspection<RouteMatch>, AllocError>
    ensures value { IfOk result (λ found. found.value ≡ route_match_of (tree_of tree.entry)) }
    ensures broken { IfOk result (λ found. found.broken ≡ route_match_broken (tree_of tree.entry)) }
{
    let path = inspect_path_specifier(alloc, tree)?;
    let conditions = inspect_conditions(alloc, tree)?;
    Ok(Inspection {
        broken: path.broken.or(conditions.broken),
        value: RouteMatch {
            path: path.value,
            conditions: Seq::from_vec(conditions.value),
        },
    })
}
