ghost use Rattle.std.specs.Prelude.{◌≡◌, ◌&&◌};
ghost use Rattle.ev_model.specs.Verdicts.{twice_rule, removed_rule, form_rule, lesser};
ghost use Rattle.ev_verdicts.specs.Judged.{rule_by, stale_by, is_heard_by, is_stale};

use crate::known::Known;
use ev_lookups::Mentions;
use ev_types::{Body, Item, Kind, Rule};

/// The lowest-numbered rule that a resource breaks, taken addresses left aside.
pub(crate) fn rule_of<K: Known>(
    kind: Kind,
    known: &K,
    mentions: &Mentions<'_>,
    item: &Item,
) -> Option<Rule>
    ensures { result ≡ rule_by (K.answers known.now) kind mentions.now item.now }
{
    let beat = stale_rule(kind, known, item);
    let twice = twice_rule(mentions, item);
    let removed = removed_rule(mentions, item);
    lesser(beat, lesser(twice, lesser(removed, form_rule(&item.body))))
}

// Rule 1: the resource is a heartbeat of a version that isn't kept, and somebody hears it.
fn stale_rule<K: Known>(kind: Kind, known: &K, item: &Item) -> Option<Rule>
    ensures { result ≡ stale_by (K.answers known.now) kind item.now item.now.body }
{
    match &item.body {
        Body::Good(_) | Body::Bad(_) => None,
        Body::Beat => {
            if is_stale(kind, known, item) {
                Some(Rule::V1)
            } else {
                None
            }
        }
    }
}

// Whether the version isn't the one that is kept, and somebody hears the resource.
fn is_stale<K: Known>(kind: Kind, known: &K, item: &Item) -> bool
    ensures { result ≡ is_stale (K.answers known.now) kind item.now }
{
    !known.is_kept(kind, item.name.as_str(), item.version.as_str())
        && is_heard(kind, known, item.name.as_str())
}

// Whether somebody hears a resource of this kind and name.
fn is_heard<K: Known>(kind: Kind, known: &K, name: &str) -> bool
    ensures { result ≡ is_heard_by (K.answers known.now) kind name.now }
{
    !kind.is_by_name() || known.is_watched(kind, name)
}

// Rule 4: the name occurs twice in the response.
fn twice_rule(mentions: &Mentions<'_>, item: &Item) -> Option<Rule>
    ensures { result ≡ twice_rule mentions.now item.now }
{
    if mentions.is_twice(item.name.as_str()) {
        Some(Rule::V4)
    } else {
        None
    }
}

// Rule 5: the name is removed too.
fn removed_rule(mentions: &Mentions<'_>, item: &Item) -> Option<Rule>
    ensures { result ≡ removed_rule mentions.now item.now }
{
    if mentions.is_listed(item.name.as_str()) {
        Some(Rule::V5)
    } else {
        None
    }
}

// The form rule that a body breaks.
fn form_rule(body: &Body) -> Option<Rule>
    ensures { result ≡ form_rule body.now }
{
    match body {
        Body::Good(_) => None,
        Body::Bad(rule) => Some(*rule),
        Body::Beat => None,
    }
}

// The lesser of two rules, where there are any.
fn lesser(rule: Option<Rule>, other: Option<Rule>) -> Option<Rule>
    ensures { result ≡ lesser rule other }
{
    match (rule, other) {
        (None, other) => other,
        (Some(rule), None) => Some(rule),
        (Some(rule), Some(other)) => {
            if rule <= other {
                Some(rule)
            } else {
                Some(other)
            }
        }
    }
}
