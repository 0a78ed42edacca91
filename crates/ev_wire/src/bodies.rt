ghost use Rattle.std.specs.Prelude.{◌≡◌, ℕ, List, Result, Err, min, IfOk};
ghost use Rattle.serde_json.specs.Data.{Data};
ghost use Rattle.serde_json.specs.View.{view};
ghost use Rattle.ev_tree.specs.Forms.{found_map, tree_of};
ghost use Rattle.ev_tree.specs.Rules.{ReadsAs, IsLeast};
ghost use Rattle.ev_tree.specs.Broken.{rules_of};
ghost use Rattle.ev_tree.specs.declared.outcome.Found.{Found};
ghost use Rattle.ev_tree.specs.declared.span.Span.{Span};
ghost use Rattle.ev_wire.specs.Bodies.{is_positive, is_heartbeat, is_of_type, breaks_v3, differs, own_broken, content_of, body_with, resource_of, body_of, item_broken, rule_in};
ghost use Rattle.ev_types.specs.declared.contents.Content.{Content};
ghost use Rattle.ev_types.specs.declared.contents.Kind.{Kind};
ghost use Rattle.ev_types.specs.declared.events.Profile.{Profile};

use crate::kinds::name_field;
use ev_cluster_json::{read_assignment, read_cluster};
use ev_listener_json::read_listener;
use ev_route_json::read_routes;
use ev_secret_json::{read_extension, read_secret};
use ev_tree::{BrokenRules, Found, ReadError, Span, is_name, is_not_positive, member};
use ev_types::{Body, Content, Kind, Profile, Rule, Shared};
use serde_json::Value;
use std::alloc::{AllocError, Global};

// The body of an item of this kind, outer name and time to live: its content, or the least form rule that the item
// breaks, or a heartbeat.
#[tactic(auto, unfolding(crate::specs::Bodies::body_of))]
pub(crate) fn read_body(
    alloc: Global,
    profile: Profile,
    kind: Kind,
    name: &str,
    ttl: Found<Span>,
    resource: Found<&Value>,
) -> Result<Body, AllocError>
    ensures { IfOk result (λ read. read
        ≡ body_of profile kind name.now ttl (found_map (λ v. view v.now) resource.entry)) }
{
    if is_heartbeat(name, ttl, resource) {
        return Ok(Body::Beat);
    }
    read_resource(alloc, profile, kind, name, ttl, member::inner(resource))
}

// Whether an item gives its time to live anew, and nothing else.
fn is_heartbeat(name: &str, ttl: Found<Span>, resource: Found<&Value>) -> bool
    ensures { result ≡ is_heartbeat name.now ttl (found_map (λ v. view v.now) resource.entry) }
{
    resource.is_absent() & is_positive(ttl) & is_name(name)
}

// Whether a time to live is given that is positive.
pub(crate) fn is_positive(ttl: Found<Span>) -> bool
    ensures { result ≡ is_positive ttl }
{
    matches!(ttl, Found::Given(Span::Positive))
}

// The body of an item that is no heartbeat.
#[tactic(auto, using(crate::proofs::BodyLemmas::no_body), unfolding(crate::specs::Bodies::resource_of))]
fn read_resource(
    alloc: Global,
    profile: Profile,
    kind: Kind,
    name: &str,
    ttl: Found<Span>,
    body: Option<&Value>,
) -> Result<Body, AllocError>
    ensures { IfOk result (λ read. read ≡ resource_of profile kind name.now ttl (tree_of body.entry)) }
{
    let Some(body) = body else {
        return Ok(Body::Bad(Rule::V1));
    };
    let broken = inspect_own(alloc, kind, name, ttl, body)?;
    if broken.v1 {
        return Ok(Body::Bad(Rule::V1));
    }
    match read_content(alloc, profile, kind, body) {
        Ok(content) => Ok(body_with(broken.least(), Ok(content))),
        Err(error) => {
            let refused = refuse(broken.least(), error)?;
            Ok(refused)
        }
    }
}

// The body of an item whose content couldn't be read.
fn refuse(broken: Option<Rule>, error: ReadError) -> Result<Body, AllocError>
    ensures { (reading : Result Content ℕ) → ReadsAs (Err error) reading
        → IfOk result (λ body. body ≡ body_with broken reading) }
{
    match error {
        ReadError::Rule(rule) => Ok(body_with(broken, Err(rule))),
        ReadError::OutOfMemory => Err(AllocError),
    }
}

// What an item that is no heartbeat breaks by itself, whatever its content.
fn inspect_own(
    alloc: Global,
    kind: Kind,
    name: &str,
    ttl: Found<Span>,
    body: &Value,
) -> Result<BrokenRules, AllocError>
    ensures { IfOk result (λ broken. broken ≡ own_broken kind name.now ttl (view body.now)) }
{
    Ok(BrokenRules {
        v1: !is_of_type(alloc, kind, body)?,
        v2: !is_name(name),
        v3: has_another_name(alloc, kind, name, body)?,
        v6: ttl.is_wrong(),
        v25: is_not_positive(ttl),
        ..BrokenRules::none()
    })
}

/// The rule by which an item is refused is the least of all form rules that it breaks; a good one and a heartbeat
/// break none: a law of the definitions.
#[tactic(auto, using(crate::proofs::LeastLemmas::body_least))]
pub fn body_rule_is_least()
    ensures { (profile : Profile) (kind : Kind) (name : List ℕ) (ttl : Found Span) (resource : Found Data)
        → IsLeast (rules_of (item_broken profile kind name ttl resource))
        (rule_in (body_of profile kind name ttl resource)) }
{}

// Whether a body is an object whose `@type` is that of the kind.
#[tactic(auto, unfolding(crate::specs::Bodies::is_of_type))]
fn is_of_type(alloc: Global, kind: Kind, body: &Value) -> Result<bool, AllocError>
    ensures { IfOk result (λ is. is ≡ is_of_type kind (view body.now)) }
{
    let named = member::text(alloc, Some(body), "@type")?;
    let is_same = member::text_or_empty(named) == kind.type_url();
    Ok(body.is_object() & is_same)
}

// Whether a body's own name is another one than this.
#[tactic(auto, unfolding(crate::specs::Bodies::breaks_v3))]
fn has_another_name(alloc: Global, kind: Kind, name: &str, body: &Value) -> Result<bool, AllocError>
    ensures { IfOk result (λ has. has ≡ breaks_v3 kind name.now (view body.now)) }
{
    let own = member::text(alloc, Some(body), name_field(kind))?;
    Ok(differs(name, own))
}

// Whether another text than the name is found.
fn differs(name: &str, own: Found<&str>) -> bool
    ensures { result ≡ differs name.now (found_map (λ s. s.now) own.entry) }
{
    match own {
        Found::Absent => "" != name,
        Found::Wrong => false,
        Found::Given(own) => own != name,
    }
}

// The content of a body, by the reader of its kind.
#[tactic(auto, unfolding(crate::specs::Bodies::content_of))]
fn read_content(
    alloc: Global,
    profile: Profile,
    kind: Kind,
    body: &Value,
) -> Result<Content, ReadError>
    ensures { ReadsAs result (content_of profile kind (view body.now)) }
{
    match kind {
        Kind::Cds => {
            let read = read_cluster(alloc, profile, body)?;
            Ok(Content::Cluster(Shared::new(alloc, read)?))
        }
        Kind::Eds => {
            let read = read_assignment(alloc, profile, body)?;
            Ok(Content::Assignment(Shared::new(alloc, read)?))
        }
        Kind::Lds => {
            let read = read_listener(alloc, profile, body)?;
            Ok(Content::Listener(Shared::new(alloc, read)?))
        }
        Kind::Rds => {
            let read = read_routes(alloc, profile, body)?;
            Ok(Content::Routes(Shared::new(alloc, read)?))
        }
        Kind::Sds => {
            read_secret(alloc, body)?;
            Ok(Content::Secret)
        }
        Kind::Ecds => {
            read_extension(alloc, body)?;
            Ok(Content::Extension)
        }
    }
}

// A body of this content, unless a rule is broken: by its names, or by its content.
fn body_with(broken: Option<Rule>, content: Result<Content, Rule>) -> Body
    ensures { result ≡ body_with broken content }
{
    match (broken, content) {
        (None, Ok(content)) => Body::Good(content),
        (None, Err(rule)) => Body::Bad(rule),
        (Some(rule), Ok(_)) => Body::Bad(rule),
        (Some(rule), Err(other)) => Body::Bad(lesser(rule, other)),
    }
}

// The lesser of two rules.
fn lesser(rule: Rule, other: Rule) -> Rule
    ensures { result ≡ min rule other }
{
    Rule::new(rule.number().min(other.number()))
}
