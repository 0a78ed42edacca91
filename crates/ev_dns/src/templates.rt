ghost use Rattle.std.specs.Prelude.{◌≡◌, ◌||◌, [], Some, IfOk};
ghost use Rattle.serde_json.specs.View.{view};
ghost use Rattle.ev_tree.specs.Forms.{found_map};
ghost use Rattle.ev_tree.specs.Spans.{is_not_positive};
ghost use Rattle.ev_types.specs.declared.contents.Kind.TheVariants.{Cds};
ghost use Rattle.ev_wire.specs.Bodies.{breaks_v3, differs, is_of_type, resource_of};
ghost use Rattle.ev_wire.specs.Responses.{ttl_of};
ghost use Rattle.ev_expand.specs.Guarding.{body_in};
ghost use Rattle.ev_expand.specs.Keys.{key_with};
ghost use Rattle.ev_dns.specs.Templates.{body_key, breaks_own, is_strict_dns, is_template, static_body, template_key, template_rows};

use crate::sockets::has_sockets;
use ev_cluster_json::read_cluster;
use ev_expand::Key;
use ev_tree::{EnumTable, Found, ReadError, Span, is_name, is_not_positive, member};
use ev_types::{Cluster, Discovery, HostRow, Profile, Seq};
use serde_json::{Value, json, put};
use std::alloc::{AllocError, Global};

/// The number of the type STRICT_DNS.
pub const STRICT_DNS: u32 = 1;

// The number of the type STATIC, which a cluster has where none is given.
const STATIC: u32 = 0;

// The type of clusters.
const CLUSTER: &str = "type.googleapis.com/envoy.config.cluster.v3.Cluster";

// The key of a resource of clusters, where it is a template.
pub(crate) fn template_key(
    alloc: Global,
    profile: Profile,
    entry: &Value,
) -> Result<Option<Key>, AllocError>
    ensures { IfOk result (λ key. key ≡ template_key profile (view entry.now)) }
{
    match entry.get("resource") {
        Some(body) => key_of(alloc, profile, entry, body),
        None => Ok(None),
    }
}

// The same, of a resource with this body.
#[tactic(auto, unfolding(ev_wire::specs::Responses::ttl_of))]
fn key_of(
    alloc: Global,
    profile: Profile,
    entry: &Value,
    body: &Value,
) -> Result<Option<Key>, AllocError>
    requires { view body.now ≡ body_in (view entry.now) }
    ensures { IfOk result (λ key. key ≡ template_key profile (view entry.now)) }
{
    if !is_template(alloc, body)? {
        return Ok(None);
    }
    let name = member::text(alloc, Some(entry), "name")?;
    let ttl = member::duration(alloc, Some(entry), "ttl")?;
    let body = static_body(alloc, body)?;
    static_key(alloc, profile, member::text_or_empty(name), ttl, &body)
}

// Whether a cluster is of the type STRICT_DNS, without a custom type, and its hosts have socket addresses.
fn is_template(alloc: Global, body: &Value) -> Result<bool, AllocError>
    ensures { IfOk result (λ is. is ≡ is_template (view body.now)) }
{
    if !is_strict_dns(alloc, body)? {
        return Ok(false);
    }
    let custom = member::object(alloc, Some(body), "cluster_type")?;
    if custom.is_given() {
        return Ok(false);
    }
    has_sockets(alloc, body)
}

// Whether the type of a cluster is STRICT_DNS.
#[tactic(auto, unfolding(ev_cluster_json::specs::Clusters::type_of))]
fn is_strict_dns(alloc: Global, body: &Value) -> Result<bool, AllocError>
    ensures { IfOk result (λ is. is ≡ is_strict_dns (view body.now)) }
{
    let kind = member::enumeration(alloc, Some(body), "type", EnumTable::Discovery)?;
    Ok(kind.given_or(STATIC) == STRICT_DNS)
}

// The same cluster with the type STATIC.
fn static_body(alloc: Global, body: &Value) -> Result<Value, AllocError>
    ensures { IfOk result (λ made. view made ≡ static_body (view body.now)) }
{
    match body.clone()? {
        Value::Object(mut members) => {
            put(&mut members, alloc, "type", json!(in alloc; "STATIC")?)?;
            Ok(Value::Object(members))
        }
        Value::Null => Ok(Value::Null),
        Value::Bool(b) => Ok(Value::Bool(b)),
        Value::Number(number) => Ok(Value::Number(number)),
        Value::String(text) => Ok(Value::String(text)),
        Value::Array(values) => Ok(Value::Array(values)),
    }
}

// The key of a resource of this outer name, time to live and body, where it is good.
fn static_key(
    alloc: Global,
    profile: Profile,
    name: &str,
    ttl: Found<Span>,
    body: &Value,
) -> Result<Option<Key>, AllocError>
    ensures { IfOk result (λ key. key ≡ body_key (resource_of profile Cds name.now ttl (view body.now))) }
{
    if breaks_own(alloc, name, ttl, body)? {
        return Ok(None);
    }
    match read_cluster(alloc, profile, body) {
        Ok(cluster) => cluster_key(alloc, &cluster),
        Err(ReadError::Rule(_)) => Ok(None),
        Err(ReadError::OutOfMemory) => Err(AllocError),
    }
}

// The key of a cluster.
fn cluster_key(alloc: Global, cluster: &Cluster) -> Result<Option<Key>, AllocError>
    ensures { IfOk result (λ key. key ≡ Some (key_with cluster.now [])) }
{
    Ok(Some(Key::of(alloc, cluster, Seq::new(alloc))?))
}

// Whether a resource breaks a rule by its type, its names or its time to live.
fn breaks_own(alloc: Global, name: &str, ttl: Found<Span>, body: &Value) -> Result<bool, AllocError>
    ensures { IfOk result (λ breaks. breaks ≡ breaks_own name.now ttl (view body.now)) }
{
    let is_cluster = is_cluster(alloc, body)?;
    let renamed = has_another_name(alloc, name, body)?;
    Ok(!is_cluster || !is_name(name) || renamed || ttl.is_wrong() || is_not_positive(ttl))
}

// Whether a body is an object of the type of clusters.
#[tactic(auto, unfolding(ev_wire::specs::Bodies::is_of_type))]
fn is_cluster(alloc: Global, body: &Value) -> Result<bool, AllocError>
    ensures { IfOk result (λ is. is ≡ is_of_type Cds (view body.now)) }
{
    let named = member::text(alloc, Some(body), "@type")?;
    let is_same = member::text_or_empty(named) == CLUSTER;
    Ok(body.is_object() & is_same)
}

// Whether a body's own name is another one than this.
#[tactic(auto, unfolding(ev_wire::specs::Bodies::breaks_v3))]
fn has_another_name(alloc: Global, name: &str, body: &Value) -> Result<bool, AllocError>
    ensures { IfOk result (λ has. has ≡ breaks_v3 Cds name.now (view body.now)) }
{
    let own = member::text(alloc, Some(body), "name")?;
    Ok(differs(name, own))
}

// Whether another text than the name is found.
fn differs(name: &str, own: Found<&str>) -> bool
    ensures { result ≡ differs name.now (found_map (λ s. s.now) own.entry) }
{
    match own {
        Found::Absent => "" != name,
        Found::Wrong => false,
        Found::Given(own) => own != name,
    }
}

// The hosts of a template: their addresses are host names.
pub(crate) fn rows_of(key: &Key) -> &[HostRow]
    ensures { result.now ≡ template_rows key.now }
{
    match &key.cluster.discovery {
        Discovery::Static(assignment) => assignment.get().rows(),
        Discovery::Eds { .. } => &[],
        Discovery::Elsewhere => &[],
    }
}
