ghost use Rattle.std.specs.Prelude.{◌≡◌, ◌++◌, map, option_to_list, IfOk, OnOk};
ghost use Rattle.std.specs.List.{filter_map};
ghost use Rattle.serde_json.specs.Data.{array, no_items};
ghost use Rattle.serde_json.specs.View.{view};
ghost use Rattle.ev_tree.specs.Forms.{tree_of, found_map, given_or, inside, object_of};
ghost use Rattle.ev_cluster_json.specs.Clusters.{load_assignment_of};
ghost use Rattle.ev_expand.specs.Guarding.{body_in};
ghost use Rattle.ev_tls.specs.References.{socket_config, is_tls, context_in, tls_context, own_name, secret_named, given_list, references_of, endpoints_in, cluster_key, content_key, body_key};

use crate::names::make_name;
use ev_expand::Key;
use ev_tree::{Found, member};
use ev_types::{Body, Cluster, Content, Name, Seq};
use serde_json::Value;
use std::alloc::{AllocError, Global};

/// The type of the context of TLS towards upstream hosts.
const UPSTREAM_TLS: &str =
    "type.googleapis.com/envoy.extensions.transport_sockets.tls.v3.UpstreamTlsContext";

// The body of a resource of a response.
pub(crate) fn body_in(entry: &Value) -> Option<&Value>
    ensures { tree_of result ≡ body_in (view entry.now) }
{
    entry.get("resource")
}

// The configuration of a cluster's transport socket.
fn socket_config<'a>(
    alloc: Global,
    body: Option<&'a Value>,
) -> Result<Option<&'a Value>, AllocError>
    ensures { IfOk result (λ config. tree_of config ≡ socket_config (tree_of body.entry)) }
{
    let socket = inner_object(alloc, body, "transport_socket")?;
    inner_object(alloc, socket, "typed_config")
}

// The object in a field, to look into.
fn inner_object<'a>(
    alloc: Global,
    holder: Option<&'a Value>,
    name: &str,
) -> Result<Option<&'a Value>, AllocError>
    ensures { IfOk result (λ inner. tree_of inner ≡ inside (object_of name.now (tree_of holder.entry))) }
{
    Ok(member::inner(member::object(alloc, holder, name)?))
}

// The part of it that names secrets, where it is that of TLS.
fn tls_context<'a>(alloc: Global, body: Option<&'a Value>) -> Result<Option<&'a Value>, AllocError>
    ensures { IfOk result (λ context. tree_of context ≡ tls_context (tree_of body.entry)) }
{
    context_in(alloc, socket_config(alloc, body)?)
}

// The part of a transport socket's configuration that names secrets, where it is that of TLS.
fn context_in<'a>(alloc: Global, config: Option<&'a Value>) -> Result<Option<&'a Value>, AllocError>
    ensures { IfOk result (λ context. tree_of context ≡ context_in (tree_of config.entry)) }
{
    if !is_tls(alloc, config)? {
        return Ok(None);
    }
    inner_object(alloc, config, "common_tls_context")
}

// Whether it is that of TLS.
fn is_tls(alloc: Global, config: Option<&Value>) -> Result<bool, AllocError>
    ensures { IfOk result (λ is. is ≡ is_tls (tree_of config.entry)) }
{
    let named = member::text(alloc, config, "@type")?;
    Ok(member::text_or_empty(named) == UPSTREAM_TLS)
}

// The name in the member `name`: a text of 1 to 512 bytes.
pub(crate) fn own_name(alloc: Global, tree: &Value) -> Result<Option<Name>, AllocError>
    ensures { IfOk result (λ name. name ≡ own_name (view tree.now)) }
{
    let name = member::text(alloc, Some(tree), "name")?;
    make_name(alloc, member::text_or_empty(name))
}

// The secret that an entry names, where its values come by a config source.
fn secret_named(alloc: Global, config: &Value) -> Result<Option<Name>, AllocError>
    ensures { IfOk result (λ name. name ≡ secret_named (view config.now)) }
{
    let source = member::field(alloc, Some(config), "sds_config")?;
    if !source.is_given() {
        return Ok(None);
    }
    own_name(alloc, config)
}

// The secrets that a cluster names, by its body.
fn references_of(alloc: Global, body: Option<&Value>) -> Result<Vec<Name>, AllocError>
    ensures { IfOk result (λ names. names.items ≡ references_of (tree_of body.entry)) }
{
    let context = tls_context(alloc, body)?;
    let mut names = Vec::new(alloc);
    let certificates = member::list(alloc, context, "tls_certificate_sds_secret_configs")?;
    push_all(alloc, &mut names, member::elements(certificates))?;
    let validation = member::field(alloc, context, "validation_context_sds_secret_config")?;
    push_given(alloc, &mut names, validation)?;
    Ok(names)
}

// Appends the secrets that these entries name to these.
fn push_all(alloc: Global, names: &mut Vec<Name>, configs: &[Value]) -> Result<(), AllocError>
    ensures { OnOk result (names.new.items ≡ names.old.items ++ filter_map secret_named (map view configs.now)) }
{
    for config in configs {
        push_named(alloc, names, config)?;
    }
    Ok(())
}

// Appends the secret that an entry names to these, where an entry is given.
fn push_given(alloc: Global, names: &mut Vec<Name>, config: Found<&Value>) -> Result<(), AllocError>
    ensures { OnOk result (names.new.items
        ≡ names.old.items ++ filter_map secret_named (given_list (found_map (λ v. view v.now) config.entry))) }
{
    match config {
        Found::Given(config) => push_named(alloc, names, config),
        Found::Absent | Found::Wrong => Ok(()),
    }
}

// Appends the secret that an entry names to these, where it names one.
fn push_named(alloc: Global, names: &mut Vec<Name>, config: &Value) -> Result<(), AllocError>
    ensures { OnOk result (names.new.items ≡ names.old.items ++ option_to_list (secret_named (view config.now))) }
{
    if let Some(name) = secret_named(alloc, config)? {
        names.push(name)?;
    }
    Ok(())
}

// The endpoints given in a cluster itself.
pub(crate) fn own_endpoints(alloc: Global, body: Option<&Value>) -> Result<Value, AllocError>
    ensures { IfOk result (λ endpoints. view endpoints ≡ endpoints_in (load_assignment_of (tree_of body.entry))) }
{
    endpoints_in(alloc, load_assignment(alloc, body)?)
}

// The assignment given in a cluster itself.
#[tactic(auto, unfolding(ev_cluster_json::specs::Clusters::load_assignment_of))]
fn load_assignment<'a>(
    alloc: Global,
    body: Option<&'a Value>,
) -> Result<Option<&'a Value>, AllocError>
    ensures { IfOk result (λ assignment. tree_of assignment ≡ load_assignment_of (tree_of body.entry)) }
{
    inner_object(alloc, body, "load_assignment")
}

// The endpoints of an assignment, as they are there.
pub(crate) fn endpoints_in(alloc: Global, assignment: Option<&Value>) -> Result<Value, AllocError>
    ensures { IfOk result (λ endpoints. view endpoints ≡ endpoints_in (tree_of assignment.entry)) }
{
    value_or_none(alloc, member::field(alloc, assignment, "endpoints")?)
}

// A copy of the list that is given, or an empty list.
fn value_or_none(alloc: Global, found: Found<&Value>) -> Result<Value, AllocError>
    ensures { IfOk result (λ value. view value ≡ given_or (array no_items) (found_map (λ v. view v.now) found.entry)) }
{
    match found {
        Found::Given(value) => value.clone(),
        Found::Absent | Found::Wrong => Ok(Value::Array(Vec::new(alloc))),
    }
}

// The key of a resource of this body, which is read as this, where it is guarded.
pub(crate) fn key_by(
    alloc: Global,
    read: &Body,
    body: Option<&Value>,
) -> Result<Option<Key>, AllocError>
    ensures { IfOk result (λ key. key ≡ body_key read.now (references_of (tree_of body.entry))) }
{
    body_key(alloc, read, references_of(alloc, body)?)
}

// The key of a good cluster that names secrets.
fn body_key(alloc: Global, body: &Body, names: Vec<Name>) -> Result<Option<Key>, AllocError>
    ensures { IfOk result (λ key. key ≡ body_key body.now names.items) }
{
    match body {
        Body::Good(content) => content_key(alloc, content, names),
        Body::Bad(_) => Ok(None),
        Body::Beat => Ok(None),
    }
}

fn content_key(
    alloc: Global,
    content: &Content,
    names: Vec<Name>,
) -> Result<Option<Key>, AllocError>
    ensures { IfOk result (λ key. key ≡ content_key content.now names.items) }
{
    match content {
        Content::Cluster(cluster) => cluster_key(alloc, cluster.get(), names),
        Content::Assignment(_)
        | Content::Listener(_)
        | Content::Routes(_)
        | Content::Secret
        | Content::Extension => Ok(None),
    }
}

fn cluster_key(
    alloc: Global,
    cluster: &Cluster,
    names: Vec<Name>,
) -> Result<Option<Key>, AllocError>
    ensures { IfOk result (λ key. key ≡ cluster_key cluster.now names.items) }
{
    if names.len() == 0 {
        return Ok(None);
    }
    Ok(Some(Key::of(alloc, cluster, Seq::from_vec(names))?))
}
