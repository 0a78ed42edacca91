ghost use Rattle.std.specs.Prelude.{◌≡◌, None, codes, IfOk};
ghost use Rattle.serde_json.specs.View.{view, members_view};
ghost use Rattle.ev_script.specs.Members.{name_of, member_or};
ghost use Rattle.ev_journal_read.specs.Trees.{kind_of, texts_of, lists_of, names_at, given_id, given_message, given_text, pair_of, pairs_of, versions_of, versions_at, request_of};

use crate::lists::{Element, read_list};
use crate::parts::{given_text, given_text_at, named};
use ev_script::{read_name, word_at};
use ev_types::{Kind, Name, Request, Seq, Text};
use serde_json::{Map, Value};
use std::alloc::{AllocError, Global};

impl Element for Request {
    ghost reads = { request_of };

    fn read(alloc: Global, tree: &Value) -> Result<Option<Request>, AllocError> {
        read_request(alloc, tree)
    }
}

impl Element for Name {
    ghost reads = { name_of };

    fn read(alloc: Global, tree: &Value) -> Result<Option<Name>, AllocError> {
        read_name(alloc, tree)
    }
}

// The texts of a request.
#[derive(Drop)]
pub(crate) struct RequestTexts {
    pub node: Option<Text>,
    pub nonce: Option<Text>,
    pub error: Option<Text>,
}

// The lists of a request.
#[derive(Drop)]
pub(crate) struct RequestLists {
    pub subscribe: Seq<Name>,
    pub unsubscribe: Seq<Name>,
    pub versions: Seq<(Name, Text)>,
}

// The request that a tree would be.
#[tactic(auto, unfolding(crate::specs::Trees::request_of))]
fn read_request(alloc: Global, tree: &Value) -> Result<Option<Request>, AllocError>
    ensures { IfOk result (λ found. found ≡ request_of (view tree.now)) }
{
    let Some(kind) = kind_of(tree) else {
        return Ok(None);
    };
    let Some(texts) = read_texts(alloc, tree)? else {
        return Ok(None);
    };
    let Some(lists) = read_lists(alloc, tree)? else {
        return Ok(None);
    };
    Ok(Some(Request {
        kind,
        node: texts.node,
        subscribe: lists.subscribe,
        unsubscribe: lists.unsubscribe,
        versions: lists.versions,
        nonce: texts.nonce,
        error: texts.error,
    }))
}

// Its kind, by its type URL.
fn kind_of(tree: &Value) -> Option<Kind>
    ensures { result ≡ kind_of (view tree.now) }
{
    Kind::of_url(word_at(tree, "typeUrl")?)
}

// Its texts.
fn read_texts(alloc: Global, tree: &Value) -> Result<Option<RequestTexts>, AllocError>
    ensures { IfOk result (λ texts. texts ≡ texts_of (view tree.now)) }
{
    let Some(node) = node_at(alloc, tree)? else {
        return Ok(None);
    };
    let Some(nonce) = nonce_at(alloc, tree)? else {
        return Ok(None);
    };
    let Some(error) = error_at(alloc, tree)? else {
        return Ok(None);
    };
    Ok(Some(RequestTexts { node, nonce, error }))
}

// The id of its node.
fn node_at(alloc: Global, tree: &Value) -> Result<Option<Option<Text>>, AllocError>
    ensures { IfOk result (λ node. node ≡ member_or None given_id (codes "node") (view tree.now)) }
{
    match tree.get("node") {
        Some(node) => given_text_at(alloc, node, "id"),
        None => Ok(Some(None)),
    }
}

// Its nonce.
fn nonce_at(alloc: Global, tree: &Value) -> Result<Option<Option<Text>>, AllocError>
    ensures { IfOk result (λ nonce. nonce ≡ member_or None given_text (codes "responseNonce") (view tree.now)) }
{
    match tree.get("responseNonce") {
        Some(nonce) => given_text(alloc, nonce),
        None => Ok(Some(None)),
    }
}

// The message of its error.
fn error_at(alloc: Global, tree: &Value) -> Result<Option<Option<Text>>, AllocError>
    ensures { IfOk result (λ error. error ≡ member_or None given_message (codes "errorDetail") (view tree.now)) }
{
    match tree.get("errorDetail") {
        Some(error) => given_text_at(alloc, error, "message"),
        None => Ok(Some(None)),
    }
}

// Its lists.
fn read_lists(alloc: Global, tree: &Value) -> Result<Option<RequestLists>, AllocError>
    ensures { IfOk result (λ lists. lists ≡ lists_of (view tree.now)) }
{
    let Some(subscribe) = names_at(alloc, tree, "resourceNamesSubscribe")? else {
        return Ok(None);
    };
    let Some(unsubscribe) = names_at(alloc, tree, "resourceNamesUnsubscribe")? else {
        return Ok(None);
    };
    let Some(versions) = versions_at(alloc, tree)? else {
        return Ok(None);
    };
    Ok(Some(RequestLists {
        subscribe,
        unsubscribe,
        versions,
    }))
}

// The names that a member lists; none are given where it is absent.
fn names_at(alloc: Global, tree: &Value, key: &str) -> Result<Option<Seq<Name>>, AllocError>
    ensures { IfOk result (λ names. names ≡ names_at key.now (view tree.now)) }
{
    match tree.get(key) {
        Some(names) => read_list(alloc, names),
        None => Ok(Some(Seq::new(alloc))),
    }
}

// The versions that are held.
fn versions_at(alloc: Global, tree: &Value) -> Result<Option<Seq<(Name, Text)>>, AllocError>
    ensures { IfOk result (λ versions. versions ≡ versions_at (view tree.now)) }
{
    match tree.get("initialResourceVersions") {
        Some(versions) => read_versions(alloc, versions),
        None => Ok(Some(Seq::new(alloc))),
    }
}

// Versions by name.
fn read_versions(alloc: Global, tree: &Value) -> Result<Option<Seq<(Name, Text)>>, AllocError>
    ensures { IfOk result (λ versions. versions ≡ versions_of (view tree.now)) }
{
    match tree.as_object() {
        Some(members) => read_pairs(alloc, members),
        None => Ok(None),
    }
}

// Each member's name and text, in order.
fn read_pairs(
    alloc: Global,
    members: &Map<String, Value>,
) -> Result<Option<Seq<(Name, Text)>>, AllocError>
    ensures { IfOk result (λ pairs. pairs ≡ pairs_of (members_view members.now.entries)) }
{
    let mut pairs = Vec::new(alloc);
    for (key, value) in members.iter() {
        match read_pair(alloc, key.as_str(), value)? {
            Some(pair) => pairs.push(pair)?,
            None => return Ok(None),
        }
    }
    Ok(Some(Seq::from_vec(pairs)))
}

// A name and the text at it.
fn read_pair(alloc: Global, key: &str, value: &Value) -> Result<Option<(Name, Text)>, AllocError>
    ensures { IfOk result (λ pair. pair ≡ pair_of key.now (view value.now)) }
{
    let Some(name) = named(alloc, key)? else {
        return Ok(None);
    };
    match value.as_str() {
        Some(text) => Ok(Some((name, Text::new(alloc, text)?))),
        None => Ok(None),
    }
}
