ghost use Rattle.std.specs.Prelude.{◌≡◌, [], option_map, IfOk};
ghost use Rattle.serde_json.specs.View.{view};
ghost use Rattle.ev_tree.specs.Forms.{given_or, text_of};
ghost use Rattle.ev_sotw.specs.Discovery.{seen, has_parts, has_parts_of, is_discovery, discovery_of, resource_name, names_in};

use crate::NameSet;
use ev_tree::member;
use ev_types::{Kind, Profile};
use ev_wire::{kind_with, name_field};
use serde_json::Value;
use std::alloc::{AllocError, Global};

/// A response of the state of the world. Where its type isn't read, its version and its resources say nothing.
#[derive(Clone, Copy)]
pub struct Discovery<'a> {
    /// The type, or `None` for one that isn't read.
    pub kind: Option<Kind>,
    /// The type's URL, as it came.
    pub url: &'a str,
    pub nonce: &'a str,
    pub version: &'a str,
    pub resources: &'a [Value],
}

/// The response of the state of the world that a message is, or none where it isn't one: `version_info`, `type_url` and
/// `nonce` are texts, the nonce of at least one byte, and `resources` is a list of any values. Of a type that
/// the profile doesn't read the type and the nonce alone are read.
///
/// # Errors
/// `AllocError` where there is no memory for it.
#[tactic(auto, unfolding(ev_wire::specs::Responses::response_kind, ev_wire::specs::Responses::nonce_of))]
pub fn read_discovery(
    alloc: Global,
    profile: Profile,
    message: &Value,
) -> Result<Option<Discovery<'_>>, AllocError>
    ensures { IfOk result (λ found. option_map seen found ≡ discovery_of profile (view message.now)) }
{
    if !is_discovery(alloc, profile, message)? {
        return Ok(None);
    }
    let url = text_at(alloc, message, "type_url")?;
    let nonce = text_at(alloc, message, "nonce")?;
    let version = text_at(alloc, message, "version_info")?;
    let resources = member::list(alloc, Some(message), "resources")?;
    Ok(Some(Discovery {
        kind: kind_with(profile, url),
        url,
        nonce,
        version,
        resources: member::elements(resources),
    }))
}

// Whether a message is a response of the state of the world.
#[tactic(auto, unfolding(ev_wire::specs::Responses::has_head, ev_wire::specs::Responses::response_kind, ev_wire::specs::Responses::nonce_of))]
fn is_discovery(alloc: Global, profile: Profile, message: &Value) -> Result<bool, AllocError>
    ensures { IfOk result (λ is. is ≡ is_discovery profile (view message.now)) }
{
    let url = member::text(alloc, Some(message), "type_url")?;
    let nonce = text_at(alloc, message, "nonce")?;
    let kind = kind_with(profile, member::text_or_empty(url));
    let has_parts = has_parts_of(alloc, kind, message)?;
    Ok(message.is_object() & !url.is_wrong() & !(nonce.len() == 0) & has_parts)
}

// A field's text: the empty one where it has none.
fn text_at<'a>(alloc: Global, tree: &'a Value, name: &str) -> Result<&'a str, AllocError>
    ensures { IfOk result (λ text. text.now ≡ given_or [] (text_of name.now (view tree.now))) }
{
    let text = member::text(alloc, Some(tree), name)?;
    Ok(member::text_or_empty(text))
}

// Whether the version is a text and the resources are a list, where they are given.
#[tactic(auto, unfolding(crate::specs::Discovery::has_parts))]
fn has_parts(alloc: Global, message: &Value) -> Result<bool, AllocError>
    ensures { IfOk result (λ has. has ≡ has_parts (view message.now)) }
{
    let version = member::text(alloc, Some(message), "version_info")?;
    let resources = member::list(alloc, Some(message), "resources")?;
    Ok(!version.is_wrong() & !resources.is_wrong())
}

// The same where the type is read, and true of another type.
fn has_parts_of(alloc: Global, kind: Option<Kind>, message: &Value) -> Result<bool, AllocError>
    ensures { IfOk result (λ has. has ≡ has_parts_of kind (view message.now)) }
{
    match kind {
        Some(_) => has_parts(alloc, message),
        None => Ok(true),
    }
}

/// A resource's own name: the empty one where it has none.
///
/// # Errors
/// `AllocError` where there is no memory for it.
pub(crate) fn resource_name(alloc: Global, kind: Kind, resource: &Value) -> Result<&str, AllocError>
    ensures { IfOk result (λ name. name.now ≡ resource_name kind (view resource.now)) }
{
    text_at(alloc, resource, name_field(kind))
}

impl<'a> Discovery<'a> {
    /// The names of the resources, as of this kind.
    ///
    /// # Errors
    /// `AllocError` where there is no memory for them.
    #[tactic(auto, using(crate::proofs::NameLemmas::sorted_push))]
    pub fn names(&self, alloc: Global, kind: Kind) -> Result<NameSet, AllocError>
        ensures { IfOk result (λ names. names ≡ names_in kind (seen self.now)) }
    {
        let mut names = NameSet::new(alloc);
        for resource in self.resources {
            names.insert(alloc, resource_name(alloc, kind, resource)?)?;
        }
        Ok(names)
    }
}
