//! The text of a listener without its filter chains, by which it is told whether the chains alone changed.
ghost use Rattle.std.specs.Prelude.{◌≡◌, IfOk, OnOk};
ghost use Rattle.std.specs.String.{string_bytes};
ghost use Rattle.serde_json.specs.View.{view, members_view};
ghost use Rattle.ev_tree.specs.Floats.{whole, whole_members};
ghost use Rattle.ev_listener_json.specs.Frames.{is_of_chains, frame_members, frame_of, frame_text_of, in_place_text_of, PutsFrame};

use crate::envoy_chains::has_api;
use ev_tree::whole_copy;
use ev_types::Text;
use serde_json::{Map, Value};
use std::alloc::{AllocError, Global};
use std::default::Emptied;

/// The text that two listeners share where one may be in place of the other: the plain text of each without its members
/// about filter chains. An API listener has none, since its filter chains aren't read.
pub(crate) fn in_place_text(alloc: Global, listener: &Value) -> Result<Text, AllocError>
    ensures { IfOk result (λ text. text ≡ in_place_text_of (view listener.now)) }
{
    if has_api(alloc, listener)? {
        return Ok(Text::from_string(String::new(alloc)));
    }
    frame_text(alloc, listener)
}

// The plain text of a listener without its members about filter chains.
fn frame_text(alloc: Global, listener: &Value) -> Result<Text, AllocError>
    ensures { IfOk result (λ text. text ≡ frame_text_of (view listener.now)) }
{
    let copy = copy_frame(listener)?;
    Ok(Text::from_string(copy.to_string(alloc)?))
}

// The copy of a listener without its members about filter chains, with -1 for each float in it.
fn copy_frame(listener: &Value) -> Result<Value, AllocError>
    ensures { IfOk result (λ copy. view copy ≡ whole (frame_of (view listener.now))) }
{
    match listener {
        Value::Null | Value::Bool(_) | Value::Number(_) | Value::String(_) | Value::Array(_) => {
            whole_copy(listener)
        }
        Value::Object(members) => Ok(Value::Object(copy_members(members)?)),
    }
}

// The copies of these members, but for those about filter chains.
fn copy_members(members: &Map<String, Value>) -> Result<Map<String, Value>, AllocError>
    ensures { IfOk result (λ copies. members_view copies.entries
        ≡ whole_members (frame_members (members_view members.now.entries))) }
{
    let mut copies = Map::emptied(members)?;
    for (key, member) in members.iter() {
        put_copy(&mut copies, key, member)?;
    }
    Ok(copies)
}

// Puts the copy of a member among others, unless it is about filter chains.
fn put_copy(copies: &mut Map<String, Value>, key: &String, member: &Value) -> Result<(), AllocError>
    ensures { OnOk result (PutsFrame copies.old.entries copies.new.entries (string_bytes key.now) (view member.now)) }
{
    if is_of_chains(key.as_str()) {
        return Ok(());
    }
    let name = key.clone()?;
    drop(copies.insert(name, whole_copy(member)?)?);
    Ok(())
}

// Whether a member of this name is about filter chains.
fn is_of_chains(name: &str) -> bool
    ensures { result ≡ is_of_chains name.now }
{
    name == "filter_chains"
        || name == "filterChains"
        || name == "default_filter_chain"
        || name == "defaultFilterChain"
        || name == "filter_chain_matcher"
        || name == "filterChainMatcher"
}
