ghost use Rattle.std.specs.Prelude.{◌≡◌, ◌&&◌, IfOk, map, not, string_bytes};
ghost use Rattle.std.specs.List.{list_any};
ghost use Rattle.serde_json.specs.View.{view};
ghost use Rattle.ev_tree.specs.Forms.{tree_of, text_in};
ghost use Rattle.ev_listener_json.specs.Members.{is_present};
ghost use Rattle.ev_chains.specs.Matches.{has_other, is_known, port_in, is_above, match_read, match_broken};

use crate::keys::same_port;
use ev_listener_json::has_no_name;
use ev_tree::{BrokenRules, Found, Inspection, MAX_PORT, member};
use ev_types::{Seq, Text};
use serde_json::{Map, Value};
use std::alloc::{AllocError, Global};

/// Which connections a chain takes: those to a port, or to any that no other chain names,
/// and with one of these server names, or with any.
#[derive(Drop)]
pub struct ChainMatch {
    pub port: Option<u16>,
    pub names: Seq<Text>,
}

impl PartialEq for ChainMatch {
    ghost use Rattle.std.specs.Cmp.{decided, partial_equiv_from_equiv};
    ghost use Rattle.ev_chains.specs.Rows.{match_same, match_decides};

    ghost eq = { match_same };

    ghost laws = { partial_equiv_from_equiv (decided match_same match_decides) };

    fn eq(&self, other: &ChainMatch) -> bool {
        same_port(self.port, other.port) && self.names == other.names
    }
}

/// Inspects a filter chain's match, which may be missing: it, and the rules that it breaks, of V6, V16 and V27.
#[tactic(auto, unfolding(crate::specs::Matches::match_read))]
pub(crate) fn inspect_match(
    alloc: Global,
    tree: Option<&Value>,
) -> Result<Inspection<ChainMatch>, AllocError>
    ensures value { IfOk result (λ found. found.value ≡ match_read (tree_of tree.entry)) }
    ensures broken { IfOk result (λ found. found.broken ≡ match_broken (tree_of tree.entry)) }
{
    let port = member::number32(alloc, tree, "destination_port")?;
    let names = member::texts(alloc, tree, "server_names")?;
    let texts = copy_texts(alloc, member::elements(names))?;
    let broken = BrokenRules {
        v6: port.is_wrong() | is_above(port) | names.is_wrong(),
        v16: has_other(tree),
        v27: has_no_name(texts.as_slice()),
        ..BrokenRules::none()
    };
    Ok(Inspection {
        value: ChainMatch {
            port: port_in(port),
            names: Seq::from_vec(texts),
        },
        broken,
    })
}

// The texts of the elements of a list.
fn copy_texts(alloc: Global, elements: &[Value]) -> Result<Vec<Text>, AllocError>
    ensures { IfOk result (λ texts. texts.items ≡ map text_in (map view elements.now)) }
{
    let mut texts = Vec::new(alloc);
    for element in elements {
        texts.push(Text::new(alloc, member::text_value(element))?)?;
    }
    Ok(texts)
}

// The port, where one is given that is one.
fn port_in(port: Found<u32>) -> Option<u16>
    ensures { result ≡ port_in port }
{
    match port {
        Found::Given(number) if number <= MAX_PORT => Some(number as u16),
        _ => None,
    }
}

// Whether a number is given that is above every port.
fn is_above(port: Found<u32>) -> bool
    ensures { result ≡ is_above port }
{
    match port {
        Found::Given(number) => number > MAX_PORT,
        Found::Absent | Found::Wrong => false,
    }
}

// Whether an object has a member, other than the two that are read, that isn't `null`.
fn has_other(object: Option<&Value>) -> bool
    ensures { result ≡ has_other (tree_of object.entry) }
{
    match object {
        Some(value) => value_has_other(value),
        None => false,
    }
}

// The same of an object that is there.
fn value_has_other(value: &Value) -> bool
    ensures { result ≡ has_other (view value.now) }
{
    match value.as_object() {
        Some(members) => any_other(members),
        None => false,
    }
}

// Whether one of the members isn't `null`, and isn't one of the two that are read.
fn any_other(members: &Map<String, Value>) -> bool
    ensures { result ≡ list_any (λ m. is_present (view m.1) && not (is_known (string_bytes m.0))) members.now.entries }
{
    members.iter().any(|(name, member)| !member.is_null() && !is_known(name.as_str()))
}

// Whether a name is that of a member of a match that is read, in either spelling.
fn is_known(name: &str) -> bool
    ensures { result ≡ is_known name.now }
{
    matches!(
        name,
        "destination_port" | "destinationPort" | "server_names" | "serverNames"
    )
}
