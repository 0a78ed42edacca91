ghost use Rattle.std.specs.Prelude.{◌≡◌, ◌||◌, IfOk, map};
ghost use Rattle.std.specs.Str.{str_to_ascii_lowercase};
ghost use Rattle.serde_json.specs.View.{view};
ghost use Rattle.ev_tree.specs.Forms.{is_wrong, tree_of, text_in};
ghost use Rattle.ev_listener_json.specs.ChainMatches.{destination_in, is_no_destination, lower_text_in, filled_text, filter_chain_match_of, filter_chain_match_broken};

use crate::cidr_ranges::inspect_ranges;
use crate::server_names::has_no_name;
use crate::source_criteria::{inspect_sources, is_destination};
use ev_tree::{BrokenRules, Found, Inspection, member};
use ev_types::{FilterChainMatch, Seq, Text};
use serde_json::Value;
use std::alloc::{AllocError, Global};

/// Inspects a filter chain's match, which may be missing, with all its criteria: it, and the rules that it breaks,
/// of V6, V16 and V27.
pub fn inspect_filter_chain_match(
    alloc: Global,
    tree: Option<&Value>,
) -> Result<Inspection<FilterChainMatch>, AllocError>
    ensures value { IfOk result (λ found. found.value ≡ filter_chain_match_of (tree_of tree.entry)) }
    ensures broken { IfOk result (λ found. found.broken ≡ filter_chain_match_broken (tree_of tree.entry)) }
{
    let port = member::number32(alloc, tree, "destination_port")?;
    let ranges = member::objects(alloc, tree, "prefix_ranges")?;
    let names = member::texts(alloc, tree, "server_names")?;
    let transport = member::text(alloc, tree, "transport_protocol")?;
    let protocols = member::texts(alloc, tree, "application_protocols")?;
    let below = inspect_ranges(alloc, member::elements(ranges))?;
    let sources = inspect_sources(alloc, tree)?;
    let texts = copy_asked_texts(
        alloc,
        member::elements(names),
        member::text_or_empty(transport),
        member::elements(protocols),
    )?;
    let own = BrokenRules {
        v6: has_wrong_form(port, ranges, names, transport, protocols),
        v27: has_no_name(texts.server_names.as_slice()),
        ..BrokenRules::none()
    };
    Ok(Inspection {
        value: FilterChainMatch {
            destination_port: destination_in(port),
            prefix_ranges: Seq::from_vec(below.value),
            server_names: Seq::from_vec(texts.server_names),
            transport_protocol: texts.transport_protocol,
            application_protocols: Seq::from_vec(texts.application_protocols),
            direct_source_prefix_ranges: sources.value.direct_ranges,
            source_type: sources.value.source_type,
            source_prefix_ranges: sources.value.ranges,
            source_ports: sources.value.ports,
        },
        broken: below.broken.or(sources.broken.or(own)),
    })
}

// The texts that a match asks for.
#[derive(Drop)]
struct AskedTexts {
    server_names: Vec<Text>,
    transport_protocol: Option<Text>,
    application_protocols: Vec<Text>,
}

// Copies the texts that a match asks for, by its members.
fn copy_asked_texts(
    alloc: Global,
    names: &[Value],
    transport: &str,
    protocols: &[Value],
) -> Result<AskedTexts, AllocError>
    ensures names { IfOk result (λ texts. texts.server_names.items ≡ map lower_text_in (map view names.now)) }
    ensures transport { IfOk result (λ texts. texts.transport_protocol ≡ filled_text transport.now) }
    ensures protocols { IfOk result (λ texts. texts.application_protocols.items ≡ map text_in (map view protocols.now)) }
{
    let transport_protocol = filled_text(alloc, transport)?;
    let server_names = copy_in_lowercase(alloc, names)?;
    let application_protocols = copy_texts(alloc, protocols)?;
    Ok(AskedTexts {
        server_names,
        transport_protocol,
        application_protocols,
    })
}

// Whether one of the members has a wrong form, or the port is none.
fn has_wrong_form(
    port: Found<u32>,
    ranges: Found<&[Value]>,
    names: Found<&[Value]>,
    transport: Found<&str>,
    protocols: Found<&[Value]>,
) -> bool
    ensures { result ≡ (is_wrong port || is_no_destination port || is_wrong ranges.entry || is_wrong names.entry
        || is_wrong transport.entry || is_wrong protocols.entry) }
{
    port.is_wrong()
        | is_no_destination(port)
        | ranges.is_wrong()
        | names.is_wrong()
        | transport.is_wrong()
        | protocols.is_wrong()
}

// The port, where one is given that is one.
fn destination_in(port: Found<u32>) -> Option<u16>
    ensures { result ≡ destination_in port }
{
    match port {
        Found::Given(number) if is_destination(number) => Some(number as u16),
        _ => None,
    }
}

// Whether a number is given that is no port.
fn is_no_destination(port: Found<u32>) -> bool
    ensures { result ≡ is_no_destination port }
{
    match port {
        Found::Given(number) => !is_destination(number),
        Found::Absent | Found::Wrong => false,
    }
}

// The texts of the elements of a list.
fn copy_texts(alloc: Global, elements: &[Value]) -> Result<Vec<Text>, AllocError>
    ensures { IfOk result (λ texts. texts.items ≡ map text_in (map view elements.now)) }
{
    let mut texts = Vec::new(alloc);
    for element in elements {
        texts.push(Text::new(alloc, member::text_value(element))?)?;
    }
    Ok(texts)
}

// The same with ASCII letters in lower case.
fn copy_in_lowercase(alloc: Global, elements: &[Value]) -> Result<Vec<Text>, AllocError>
    ensures { IfOk result (λ texts. texts.items ≡ map lower_text_in (map view elements.now)) }
{
    let mut texts = Vec::new(alloc);
    for element in elements {
        texts.push(lower_text(alloc, member::text_value(element))?)?;
    }
    Ok(texts)
}

// A text with its ASCII letters in lower case.
fn lower_text(alloc: Global, text: &str) -> Result<Text, AllocError>
    ensures { IfOk result (λ lower. lower ≡ str_to_ascii_lowercase text.now) }
{
    let mut lower = String::from_str(alloc, text)?;
    lower.make_ascii_lowercase();
    Text::new(alloc, lower.as_str())
}

// The text, or none where it is empty.
fn filled_text(alloc: Global, text: &str) -> Result<Option<Text>, AllocError>
    ensures { IfOk result (λ filled. filled ≡ filled_text text.now) }
{
    if text.len() == 0 {
        return Ok(None);
    }
    Ok(Some(Text::new(alloc, text)?))
}
