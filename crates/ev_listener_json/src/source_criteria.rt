ghost use Rattle.std.specs.Prelude.{◌≡◌, IfOk, map};
ghost use Rattle.std.specs.List.{list_all};
ghost use Rattle.serde_json.specs.View.{view};
ghost use Rattle.ev_tree.specs.Forms.{tree_of, value_or_wrong};
ghost use Rattle.ev_listener_json.specs.SourceCriteria.{is_destination, is_source_port, source_port_in, source_type_named, source_type_in, source_type_of, source_type_numbered, sources_of, sources_broken};

use crate::cidr_ranges::inspect_ranges;
use ev_tree::{BrokenRules, Found, Inspection, MAX_PORT, member, u32_value};
use ev_types::{CidrRange, Seq, SourceType};
use serde_json::Value;
use std::alloc::{AllocError, Global};

/// What a filter chain's match asks of where a connection comes from, by each criterion.
#[derive(Drop)]
pub(crate) struct Sources {
    pub direct_ranges: Seq<CidrRange>,
    pub source_type: Option<SourceType>,
    pub ranges: Seq<CidrRange>,
    pub ports: Seq<u16>,
}

/// Inspects what a filter chain's match asks of where a connection comes from:
/// it, and the rules that it breaks, of V6 and V16.
pub(crate) fn inspect_sources(
    alloc: Global,
    tree: Option<&Value>,
) -> Result<Inspection<Sources>, AllocError>
    ensures value { IfOk result (λ found. found.value ≡ sources_of (tree_of tree.entry)) }
    ensures broken { IfOk result (λ found. found.broken ≡ sources_broken (tree_of tree.entry)) }
{
    let direct = member::objects(alloc, tree, "direct_source_prefix_ranges")?;
    let ranges = member::objects(alloc, tree, "source_prefix_ranges")?;
    let ports = member::list(alloc, tree, "source_ports")?;
    let kind = find_source_type(alloc, tree)?;
    let direct_below = inspect_ranges(alloc, member::elements(direct))?;
    let below = inspect_ranges(alloc, member::elements(ranges))?;
    let own = BrokenRules {
        v6: direct.is_wrong()
            | ranges.is_wrong()
            | ports.is_wrong()
            | !are_source_ports(member::elements(ports))
            | kind.is_wrong(),
        ..BrokenRules::none()
    };
    Ok(Inspection {
        value: Sources {
            direct_ranges: Seq::from_vec(direct_below.value),
            source_type: source_type_numbered(kind.given_or(0)),
            ranges: Seq::from_vec(below.value),
            ports: Seq::from_vec(copy_ports(alloc, member::elements(ports))?),
        },
        broken: direct_below.broken.or(below.broken.or(own)),
    })
}

// Whether a number is a port that a connection can have: 1 to 65535.
pub(crate) fn is_destination(port: u32) -> bool
    ensures { result ≡ is_destination port }
{
    1 <= port && port <= MAX_PORT
}

// The ports of these elements.
fn copy_ports(alloc: Global, elements: &[Value]) -> Result<Vec<u16>, AllocError>
    ensures { IfOk result (λ ports. ports.items ≡ map source_port_in (map view elements.now)) }
{
    let mut ports = Vec::new(alloc);
    for element in elements {
        ports.push(source_port_in(element))?;
    }
    Ok(ports)
}

// The port that a value is, or 0.
fn source_port_in(value: &Value) -> u16
    ensures { result ≡ source_port_in (view value.now) }
{
    match u32_value(value) {
        Some(port) if is_destination(port) => port as u16,
        _ => 0,
    }
}

// Whether each of these is a port.
fn are_source_ports(values: &[Value]) -> bool
    ensures { result ≡ list_all (λ v. is_source_port (view v)) values.now }
{
    values.iter().all(|value| is_source_port(value))
}

// Whether a value is a port.
fn is_source_port(value: &Value) -> bool
    ensures { result ≡ is_source_port (view value.now) }
{
    match u32_value(value) {
        Some(port) => is_destination(port),
        None => false,
    }
}

// The type of this number: 0 is any.
fn source_type_numbered(number: u32) -> Option<SourceType>
    ensures { result ≡ source_type_numbered number }
{
    if number == 1 {
        Some(SourceType::SameIpOrLoopback)
    } else if number == 2 {
        Some(SourceType::External)
    } else {
        None
    }
}

// The type of the source, if it is given.
#[tactic(auto, unfolding(crate::specs::SourceCriteria::source_type_of))]
fn find_source_type(alloc: Global, tree: Option<&Value>) -> Result<Found<u32>, AllocError>
    ensures { IfOk result (λ found. found ≡ source_type_of (tree_of tree.entry)) }
{
    match member::field(alloc, tree, "source_type")? {
        Found::Absent => Ok(Found::Absent),
        Found::Wrong => Ok(Found::Wrong),
        Found::Given(value) => Ok(give_or_wrong(source_type_value(value))),
    }
}

// A number that the form takes, or the wrong form.
fn give_or_wrong(value: Option<u32>) -> Found<u32>
    ensures { result ≡ value_or_wrong value }
{
    match value {
        Some(value) => Found::Given(value),
        None => Found::Wrong,
    }
}

// A value as the type of the source.
#[tactic(auto, unfolding(crate::specs::SourceCriteria::source_type_in))]
fn source_type_value(value: &Value) -> Option<u32>
    ensures { result ≡ source_type_in (view value.now) }
{
    if let Some(text) = value.as_str() {
        return named_source_type(text);
    }
    let number = value.as_u64()?;
    if number < 3 {
        Some(number as u32)
    } else {
        None
    }
}

// The number of a name.
fn named_source_type(name: &str) -> Option<u32>
    ensures { result ≡ source_type_named name.now }
{
    if name == "ANY" {
        Some(0)
    } else if name == "SAME_IP_OR_LOOPBACK" {
        Some(1)
    } else if name == "EXTERNAL" {
        Some(2)
    } else {
        None
    }
}
