ghost use Rattle.std.specs.Prelude.{◌≡◌, IfOk};
ghost use Rattle.serde_json.specs.View.{view};
ghost use Rattle.ev_cluster_json.specs.Assignments.{weight_of, is_usable_status, host_broken};
ghost use Rattle.ev_tree.specs.Addresses.{text_found};
ghost use Rattle.ev_cluster_json.specs.Made.{name_in, row_with, made_row};

use ev_tree::{AddressText, BrokenRules, EnumTable, any_address, member};
use ev_types::{Host, HostRow, Name, NameError, Profile};
use serde_json::Value;
use std::alloc::{AllocError, Global};

/// What is found of a host.
#[derive(Drop)]
pub struct HostParts {
    /// Its row, where it has an address and a weight.
    pub row: Option<HostRow>,
    /// Its weight, which may be 0.
    pub weight: u32,
    /// The rules that it breaks.
    pub broken: BrokenRules,
}

/// Inspects a host of an assignment.
pub fn inspect_host(
    alloc: Global,
    profile: Profile,
    host: &Value,
    priority: u8,
) -> Result<HostParts, AllocError>
    ensures row { IfOk result (λ h. h.row ≡ made_row profile priority (view host.now)) }
    ensures weight { IfOk result (λ h. h.weight ≡ weight_of (view host.now)) }
    ensures broken { IfOk result (λ h. h.broken ≡ host_broken profile (view host.now)) }
{
    let endpoint = member::object(alloc, Some(host), "endpoint")?;
    let address = any_address(alloc, profile, member::inner(endpoint))?;
    let status = member::enumeration(alloc, Some(host), "health_status", EnumTable::Health)?;
    let given_weight = member::number32(alloc, Some(host), "load_balancing_weight")?;
    let weight = given_weight.given_or(1);
    let usable = is_usable(status.given_or(0));
    let own = BrokenRules {
        v6: endpoint.is_wrong() | status.is_wrong() | given_weight.is_wrong(),
        v13: weight == 0,
        ..BrokenRules::none()
    };
    Ok(HostParts {
        row: make_row(alloc, address.text, address.port, weight, priority, usable)?,
        weight,
        broken: address.broken.or(own),
    })
}

// Whether a host of this health status may be chosen: an unknown, a healthy or a degraded one.
fn is_usable(status: u32) -> bool
    ensures { result ≡ is_usable_status status }
{
    status == 0 || status == 1 || status == 5
}

// A row, where the address has 1 to 512 bytes and the weight isn't 0.
fn make_row(
    alloc: Global,
    address: AddressText<'_>,
    port: u16,
    weight: u32,
    priority: u8,
    usable: bool,
) -> Result<Option<HostRow>, AllocError>
    ensures { IfOk result (λ row. row ≡ row_with (text_found address.entry) port weight priority usable) }
{
    if weight == 0 {
        return Ok(None);
    }
    match make_address(alloc, address)? {
        Some(address) => Ok(Some(HostRow {
            host: Host { address, port },
            weight,
            priority,
            usable,
        })),
        None => Ok(None),
    }
}

// The name that the text of an address is, if it has 1 to 512 bytes. That of a socket is copied once.
fn make_address(alloc: Global, address: AddressText<'_>) -> Result<Option<Name>, AllocError>
    ensures { IfOk result (λ name. name ≡ name_in (text_found address.entry)) }
{
    if let AddressText::Socket(text) = address {
        return make_name(alloc, text);
    }
    let text = address.to_text(alloc)?;
    make_name(alloc, text.as_str())
}

/// The name that a text is, if it has 1 to 512 bytes.
pub fn make_name(alloc: Global, text: &str) -> Result<Option<Name>, AllocError>
    ensures { IfOk result (λ name. name ≡ name_in text.now) }
{
    match Name::new(alloc, text) {
        Ok(name) => Ok(Some(name)),
        Err(NameError::Length) => Ok(None),
        Err(NameError::OutOfMemory) => Err(AllocError),
    }
}
