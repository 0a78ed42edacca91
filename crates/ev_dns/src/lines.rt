ghost use Rattle.std.specs.Prelude.{◌≡◌, ℕ, true, is_some, IfOk};
ghost use Rattle.serde_json.specs.Data.{Data};
ghost use Rattle.serde_json.specs.View.{view};
ghost use Rattle.ev_types.specs.declared.events.Profile.{Profile};
ghost use Rattle.ev_script.specs.Faults.{plain_lines};
ghost use Rattle.ev_dns.specs.Resolving.{is_written};
ghost use Rattle.ev_dns.specs.Lines.{dns_lines, given_addresses, addresses_at, resolution_of, resolution_in};

use crate::names::read_names;
use ev_script::{OwnOperation, has_only, is_op, name_at};
use ev_types::{Name, Profile, Seq};
use serde_json::Value;
use std::alloc::{AllocError, Global};

/// What a line says of the resolution of a host name.
#[derive(Drop)]
pub struct Resolution {
    /// The host name.
    pub name: Name,
    /// The addresses, or none where the resolution failed.
    pub addresses: Option<Seq<Name>>,
}

/// The operation of a line with a resolution of a host name; all other lines are as in a script.
#[derive(Clone, Copy, Debug)]
pub struct ResolvedOperation;

impl OwnOperation for ResolvedOperation {
    ghost use Rattle.std.specs.Prelude.{codes};
    ghost use Rattle.ev_dns.specs.Lines.{resolved_line};

    ghost word = { codes "resolved" };

    ghost lines = { resolved_line };

    fn word(&self) -> &'static str {
        "resolved"
    }

    fn is_line(&self, alloc: Global, _profile: Profile, tree: &Value) -> Result<bool, AllocError> {
        Ok(resolution_in(alloc, tree)?.is_some())
    }
}

/// The resolution that a line brings, or none where it isn't such a line: a host name, and addresses unless it failed,
/// each a text of 1 to 512 bytes.
///
/// # Errors
/// `AllocError` where there is no memory for it.
pub fn resolution_in(alloc: Global, tree: &Value) -> Result<Option<Resolution>, AllocError>
    ensures { IfOk result (λ found. found ≡ resolution_in (view tree.now)) }
{
    if !is_op("resolved", tree) {
        return Ok(None);
    }
    if !has_only(tree, &["op", "name", "addresses"]) {
        return Ok(None);
    }
    resolution_of(alloc, tree)
}

/// Each line of an input is written exactly where it is a line of a script, in either profile: a law of the
/// definitions.
#[tactic(auto, using(crate::proofs::LineLemmas::written_where_plain))]
pub fn script_lines_are_written()
    ensures { (profile : Profile) (at : ℕ) (tree : Data) → is_some (dns_lines.lines profile at tree) ≡ true
        → is_written tree ≡ is_some (plain_lines.lines profile at tree) }
{}

// A resolution, by its members.
fn resolution_of(alloc: Global, tree: &Value) -> Result<Option<Resolution>, AllocError>
    ensures { IfOk result (λ found. found ≡ resolution_of (view tree.now)) }
{
    let Some(name) = name_at(alloc, tree, "name")? else {
        return Ok(None);
    };
    match addresses_at(alloc, tree)? {
        Some(addresses) => Ok(Some(Resolution { name, addresses })),
        None => Ok(None),
    }
}

// The addresses that a resolution gives; where the member is absent, it failed.
fn addresses_at(alloc: Global, tree: &Value) -> Result<Option<Option<Seq<Name>>>, AllocError>
    ensures { IfOk result (λ addresses. addresses ≡ addresses_at (view tree.now)) }
{
    match tree.get("addresses") {
        Some(addresses) => given_addresses(alloc, addresses),
        None => Ok(Some(None)),
    }
}

// Addresses that are given.
fn given_addresses(alloc: Global, tree: &Value) -> Result<Option<Option<Seq<Name>>>, AllocError>
    ensures { IfOk result (λ addresses. addresses ≡ given_addresses (view tree.now)) }
{
    match read_names(alloc, tree)? {
        Some(names) => Ok(Some(Some(names))),
        None => Ok(None),
    }
}
