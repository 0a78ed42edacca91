ghost use Rattle.std.specs.Prelude.{◌≡◌, map, IfOk};
ghost use Rattle.serde_json.specs.View.{view};
ghost use Rattle.ev_dns.specs.Lines.{all_names, names_of};

use ev_script::read_name;
use ev_types::{Name, Seq};
use serde_json::Value;
use std::alloc::{AllocError, Global};

// The elements of an array of names, or none where it isn't one.
#[tactic(auto, using(ev_tree::proofs::Elements::the_elements), unfolding(ev_tree::specs::Scalars::list_in))]
pub(crate) fn read_names(alloc: Global, tree: &Value) -> Result<Option<Seq<Name>>, AllocError>
    ensures { IfOk result (λ names. names ≡ names_of (view tree.now)) }
{
    match tree.as_array() {
        Some(elements) => read_all(alloc, elements.as_slice()),
        None => Ok(None),
    }
}

// Each of these trees as the name that it is, or none where one isn't a name.
fn read_all(alloc: Global, elements: &[Value]) -> Result<Option<Seq<Name>>, AllocError>
    ensures { IfOk result (λ names. names ≡ all_names (map view elements.now)) }
{
    let mut names = Vec::with_capacity(alloc, elements.len())?;
    for element in elements {
        match read_name(alloc, element)? {
            Some(name) => names.push(name)?,
            None => return Ok(None),
        }
    }
    Ok(Some(Seq::from_vec(names)))
}
