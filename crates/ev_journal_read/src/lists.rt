ghost use Rattle.std.specs.Prelude.{◌≡◌, Option, List, IfOk, map};
ghost use Rattle.serde_json.specs.Data.{Data};
ghost use Rattle.serde_json.specs.View.{view};
ghost use Rattle.ev_journal_read.specs.Trees.{all_read, list_of};

use ev_types::Seq;
use serde_json::Value;
use std::alloc::{AllocError, Global};

/// What the elements of a list are read as.
pub(crate) trait Element: Drop {
    ghost reads: { Data → Option Self };

    /// The element that a tree is, or none where it isn't one.
    fn read(alloc: Global, tree: &Value) -> Result<Option<Self>, AllocError>
        ensures { IfOk result (λ found. found ≡ reads (view tree.now)) };
}

// The elements of an array as they read, or none where it isn't one or an element isn't one.
#[tactic(auto, using(ev_tree::proofs::Elements::the_elements), unfolding(ev_tree::specs::Scalars::list_in))]
pub(crate) fn read_list<T: Element>(
    alloc: Global,
    tree: &Value,
) -> Result<Option<Seq<T>>, AllocError>
    ensures { IfOk result (λ found. found ≡ list_of T.reads (view tree.now)) }
{
    match tree.as_array() {
        Some(elements) => read_all(alloc, elements.as_slice()),
        None => Ok(None),
    }
}

// Each of these trees, or none where one isn't an element.
fn read_all<T: Element>(alloc: Global, elements: &[Value]) -> Result<Option<Seq<T>>, AllocError>
    ensures { IfOk result (λ found. found ≡ all_read T.reads (map view elements.now)) }
{
    let mut items = Vec::with_capacity(alloc, elements.len())?;
    for element in elements {
        match T::read(alloc, element)? {
            Some(item) => items.push(item)?,
            None => return Ok(None),
        }
    }
    Ok(Some(Seq::from_vec(items)))
}
