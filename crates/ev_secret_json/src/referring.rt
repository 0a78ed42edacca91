ghost use Rattle.std.specs.Prelude.{◌≡◌, IfOk};
ghost use Rattle.ev_tree.specs.Forms.{found_map};
ghost use Rattle.ev_secret_json.specs.References.{none_referred, wrong_form, joined, reference_with, is_bad_name};

use ev_tree::{BrokenRules, Found, is_name, member};
use ev_types::{Name, NameError, Reference, Seq};
use std::alloc::{AllocError, Global};

/// The references of a part of a resource, and the rules that the part breaks.
#[derive(Drop)]
pub struct References {
    /// The references in order. They count where no rule is broken.
    pub list: Seq<Reference>,
    pub broken: BrokenRules,
}

/// No references, and no rule is broken.
pub fn no_references(alloc: Global) -> References
    ensures { result ≡ none_referred }
{
    References {
        list: Seq::new(alloc),
        broken: BrokenRules::none(),
    }
}

/// No references, of a part that may have the wrong form.
pub fn wrong_form(alloc: Global, wrong: bool) -> References
    ensures { result ≡ wrong_form wrong }
{
    References {
        list: Seq::new(alloc),
        broken: BrokenRules {
            v6: wrong,
            ..BrokenRules::none()
        },
    }
}

/// The references of one part and then those of another, and the rules that one of them breaks.
pub fn join_references(first: References, second: References) -> Result<References, AllocError>
    ensures { IfOk result (λ both. both ≡ joined first second) }
{
    let References { list, broken } = first;
    let mut items = list.into_vec();
    let mut more = second.list.into_vec();
    items.append(&mut more)?;
    Ok(References {
        list: Seq::from_vec(items),
        broken: broken.or(second.broken),
    })
}

/// The reference of this name, where a resource is asked for and the name is one.
pub(crate) fn make_reference(
    alloc: Global,
    asks: bool,
    name: &str,
    limited: bool,
) -> Result<Seq<Reference>, AllocError>
    ensures { IfOk result (λ list. list ≡ reference_with asks name.now limited) }
{
    if !asks {
        return Ok(Seq::new(alloc));
    }
    match Name::new(alloc, name) {
        Ok(name) => {
            let mut list = Seq::new(alloc);
            list.push(Reference { name, limited })?;
            Ok(list)
        }
        Err(NameError::Length) => Ok(Seq::new(alloc)),
        Err(NameError::OutOfMemory) => Err(AllocError),
    }
}

/// Whether a name that is judged has not 1 to 512 bytes. One of a wrong form breaks V6 alone.
pub(crate) fn is_bad_name(judged: bool, name: Found<&str>) -> bool
    ensures { result ≡ is_bad_name judged (found_map (λ s. s.now) name.entry) }
{
    judged & !name.is_wrong() & !is_name(member::text_or_empty(name))
}
