ghost use Rattle.std.specs.Prelude.{◌≡◌, ◌++◌, option_to_list, IfOk, OnOk};
ghost use Rattle.ev_cluster_json.specs.Made.{name_in};

use ev_types::{Name, NameError};
use std::alloc::{AllocError, Global};

// The name that a text is, if it has 1 to 512 bytes.
pub(crate) fn make_name(alloc: Global, text: &str) -> Result<Option<Name>, AllocError>
    ensures { IfOk result (λ name. name ≡ name_in text.now) }
{
    match Name::new(alloc, text) {
        Ok(name) => Ok(Some(name)),
        Err(NameError::Length) => Ok(None),
        Err(NameError::OutOfMemory) => Err(AllocError),
    }
}

// Appends a name to these, where there is one.
pub(crate) fn push_name(names: &mut Vec<Name>, name: Option<Name>) -> Result<(), AllocError>
    ensures { OnOk result (names.new.items ≡ names.old.items ++ option_to_list name) }
{
    match name {
        Some(name) => Ok(names.push(name)?),
        None => Ok(()),
    }
}
