ghost use Rattle.std.specs.Prelude.{◌≡◌, ◌++◌, ◌==◌, [], IfOk, OnOk, string_bytes, encode_utf8, if◌then◌else◌};
ghost use Rattle.std.specs.Char.{to_ascii_uppercase};
ghost use Rattle.ev_tree.specs.Spelling.{camel_of, cased_char};

use std::alloc::{AllocError, Global};

/// The lowerCamelCase spelling of a field's name: each underscore falls away, and a letter after one is
/// a capital. This is how the proto3 JSON mapping writes names.
pub fn camel_case(alloc: Global, name: &str) -> Result<String, AllocError>
    ensures { IfOk result (λ spelled. string_bytes spelled ≡ camel_of name.now) }
{
    let mut spelled = String::with_capacity(alloc, name.len())?;
    let mut after_underscore = false;
    for c in name.chars() {
        push_cased(&mut spelled, after_underscore, c)?;
        after_underscore = c == '_';
    }
    Ok(spelled)
}

// Appends what a character gives: an underscore nothing, and a letter after one its capital.
fn push_cased(spelled: &mut String, after_underscore: bool, c: char) -> Result<(), AllocError>
    ensures { OnOk result (string_bytes spelled.new ≡ string_bytes spelled.old ++ cased_char after_underscore c) }
{
    if c == '_' {
        return Ok(());
    }
    spelled.push(if after_underscore {
        c.to_ascii_uppercase()
    } else {
        c
    })
}
