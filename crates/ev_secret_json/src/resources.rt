ghost use Rattle.std.specs.Prelude.{◌≡◌, IfOk};
ghost use Rattle.serde_json.specs.Data.{Data};
ghost use Rattle.serde_json.specs.View.{view};
ghost use Rattle.ev_tree.specs.Rules.{ReadsAs, IsLeast};
ghost use Rattle.ev_tree.specs.Broken.{rules_of, least_of};
ghost use Rattle.ev_secret_json.specs.Resources.{secret_broken, secret_reading, config_broken, extension_reading, has_type};

use ev_tree::{BrokenRules, ReadError, exactly_one, member};
use serde_json::Value;
use std::alloc::{AllocError, Global};

/// Reads a secret (`envoy.extensions.transport_sockets.tls.v3.Secret`), of which nothing is kept.
///
/// # Errors
/// `Rule` with the lowest-numbered rule that it breaks, V6 or V28, and `OutOfMemory`.
pub fn read_secret(alloc: Global, value: &Value) -> Result<(), ReadError>
    ensures { ReadsAs result (secret_reading (view value.now)) }
{
    let broken = inspect_secret(alloc, value)?;
    match broken.least() {
        Some(rule) => Err(ReadError::Rule(rule)),
        None => Ok(()),
    }
}

/// Reads an extension (`envoy.config.core.v3.TypedExtensionConfig`), of which nothing is kept.
///
/// # Errors
/// `Rule` with the lowest-numbered rule that it breaks, V6 or V29, and `OutOfMemory`.
pub fn read_extension(alloc: Global, value: &Value) -> Result<(), ReadError>
    ensures { ReadsAs result (extension_reading (view value.now)) }
{
    let broken = inspect_extension(alloc, value)?;
    match broken.least() {
        Some(rule) => Err(ReadError::Rule(rule)),
        None => Ok(()),
    }
}

/// The rule by which a secret is refused is the least of all that it breaks, and where there is none, it breaks none: a
/// law of the definitions.
pub fn secret_rule_is_least()
    ensures { (tree : Data) → IsLeast (rules_of (secret_broken tree)) (least_of (secret_broken tree)) }
{}

/// The same of an extension.
pub fn extension_rule_is_least()
    ensures { (tree : Data) → IsLeast (rules_of (config_broken tree)) (least_of (config_broken tree)) }
{}

// What a secret breaks.
fn inspect_secret(alloc: Global, value: &Value) -> Result<BrokenRules, AllocError>
    ensures { IfOk result (λ broken. broken ≡ secret_broken (view value.now)) }
{
    let name = member::text(alloc, Some(value), "name")?;
    let certificate = member::object(alloc, Some(value), "tls_certificate")?;
    let keys = member::object(alloc, Some(value), "session_ticket_keys")?;
    let validation = member::object(alloc, Some(value), "validation_context")?;
    let generic = member::object(alloc, Some(value), "generic_secret")?;
    let given = [
        certificate.is_given(),
        keys.is_given(),
        validation.is_given(),
        generic.is_given(),
    ];
    Ok(BrokenRules {
        v6: name.is_wrong()
            | certificate.is_wrong()
            | keys.is_wrong()
            | validation.is_wrong()
            | generic.is_wrong(),
        v28: !exactly_one(&given),
        ..BrokenRules::none()
    })
}

// What an extension breaks.
fn inspect_extension(alloc: Global, value: &Value) -> Result<BrokenRules, AllocError>
    ensures { IfOk result (λ broken. broken ≡ config_broken (view value.now)) }
{
    let name = member::text(alloc, Some(value), "name")?;
    let config = member::object(alloc, Some(value), "typed_config")?;
    let kind = member::text(alloc, member::inner(config), "@type")?;
    Ok(BrokenRules {
        v6: name.is_wrong() | config.is_wrong() | kind.is_wrong(),
        v29: !has_type(member::text_or_empty(kind)),
        ..BrokenRules::none()
    })
}

// Whether a type is named.
fn has_type(name: &str) -> bool
    ensures { result ≡ has_type name.now }
{
    name.len() != 0
}
