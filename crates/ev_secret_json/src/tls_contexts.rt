ghost use Rattle.std.specs.Prelude.{◌≡◌, IfOk};
ghost use Rattle.ev_tree.specs.Forms.{tree_of};
ghost use Rattle.ev_secret_json.specs.TlsContexts.{common_secrets, upstream_secrets, downstream_secrets};

use crate::referring::{References, join_references, wrong_form};
use crate::secret_configs::{find_secret_in, find_secrets_in};
use ev_tree::member;
use serde_json::Value;
use std::alloc::{AllocError, Global};

// The secrets of a common TLS context: its certificates, then its validation context, given by itself or combined with
// another.
fn find_common_secrets(alloc: Global, context: Option<&Value>) -> Result<References, AllocError>
    ensures { IfOk result (λ found. found ≡ common_secrets (tree_of context.entry)) }
{
    let certificates = find_secrets_in(alloc, context, "tls_certificate_sds_secret_configs")?;
    let validation = find_secret_in(alloc, context, "validation_context_sds_secret_config")?;
    let combined = member::object(alloc, context, "combined_validation_context")?;
    let inner = member::inner(combined);
    let in_combined = find_secret_in(alloc, inner, "validation_context_sds_secret_config")?;
    let last = join_references(in_combined, wrong_form(alloc, combined.is_wrong()))?;
    let behind = join_references(validation, last)?;
    join_references(certificates, behind)
}

/// The secrets of an upstream TLS context: those of its common context.
pub(crate) fn find_upstream_secrets(
    alloc: Global,
    context: Option<&Value>,
) -> Result<References, AllocError>
    ensures { IfOk result (λ found. found ≡ upstream_secrets (tree_of context.entry)) }
{
    let common = member::object(alloc, context, "common_tls_context")?;
    let below = find_common_secrets(alloc, member::inner(common))?;
    join_references(below, wrong_form(alloc, common.is_wrong()))
}

/// The secrets of a downstream TLS context: those of its common context, then the keys of its session tickets.
pub(crate) fn find_downstream_secrets(
    alloc: Global,
    context: Option<&Value>,
) -> Result<References, AllocError>
    ensures { IfOk result (λ found. found ≡ downstream_secrets (tree_of context.entry)) }
{
    let common = find_upstream_secrets(alloc, context)?;
    let keys = find_secret_in(alloc, context, "session_ticket_keys_sds_secret_config")?;
    join_references(common, keys)
}
