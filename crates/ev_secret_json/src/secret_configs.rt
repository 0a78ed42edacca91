ghost use Rattle.std.specs.Prelude.{◌≡◌, IfOk, map};
ghost use Rattle.serde_json.specs.View.{view};
ghost use Rattle.ev_tree.specs.Forms.{tree_of};
ghost use Rattle.ev_secret_json.specs.References.{each_joined};
ghost use Rattle.ev_secret_json.specs.SecretConfigs.{config_secret, secret_in, secrets_in};

use crate::referring::{
    References, is_bad_name, join_references, make_reference, no_references, wrong_form,
};
use ev_tree::{BrokenRules, config_source, member};
use ev_types::Profile;
use serde_json::Value;
use std::alloc::{AllocError, Global};

// The secret that a configuration asks for: none where it names no source, since it is one of the bootstrap then.
fn find_config_secret(alloc: Global, config: Option<&Value>) -> Result<References, AllocError>
    ensures { IfOk result (λ found. found ≡ config_secret (tree_of config.entry)) }
{
    let name = member::text(alloc, config, "name")?;
    let source = member::object(alloc, config, "sds_config")?;
    let from = config_source(alloc, Profile::Envoy, member::inner(source))?;
    let own = BrokenRules {
        v2: is_bad_name(!source.is_absent(), name),
        v6: name.is_wrong() | source.is_wrong(),
        ..BrokenRules::none()
    };
    let asks = source.is_given();
    let text = member::text_or_empty(name);
    Ok(References {
        list: make_reference(alloc, asks, text, from.limited)?,
        broken: from.broken.only_if(asks).or(own),
    })
}

/// The secret that a member of an object configures.
pub(crate) fn find_secret_in(
    alloc: Global,
    object: Option<&Value>,
    name: &str,
) -> Result<References, AllocError>
    ensures { IfOk result (λ found. found ≡ secret_in name.now (tree_of object.entry)) }
{
    let config = member::object(alloc, object, name)?;
    let below = find_config_secret(alloc, member::inner(config))?;
    join_references(below, wrong_form(alloc, config.is_wrong()))
}

/// The secrets that the elements of a member configure, in order.
pub(crate) fn find_secrets_in(
    alloc: Global,
    object: Option<&Value>,
    name: &str,
) -> Result<References, AllocError>
    ensures { IfOk result (λ found. found ≡ secrets_in name.now (tree_of object.entry)) }
{
    let configs = member::objects(alloc, object, name)?;
    let below = find_each(alloc, member::elements(configs))?;
    join_references(below, wrong_form(alloc, configs.is_wrong()))
}

// The secrets that these configurations ask for, in order.
fn find_each(alloc: Global, configs: &[Value]) -> Result<References, AllocError>
    ensures { IfOk result (λ found. found ≡ each_joined config_secret (map view configs.now)) }
{
    let mut found = no_references(alloc);
    for config in configs {
        let here = find_config_secret(alloc, Some(config))?;
        found = join_references(found, here)?;
    }
    Ok(found)
}
