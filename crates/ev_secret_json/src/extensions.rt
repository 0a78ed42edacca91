ghost use Rattle.std.specs.Prelude.{◌≡◌, IfOk, map};
ghost use Rattle.serde_json.specs.View.{view};
ghost use Rattle.ev_secret_json.specs.References.{each_joined};
ghost use Rattle.ev_secret_json.specs.Extensions.{filter_extension};

use crate::referring::{References, is_bad_name, join_references, make_reference, no_references};
use ev_tree::{BrokenRules, config_source, member};
use ev_types::Profile;
use serde_json::Value;
use std::alloc::{AllocError, Global};

/// The extension that a filter asks for by its name: none where it names no source, or where it goes by a default
/// until the extension is there.
pub fn find_extension(alloc: Global, filter: &Value) -> Result<References, AllocError>
    ensures { IfOk result (λ found. found ≡ filter_extension (view filter.now)) }
{
    let discovery = member::object(alloc, Some(filter), "config_discovery")?;
    let inner = member::inner(discovery);
    let source = member::object(alloc, inner, "config_source")?;
    let from = config_source(alloc, Profile::Envoy, member::inner(source))?;
    let default = member::object(alloc, inner, "default_config")?;
    let at_once = member::boolean(alloc, inner, "apply_default_config_without_warming")?;
    let name = member::text(alloc, Some(filter), "name")?;
    let asks = discovery.is_given();
    let judged = !discovery.is_absent();
    let waits = !(default.is_given() & at_once.given_or(false));
    let own = BrokenRules {
        v2: is_bad_name(judged, name),
        v6: discovery.is_wrong()
            | source.is_wrong()
            | default.is_wrong()
            | at_once.is_wrong()
            | (judged & name.is_wrong()),
        ..BrokenRules::none()
    };
    let text = member::text_or_empty(name);
    Ok(References {
        list: make_reference(alloc, asks & waits, text, from.limited)?,
        broken: from.broken.only_if(asks).or(own),
    })
}

/// The extensions that filters ask for, in order.
pub fn find_extensions(alloc: Global, filters: &[Value]) -> Result<References, AllocError>
    ensures { IfOk result (λ found. found ≡ each_joined filter_extension (map view filters.now)) }
{
    let mut found = no_references(alloc);
    for filter in filters {
        let here = find_extension(alloc, filter)?;
        found = join_references(found, here)?;
    }
    Ok(found)
}
