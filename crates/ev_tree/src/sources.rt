ghost use Rattle.std.specs.Prelude.{◌≡◌, IfOk};
ghost use Rattle.ev_tree.specs.Forms.{tree_of};
ghost use Rattle.ev_tree.specs.Sources.{one_of, source_broken, any_source_broken, source_broken_in, source_is_limited};

use crate::broken::BrokenRules;
use crate::counts::exactly_one;
use crate::member;
use crate::span::{is_negative, is_zero};
use ev_types::Profile;
use serde_json::Value;
use std::alloc::{AllocError, Global};

/// What a look at a config source finds.
#[derive(Clone, Copy, Debug)]
pub struct ConfigSource {
    /// Whether the wait for the first values ends: it doesn't where the timeout is zero.
    pub limited: bool,
    /// The rules that it breaks: V6 where a field of it has the wrong form, and V10 where it isn't exactly one source
    /// that the profile takes, or has a negative timeout.
    pub broken: BrokenRules,
}

/// A config source in a profile, which may be missing.
pub fn config_source(
    alloc: Global,
    profile: Profile,
    source: Option<&Value>,
) -> Result<ConfigSource, AllocError>
    ensures limited { IfOk result (λ s. s.limited ≡ source_is_limited (tree_of source.entry)) }
    ensures broken { IfOk result (λ s. s.broken ≡ source_broken_in profile (tree_of source.entry)) }
{
    match profile {
        Profile::Own => aggregated_source(alloc, source),
        Profile::Envoy => any_source(alloc, source),
    }
}

// A config source as Envoy reads it: any kind will do.
fn any_source(alloc: Global, source: Option<&Value>) -> Result<ConfigSource, AllocError>
    ensures limited { IfOk result (λ s. s.limited ≡ source_is_limited (tree_of source.entry)) }
    ensures broken { IfOk result (λ s. s.broken ≡ any_source_broken (tree_of source.entry)) }
{
    let read = aggregated_source(alloc, source)?;
    let ads = member::object(alloc, source, "ads")?;
    let own = member::object(alloc, source, "self")?;
    let path = member::field(alloc, source, "path")?;
    let watched_path = member::field(alloc, source, "path_config_source")?;
    let api = member::field(alloc, source, "api_config_source")?;
    let timeout = member::duration(alloc, source, "initial_fetch_timeout")?;
    let given = [
        ads.is_given(),
        own.is_given(),
        path.is_given(),
        watched_path.is_given(),
        api.is_given(),
    ];
    Ok(ConfigSource {
        limited: read.limited,
        broken: BrokenRules {
            v10: !exactly_one(&given) | is_negative(timeout),
            ..read.broken
        },
    })
}

// A config source that is the aggregated stream.
#[tactic(auto, unfolding(crate::specs::Sources::source_is_limited))]
fn aggregated_source(alloc: Global, source: Option<&Value>) -> Result<ConfigSource, AllocError>
    ensures limited { IfOk result (λ s. s.limited ≡ source_is_limited (tree_of source.entry)) }
    ensures broken { IfOk result (λ s. s.broken ≡ source_broken (tree_of source.entry)) }
{
    let ads = member::object(alloc, source, "ads")?;
    let own = member::object(alloc, source, "self")?;
    let timeout = member::duration(alloc, source, "initial_fetch_timeout")?;
    let path = member::field(alloc, source, "path")?;
    let watched_path = member::field(alloc, source, "path_config_source")?;
    let api = member::field(alloc, source, "api_config_source")?;
    let other = path.is_given() | watched_path.is_given() | api.is_given();
    Ok(ConfigSource {
        limited: !is_zero(timeout),
        broken: BrokenRules {
            v6: ads.is_wrong()
                | own.is_wrong()
                | timeout.is_wrong()
                | path.is_wrong()
                | watched_path.is_wrong()
                | api.is_wrong(),
            v10: !is_one(ads.is_given(), own.is_given()) | other | is_negative(timeout),
            ..BrokenRules::none()
        },
    })
}

// Exactly one of two.
fn is_one(first: bool, second: bool) -> bool
    ensures { result ≡ one_of first second }
{
    first != second
}
