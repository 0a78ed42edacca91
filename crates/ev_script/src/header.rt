ghost use Rattle.std.specs.Prelude.{◌≡◌, option_copied, codes, IfOk, IfSome};
ghost use Rattle.serde_json.specs.View.{view};
ghost use Rattle.ev_types.specs.Texts.{IsName};
ghost use Rattle.ev_script.specs.Members.{name_of, member_or};
ghost use Rattle.ev_types.specs.declared.events.Profile.TheVariants.{Own};
ghost use Rattle.ev_script.specs.Header.{profile_with, profile_of, header_of, settings_of, IsHeader};

use crate::forms::Settings;
use crate::members::{flag_or, has_only, number_at, text_within};
use ev_types::{MAX_NAME_LENGTH, MAX_WORKERS, Profile, Text};
use serde_json::Value;
use std::alloc::{AllocError, Global};

/// The id of a node that the header doesn't name.
const DEFAULT_NODE: &str = "warmgate";

/// What the first line of a script says.
#[derive(Drop)]
pub struct Header {
    /// How many workers there are: 1 to 16.
    pub workers: u32,
    /// Whether a publication and a reaping follow each line of the stream, the health checker and the
    /// timers.
    pub auto: bool,
    /// How resources are read.
    pub profile: Profile,
    /// The id of the node, of 1 to 512 bytes.
    pub node: Text,
}

/// The header that a line's tree is, or none where it isn't one. Its members are `workers`, 1 to 16,
/// `auto`, false where it is absent, `profile`, which is `envoy` where it is there, and `node`,
/// `warmgate` where it is absent.
///
/// # Errors
/// `AllocError` where there is no memory for it.
pub fn read_header(alloc: Global, tree: &Value) -> Result<Option<Header>, AllocError>
    ensures header { IfOk result (λ header. header ≡ header_of (view tree.now)) }
    ensures kept { IfOk result (λ header. IfSome header IsHeader) }
{
    if !has_only(tree, &["workers", "auto", "node", "profile"]) {
        return Ok(None);
    }
    let Some(workers) = number_at(tree, "workers", 1, MAX_WORKERS as u64) else {
        return Ok(None);
    };
    let Some(auto) = flag_or(tree, "auto", false) else {
        return Ok(None);
    };
    let Some(profile) = profile_in(tree) else {
        return Ok(None);
    };
    let Some(node) = node_of(tree) else {
        return Ok(None);
    };
    Ok(Some(Header {
        workers: workers as u32,
        auto,
        profile,
        node: Text::new(alloc, node)?,
    }))
}

// What a header sets for the lines after it.
pub(crate) fn settings_of(header: &Header) -> Settings
    ensures { result ≡ settings_of header.now }
{
    Settings {
        workers: header.workers,
        profile: header.profile,
    }
}

// The profile of a header, or the project's own.
fn profile_in(tree: &Value) -> Option<Profile>
    ensures { result ≡ member_or Own profile_of (codes "profile") (view tree.now) }
{
    match tree.get("profile") {
        Some(value) => profile_of(value),
        None => Some(Profile::Own),
    }
}

// The profile that a value names.
fn profile_of(value: &Value) -> Option<Profile>
    ensures { result ≡ profile_of (view value.now) }
{
    profile_with(value.as_str()?)
}

// A profile, by its word.
fn profile_with(word: &str) -> Option<Profile>
    ensures { result ≡ profile_with word.now }
{
    match word {
        "envoy" => Some(Profile::Envoy),
        _ => None,
    }
}

// The id of a header's node: a text of 1 to 512 bytes, or the default.
fn node_of(tree: &Value) -> Option<&str>
    ensures member { option_copied result ≡ member_or (codes "warmgate") name_of (codes "node") (view tree.now) }
    ensures named { IfSome result (λ node. IsName node.now) }
{
    match tree.get("node") {
        Some(node) => text_within(1, MAX_NAME_LENGTH, node),
        None => Some(DEFAULT_NODE),
    }
}
