ghost use Rattle.std.specs.Prelude.{◌≡◌, ◌∷◌, option_map, IfOk};
ghost use Rattle.serde_json.specs.View.{view};
ghost use Rattle.ev_sotw.specs.Discovery.{seen};
ghost use Rattle.ev_sotw.specs.Lines.{response_in, version_in};

use crate::{Discovery, read_discovery};
use ev_script::{OwnOperation, has_only, is_op};
use ev_types::Profile;
use serde_json::Value;
use std::alloc::{AllocError, Global};

/// The operation of a response of the state of the world, whose message is one; all other lines are as in a script.
#[derive(Clone, Copy, Debug)]
pub struct StateResponse;

impl OwnOperation for StateResponse {
    ghost use Rattle.std.specs.Prelude.{codes};
    ghost use Rattle.ev_sotw.specs.Lines.{state_line};

    ghost word = { codes "response" };

    ghost lines = { state_line };

    fn word(&self) -> &'static str {
        "response"
    }

    fn is_line(&self, alloc: Global, profile: Profile, tree: &Value) -> Result<bool, AllocError> {
        Ok(response_in(alloc, profile, tree)?.is_some())
    }
}

/// The response of the state of the world that a line of a script in a profile brings, or none where it isn't such a
/// line.
///
/// # Errors
/// `AllocError` where there is no memory for it.
pub fn response_in(
    alloc: Global,
    profile: Profile,
    tree: &Value,
) -> Result<Option<Discovery<'_>>, AllocError>
    ensures { IfOk result (λ found. option_map seen found ≡ response_in profile (view tree.now)) }
{
    if !is_op("response", tree) {
        return Ok(None);
    }
    if !has_only(tree, &["op", "message"]) {
        return Ok(None);
    }
    match tree.get("message") {
        Some(message) => read_discovery(alloc, profile, message),
        None => Ok(None),
    }
}

/// The version of the response that a line brings, and the empty text where it brings none.
///
/// # Errors
/// `AllocError` where there is no memory for it.
pub fn version_in(alloc: Global, profile: Profile, tree: &Value) -> Result<&str, AllocError>
    ensures { IfOk result (λ version. version.now ≡ version_in profile (view tree.now)) }
{
    match response_in(alloc, profile, tree)? {
        Some(response) => Ok(response.version),
        None => Ok(""),
    }
}
