ghost use Rattle.std.specs.Prelude.{◌≡◌, IfOk};
ghost use Rattle.serde_json.specs.View.{view};
ghost use Rattle.ev_script.specs.Lines.{main_side_line, line_by, line_of};

use crate::health_lines::health_line;
use crate::main_lines::{publish_line, reap_line};
use crate::members::word_at;
use crate::stream_lines::{connect_line, disconnect_line, response_line};
use crate::timer_lines::{drain_line, expired_line, timeout_line};
use crate::worker_lines::{accept_line, close_line, settle_line};
use ev_types::{Line, Profile};
use serde_json::Value;
use std::alloc::{AllocError, Global};

/// The line that a tree is, at its place in a script of this profile, or none where it isn't one: its operation, or
/// one of its members, hasn't its form. Whether a worker is one of the script's is not looked at.
///
/// # Errors
/// `AllocError` where there is no memory for it.
pub fn read_line(
    alloc: Global,
    profile: Profile,
    at: u32,
    tree: &Value,
) -> Result<Option<Line>, AllocError>
    ensures { IfOk result (λ line. line ≡ line_of profile at (view tree.now)) }
{
    match word_at(tree, "op") {
        Some(op) => line_by(alloc, profile, op, at, tree),
        None => Ok(None),
    }
}

// The line of an operation.
fn line_by(
    alloc: Global,
    profile: Profile,
    op: &str,
    at: u32,
    tree: &Value,
) -> Result<Option<Line>, AllocError>
    ensures { IfOk result (λ line. line ≡ line_by profile op.now at (view tree.now)) }
{
    match op {
        "accept" => accept_line(alloc, profile, at, tree),
        "close" => Ok(close_line(at, tree)),
        "settle" => Ok(settle_line(at, tree)),
        _ => main_side_line(alloc, profile, op, at, tree),
    }
}

// The line of an operation of the main side.
fn main_side_line(
    alloc: Global,
    profile: Profile,
    op: &str,
    at: u32,
    tree: &Value,
) -> Result<Option<Line>, AllocError>
    ensures { IfOk result (λ line. line ≡ main_side_line profile op.now at (view tree.now)) }
{
    match op {
        "connect" => Ok(connect_line(at, tree)),
        "disconnect" => Ok(disconnect_line(at, tree)),
        "response" => response_line(alloc, profile, at, tree),
        "health" => health_line(alloc, at, tree),
        "fetchTimeout" => timeout_line(alloc, profile, at, tree),
        "drainTimeout" => drain_line(alloc, at, tree),
        "ttlExpired" => expired_line(alloc, profile, at, tree),
        "publish" => Ok(publish_line(at, tree)),
        "reap" => Ok(reap_line(at, tree)),
        _ => Ok(None),
    }
}
