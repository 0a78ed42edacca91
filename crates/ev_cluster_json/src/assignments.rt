ghost use Rattle.std.specs.Prelude.{◌≡◌, IfOk};
ghost use Rattle.serde_json.specs.Data.{Data};
ghost use Rattle.serde_json.specs.View.{view};
ghost use Rattle.ev_types.specs.declared.events.Profile.{Profile};
ghost use Rattle.ev_tree.specs.Rules.{ReadsAs, IsLeast};
ghost use Rattle.ev_tree.specs.Broken.{rules_of, least_of};
ghost use Rattle.ev_cluster_json.specs.Assignments.{assignment_reading, assignment_broken};

use crate::groups::inspect_assignment;
use ev_tree::ReadError;
use ev_types::{Assignment, HostRow, Profile, ROW_LIMIT, Seq};
use serde_json::Value;
use std::alloc::{AllocError, Global};

/// Reads an assignment (`envoy.config.endpoint.v3.ClusterLoadAssignment`): its hosts, in order.
///
/// # Errors
/// `Rule` has the least form rule that it breaks: V6, V12 or V13. `OutOfMemory` comes where memory runs out, and
/// for 2^32 - 1 hosts or more.
pub fn read_assignment(
    alloc: Global,
    profile: Profile,
    value: &Value,
) -> Result<Assignment, ReadError>
    ensures { ReadsAs result (assignment_reading profile (view value.now)) }
{
    let tally = inspect_assignment(alloc, profile, Some(value))?;
    if let Some(rule) = tally.broken.least() {
        return Err(ReadError::Rule(rule));
    }
    let assignment = make_assignment(alloc, tally.rows)?;
    Ok(assignment)
}

/// The rule by which an assignment is refused is the least of all that it breaks, and where there is none,
/// it breaks none: a law of the definitions.
pub fn assignment_rule_is_least()
    ensures { (profile : Profile) (tree : Data) → IsLeast (rules_of (assignment_broken profile tree))
        (least_of (assignment_broken profile tree)) }
{}

/// The assignment of these rows, if there are few enough. Health results look hosts up in it, so it is indexed.
pub fn make_assignment(alloc: Global, rows: Vec<HostRow>) -> Result<Assignment, AllocError>
    ensures { IfOk result (λ assignment. assignment ≡ rows.items) }
{
    if rows.len() >= ROW_LIMIT {
        return Err(AllocError);
    }
    Assignment::indexed(alloc, Seq::from_vec(rows))
}
