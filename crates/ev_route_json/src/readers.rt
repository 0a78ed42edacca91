ghost use Rattle.serde_json.specs.Data.{Data};
ghost use Rattle.serde_json.specs.View.{view};
ghost use Rattle.ev_types.specs.declared.events.Profile.{Profile};
ghost use Rattle.ev_tree.specs.Rules.{ReadsAs, IsLeast};
ghost use Rattle.ev_tree.specs.Broken.{rules_of, least_of};
ghost use Rattle.ev_route_json.specs.Targets.{target_reading, target_broken_in};
ghost use Rattle.ev_route_json.specs.Tables.{table_reading, table_broken};

use crate::tables::inspect_table;
use crate::targets::inspect_target;
use ev_tree::ReadError;
use ev_types::{Profile, RouteTable, Target};
use serde_json::Value;
use std::alloc::Global;

/// The routes of a route configuration (`envoy.config.route.v3.RouteConfiguration`). Its own name isn't
/// judged, but by its form.
///
/// # Errors
/// `Rule` with the lowest-numbered rule that it breaks, of V6 and V19 to V24, and `OutOfMemory`.
pub fn read_routes(alloc: Global, profile: Profile, value: &Value) -> Result<RouteTable, ReadError>
    ensures { ReadsAs result (table_reading profile (view value.now)) }
{
    let found = inspect_table(alloc, profile, Some(value))?;
    match found.broken.least() {
        Some(rule) => Err(ReadError::Rule(rule)),
        None => Ok(found.value),
    }
}

/// Where a route action sends requests to.
///
/// # Errors
/// `Rule` with the lowest-numbered rule that it breaks, of V6 and V22 to V24, and `OutOfMemory`.
pub fn read_target(alloc: Global, profile: Profile, value: &Value) -> Result<Target, ReadError>
    ensures { ReadsAs result (target_reading profile (view value.now)) }
{
    let found = inspect_target(alloc, profile, Some(value))?;
    match found.broken.least() {
        Some(rule) => Err(ReadError::Rule(rule)),
        None => Ok(found.value),
    }
}

/// The rule by which a route configuration is refused is the least of all that it breaks, and where there is
/// none, it breaks none: a law of the definitions.
pub fn table_rule_is_least()
    ensures { (profile : Profile) (tree : Data)
        → IsLeast (rules_of (table_broken profile tree)) (least_of (table_broken profile tree)) }
{}

/// The same of a target.
pub fn target_rule_is_least()
    ensures { (profile : Profile) (tree : Data)
        → IsLeast (rules_of (target_broken_in profile tree)) (least_of (target_broken_in profile tree)) }
{}
