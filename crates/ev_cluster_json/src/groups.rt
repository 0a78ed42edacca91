ghost use Rattle.std.specs.Prelude.{◌≡◌, ◌++◌, ◌-◌, ◌^◌, map, min, option_to_list, IfOk, OnOk};
ghost use Rattle.std.specs.List.{sum_by};
ghost use Rattle.serde_json.specs.View.{view};
ghost use Rattle.ev_tree.specs.Forms.{tree_of};
ghost use Rattle.ev_cluster_json.specs.Assignments.{weight_of, host_broken, group_broken, assignment_broken};
ghost use Rattle.ev_cluster_json.specs.Made.{host_rows, rank_of, made_group, made_rows};
ghost use Rattle.ev_cluster_json.specs.Tallies.{GainsOne, GainsAll};

use crate::hosts::{HostParts, inspect_host};
use crate::tally::Tally;
use ev_tree::{BrokenRules, member};
use ev_types::{HostRow, MAX_WEIGHT_SUM, Profile};
use serde_json::Value;
use std::alloc::{AllocError, Global};

/// The greatest priority.
pub const MAX_PRIORITY: u32 = 128;

/// Adds a host to the tally, and gives its weight.
pub fn add_host(
    tally: &mut Tally,
    alloc: Global,
    profile: Profile,
    host: &Value,
    rank: u8,
) -> Result<u32, AllocError>
    ensures weight { IfOk result (λ weight. weight ≡ weight_of (view host.now)) }
    ensures gains { OnOk result (GainsOne (host_broken profile) (host_rows profile rank) tally.old tally.new
        (view host.now)) }
{
    let HostParts {
        row,
        weight,
        broken,
    } = inspect_host(alloc, profile, host, rank)?;
    push_row(&mut tally.rows, row)?;
    tally.broken = tally.broken.or(broken);
    Ok(weight)
}

// Appends a row, if there is one.
fn push_row(rows: &mut Vec<HostRow>, row: Option<HostRow>) -> Result<(), AllocError>
    ensures { OnOk result (rows.new.items ≡ rows.old.items ++ option_to_list row) }
{
    match row {
        Some(row) => Ok(rows.push(row)?),
        None => Ok(()),
    }
}

/// Adds hosts to the tally, and gives the sum of their weights, or the greatest number where it is more.
pub fn add_hosts(
    tally: &mut Tally,
    alloc: Global,
    profile: Profile,
    hosts: &[Value],
    rank: u8,
) -> Result<u64, AllocError>
    ensures weight { IfOk result (λ sum. sum ≡ min (sum_by weight_of (map view hosts.now)) (2 ^ 64 - 1)) }
    ensures gains { OnOk result (GainsAll (host_broken profile) (host_rows profile rank) tally.old tally.new
        (map view hosts.now)) }
{
    let mut sum = 0u64;
    for host in hosts {
        let weight = add_host(tally, alloc, profile, host, rank)?;
        sum = sum.saturating_add(u64::from(weight));
    }
    Ok(sum)
}

// A priority, or 0 where it is too great.
fn clamp_priority(priority: u32) -> u8
    ensures { result ≡ rank_of priority }
{
    if priority <= MAX_PRIORITY {
        priority as u8
    } else {
        0
    }
}

/// Adds a group of hosts to the tally: an element of `endpoints`.
pub fn add_group(
    tally: &mut Tally,
    alloc: Global,
    profile: Profile,
    group: &Value,
) -> Result<(), AllocError>
    ensures { OnOk result (GainsOne (group_broken profile) (made_group profile) tally.old tally.new (view group.now)) }
{
    let priority = member::number32(alloc, Some(group), "priority")?;
    let hosts = member::objects(alloc, Some(group), "lb_endpoints")?;
    let number = priority.given_or(0);
    let sum = add_hosts(
        tally,
        alloc,
        profile,
        member::elements(hosts),
        clamp_priority(number),
    )?;
    let own = BrokenRules {
        v6: priority.is_wrong() | hosts.is_wrong(),
        v13: (number > MAX_PRIORITY) | (sum > MAX_WEIGHT_SUM),
        ..BrokenRules::none()
    };
    tally.broken = tally.broken.or(own);
    Ok(())
}

/// Adds groups of hosts to the tally.
pub fn add_groups(
    tally: &mut Tally,
    alloc: Global,
    profile: Profile,
    groups: &[Value],
) -> Result<(), AllocError>
    ensures { OnOk result (GainsAll (group_broken profile) (made_group profile) tally.old tally.new
        (map view groups.now)) }
{
    for group in groups {
        add_group(tally, alloc, profile, group)?;
    }
    Ok(())
}

/// Inspects an assignment, which may be missing.
pub fn inspect_assignment(
    alloc: Global,
    profile: Profile,
    assignment: Option<&Value>,
) -> Result<Tally, AllocError>
    ensures rows { IfOk result (λ t. t.rows.items ≡ made_rows profile (tree_of assignment.entry)) }
    ensures broken { IfOk result (λ t. t.broken ≡ assignment_broken profile (tree_of assignment.entry)) }
{
    let cluster_name = member::text(alloc, assignment, "cluster_name")?;
    let groups = member::objects(alloc, assignment, "endpoints")?;
    let mut tally = Tally {
        rows: Vec::new(alloc),
        broken: BrokenRules {
            v6: cluster_name.is_wrong() | groups.is_wrong(),
            ..BrokenRules::none()
        },
    };
    add_groups(&mut tally, alloc, profile, member::elements(groups))?;
    Ok(tally)
}
