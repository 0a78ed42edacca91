ghost use Rattle.std.specs.Prelude.{◌≡◌, map, codes, IfOk};
ghost use Rattle.std.specs.List.{list_all};
ghost use Rattle.serde_json.specs.View.{view};
ghost use Rattle.ev_tree.specs.Addresses.{outer_of};
ghost use Rattle.ev_tree.specs.Forms.{tree_of, is_given, object_of};
ghost use Rattle.ev_cluster_json.specs.Assignments.{endpoint_of, groups_of};
ghost use Rattle.ev_cluster_json.specs.Clusters.{load_assignment_of};
ghost use Rattle.ev_dns.specs.Templates.{has_socket, group_has_sockets, has_sockets};

use ev_tree::member;
use serde_json::Value;
use std::alloc::{AllocError, Global};

// Whether each host that stands in a cluster has a socket address.
pub(crate) fn has_sockets(alloc: Global, body: &Value) -> Result<bool, AllocError>
    ensures { IfOk result (λ has. has ≡ has_sockets (view body.now)) }
{
    let assignment = assignment_in(alloc, body)?;
    let groups = groups_in(alloc, assignment)?;
    let have = all_have_sockets(alloc, groups)?;
    Ok(have)
}

// The hosts that stand in a cluster.
#[tactic(auto, unfolding(ev_cluster_json::specs::Clusters::load_assignment_of))]
fn assignment_in(alloc: Global, body: &Value) -> Result<Option<&Value>, AllocError>
    ensures { IfOk result (λ assignment. tree_of assignment ≡ load_assignment_of (view body.now)) }
{
    let assignment = member::object(alloc, Some(body), "load_assignment")?;
    Ok(member::inner(assignment))
}

// Their groups.
#[tactic(auto, unfolding(ev_cluster_json::specs::Assignments::groups_of))]
fn groups_in(alloc: Global, assignment: Option<&Value>) -> Result<&[Value], AllocError>
    ensures { IfOk result (λ groups. map view groups.now ≡ groups_of (tree_of assignment.entry)) }
{
    let groups = member::objects(alloc, assignment, "endpoints")?;
    Ok(member::elements(groups))
}

// Whether each host of these groups has one.
fn all_have_sockets(alloc: Global, groups: &[Value]) -> Result<bool, AllocError>
    ensures { IfOk result (λ have. have ≡ list_all group_has_sockets (map view groups.now)) }
{
    for group in groups {
        if !group_has_sockets(alloc, group)? {
            return Ok(false);
        }
    }
    Ok(true)
}

// Whether each host of a group has one.
#[tactic(auto, unfolding(ev_cluster_json::specs::Assignments::hosts_of))]
fn group_has_sockets(alloc: Global, group: &Value) -> Result<bool, AllocError>
    ensures { IfOk result (λ has. has ≡ group_has_sockets (view group.now)) }
{
    let hosts = member::objects(alloc, Some(group), "lb_endpoints")?;
    hosts_have_sockets(alloc, member::elements(hosts))
}

// Whether each of these hosts has one.
fn hosts_have_sockets(alloc: Global, hosts: &[Value]) -> Result<bool, AllocError>
    ensures { IfOk result (λ have. have ≡ list_all has_socket (map view hosts.now)) }
{
    for host in hosts {
        if !has_socket(alloc, host)? {
            return Ok(false);
        }
    }
    Ok(true)
}

// Whether a host has one.
fn has_socket(alloc: Global, host: &Value) -> Result<bool, AllocError>
    ensures { IfOk result (λ has. has ≡ has_socket (view host.now)) }
{
    let endpoint = endpoint_in(alloc, host)?;
    let address = address_in(alloc, endpoint)?;
    let has = is_of_socket(alloc, address)?;
    Ok(has)
}

// The endpoint of a host.
#[tactic(auto, unfolding(ev_cluster_json::specs::Assignments::endpoint_of))]
fn endpoint_in(alloc: Global, host: &Value) -> Result<Option<&Value>, AllocError>
    ensures { IfOk result (λ endpoint. tree_of endpoint ≡ endpoint_of (view host.now)) }
{
    let endpoint = member::object(alloc, Some(host), "endpoint")?;
    Ok(member::inner(endpoint))
}

// The object with its address.
#[tactic(auto, unfolding(ev_tree::specs::Addresses::outer_of))]
fn address_in(alloc: Global, endpoint: Option<&Value>) -> Result<Option<&Value>, AllocError>
    ensures { IfOk result (λ address. tree_of address ≡ outer_of (tree_of endpoint.entry)) }
{
    let address = member::object(alloc, endpoint, "address")?;
    Ok(member::inner(address))
}

// Whether it has a socket address.
fn is_of_socket(alloc: Global, address: Option<&Value>) -> Result<bool, AllocError>
    ensures { IfOk result (λ has. has ≡ is_given (object_of (codes "socket_address") (tree_of address.entry))) }
{
    let socket = member::object(alloc, address, "socket_address")?;
    Ok(socket.is_given())
}
