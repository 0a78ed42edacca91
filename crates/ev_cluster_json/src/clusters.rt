ghost use Rattle.std.specs.Prelude.{◌≡◌, IfOk};
ghost use Rattle.serde_json.specs.Data.{Data};
ghost use Rattle.serde_json.specs.View.{view};
ghost use Rattle.ev_tree.specs.Rules.{ReadsAs, IsLeast};
ghost use Rattle.ev_tree.specs.Broken.{rules_of, least_of};
ghost use Rattle.ev_types.specs.declared.events.Profile.{Profile};
ghost use Rattle.ev_cluster_json.specs.Clusters.{cluster_reading, cluster_broken, service_with};
ghost use Rattle.ev_cluster_json.specs.Made.{discovery_with, cluster_with};

use crate::assignments::make_assignment;
use crate::hosts::make_name;
use crate::parts::{inspect_eds, inspect_hosts, inspect_own, is_by_eds, is_in_cluster};
use crate::sockets::{ClusterSecrets, inspect_secrets};
use ev_tree::{ReadError, body_text};
use ev_types::{Cluster, Discovery, HostRow, Profile, Shared, Text};
use serde_json::Value;
use std::alloc::{AllocError, Global};

/// Reads a cluster (`envoy.config.cluster.v3.Cluster`):
/// its name, how it finds its hosts, whether they are health checked, and, as Envoy reads it,
/// the secrets that its transport sockets refer to. All other fields are passed over;
/// as Envoy reads it, the text of the whole body is kept.
///
/// # Errors
/// `Rule` has the least form rule of the profile that it breaks: V2 and V3 as far as they show in the cluster alone,
/// and V6 to V13. `OutOfMemory` comes without memory, and for 2^32 - 1 hosts or more.
pub fn read_cluster(alloc: Global, profile: Profile, value: &Value) -> Result<Cluster, ReadError>
    ensures { ReadsAs result (cluster_reading profile (view value.now)) }
{
    let own = inspect_own(alloc, profile, value)?;
    let by_eds = is_by_eds(profile, own.custom, own.kind);
    let in_cluster = is_in_cluster(profile, own.custom, own.kind);
    let eds = inspect_eds(alloc, profile, value, by_eds)?;
    let hosts = inspect_hosts(alloc, profile, value, in_cluster)?;
    let secrets = inspect_secrets(alloc, profile, value)?;
    let broken = own
        .broken
        .or(eds.broken.or(hosts.broken.or(secrets.broken)));
    if let Some(rule) = broken.least() {
        return Err(ReadError::Rule(rule));
    }
    let service = choose_service(own.name, eds.service_name);
    let way = Way {
        in_cluster,
        by_eds,
        limited: eds.limited,
        fresh: profile.is_envoy(),
    };
    let discovery = make_discovery(alloc, way, hosts.rows, service)?;
    let text = body_text(alloc, profile, value)?;
    let cluster = make_cluster(alloc, own.name, discovery, own.checked, secrets, text)?;
    Ok(cluster.unwrap())
}

/// The rule by which a cluster is refused is the least of all that it breaks, and where there is none, it
/// breaks none: a law of the definitions.
pub fn cluster_rule_is_least()
    ensures { (profile : Profile) (tree : Data) → IsLeast (rules_of (cluster_broken profile tree))
        (least_of (cluster_broken profile tree)) }
{}

// The name that a cluster's hosts are asked for by.
fn choose_service<'a>(name: &'a str, service_name: &'a str) -> &'a str
    ensures { result.now ≡ service_with name.now service_name.now }
{
    if service_name.is_empty() {
        name
    } else {
        service_name
    }
}

// How a cluster finds its hosts, by its type and its configuration of EDS.
#[derive(Clone, Copy)]
struct Way {
    in_cluster: bool,
    by_eds: bool,
    limited: bool,
    fresh: bool,
}

// How a cluster finds its hosts, if the service's name is a name.
fn make_discovery(
    alloc: Global,
    way: Way,
    rows: Vec<HostRow>,
    service: &str,
) -> Result<Option<Discovery>, AllocError>
    ensures { IfOk result (λ d. d ≡ discovery_with way.in_cluster way.by_eds rows.items service.now way.limited
        way.fresh) }
{
    if way.in_cluster {
        let rows = make_assignment(alloc, rows)?;
        return Ok(Some(Discovery::Static(Shared::new(alloc, rows)?)));
    }
    if !way.by_eds {
        return Ok(Some(Discovery::Elsewhere));
    }
    match make_name(alloc, service)? {
        Some(service) => Ok(Some(Discovery::Eds {
            service,
            limited: way.limited,
            fresh: way.fresh,
        })),
        None => Ok(None),
    }
}

// The cluster, if its name is a name.
fn make_cluster(
    alloc: Global,
    name: &str,
    discovery: Option<Discovery>,
    checked: bool,
    secrets: ClusterSecrets,
    body_text: Text,
) -> Result<Option<Cluster>, AllocError>
    ensures { IfOk result (λ c. c ≡ cluster_with name.now discovery checked secrets body_text) }
{
    match (make_name(alloc, name)?, discovery) {
        (Some(name), Some(discovery)) => Ok(Some(Cluster {
            name,
            discovery,
            checked,
            secrets: secrets.own,
            secrets_by_match: secrets.by_match,
            body_text,
        })),
        _ => Ok(None),
    }
}
