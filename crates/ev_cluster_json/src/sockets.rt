//! The secrets that a cluster's transport sockets refer to.
ghost use Rattle.std.specs.Prelude.{◌≡◌, IfOk, map, Option, Some, None, if◌then◌else◌, Bool, List};
ghost use Rattle.serde_json.specs.View.{view};
ghost use Rattle.ev_types.specs.declared.references.Reference.{Reference};
ghost use Rattle.ev_secret_json.specs.References.{each_joined};
ghost use Rattle.ev_secret_json.specs.TransportSockets.{transport_secrets};
ghost use Rattle.ev_cluster_json.specs.Sockets.{cluster_secrets, match_secrets, given_where};

use ev_secret_json::{References, find_transport_secrets, join_references, no_references};
use ev_tree::{BrokenRules, member};
use ev_types::{Profile, Reference, Seq};
use serde_json::Value;
use std::alloc::{AllocError, Global};

/// What is found of a cluster's transport sockets.
#[derive(Drop)]
pub struct ClusterSecrets {
    /// The secrets of its own transport socket.
    pub own: Seq<Reference>,
    /// Those of the transport sockets that it chooses by a host's metadata, if it has any.
    pub by_match: Option<Seq<Reference>>,
    /// The rules that they break, of V2, V6 and V10.
    pub broken: BrokenRules,
}

/// Inspects a cluster's transport sockets: by the own rules they are passed over.
pub fn inspect_secrets(
    alloc: Global,
    profile: Profile,
    cluster: &Value,
) -> Result<ClusterSecrets, AllocError>
    ensures { IfOk result (λ found. found ≡ cluster_secrets profile (view cluster.now)) }
{
    match profile {
        Profile::Own => Ok(ClusterSecrets {
            own: Seq::new(alloc),
            by_match: None,
            broken: BrokenRules::none(),
        }),
        Profile::Envoy => inspect_sockets(alloc, cluster),
    }
}

// Inspects a cluster's transport sockets.
fn inspect_sockets(alloc: Global, cluster: &Value) -> Result<ClusterSecrets, AllocError>
    ensures { IfOk result (λ found. found ≡ cluster_secrets Profile.Envoy (view cluster.now)) }
{
    let own = find_transport_secrets(alloc, Some(cluster))?;
    let matches = member::objects(alloc, Some(cluster), "transport_socket_matches")?;
    let elements = member::elements(matches);
    let found = find_match_secrets(alloc, elements)?;
    let form = BrokenRules {
        v6: matches.is_wrong(),
        ..BrokenRules::none()
    };
    Ok(ClusterSecrets {
        own: own.list,
        by_match: give_where(elements.len() != 0, found.list),
        broken: own.broken.or(found.broken.or(form)),
    })
}

// The secrets of each of these matches, in order.
fn find_match_secrets(alloc: Global, matches: &[Value]) -> Result<References, AllocError>
    ensures { IfOk result (λ found. found ≡ each_joined transport_secrets (map view matches.now)) }
{
    let mut found = no_references(alloc);
    for element in matches {
        let here = find_transport_secrets(alloc, Some(element))?;
        found = join_references(found, here)?;
    }
    Ok(found)
}

// These references where there is something that may have any.
fn give_where(some: bool, references: Seq<Reference>) -> Option<Seq<Reference>>
    ensures { result ≡ given_where some references }
{
    if some { Some(references) } else { None }
}
