ghost use Rattle.std.specs.Prelude.{◌≡◌, IfOk};
ghost use Rattle.serde_json.specs.View.{view};
ghost use Rattle.ev_script.specs.Peers.{peer_in, maybe_peer_in, peer_at, ends_in};

use crate::line_forms::host_in;
use crate::members::has_only;
use ev_types::{Host, Ip, Peer};
use serde_json::Value;
use std::alloc::{AllocError, Global};

/// The ends of a connection: where it is meant to go, who connects, and where it was delivered,
/// the last two if that is said.
#[derive(Drop)]
pub(crate) struct Ends {
    pub address: Host,
    pub source: Option<Peer>,
    pub redirected_to: Option<Peer>,
}

// The ends of a connection.
pub(crate) fn ends_in(alloc: Global, tree: &Value) -> Result<Option<Ends>, AllocError>
    ensures { IfOk result (λ ends. ends ≡ ends_in (view tree.now)) }
{
    let Some(address) = host_in(alloc, tree)? else {
        return Ok(None);
    };
    let Some(source) = peer_at(alloc, tree, "source")? else {
        return Ok(None);
    };
    let Some(redirected_to) = peer_at(alloc, tree, "redirectedTo")? else {
        return Ok(None);
    };
    Ok(Some(Ends {
        address,
        source,
        redirected_to,
    }))
}

// The end that a member is, or that there is no such member.
fn peer_at(alloc: Global, tree: &Value, name: &str) -> Result<Option<Option<Peer>>, AllocError>
    ensures { IfOk result (λ peer. peer ≡ peer_at name.now (view tree.now)) }
{
    match tree.get(name) {
        Some(value) => maybe_peer_in(alloc, value),
        None => Ok(Some(None)),
    }
}

// The end that an object is, as one that is said.
fn maybe_peer_in(alloc: Global, tree: &Value) -> Result<Option<Option<Peer>>, AllocError>
    ensures { IfOk result (λ peer. peer ≡ maybe_peer_in (view tree.now)) }
{
    match peer_in(alloc, tree)? {
        Some(peer) => Ok(Some(Some(peer))),
        None => Ok(None),
    }
}

// The end that an object is.
fn peer_in(alloc: Global, tree: &Value) -> Result<Option<Peer>, AllocError>
    ensures { IfOk result (λ peer. peer ≡ peer_in (view tree.now)) }
{
    if !has_only(tree, &["address", "port"]) {
        return Ok(None);
    }
    match host_in(alloc, tree)? {
        Some(host) => Ok(Some(Peer {
            ip: Ip::read(host.address.as_str()),
            host,
        })),
        None => Ok(None),
    }
}
