ghost use Rattle.std.specs.Prelude.{◌≡◌, IfOk};
ghost use Rattle.ev_tree.specs.Forms.{tree_of, found_map};
ghost use Rattle.ev_secret_json.specs.TransportSockets.{named_socket, socket_in, quic_upstream_secrets, quic_downstream_secrets, config_secrets, plain_secrets, held_secrets, held_by, socket_secrets, transport_secrets};

use crate::referring::{References, join_references, no_references, wrong_form};
use crate::tls_contexts::{find_downstream_secrets, find_upstream_secrets};
use ev_tree::{Found, member};
use serde_json::Value;
use std::alloc::{AllocError, Global};

/// What a transport socket is, by the type of its configuration.
#[derive(Clone, Copy, Debug)]
pub enum SocketKind {
    /// TLS to a cluster's hosts.
    Upstream,
    /// TLS with a listener's peers.
    Downstream,
    /// QUIC to a cluster's hosts.
    QuicUpstream,
    /// QUIC with a listener's peers.
    QuicDownstream,
    /// Another one, which may hold a transport socket.
    Other,
}

// The kind that a type's name says.
fn find_socket(name: &str) -> SocketKind
    ensures { result ≡ named_socket name.now }
{
    if name == "type.googleapis.com/envoy.extensions.transport_sockets.tls.v3.UpstreamTlsContext" {
        SocketKind::Upstream
    } else if name
        == "type.googleapis.com/envoy.extensions.transport_sockets.tls.v3.DownstreamTlsContext"
    {
        SocketKind::Downstream
    } else if name
        == "type.googleapis.com/envoy.extensions.transport_sockets.quic.v3.QuicUpstreamTransport"
    {
        SocketKind::QuicUpstream
    } else if name
        == "type.googleapis.com/envoy.extensions.transport_sockets.quic.v3.QuicDownstreamTransport"
    {
        SocketKind::QuicDownstream
    } else {
        SocketKind::Other
    }
}

// The kind of a transport socket whose configuration has this type.
fn choose_socket(name: Found<&str>) -> SocketKind
    ensures { result ≡ socket_in (found_map (λ s. s.now) name.entry) }
{
    match name {
        Found::Given(name) => find_socket(name),
        Found::Absent | Found::Wrong => SocketKind::Other,
    }
}

// The secrets of a QUIC transport to a cluster's hosts.
fn find_quic_upstream(alloc: Global, config: Option<&Value>) -> Result<References, AllocError>
    ensures { IfOk result (λ found. found ≡ quic_upstream_secrets (tree_of config.entry)) }
{
    let context = member::object(alloc, config, "upstream_tls_context")?;
    let below = find_upstream_secrets(alloc, member::inner(context))?;
    join_references(below, wrong_form(alloc, context.is_wrong()))
}

// The secrets of a QUIC transport with a listener's peers.
fn find_quic_downstream(alloc: Global, config: Option<&Value>) -> Result<References, AllocError>
    ensures { IfOk result (λ found. found ≡ quic_downstream_secrets (tree_of config.entry)) }
{
    let context = member::object(alloc, config, "downstream_tls_context")?;
    let below = find_downstream_secrets(alloc, member::inner(context))?;
    join_references(below, wrong_form(alloc, context.is_wrong()))
}

// The secrets of a transport socket of this kind and configuration, not of one that it holds.
fn find_config_secrets(
    alloc: Global,
    kind: SocketKind,
    config: Option<&Value>,
) -> Result<References, AllocError>
    ensures { IfOk result (λ found. found ≡ config_secrets kind (tree_of config.entry)) }
{
    match kind {
        SocketKind::Upstream => find_upstream_secrets(alloc, config),
        SocketKind::Downstream => find_downstream_secrets(alloc, config),
        SocketKind::QuicUpstream => find_quic_upstream(alloc, config),
        SocketKind::QuicDownstream => find_quic_downstream(alloc, config),
        SocketKind::Other => Ok(no_references(alloc)),
    }
}

// The secrets of a transport socket, not of one that it holds.
fn find_plain_secrets(alloc: Global, socket: Option<&Value>) -> Result<References, AllocError>
    ensures { IfOk result (λ found. found ≡ plain_secrets (tree_of socket.entry)) }
{
    let config = member::object(alloc, socket, "typed_config")?;
    let inner = member::inner(config);
    let name = member::text(alloc, inner, "@type")?;
    let below = find_config_secrets(alloc, choose_socket(name), inner)?;
    join_references(
        below,
        wrong_form(alloc, config.is_wrong() | name.is_wrong()),
    )
}

// The secrets of the transport socket that another one holds, by its configuration.
fn find_held_secrets(alloc: Global, config: Option<&Value>) -> Result<References, AllocError>
    ensures { IfOk result (λ found. found ≡ held_secrets (tree_of config.entry)) }
{
    let socket = member::object(alloc, config, "transport_socket")?;
    let below = find_plain_secrets(alloc, member::inner(socket))?;
    join_references(below, wrong_form(alloc, socket.is_wrong()))
}

// The secrets of the transport socket that one of this kind holds: TLS and QUIC hold none.
fn find_held_by(
    alloc: Global,
    kind: SocketKind,
    config: Option<&Value>,
) -> Result<References, AllocError>
    ensures { IfOk result (λ found. found ≡ held_by kind (tree_of config.entry)) }
{
    match kind {
        SocketKind::Other => find_held_secrets(alloc, config),
        SocketKind::Upstream
        | SocketKind::Downstream
        | SocketKind::QuicUpstream
        | SocketKind::QuicDownstream => Ok(no_references(alloc)),
    }
}

// The secrets of a transport socket, and of one that it holds.
fn find_socket_secrets(alloc: Global, socket: Option<&Value>) -> Result<References, AllocError>
    ensures { IfOk result (λ found. found ≡ socket_secrets (tree_of socket.entry)) }
{
    let own = find_plain_secrets(alloc, socket)?;
    let config = member::object(alloc, socket, "typed_config")?;
    let inner = member::inner(config);
    let name = member::text(alloc, inner, "@type")?;
    let held = find_held_by(alloc, choose_socket(name), inner)?;
    join_references(own, held)
}

/// The secrets of an object's transport socket: of a cluster, of one of its matches, or of a filter chain.
pub fn find_transport_secrets(
    alloc: Global,
    object: Option<&Value>,
) -> Result<References, AllocError>
    ensures { IfOk result (λ found. found ≡ transport_secrets (tree_of object.entry)) }
{
    let socket = member::object(alloc, object, "transport_socket")?;
    let below = find_socket_secrets(alloc, member::inner(socket))?;
    join_references(below, wrong_form(alloc, socket.is_wrong()))
}
