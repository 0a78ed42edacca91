ghost use Rattle.std.specs.Prelude.{◌≡◌, [], codes, IfOk};
ghost use Rattle.serde_json.specs.View.{view};
ghost use Rattle.ev_script.specs.Asks.{conn_in, alpn_in, handshake_in, headers_in, request_in, ask_in};

use crate::headers::headers_of;
use crate::limits::{MAX_NUMBER, MAX_PATH_LENGTH};
use crate::members::{flag_or, number_at, number_or, text_or, texts_in};
use crate::peers::ends_in;
use ev_types::{Ask, Ip, MAX_NAME_LENGTH, Seq, Text};
use serde_json::Value;
use std::alloc::{AllocError, Global};

// A connection's number.
pub(crate) fn conn_in(tree: &Value) -> Option<u64>
    ensures { result ≡ conn_in (view tree.now) }
{
    number_at(tree, "conn", 0, MAX_NUMBER)
}

// What a connection asks for.
pub(crate) fn ask_in(alloc: Global, tree: &Value) -> Result<Option<Ask>, AllocError>
    ensures { IfOk result (λ ask. ask ≡ ask_in (view tree.now)) }
{
    let Some(conn) = conn_in(tree) else {
        return Ok(None);
    };
    let Some(ends) = ends_in(alloc, tree)? else {
        return Ok(None);
    };
    let Some(handshake) = handshake_in(alloc, tree)? else {
        return Ok(None);
    };
    let Some(request) = request_in(alloc, tree)? else {
        return Ok(None);
    };
    let Some(pick) = number_or(tree, "pick", 0, MAX_NUMBER, 0) else {
        return Ok(None);
    };
    Ok(Some(Ask {
        conn,
        ip: Ip::read(ends.address.address.as_str()),
        address: ends.address,
        source: ends.source,
        redirected_to: ends.redirected_to,
        server_name: handshake.server_name,
        tls: handshake.tls,
        alpn: handshake.alpn,
        host: request.host,
        path: request.path,
        headers: request.headers,
        pick,
    }))
}

/// What a connection says before it asks: the server that it names, whether it comes over TLS,
/// and the application protocols that it offers.
#[derive(Drop)]
pub(crate) struct Handshake {
    pub server_name: Text,
    pub tls: bool,
    pub alpn: Seq<Text>,
}

// The handshake of a connection.
fn handshake_in(alloc: Global, tree: &Value) -> Result<Option<Handshake>, AllocError>
    ensures { IfOk result (λ handshake. handshake ≡ handshake_in (view tree.now)) }
{
    let Some(server_name) = text_or(tree, "serverName", 0, MAX_NAME_LENGTH, "") else {
        return Ok(None);
    };
    let Some(tls) = flag_or(tree, "tls", false) else {
        return Ok(None);
    };
    let Some(alpn) = alpn_in(alloc, tree)? else {
        return Ok(None);
    };
    Ok(Some(Handshake {
        server_name: Text::new(alloc, server_name)?,
        tls,
        alpn,
    }))
}

// The protocols that a connection offers.
fn alpn_in(alloc: Global, tree: &Value) -> Result<Option<Seq<Text>>, AllocError>
    ensures { IfOk result (λ alpn. alpn ≡ alpn_in (view tree.now)) }
{
    match tree.get("alpn") {
        Some(alpn) => texts_in(alloc, alpn),
        None => Ok(Some(Seq::new(alloc))),
    }
}

/// The request that a connection brings: the host that it names, the path that it asks for, and its headers.
#[derive(Drop)]
pub(crate) struct HttpRequest {
    pub host: Text,
    pub path: Text,
    pub headers: Seq<(Text, Text)>,
}

// The request of a connection.
fn request_in(alloc: Global, tree: &Value) -> Result<Option<HttpRequest>, AllocError>
    ensures { IfOk result (λ request. request ≡ request_in (view tree.now)) }
{
    let Some(host) = text_or(tree, "host", 0, MAX_NAME_LENGTH, "") else {
        return Ok(None);
    };
    let Some(path) = text_or(tree, "path", 0, MAX_PATH_LENGTH, "/") else {
        return Ok(None);
    };
    let Some(headers) = headers_in(alloc, tree)? else {
        return Ok(None);
    };
    Ok(Some(HttpRequest {
        host: Text::new(alloc, host)?,
        path: Text::new(alloc, path)?,
        headers,
    }))
}

// The headers that a connection brings.
fn headers_in(alloc: Global, tree: &Value) -> Result<Option<Seq<(Text, Text)>>, AllocError>
    ensures { IfOk result (λ headers. headers ≡ headers_in (view tree.now)) }
{
    match tree.get("headers") {
        Some(headers) => headers_of(alloc, headers),
        None => Ok(Some(Seq::new(alloc))),
    }
}
