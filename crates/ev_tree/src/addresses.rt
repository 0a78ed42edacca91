ghost use Rattle.std.specs.Prelude.{◌≡◌, IfOk};
ghost use Rattle.std.specs.String.{string_bytes};
ghost use Rattle.ev_tree.specs.Forms.{tree_of};
ghost use Rattle.ev_tree.specs.Addresses.{socket_of, address_text_of, port_of, address_broken, is_port, port_or_none, text_found, pipe_text, internal_text, text_among, port_unless, has_pipe, path_in, is_wrong_pipe, has_internal, internal_name_in, internal_id_in, is_wrong_internal, any_text_of, any_port_of, any_address_broken, text_in_profile, port_in_profile, address_broken_in};

use crate::broken::BrokenRules;
use crate::counts::exactly_one;
use crate::limits::MAX_PORT;
use crate::member;
use crate::outcome::Found;
use crate::rules::is_name;
use ev_types::Profile;
use serde_json::Value;
use std::alloc::{AllocError, Global};

/// What a look at the socket address in an object finds, as a host's `endpoint` and a listener have one.
#[derive(Clone, Copy, Debug)]
pub struct SocketAddress<'a> {
    /// The object of the socket address, if one is given.
    pub socket: Option<&'a Value>,
    /// The address, or the empty text where none is given. Where V12 isn't broken, it has 1 to 512 bytes.
    pub address: &'a str,
    /// The port, or 0 where V12 is broken.
    pub port: u16,
    /// The rules that it breaks: V6 where a field on the way to the address, or of it, has the wrong form, and V12
    /// where there is no usable address.
    pub broken: BrokenRules,
}

/// The socket address in the field `address` of an object.
pub fn socket_address(
    alloc: Global,
    holder: Option<&Value>,
) -> Result<SocketAddress<'_>, AllocError>
    ensures socket { IfOk result (λ a. tree_of a.socket ≡ socket_of (tree_of holder.entry)) }
    ensures address { IfOk result (λ a. a.address.now ≡ address_text_of (tree_of holder.entry)) }
    ensures port { IfOk result (λ a. a.port ≡ port_of (tree_of holder.entry)) }
    ensures broken { IfOk result (λ a. a.broken ≡ address_broken (tree_of holder.entry)) }
{
    let outer = member::object(alloc, holder, "address")?;
    let socket = member::object(alloc, member::inner(outer), "socket_address")?;
    let inner = member::inner(socket);
    let address = member::text(alloc, inner, "address")?;
    let port = member::number32(alloc, inner, "port_value")?;
    let text = member::text_or_empty(address);
    Ok(SocketAddress {
        socket: inner,
        address: text,
        port: port_or_none(port),
        broken: BrokenRules {
            v6: outer.is_wrong() | socket.is_wrong() | address.is_wrong() | port.is_wrong(),
            v12: !is_name(text) | !is_port(port),
            ..BrokenRules::none()
        },
    })
}

// Whether a port is given that is one.
fn is_port(port: Found<u32>) -> bool
    ensures { result ≡ is_port port }
{
    match port {
        Found::Given(number) => number <= MAX_PORT,
        Found::Absent | Found::Wrong => false,
    }
}

// The port, or 0 where none is given that is one.
fn port_or_none(port: Found<u32>) -> u16
    ensures { result ≡ port_or_none port }
{
    match port {
        Found::Given(number) if number <= MAX_PORT => number as u16,
        _ => 0,
    }
}

/// The text of an address, by the parts that are found.
#[derive(Clone, Copy, Debug)]
pub enum AddressText<'a> {
    /// Of a socket, as it stands.
    Socket(&'a str),
    /// Of a pipe: `pipe:` and its path.
    Pipe(&'a str),
    /// Of an address inside Envoy: `internal:`, the name of a listener, and an id after a slash where it isn't empty.
    Internal { name: &'a str, id: &'a str },
}

impl AddressText<'_> {
    /// The text itself, which is empty where no path or name is found.
    pub fn to_text(self, alloc: Global) -> Result<String, AllocError>
        ensures { IfOk result (λ text. string_bytes text ≡ text_found self.entry) }
    {
        match self {
            AddressText::Socket(text) => String::from_str(alloc, text),
            AddressText::Pipe(path) => pipe_text(alloc, path),
            AddressText::Internal { name, id } => internal_text(alloc, name, id),
        }
    }
}

// The text of a pipe.
fn pipe_text(alloc: Global, path: &str) -> Result<String, AllocError>
    ensures { IfOk result (λ text. string_bytes text ≡ pipe_text path.now) }
{
    if path.len() == 0 {
        return Ok(String::new(alloc));
    }
    let mut text = String::from_str(alloc, "pipe:")?;
    text.push_str(path)?;
    Ok(text)
}

// The text of an address inside Envoy.
fn internal_text(alloc: Global, name: &str, id: &str) -> Result<String, AllocError>
    ensures { IfOk result (λ text. string_bytes text ≡ internal_text name.now id.now) }
{
    if name.len() == 0 {
        return Ok(String::new(alloc));
    }
    let mut text = String::from_str(alloc, "internal:")?;
    text.push_str(name)?;
    if id.len() != 0 {
        text.push_str("/")?;
        text.push_str(id)?;
    }
    Ok(text)
}

/// What a look at the address in an object finds, of any kind that the profile takes.
#[derive(Clone, Copy, Debug)]
pub struct AnyAddress<'a> {
    /// The object of the socket address, if one is given.
    pub socket: Option<&'a Value>,
    /// Its text. Where V12 isn't broken, it has 1 to 512 bytes.
    pub text: AddressText<'a>,
    /// The port: 0 of a pipe and of an address inside Envoy, and where V12 is broken.
    pub port: u16,
    /// The rules that it breaks, of V6 and V12.
    pub broken: BrokenRules,
}

/// The address in the field `address` of an object, in a profile.
pub fn any_address(
    alloc: Global,
    profile: Profile,
    holder: Option<&Value>,
) -> Result<AnyAddress<'_>, AllocError>
    ensures socket { IfOk result (λ a. tree_of a.socket ≡ socket_of (tree_of holder.entry)) }
    ensures text { IfOk result (λ a. text_found a.text ≡ text_in_profile profile (tree_of holder.entry)) }
    ensures port { IfOk result (λ a. a.port ≡ port_in_profile profile (tree_of holder.entry)) }
    ensures broken { IfOk result (λ a. a.broken ≡ address_broken_in profile (tree_of holder.entry)) }
{
    match profile {
        Profile::Own => own_address(alloc, holder),
        Profile::Envoy => envoy_address(alloc, holder),
    }
}

// A socket address.
fn own_address(alloc: Global, holder: Option<&Value>) -> Result<AnyAddress<'_>, AllocError>
    ensures socket { IfOk result (λ a. tree_of a.socket ≡ socket_of (tree_of holder.entry)) }
    ensures text { IfOk result (λ a. text_found a.text ≡ address_text_of (tree_of holder.entry)) }
    ensures port { IfOk result (λ a. a.port ≡ port_of (tree_of holder.entry)) }
    ensures broken { IfOk result (λ a. a.broken ≡ address_broken (tree_of holder.entry)) }
{
    let found = socket_address(alloc, holder)?;
    Ok(AnyAddress {
        socket: found.socket,
        text: AddressText::Socket(found.address),
        port: found.port,
        broken: found.broken,
    })
}

// What a look at a pipe finds.
#[derive(Clone, Copy)]
struct FoundPipe<'a> {
    given: bool,
    // Its path, or the empty text.
    path: &'a str,
    // Whether a form of it is wrong.
    wrong: bool,
}

// The pipe in the object with the address.
fn find_pipe(alloc: Global, outer: Option<&Value>) -> Result<FoundPipe<'_>, AllocError>
    ensures given { IfOk result (λ p. p.given ≡ has_pipe (tree_of outer.entry)) }
    ensures path { IfOk result (λ p. p.path.now ≡ path_in (tree_of outer.entry)) }
    ensures wrong { IfOk result (λ p. p.wrong ≡ is_wrong_pipe (tree_of outer.entry)) }
{
    let pipe = member::object(alloc, outer, "pipe")?;
    let path = member::text(alloc, member::inner(pipe), "path")?;
    Ok(FoundPipe {
        given: pipe.is_given(),
        path: member::text_or_empty(path),
        wrong: pipe.is_wrong() | path.is_wrong(),
    })
}

// What a look at an address inside Envoy finds.
#[derive(Clone, Copy)]
struct FoundInternal<'a> {
    given: bool,
    // The name of its listener, or the empty text.
    name: &'a str,
    // Its id, or the empty text.
    id: &'a str,
    // Whether a form of it is wrong.
    wrong: bool,
}

// The address inside Envoy in the object with the address.
fn find_internal(alloc: Global, outer: Option<&Value>) -> Result<FoundInternal<'_>, AllocError>
    ensures given { IfOk result (λ p. p.given ≡ has_internal (tree_of outer.entry)) }
    ensures name { IfOk result (λ p. p.name.now ≡ internal_name_in (tree_of outer.entry)) }
    ensures id { IfOk result (λ p. p.id.now ≡ internal_id_in (tree_of outer.entry)) }
    ensures wrong { IfOk result (λ p. p.wrong ≡ is_wrong_internal (tree_of outer.entry)) }
{
    let internal = member::object(alloc, outer, "envoy_internal_address")?;
    let inner = member::inner(internal);
    let name = member::text(alloc, inner, "server_listener_name")?;
    let id = member::text(alloc, inner, "endpoint_id")?;
    Ok(FoundInternal {
        given: internal.is_given(),
        name: member::text_or_empty(name),
        id: member::text_or_empty(id),
        wrong: internal.is_wrong() | name.is_wrong() | id.is_wrong(),
    })
}

// The text that counts of those that are found.
fn choose_text<'a>(
    pipe: FoundPipe<'a>,
    internal: FoundInternal<'a>,
    socket: &'a str,
) -> AddressText<'a>
    ensures { text_found result
        ≡ text_among pipe.entry.given internal.entry.given pipe.entry.path.now internal.entry.name.now
        internal.entry.id.now socket.now }
{
    if pipe.given {
        return AddressText::Pipe(pipe.path);
    }
    if internal.given {
        return AddressText::Internal {
            name: internal.name,
            id: internal.id,
        };
    }
    AddressText::Socket(socket)
}

// The port, unless the address has none.
fn port_unless(no_port: bool, port: u16) -> u16
    ensures { result ≡ port_unless no_port port }
{
    if no_port { 0 } else { port }
}

// An address of any kind.
fn envoy_address(alloc: Global, holder: Option<&Value>) -> Result<AnyAddress<'_>, AllocError>
    ensures socket { IfOk result (λ a. tree_of a.socket ≡ socket_of (tree_of holder.entry)) }
    ensures text { IfOk result (λ a. text_found a.text ≡ any_text_of (tree_of holder.entry)) }
    ensures port { IfOk result (λ a. a.port ≡ any_port_of (tree_of holder.entry)) }
    ensures broken { IfOk result (λ a. a.broken ≡ any_address_broken (tree_of holder.entry)) }
{
    let found = socket_address(alloc, holder)?;
    let outer = member::object(alloc, holder, "address")?;
    let inner = member::inner(outer);
    let socket = member::object(alloc, inner, "socket_address")?;
    let port = member::number32(alloc, found.socket, "port_value")?;
    let pipe = find_pipe(alloc, inner)?;
    let internal = find_internal(alloc, inner)?;
    let text = choose_text(pipe, internal, found.address);
    let named = text.to_text(alloc)?;
    let given = [socket.is_given(), pipe.given, internal.given];
    Ok(AnyAddress {
        socket: found.socket,
        text,
        port: port_unless(pipe.given | internal.given, found.port),
        broken: BrokenRules {
            v6: found.broken.v6 | pipe.wrong | internal.wrong,
            v12: !exactly_one(&given)
                | !is_name(named.as_str())
                | (socket.is_given() & !is_port(port)),
            ..BrokenRules::none()
        },
    })
}
