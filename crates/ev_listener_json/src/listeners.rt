ghost use Rattle.std.specs.Prelude.{◌≡◌, ◌==◌, [], IfOk, true, length, if◌then◌else◌};
ghost use Rattle.serde_json.specs.Data.{Data};
ghost use Rattle.serde_json.specs.View.{view};
ghost use Rattle.std.specs.String.{string_bytes};
ghost use Rattle.ev_types.specs.declared.events.Profile.{Profile};
ghost use Rattle.ev_tree.specs.Addresses.{address_text_of, port_of, text_found, port_unless};
ghost use Rattle.ev_tree.specs.Floats.{plain_text};
ghost use Rattle.ev_tree.specs.Rules.{ReadsAs, IsLeast, is_name};
ghost use Rattle.ev_tree.specs.Broken.{rules_of, least_of};
ghost use Rattle.ev_listener_json.specs.Frames.{in_place_text_of};
ghost use Rattle.ev_listener_json.specs.Listeners.{listener_reading, listener_broken, own_listener_broken, listener_name, serve_of, is_udp, listens_by_udp, is_every_address, listening_text, listening_port, is_unusable, envoy_self_broken, named_with};

use crate::chains::{inspect_chains, serve_or_none};
use crate::envoy_chains::{has_api, inspect_envoy_chains, plain_chain};
use crate::frames::in_place_text;
use crate::listener_filters::{find_listener_extensions, inspect_redirection};
use ev_tree::{
    AddressText, BrokenRules, EnumTable, Found, ReadError, any_address, body_text, is_name, member,
    socket_address,
};
use ev_types::{Host, Listener, Name, NameError, Profile, Seq, Serve, SocketAddress, Text};
use serde_json::Value;
use std::alloc::{AllocError, Global};

/// A listener (`envoy.config.listener.v3.Listener`) in a profile.
///
/// # Errors
/// `Rule` with the lowest-numbered rule that it breaks, of V2 (the name of what it asks for), V3 (its own
/// name, where it is no name), V6, V10, V14, V16 to V24 and, as Envoy reads it, V26 and V27, and `OutOfMemory`.
pub fn read_listener(alloc: Global, profile: Profile, value: &Value) -> Result<Listener, ReadError>
    ensures { ReadsAs result (listener_reading profile (view value.now)) }
{
    match profile {
        Profile::Own => read_own_listener(alloc, value),
        Profile::Envoy => read_envoy_listener(alloc, value),
    }
}

// A listener by the own rules: it has one chain, without a match.
fn read_own_listener(alloc: Global, value: &Value) -> Result<Listener, ReadError>
    ensures { ReadsAs result (listener_reading Profile.Own (view value.now)) }
{
    let found = inspect_listener(alloc, value)?;
    if let Some(rule) = found.broken.least() {
        return Err(ReadError::Rule(rule));
    }
    let mut chains = Vec::new(alloc);
    chains.push(plain_chain(alloc, found.serve)?)?;
    Ok(Listener {
        name: make_name(alloc, found.name)?,
        address: SocketAddress {
            host: make_host(alloc, found.address, found.port)?,
            udp: false,
        },
        takes_every_address: false,
        restores: false,
        hands_over: false,
        filter_chains: Seq::from_vec(chains),
        default_filter_chain: None,
        extensions: Seq::new(alloc),
        frame_text: empty_text(alloc),
        body_text: body_text(alloc, Profile::Own, value)?,
    })
}

// A listener as Envoy reads it.
fn read_envoy_listener(alloc: Global, value: &Value) -> Result<Listener, ReadError>
    ensures { ReadsAs result (listener_reading Profile.Envoy (view value.now)) }
{
    let own = inspect_envoy_listener(alloc, value)?;
    let redirection = inspect_redirection(alloc, value)?;
    let extensions = find_listener_extensions(alloc, value)?;
    let below = inspect_envoy_chains(alloc, value, own.udp)?;
    let broken = below
        .broken
        .or(redirection.broken.or(extensions.broken.or(own.broken)));
    if let Some(rule) = broken.least() {
        return Err(ReadError::Rule(rule));
    }
    let address = own.address.as_str();
    let texts = make_texts(alloc, value, own.name, address, own.port)?;
    let takes_every_address = is_every_address(address);
    Ok(Listener {
        name: texts.name,
        address: SocketAddress {
            host: texts.host,
            udp: own.udp,
        },
        takes_every_address,
        restores: redirection.restores,
        hands_over: redirection.hands_over,
        filter_chains: Seq::from_vec(below.chains),
        default_filter_chain: below.default,
        extensions: extensions.list,
        frame_text: texts.frame,
        body_text: texts.body,
    })
}

// The texts of a listener as Envoy reads it.
#[derive(Drop)]
struct EnvoyTexts {
    name: Name,
    host: Host,
    frame: Text,
    body: Text,
}

// Makes the texts of a listener whose name and address were found to have 1 to 512 bytes.
fn make_texts(
    alloc: Global,
    value: &Value,
    name: &str,
    address: &str,
    port: u16,
) -> Result<EnvoyTexts, AllocError>
    requires name { is_name name.now ≡ true }
    requires address { is_name address.now ≡ true }
    ensures name { IfOk result (λ texts. texts.name ≡ name.now) }
    ensures host { IfOk result (λ texts. texts.host ≡ record { address = address.now; port = port }) }
    ensures frame { IfOk result (λ texts. texts.frame ≡ in_place_text_of (view value.now)) }
    ensures body { IfOk result (λ texts. texts.body ≡ plain_text (view value.now)) }
{
    Ok(EnvoyTexts {
        name: make_name(alloc, name)?,
        host: make_host(alloc, address, port)?,
        frame: in_place_text(alloc, value)?,
        body: body_text(alloc, Profile::Envoy, value)?,
    })
}

// A text without a byte.
fn empty_text(alloc: Global) -> Text
    ensures { result ≡ [] }
{
    Text::from_string(String::new(alloc))
}

// What is found of a listener itself, as Envoy reads it. The values count where no rule is broken.
#[derive(Drop)]
struct EnvoyParts<'a> {
    broken: BrokenRules,
    name: &'a str,
    address: String,
    port: u16,
    udp: bool,
}

// Inspects a listener itself, as Envoy reads it: its name and its address,
// its members about redirected connections left aside.
fn inspect_envoy_listener(alloc: Global, value: &Value) -> Result<EnvoyParts<'_>, AllocError>
    ensures name { IfOk result (λ found. found.name.now ≡ listener_name (view value.now)) }
    ensures address { IfOk result (λ found. string_bytes found.address ≡ listening_text (view value.now)) }
    ensures port { IfOk result (λ found. found.port ≡ listening_port (view value.now)) }
    ensures udp { IfOk result (λ found. found.udp ≡ listens_by_udp (view value.now)) }
    ensures broken { IfOk result (λ found. found.broken ≡ envoy_self_broken (view value.now)) }
{
    let name = member::text(alloc, Some(value), "name")?;
    let text = member::text_or_empty(name);
    let outer = member::object(alloc, Some(value), "address")?;
    let internal = member::object(alloc, Some(value), "internal_listener")?;
    let address = any_address(alloc, Profile::Envoy, Some(value))?;
    let protocol = member::enumeration(alloc, address.socket, "protocol", EnumTable::Protocol)?;
    let by_name = outer.is_absent();
    let naming = Naming {
        name: text,
        api: has_api(alloc, value)?,
        internal: internal.is_given(),
    };
    let listening = listening_text(alloc, by_name, naming, address.text)?;
    let bad = is_unusable(by_name, listening.as_str(), address.broken.v12);
    let broken = BrokenRules {
        v3: !name.is_wrong() & !is_name(text),
        v6: name.is_wrong() | address.broken.v6 | protocol.is_wrong() | internal.is_wrong(),
        v14: bad,
        ..BrokenRules::none()
    };
    Ok(EnvoyParts {
        broken,
        name: text,
        address: listening,
        port: port_unless(by_name, address.port),
        udp: is_udp(protocol),
    })
}

// The parts of an address by a listener's own name.
#[derive(Clone, Copy)]
struct Naming<'a> {
    name: &'a str,
    api: bool,
    internal: bool,
}

// The text of the address: by the listener's name, or as it is given.
fn listening_text(
    alloc: Global,
    by_name: bool,
    naming: Naming<'_>,
    given: AddressText<'_>,
) -> Result<String, AllocError>
    ensures { IfOk result (λ text. string_bytes text
        ≡ (if by_name then named_with naming.entry.api naming.entry.internal naming.entry.name.now
        else text_found given.entry)) }
{
    if by_name {
        named_address(alloc, naming.name, naming.api, naming.internal)
    } else {
        given.to_text(alloc)
    }
}

// Whether an address is unusable: by its text, where it is made of the name, else by its own rules.
fn is_unusable(by_name: bool, text: &str, broken: bool) -> bool
    ensures { result ≡ is_unusable by_name text.now broken }
{
    if by_name { !is_name(text) } else { broken }
}

// The port, unless the address has none.
fn port_unless(no_port: bool, port: u16) -> u16
    ensures { result ≡ port_unless no_port port }
{
    if no_port { 0 } else { port }
}

// The text of an address by a listener's own name: of an API listener, of one inside Envoy, or none.
fn named_address(alloc: Global, name: &str, api: bool, internal: bool) -> Result<String, AllocError>
    ensures { IfOk result (λ text. string_bytes text ≡ named_with api internal name.now) }
{
    if !api && !internal {
        return Ok(String::new(alloc));
    }
    let mut text = String::from_str(alloc, if api { "api:" } else { "internal:" })?;
    text.push_str(name)?;
    Ok(text)
}

// Whether the text of an address represents every address.
fn is_every_address(text: &str) -> bool
    ensures { result ≡ is_every_address text.now }
{
    text == "0.0.0.0" || text == "::"
}

/// The rule by which a listener is refused is the least of all that it breaks, and where there is none, it
/// breaks none: a law of the definitions.
pub fn listener_rule_is_least()
    ensures { (profile : Profile) (tree : Data)
        → IsLeast (rules_of (listener_broken profile tree)) (least_of (listener_broken profile tree)) }
{}

/// What is found of a listener by the own rules. The values count where no rule is broken.
#[derive(Drop)]
struct ListenerParts<'a> {
    broken: BrokenRules,
    name: &'a str,
    address: &'a str,
    port: u16,
    serve: Serve,
}

// Inspects a listener by the own rules.
fn inspect_listener(alloc: Global, value: &Value) -> Result<ListenerParts<'_>, AllocError>
    ensures broken { IfOk result (λ found. found.broken ≡ own_listener_broken (view value.now)) }
    ensures name { IfOk result (λ found. found.name.now ≡ listener_name (view value.now)) }
    ensures address { IfOk result (λ found. found.address.now ≡ address_text_of (view value.now)) }
    ensures port { IfOk result (λ found. found.port ≡ port_of (view value.now)) }
    ensures serve { IfOk result (λ found. found.serve ≡ serve_of (view value.now)) }
{
    let name = member::text(alloc, Some(value), "name")?;
    let address = socket_address(alloc, Some(value))?;
    let protocol = member::enumeration(alloc, address.socket, "protocol", EnumTable::Protocol)?;
    let chains = member::objects(alloc, Some(value), "filter_chains")?;
    let default_chain = member::object(alloc, Some(value), "default_filter_chain")?;
    let elements = member::elements(chains);
    let below = inspect_chains(alloc, elements)?;
    let text = member::text_or_empty(name);
    let own = BrokenRules {
        v3: !name.is_wrong() & !is_name(text),
        v6: name.is_wrong()
            | address.broken.v6
            | protocol.is_wrong()
            | chains.is_wrong()
            | default_chain.is_wrong(),
        v14: address.broken.v12 | is_udp(protocol),
        v16: !is_one(elements) | default_chain.is_given(),
        ..BrokenRules::none()
    };
    Ok(ListenerParts {
        broken: below.broken.or(own),
        name: text,
        address: address.address,
        port: address.port,
        serve: serve_or_none(alloc, below.value)?,
    })
}

// Whether there is exactly one chain.
fn is_one(elements: &[Value]) -> bool
    ensures { result ≡ (length elements.now == 1) }
{
    elements.len() == 1
}

// Whether UDP is given.
fn is_udp(protocol: Found<u32>) -> bool
    ensures { result ≡ is_udp protocol }
{
    matches!(protocol, Found::Given(1))
}

// The host at an address that was found to have 1 to 512 bytes.
fn make_host(alloc: Global, address: &str, port: u16) -> Result<Host, AllocError>
    requires { is_name address.now ≡ true }
    ensures { IfOk result (λ host. host ≡ record { address = address.now; port = port }) }
{
    Ok(Host {
        address: make_name(alloc, address)?,
        port,
    })
}

// The name that a text is which was found to have 1 to 512 bytes.
fn make_name(alloc: Global, text: &str) -> Result<Name, AllocError>
    requires { is_name text.now ≡ true }
    ensures { IfOk result (λ name. name ≡ text.now) }
{
    match Name::new(alloc, text) {
        Ok(name) => Ok(name),
        Err(NameError::Length) => unreachable!(),
        Err(NameError::OutOfMemory) => Err(AllocError),
    }
}
