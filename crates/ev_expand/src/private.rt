ghost use Rattle.std.specs.Prelude.{◌≡◌, ◌+◌, ◌^◌, ◌<◌, length, map, option_map, Option, IfOk};
ghost use Rattle.std.specs.List.{list_any};
ghost use Rattle.ev_script.specs.Members.{tree_told};
ghost use Rattle.ev_expand.specs.Private.{is_private, discovery_uses, content_uses, body_uses, item_uses, named_uses, response_uses, event_uses, line_uses, first_use};

use crate::fronts::read_event;
use ev_script::LineTree;
use ev_types::{Body, Content, Discovery, Event, Item, Kind, Profile, Response, Text};
use std::alloc::{AllocError, Global};

// The number of the first line that uses a private name; the lines are those from the second on.
pub(crate) fn first_use(
    alloc: Global,
    profile: Profile,
    prefix: &str,
    lines: &[LineTree],
) -> Result<Option<u32>, AllocError>
    requires { length lines.now + 2 < 2 ^ 32 }
    ensures { IfOk result (λ line. line ≡ first_use profile prefix.now (map tree_told lines.now)) }
{
    for (index, line) in lines.iter().enumerate() {
        if line_uses(alloc, profile, prefix, line)? {
            return Ok(Some(index as u32 + 2));
        }
    }
    Ok(None)
}

// Whether a line uses one.
fn line_uses(
    alloc: Global,
    profile: Profile,
    prefix: &str,
    line: &LineTree,
) -> Result<bool, AllocError>
    ensures { IfOk result (λ uses. uses ≡ line_uses profile prefix.now (tree_told line.now)) }
{
    let tree = line.read(alloc)?;
    match read_event(alloc, profile, &tree)? {
        Some(event) => Ok(event_uses(prefix, &event)),
        None => Ok(false),
    }
}

// Whether an event uses one: as a response, and as the fetch timeout or the end of the time to live of endpoints.
fn event_uses(prefix: &str, event: &Event) -> bool
    ensures { result ≡ event_uses prefix.now event.now }
{
    match event {
        Event::Response(response) => response_uses(prefix, response.get()),
        Event::FetchTimeout(timeout) => match &timeout.name {
            Some(name) => named_uses(prefix, timeout.kind, name.as_str()),
            None => false,
        },
        Event::TtlExpired { kind, name } => named_uses(prefix, *kind, name.as_str()),
        _ => false,
    }
}

// Whether a response uses one, at a resource or as a removed name.
fn response_uses(prefix: &str, response: &Response) -> bool
    ensures { result ≡ response_uses prefix.now response.now.kind response.now }
{
    let Some(kind) = response.kind else {
        return false;
    };
    any_item_uses(prefix, kind, response.items.as_slice())
        || any_named_uses(prefix, kind, response.removed.as_slice())
}

// Whether one of these resources of this kind does.
fn any_item_uses(prefix: &str, kind: Kind, items: &[Item]) -> bool
    ensures { result ≡ list_any (item_uses prefix.now kind) items.now }
{
    items.iter().any(|item| item_uses(prefix, kind, item))
}

// Whether one of these names of this kind is private.
fn any_named_uses(prefix: &str, kind: Kind, names: &[Text]) -> bool
    ensures { result ≡ list_any (named_uses prefix.now kind) names.now }
{
    names
        .iter()
        .any(|name| named_uses(prefix, kind, name.as_str()))
}

// Whether a resource of this kind uses one.
fn item_uses(prefix: &str, kind: Kind, item: &Item) -> bool
    ensures { result ≡ item_uses prefix.now kind item.now }
{
    match kind {
        Kind::Cds => body_uses(prefix, &item.body),
        Kind::Eds => is_private(prefix, item.name.as_str()),
        Kind::Lds | Kind::Rds | Kind::Sds | Kind::Ecds => false,
    }
}

// Whether a name of this kind is private.
fn named_uses(prefix: &str, kind: Kind, name: &str) -> bool
    ensures { result ≡ named_uses prefix.now kind name.now }
{
    kind.is(Kind::Eds) && is_private(prefix, name)
}

// Whether a body's endpoints are asked for by a private name.
fn body_uses(prefix: &str, body: &Body) -> bool
    ensures { result ≡ body_uses prefix.now body.now }
{
    match body {
        Body::Good(content) => content_uses(prefix, content),
        Body::Bad(_) => false,
        Body::Beat => false,
    }
}

fn content_uses(prefix: &str, content: &Content) -> bool
    ensures { result ≡ content_uses prefix.now content.now }
{
    match content {
        Content::Cluster(cluster) => discovery_uses(prefix, &cluster.get().discovery),
        Content::Assignment(_) => false,
        Content::Listener(_) => false,
        Content::Routes(_) => false,
        Content::Secret | Content::Extension => false,
    }
}

fn discovery_uses(prefix: &str, discovery: &Discovery) -> bool
    ensures { result ≡ discovery_uses prefix.now discovery.now }
{
    match discovery {
        Discovery::Static(_) => false,
        Discovery::Eds { service, .. } => is_private(prefix, service.as_str()),
        Discovery::Elsewhere => false,
    }
}

// Whether a name begins with the prefix of private names.
fn is_private(prefix: &str, name: &str) -> bool
    ensures { result ≡ is_private prefix.now name.now }
{
    name.as_bytes().starts_with(prefix.as_bytes())
}
