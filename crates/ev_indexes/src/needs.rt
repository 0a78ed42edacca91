//! What a generation depends on. It is read off its content one after the other,
//! so that it takes no memory; what stands twice is met twice,
//! so whatever goes over them is such that once more changes nothing.

ghost use Rattle.std.specs.Prelude.{◌≡◌, ◌<◌, IsTrue, false, [], option_to_list, drop, length, slice_get, unwrap_or};
ghost use Rattle.ev_model.specs.Watching.{chain_dependencies, discovery_dependencies, listener_dependencies, referred, serve_dependencies};
ghost use Rattle.ev_indexes.specs.Needs.{SplitsChains};

use ev_types::{Cluster, Content, Discovery, FilterChain, Kind, Listener, Name, Reference, Serve};
use std::marker::Model;

/// What a generation depends on: a name of a kind, whether the wait for it ends
/// at the initial fetch timeout, and whether it has to come anew.
#[derive(Drop)]
pub struct Need<'a> {
    pub kind: Kind,
    pub name: &'a Name,
    pub limited: bool,
    pub fresh: bool,
}

impl<'a> Model for Need<'a> {
    ghost use Rattle.ev_model.specs.Watching.{Dependency};

    ghost Value = { Dependency };

    ghost view = { λ n. record { kind = n.kind; name = n.name.now; limited = n.limited; fresh = n.fresh } };
}

// What a cluster, or one chain, depends on: by how it finds its hosts or its routes,
// then by its secrets, then by its extensions.
#[derive(Drop)]
struct Part<'a> {
    found: Option<Need<'a>>,
    secrets: &'a [Reference],
    more_secrets: &'a [Reference],
    extensions: &'a [Reference],
}

impl<'a> Model for Part<'a> {
    ghost use Rattle.std.specs.Prelude.{List, ◌++◌, option_to_list};
    ghost use Rattle.ev_model.specs.Watching.{Dependency, referred};
    ghost use Rattle.ev_types.specs.declared.contents.Kind.TheVariants.{Sds, Ecds};

    ghost Value = { List Dependency };

    ghost view = { λ p. option_to_list p.found
        ++ (referred Sds p.secrets.now ++ (referred Sds p.more_secrets.now ++ referred Ecds p.extensions.now)) };
}

impl<'a> Part<'a> {
    ghost use Rattle.std.specs.Prelude.{◌≡◌, drop, slice_get};
    ghost use Rattle.ev_model.specs.Watching.{chain_dependencies, cluster_dependencies, referred};
    ghost use Rattle.ev_types.specs.declared.contents.Kind.TheVariants.{Ecds};

    // Those of a cluster.
    fn of_cluster(cluster: &'a Cluster) -> Part<'a>
        ensures { result ≡ cluster_dependencies cluster.now }
    {
        Part {
            found: of_discovery(&cluster.discovery),
            secrets: cluster.secrets.as_slice(),
            more_secrets: by_match(cluster),
            extensions: &[],
        }
    }

    // Those of a chain.
    fn of_chain(chain: &'a FilterChain) -> Part<'a>
        ensures { result ≡ chain_dependencies chain.now }
    {
        Part {
            found: of_serve(&chain.serve),
            secrets: chain.secrets.as_slice(),
            more_secrets: &[],
            extensions: chain.extensions.as_slice(),
        }
    }

    // These extensions alone.
    fn of_extensions(extensions: &'a [Reference]) -> Part<'a>
        ensures { result ≡ referred Ecds extensions.now }
    {
        Part {
            found: None,
            secrets: &[],
            more_secrets: &[],
            extensions,
        }
    }

    // Takes the first one out.
    fn next(&mut self) -> Option<Need<'a>>
        ensures first { result ≡ slice_get self.old 0 }
        ensures rest { self.new ≡ drop 1 self.old }
    {
        if let Some(need) = self.found.take() {
            return Some(need);
        }
        if let Some(need) = next_reference(Kind::Sds, &mut self.secrets) {
            return Some(need);
        }
        if let Some(need) = next_reference(Kind::Sds, &mut self.more_secrets) {
            return Some(need);
        }
        next_reference(Kind::Ecds, &mut self.extensions)
    }
}

// Takes the first of these references out.
fn next_reference<'a>(kind: Kind, references: &mut &'a [Reference]) -> Option<Need<'a>>
    ensures first { result ≡ slice_get (referred kind references.old.now) 0 }
    ensures rest { referred kind references.new.now ≡ drop 1 (referred kind references.old.now) }
{
    let (first, rest) = references.split_first()?;
    *references = rest;
    Some(Need {
        kind,
        name: &first.name,
        limited: first.limited,
        fresh: false,
    })
}

// The secrets of a cluster that are chosen by a match.
fn by_match(cluster: &Cluster) -> &[Reference]
    ensures { result.now ≡ unwrap_or cluster.now.secrets_by_match [] }
{
    match &cluster.secrets_by_match {
        Some(references) => references.as_slice(),
        None => &[],
    }
}

/// What a generation depends on, in order. Contracts see what is left of it.
#[derive(Drop)]
pub struct Needs<'a> {
    part: Part<'a>,
    chains: &'a [FilterChain],
    default: Option<&'a FilterChain>,
    extensions: &'a [Reference],
}

impl<'a> Model for Needs<'a> {
    ghost use Rattle.std.specs.Prelude.{List, ◌++◌, option_map};
    ghost use Rattle.std.specs.List.{flat_map};
    ghost use Rattle.ev_model.specs.Watching.{Dependency, chain_dependencies, referred};
    ghost use Rattle.ev_types.specs.declared.contents.Kind.TheVariants.{Ecds};
    ghost use Rattle.ev_indexes.specs.Needs.{default_needs};

    ghost Value = { List Dependency };

    ghost view = { λ n. n.part
        ++ (flat_map chain_dependencies n.chains.now
        ++ (default_needs (option_map (λ c. c.now) n.default) ++ referred Ecds n.extensions.now)) };
}

impl<'a> Needs<'a> {
    ghost use Rattle.std.specs.Prelude.{◌≡◌, drop, slice_get};
    ghost use Rattle.ev_indexes.specs.Needs.{needs_of};

    /// What a generation of this content depends on.
    pub fn of(content: &'a Content) -> Needs<'a>
        ensures { result ≡ needs_of content.now }
    {
        match content {
            Content::Cluster(cluster) => alone(Part::of_cluster(cluster.get())),
            Content::Listener(listener) => of_listener(listener.get()),
            Content::Assignment(_) | Content::Routes(_) | Content::Secret | Content::Extension =>
                alone(Part::of_extensions(&[])),
        }
    }

    /// Takes the first one out, if one is left.
    pub fn next(&mut self) -> Option<Need<'a>>
        ensures first { result ≡ slice_get self.old 0 }
        ensures rest { self.new ≡ drop 1 self.old }
    {
        if let Some(need) = self.part.next() {
            return Some(need);
        }
        if let Some(part) = next_part(&mut self.chains) {
            self.part = part;
            return self.part.next();
        }
        if let Some(chain) = self.default.take() {
            self.part = Part::of_chain(chain);
            if let Some(need) = self.part.next() {
                return Some(need);
            }
        }
        next_reference(Kind::Ecds, &mut self.extensions)
    }
}

// What a content depends on that has one part.
fn alone(part: Part<'_>) -> Needs<'_>
    ensures { result ≡ part.entry }
{
    Needs {
        part,
        chains: &[],
        default: None,
        extensions: &[],
    }
}

// What a listener depends on.
fn of_listener(listener: &Listener) -> Needs<'_>
    ensures { result ≡ listener_dependencies listener.now }
{
    Needs {
        part: Part::of_extensions(&[]),
        chains: listener.filter_chains.as_slice(),
        default: listener.default_filter_chain.as_ref(),
        extensions: listener.extensions.as_slice(),
    }
}

// Takes the chains out up to the first that depends on anything, and gives what that one depends on.
fn next_part<'a>(chains: &mut &'a [FilterChain]) -> Option<Part<'a>>
    ensures split { SplitsChains chains.old.now result chains.new.now }
{
    while let Some((chain, rest)) = chains.split_first() {
        *chains = rest;
        if has_needs(chain) {
            return Some(Part::of_chain(chain));
        }
    }
    None
}

// Whether a chain depends on anything.
fn has_needs(chain: &FilterChain) -> bool
    ensures some { IsTrue result → 0 < length (chain_dependencies chain.now) }
    ensures none { result ≡ false → chain_dependencies chain.now ≡ [] }
{
    !chain.secrets.is_empty()
        || !chain.extensions.is_empty()
        || matches!(&chain.serve, Serve::Rds { .. })
}

// What a cluster depends on by how it finds its hosts.
fn of_discovery(discovery: &Discovery) -> Option<Need<'_>>
    ensures { option_to_list result ≡ discovery_dependencies discovery.now }
{
    match discovery {
        Discovery::Eds {
            service,
            limited,
            fresh,
        } => Some(Need {
            kind: Kind::Eds,
            name: service,
            limited: *limited,
            fresh: *fresh,
        }),
        Discovery::Static(_) | Discovery::Elsewhere => None,
    }
}

// What a chain depends on by where its routes come from. Listeners share what is received for the name.
fn of_serve(serve: &Serve) -> Option<Need<'_>>
    ensures { option_to_list result ≡ serve_dependencies serve.now }
{
    match serve {
        Serve::Rds { name, limited } => Some(Need {
            kind: Kind::Rds,
            name,
            limited: *limited,
            fresh: false,
        }),
        Serve::Inline(_) | Serve::Tcp(_) | Serve::Other => None,
    }
}
