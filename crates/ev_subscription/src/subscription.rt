ghost use Rattle.std.specs.Prelude.{◌≡◌, [], false, IfOk, OnOk, OnErr};
ghost use Rattle.ev_types.specs.declared.contents.Kind.{Kind};
ghost use Rattle.ev_model.specs.Rows.{versions_left};
ghost use Rattle.ev_model.specs.Versions.{is_bounded, is_kept, renewed, versions_of, without_version};
ghost use Rattle.ev_subscription.specs.Subscriptions.{Accepts, held_of, kept_version, without_ended, without_removed, without_versions};
ghost use Rattle.ev_subscription.specs.Subscriptions.{InWorlds, StandsAfter, StandsWith, StandsWithoutEnded, with_stream, with_versions};

use crate::changes::NameChange;
use crate::keys::VersionKey;
use crate::versions::{self, Held, Versions};
use ev_lookups::Mentions;
use ev_types::{Kind, Name, Seq, Shared, Text};
use std::alloc::{AllocError, Global};
use std::collections::BTreeMap;
use std::marker::Model;

/// What a client of the incremental protocol knows of its stream: the node that it names, whether a stream is open,
/// and the versions that it holds, one for each kind and name. Each is found by a look-up, and those of a kind are
/// listed in the order of their names.
#[derive(Drop)]
pub struct Subscription {
    alloc: Global,
    node: Text,
    stream: bool,
    versions: Versions,
}

impl Model for Subscription {
    ghost use Rattle.ev_subscription.specs.Held.{versions_in};
    ghost use Rattle.ev_subscription.specs.Subscriptions.{SubscriptionParts};

    ghost Value = { SubscriptionParts };

    ghost view = { λ s. record {
      node = s.node;
      stream = s.stream;
      versions = versions_in s.versions.entries;
    } };
}

impl Subscription {
    /// No stream is open, and nothing is held. It takes no memory.
    pub fn new(alloc: Global, node: Text) -> Subscription
        ensures node { result.node ≡ node }
        ensures closed { result.stream ≡ false }
        ensures empty { (kind : Kind) → held_of result kind ≡ [] }
    {
        Subscription {
            alloc,
            node,
            stream: false,
            versions: BTreeMap::new(alloc),
        }
    }

    /// The node that the first request of a stream names.
    pub fn node(&self) -> &Text
        ensures { result.now ≡ self.now.node }
    {
        &self.node
    }

    /// Whether a stream is open.
    pub fn is_open(&self) -> bool
        ensures { result ≡ self.now.stream }
    {
        self.stream
    }

    /// A stream opens, or is lost.
    pub fn set_stream(&mut self, is_open: bool)
        ensures stands { StandsAfter (with_stream is_open) self.old self.new }
    {
        self.stream = is_open;
    }

    /// Whether this version is held of the kind and name.
    pub fn is_kept(&self, kind: Kind, name: &str, version: &str) -> bool
        ensures held { result ≡ is_kept self.now.versions kind name.now version.now }
        ensures stands { InWorlds self.now (λ world. result ≡ is_kept world.versions kind name.now version.now) }
    {
        versions::is_kept(&self.versions, kind, name, version)
    }

    /// Whether the life of the resource of this kind and name is bounded.
    pub fn is_bounded(&self, kind: Kind, name: &str) -> bool
        ensures held { result ≡ is_bounded self.now.versions kind name.now }
        ensures stands { InWorlds self.now (λ world. result ≡ is_bounded world.versions kind name.now) }
    {
        versions::is_bounded(&self.versions, kind, name)
    }

    /// Holds a version, in place of the one that was held of its kind and name, and whether its life is bounded. Out of
    /// memory, all is as before.
    pub fn accept(
        &mut self,
        kind: Kind,
        name: Name,
        version: Text,
        bounded: bool,
    ) -> Result<(), AllocError>
        ensures held { OnOk result (Accepts (kept_version kind name version bounded) self.old self.new) }
        ensures unchanged { OnErr result (self.new ≡ self.old) }
        // Whatever world it represented, it represents that world with this version.
        ensures stands { OnOk result (StandsWith (kept_version kind name version bounded) self.old self.new) }
    {
        let key = VersionKey::new(self.alloc, kind, name)?;
        let held = Held {
            version: Shared::new(self.alloc, version)?,
            bounded,
        };
        versions::hold(&mut self.versions, key, held)
    }

    /// Forgets the version of a kind and name. It takes no memory.
    pub fn forget(&mut self, kind: Kind, name: &str)
        ensures held { self.new ≡ record self.old { versions = without_version kind name.now self.old.versions } }
        // Whatever world it represented, it represents that world without this version.
        ensures stands { StandsAfter (with_versions (without_version kind name.now)) self.old self.new }
    {
        versions::forget(&mut self.versions, kind, name);
    }

    /// Bounds the life of a resource, where its version is held. It takes no memory.
    pub fn renew(&mut self, kind: Kind, name: &str)
        ensures held { self.new ≡ record self.old { versions = renewed kind name.now self.old.versions } }
        // Whatever world it represented, it represents that world where the life of this resource is bounded.
        ensures stands { StandsAfter (with_versions (renewed kind name.now)) self.old self.new }
    {
        versions::bound(&mut self.versions, kind, name);
    }

    /// Forgets the versions of the names that a response of this kind removes, by what it mentions. It takes no
    /// memory, and looks at the removed names alone.
    pub fn forget_removed(&mut self, kind: Kind, mentions: &Mentions<'_>)
        ensures { StandsAfter (with_versions (versions_left kind mentions.now)) self.old self.new }
    {
        for name in mentions.response().removed.as_slice() {
            self.forget_where_removed(kind, mentions, name.as_str());
        }
    }

    // Forgets the version of a name, where the response removes it.
    fn forget_where_removed(&mut self, kind: Kind, mentions: &Mentions<'_>, name: &str)
        ensures { StandsAfter (with_versions (without_removed kind mentions.now name.now)) self.old self.new }
    {
        if mentions.is_removed(name) {
            self.forget(kind, name);
        }
    }

    /// Forgets the versions of the names that ceased to be watched, of the kinds before listeners and of those behind
    /// them. It takes no memory, and looks at these names alone.
    pub fn forget_unwatched(&mut self, before: &Seq<NameChange>, behind: &Seq<NameChange>)
        // Whatever world it represented, where no other name that is held is one that nobody watches, it represents
        // that world without what isn't watched.
        ensures { StandsWithoutEnded before.now behind.now self.old self.new }
    {
        self.forget_ended(before.as_slice());
        self.forget_ended(behind.as_slice());
    }

    // Forgets the versions of the names of each of these kinds that ceased to be watched.
    fn forget_ended(&mut self, changes: &[NameChange])
        ensures { StandsAfter (with_versions (without_ended changes.now)) self.old self.new }
    {
        for change in changes {
            self.forget_all(change.kind, change.ended.as_slice());
        }
    }

    // Forgets the versions of these names of a kind.
    fn forget_all(&mut self, kind: Kind, names: &[Name])
        ensures { StandsAfter (with_versions (without_versions kind names.now)) self.old self.new }
    {
        for name in names {
            self.forget(kind, name.as_str());
        }
    }

    /// Each name of a kind with its version, in the order of the names. It goes over the versions of all kinds.
    pub fn versions(&self, alloc: Global, kind: Kind) -> Result<Seq<(Name, Text)>, AllocError>
        ensures list { IfOk result (λ list. list ≡ versions_of kind self.now.versions) }
        ensures stands { IfOk result (λ list. InWorlds self.now (λ world. list ≡ versions_of kind world.versions)) }
    {
        versions::list(alloc, &self.versions, kind)
    }
}
