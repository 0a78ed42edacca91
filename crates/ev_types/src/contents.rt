use crate::{
    Assignment, Cluster, Listener, Name, NameError, RouteTable, Rule, Seq, Shared, Text, TryCopy,
};
use std::alloc::{AllocError, Global};
use std::marker::Model;

/// The six types of resource, named by the services that bring them.
#[derive(Clone, Copy, Debug, Hash)]
pub enum Kind {
    /// Clusters.
    Cds,
    /// Endpoints: cluster load assignments.
    Eds,
    /// Listeners.
    Lds,
    /// Route configurations.
    Rds,
    /// Secrets.
    Sds,
    /// Extensions: configurations of filters.
    Ecds,
}

impl Kind {
    ghost use Rattle.std.specs.Prelude.{◌≡◌};
    ghost use Rattle.ev_types.specs.Kinds.{kind_same, is_by_name, type_url, kind_of_url};

    /// Whether both are the same kind.
    pub fn is(self, other: Kind) -> bool
        ensures { result ≡ kind_same self other }
    {
        match (self, other) {
            (Kind::Cds, Kind::Cds) => true,
            (Kind::Eds, Kind::Eds) => true,
            (Kind::Lds, Kind::Lds) => true,
            (Kind::Rds, Kind::Rds) => true,
            (Kind::Sds, Kind::Sds) => true,
            (Kind::Ecds, Kind::Ecds) => true,
            _ => false,
        }
    }

    /// Whether its resources are asked for by name. Clusters and listeners are asked for all at once.
    pub fn is_by_name(self) -> bool
        ensures { result ≡ is_by_name self }
    {
        match self {
            Kind::Cds | Kind::Lds => false,
            Kind::Eds | Kind::Rds | Kind::Sds | Kind::Ecds => true,
        }
    }

    /// Its type URL.
    pub fn type_url(self) -> &'static str
        ensures { result.now ≡ type_url self }
    {
        match self {
            Kind::Cds => "type.googleapis.com/envoy.config.cluster.v3.Cluster",
            Kind::Eds => "type.googleapis.com/envoy.config.endpoint.v3.ClusterLoadAssignment",
            Kind::Lds => "type.googleapis.com/envoy.config.listener.v3.Listener",
            Kind::Rds => "type.googleapis.com/envoy.config.route.v3.RouteConfiguration",
            Kind::Sds => "type.googleapis.com/envoy.extensions.transport_sockets.tls.v3.Secret",
            Kind::Ecds => "type.googleapis.com/envoy.config.core.v3.TypedExtensionConfig",
        }
    }

    /// The kind that has this type URL, or none for a type that isn't read.
    pub fn of_url(url: &str) -> Option<Kind>
        ensures { result ≡ kind_of_url url.now }
    {
        if url == Kind::Cds.type_url() {
            Some(Kind::Cds)
        } else if url == Kind::Eds.type_url() {
            Some(Kind::Eds)
        } else if url == Kind::Lds.type_url() {
            Some(Kind::Lds)
        } else if url == Kind::Rds.type_url() {
            Some(Kind::Rds)
        } else if url == Kind::Sds.type_url() {
            Some(Kind::Sds)
        } else if url == Kind::Ecds.type_url() {
            Some(Kind::Ecds)
        } else {
            None
        }
    }
}

impl PartialEq for Kind {
    ghost use Rattle.std.specs.Cmp.{decided, partial_equiv_from_equiv};
    ghost use Rattle.ev_types.specs.Kinds.{kind_same, kind_decides};

    ghost eq = { kind_same };

    ghost laws = { partial_equiv_from_equiv (decided kind_same kind_decides) };

    fn eq(&self, other: &Kind) -> bool {
        self.is(*other)
    }
}

impl Eq for Kind {
    ghost use Rattle.std.specs.Cmp.{decided};
    ghost use Rattle.ev_types.specs.Kinds.{kind_same, kind_decides};

    ghost laws = { decided kind_same kind_decides };
}

/// What a resource of one of the six types says. It is shared: a copy takes no memory.
/// A name has a secret or an extension, or hasn't: nothing in them is looked at.
#[derive(Drop)]
pub enum Content {
    Cluster(Shared<Cluster>),
    Assignment(Shared<Assignment>),
    Listener(Shared<Listener>),
    Routes(Shared<RouteTable>),
    Secret,
    Extension,
}

impl TryCopy for Content {
    fn copy(&self, alloc: Global) -> Result<Content, AllocError> {
        match self {
            Content::Cluster(cluster) => Ok(Content::Cluster(cluster.copy(alloc)?)),
            Content::Assignment(rows) => Ok(Content::Assignment(rows.copy(alloc)?)),
            Content::Listener(listener) => Ok(Content::Listener(listener.copy(alloc)?)),
            Content::Routes(table) => Ok(Content::Routes(table.copy(alloc)?)),
            Content::Secret => Ok(Content::Secret),
            Content::Extension => Ok(Content::Extension),
        }
    }
}

impl PartialEq for Content {
    ghost use Rattle.std.specs.Cmp.{decided, partial_equiv_from_equiv};
    ghost use Rattle.ev_types.specs.SameContents.{content_same, content_decides};

    ghost eq = { content_same };

    ghost laws = { partial_equiv_from_equiv (decided content_same content_decides) };

    fn eq(&self, other: &Content) -> bool {
        match (self, other) {
            (Content::Cluster(cluster), Content::Cluster(other)) => cluster == other,
            (Content::Assignment(rows), Content::Assignment(other)) => rows == other,
            (Content::Listener(listener), Content::Listener(other)) => listener == other,
            (Content::Routes(table), Content::Routes(other)) => table == other,
            (Content::Secret, Content::Secret) => true,
            (Content::Extension, Content::Extension) => true,
            _ => false,
        }
    }
}

impl Eq for Content {
    ghost use Rattle.std.specs.Cmp.{decided};
    ghost use Rattle.ev_types.specs.SameContents.{content_same, content_decides};

    ghost laws = { decided content_same content_decides };
}

/// The body of a resource: its content, or the lowest-numbered rule that it breaks, or a heartbeat: no body at all,
/// beside a time to live that is given anew.
#[derive(Drop)]
pub enum Body {
    /// What the resource says.
    Good(Content),
    /// The lowest-numbered rule that the resource breaks.
    Bad(Rule),
    /// No body: the time to live of what is held is given anew.
    Beat,
}

/// A resource of a response, with its outer name and its version as they were received.
/// Where the body is good or a heartbeat, the name has 1 to 512 bytes;
/// a good body of a cluster or listener has it as its own.
/// A heartbeat has a time to live.
#[derive(Drop)]
pub struct Item {
    pub name: Text,
    pub version: Text,
    /// Whether a time to live is given that is positive.
    pub ttl: bool,
    pub body: Body,
}

impl Model for Item {
    ghost use Rattle.ev_types.specs.Items.{ItemParts, IsItem};

    ghost Value = { ItemParts };

    ghost view = { λ i. record { name = i.name; version = i.version; ttl = i.ttl; body = i.body } };

    ghost invariant = { λ i. IsItem record { name = i.name; version = i.version; ttl = i.ttl; body = i.body } };
}

impl Item {
    ghost use Rattle.std.specs.Prelude.{◌≡◌, IfOk};
    ghost use Rattle.ev_types.specs.Items.{IsNamed};

    /// The outer name of a resource whose body is good or a heartbeat, as the name that it is.
    pub fn resource_name(&self, alloc: Global) -> Result<Name, AllocError>
        requires { IsNamed self.now.body }
        ensures { IfOk result (λ name. name ≡ self.now.name) }
    {
        let _ = &self.body;
        match Name::new(alloc, self.name.as_str()) {
            Ok(name) => Ok(name),
            Err(NameError::OutOfMemory) => Err(AllocError),
            Err(NameError::Length) => unreachable!(),
        }
    }
}

/// A response of the incremental protocol. Where its type is none of the six, both lists are empty;
/// a good body has the content of its type. Its nonce has at least one byte.
#[derive(Drop)]
pub struct Response {
    /// The type, or `None` for one that isn't read.
    pub kind: Option<Kind>,
    /// The nonce, which the reply carries.
    pub nonce: Text,
    pub items: Seq<Item>,
    /// The names of removed resources.
    pub removed: Seq<Text>,
}

impl Model for Response {
    ghost use Rattle.ev_types.specs.Items.{ResponseParts, IsResponse};

    ghost Value = { ResponseParts };

    ghost view = { λ r. record { kind = r.kind; nonce = r.nonce; items = r.items; removed = r.removed } };

    ghost invariant = { λ r. IsResponse record { kind = r.kind; nonce = r.nonce; items = r.items; removed = r.removed } };
}

/// A request of the incremental protocol. A request that answers a response has its nonce,
/// and an error where it refuses.
#[derive(Drop)]
pub struct Request {
    pub kind: Kind,
    /// The node's id, in the first CDS request of a stream.
    pub node: Option<Text>,
    pub subscribe: Seq<Name>,
    pub unsubscribe: Seq<Name>,
    /// The versions that are held, by name.
    pub versions: Seq<(Name, Text)>,
    pub nonce: Option<Text>,
    /// The message of a refusal.
    pub error: Option<Text>,
}

impl TryCopy for Request {
    fn copy(&self, alloc: Global) -> Result<Request, AllocError> {
        Ok(Request {
            kind: self.kind,
            node: self.node.copy(alloc)?,
            subscribe: self.subscribe.copy(alloc)?,
            unsubscribe: self.unsubscribe.copy(alloc)?,
            versions: self.versions.copy(alloc)?,
            nonce: self.nonce.copy(alloc)?,
            error: self.error.copy(alloc)?,
        })
    }
}
