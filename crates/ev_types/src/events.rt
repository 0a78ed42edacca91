use crate::{
    ChainPlace, FetchTimeout, Gen, Host, Ip, Kind, Name, Request, Response, Rule, Seq, Shared,
    Text, TryCopy, Way,
};
use std::alloc::{AllocError, Global};
use std::marker::Model;

/// Who makes a commit.
#[derive(Clone, Copy, Debug, PartialEq, Eq)]
pub enum Actor {
    /// The configuration stream.
    Stream,
    /// The health checker.
    Health,
    /// The timers.
    Timer,
    /// The main thread.
    Main,
    /// A worker thread, by its number from 0.
    Worker(u32),
}

/// One end of a connection.
#[derive(Drop)]
pub struct Peer {
    /// Its address and port.
    pub host: Host,
    /// The IP address that the address writes, if it writes one.
    pub ip: Option<Ip>,
}

/// What a connection asks for, when a worker accepts it.
#[derive(Drop)]
pub struct Ask {
    /// The connection's number, by which its worker closes it.
    pub conn: u64,
    /// The address and port that it is meant for.
    pub address: Host,
    /// The IP address that the address writes, if it writes one.
    pub ip: Option<Ip>,
    /// Who connects, if that is said.
    pub source: Option<Peer>,
    /// Where it was delivered, as by iptables, if not where it is meant to go.
    pub redirected_to: Option<Peer>,
    /// The server that it names in the TLS handshake, or nothing.
    pub server_name: Text,
    /// Whether it comes over TLS.
    pub tls: bool,
    /// The application protocols that it offers, the one that it likes best first.
    pub alpn: Seq<Text>,
    /// The host that it names, with the port where it names one.
    pub host: Text,
    /// The path that it asks for, with its query.
    pub path: Text,
    /// The headers that it brings beside these two, sorted by name, each name once, its ASCII letters in lower case.
    pub headers: Seq<(Text, Text)>,
    /// The number by which clusters and hosts are picked in proportion to their weights.
    pub pick: u64,
}

/// What happens to the managers. A response and what a connection asks for are shared,
/// so that an event is small and a copy of it takes no memory for them.
#[derive(Drop)]
pub enum Event {
    /// A stream to the control plane opens.
    Connect,
    /// The stream is lost.
    Disconnect,
    /// A response comes on the stream.
    Response(Shared<Response>),
    /// A health check of a cluster's host ended.
    Health {
        cluster: Name,
        host: Host,
        healthy: bool,
    },
    /// An initial fetch timeout has passed.
    FetchTimeout(FetchTimeout),
    /// The drain timeout of a listener's old generations has passed.
    DrainTimeout(Name),
    /// The time to live of a resource has ended.
    TtlExpired {
        kind: Kind,
        name: Name,
    },
    /// A new picture is published for the workers, where it changed.
    Publish,
    /// Generations that nothing holds any more are destroyed.
    Reap,
    /// A worker accepts a connection.
    Accept(Shared<Ask>),
    /// A worker closes the connection of this number.
    Close(u64),
    /// A worker takes over the last picture.
    Settle,
}

impl Event {
    ghost use Rattle.std.specs.Prelude.{◌≡◌};
    ghost use Rattle.ev_types.specs.Events.{op_of};

    /// The word of the event.
    pub fn op(&self) -> Op
        ensures { result ≡ op_of self.now }
    {
        match self {
            Event::Connect => Op::Connect,
            Event::Disconnect => Op::Disconnect,
            Event::Response(_) => Op::Response,
            Event::Health { .. } => Op::Health,
            Event::FetchTimeout(_) => Op::FetchTimeout,
            Event::DrainTimeout(_) => Op::DrainTimeout,
            Event::TtlExpired { .. } => Op::TtlExpired,
            Event::Publish => Op::Publish,
            Event::Reap => Op::Reap,
            Event::Accept(_) => Op::Accept,
            Event::Close(_) => Op::Close,
            Event::Settle => Op::Settle,
        }
    }
}

impl TryCopy for Event {
    fn copy(&self, alloc: Global) -> Result<Event, AllocError> {
        match self {
            Event::Connect => Ok(Event::Connect),
            Event::Disconnect => Ok(Event::Disconnect),
            Event::Response(response) => Ok(Event::Response(response.copy(alloc)?)),
            Event::Health {
                cluster,
                host,
                healthy,
            } => Ok(Event::Health {
                cluster: cluster.copy(alloc)?,
                host: host.copy(alloc)?,
                healthy: *healthy,
            }),
            Event::FetchTimeout(timeout) => Ok(Event::FetchTimeout(timeout.copy(alloc)?)),
            Event::DrainTimeout(listener) => Ok(Event::DrainTimeout(listener.copy(alloc)?)),
            Event::TtlExpired { kind, name } => Ok(Event::TtlExpired {
                kind: *kind,
                name: name.copy(alloc)?,
            }),
            Event::Publish => Ok(Event::Publish),
            Event::Reap => Ok(Event::Reap),
            Event::Accept(ask) => Ok(Event::Accept(ask.copy(alloc)?)),
            Event::Close(conn) => Ok(Event::Close(*conn)),
            Event::Settle => Ok(Event::Settle),
        }
    }
}

/// The word of an event, as it is in a journal's line.
#[derive(Clone, Copy, Debug, PartialEq, Eq)]
pub enum Op {
    Connect,
    Disconnect,
    Response,
    Health,
    FetchTimeout,
    DrainTimeout,
    TtlExpired,
    Publish,
    Reap,
    Accept,
    Close,
    Settle,
}

/// What is said of one resource of a response.
#[derive(Clone, Copy, Debug, PartialEq, Eq)]
pub enum Verdict {
    /// A new generation is made.
    New,
    /// Its content is that of the newest generation.
    Same,
    /// A new generation is made that keeps chains of the one that serves.
    InPlace,
    /// The generation that warms is dropped: the one that serves is what is asked for.
    Back,
    /// Its value is kept for the name that is watched.
    Kept,
    /// No one asked for it.
    Unasked,
    /// Its life is bounded anew: a heartbeat of the version that is kept.
    Renewed,
    /// It breaks this rule.
    Refused(Rule),
}

impl TryCopy for Verdict {
    fn copy(&self, _alloc: Global) -> Result<Verdict, AllocError> {
        Ok(*self)
    }
}

/// What an event is answered with.
#[derive(Drop)]
pub enum Answer {
    /// Nothing is done.
    Ignored,
    /// It is done, and nothing is to be reported.
    Done,
    /// These requests are sent.
    Moved {
        requests: Seq<Request>,
    },
    /// These requests are sent, the reply first, and this is said of each resource, in order.
    Replied {
        requests: Seq<Request>,
        verdicts: Seq<Verdict>,
    },
    /// A picture is published under this version.
    Version(u64),
    /// The picture is the last one, and none is published.
    Unchanged,
    /// These generations are destroyed.
    Reaped(Seq<Gen>),
    /// The worker has a connection of this number open.
    InUse,
    /// No listener has the address.
    NoListener,
    /// No filter chain of the listener takes it.
    NoChain,
    /// A listener takes it: which of its chains where one was found, and what becomes of it.
    On {
        listener: Gen,
        chain: Option<ChainPlace>,
        way: Way<Host>,
    },
    /// The worker has no connection of this number open.
    NotOpen,
    /// The worker holds this version, these connections were closed,
    /// and these moved to a listener that keeps their chain.
    Settled {
        closed: Seq<u64>,
        moved: Seq<u64>,
        version: u64,
    },
}

impl TryCopy for Answer {
    fn copy(&self, alloc: Global) -> Result<Answer, AllocError> {
        Ok(match self {
            &Answer::Ignored => Answer::Ignored,
            &Answer::Done => Answer::Done,
            &Answer::Version(version) => Answer::Version(version),
            &Answer::Unchanged => Answer::Unchanged,
            &Answer::InUse => Answer::InUse,
            &Answer::NoListener => Answer::NoListener,
            &Answer::NoChain => Answer::NoChain,
            &Answer::NotOpen => Answer::NotOpen,
            Answer::Moved { requests } => Answer::Moved {
                requests: requests.copy(alloc)?,
            },
            Answer::Replied { requests, verdicts } => Answer::Replied {
                requests: requests.copy(alloc)?,
                verdicts: verdicts.copy(alloc)?,
            },
            Answer::Reaped(numbers) => Answer::Reaped(numbers.copy(alloc)?),
            Answer::On {
                listener,
                chain,
                way,
            } => Answer::On {
                listener: *listener,
                chain: *chain,
                way: way.copy(alloc)?,
            },
            Answer::Settled {
                closed,
                moved,
                version,
            } => Answer::Settled {
                closed: closed.copy(alloc)?,
                moved: moved.copy(alloc)?,
                version: *version,
            },
        })
    }
}

/// One entry of a journal: who, at which line and step of the script, what, and the answer.
#[derive(Drop)]
pub struct Entry {
    pub actor: Actor,
    pub at: u32,
    pub step: u32,
    pub event: Event,
    pub answer: Answer,
}

/// One line of a script after its header, by its number.
#[derive(Drop)]
pub struct Line {
    pub at: u32,
    pub actor: Actor,
    pub event: Event,
}

/// How the resources of a script are read.
#[derive(Clone, Copy, Debug, PartialEq, Eq)]
pub enum Profile {
    /// By this project's own rules.
    Own,
    /// As Envoy reads them.
    Envoy,
}

impl Profile {
    ghost use Rattle.std.specs.Prelude.{◌≡◌};
    ghost use Rattle.ev_types.specs.Profiles.{is_envoy};

    /// Whether resources are read as Envoy reads them.
    pub fn is_envoy(self) -> bool
        ensures { result ≡ is_envoy self }
    {
        matches!(self, Profile::Envoy)
    }
}

/// A script. It has 1 to `MAX_WORKERS` workers, a node of 1 to 512 bytes,
/// and its lines' numbers rise from 2 at least to `count`
/// at most, which is below `LINE_LIMIT`; each line has an actor that its event allows,
/// and its responses have fewer than `ITEM_LIMIT` resources together.
#[derive(Drop)]
pub struct Script {
    pub workers: u32,
    /// Whether each line of the stream, the health checker and the timers is followed by a publication and a reaping.
    pub auto: bool,
    pub profile: Profile,
    pub node: Text,
    pub lines: Seq<Line>,
    /// The number of the last line.
    pub count: u32,
}

impl Model for Script {
    ghost use Rattle.ev_types.specs.Scripts.{ScriptParts, IsScript};

    ghost Value = { ScriptParts };

    ghost view = { λ s. record {
      workers = s.workers;
      auto = s.auto;
      profile = s.profile;
      node = s.node;
      lines = s.lines;
      count = s.count;
    } };

    ghost invariant = { λ s. IsScript record {
      workers = s.workers;
      auto = s.auto;
      profile = s.profile;
      node = s.node;
      lines = s.lines;
      count = s.count;
    } };
}
