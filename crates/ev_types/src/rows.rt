use crate::{Content, KeptChain, Kind, Name, Seq, Text, TryCopy};
use std::alloc::{AllocError, Global};
use std::marker::Model;

/// The number of a generation, from 1. Numbers are allocated from one counter for clusters and listeners.
#[derive(Clone, Copy, Debug, PartialEq, Eq, PartialOrd, Ord, Hash)]
pub struct Gen {
    number: u32,
}

impl Model for Gen {
    ghost use Rattle.std.specs.Prelude.{ℕ, ◌≤◌};

    ghost Value = { ℕ };

    ghost view = { λ g. g.number };

    ghost invariant = { λ g. 1 ≤ g.number };

    ghost inverse = { λ n. record { number = n } };
}

impl Gen {
    ghost use Rattle.std.specs.Prelude.{◌≡◌, ◌≤◌};

    /// The generation of this number.
    pub fn new(number: u32) -> Gen
        requires { 1 ≤ number }
        ensures number { result ≡ number }
    {
        Gen { number }
    }

    /// Its number.
    pub fn number(self) -> u32
        ensures number { result ≡ self }
        ensures first { 1 ≤ result }
    {
        self.number
    }
}

impl TryCopy for Gen {
    fn copy(&self, _alloc: Global) -> Result<Gen, AllocError> {
        Ok(*self)
    }
}

/// Where a generation stands.
#[derive(Clone, Copy, Debug, PartialEq, Eq)]
pub enum RowStatus {
    /// It waits for what it depends on and, as a checked cluster, for a first result of each of its hosts.
    Warming,
    /// It serves.
    Active,
    /// It was replaced or removed after it had served; connections may still be open on it.
    Draining,
    /// It was replaced or removed before it served.
    Dropped,
}

impl RowStatus {
    ghost use Rattle.std.specs.Prelude.{◌≡◌};
    ghost use Rattle.ev_types.specs.Statuses.{is_warming, is_active, is_live};

    /// Whether it waits.
    pub fn is_warming(self) -> bool
        ensures { result ≡ is_warming self }
    {
        matches!(self, RowStatus::Warming)
    }

    /// Whether it serves.
    pub fn is_active(self) -> bool
        ensures { result ≡ is_active self }
    {
        matches!(self, RowStatus::Active)
    }

    /// Whether it waits or serves.
    pub fn is_live(self) -> bool
        ensures { result ≡ is_live self }
    {
        matches!(self, RowStatus::Warming | RowStatus::Active)
    }
}

/// A generation of a cluster or listener.
#[derive(Drop)]
pub struct GenRow {
    /// `Cds` for a cluster, `Lds` for a listener.
    pub kind: Kind,
    pub number: Gen,
    pub name: Name,
    pub content: Content,
    pub status: RowStatus,
    /// The chains that a listener changed in place has from the generation before it. Its other chains began with it.
    pub kept: Seq<KeptChain>,
}

/// A live generation: one that warms or serves.
#[derive(Drop)]
pub struct Live {
    pub kind: Kind,
    pub number: Gen,
    pub name: Name,
    pub content: Content,
    /// Whether it still warms.
    pub warming: bool,
}

/// The live generations, in the order of their numbers.
#[derive(Drop)]
pub struct Lives {
    pub rows: Seq<Live>,
}

/// The version that is kept for a name of a kind.
#[derive(Drop)]
pub struct KeptVersion {
    pub kind: Kind,
    pub name: Name,
    pub version: Text,
    /// Whether the resource's life is bounded: it was received with a time to live that has not ended.
    pub bounded: bool,
}

/// How far the proxy has booted. A phase never goes back.
#[derive(Clone, Copy, Debug, PartialEq, Eq)]
pub enum Phase {
    /// The first clusters are awaited.
    Clusters,
    /// The first listeners are awaited.
    Listeners,
    /// Listeners serve.
    Serving,
}

/// What was received for a watched name.
#[derive(Drop)]
pub enum Arrival {
    /// A resource.
    Value(Content),
    /// A notice that there is no such resource.
    Absent,
    /// A resource that was refused.
    Bad,
    /// The initial fetch timeout.
    TimedOut,
    /// The end of a time to live, with what is held from then on. The control plane has said nothing by it.
    Ended(Content),
}
