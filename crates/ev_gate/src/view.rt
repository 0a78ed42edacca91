//! What a seat at the gate's table knows, and the rule of the table.
ghost use Rattle.ev_gate.specs.Rule.{IsKept, first_view};

use crate::stands::Stands;
use atomic_table::{Seat, Table, TableRule};
use std::alloc::Global;
use std::collections::LinkedList;
use std::marker::PhantomData;
use std::snapshot::Snapshot;

/// What a seat knows. No value of it is made. A ticket is counted without end here, and modulo 2^64 in the word.
pub struct View<O, C> {
    /// Whether the seat was joined to the leader's.
    pub spent: bool,
    /// Its place among the seats.
    pub number: u64,
    /// Whether it has a ticket.
    pub queued: bool,
    /// Whether its ticket is served, so that it has the value.
    pub serving: bool,
    pub ticket: u64,
    /// The opening of the gate's value. A spent view has none.
    pub opening: Option<O>,
    /// The commits of the value that the gate was made with.
    pub start: LinkedList<(u64, C)>,
    /// The commits since then that the seat has seen.
    pub since: LinkedList<(u64, C)>,
    /// The commits since the start of the history that had the greatest version that the seat has heard of.
    pub heard: LinkedList<(u64, C)>,
    /// That version.
    pub version: u64,
    /// The version to which the seat has raised the word `newest`.
    pub raised: u64,
    /// The first seat's alone: how many seats there are.
    pub made: u64,
    /// What the seats knew that this one took in, in order.
    pub told: LinkedList<Joined<C>>,
}

/// What a seat knew of the history when another took it in. No value of it is made.
pub struct Joined<C> {
    pub number: u64,
    pub start: LinkedList<(u64, C)>,
    pub since: LinkedList<(u64, C)>,
    pub heard: LinkedList<(u64, C)>,
}

/// What a table is told once: the value that the gate was made with, and how many seats it may have.
pub struct Terms<V> {
    pub value: Snapshot<V>,
    pub seats: u32,
}

impl<V> Drop for Terms<V> {
    fn drop(self) {
        let Self { value: _, seats: _ } = self;
    }
}

/// The rule of a gate's table.
pub struct OneHistory<V> {
    marker: PhantomData<V>,
}

impl<V: Stands> TableRule<Option<V>, View<V::Opening, V::Commit>, Terms<V>> for OneHistory<V> {
    ghost holds = { λ terms. IsKept V.opening V.commits V.version_of terms };

    ghost first = { λ terms. first_view V.opening V.commits V.version_of terms };
}

// The words of a gate's table.
pub(crate) const TICKET: usize = 0;

pub(crate) const SERVING: usize = 1;

pub(crate) const NEWEST: usize = 2;

pub(crate) type GateSeat<V> = Seat<Option<V>, View<<V as Stands>::Opening, <V as Stands>::Commit>>;

pub(crate) type GateTable<V> = Table<
    Option<V>,
    View<<V as Stands>::Opening, <V as Stands>::Commit>,
    Terms<V>,
    OneHistory<V>,
    Global,
>;
