ghost use Rattle.std.specs.Prelude.{◌≡◌, false, [], OnOk, OnErr, IfOk};
ghost use Rattle.ev_model.specs.Connections.{is_open, closed};
ghost use Rattle.std.specs.List.{list_any};
ghost use Rattle.ev_ledger.specs.Members.{is_of_worker, member_on, with_member, AreApart, AreInOrder, ArePlacesFrom, ArePlacesOn, IsAnswerOf, Opens, HasOpenedAfter, HasOpened, count_of, on_in};

use crate::counts::{count_in, lower_on, raise_on};
use crate::members::{Members, found, has_any, is_there, put, take};
use crate::open_on::{On, began_at, listener_of};
use crate::places::{Places, enter_under, leave_under, places_under};
use ev_types::Gen;
use indexmap::IndexMap;
use std::alloc::{AllocError, Global};
use std::collections::{BTreeMap, BTreeSet};
use std::marker::Model;

/// The connections that workers have open, seen by contracts as the list of them by worker and number.
#[derive(Drop)]
pub struct Ledger {
    members: Members,
    // How many of them are open on a generation, by its number.
    counts: IndexMap<u32, u64>,
    // Those on each listener, and those whose chains began with each.
    places: Places,
    begun: Places,
}

impl Model for Ledger {
    ghost use Rattle.std.specs.Prelude.{List};
    ghost use Rattle.ev_model.specs.World.{OpenMember};
    ghost use Rattle.ev_ledger.specs.Entries.{members_of, AreEntriesKept};

    ghost Value = { List OpenMember };

    ghost view = { λ l. members_of l.members.entries };

    ghost invariant = { λ l. AreEntriesKept l.counts l.places l.begun l.members.entries };
}

impl Ledger {
    /// No connection is open. It takes no memory.
    pub fn new(alloc: Global) -> Ledger
        ensures empty { result ≡ [] }
        ensures stands { HasOpened result [] }
    {
        Ledger {
            members: BTreeMap::new(alloc),
            counts: IndexMap::new(alloc),
            places: BTreeSet::new(alloc),
            begun: BTreeSet::new(alloc),
        }
    }

    /// How many connections are open on a generation, as their listener or their cluster. It looks at no connection.
    pub fn count(&self, number: Gen) -> u64
        ensures count { result ≡ count_of number self.now }
        ensures world { IsAnswerOf (count_of number) self.now result }
    {
        count_in(&self.counts, number.number())
    }

    /// Opens a worker's connection on a listener and, where it was forwarded, on a cluster.
    /// The worker has none of this number open. Out of memory, all stays as it was.
    pub fn open(&mut self, worker: u32, conn: u64, on: On) -> Result<(), AllocError>
        requires apart { is_open self.old worker conn ≡ false }
        ensures opened { OnOk result (self.new ≡ with_member (member_on worker conn on) self.old) }
        ensures world { OnOk result (Opens (member_on worker conn on) self.old self.new) }
        ensures err { OnErr result (self.new ≡ self.old) }
    {
        let Ok(_) = self.counts.reserve(2) else {
            return Err(AllocError);
        };
        let place = (worker as u64, conn);
        let listener = listener_of(&on);
        let began = began_at(&on);
        let Ok(_) = enter_under(&mut self.places, &listener, place) else {
            return Err(AllocError);
        };
        let Ok(_) = enter_under(&mut self.begun, &began, place) else {
            leave_under(&mut self.places, &listener, place);
            return Err(AllocError);
        };
        let Ok(_) = put(&mut self.members, place, &on) else {
            leave_under(&mut self.places, &listener, place);
            leave_under(&mut self.begun, &began, place);
            return Err(AllocError);
        };
        raise_on(&mut self.counts, &on);
        Ok(())
    }

    /// Closes a worker's connection and returns whether it was open there. It takes no memory.
    pub fn close(&mut self, worker: u32, conn: u64) -> bool
        ensures answer { result ≡ is_open self.old worker conn }
        ensures closed { self.new ≡ (closed conn worker self.old).opened }
        ensures gone { is_open self.new worker conn ≡ false }
        ensures answer_by_world { IsAnswerOf (λ opened. is_open opened worker conn) self.old result }
        ensures world { HasOpenedAfter (λ opened. (closed conn worker opened).opened) self.old self.new }
    {
        let place = (worker as u64, conn);
        let Some(on) = take(&mut self.members, place) else {
            return false;
        };
        let listener = listener_of(&on);
        let began = began_at(&on);
        leave_under(&mut self.places, &listener, place);
        leave_under(&mut self.begun, &began, place);
        lower_on(&mut self.counts, &on);
        true
    }

    /// Whether a worker has a connection of this number open. It looks at no other.
    pub fn is_open(&self, worker: u32, conn: u64) -> bool
        ensures answer { result ≡ is_open self.now worker conn }
        ensures world { IsAnswerOf (λ opened. is_open opened worker conn) self.now result }
    {
        is_there(&self.members, (worker as u64, conn))
    }

    /// What a worker's connection is open on, where it is open. It looks at no other, and takes no memory.
    pub fn on(&self, worker: u32, conn: u64) -> Option<On>
        ensures on { result ≡ on_in worker conn self.now }
        ensures apart { AreApart self.now }
        ensures ordered { AreInOrder self.now }
    {
        found(&self.members, (worker as u64, conn))
    }

    /// The worker and the number of each connection on a listener. It looks at no other.
    pub fn places_on(&self, alloc: Global, number: Gen) -> Result<Vec<(u64, u64)>, AllocError>
        ensures places { IfOk result (λ places. ArePlacesOn number self.now places.items) }
    {
        // No two are of one worker and number.
        let _ = self.members.len();
        places_under(alloc, &self.places, number.number() as u64)
    }

    /// The worker and the number of each connection whose chain began with a generation. It looks at no other.
    pub fn places_from(&self, alloc: Global, number: Gen) -> Result<Vec<(u64, u64)>, AllocError>
        ensures places { IfOk result (λ places. ArePlacesFrom number self.now places.items) }
    {
        // No two are of one worker and number.
        let _ = self.members.len();
        places_under(alloc, &self.begun, number.number() as u64)
    }

    /// Whether a worker has a connection open. It is a look-up.
    pub fn has_any(&self, worker: u32) -> bool
        ensures any { result ≡ list_any (is_of_worker worker) self.now }
        ensures world { IsAnswerOf (list_any (is_of_worker worker)) self.now result }
    {
        has_any(&self.members, worker as u64)
    }
}
