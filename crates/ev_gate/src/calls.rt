//! A gate is made with its passes, and closed with them.
ghost use Rattle.std.specs.Prelude.{◌≡◌, ◌+◌, ◌<◌, ◌≤◌, [], false, length, IfOk, IfErr, vec_capacity};
ghost use Rattle.ev_gate.specs.Words.{gate_id, first_of, seats_of, AreNew, AreAll, IsWhole};
ghost use Rattle.ev_gate.specs.Inner.{IsLeader, IsGathering, IsLast};

use crate::bells::Bells;
use crate::gate::{Gate, Pass};
use crate::plays::{Gathering, Seating};
use crate::stands::Stands;
use crate::view::{GateSeat, GateTable, Terms};
use atomic_table::{Refused, Table};
use std::alloc::{AllocError, Global};
use std::mem::drop;
use std::snapshot::Snapshot;

impl<V: Stands> Gate<V> {
    /// A gate around `value` with this many seats, and a pass for each. Out of memory, the value comes back.
    pub fn new(
        alloc: Global,
        value: V,
        seats: u32,
    ) -> Result<(Gate<V>, Vec<Pass<V>>), (V, AllocError)>
        requires some_seat { 0 < seats }
        requires few { seats ≤ 20 }
        ensures gate { IfOk result (λ r. (first_of r.0 ≡ value) × (seats_of r.0 ≡ seats)) }
        ensures passes { IfOk result (λ r.
            AreNew (gate_id r.0) seats (V.opening value) (V.commits value) r.1.items) }
        ensures value_returned { IfErr result (λ r. r.0 ≡ value) }
    {
        let passes = match Vec::with_capacity(alloc, seats as usize) {
            Ok(passes) => passes,
            Err(error) => return Err((value, error)),
        };
        let version = value.version();
        match Gate::make_table(alloc, value, seats, version) {
            Ok((gate, leader)) => {
                let passes = gate.make_passes(passes, leader, seats, version);
                Ok((gate, passes))
            }
            Err(value) => {
                passes.destroy_empty();
                Err((value, AllocError))
            }
        }
    }

    /// Closes the gate, once all its passes are back, in any order, and gives the value. Its history is whole: each
    /// seat's commits in it are those that its pass counts as its own, each once and in their order.
    pub fn close(self, passes: Vec<Pass<V>>) -> V
        requires { AreAll (gate_id self) (seats_of self) passes.items }
        ensures opening { V.opening result ≡ V.opening (first_of self) }
        ensures history { IsWhole (V.commits (first_of self)) (V.commits result) passes.items }
    {
        let leader = self.join_seats(passes);
        let Gate { table, bells } = self;
        drop(bells);
        take_out(table, leader)
    }

    // The gate and its first seat, which leads the others.
    fn make_table(
        alloc: Global,
        value: V,
        seats: u32,
        version: u64,
    ) -> Result<(Gate<V>, GateSeat<V>), V>
        requires some_seat { 0 < seats }
        requires few { seats ≤ 20 }
        requires version { version ≡ V.version_of (V.opening value) (V.commits value) }
        ensures gate { IfOk result (λ r. (first_of r.0 ≡ value) × (seats_of r.0 ≡ seats)) }
        ensures leader { IfOk result (λ r. let v = first_of r.0 in
            IsLeader (gate_id r.0) 1 (V.opening v) (V.commits v) version r.1) }
        ensures value_returned { IfErr result (λ v. v ≡ value) }
    {
        let terms = Terms {
            value: Snapshot::of(&value),
            seats,
        };
        let mut slots = match Vec::with_capacity(alloc, 1) {
            Ok(slots) => slots,
            Err(_) => return Err(value),
        };
        slots.push_reserved(Some(value));
        match Table::new(alloc, &[0, 0, version], slots, &terms) {
            Ok((table, leader)) => {
                let bells = Bells::new();
                Ok((Gate { table, bells }, leader))
            }
            Err(Refused { mut slots }) => {
                let slot = slots.take_last();
                slots.destroy_empty();
                Err(slot.unwrap())
            }
        }
    }

    // A pass for each seat: the leader makes the others.
    fn make_passes(
        &self,
        mut passes: Vec<Pass<V>>,
        mut leader: GateSeat<V>,
        seats: u32,
        version: u64,
    ) -> Vec<Pass<V>>
        requires some_seat { (0 < seats) × (seats ≡ seats_of self.now) }
        requires room { (passes.items ≡ []) × (seats ≤ vec_capacity passes) }
        requires leader { let v = first_of self.now in
            IsLeader (gate_id self.now) 1 (V.opening v) (V.commits v) version leader }
        ensures { let v = first_of self.now in
            AreNew (gate_id self.now) seats (V.opening v) (V.commits v) result.items }
    {
        for _made in 1..seats {
            let seat = self.table.shared.split_seat::<Seating>(&mut leader);
            passes.push_reserved(Pass { seat, version });
        }
        let first = Pass {
            seat: leader,
            version,
        };
        passes.insert(0, first).unwrap();
        passes
    }

    // The first seat of these takes in the others.
    fn join_seats(&self, mut passes: Vec<Pass<V>>) -> GateSeat<V>
        requires { AreAll (gate_id self.now) (seats_of self.now) passes.items }
        ensures { IsGathering (gate_id self.now) passes.items [] result }
    {
        let Pass {
            seat: mut leader,
            version: _,
        } = passes.remove(0);
        while !passes.is_empty() {
            let Pass { seat, version: _ } = passes.remove(0);
            self.table.shared.join_seat::<Gathering>(&mut leader, seat);
        }
        passes.destroy_empty();
        leader
    }
}

// The last value, out of the table.
fn take_out<V: Stands>(table: GateTable<V>, leader: GateSeat<V>) -> V
    requires slots { table.shared.table_id.slots ≡ 1 }
    requires seat { leader.table_id ≡ table.shared.table_id }
    requires idle { (leader.me.0.spent ≡ false) × (leader.me.0.serving ≡ false) }
    requires all { length leader.me.0.told + 1 ≡ table.shared.key.seats }
    ensures { IsLast V.opening V.commits table.shared.key leader.me.0 result }
{
    let mut closed = table.close_with(leader);
    let slot = closed.take(0);
    closed.free();
    slot.unwrap()
}
