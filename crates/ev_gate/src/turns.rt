//! A turn at a gate: its value, and its two ends.
ghost use Rattle.std.specs.Prelude.{◌≡◌, ◌≤◌, [], false, length, drop};
ghost use Rattle.std.specs.Borrow.{sem};
ghost use Rattle.ev_gate.specs.History.{GrowsWithout, Continues, Adds, AddsOne, AddsAtMostOne, CountsAlso, seen_of, mine_of};
ghost use Rattle.ev_gate.specs.Lent.{LendsValue};
ghost use Rattle.ev_gate.specs.Inner.{IsWaiting};
ghost use Rattle.ev_gate.specs.Words.{gate_id, first_of, pass_gate, pass_knows, pass_heard, turn_gate, turn_knows, turn_value};

use crate::gate::{Gate, Pass, Turn};
use crate::plays::{Draw, End, FirstValue, Look};
use crate::stands::Stands;
use crate::view::{GateSeat, SERVING, TICKET};
use std::marker::Brand;
use std::sync::Wait;
use std::thread::Threads;

// How often a seat looks whether its ticket is served before it sleeps.
// Where seats contend for short turns, a sleep and its wake cost far more than the turn.
const LOOKS: u32 = 100;

impl<V: Stands> Gate<V> {
    /// Waits until it is this seat's turn. No clause says when that is.
    pub fn turn<R: Threads + Wait + Sync>(&self, rt: &R, pass: Pass<V>) -> Turn<'_, V>
        requires { pass_gate pass ≡ gate_id self.now }
        ensures gate { turn_gate result ≡ gate_id self.now }

        // The seat is the same, and it has seen the commits that it had not seen. None of these is its own.
        ensures knows { turn_knows result ≡ record (pass_knows pass) { since = (turn_knows result).since } }
        ensures seen { let k = pass_knows pass in GrowsWithout k.number k.since (turn_knows result).since }
        ensures mine { mine_of (turn_knows result) ≡ mine_of (pass_knows pass) }

        // The value has the gate's opening, and represents all that the seat has now seen.
        ensures opening { Some (V.opening (turn_value result)) ≡ (turn_knows result).opening }
        ensures history { V.commits (turn_value result) ≡ seen_of (turn_knows result) }

        // The opening and the start are those of the value that the gate was made with.
        ensures gate_opening { V.opening (turn_value result) ≡ V.opening (first_of self.now) }
        ensures gate_start { (turn_knows result).start ≡ V.commits (first_of self.now) }

        // What the pass had heard of is a beginning of the history, and had no greater version.
        ensures heard { Continues (pass_heard pass) (V.commits (turn_value result)) }
        ensures not_below { let o = V.opening (turn_value result) in
            V.version_of o (pass_heard pass) ≤ V.version_of o (V.commits (turn_value result)) }
    {
        let Pass {
            mut seat,
            version: _,
        } = pass;
        let shared = &self.table.shared;
        let ticket = self.draw::<Brand>(&mut seat);
        let mut looks = 0;
        for _ in rt.forever() {
            let served = shared.load::<Look>(&mut seat, SERVING);
            let is_served = served == ticket;
            if is_served {
                let slot = shared.exchange(&mut seat, 0, None);
                return Turn {
                    gate: self,
                    seat,
                    value: slot.unwrap(),
                };
            }
            looks = if looks < LOOKS { looks + 1 } else { 0 };
            self.wait(rt, ticket, looks);
        }
        unreachable!()
    }

    // Between two looks of a seat that has looked so often since it slept:
    // after enough of them it says that it will sleep, looks once more, and sleeps.
    fn wait<R: Wait>(&self, rt: &R, ticket: u64, looks: u32) {
        if looks == LOOKS {
            self.bells.announce(ticket);
        }
        if looks == 0 {
            self.bells.sleep(rt, ticket);
        }
    }

    // Draws a ticket. K names the value that the gate was made with.
    fn draw<K: FirstValue<V>>(&self, seat: &mut GateSeat<V>) -> u64
        requires first { K.first ≡ Some (first_of self.now) }
        requires gate { seat.old.table_id ≡ gate_id self.now }
        requires idle { (seat.old.me.0.spent ≡ false) × (seat.old.me.0.queued ≡ false)
            × (seat.old.me.0.serving ≡ false) }
        requires holds_nothing { seat.old.me.1 ≡ [] }
        ensures waits { IsWaiting result seat.old seat.new }
        ensures opening { seat.old.me.0.opening ≡ Some (V.opening (first_of self.now)) }
        ensures start { seat.old.me.0.start ≡ V.commits (first_of self.now) }
    {
        self.table.shared.fetch_add::<Draw<K>>(seat, TICKET, 1)
    }
}

impl<'a, V: Stands> Turn<'a, V> {
    /// The value, to read and to change. The turn then has what was written through it, and is otherwise the same.
    pub fn value(&mut self) -> &mut V
        ensures* writes_back { sem 𝓛 (LendsValue V.row V.Opening.row V.Commit.row V.Stands self.entry
            result) }
        ensures value { result.now ≡ turn_value self.old }
    {
        &mut self.value
    }

    /// Ends the turn after one commit of this seat. The value has the same opening, and one commit more than at the
    /// turn, which bears this seat's number, and its version has not fallen. The pass has seen the commit and counts it
    /// as its own. After the commit the gate's newest version is raised, so that it is not below the value's.
    pub fn done(self) -> Pass<V>
        requires opening { Some (V.opening (turn_value self)) ≡ (turn_knows self).opening }
        requires commit { AddsOne (turn_knows self) (V.commits (turn_value self)) }
        requires version { let o = V.opening (turn_value self) in
            V.version_of o (seen_of (turn_knows self)) ≤ V.version_of o (V.commits (turn_value self)) }
        ensures gate { pass_gate result ≡ turn_gate self.entry }
        ensures knows { pass_knows result ≡ record (turn_knows self.entry) { since = (pass_knows result).since } }
        ensures seen { seen_of (pass_knows result) ≡ V.commits (turn_value self.entry) }
        ensures mine { (c : V.Commit) → Adds (turn_knows self.entry) c (V.commits (turn_value self.entry))
            → CountsAlso (turn_knows self.entry) c (pass_knows result) }
        ensures heard { pass_heard result ≡ V.commits (turn_value self.entry) }
    {
        self.put_back()
    }

    /// Ends the turn without a commit: the value represents what it represented at the turn.
    /// The pass has seen that. The gate's newest version is then not below the value's.
    pub fn quit(self) -> Pass<V>
        requires opening { Some (V.opening (turn_value self)) ≡ (turn_knows self).opening }
        requires same { V.commits (turn_value self) ≡ seen_of (turn_knows self) }
        ensures gate { pass_gate result ≡ turn_gate self.entry }
        ensures knows { pass_knows result ≡ turn_knows self.entry }
        ensures heard { pass_heard result ≡ V.commits (turn_value self.entry) }
    {
        Turn::put_back(self)
    }

    // Puts the value back, serves the next ticket, and raises the newest version.
    fn put_back(self) -> Pass<V>
        requires opening { Some (V.opening (turn_value self)) ≡ (turn_knows self).opening }
        requires own { AddsAtMostOne (turn_knows self) (V.commits (turn_value self)) }
        requires version { let o = V.opening (turn_value self) in
            V.version_of o (seen_of (turn_knows self)) ≤ V.version_of o (V.commits (turn_value self)) }
        ensures gate { pass_gate result ≡ turn_gate self.entry }
        ensures knows { let k = turn_knows self.entry in
            pass_knows result ≡ record k { since = drop (length k.start) (V.commits (turn_value self.entry)) } }
        ensures heard { pass_heard result ≡ V.commits (turn_value self.entry) }
    {
        let Turn {
            gate,
            mut seat,
            value,
        } = self;
        let version = value.version();
        let slot = gate.table.shared.exchange(&mut seat, 0, Some(value));
        let None = slot else { unreachable!() };
        let served = gate.table.shared.fetch_add::<End>(&mut seat, SERVING, 1);
        gate.bells.ring(served.wrapping_add(1));
        gate.raise(seat, version)
    }
}
