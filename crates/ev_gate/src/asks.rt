//! The newest version, without a turn.
ghost use Rattle.std.specs.Prelude.{◌≡◌, ◌≤◌, ◌++◌, [], false, length};
ghost use Rattle.ev_gate.specs.History.{Continues};
ghost use Rattle.ev_gate.specs.Words.{gate_id, first_of, pass_gate, pass_knows, pass_heard, known};

use crate::gate::{Gate, Pass};
use crate::plays::{Ask, FirstValue, Raise};
use crate::stands::Stands;
use crate::view::{GateSeat, NEWEST};
use std::marker::Brand;

impl<V: Stands> Gate<V> {
    /// A version that the value's history had at this step, without a turn and without waiting.
    /// It is not below any that this pass has seen, and counts as one that it has seen. How new it is, no clause says.
    pub fn newest(&self, pass: &mut Pass<V>) -> u64
        requires { pass_gate pass.old ≡ gate_id self.now }
        ensures gate { pass_gate pass.new ≡ gate_id self.now }
        ensures knows { pass_knows pass.new ≡ pass_knows pass.old }

        // The pass has heard of the history that had the version:
        // what the value represented when the gate was made, and then perhaps more.
        ensures begins { Continues (V.commits (first_of self.now)) (pass_heard pass.new) }
        ensures version { result ≡ V.version_of (V.opening (first_of self.now)) (pass_heard pass.new) }
        ensures not_below { V.version_of (V.opening (first_of self.now)) (pass_heard pass.old) ≤ result }
    {
        self.asked::<Brand>(pass)
    }

    // The same. K names the value that the gate was made with.
    fn asked<K: FirstValue<V>>(&self, pass: &mut Pass<V>) -> u64
        requires first { K.first ≡ Some (first_of self.now) }
        requires gate { pass_gate pass.old ≡ gate_id self.now }
        ensures gate { pass_gate pass.new ≡ gate_id self.now }
        ensures knows { pass_knows pass.new ≡ pass_knows pass.old }
        ensures begins { Continues (V.commits (first_of self.now)) (pass_heard pass.new) }
        ensures version { result ≡ V.version_of (V.opening (first_of self.now)) (pass_heard pass.new) }
        ensures not_below { V.version_of (V.opening (first_of self.now)) (pass_heard pass.old) ≤ result }
    {
        let found = self
            .table
            .shared
            .fetch_max::<Ask<K>>(&mut pass.seat, NEWEST, pass.version);
        pass.version = found.max(pass.version);
        pass.version
    }

    // Raises the newest version to the one that the seat has heard of. Its pass is then at rest.
    pub(crate) fn raise(&self, mut seat: GateSeat<V>, version: u64) -> Pass<V>
        requires gate { seat.table_id ≡ gate_id self.now }
        requires idle { (seat.me.0.spent ≡ false) × (seat.me.0.queued ≡ false)
            × (seat.me.0.serving ≡ false) }
        requires holds_nothing { seat.me.1 ≡ [] }
        requires took_in_nothing { length seat.me.0.told ≡ 0 }
        requires version { version ≡ seat.me.0.version }
        ensures gate { pass_gate result ≡ seat.table_id }
        ensures knows { pass_knows result ≡ known seat.me.0 }
        ensures heard { pass_heard result ≡ seat.me.0.start ++ seat.me.0.heard }
    {
        self.table
            .shared
            .fetch_max::<Raise>(&mut seat, NEWEST, version);
        Pass { seat, version }
    }
}
