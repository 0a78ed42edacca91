//! A gate, its passes and its turns.
ghost use Rattle.std.specs.Prelude.{◌≡◌, ◌<◌, ◌≤◌, ℕ, true, false, length};
ghost use Rattle.ev_gate.specs.Held.{TableId-set, holds_empty};

use crate::bells::Bells;
use crate::stands::Stands;
use crate::view::{GateSeat, GateTable};

/// A lock around one value. Each of its seats has a pass, with which it takes turns. This type and the two below are
/// the project's own. It must be spent, by `close`.
pub struct Gate<V: Stands> {
    pub(crate) table: GateTable<V>,
    pub(crate) bells: Bells,
    ghost sized: { (table.shared.table_id.words ≡ 3) × (table.shared.table_id.slots ≡ 1) },
    ghost some_seat: { 0 < table.shared.key.seats },
}

/// A seat's right to take its turn at the gate that made it. It must be spent:
/// give it to a turn, and at last to `close`.
pub struct Pass<V: Stands> {
    pub(crate) seat: GateSeat<V>,
    // The greatest version that the seat has heard of.
    pub(crate) version: u64,
    ghost idle: { (seat.me.0.spent ≡ false) × (seat.me.0.queued ≡ false)
        × (seat.me.0.serving ≡ false) },
    ghost holds_nothing: { length seat.me.1 ≡ 0 },
    ghost took_in_nothing: { length seat.me.0.told ≡ 0 },
    ghost version_is: { version ≡ seat.me.0.version },
    ghost raised: { version ≤ seat.me.0.raised },
}

/// A seat's turn: it has the value, and no other seat has. It must be spent, by `done` or `quit`.
pub struct Turn<'a, V: Stands> {
    pub(crate) gate: &'a Gate<V>,
    pub(crate) seat: GateSeat<V>,
    pub(crate) value: V,
    ghost here: { seat.table_id ≡ gate.now.table.shared.table_id } by { TableId-set _ _ },
    ghost served: { (seat.me.0.spent ≡ false) × (seat.me.0.queued ≡ true)
        × (seat.me.0.serving ≡ true) },
    ghost slot_is_out: { holds_empty seat.me.1 ≡ true },
    ghost took_in_nothing: { length seat.me.0.told ≡ 0 },
}
