ghost use Rattle.ev_sotw.specs.Told.{DeltasAreRead};

/// A law: the message made of a response is read, in either profile,
/// as a response of the incremental protocol with its type, its nonce, an item for each of its resources,
/// of the resource's name, and the removed names. It does nothing.
pub fn deltas_are_read()
    ensures { DeltasAreRead }
{}
