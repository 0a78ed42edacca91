ghost use Rattle.ev_model_laws.specs.Numbers.{DrawsInOrder};

/// A law of the machine: the numbers of generations are allocated once and in order,
/// after any entries. No event gives a generation a number that was allocated before for another one,
/// so a number whose generation is gone never comes back. It does nothing.
pub fn numbers_are_drawn_once()
    ensures { DrawsInOrder }
{}
