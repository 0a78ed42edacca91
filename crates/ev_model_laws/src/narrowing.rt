ghost use Rattle.ev_model_laws.specs.Narrowing.{NarrowsToOne};

/// A law of filter chains: where no two of them collide one is left at most,
/// for a connection of which it is said who connects, or where none that is left asks for that. It does nothing.
pub fn one_chain_is_left()
    ensures { NarrowsToOne }
{}
