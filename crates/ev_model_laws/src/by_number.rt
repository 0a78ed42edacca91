ghost use Rattle.ev_model_laws.specs.ByNumber.{StandByNumber};

/// A law of the machine: after any entries the rows of generations are in the order of their numbers,
/// which were all allocated. It does nothing.
pub fn rows_stand_by_number()
    ensures { StandByNumber }
{}
