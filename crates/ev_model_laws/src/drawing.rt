ghost use Rattle.ev_model_laws.specs.Drawing.{DrawsForResources};

/// A law of the machine: at most one number is allocated for each resource, by one event and by many,
/// so an event without resources allocates none. It does nothing.
pub fn numbers_are_drawn_for_resources()
    ensures { DrawsForResources }
{}
