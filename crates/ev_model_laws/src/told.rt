ghost use Rattle.ev_model_laws.specs.Told.{KeptIsValue, ToldStays};

/// A law of the machine: a name that is watched after an event which says nothing of it has the value
/// that it had, and is told of where it was, for the generations that it was told of for. It does nothing.
pub fn told_stays()
    ensures { ToldStays }
{}

/// A law of the machine: a resource that an answered response keeps is the value of its name,
/// which is told of for each generation that was made, where the name is watched after it. It does nothing.
pub fn kept_is_value()
    ensures { KeptIsValue }
{}
