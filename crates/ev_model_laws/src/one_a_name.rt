ghost use Rattle.ev_model_laws.specs.OneAName.{StaysSingle};

/// A law of the machine: of a kind and name at most one generation warms and at most one serves, after any entries. It
/// does nothing.
pub fn one_warms_and_one_serves()
    ensures { StaysSingle }
{}
