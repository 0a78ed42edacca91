ghost use Rattle.ev_model_laws.specs.PhaseForward.{NeverGoesBack};

/// A law of the machine: no event leads to an earlier phase. It does nothing.
pub fn phase_never_goes_back()
    ensures { NeverGoesBack }
{}
