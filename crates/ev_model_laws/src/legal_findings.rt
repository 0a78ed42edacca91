ghost use Rattle.ev_model_laws.specs.LegalFindings.{LegalExactly};

/// A law of the definitions: the rows of a journal are found legal with their script exactly
/// where they are those of a run of the machine that holds each actor's operations of the script,
/// in order. It does nothing.
pub fn legal_exactly()
    ensures { LegalExactly }
{}
