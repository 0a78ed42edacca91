ghost use Rattle.ev_model_laws.specs.Acknowledging.{AcknowledgesExactly};

/// A response is acknowledged exactly where none of its resources is refused. It does nothing.
pub fn acknowledges_exactly()
    ensures { AcknowledgesExactly }
{}
