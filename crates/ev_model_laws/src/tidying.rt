ghost use Rattle.ev_model_laws.specs.Tidying.{TidiesOnce};

/// A law of the definitions: tidying a world that was tidied changes nothing. It does nothing.
pub fn tidies_once()
    ensures { TidiesOnce }
{}
