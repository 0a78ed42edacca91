ghost use Rattle.ev_model_laws.specs.MainSide.{MainSideHolds, StreamFollows};

/// A law of every run of a script, in both formats: what it holds of an actor of the main side are
/// that actor's operations of the script, all of them, in order. It does nothing.
pub fn main_side_holds()
    ensures { MainSideHolds }
{}

/// A law of the machine: after any entries a stream is open exactly where the last of them
/// that is a connect or a disconnect is a connect. It does nothing.
pub fn stream_follows()
    ensures { StreamFollows }
{}
