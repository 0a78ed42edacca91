ghost use Rattle.ev_actors.specs.Passes.{ReplaysInOnePass};

/// A law of the definitions: one pass over the lines of a script gives its operations in the order of a replay. It does
/// nothing.
pub fn replays_in_one_pass()
    ensures { ReplaysInOnePass }
{}
