ghost use Rattle.ev_model_laws.specs.OneReplay.{HasReplay, HasOneReplay, HoldsOperations, ReplayIsRunOf};

/// A law of the definitions: each script has a replay. The machine,
/// given the script's operations one after another in the order of a replay,
/// makes a journal in which each entry is one of its actor's, is answered as the machine answers it,
/// and breaks no batch. It does nothing.
pub fn has_a_replay()
    ensures { HasReplay }
{}

/// A law of the definitions: a script has no other replay. It does nothing.
pub fn has_one_replay()
    ensures { HasOneReplay }
{}

/// A law of the definitions: a replay holds each actor's operations of the script, in order,
/// and leaves none out. It does nothing.
pub fn replay_holds_operations()
    ensures { HoldsOperations }
{}

/// A law of the definitions: a replay is a run that holds each actor's operations by the rules
/// of the format, so that its rows are among those that are found legal. It does nothing.
pub fn replay_is_a_run_of_its_script()
    ensures { ReplayIsRunOf }
{}
