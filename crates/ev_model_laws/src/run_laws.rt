ghost use Rattle.ev_model_laws.specs.RunLaws.{RunsHaveParts, RunsOpenWarmed, RunsGoForward, RunsReapUnused, RunsReapOnce, RunsKeepRefused, RunsAcknowledge, RunsWait, RunsKeepConnections, RunsKeepBodies};
ghost use Rattle.ev_model.specs.Laws.{RunsHaveLaws};

/// Of every run, in both formats: the parts that each event keeps hold after any first entries. It does nothing.
pub fn runs_keep_their_parts()
    ensures { RunsHaveParts }
{}

/// A law of every run, in both formats: connections go only to warmed generations.
/// What an accept names served and was ready after some entry before the picture was published that its worker holds,
/// and an entry not after that one had answered what it waits for:
/// where that has to come anew, one since the generation was made. It does nothing.
pub fn connections_go_to_warmed_generations()
    ensures { RunsOpenWarmed }
{}

/// A law of every run, in both formats: no worker's snapshot goes back. It does nothing.
pub fn snapshots_never_go_back()
    ensures { RunsGoForward }
{}

/// A law of every run, in both formats: a generation is destroyed only when no connection is open on
/// it, those that it had were closed or moved on, and no worker's snapshot holds it. It does nothing.
pub fn reaped_generations_are_unused()
    ensures { RunsReapUnused }
{}

/// A law of every run, in both formats: a generation is destroyed once. A reaping names each once, and no later entry
/// destroys it again, accepts a connection on it or publishes a picture that shows it. It does nothing.
pub fn generations_are_reaped_once()
    ensures { RunsReapOnce }
{}

/// A law of every run, in both formats: a refused update takes nothing away.
/// The generations and the version of a refused cluster or listener stay as they were,
/// and so do the value and the version of refused endpoints or routes,
/// or they aren't watched any more. It does nothing.
pub fn refused_updates_take_nothing_away()
    ensures { RunsKeepRefused }
{}

/// A law of every run, in both formats: a response is acknowledged exactly
/// where all its resources meet the written rules. The first request carries the response's nonce,
/// has no error exactly where no resource breaks a rule, and names those that break one, in order. It does nothing.
pub fn responses_are_acknowledged()
    ensures { RunsAcknowledge }
{}

/// A law of every run in format 2: a listener that has served is destroyed only
/// when its drain timeout has come. It does nothing.
pub fn drained_listeners_have_waited()
    ensures { RunsWait }
{}

/// A law of every run, in both formats: a chain that stays keeps its connections.
/// A settle closes a connection whose chain was found only where its listener's drain timeout came
/// and the last picture shows no chain of its origin; where it shows one, the connection is open afterwards,
/// on the listener that shows it. It does nothing.
pub fn chains_that_stay_keep_connections()
    ensures { RunsKeepConnections }
{}

/// A law of every run, in both formats: two chains of one origin have equal bodies,
/// so a connection that moves stays on the chain that accepted it. It does nothing.
pub fn moves_keep_the_chain()
    ensures { RunsKeepBodies }
{}

/// Every run has the nine laws, in both formats. It does nothing.
pub fn runs_have_the_laws()
    ensures { RunsHaveLaws }
{}
