ghost use Rattle.ev_chains.specs.Laws.{ConnectionsStay, ChainsStay};

/// A law: a connection is open on a chain exactly where the chain took it,
/// and since then the connection wasn't closed and no drain timeout came while the chain drained. It does nothing.
pub fn connections_stay()
    ensures { ConnectionsStay }
{}

/// A law: a chain that was made drains or is gone exactly where a listener
/// that was accepted since has no chain equal to it. It does nothing.
pub fn chains_stay()
    ensures { ChainsStay }
{}
