ghost use Rattle.ev_model_laws.specs.InUse.{RunsOpenWhatIsOpen, RunsUseNothingGone};

/// A law of every run, in both formats: no generation that a worker's picture or the last one shows,
/// or that a connection is open on, was reaped before. It does nothing.
pub fn use_nothing_that_was_reaped()
    ensures { RunsUseNothingGone }
{}

/// A law of every run, in both formats: each open connection is that of an accept that opened it,
/// and no entry since has closed it;
/// where none has moved it on, it is on the listener on which it was opened. It does nothing.
pub fn open_connections_were_opened()
    ensures { RunsOpenWhatIsOpen }
{}
