ghost use Rattle.ev_journal_read.specs.OneJournal.{RendersJournals, RunsHaveRows, TextTellsJournal};

/// A law: the lines of what is written of a journal are those of a journal with the rows
/// of its entries. It does nothing.
pub fn renders_journals()
    ensures { RendersJournals }
{}

/// A law: each entry of a run that keeps what its types keep has a row. It does nothing.
pub fn runs_have_rows()
    ensures { RunsHaveRows }
{}

/// A law: two journals that are runs on one script and have one text are equal. It does nothing.
pub fn text_tells_journal()
    ensures { TextTellsJournal }
{}
