ghost use Rattle.ev_journal_read.specs.Reading.{HasOneRow, WritesOneToOne, ReadsAsWritten};

/// A law: a text is that of one row at most that is meant.
pub fn has_one_row()
    ensures { HasOneRow }
{}

/// A law: rows with one text are meant as one row.
pub fn writes_one_to_one()
    ensures { WritesOneToOne }
{}

/// A law: the text of an entry's row is that of the row that is meant by it.
pub fn reads_as_written()
    ensures { ReadsAsWritten }
{}
