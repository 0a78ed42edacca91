ghost use Rattle.std.specs.Prelude.{◌≡◌, ◌+◌, ◌<◌, ◌≤◌, ◌⊎◌, List, ℕ, [], ◌++◌, None, Err, IsTrue, IfOk, OnOk, OnErr, MatchBool, MatchOption};
ghost use Rattle.std.specs.Io.KnownBytes.{IsAtEnd};
ghost use Rattle.ev_io.specs.Outside.{Rose, Takes};
ghost use Rattle.ev_io.specs.LinesState.{HasTaken, IsWithin};
ghost use Rattle.ev_io.specs.ReadLine.{LeavesOpen};
ghost use Rattle.ev_script.specs.Faults.{fault_number};
ghost use Rattle.ev_script.specs.ReadInput.{script_fault};
ghost use Rattle.ev_types.specs.declared.journals.Format.{Format};
ghost use Rattle.ev_script.specs.declared.fault_kinds.FaultKind.TheVariants.{NotJournal};
ghost use Rattle.ev_journal_read.specs.Journals.{first_text, end_text, GoesOn, IsRowsAnswer, IsFirstAnswer, IsAdded};

use crate::outcome::RowError;
use crate::rows::read_row;
use ev_io::{LineEnd, LineFault, Lines, ScriptFault, Source};
use ev_journal::{write_end_text, write_first_text};
use ev_script::FaultKind;
use ev_types::{Format, Row};
use std::alloc::{AllocError, Global};

/// Reads the rows of a journal after its first line, whose text is `first`, to its end line, which is the last line of
/// the input. The first line has to name this many workers.
///
/// # Errors
/// `Bad` with a line and its kind: kind 9 at the first line that is in no place of the journal, or one line above the
/// last where the end line is missing; kinds 1 to 3 where a fault of the limits comes before.
/// `Read` where a read failed before. `OutOfMemory` where there is no memory for the rows.
pub fn read_rows<S: Source>(
    alloc: Global,
    first: &[u8],
    workers: u32,
    lines: &mut Lines,
    source: &mut S,
) -> Result<(Format, Vec<Row>), ScriptFault>
    requires untold { lines.old.told ≡ None }
    requires taken { (bytes : List ℕ) × HasTaken lines.old bytes }
    ensures reads { (more : List ℕ) × Takes (S.left source.old) (S.left source.new) more
        × ((bytes : List ℕ) → HasTaken lines.old bytes → GoesOn lines.old lines.new bytes more
        × IsRowsAnswer workers first.now lines.old lines.new (bytes ++ more) result) }
    ensures at_end { IsTrue lines.new.ended → IsTrue lines.old.ended ⊎ IsAtEnd (S.left source.new) }
    ensures unended { LeavesOpen S.ended source.old source.new lines.old lines.new }
    ensures at_most { IsWithin lines.old → IsWithin lines.new }
    ensures failed { result ≡ Err ScriptFault.Read → Rose (S.faults source.old) (S.faults source.new) }
    ensures same_count { (S.faults source.new ≡ S.faults source.old) ⊎ (result ≡ Err ScriptFault.Read) }
    ensures count { S.faults source.old ≤ S.faults source.new }
{
    let Some(format) = format_of(alloc, first, workers)? else {
        return Err(misplaced(lines.number()));
    };
    let mut body = Body {
        rows: Vec::new(alloc),
        ended: false,
    };
    let mut text = Vec::new(alloc);
    'lines: loop {
        match lines.read_line(source, &mut text) {
            Ok(LineEnd::Line) => {
                let in_place = body.add(alloc, text.as_slice())?;
                if !in_place {
                    return Err(misplaced(lines.number()));
                }
            }
            Ok(LineEnd::End) if body.ended => return Ok((format, body.rows)),
            Ok(LineEnd::End) => return Err(misplaced(lines.number() + 1)),
            Err(fault) => return Err(script_fault(lines.number(), fault)),
        }
    }
}

// What was read after the first line: rows, and the end line or not yet.
#[derive(Drop)]
pub(crate) struct Body {
    pub rows: Vec<Row>,
    pub ended: bool,
}

impl Body {
    // Takes a line more, and says whether it was in its place.
    fn add(&mut self, alloc: Global, text: &[u8]) -> Result<bool, AllocError>
        ensures { IfOk result (λ added. IsAdded self.old self.new text.now added) }
    {
        if self.ended {
            return Ok(false);
        }
        match read_row(alloc, text) {
            Ok(row) => {
                self.rows.push(row)?;
                Ok(true)
            }
            Err(RowError::OutOfMemory) => Err(AllocError),
            Err(RowError::NotARow) => {
                self.ended = write_end_text(alloc, self.rows.len())?.as_slice() == text;
                Ok(self.ended)
            }
        }
    }
}

// The format of a journal by its first line, where it is one for this many workers.
fn format_of(alloc: Global, first: &[u8], workers: u32) -> Result<Option<Format>, AllocError>
    ensures { IfOk result (IsFirstAnswer first.now workers) }
{
    if write_first_text(alloc, Format::Two, workers)?.as_slice() == first {
        return Ok(Some(Format::Two));
    }
    if write_first_text(alloc, Format::One, workers)?.as_slice() == first {
        return Ok(Some(Format::One));
    }
    Ok(None)
}

// A fault of the journal at a line.
fn misplaced(line: u32) -> ScriptFault
    ensures { result ≡ ScriptFault.Bad line (fault_number NotJournal) }
{
    fault_at(line, FaultKind::NotJournal)
}

// How a fault of lines is reported, where this many lines were given.
fn script_fault(given: u32, fault: LineFault) -> ScriptFault
    requires { given < u32.MAX }
    ensures { result ≡ script_fault given fault }
{
    match fault {
        LineFault::TooLong => fault_at(given + 1, FaultKind::TooLong),
        LineFault::TooMany => fault_at(given + 1, FaultKind::TooMany),
        LineFault::TooLarge => fault_at(given + 1, FaultKind::TooLarge),
        LineFault::Failed => ScriptFault::Read,
        LineFault::OutOfMemory => ScriptFault::OutOfMemory,
    }
}

// A fault of this kind at a line.
fn fault_at(line: u32, kind: FaultKind) -> ScriptFault
    ensures { result ≡ ScriptFault.Bad line (fault_number kind) }
{
    ScriptFault::Bad {
        line,
        kind: kind.number(),
    }
}
