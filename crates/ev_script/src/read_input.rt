ghost use Rattle.std.specs.Prelude.{◌≡◌, ◌+◌, ◌<◌, ◌≤◌, ◌⊎◌, List, ℕ, None, Err, IsTrue, false, OnOk, IfOk, length};
ghost use Rattle.std.specs.Io.KnownBytes.{IsAtEnd};
ghost use Rattle.ev_io.specs.Outside.{Rose, Takes};
ghost use Rattle.ev_io.specs.LinesState.{IsFresh, HasTaken, IsWithin};
ghost use Rattle.ev_io.specs.ReadLine.{LeavesOpen};
ghost use Rattle.ev_script.specs.Faults.{fault_number};
ghost use Rattle.ev_script.specs.ReadInput.{input_of, script_fault, through_journal, IsAnswer, IsAnswerUpTo, IsHeadAnswer};

use crate::content::{Content, First, read_content, read_first};
use crate::fault_kinds::FaultKind;
use crate::forms::{FormedHead, Forms, Settings};
use ev_io::{LineEnd, LineFault, Lines, MAX_LINES, ScriptFault, Source};
use std::alloc::Global;

/// The lines that were read of an input.
#[derive(Drop)]
pub struct ReadLines<H, T> {
    /// What the first line sets for the others.
    pub settings: Settings,
    /// What is kept of the first line.
    pub head: H,
    /// What is kept of each line after it.
    pub kept: Vec<T>,
}

// The lines that were read up to the journal that follows them, or to the end of the input.
#[derive(Drop)]
pub(crate) struct UpToJournal<H, T> {
    pub(crate) read: ReadLines<H, T>,
    // the first line of the journal, without its line feed, where one follows
    pub(crate) journal: Option<Vec<u8>>,
}

/// Reads an input's header and the lines after it, by these forms, to the end of the input.
/// The reader of lines is a fresh one.
///
/// # Errors
/// `Bad` with the line and the kind of the first fault of the bytes taken,
/// those at the end of the input only where the source gave its end;
/// `Read` where a read failed and the bytes taken have no fault. `OutOfMemory` where there is no memory for the lines;
/// the bytes taken are those of the reader of lines, and no read failed.
pub fn read_lines_with<S: Source, F: Forms>(
    alloc: Global,
    forms: &F,
    lines: &mut Lines,
    source: &mut S,
) -> Result<ReadLines<F::Head, F::Kept>, ScriptFault>
    requires fresh { IsFresh lines.old }
    ensures reads { (bytes : List ℕ) × Takes (S.left source.old) (S.left source.new) bytes × HasTaken lines.new bytes
        × IsAnswer F.forms F.keeps_head F.keeps (input_of false lines.new bytes) result }
    ensures number { IfOk result (λ read. lines.new.given ≡ length read.kept.items + 1) }
    ensures few { IfOk result (λ read. length read.kept.items < MAX_LINES) }
    ensures untold { OnOk result (lines.new.told ≡ None) }
    ensures at_end { IsTrue lines.new.ended → IsAtEnd (S.left source.new) }
    ensures unended { LeavesOpen S.ended source.old source.new lines.old lines.new }
    ensures at_most { IsWithin lines.new }
    ensures failed { result ≡ Err ScriptFault.Read → Rose (S.faults source.old) (S.faults source.new) }
    ensures goes_on { result ≡ Err ScriptFault.Read → ¬ (IsTrue lines.new.ended) }
    ensures same_count { (S.faults source.new ≡ S.faults source.old) ⊎ (result ≡ Err ScriptFault.Read) }
    ensures count { S.faults source.old ≤ S.faults source.new }
{
    let UpToJournal { read, .. } = read_up_to_journal(alloc, forms, false, lines, source)?;
    Ok(read)
}

// Reads an input's header and the lines after it to the end of the input or, in an audit's input,
// to the first line of the journal; whether there is one is left to the caller.
pub(crate) fn read_up_to_journal<S: Source, F: Forms>(
    alloc: Global,
    forms: &F,
    audit: bool,
    lines: &mut Lines,
    source: &mut S,
) -> Result<UpToJournal<F::Head, F::Kept>, ScriptFault>
    requires fresh { IsFresh lines.old }
    ensures reads { (bytes : List ℕ) × Takes (S.left source.old) (S.left source.new) bytes × HasTaken lines.new bytes
        × IsAnswerUpTo F.forms F.keeps_head F.keeps (input_of audit lines.new bytes) result }
    ensures number { IfOk result (λ up_to. lines.new.given
        ≡ length up_to.read.kept.items + through_journal up_to.journal) }
    ensures few { IfOk result (λ up_to. length up_to.read.kept.items < MAX_LINES) }
    ensures untold { OnOk result (lines.new.told ≡ None) }
    ensures at_end { IsTrue lines.new.ended → IsAtEnd (S.left source.new) }
    ensures unended { LeavesOpen S.ended source.old source.new lines.old lines.new }
    ensures at_most { IsWithin lines.new }
    ensures failed { result ≡ Err ScriptFault.Read → Rose (S.faults source.old) (S.faults source.new) }
    ensures goes_on { result ≡ Err ScriptFault.Read → ¬ (IsTrue lines.new.ended) }
    ensures same_count { (S.faults source.new ≡ S.faults source.old) ⊎ (result ≡ Err ScriptFault.Read) }
    ensures count { S.faults source.old ≤ S.faults source.new }
{
    let FormedHead {
        kept: head,
        settings,
    } = read_head(alloc, forms, lines, source)?;
    let mut text = Vec::new(alloc);
    let mut kept = Vec::new(alloc);
    'lines: loop {
        match lines.read_line(source, &mut text) {
            Ok(LineEnd::Line) => {
                let at = lines.number();
                match read_content(alloc, forms, audit, settings, at, text.as_slice())? {
                    Content::Line(line) => match kept.push(line) {
                        Ok(()) => {}
                        Err(_) => return Err(ScriptFault::OutOfMemory),
                    },
                    Content::Fault(kind) => return Err(fault_at(at, kind)),
                    Content::Journal => {
                        return Ok(UpToJournal {
                            read: ReadLines {
                                settings,
                                head,
                                kept,
                            },
                            journal: Some(text),
                        });
                    }
                }
            }
            Ok(LineEnd::End) => {
                return Ok(UpToJournal {
                    read: ReadLines {
                        settings,
                        head,
                        kept,
                    },
                    journal: None,
                });
            }
            Err(fault) => return Err(script_fault(lines.number(), fault)),
        }
    }
}

// Reads the first line of an input, which is its header.
fn read_head<S: Source, F: Forms>(
    alloc: Global,
    forms: &F,
    lines: &mut Lines,
    source: &mut S,
) -> Result<FormedHead<F::Head>, ScriptFault>
    requires fresh { IsFresh lines.old }
    ensures reads { (bytes : List ℕ) × Takes (S.left source.old) (S.left source.new) bytes × HasTaken lines.new bytes
        × IsHeadAnswer F.forms F.keeps_head lines.new bytes result }
    ensures at_end { IsTrue lines.new.ended → IsAtEnd (S.left source.new) }
    ensures unended { LeavesOpen S.ended source.old source.new lines.old lines.new }
    ensures at_most { IsWithin lines.new }
    ensures failed { result ≡ Err ScriptFault.Read → Rose (S.faults source.old) (S.faults source.new) }
    ensures goes_on { result ≡ Err ScriptFault.Read → ¬ (IsTrue lines.new.ended) }
    ensures same_count { (S.faults source.new ≡ S.faults source.old) ⊎ (result ≡ Err ScriptFault.Read) }
    ensures count { S.faults source.old ≤ S.faults source.new }
{
    let mut text = Vec::new(alloc);
    match lines.read_line(source, &mut text) {
        Ok(LineEnd::Line) => match read_first(alloc, forms, text.as_slice())? {
            First::Header(head) => Ok(head),
            First::Fault(kind) => Err(fault_at(1, kind)),
        },
        Ok(LineEnd::End) => Err(fault_at(1, FaultKind::NoByte)),
        Err(fault) => Err(script_fault(lines.number(), fault)),
    }
}

// A fault of this kind at a line.
pub(crate) fn fault_at(line: u32, kind: FaultKind) -> ScriptFault
    ensures { result ≡ ScriptFault.Bad line (fault_number kind) }
{
    ScriptFault::Bad {
        line,
        kind: kind.number(),
    }
}

// How a fault of lines is reported, where this many lines were given.
fn script_fault(given: u32, fault: LineFault) -> ScriptFault
    requires { given < u32.MAX }
    ensures { result ≡ script_fault given fault }
{
    match fault {
        LineFault::TooLong => fault_at(given + 1, FaultKind::TooLong),
        LineFault::TooMany => fault_at(given + 1, FaultKind::TooMany),
        LineFault::TooLarge => fault_at(given + 1, FaultKind::TooLarge),
        LineFault::Failed => ScriptFault::Read,
        LineFault::OutOfMemory => ScriptFault::OutOfMemory,
    }
}
