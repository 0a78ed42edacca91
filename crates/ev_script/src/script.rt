ghost use Rattle.std.specs.Prelude.{◌≡◌, ◌+◌, ◌<◌, ◌≤◌, ◌⊎◌, List, ℕ, None, Err, IsTrue, true, false, OnErr, OnOk, IfOk, length};
ghost use Rattle.std.specs.Io.KnownBytes.{IsAtEnd};
ghost use Rattle.ev_io.specs.Outside.{Rose, Takes};
ghost use Rattle.ev_io.specs.LinesState.{IsFresh, HasTaken, IsWithin};
ghost use Rattle.ev_io.specs.ReadLine.{LeavesOpen};
ghost use Rattle.ev_types.specs.Scripts.{items_in, items_of};
ghost use Rattle.ev_script.specs.Faults.{plain_lines};
ghost use Rattle.ev_script.specs.Header.{IsHeader};
ghost use Rattle.ev_script.specs.ReadInput.{input_of};
ghost use Rattle.ev_script.specs.ReadScript.{IsScriptAnswer, IsAuditedAnswer, AreNumbered, script_made};

use crate::fault_kinds::FaultKind;
use crate::forms::ScriptLines;
use crate::header::Header;
use crate::read_input::{ReadLines, UpToJournal, fault_at, read_lines_with, read_up_to_journal};
use ev_io::{Lines, MAX_LINES, ScriptFault, Source};
use ev_types::{Event, Line, Script, Seq};
use std::alloc::{AllocError, Global};

/// Reads a script, which is the whole input. The reader of lines is a fresh one.
///
/// # Errors
/// `Bad` with the line and the kind of the first fault of the bytes taken, those at the end of the
/// input only where the source gave its end; `Read` where a read failed and the bytes taken have no
/// fault. `OutOfMemory` where there is no memory for the script, or its responses have 2^32 - 1
/// resources or more together; the bytes taken are those of the reader of lines, and no read failed.
pub fn read_script<S: Source>(
    alloc: Global,
    lines: &mut Lines,
    source: &mut S,
) -> Result<Script, ScriptFault>
    requires fresh { IsFresh lines.old }
    ensures reads { (bytes : List ℕ) × Takes (S.left source.old) (S.left source.new) bytes × HasTaken lines.new bytes
        × IsScriptAnswer plain_lines (input_of false lines.new bytes) result }
    ensures untold { OnOk result (lines.new.told ≡ None) }
    ensures number { IfOk result (λ script. lines.new.given ≡ script.count) }
    ensures at_end { IsTrue lines.new.ended → IsAtEnd (S.left source.new) }
    ensures unended { LeavesOpen S.ended source.old source.new lines.old lines.new }
    ensures at_most { IsWithin lines.new }
    ensures failed { result ≡ Err ScriptFault.Read → Rose (S.faults source.old) (S.faults source.new) }
    ensures goes_on { result ≡ Err ScriptFault.Read → ¬ (IsTrue lines.new.ended) }
    ensures same_count { (S.faults source.new ≡ S.faults source.old) ⊎ (result ≡ Err ScriptFault.Read) }
    ensures count { S.faults source.old ≤ S.faults source.new }
{
    let ReadLines { head, kept, .. } = read_lines_with(alloc, &ScriptLines, lines, source)?;
    let script = made_script(head, kept)?;
    Ok(script)
}

/// A script with a journal after it.
#[derive(Drop)]
pub struct AuditedScript {
    pub script: Script,
    /// The first line of the journal, without its line feed.
    pub journal: Vec<u8>,
}

/// Reads a script that comes before a journal, and the journal's first line.
/// The reader of lines is a fresh one, and goes on with the journal's second line.
///
/// # Errors
/// As of `read_script`; a journal that is missing is one of kind 9.
/// No journal begins before the fault, nor in the bytes taken where a read failed.
pub fn read_audited_script<S: Source>(
    alloc: Global,
    lines: &mut Lines,
    source: &mut S,
) -> Result<AuditedScript, ScriptFault>
    requires fresh { IsFresh lines.old }
    ensures reads { (bytes : List ℕ) × Takes (S.left source.old) (S.left source.new) bytes × HasTaken lines.new bytes
        × IsAuditedAnswer (input_of true lines.new bytes) result }
    ensures untold { OnOk result (lines.new.told ≡ None) }
    ensures number { IfOk result (λ audited. lines.new.given ≡ audited.script.count + 1) }
    ensures at_end { IsTrue lines.new.ended → IsAtEnd (S.left source.new) }
    ensures unended { LeavesOpen S.ended source.old source.new lines.old lines.new }
    ensures at_most { IsWithin lines.new }
    ensures failed { result ≡ Err ScriptFault.Read → Rose (S.faults source.old) (S.faults source.new) }
    ensures goes_on { result ≡ Err ScriptFault.Read → ¬ (IsTrue lines.new.ended) }
    ensures same_count { (S.faults source.new ≡ S.faults source.old) ⊎ (result ≡ Err ScriptFault.Read) }
    ensures count { S.faults source.old ≤ S.faults source.new }
{
    let UpToJournal { read, journal } = read_up_to_journal(
        alloc,
        &ScriptLines,
        true,
        lines,
        source,
    )?;
    let Some(journal) = journal else {
        return Err(fault_at(lines.number() + 1, FaultKind::NotJournal));
    };
    let script = made_script(read.head, read.kept)?;
    Ok(AuditedScript { script, journal })
}

// The script of a header and the lines after it.
fn made_script(header: Header, lines: Vec<Line>) -> Result<Script, AllocError>
    requires header { IsHeader header }
    requires numbered { AreNumbered header.workers lines.items }
    requires few { length lines.items < MAX_LINES }
    ensures { IfOk result (λ script. script ≡ script_made header lines.items) }
{
    count_items(lines.as_slice())?;
    Ok(Script {
        workers: header.workers,
        auto: header.auto,
        profile: header.profile,
        node: header.node,
        count: lines.len() as u32 + 1,
        lines: Seq::from_vec(lines),
    })
}

// Counts the resources of the lines' responses, which are fewer than 2^32 - 1 together. More, which no input has room
// for, would be out of memory.
fn count_items(lines: &[Line]) -> Result<u32, AllocError>
    ensures count { IfOk result (λ count. count ≡ items_of lines.now) }
    ensures few { IfOk result (λ count. count < 4294967295) }
{
    let mut count = 0;
    for line in lines {
        count = with_items(count, items_in(&line.event))?;
    }
    Ok(count)
}

// So many resources more.
fn with_items(count: u32, items: usize) -> Result<u32, AllocError>
    requires { count < 4294967295 }
    ensures sum { IfOk result (λ sum. sum ≡ count + items) }
    ensures few { IfOk result (λ sum. sum < 4294967295) }
    ensures full { OnErr result (4294967295 ≤ count + items) }
{
    if items >= (u32::MAX - count) as usize {
        return Err(AllocError);
    }
    Ok(count + items as u32)
}

// How many resources an event brings.
fn items_in(event: &Event) -> usize
    ensures { result ≡ items_in event.now }
{
    match event {
        Event::Response(response) => response.get().items.len(),
        _ => 0,
    }
}
