use crate::script_inputs::input_of;
use ev_io::{Lines, MemSource, ScriptFault};
use ev_journal_read::read_rows;
use std::alloc::Global;
use std::io;

/// How many bytes a read gives at most.
const PIECE: usize = 7;

/// Whether the reading of a journal of two workers ends as its line says.
pub(crate) fn is_read(alloc: Global, line: &str) -> io::Result<bool> {
    let mut columns = line.split('\t');
    let wanted = columns.next().unwrap_or("");
    let failing = columns.next().unwrap_or("").parse().unwrap_or(1);
    let first = columns.next().unwrap_or("");
    let text = columns.next().unwrap_or("");
    Ok(end_of(alloc, first, text, failing)?.as_str() == wanted)
}

// How the reading of a journal ends, as a text, where the read of this number fails.
fn end_of(alloc: Global, first: &str, text: &str, failing: u64) -> io::Result<String> {
    let bytes = input_of(alloc, text)?;
    let fails = vec![in alloc; failing]?;
    let mut source = MemSource::new(bytes, PIECE, fails);
    let mut lines = Lines::new(alloc)?;
    let (place, kind) = match read_rows(alloc, first.as_bytes(), 2, &mut lines, &mut source) {
        Ok((_, rows)) => (rows.len(), 0),
        Err(ScriptFault::Bad { line, kind }) => (line as usize, kind),
        Err(ScriptFault::Read) => (0, 10),
        Err(ScriptFault::OutOfMemory) => (0, 11),
    };
    Ok(format!(in alloc; "{place}:{kind}")?)
}
