use crate::script_ends::script_end;
use std::alloc::Global;
use std::io;

/// Whether the first bytes of a script of the node `edge-1` with two workers, this many,
/// are reported for what they are. At a line's end, with its line feed or without,
/// they are a script of the lines up to there; elsewhere their last line is no JSON.
pub(crate) fn is_told(alloc: Global, input: &[u8], bytes: usize) -> io::Result<bool> {
    let bytes = bytes.min(input.len());
    let told = script_end(alloc, &input[..bytes])?;
    let wanted = wanted_of(alloc, &input[..bytes], input.get(bytes).copied())?;
    Ok(told.as_str() == wanted.as_str())
}

// How the reading of these bytes has to end, which this one follows.
fn wanted_of(alloc: Global, cut: &[u8], next: Option<u8>) -> io::Result<String> {
    let closed = count_of(cut, b'\n');
    let open = closed.saturating_add(1);
    match cut.last() {
        None => Ok(String::from_str(alloc, "bad:1:8")?),
        Some(b'\n') => Ok(format!(in alloc; "whole:2:false:edge-1:{closed}")?),
        Some(_) if next == Some(b'\n') => Ok(format!(in alloc; "whole:2:false:edge-1:{open}")?),
        Some(_) => Ok(format!(in alloc; "bad:{open}:4")?),
    }
}

// How many of the bytes are this one.
fn count_of(bytes: &[u8], wanted: u8) -> usize {
    bytes.iter().filter(|byte| **byte == wanted).count()
}
