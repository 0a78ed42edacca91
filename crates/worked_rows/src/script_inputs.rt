//! Inputs of scripts, as files. Each line of `inputs` says whether the input is `plain`
//! or an `audit`'s, how the reading has to end (`whole:WORKERS:AUTO:NODE:LINES`,
//! `journal:WORKERS:AUTO:NODE:LINES:BYTES` or `bad:LINE:KIND`), and the input, with `~` for a line feed.
//! A plain one is read as a script and as trees. Then the input in `realistic.in` is cut after each of its bytes.

use crate::cuts::is_told;
use crate::script_ends::{audited_end, script_end, trees_end};
use std::alloc::Global;
use std::rt::Files;
use std::{fs, io};

/// Reads each of the inputs, and prints what fails, and the sum.
///
/// # Errors
/// Those of reading the file, and of printing.
pub(crate) fn try_inputs<R: Files + Print + AllocGlobal>(rt: &R) -> io::Result<()> {
    let list = fs::read_to_string(rt, "inputs")?;
    let mut passed = 0u32;
    let mut failed = 0u32;
    for line in list.lines() {
        if passes(rt.alloc(), line)? {
            passed = passed.saturating_add(1);
        } else {
            println!(rt; "failed: {line}")?;
            failed = failed.saturating_add(1);
        }
    }
    println!(rt; "{passed} inputs passed, {failed} failed")
}

/// Cuts a script after each of its bytes, and prints of which cuts the reading ended as it has to.
///
/// # Errors
/// Those of reading the file, and of printing.
pub(crate) fn try_cuts<R: Files + Print + AllocGlobal>(rt: &R) -> io::Result<()> {
    let input = fs::read(rt, "realistic.in")?;
    let mut told = 0u32;
    for bytes in 0..=input.len() {
        if is_told(rt.alloc(), input.as_slice(), bytes)? {
            told = told.saturating_add(1);
        } else {
            println!(rt; "wrong: the cut behind {bytes} bytes")?;
        }
    }
    println!(rt; "{told} cuts told")
}

// Whether the reading of an input ends as its line says: of a plain one as a script and as trees.
fn passes(alloc: Global, line: &str) -> io::Result<bool> {
    let mut words = line.splitn(3, ' ');
    let audit = words.next().unwrap_or("") == "audit";
    let wanted = words.next().unwrap_or("");
    let input = input_of(alloc, words.next().unwrap_or(""))?;
    if audit {
        let audited = audited_end(alloc, input.as_slice())?;
        return Ok(audited.as_str() == wanted);
    }
    let script = script_end(alloc, input.as_slice())?;
    let trees = trees_end(alloc, input.as_slice())?;
    Ok(script.as_str() == wanted && trees.as_str() == wanted)
}

/// The bytes of a text in which `~` represents a line feed.
///
/// # Errors
/// Out of memory.
pub(crate) fn input_of(alloc: Global, text: &str) -> io::Result<Vec<u8>> {
    let mut input = Vec::new(alloc);
    for byte in text.as_bytes() {
        input.push(if *byte == b'~' { b'\n' } else { *byte })?;
    }
    Ok(input)
}
