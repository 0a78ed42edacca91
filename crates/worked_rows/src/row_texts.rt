//! Texts of rows and of journals, as files. Each line of `row_texts` begins with `row` where
//! what follows is the text of a row, and with `none` where it is no row's. Each line of `journals` has four columns:
//! how the reading has to end (how many rows, and 0; or the line of the first fault after the first line, and its kind,
//! 10 for a failed read), the number of the read that fails, the journal's first line, and what follows it,
//! with `~` for a line feed.

use crate::journals::is_read;
use ev_journal::write_row;
use ev_journal_read::{RowError, read_row};
use std::alloc::Global;
use std::rt::Files;
use std::{fs, io};

/// Reads each of the texts of rows, and prints what fails, and the sum.
///
/// # Errors
/// Those of reading the file, and of printing.
pub(crate) fn try_texts<R: Files + Print + AllocGlobal>(rt: &R) -> io::Result<()> {
    let rows = fs::read(rt, "row_texts")?;
    let rows = rows.as_slice();
    let rows = rows.strip_suffix(b"\n").unwrap_or(rows);
    let mut passed = 0u32;
    let mut failed = 0u32;
    for line in rows.split(|byte| *byte == b'\n') {
        if is_told(rt.alloc(), line)? {
            passed = passed.saturating_add(1);
        } else {
            failed = failed.saturating_add(1);
            println!(rt;
                "failed: line {} of the texts of rows",
                passed.saturating_add(failed)
            )?;
        }
    }
    println!(rt; "{passed} texts of rows passed, {failed} failed")
}

/// Reads each of the journals, and prints what fails, and the sum.
///
/// # Errors
/// Those of reading the file, and of printing.
pub(crate) fn try_journals<R: Files + Print + AllocGlobal>(rt: &R) -> io::Result<()> {
    let journals = fs::read_to_string(rt, "journals")?;
    let mut read = 0u32;
    for line in journals.lines() {
        if is_read(rt.alloc(), line)? {
            read = read.saturating_add(1);
        } else {
            println!(rt; "failed: {line}")?;
        }
    }
    println!(rt; "{read} journals read")
}

// Whether what a line says of a text is so.
fn is_told(alloc: Global, line: &[u8]) -> io::Result<bool> {
    match (line.strip_prefix(b"row "), line.strip_prefix(b"none ")) {
        (Some(text), _) => is_row(alloc, text),
        (None, Some(text)) => Ok(!is_row(alloc, text)?),
        (None, None) => Ok(false),
    }
}

// Whether a text is a row's: the row's text is then the text again.
fn is_row(alloc: Global, text: &[u8]) -> io::Result<bool> {
    match read_row(alloc, text) {
        Ok(row) => Ok(write_row(alloc, &row)?.as_slice() == text),
        Err(RowError::NotARow) => Ok(false),
        Err(RowError::OutOfMemory) => Err(io::Error::from(io::ErrorKind::OutOfMemory)),
    }
}
