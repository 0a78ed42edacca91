use std::alloc::Global;
use std::rt::Files;
use std::{fs, io};

/// The input or the output of a row: the bytes of the file `NAME.KIND`, or,
/// where there is none, those that the lines of `NAME.KIND.parts` say. The kind is `in` or `out`.
///
/// # Errors
/// Those of reading the files.
pub(crate) fn read_bytes<R: Files + AllocGlobal>(
    rt: &R,
    name: &str,
    kind: &str,
) -> io::Result<Vec<u8>> {
    let alloc = rt.alloc();
    let file = format!(in alloc; "{name}.{kind}")?;
    if fs::exists(rt, file.as_str())? {
        return fs::read(rt, file);
    }
    let parts = fs::read_to_string(rt, format!(in alloc; "{name}.{kind}.parts")?)?;
    let mut bytes = Vec::new(alloc);
    for part in parts.lines() {
        add_part(alloc, &mut bytes, part)?;
    }
    Ok(bytes)
}

// Adds what a line of parts says: how many lines, a number, a word and their text.
// By the word `closed` a line feed ends each line, by `open` none does,
// and blanks after the text make each line this many bytes long;
// by `numbered` a line feed ends each line, and each `#` of the text represents the line's number,
// which counts from the given one.
fn add_part(alloc: Global, bytes: &mut Vec<u8>, part: &str) -> io::Result<()> {
    let mut words = part.splitn(4, ' ');
    let count: u32 = words.next().unwrap_or("").parse().unwrap_or(0);
    let number: u32 = words.next().unwrap_or("").parse().unwrap_or(0);
    let word = words.next().unwrap_or("");
    let text = words.next().unwrap_or("");
    if word == "numbered" {
        return add_numbered(alloc, bytes, count, number, text);
    }
    add_wide(bytes, count, number, word == "closed", text.as_bytes())
}

// Adds this many lines of a text, with the number of each in place of each `#`.
fn add_numbered(
    alloc: Global,
    bytes: &mut Vec<u8>,
    count: u32,
    first: u32,
    text: &str,
) -> io::Result<()> {
    for number in first..first.saturating_add(count) {
        let number = format!(in alloc; "{number}")?;
        let line = text.replace(alloc, "#", number.as_str())?;
        bytes.extend_from_slice(line.as_bytes())?;
        bytes.push(b'\n')?;
    }
    Ok(())
}

// Adds this many lines of a text, each with blanks after it up to a width.
fn add_wide(
    input: &mut Vec<u8>,
    count: u32,
    width: u32,
    closed: bool,
    text: &[u8],
) -> io::Result<()> {
    for _ in 0..count {
        input.extend_from_slice(text)?;
        for _ in text.len()..width as usize {
            input.push(b' ')?;
        }
        if closed {
            input.push(b'\n')?;
        }
    }
    Ok(())
}
