//! The worked rows: scripts with what the program has to write of them, as files.
//! Each name in `rows` is a row: its exit status, with the line and the kind of the fault where the input is no script,
//! and its arguments. Its input is in `NAME.in`, and the output that is wanted in `NAME.out`;
//! long ones are made of the pieces in `NAME.in.parts` and `NAME.out.parts`.
//! The program runs each over memory, compares, and prints a line for each row and the sum.
//! Then it reads inputs of scripts, and texts of rows and of journals, which are files too.
#![tactic(auto)]

mod cuts;
mod inputs;
mod journals;
mod row;
mod row_texts;
mod script_ends;
mod script_inputs;

use crate::inputs::read_bytes;
use crate::row::{Row, read_row};
use crate::row_texts::{try_journals, try_texts};
use crate::script_inputs::{try_cuts, try_inputs};
use ev_app::Status;
use ev_io::{MemSink, MemSource};
use ev_program::run_program;
use ev_run::Free;
use std::alloc::Global;
use std::rt::Files;
use std::sync::Wait;
use std::thread::Threads;
use std::{fs, io};

/// The room for an output, in bytes, beyond that of the one that is wanted.
const ROOM: usize = 1_000;

/// How many bytes a read gives, and a write takes, at most.
const PIECE: usize = 65_536;

/// The same for inputs of at most `SHORT` bytes, one after another.
const PIECES: [usize; 5] = [1, 2, 3, 7, 1_000];

/// The most bytes of an input that is read in small pieces.
const SHORT: usize = 20_000;

/// The most bytes of an input of which each read fails in turn, and each write.
const SHORTEST: usize = 300;

/// How many bytes a write takes at most where one fails.
const WRITTEN: usize = 10;

fn main(rt: HostRuntime) -> io::Result<()> {
    try_rows(&rt)?;
    try_inputs(&rt)?;
    try_cuts(&rt)?;
    try_texts(&rt)?;
    try_journals(&rt)
}

// Runs each row, and prints a line for each row, and the sum.
fn try_rows<R: Files + Print + AllocGlobal + Threads + Wait + Sync>(rt: &R) -> io::Result<()> {
    let list = fs::read_to_string(rt, "rows")?;
    let mut passed = 0u32;
    let mut failed = 0u32;
    for line in list.lines() {
        if try_row(rt, line)? {
            passed = passed.saturating_add(1);
        } else {
            failed = failed.saturating_add(1);
        }
    }
    println!(rt; "{passed} rows passed, {failed} failed")
}

// Runs the row that a line of the list is, prints a line for it, and returns whether it passed.
fn try_row<R: Files + Print + AllocGlobal + Threads + Wait + Sync>(
    rt: &R,
    line: &str,
) -> io::Result<bool> {
    let row = read_row(rt.alloc(), line)?;
    let passed = passes(rt, &row)?;
    print_row(rt, row.name.as_str(), passed)?;
    Ok(passed)
}

// Prints whether a row passed.
fn print_row(rt: &impl Print, name: &str, passed: bool) -> io::Result<()> {
    if passed {
        println!(rt; "{name}: passed")
    } else {
        println!(rt; "{name}: failed")
    }
}

// Whether the program ends a row with its status and writes its output,
// in whatever pieces its input is read, and whether a read that fails is reported, whichever it is, and so a write.
fn passes<R: Files + AllocGlobal + Threads + Wait + Sync>(rt: &R, row: &Row) -> io::Result<bool> {
    let name = row.name.as_str();
    let input = read_bytes(rt, name, "in")?;
    let wanted = read_bytes(rt, name, "out")?;
    ends_well(rt, rt.alloc(), row, input.as_slice(), wanted.as_slice())
}

// The same of a row with this input, which has to write these bytes.
fn ends_well<R: Threads + Wait + Sync>(
    rt: &R,
    alloc: Global,
    row: &Row,
    input: &[u8],
    wanted: &[u8],
) -> io::Result<bool> {
    if !answers(rt, alloc, row, input, wanted, PIECE)? {
        return Ok(false);
    }
    if input.len() <= SHORT && !answers_in_pieces(rt, alloc, row, input, wanted)? {
        return Ok(false);
    }
    if input.len() > SHORTEST || !row.reads_input() {
        return Ok(true);
    }
    Ok(
        tells_failures(rt, alloc, row, input)?
            && reads_no_further(rt, alloc, row, input, wanted)?
            && tells_lost_writes(rt, alloc, row, input, wanted)?,
    )
}

// Whether the program ends a row with its status and writes its output, however few bytes it reads at once.
fn answers_in_pieces<R: Threads + Wait + Sync>(
    rt: &R,
    alloc: Global,
    row: &Row,
    input: &[u8],
    wanted: &[u8],
) -> io::Result<bool> {
    for piece in PIECES {
        if !answers(rt, alloc, row, input, wanted, piece)? {
            return Ok(false);
        }
    }
    Ok(true)
}

// The devices of a run: how many bytes a read gives, and a write takes, at most,
// and the number of the read, and of the write, that fails, or 0.
#[derive(Clone, Copy)]
struct Devices {
    piece: usize,
    failing_read: u64,
    taken: usize,
    failing_write: u64,
}

// How the program ends a row on these devices, and whether it wrote these bytes.
fn run<R: Threads + Wait + Sync>(
    rt: &R,
    alloc: Global,
    row: &Row,
    input: &[u8],
    wanted: &[u8],
    devices: Devices,
) -> io::Result<(Status, bool)> {
    let fails = vec![in alloc; devices.failing_read]?;
    let mut source = MemSource::new(input.to_vec(alloc)?, devices.piece.max(1), fails);
    let fails = vec![in alloc; devices.failing_write]?;
    let room = wanted.len().saturating_add(ROOM);
    let mut sink = MemSink::new(alloc, room, devices.taken.max(1), fails)?;
    let arguments = row.arguments.as_slice();
    let status = run_program(rt, alloc, arguments, &mut source, &mut sink, &Free);
    Ok((status, sink.as_bytes() == wanted))
}

// Whether the program, which reads this many bytes at once, ends a row with its status and writes its output.
fn answers<R: Threads + Wait + Sync>(
    rt: &R,
    alloc: Global,
    row: &Row,
    input: &[u8],
    wanted: &[u8],
    piece: usize,
) -> io::Result<bool> {
    let devices = Devices {
        piece,
        failing_read: 0,
        taken: piece,
        failing_write: 0,
    };
    let (status, same) = run(rt, alloc, row, input, wanted, devices)?;
    Ok(same && row.is_end(status))
}

// Whether the program, which reads one byte at once, reports of each read of an input that it fails.
fn tells_failures<R: Threads + Wait + Sync>(
    rt: &R,
    alloc: Global,
    row: &Row,
    input: &[u8],
) -> io::Result<bool> {
    for number in 1..=(input.len() as u64).saturating_add(1) {
        if !tells_failure(rt, alloc, row, input, number)? {
            return Ok(false);
        }
    }
    Ok(true)
}

// Whether the program, which reads one byte at once, reports that the read
// of this number fails, or, where the row is no script, its fault, and writes nothing.
fn tells_failure<R: Threads + Wait + Sync>(
    rt: &R,
    alloc: Global,
    row: &Row,
    input: &[u8],
    number: u64,
) -> io::Result<bool> {
    let devices = Devices {
        piece: 1,
        failing_read: number,
        taken: 1,
        failing_write: 0,
    };
    let (status, nothing) = run(rt, alloc, row, input, &[], devices)?;
    let told = status == Status::ReadFault || (status != Status::Done && row.is_end(status));
    Ok(told && nothing)
}

// Whether the program, which reads one byte at once, ends a row as it has to
// where each read after the end of the input fails.
fn reads_no_further<R: Threads + Wait + Sync>(
    rt: &R,
    alloc: Global,
    row: &Row,
    input: &[u8],
    wanted: &[u8],
) -> io::Result<bool> {
    let devices = Devices {
        piece: 1,
        failing_read: (input.len() as u64).saturating_add(2),
        taken: PIECE,
        failing_write: 0,
    };
    let (status, same) = run(rt, alloc, row, input, wanted, devices)?;
    Ok(same && row.is_end(status))
}

// Whether the program reports of each write of a row's output that it fails,
// with what was written before it in the sink.
fn tells_lost_writes<R: Threads + Wait + Sync>(
    rt: &R,
    alloc: Global,
    row: &Row,
    input: &[u8],
    wanted: &[u8],
) -> io::Result<bool> {
    for (place, _) in wanted.chunks(WRITTEN).enumerate() {
        let written = place.saturating_mul(WRITTEN).min(wanted.len());
        let devices = Devices {
            piece: PIECE,
            failing_read: 0,
            taken: WRITTEN,
            failing_write: (place as u64).saturating_add(1),
        };
        let (status, same) = run(rt, alloc, row, input, &wanted[..written], devices)?;
        if !same || status != Status::WriteFault {
            return Ok(false);
        }
    }
    Ok(true)
}
