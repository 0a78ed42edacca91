//! What a program reads from and writes to, as two traits whose meanings say which bytes went
//! through and how many faults there were, and what implements them: memory for tests and proofs,
//! and the standard streams. `Lines` reads a source line by line, under the limits of an input.
//!
//! # Choices
//!
//! - The count is a `u64` that stops at its end, and so is the number of calls made. The number of a call
//!   after that would be 2^64, which no list of `u64` names, so such a call doesn't fail by name.
//! - A write of no bytes to a full `MemSink` is answered with 0, and a named call fails whatever its bytes are.
//! - `StdSource` and `StdSink` don't try an interrupted call again: each `Err` is a `Failed`.
//! - Where a flush fails after the writer took bytes, `StdSink` returns `Failed`;
//!   it doesn't say which bytes, so nothing is claimed of them.
//! - `MemSink::as_bytes` shows what was written; the tests above read it.
//! - An Ok of a source or a sink leaves its count of faults as it was. On a first reading a trait might let a count
//!   rise at any call, as long as it never falls; this is stricter. Without it a program that tries a failed call
//!   again could end as if nothing had failed. With it the count is as before exactly where no call failed (up to a
//!   count at its last value).
//! - The bytes taken so far are in no field of `Lines`, since it keeps a line and not the input. Contracts see the
//!   pending bytes and the counts, and speak of all bytes by `HasTaken`: whatever bytes fit the state before the
//!   call, those with the bytes taken in the call fit the state after it, and the answer is what it is of them. A
//!   caller keeps such bytes in its loop's invariant, beginning with none.
//! - `Lines::new` takes the memory for a piece at once, and the memory for a piece more is taken before each read. So
//!   being out of memory never loses a byte, and comes before the read or before the line is given.
//! - An end that the source gave is kept: after it `Lines` doesn't ask again, even if the source had more to give.
//! - A fault is reported before a line: a byte that is too large, or the first byte of line 200,001, is a fault even
//!   where its line isn't whole. At the end of the input a last line without its line feed is a line like the others.
//! - `LineFault`'s `TooLong`, `TooMany` and `TooLarge` are the kinds 1, 2 and 3 of a script's faults; `ScriptFault`
//!   is here as a plain type, for the readers of scripts above.
//! - `Lines` feeds each line that it gives to a hasher, once and whole,
//!   and makes keys of that for the tables of names above (ev_keys). No view has the hasher:
//!   nothing depends on which keys they are.
//! - The line feed is looked for by a plain loop over the bytes, each byte once: what was searched before a read
//!   isn't searched again. Given lines are moved out of the buffer only before a read.
#![tactic(auto)]

mod calls;
mod faults;
mod found;
mod limits;
mod line_reader;
mod memory_sink;
mod memory_source;
mod outside;
mod standard;

pub use faults::{LineEnd, LineFault, ScriptFault};
pub use limits::{MAX_INPUT_BYTES, MAX_LINE_BYTES, MAX_LINES, MAX_PIECE_BYTES};
pub use line_reader::Lines;
pub use memory_sink::MemSink;
pub use memory_source::MemSource;
pub use outside::{Failed, Sink, Source, write_all};
pub use standard::{StdSink, StdSource};
