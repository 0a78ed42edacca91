ghost use Rattle.std.specs.Prelude.{◌≡◌, ◌<◌, ◌≤◌, ◌⊎◌, IsTrue, false, length, take, None, Ok, OnOk, OnErr, IfOk, IfSome};
ghost use Rattle.ev_io.specs.Outside.{Rose, raised};
ghost use Rattle.ev_io.specs.Standard.{reader_of, gave_end, read_faults, writer_of, write_faults, ReadsThrough, WritesThrough};

use super::outside::{Failed, Sink, Source};
use std::io::{Read, Write};

/// A source over a reader, as standard input. It counts its faults, and doesn't say which bytes are left.
#[derive(Drop)]
pub struct StdSource<R> {
    reader: R,
    ended: bool,
    faults: u64,
}

/// A sink over a writer, as standard output. It counts its faults, and doesn't say which bytes were written.
#[derive(Drop)]
pub struct StdSink<W> {
    writer: W,
    faults: u64,
}

impl<R: Read> StdSource<R> {
    /// A source that gives what `reader` does.
    pub fn new(reader: R) -> StdSource<R>
        ensures reader { reader_of result ≡ reader }
        ensures ended { gave_end result ≡ false }
        ensures count { read_faults result ≡ 0 }
    {
        StdSource {
            reader,
            ended: false,
            faults: 0,
        }
    }
}

impl<W: Write> StdSink<W> {
    /// A sink that gives to `writer` what is written.
    pub fn new(writer: W) -> StdSink<W>
        ensures writer { writer_of result ≡ writer }
        ensures count { write_faults result ≡ 0 }
    {
        StdSink { writer, faults: 0 }
    }
}

impl<R: Read> Source for StdSource<R> {
    ghost left = { λ _. None };

    ghost ended = { λ s. gave_end s };

    ghost faults = { λ s. read_faults s };

    // An `Err` of the reader is the only cause of `Failed`.
    fn read(&mut self, buf: &mut [u8]) -> Result<usize, Failed>
        ensures bound { IfOk result (λ n. n ≤ length buf.new) }
        ensures ended { IfOk result (λ n. n ≡ 0 → 0 < length buf.new → IsTrue (gave_end self.new)) }
        ensures goes_on { (gave_end self.new ≡ gave_end self.old) ⊎ ((result ≡ Ok 0) × IsTrue (gave_end self.new)) }
        ensures failed { OnErr result (Rose (read_faults self.old) (read_faults self.new)) }
        ensures same_count { OnOk result (read_faults self.new ≡ read_faults self.old) }
        ensures count { read_faults self.old ≤ read_faults self.new }
        ensures counts { OnErr result (read_faults self.new ≡ raised (read_faults self.old)) }
        ensures reader { ReadsThrough R.remaining self.old self.new result buf.new }
    {
        match self.reader.read(buf) {
            Ok(n) => {
                if n == 0 && buf.len() > 0 {
                    self.ended = true;
                }
                Ok(n)
            }
            Err(_) => {
                self.faults = self.faults.saturating_add(1);
                Err(Failed)
            }
        }
    }
}

impl<W: Write> StdSink<W> {
    // The writer's part of a write: what it took is flushed. None where it failed, or took nothing
    // of a piece that isn't empty.
    fn write_through(&mut self, bytes: &[u8]) -> Option<usize>
        ensures bound { IfSome result (λ n. n ≤ length bytes.now) }
        ensures some { IfSome result (λ n. 0 < length bytes.now → 0 < n) }
        ensures writer { IfSome result (λ n. WritesThrough W.contents self.old self.new (take n bytes.now)) }
        ensures count { write_faults self.new ≡ write_faults self.old }
    {
        let n = self.writer.write(bytes).ok()?;
        self.writer.flush().ok()?;
        if n == 0 && bytes.len() > 0 {
            None
        } else {
            Some(n)
        }
    }
}

impl<W: Write> Sink for StdSink<W> {
    ghost written = { λ _. None };

    ghost faults = { λ s. write_faults s };

    // `Failed` comes where the writer or its flush failed, and where it took nothing of some bytes.
    fn write(&mut self, bytes: &[u8]) -> Result<usize, Failed>
        ensures bound { IfOk result (λ n. n ≤ length bytes.now) }
        ensures some { IfOk result (λ n. 0 < length bytes.now → 0 < n) }
        ensures failed { OnErr result (Rose (write_faults self.old) (write_faults self.new)) }
        ensures same_count { OnOk result (write_faults self.new ≡ write_faults self.old) }
        ensures count { write_faults self.old ≤ write_faults self.new }
        ensures counts { OnErr result (write_faults self.new ≡ raised (write_faults self.old)) }
        ensures writer { IfOk result (λ n. WritesThrough W.contents self.old self.new (take n bytes.now)) }
    {
        match self.write_through(bytes) {
            Some(n) => Ok(n),
            None => {
                self.faults = self.faults.saturating_add(1);
                Err(Failed)
            }
        }
    }
}
