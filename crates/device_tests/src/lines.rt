ghost use Rattle.std.specs.Prelude.{◌<◌};

use ev_io::{Failed, LineEnd, LineFault, Lines, MemSource, Source};
use std::alloc::{AllocError, Global};
use std::process::Abort;
use std::test::Fail;

// Reads lines up to another answer, which it gives twice, and puts the prefix of each after `all`,
// with a bar.
fn read_all<S: Source>(
    lines: &mut Lines,
    source: &mut S,
    all: &mut Vec<u8>,
) -> Result<[Result<LineEnd, LineFault>; 2], AllocError> {
    let mut line = Vec::new(*all.allocator());
    for _ in 0..300_000 {
        let answer = lines.read_line(source, &mut line);
        if answer != Ok(LineEnd::Line) {
            return Ok([answer, lines.read_line(source, &mut line)]);
        }
        all.extend_from_slice(&line[..line.len().min(8)])?;
        all.push(b'|')?;
    }
    Ok([Ok(LineEnd::Line); 2])
}

// The same by a reader of its own: how many lines there were, and the last two answers.
fn read_from<S: Source>(
    alloc: Global,
    source: &mut S,
    all: &mut Vec<u8>,
) -> Result<(u32, [Result<LineEnd, LineFault>; 2]), AllocError> {
    let mut lines = Lines::new(alloc)?;
    let answers = read_all(&mut lines, source, all);
    let number = lines.number();
    drop(lines);
    Ok((number, answers?))
}

const END: Result<LineEnd, LineFault> = Ok(LineEnd::End);

const FAILED: Result<LineEnd, LineFault> = Err(LineFault::Failed);

// A text, in pieces of how many bytes, the number of the read that fails;
// the lines before it, each with a bar, how many these are, and the last answer.
const PIECES: [(&str, usize, u64, &str, u32, Result<LineEnd, LineFault>); 15] = [
    ("", 1, 9, "", 0, END),
    ("\n", 1, 9, "|", 1, END),
    ("\r\n\n", 1, 9, "\r||", 2, END),
    ("ab\n\ncde\nf", 1, 99, "ab||cde|f|", 4, END),
    ("ab\n\ncde\nf", 3, 99, "ab||cde|f|", 4, END),
    ("ab\n\ncde\nf", 7, 99, "ab||cde|f|", 4, END),
    ("ab\n\ncde\nf", 65_536, 99, "ab||cde|f|", 4, END),
    ("ab\n\ncde\nf", 65_536, 2, "ab||cde|", 3, FAILED),
    ("ab\n\ncde\nf", 2, 1, "", 0, FAILED),
    ("ab\n\ncde\nf", 2, 2, "", 0, FAILED),
    ("ab\n\ncde\nf", 2, 3, "ab||", 2, FAILED),
    ("ab\n\ncde\nf", 2, 4, "ab||", 2, FAILED),
    ("ab\n\ncde\nf", 2, 5, "ab||cde|", 3, FAILED),
    ("ab\n\ncde\nf", 2, 6, "ab||cde|", 3, FAILED),
    ("ab\n\ncde\nf\n", 2, 7, "ab||cde|f|", 4, END),
];

// Asserts what is read of a text in pieces.
fn assert_pieces(
    rt: &impl Abort,
    alloc: Global,
    text: &str,
    piece: usize,
    failing: u64,
    want: (&str, u32, Result<LineEnd, LineFault>),
) -> Result<(), Fail>
    requires { 0 < piece }
{
    let fails = vec![in alloc; failing]?;
    let mut source = MemSource::new(text.as_bytes().to_vec(alloc)?, piece, fails);
    let mut all = Vec::new(alloc);
    let found = read_from(alloc, &mut source, &mut all);
    drop(source);
    let (number, answers) = found?;
    assert_eq!(rt;
        all.as_slice(),
        want.0.as_bytes(),
        "{text:?} by {piece}, read {failing} fails"
    );
    assert_eq!(rt;
        (number, answers),
        (want.1, [want.2; 2]),
        "{text:?} by {piece}, read {failing} fails"
    );
    Ok(())
}

/// Asserts that the same lines are read in pieces of each size, and those before each read that fails.
pub(crate) fn assert_lines(rt: &impl Abort, alloc: Global) -> Result<(), Fail> {
    for (text, piece, failing, all, number, answer) in PIECES {
        prove!(piece > 0);
        assert_pieces(rt, alloc, text, piece, failing, (all, number, answer))?;
    }
    Ok(())
}

// `total` bytes, the last of each `width` a line feed in the first `closed` lines.
#[derive(Drop)]
struct Stripes {
    at: u64,
    total: u64,
    width: u64,
    closed: u64,
    ended: bool,
}

impl Source for Stripes {
    ghost use Rattle.std.specs.Prelude.{None};

    ghost left = { λ _. None };

    ghost ended = { λ s. s.ended };

    ghost faults = { λ _. 0 };

    fn read(&mut self, buf: &mut [u8]) -> Result<usize, Failed> {
        let left = self.total.saturating_sub(self.at);
        let column = self.at.checked_rem(self.width).unwrap_or(0);
        let line = self.at.checked_div(self.width).unwrap_or(0);
        let to_feed = self.width.saturating_sub(column);
        let count = (buf.len() as u64).min(left).min(to_feed);
        buf.fill(b'a');
        if count == to_feed && line < self.closed {
            if let Some(last) = buf.get_mut((count as usize).saturating_sub(1)) {
                *last = b'\n';
            }
        }
        self.at = self.at.saturating_add(count);
        if count == 0 && buf.len() > 0 {
            self.ended = true;
        }
        Ok(count as usize)
    }
}

// How many bytes there are, in lines of which width, how many of these are closed;
// how many lines are read, and the last answer.
const LIMITS: [(u64, u64, u64, u32, Result<LineEnd, LineFault>); 10] = [
    (4_194_304, 4_194_305, 0, 1, END),
    (4_194_305, 4_194_305, 1, 1, END),
    (4_194_305, 4_194_305, 0, 0, Err(LineFault::TooLong)),
    (4_194_306, 4_194_306, 1, 0, Err(LineFault::TooLong)),
    (200_000, 1, 200_000, 200_000, END),
    (200_001, 1, 300_000, 200_000, Err(LineFault::TooMany)),
    (67_108_864, 1_048_576, 64, 64, END),
    (67_108_865, 1_048_576, 65, 64, Err(LineFault::TooLarge)),
    (67_108_865, 4_194_304, 15, 15, Err(LineFault::TooLarge)),
    (67_108_865, 4_194_304, 14, 14, Err(LineFault::TooLong)),
];

// Each limit, and one byte or line above it.
#[test]
fn tells_what_is_above_a_limit(rt: HostRuntime) -> Result<(), Fail> {
    for (total, width, closed, number, answer) in LIMITS {
        let mut source = Stripes {
            at: 0,
            total,
            width,
            closed,
            ended: false,
        };
        let mut all = Vec::new(rt.alloc());
        let found = read_from(rt.alloc(), &mut source, &mut all)?;
        assert_eq!(rt;
            found,
            (number, [answer; 2]),
            "{total} bytes, lines of {width}"
        );
    }
    Ok(())
}
