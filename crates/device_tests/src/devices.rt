use crate::lines::assert_lines;
use ev_io::{Failed, MemSink, MemSource, Sink, Source, StdSink, StdSource, write_all};
use std::alloc::Global;
use std::io;
use std::io::{Read, Write};
use std::process::Abort;
use std::test::Fail;

// The answers of five reads of three bytes: the count, or none where the read failed.
fn assert_reads(rt: &impl Abort, alloc: Global) -> Result<(), Fail> {
    let bytes = b"abcde".to_vec(alloc)?;
    let mut source = MemSource::new(bytes, 3, vec![in alloc; 2, 4]?);
    let mut buf = [b'-'; 4];
    let wants = [
        (Ok(3), b"abc-"),
        (Err(Failed), b"abc-"),
        (Ok(2), b"dec-"),
        (Err(Failed), b"dec-"),
        (Ok(0), b"dec-"),
    ];
    for (want, left) in wants {
        assert_eq!(rt; source.read(&mut buf), want);
        assert_eq!(rt; buf.as_slice(), left.as_slice());
    }
    Ok(())
}

// The answers of writes of at most four bytes, of which the second fails, into room for six.
fn assert_writes(rt: &impl Abort, alloc: Global) -> Result<(), Fail> {
    let mut sink = MemSink::new(alloc, 6, 4, vec![in alloc; 2]?)?;
    let wants = [
        (Ok(4), "abcd"),
        (Err(Failed), "abcd"),
        (Ok(2), "abcdab"),
        (Err(Failed), "abcdab"),
    ];
    for (want, written) in wants {
        assert_eq!(rt; sink.write(b"abcdef"), want);
        assert_eq!(rt; sink.as_bytes(), written.as_bytes());
    }
    assert_eq!(rt; sink.write(b""), Ok(0));
    Ok(())
}

// A text is written whole, or a prefix of it where a write fails.
fn assert_writes_all(rt: &impl Abort, alloc: Global) -> Result<(), Fail> {
    let text = b"{\"format\":1}";
    let mut sink = MemSink::new(alloc, 100, 10, vec![in alloc; 2]?)?;
    assert_eq!(rt; write_all(&mut sink, text), Err(Failed));
    assert_eq!(rt; sink.as_bytes(), b"{\"format\":".as_slice());
    assert_eq!(rt; write_all(&mut sink, text), Ok(()));
    assert_eq!(rt; sink.as_bytes(), b"{\"format\":{\"format\":1}".as_slice());
    Ok(())
}

// Fails at its first call, takes nothing at its second, and counts the flushes.
#[derive(Drop)]
struct Device {
    calls: u8,
    flushes: u8,
}

impl Read for &mut Device {
    fn read(&mut self, buf: &mut [u8]) -> io::Result<usize> {
        self.calls = self.calls.saturating_add(1);
        if self.calls == 1 {
            return Err(io::Error::from(io::ErrorKind::Interrupted));
        }
        buf.fill(7);
        Ok(buf.len())
    }
}

impl Write for &mut Device {
    fn write(&mut self, buf: &[u8]) -> io::Result<usize> {
        self.calls = self.calls.saturating_add(1);
        match self.calls {
            1 => Err(io::Error::from(io::ErrorKind::BrokenPipe)),
            2 => Ok(0),
            _ => Ok(buf.len()),
        }
    }

    fn flush(&mut self) -> io::Result<()> {
        self.flushes = self.flushes.saturating_add(1);
        Ok(())
    }
}

// A stream's failures are failures, and what it takes is taken.
fn assert_adapts(rt: &impl Abort) {
    let mut device = Device {
        calls: 0,
        flushes: 0,
    };
    let mut buf = [0; 3];
    let mut source = StdSource::new(&mut device);
    assert_eq!(rt; source.read(&mut buf), Err(Failed));
    assert_eq!(rt; source.read(&mut buf), Ok(3));
    assert_eq!(rt; buf, [7; 3]);

    let mut device = Device {
        calls: 0,
        flushes: 0,
    };
    let mut sink = StdSink::new(&mut device);
    assert_eq!(rt; sink.write(b"ab"), Err(Failed));
    assert_eq!(rt; sink.write(b"ab"), Err(Failed));
    assert_eq!(rt; sink.write(b"ab"), Ok(2));
    assert_eq!(rt; device.flushes, 2);
}

#[test]
fn devices_and_lines_in_pieces(rt: HostRuntime) -> Result<(), Fail> {
    assert_reads(&rt, rt.alloc())?;
    assert_writes(&rt, rt.alloc())?;
    assert_writes_all(&rt, rt.alloc())?;
    assert_adapts(&rt);
    assert_lines(&rt, rt.alloc())
}
