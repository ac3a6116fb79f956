// What no clause says: that the calls succeed with ample memory, and what the adapters make of real readers and
// writers and of failing ones.
use mp_base::Bytes;
use mp_edge::{
    Got, MemSink, MemSource, Put, Sink, Source, StdSink, StdSource, WriteFailed, write_all,
};
use std::io::{self, ErrorKind, Read, Write};
use std::test::Fail;

// Fails at its first calls, and then gives or takes one byte at a time.
#[derive(Drop)]
struct Faulty {
    failing: u32,
    kind: ErrorKind,
    calls: u32,
    bytes: Vec<u8>,
}

impl Faulty {
    fn fails(&mut self) -> bool {
        self.calls = self.calls.saturating_add(1);
        self.calls <= self.failing
    }
}

impl Read for Faulty {
    fn read(&mut self, buf: &mut [u8]) -> io::Result<usize> {
        if self.fails() {
            return Err(io::Error::from(self.kind));
        }
        if buf.is_empty() {
            return Ok(0);
        }
        buf[0] = b'x';
        Ok(1)
    }
}

impl Write for Faulty {
    fn write(&mut self, buf: &[u8]) -> io::Result<usize> {
        if self.fails() {
            return Err(io::Error::from(self.kind));
        }
        if buf.is_empty() {
            return Ok(0);
        }
        self.bytes.push(buf[0])?;
        Ok(1)
    }

    fn flush(&mut self) -> io::Result<()> {
        Ok(())
    }
}

#[test]
fn pieces_are_given_one_after_another(rt: HostRuntime) -> Result<(), Fail> {
    let mut pieces = Vec::new(rt.alloc());
    for piece in ["", "ab", "", "cde"] {
        pieces.push(Bytes::of(rt.alloc(), piece.as_bytes())?)?;
    }
    let mut source = MemSource::new(rt.alloc(), pieces, vec![in rt.alloc(); 2, 9]?)?;
    let mut buf = [0u8; 2];
    for (read, want, bytes) in [
        (1, Got::Bytes(2), "ab"),
        (2, Got::Failed, "ab"),
        (3, Got::Bytes(2), "cd"),
        (4, Got::Bytes(1), "ed"),
        (5, Got::End, "ed"),
        (6, Got::End, "ed"),
    ] {
        let got = source.read(&mut buf);
        assert_eq!(rt;
            (got, buf.as_slice()),
            (want, bytes.as_bytes()),
            "read {read}"
        );
    }
    Ok(())
}

#[test]
fn a_sink_in_memory_tells_its_bytes(rt: HostRuntime) -> Result<(), Fail> {
    let mut sink = MemSink::new(rt.alloc(), vec![in rt.alloc(); 2]?)?;
    for (write, piece, want) in [
        (1, "ab", Put::Took(2)),
        (2, "xyz", Put::Failed),
        (3, "", Put::Took(0)),
        (4, "cde", Put::Took(3)),
    ] {
        assert_eq!(rt; sink.write(piece.as_bytes()), want, "write {write}");
    }
    assert_eq!(rt; sink.bytes(), Some(b"abcde".as_slice()));
    Ok(())
}

#[test]
fn a_reader_in_memory_is_read_to_its_end(rt: HostRuntime) {
    let mut source = StdSource::new(b"abc".as_slice());
    let mut buf = [0u8; 2];
    for (read, want, bytes) in [
        (1, Got::Bytes(2), "ab"),
        (2, Got::Bytes(1), "cb"),
        (3, Got::End, "cb"),
    ] {
        assert_eq!(rt; source.read(&mut buf), want, "read {read}");
        assert_eq!(rt; buf.as_slice(), bytes.as_bytes(), "read {read}");
    }
}

#[test]
fn interrupted_reads_are_tried_again(rt: HostRuntime) {
    for (failing, kind, want, calls) in [
        (0, ErrorKind::Interrupted, Got::Bytes(1), 1),
        (2, ErrorKind::Interrupted, Got::Bytes(1), 3),
        (15, ErrorKind::Interrupted, Got::Bytes(1), 16),
        (16, ErrorKind::Interrupted, Got::Failed, 16),
        (1, ErrorKind::WouldBlock, Got::Failed, 1),
    ] {
        let bytes = Vec::new(rt.alloc());
        let mut reader = Faulty {
            failing,
            kind,
            calls: 0,
            bytes,
        };
        let mut buf = [0u8; 4];
        let got = StdSource::new(&mut reader).read(&mut buf);
        assert_eq!(rt; (got, reader.calls), (want, calls), "{failing} failing");
    }
}

#[test]
fn all_bytes_are_written(rt: HostRuntime) {
    for (failing, kind, want, calls, written) in [
        (0, ErrorKind::Interrupted, Ok(()), 3, "abc"),
        (15, ErrorKind::Interrupted, Ok(()), 18, "abc"),
        (16, ErrorKind::Interrupted, Err(WriteFailed), 16, ""),
        (1, ErrorKind::BrokenPipe, Err(WriteFailed), 1, ""),
    ] {
        let bytes = Vec::new(rt.alloc());
        let mut writer = Faulty {
            failing,
            kind,
            calls: 0,
            bytes,
        };
        let made = write_all(&mut StdSink::new(&mut writer), b"abc");
        let found = (made, writer.calls, writer.bytes.as_slice());
        assert_eq!(rt;
            found,
            (want, calls, written.as_bytes()),
            "{failing} failing"
        );
    }
}

#[test]
fn a_full_writer_fails(rt: HostRuntime) {
    let mut room = [0u8; 2];
    let mut sink = StdSink::new(room.as_mut_slice());
    for (write, want) in [(1, Put::Took(2)), (2, Put::Failed)] {
        assert_eq!(rt; sink.write(b"abc"), want, "write {write}");
    }
}
