// Readers and writers that the system interrupts, and the arguments of a program.
use outside_core::{ReadAll, WriteFault, read_all, write_all};
use standard_streams::{ReaderSource, WriterSink, given_arguments};
use std::alloc::{AllocError, Global};
use std::env::{Env, FillError};
use std::io;
use std::io::{Error, ErrorKind, Read, Write};
use std::test::Fail;

// A reader and a writer that the system interrupts twice before each byte, and that then fails, if it is to.
#[derive(Drop)]
struct Interrupted {
    bytes: u8,
    calls: u8,
    fails: bool,
}

impl Interrupted {
    fn new(bytes: u8, fails: bool) -> Self {
        Interrupted {
            bytes,
            calls: 0,
            fails,
        }
    }

    // One call: whether there is a byte more.
    fn call(&mut self) -> io::Result<bool> {
        self.calls = self.calls.wrapping_add(1);
        if self.calls % 3 != 0 {
            return Err(Error::from(ErrorKind::Interrupted));
        }
        if self.bytes > 0 {
            self.bytes -= 1;
            return Ok(true);
        }
        if self.fails {
            Err(Error::from(ErrorKind::Other))
        } else {
            Ok(false)
        }
    }
}

impl Read for Interrupted {
    fn read(&mut self, buf: &mut [u8]) -> io::Result<usize> {
        if buf.is_empty() || !self.call()? {
            return Ok(0);
        }
        buf[0] = 7;
        Ok(1)
    }
}

impl Write for Interrupted {
    fn write(&mut self, buf: &[u8]) -> io::Result<usize> {
        if buf.is_empty() || !self.call()? {
            return Ok(0);
        }
        Ok(1)
    }

    fn flush(&mut self) -> io::Result<()> {
        Ok(())
    }
}

#[test]
fn an_interrupted_read_is_made_again(rt: HostRuntime) {
    let mut source = ReaderSource::new(Interrupted::new(3, false));
    assert!(rt;
        matches!(read_all(rt.alloc(), &mut source, 10), Ok(read) if read.as_slice() == [7, 7, 7].as_slice())
    );
    let mut source = ReaderSource::new(Interrupted::new(3, true));
    assert!(rt;
        matches!(
            read_all(rt.alloc(), &mut source, 10),
            Err(ReadAll::ReadFault)
        )
    );
}

#[test]
fn an_interrupted_write_is_made_again(rt: HostRuntime) {
    let mut sink = WriterSink::new(Interrupted::new(3, false));
    assert!(rt; write_all(&mut sink, &[1, 2, 3]) == Ok(()));
    // Nothing is taken of a byte, or the write fails.
    for fails in [false, true] {
        let mut sink = WriterSink::new(Interrupted::new(3, fails));
        assert!(rt; write_all(&mut sink, &[1, 2, 3, 4]) == Err(WriteFault { written: 3 }));
    }
}

// What a program is started with.
#[derive(Drop)]
struct Line<'a> {
    arguments: &'a [&'a [u8]],
}

impl Env for Line<'_> {
    fn arg(&self, i: usize, buf: &mut [u8]) -> Result<usize, FillError> {
        let Some(argument) = self.arguments.get(i) else {
            return Err(FillError::NotPresent);
        };
        if argument.len() > buf.len() {
            return Err(FillError::TooLong);
        }
        buf[..argument.len()].copy_from_slice(argument);
        Ok(argument.len())
    }

    fn var(&self, _name: &str, _buf: &mut [u8]) -> Result<usize, FillError> {
        Err(FillError::NotPresent)
    }

    fn var_at(&self, _i: usize, _buf: &mut [u8]) -> Result<usize, FillError> {
        Err(FillError::NotPresent)
    }
}

const LONGEST: &[u8] = &[b'8'; 64];

const LONGER: &[u8] = &[b'8'; 65];

// An argument, and what is read of it: another one if it has more than 64 bytes, or is no text.
const ARGUMENTS: &[(&[u8], &[u8])] = &[
    (b"encode", b"encode"),
    (b"--segments", b"--segments"),
    (b"", b""),
    (LONGEST, LONGEST),
    (LONGER, b""),
    (b"8\xe9", b"8\xef\xbf\xbd"),
    (b"--", b"--"),
];

#[test]
fn arguments_of_a_line(rt: HostRuntime) -> Result<(), Fail> {
    for (given, read) in ARGUMENTS {
        assert!(rt; is_given(rt.alloc(), given, read)?, "{given:?}");
    }
    Ok(())
}

// Whether the first of two arguments after the program's path is read like this, and the last as it is.
fn is_given(alloc: Global, given: &[u8], read: &[u8]) -> Result<bool, AllocError> {
    let line = Line {
        arguments: &[b"/usr/bin/caf\xe9", given, b"last"],
    };
    let arguments = given_arguments(&line, alloc)?;
    Ok(
        arguments.len() == 3
            && arguments[0].as_str() == "lepton"
            && arguments[1].as_bytes() == read
            && arguments[2].as_str() == "last",
    )
}
