//! Streams that fail.

use std::alloc::Global;
use std::io;
use std::io::{Read, Write};

/// Gives a script a byte at a time, and fails at a call.
#[derive(Drop)]
pub struct FailingReader {
    script: &'static [u8],
    calls: usize,
    fails_at: usize,
    kind: io::ErrorKind,
}

impl FailingReader {
    pub fn new(script: &'static [u8], fails_at: usize, kind: io::ErrorKind) -> FailingReader {
        FailingReader {
            script,
            calls: 0,
            fails_at,
            kind,
        }
    }
}

impl Read for FailingReader {
    fn read(&mut self, buf: &mut [u8]) -> io::Result<usize> {
        let call = self.calls;
        self.calls = call.saturating_add(1);
        if call == self.fails_at {
            return Err(io::Error::from(self.kind));
        }
        if call < self.script.len() && !buf.is_empty() {
            buf[0] = self.script[call];
            return Ok(1);
        }
        Ok(0)
    }
}

/// Takes some bytes, and then fails or takes no more.
#[derive(Drop)]
pub struct FullWriter {
    pub written: Vec<u8>,
    room: usize,
    fails: bool,
}

impl FullWriter {
    pub fn new(alloc: Global, room: usize, fails: bool) -> FullWriter {
        FullWriter {
            written: Vec::new(alloc),
            room,
            fails,
        }
    }
}

impl Write for FullWriter {
    fn write(&mut self, buf: &[u8]) -> io::Result<usize> {
        if self.written.len() < self.room && !buf.is_empty() {
            self.written.push(buf[0])?;
            return Ok(1);
        }
        if self.fails {
            Err(io::Error::from(io::ErrorKind::Other))
        } else {
            Ok(0)
        }
    }

    fn flush(&mut self) -> io::Result<()> {
        Ok(())
    }
}

/// Takes all bytes, and then fails to pass them on.
#[derive(Drop)]
pub struct StuckWriter {
    pub written: Vec<u8>,
}

impl StuckWriter {
    pub fn new(alloc: Global) -> StuckWriter {
        StuckWriter {
            written: Vec::new(alloc),
        }
    }
}

impl Write for StuckWriter {
    fn write(&mut self, buf: &[u8]) -> io::Result<usize> {
        self.written.extend_from_slice(buf)?;
        Ok(buf.len())
    }

    fn flush(&mut self) -> io::Result<()> {
        Err(io::Error::from(io::ErrorKind::Other))
    }
}
