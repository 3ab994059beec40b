//! A reader and a writer that fail.

use std::io;
use std::io::{ErrorKind, Read, Write};

/// Gives what it has as fast as it is taken, and fails at the call after `calls` others.
#[derive(Drop)]
pub(super) struct FailingReader<'a> {
    pub(super) rest: &'a [u8],
    pub(super) calls: u32,
}

impl Read for FailingReader<'_> {
    fn read(&mut self, buf: &mut [u8]) -> io::Result<usize> {
        if self.calls == 0 {
            return Err(io::Error::from(ErrorKind::Interrupted));
        }
        self.calls -= 1;
        self.rest.read(buf)
    }
}

/// Takes nothing: each write fails.
#[derive(Drop)]
pub(super) struct Full;

impl Write for Full {
    fn write(&mut self, _buf: &[u8]) -> io::Result<usize> {
        Err(io::Error::from(ErrorKind::Other))
    }

    fn flush(&mut self) -> io::Result<()> {
        Ok(())
    }
}
