//! Readers and writers that are slow or fail.

use std::io;
use std::io::{ErrorKind, Read, Write};

/// A reader or a writer that takes at most `step` bytes in each call, and fails after some calls.
#[derive(Drop)]
pub(super) struct Failing<T> {
    pub(super) inner: T,
    pub(super) step: usize,
    pub(super) calls: usize,
}

impl<T> Failing<T> {
    fn begin(&mut self) -> io::Result<()> {
        match self.calls.checked_sub(1) {
            Some(calls) => self.calls = calls,
            None => return Err(io::Error::from(ErrorKind::Other)),
        }
        Ok(())
    }
}

impl<T: Read> Read for Failing<T> {
    fn read(&mut self, buf: &mut [u8]) -> io::Result<usize> {
        self.begin()?;
        let end = buf.len().min(self.step);
        self.inner.read(&mut buf[..end])
    }
}

impl<T: Write> Write for Failing<T> {
    fn write(&mut self, buf: &[u8]) -> io::Result<usize> {
        self.begin()?;
        self.inner.write(&buf[..buf.len().min(self.step)])
    }

    fn flush(&mut self) -> io::Result<()> {
        Ok(())
    }
}
