//! A reader that keeps its last error, which those who read from it drop.

use std::io;
use std::io::Read;

/// A reader, and the error of its last call.
#[derive(Drop)]
pub(crate) struct Noted<R> {
    inner: R,
    error: Option<io::Error>,
}

impl<R> Noted<R> {
    /// A reader that hasn't failed yet.
    pub(crate) fn new(inner: R) -> Noted<R> {
        Noted { inner, error: None }
    }

    /// The error of its last call, if that failed.
    pub(crate) fn error(&self) -> Option<io::Error> {
        self.error
    }
}

impl<R: Read> Read for Noted<R> {
    fn read(&mut self, buf: &mut [u8]) -> io::Result<usize> {
        let answer = self.inner.read(buf);
        match answer {
            Ok(_) => self.error = None,
            Err(error) => self.error = Some(error),
        }
        answer
    }
}
