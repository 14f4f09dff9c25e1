//! Readers and writers that are slow, and stop after some calls.

use crate::pieces::next_number;
use std::io;
use std::io::{ErrorKind, Read, Write};

/// How a reader or a writer is limited.
#[derive(Clone, Copy)]
pub struct Limit {
    /// The most bytes of a call.
    step: u32,
    /// How many calls succeed in that way.
    calls: u32,
    /// Whether each further call fails. Else it takes no byte.
    fails: bool,
}

impl Limit {
    /// The limit at the front of a list, and what follows it. It has three numbers. The last one is 0 if no call fails.
    pub fn read(list: &[u8]) -> Option<(Limit, &[u8])> {
        let (step, behind) = next_number(list)?;
        let (calls, behind) = next_number(behind)?;
        let (fails, behind) = next_number(behind)?;
        let limit = Limit {
            step,
            calls,
            fails: fails != 0,
        };
        Some((limit, behind))
    }

    /// The most bytes of the next call.
    fn next(&mut self) -> io::Result<usize> {
        match self.calls.checked_sub(1) {
            Some(calls) => {
                self.calls = calls;
                Ok(self.step as usize)
            }
            None if self.fails => Err(io::Error::from(ErrorKind::Other)),
            None => Ok(0),
        }
    }
}

/// A reader or a writer with a limit.
#[derive(Drop)]
pub struct Limited<T> {
    pub inner: T,
    pub limit: Limit,
}

impl<T: Read> Read for Limited<T> {
    fn read(&mut self, buf: &mut [u8]) -> io::Result<usize> {
        let end = self.limit.next()?.min(buf.len());
        self.inner.read(&mut buf[..end])
    }
}

impl<T: Write> Write for Limited<T> {
    fn write(&mut self, buf: &[u8]) -> io::Result<usize> {
        let end = self.limit.next()?.min(buf.len());
        self.inner.write(&buf[..end])
    }

    fn flush(&mut self) -> io::Result<()> {
        Ok(())
    }
}
