//! A source whose calls are interrupted.

use mds_lines::{Counted, Source};
use std::io;
use std::io::{ErrorKind, Read};

/// A reader whose first calls are interrupted, as many as it says.
#[derive(Drop)]
struct Interrupted(u64);

impl Read for Interrupted {
    fn read(&mut self, buf: &mut [u8]) -> io::Result<usize> {
        match self.0.checked_sub(1) {
            Some(left) => {
                self.0 = left;
                Err(io::Error::from(ErrorKind::Interrupted))
            }
            None => Ok(buf.len().min(1)),
        }
    }
}

/// An interrupted call is made again, and doesn't count as failed.
#[test]
fn interrupted_calls_are_made_again(rt: HostRuntime) {
    let mut source = Counted::new(Interrupted(1_000));
    let mut slots = [0; 2];
    assert_eq!(rt; source.read(&mut slots).ok(), Some(1));
    assert_eq!(rt; source.failures(), 0);
}
