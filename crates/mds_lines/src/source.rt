//! Readers and writers as the crates above see them: with their bytes, and a count of failed calls.

ghost use Rattle.std.specs.Prelude.{◌≡◌, ◌≢◌, ◌+◌, ◌-◌, ◌^◌, ◌<◌, ℕ, List, length, Option, if◌then◌else◌, is_ok, IfOk, IfErr};
ghost use Rattle.std.specs.Io.{ReadsAtMost, WritesAtMost};
ghost use Rattle.std.specs.IoError.{error_kind};
ghost use Rattle.std.specs.Io.KnownBytes.{Consumes, ReadConsumes, WriteAppends};
ghost use Rattle.mds_lines.specs.Reads.{bytes_read};

use std::io;
use std::io::{ErrorKind, Read, Write};

/// A reader whose failed calls are counted.
pub trait Source {
    /// The bytes that it has not brought yet, if they are known.
    ghost remaining: { Self → Option (List ℕ) };

    /// How many of its calls have failed.
    ghost failures: { Self → ℕ };

    /// A call may bring these bytes, and leave the source like this. A failed call brings none. Several calls are `Reads` of it.
    ghost gives: { Self → List ℕ → Self → Type 0 };

    /// Reads some bytes to the start of the buffer, and returns how many. It returns 0 only at the end, or if the buffer is
    /// empty. A failed call reads none. An interrupted call doesn't count as failed.
    fn read(&mut self, buffer: &mut [u8]) -> io::Result<usize>
        requires { failures self.old < 2 ^ 64 - 1 }
        ensures bound { ReadsAtMost result buffer.new }
        ensures bytes { ReadConsumes (remaining self.old) (remaining self.new) result buffer.new }
        ensures gives { gives self.old (bytes_read result buffer.new) self.new }
        ensures retried { IfErr result (λ error. error_kind error ≢ ErrorKind.Interrupted) }
        ensures counted { failures self.new ≡ failures self.old + (if is_ok result then 0 else 1) };
}

/// A writer whose failed calls are counted.
pub trait Sink {
    /// The bytes that it holds, if they are known.
    ghost contents: { Self → Option (List ℕ) };

    /// How many of its calls have failed.
    ghost failures: { Self → ℕ };

    /// Writes some of the bytes, from the start, and returns how many. It returns 0 only if there are none. A failed call writes
    /// none. An interrupted call doesn't count as failed.
    fn write(&mut self, bytes: &[u8]) -> io::Result<usize>
        requires { failures self.old < 2 ^ 64 - 1 }
        ensures bound { WritesAtMost result bytes.now }
        ensures takes { 0 < length bytes.now → IfOk result (λ n. 0 < n) }
        ensures bytes { WriteAppends (contents self.old) (contents self.new) result bytes.now }
        ensures retried { IfErr result (λ error. error_kind error ≢ ErrorKind.Interrupted) }
        ensures counted { failures self.new ≡ failures self.old + (if is_ok result then 0 else 1) };
}

/// A `Source` over any reader, and a `Sink` over any writer. An interrupted call is repeated, up to 2^64 - 1 times.
#[derive(Drop)]
pub struct Counted<T> {
    inner: T,
    failures: u64,
}

impl<T> Counted<T> {
    ghost use Rattle.mds_lines.specs.Counted.{counted_inner, counted_failures};

    /// A reader or a writer that has had no failed call yet.
    pub fn new(inner: T) -> Counted<T>
        ensures inner { counted_inner result ≡ inner }
        ensures failures { counted_failures result ≡ 0 }
    {
        Counted { inner, failures: 0 }
    }

    /// How many calls have failed.
    pub fn failures(&self) -> u64
        ensures { result ≡ counted_failures self.now }
    {
        self.failures
    }
}

impl<T: Read> Source for Counted<T> {
    ghost remaining = { λ counted. T.remaining counted.inner };

    ghost failures = { λ counted. counted.failures };

    ghost gives = { λ old bytes new. Consumes (T.remaining old.inner) (T.remaining new.inner) bytes };

    fn read(&mut self, buffer: &mut [u8]) -> io::Result<usize> {
        for _ in 0..u64::MAX {
            match self.inner.read(buffer) {
                Ok(count) => return Ok(count),
                Err(error) if error.kind() == ErrorKind::Interrupted => {}
                Err(error) => {
                    self.failures += 1;
                    return Err(error);
                }
            }
        }
        self.failures += 1;
        Err(io::Error::from(ErrorKind::TimedOut))
    }
}

/// A borrowed source is a source. What is read from it is taken from the one that was lent.
impl<R: Source> Source for &mut R {
    ghost remaining = { λ lent. R.remaining lent.now };

    ghost failures = { λ lent. R.failures lent.now };

    ghost use Rattle.mds_lines.specs.Counted.{lent_gives};

    ghost gives = { lent_gives R.gives };

    fn read(&mut self, buffer: &mut [u8]) -> io::Result<usize> {
        Source::read(&mut **self, buffer)
    }
}

impl<T: Write> Sink for Counted<T> {
    ghost contents = { λ counted. T.contents counted.inner };

    ghost failures = { λ counted. counted.failures };

    fn write(&mut self, bytes: &[u8]) -> io::Result<usize> {
        for _ in 0..u64::MAX {
            match self.inner.write(bytes) {
                Ok(0) if !bytes.is_empty() => {
                    self.failures += 1;
                    return Err(io::Error::from(ErrorKind::WriteZero));
                }
                Ok(count) => return Ok(count),
                Err(error) if error.kind() == ErrorKind::Interrupted => {}
                Err(error) => {
                    self.failures += 1;
                    return Err(error);
                }
            }
        }
        self.failures += 1;
        Err(io::Error::from(ErrorKind::TimedOut))
    }
}
