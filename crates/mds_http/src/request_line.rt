//! The first line of a request, for the log.

use std::fmt;
use std::fmt::{Display, Formatter, Write};

/// How many bytes of the line are kept.
const LONGEST: usize = 512;

/// The first line of a request, as far as it came. It is kept up to a limit, without its end.
#[derive(Clone, Copy)]
pub(crate) struct RequestLine {
    bytes: [u8; LONGEST],
    length: usize,
    is_whole: bool,
}

impl RequestLine {
    /// An empty line.
    pub(crate) fn new() -> RequestLine {
        RequestLine {
            bytes: [0; LONGEST],
            length: 0,
            is_whole: false,
        }
    }

    /// Takes what came of a request. Line ends before its first line are ignored.
    pub(crate) fn take(&mut self, bytes: &[u8]) {
        for byte in bytes {
            if self.is_whole {
                return;
            }
            match *byte {
                b'\r' | b'\n' if self.length == 0 => (),
                b'\n' => self.is_whole = true,
                other => self.push(other),
            }
        }
    }

    /// Keeps a byte, if there is room for it.
    fn push(&mut self, byte: u8) {
        if self.length < LONGEST {
            self.bytes[self.length] = byte;
            self.length += 1;
        }
    }

    /// The bytes that are kept, without a carriage return at their end.
    fn shown(&self) -> &[u8] {
        let kept = &self.bytes[..self.length.min(LONGEST)];
        match kept {
            [front @ .., b'\r'] if self.is_whole => front,
            _ => kept,
        }
    }
}

/// Shows printable ASCII as it is, and a quote, a backslash and any other byte as `\x22`. If nothing came it shows `-`.
impl Display for RequestLine {
    fn fmt<W: Write>(&self, f: &mut Formatter<W>) -> fmt::Result {
        if self.length == 0 {
            return f.write_str("-");
        }
        for byte in self.shown() {
            match *byte {
                b'"' | b'\\' => write!(f, "\\x{:02x}", *byte)?,
                b' '..=b'~' => f.write_char(char::from(*byte))?,
                other => write!(f, "\\x{:02x}", other)?,
            }
        }
        Ok(())
    }
}
