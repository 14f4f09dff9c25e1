//! A text in memory as a source.

ghost use Rattle.std.specs.Prelude.{◌≡◌};

use crate::source::Source;
use std::io;

/// A source that is a text in memory. It never fails.
#[derive(Drop)]
pub struct TextSource<'a> {
    /// The part that was not read yet.
    left: &'a [u8],
}

impl<'a> TextSource<'a> {
    ghost use Rattle.mds_lines.specs.TextLeft.{text_left};

    /// A source of this text.
    pub fn new(text: &'a [u8]) -> TextSource<'a>
        ensures { text_left result ≡ text.now }
    {
        TextSource { left: text }
    }
}

impl<'a> Source for TextSource<'a> {
    ghost use Rattle.std.specs.Prelude.{Some, ◌++◌};
    ghost use Rattle.mds_lines.specs.TextLeft.{text_left};

    ghost remaining = { λ source. Some (text_left source) };

    ghost failures = { λ source. 0 };

    ghost gives = { λ old bytes new. text_left old ≡ bytes ++ text_left new };

    fn read(&mut self, buffer: &mut [u8]) -> io::Result<usize> {
        let count = self.left.len().min(buffer.len());
        let (front, rest) = self.left.split_at(count);
        buffer[..count].copy_from_slice(front);
        self.left = rest;
        Ok(count)
    }
}
