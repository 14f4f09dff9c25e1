//! The lines of a source, one after the other, in one buffer.

ghost use Rattle.std.specs.Prelude.{◌≢◌, Err, IfSome, ◌≡◌, ◌+◌, ◌-◌, ◌^◌, ◌<◌, ◌≤◌, ℕ, List, length, Some, None, true, false, IfOk, IfErr, ◌⊎◌, if◌then◌else◌, is_ok, slice_range};
ghost use Rattle.mds_lines.specs.Lines.{line_text, longest_line, most_lines};
ghost use Rattle.mds_lines.specs.Numbered.{number_of, text_of};

use crate::line::Line;
use crate::source::Source;
use memchr::memchr;
use std::alloc::{AllocError, Global};
use std::cmp::min;
use std::marker::Model;

/// Why there is no next line.
#[derive(Clone, Copy, Debug, PartialEq, Eq)]
pub enum LineFault {
    /// The source failed.
    Read,
    /// The line with this number has more than 16,384 bytes before its line feed, or its number is above 1,000,000
    /// (L10).
    TooLarge(u64),
}

impl LineFault {
    ghost use Rattle.std.specs.Prelude.{IsTrue, ◌↔◌};
    ghost use Rattle.mds_lines.specs.declared.reader.LineFault.{LineFault as AFault};

    /// A law: `==` says whether two faults are the same.
    pub fn one_equality()
        ensures { (a b : AFault) → IsTrue (⟦<LineFault as PartialEq>⟧.eq a b) ↔ (a ≡ b) }
    {}
}

/// The most bytes of a line before its line feed (L10).
const LONGEST_LINE: usize = 16_384;

/// The most lines of a file (L10).
const MOST_LINES: u64 = 1_000_000;

/// How many bytes are read at a time: many lines.
const BLOCK: usize = 1 << 17;

/// All the memory that a reader of lines needs.
#[derive(Drop)]
pub struct LineBuffer {
    bytes: Vec<u8>,
    start: usize,
    end: usize,
    piece_start: usize,
    piece_end: usize,
    number: u64,
    is_ended: bool,
    fault: Option<LineFault>,
}

impl Model for LineBuffer {
    ghost use Rattle.std.specs.Prelude.{◌≡◌, ◌≤◌, slice_range, vec_len};
    ghost use Rattle.mds_lines.specs.Buffered.{Buffered};
    ghost use Rattle.mds_lines.specs.Lines.{most_lines};
    ghost use Rattle.mds_lines.specs.Reads.{block};

    ghost Value = { Buffered };

    ghost view = { λ b. record {
      pending = slice_range b.bytes.items b.start b.end;
      is_ended = b.is_ended;
      piece = slice_range b.bytes.items b.piece_start b.piece_end;
      number = b.number;
      fault = b.fault;
    } };

    ghost invariant = { λ b. (vec_len b.bytes ≡ block) × (b.start ≤ b.end) × (b.end ≤ block)
        × (b.piece_start ≤ b.piece_end) × (b.piece_end ≤ block) × (b.number ≤ most_lines) };
}

impl LineBuffer {
    ghost use Rattle.mds_lines.specs.Buffered.{nothing_read, text_left, IsTooLarge, IsOverLimit, Takes};
    ghost use Rattle.mds_lines.specs.Reads.{block};
    ghost use Rattle.mds_lines.specs.BufferedSteps.{is_found, Finds, KeepsLeft, Reaches, TakesPiece, Fills, Gathers};

    /// A buffer for a source that nothing was read from yet: 131,072 bytes.
    pub fn new(alloc: Global) -> Result<LineBuffer, AllocError>
        ensures { IfOk result (λ buffer. buffer ≡ nothing_read) }
    {
        Ok(LineBuffer {
            bytes: vec![in alloc; 0; BLOCK]?,
            start: 0,
            end: 0,
            piece_start: 0,
            piece_end: 0,
            number: 0,
            is_ended: false,
            fault: None,
        })
    }

    /// Moves on to the next line, and returns whether there is one. After a fault it returns the same fault again.
    fn advance<R: Source>(&mut self, source: &mut R) -> Result<bool, LineFault>
        requires { R.failures source.old < 2 ^ 64 - 1 }

        ensures next { Finds result self.old self.new (R.remaining source.old) (R.remaining source.new) }

        // After `TooLarge` a line is too large. After `Read` the source has failed.
        ensures too_large { (number : ℕ) → result ≡ Err (LineFault.TooLarge number) → self.old.fault ≡ None
            → IsTooLarge self.old self.new
            (text_left self.old (R.remaining source.old)) (text_left self.new (R.remaining source.new)) number }
        ensures read { result ≡ Err LineFault.Read → self.old.fault ≡ None
            → R.failures source.new ≡ R.failures source.old + 1 }
        ensures no_failure { result ≢ Err LineFault.Read → R.failures source.new ≡ R.failures source.old }

        // Each read was needed. The bytes it brought are part of the line, or in hand.
        ensures takes { Takes R.gives source.old source.new self.old self.new (is_found result) }

        // A fault leaves the number, and is returned again.
        ensures kept { IfErr result (λ fault. (self.new.fault ≡ Some fault) × (self.new.number ≡ self.old.number)) }
        ensures again { IfSome self.old.fault (λ fault. (result ≡ Err fault)
            × (self.new ≡ self.old) × (source.new ≡ source.old)) }
    {
        if let Some(fault) = self.fault {
            return Err(fault);
        }
        let found = self.find_line(source);
        if let Err(fault) = found {
            self.fault = Some(fault);
        }
        found
    }

    /// The line that it moved on to last.
    fn line(&self) -> Line<'_>
        ensures number { number_of result ≡ self.now.number }
        ensures text { text_of result ≡ line_text self.now.piece }
    {
        Line::new(self.number, &self.bytes[self.piece_start..self.piece_end])
    }

    /// Does what `advance` does if no fault was returned yet, but doesn't keep the fault.
    fn find_line<R: Source>(&mut self, source: &mut R) -> Result<bool, LineFault>
        requires { R.failures source.old < 2 ^ 64 - 1 }
        ensures next { self.old.fault ≡ None
            → Finds result self.old self.new (R.remaining source.old) (R.remaining source.new) }
        ensures too_large { (number : ℕ) → result ≡ Err (LineFault.TooLarge number)
            → (number ≡ self.old.number + 1)
            × IfSome (text_left self.old (R.remaining source.old)) (IsOverLimit number)
            × KeepsLeft self.old self.new (R.remaining source.old) (R.remaining source.new) }
        ensures read { result ≡ Err LineFault.Read → R.failures source.new ≡ R.failures source.old + 1 }
        ensures no_failure { result ≢ Err LineFault.Read → R.failures source.new ≡ R.failures source.old }
        ensures takes { Takes R.gives source.old source.new self.old self.new (is_found result) }
        ensures kept { IfErr result (λ _. self.new.number ≡ self.old.number) }
    {
        let size = self.piece_size(source)?;
        if self.start == self.end {
            return Ok(false);
        }
        self.take_piece(size)
    }

    /// Reads on until the pending bytes hold the next piece, or too long a part of it. Returns the length.
    fn piece_size<R: Source>(&mut self, source: &mut R) -> Result<usize, LineFault>
        requires { R.failures source.old < 2 ^ 64 - 1 }
        ensures reaches { IfOk result (λ n. Reaches self.new n) }
        ensures left { IfOk result (λ _. KeepsLeft self.old self.new (R.remaining source.old) (R.remaining source.new)) }
        ensures kept { (self.new.number ≡ self.old.number) × (self.new.fault ≡ self.old.fault) }
        ensures gathers { Gathers R.gives source.old source.new self.old self.new }
        ensures err { IfErr result (λ fault. fault ≡ LineFault.Read) }
        ensures counted { R.failures source.new ≡ R.failures source.old + (if is_ok result then 0 else 1) }
    {
        let mut seen = 0;
        loop {
            let pending = self.pending();
            if let Some(more) = memchr(b'\n', &pending[seen..]) {
                return Ok(seen + more);
            }
            seen = pending.len();
            if seen > LONGEST_LINE || self.is_ended {
                return Ok(seen);
            }
            self.fill(source)?;
        }
    }

    /// The bytes that came from the source and weren't returned yet.
    fn pending(&self) -> &[u8]
        ensures value { result.now ≡ self.now.pending }
        ensures held { length self.now.pending ≤ block }
    {
        &self.bytes[self.start..self.end]
    }

    /// Takes the piece of `size` pending bytes, and the line feed after it, if one is there. It refuses a piece that is
    /// too long, or a number that is too great (L10).
    fn take_piece(&mut self, size: usize) -> Result<bool, LineFault>
        requires { size ≤ length self.old.pending }
        ensures ok { IfOk result (λ found. (found ≡ true) × TakesPiece self.old self.new size) }
        ensures err { IfErr result (λ fault. (fault ≡ LineFault.TooLarge (self.old.number + 1))
            × ((longest_line < size) ⊎ (most_lines < self.old.number + 1))) }
        ensures kept { IfErr result (λ _. self.new ≡ self.old) }
    {
        let number = self.number + 1;
        if size > LONGEST_LINE || number > MOST_LINES {
            return Err(LineFault::TooLarge(number));
        }
        self.number = number;
        self.piece_start = self.start;
        self.piece_end = self.start + size;
        self.start = min(self.piece_end + 1, self.end);
        Ok(true)
    }

    /// Reads more after the pending bytes. If there is no room after them, it moves them to the front first.
    fn fill<R: Source>(&mut self, source: &mut R) -> Result<(), LineFault>
        requires failures { R.failures source.old < 2 ^ 64 - 1 }
        requires room { length self.old.pending ≤ longest_line }
        requires goes_on { self.old.is_ended ≡ false }
        ensures fills { Fills R.gives source.old source.new self.old self.new (is_ok result) }
        ensures held { length self.new.pending ≤ block }
        ensures kept { (self.new.number ≡ self.old.number) × (self.new.fault ≡ self.old.fault) }
        ensures left { IfOk result (λ _. KeepsLeft self.old self.new (R.remaining source.old) (R.remaining source.new)) }
        ensures err { IfErr result (λ fault. fault ≡ LineFault.Read) }
        ensures counted { R.failures source.new ≡ R.failures source.old + (if is_ok result then 0 else 1) }
    {
        let (start, end) = with_room(&mut self.bytes, self.start, self.end);
        self.start = start;
        self.end = end;
        match source.read(&mut self.bytes[self.end..]) {
            Ok(count) => {
                self.end += count;
                self.is_ended = count == 0;
                Ok(())
            }
            Err(_) => Err(LineFault::Read),
        }
    }
}

/// Moves the bytes of a range to the front if there is no room after them. Returns where they are then.
fn with_room(bytes: &mut [u8], start: usize, end: usize) -> (usize, usize)
    requires ordered { start ≤ end }
    requires within { end ≤ length bytes.old }
    requires smaller { end - start < length bytes.old }
    ensures ordered { result.0 ≤ result.1 }
    ensures room { result.1 < length bytes.new }
    ensures kept { slice_range bytes.new result.0 result.1 ≡ slice_range bytes.old start end }
{
    if end < bytes.len() {
        return (start, end);
    }
    bytes.copy_within(start..end, 0);
    (0, end - start)
}

/// The lines of a source, owned or borrowed.
#[derive(Drop)]
pub struct LineReader<R> {
    source: R,
    lines: LineBuffer,
}

impl<R: Source> LineReader<R> {
    ghost use Rattle.std.specs.Prelude.{⊤};
    ghost use Rattle.std.specs.Borrow.{sem};
    ghost use mathlib.Core.Option.{none};
    ghost use denote.Follow.{follows_so};
    ghost use Rattle.mds_lines.specs.contracts.reader.LineReader.{the_row};
    ghost use Rattle.mds_lines.specs.Readers.{reader_source, reader_lines, GoesOn};

    /// The lines of a source, read into a buffer made by `LineBuffer::new`.
    pub fn new(source: R, buffer: LineBuffer) -> LineReader<R>
        ensures source { reader_source result ≡ source }
        ensures lines { reader_lines result ≡ buffer }
    {
        LineReader {
            source,
            lines: buffer,
        }
    }

    /// The next line, or `None` if there are no more. After a fault it returns the same fault again.
    pub fn next(&mut self) -> Result<Option<Line<'_>>, LineFault>
        requires { R.failures (reader_source self.old) < 2 ^ 64 - 1 }
        ensures* { sem 𝓛 (follows_so (the_row R.row) (the_row R.row) self.entry.ghost_name none (λ _ _. ⊤)
            (λ left. GoesOn R.remaining R.failures R.gives self.old left result)) }
    {
        if self.lines.advance(&mut self.source)? {
            Ok(Some(self.lines.line()))
        } else {
            Ok(None)
        }
    }

    /// Returns the source. What was read from it and not returned as lines is lost. The call ends a loan of the source,
    /// so a caller's proof knows what is left of it.
    pub fn into_source(self) -> R
        ensures { result ≡ reader_source self }
    {
        self.source
    }
}

impl<R: Source> LineReader<R> {
    ghost use Rattle.std.specs.Prelude.{Result, Option, ◌*◌};
    ghost use Rattle.std.specs.List.{concat};
    ghost use Rattle.mds_lines.specs.declared.line.Line.{Line as ALine};
    ghost use Rattle.mds_lines.specs.Buffered.{Buffered, nothing_read, HasTaken};
    ghost use Rattle.mds_lines.specs.Readers.{reader_source, reader_lines, GoesOn};
    ghost use Rattle.mds_lines.specs.Reads.{block};

    /// A law: what a reader of lines takes from its source is bounded, whatever the source brings. It is at most the
    /// lines that a file may have, and one block. Each line has at most the allowed length, and a line feed.
    pub fn takes_few()
        ensures begins { (source : R) → HasTaken R.gives source source nothing_read }
        ensures goes_on { (begin : R) (old new : LineReader R) (result : Result (Option ALine) LineFault)
            → HasTaken R.gives begin (reader_source old) (reader_lines old)
            → GoesOn R.remaining R.failures R.gives old new result
            → HasTaken R.gives begin (reader_source new) (reader_lines new) }
        ensures bound { (begin now : R) (buffered : Buffered) (taken : HasTaken R.gives begin now buffered)
            → length (concat taken.given) ≤ most_lines * (longest_line + 1) + block }
    {}
}
