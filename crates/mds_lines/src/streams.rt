//! Texts that are written whole, and buffers that are filled read by read.

ghost use Rattle.std.specs.Prelude.{◌≡◌, ◌+◌, ◌-◌, ◌^◌, ◌<◌, ◌≤◌, ℕ, [], length, take, is_ok, if◌then◌else◌, IfOk, OnErr, OnOk};
ghost use Rattle.std.specs.Io.KnownBytes.{Appends as AppendsKnown, IsAtEnd, Keeps};
ghost use Rattle.mds_lines.specs.Streams.{ReadsBehind};

use crate::source::{Sink, Source};
use std::io;

/// Writes all of a text. If a call fails, its error is returned, and a part of the text was written.
pub fn write_whole<W: Sink>(text: &[u8], writer: &mut W) -> io::Result<()>
    requires { W.failures writer.old < 2 ^ 64 - 1 }
    ensures done { OnOk result (AppendsKnown (W.contents writer.old) (W.contents writer.new) text.now) }
    ensures part { OnErr result ((n : ℕ) × (n < length text.now)
        × AppendsKnown (W.contents writer.old) (W.contents writer.new) (take n text.now)) }
    ensures writer { W.failures writer.new ≡ W.failures writer.old + (if is_ok result then 0 else 1) }
{
    let mut rest = text;
    while !rest.is_empty() {
        match writer.write(rest) {
            Ok(count) => rest = &rest[count..],
            Err(error) => return Err(error),
        }
    }
    Ok(())
}

/// Reads on, by one call, after the first `filled` bytes of a buffer. Returns how many bytes were read: 0 only at the
/// end.
pub fn read_more<R: Source>(buffer: &mut [u8], filled: usize, source: &mut R) -> io::Result<usize>
    requires failures { R.failures source.old < 2 ^ 64 - 1 }
    requires room { filled < length buffer.old }
    ensures within { IfOk result (λ count. filled + count ≤ length buffer.new) }
    ensures read { IfOk result (ReadsBehind R.gives source.old source.new
        (R.remaining source.old) (R.remaining source.new) (take filled buffer.old) buffer.new) }
    ensures ended { IfOk result (λ count. count ≡ 0 → IsAtEnd (R.remaining source.new)) }
    ensures nothing { OnErr result ((take filled buffer.new ≡ take filled buffer.old)
        × Keeps (R.remaining source.old) (R.remaining source.new) × R.gives source.old [] source.new) }
    ensures counted { R.failures source.new ≡ R.failures source.old + (if is_ok result then 0 else 1) }
{
    match source.read(&mut buffer[filled..]) {
        Ok(count) => Ok(count),
        Err(error) => Err(error),
    }
}
