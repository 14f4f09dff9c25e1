//! The lines of files that come from limited readers.

ghost use Rattle.std.specs.Prelude.{◌≡◌, ◌<◌, ◌≤◌, ◌+◌, ◌-◌, ◌^◌, None, true, IfOk};
ghost use Rattle.mds_lines.specs.Readers.{reader_source, reader_lines};

use crate::limited::{Limit, Limited};
use crate::pieces::next_file;
use mds_lines::{Counted, LineBuffer, LineFault, LineReader, Source};
use std::alloc::AllocError;
use std::io::Write;
use std::{fs, io};

/// The results of a reader of lines: a line, the end, or a fault.
const LINE: u8 = b'l';

const END: u8 = b'e';

const UNREAD: u8 = b'r';

const TOO_LARGE: u8 = b't';

/// Prints what a reader of lines returns for each file of a list, up to the end or a fault. Then it is asked once more. In the list a
/// limit comes before each file.
pub fn print_lines(rt: &HostRuntime, path: &str) -> io::Result<bool> {
    let list = fs::read(rt, path)?;
    let mut left = list.as_slice();
    for _ in 0..u64::MAX {
        let Some((limit, behind)) = Limit::read(left) else {
            break;
        };
        let Some((inner, others)) = next_file(behind) else {
            break;
        };
        print_file(rt, Limited { inner, limit })?;
        left = others;
    }
    Ok(left.is_empty())
}

fn print_file(rt: &HostRuntime, file: Limited<&[u8]>) -> io::Result<()> {
    let mut reader = LineReader::new(Counted::new(file), LineBuffer::new(rt.alloc())?);
    let mut out = Vec::new(rt.alloc());
    put_lines(&mut reader, &mut out)?;
    put_next(&mut reader, &mut out)?;
    io::writer(rt).write_all(&out)
}

/// All that a reader returns, up to the end or a fault.
fn put_lines<R: Source>(reader: &mut LineReader<R>, out: &mut Vec<u8>) -> Result<(), AllocError>
    requires failures { R.failures (reader_source reader.old) ≡ 0 }
    requires faultless { (reader_lines reader.old).fault ≡ None }
    ensures { R.failures (reader_source reader.new) ≤ 1 }
{
    for _ in 0..u64::MAX {
        if !put_next(reader, out)? {
            return Ok(());
        }
    }
    Ok(())
}

/// The next result of a reader. Returns whether it is a line.
fn put_next<R: Source>(reader: &mut LineReader<R>, out: &mut Vec<u8>) -> Result<bool, AllocError>
    requires { R.failures (reader_source reader.old) < 2 ^ 64 - 1 }
    ensures line { IfOk result (λ is_line. is_line ≡ true
        → (R.failures (reader_source reader.new) ≡ R.failures (reader_source reader.old))
        × ((reader_lines reader.new).fault ≡ None)) }
    ensures once { (reader_lines reader.old).fault ≡ None
        → R.failures (reader_source reader.new) ≤ R.failures (reader_source reader.old) + 1 }
{
    match reader.next() {
        Ok(Some(line)) => {
            put(LINE, line.number(), line.text(), out)?;
            Ok(true)
        }
        Ok(None) => {
            put(END, 0, b"", out)?;
            Ok(false)
        }
        Err(fault) => {
            put_fault(fault, out)?;
            Ok(false)
        }
    }
}

fn put_fault(fault: LineFault, out: &mut Vec<u8>) -> Result<(), AllocError> {
    match fault {
        LineFault::Read => put(UNREAD, 0, b"", out),
        LineFault::TooLarge(line) => put(TOO_LARGE, line, b"", out),
    }
}

/// A result: a letter, a number and the length of a text in eight bytes each, and the text.
fn put(letter: u8, number: u64, text: &[u8], out: &mut Vec<u8>) -> Result<(), AllocError> {
    out.push(letter)?;
    out.extend_from_slice(&number.to_be_bytes())?;
    out.extend_from_slice(&(text.len() as u64).to_be_bytes())?;
    out.extend_from_slice(text)
}
