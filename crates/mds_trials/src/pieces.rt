//! Feeds NEM12 files in pieces, and compares each with the same file in one piece.

use crate::outcomes::outcome_of;
use mds_nem12::{Nem12Fault, Reader, read_nem12};
use std::alloc::{AllocError, Global};
use std::{fs, io};

/// How files are cut.
#[derive(Drop)]
pub enum Cutter {
    /// In two pieces, after each number of bytes in turn, from none to all. Then, once more, at each byte.
    AtBytes,
    /// Once, in pieces of lengths that seem random. The first state is the seed of their numbers.
    Made(u64),
}

/// The most bytes of a made piece. It may be empty.
const LONGEST_PIECE: u64 = 40;

impl Cutter {
    /// In how many ways a file of this length is cut.
    fn count(&self, length: usize) -> usize {
        match self {
            Cutter::AtBytes => length.saturating_add(2),
            Cutter::Made(_) => 1,
        }
    }

    /// The pieces of a file that is cut in the way with this number, from 0.
    fn pieces<'a>(
        &mut self,
        alloc: Global,
        file: &'a [u8],
        number: usize,
    ) -> Result<Vec<&'a [u8]>, AllocError> {
        match self {
            Cutter::AtBytes if number > file.len() => single_bytes(alloc, file),
            Cutter::AtBytes => two_pieces(alloc, file, number),
            Cutter::Made(state) => made_pieces(alloc, file, state),
        }
    }
}

/// A file cut in two, after `size` bytes.
fn two_pieces<'a>(alloc: Global, file: &'a [u8], size: usize) -> Result<Vec<&'a [u8]>, AllocError> {
    let (front, behind) = file.split_at(size.min(file.len()));
    let mut pieces = Vec::with_capacity(alloc, 2)?;
    pieces.push(front)?;
    pieces.push(behind)?;
    Ok(pieces)
}

/// A file cut at each byte.
fn single_bytes(alloc: Global, file: &[u8]) -> Result<Vec<&[u8]>, AllocError> {
    let mut pieces = Vec::with_capacity(alloc, file.len())?;
    for place in 0..file.len() {
        pieces.push(&file[place..place + 1])?;
    }
    Ok(pieces)
}

/// A file cut in pieces of lengths that seem random.
fn made_pieces<'a>(
    alloc: Global,
    file: &'a [u8],
    state: &mut u64,
) -> Result<Vec<&'a [u8]>, AllocError> {
    let mut pieces = Vec::new(alloc);
    let mut left = file;
    for _ in 0..u64::MAX {
        if left.is_empty() {
            break;
        }
        let (piece, behind) = left.split_at(made_length(state).min(left.len()));
        pieces.push(piece)?;
        left = behind;
    }
    Ok(pieces)
}

/// The next length that seems random, the same on every machine.
fn made_length(state: &mut u64) -> usize {
    *state = state
        .wrapping_mul(6364136223846793005)
        .wrapping_add(1442695040888963407);
    ((*state >> 33) % (LONGEST_PIECE + 1)) as usize
}

/// What was compared so far.
#[derive(Drop)]
struct Tally {
    files: u64,
    /// In how many ways they were cut, one file after the other.
    ways: u64,
    /// How many of the files have a fault.
    faults: u64,
}

/// Compares the files of a list, cut in pieces, with the same files in one piece. In the list four bytes before each file give its
/// length, the highest first. Prints how many were compared, and returns whether all had the same outcome. It stops at the first that
/// differs.
pub fn hold_files(rt: &HostRuntime, path: &str, mut cutter: Cutter) -> io::Result<bool> {
    let list = fs::read(rt, path)?;
    let mut tally = Tally {
        files: 0,
        ways: 0,
        faults: 0,
    };
    let mut left = list.as_slice();
    for _ in 0..u64::MAX {
        let Some((file, others)) = next_file(left) else {
            break;
        };
        if !hold_file(rt, file, &mut cutter, &mut tally)? {
            return Ok(false);
        }
        left = others;
    }
    if !left.is_empty() {
        println!(rt; "the list ends in a file")?;
        return Ok(false);
    }
    println!(rt;
        "{} files cut in {} ways, {} files with a fault",
        tally.files, tally.ways, tally.faults
    )?;
    Ok(true)
}

/// The first file of a list, and the files after it. `None` if there is no whole file.
pub fn next_file(list: &[u8]) -> Option<(&[u8], &[u8])> {
    let (length, behind) = next_number(list)?;
    behind.split_at_checked(length as usize)
}

/// The number in the first four bytes of a list, and what follows it.
pub fn next_number(list: &[u8]) -> Option<(u32, &[u8])> {
    let [a, b, c, d, behind @ ..] = list else {
        return None;
    };
    Some((u32::from_be_bytes([*a, *b, *c, *d]), behind))
}

/// Compares a file, cut in each way, with the file in one piece.
fn hold_file(
    rt: &HostRuntime,
    file: &[u8],
    cutter: &mut Cutter,
    tally: &mut Tally,
) -> io::Result<bool> {
    let whole = outcome_of(rt.alloc(), read_nem12(rt.alloc(), file));
    for number in 0..cutter.count(file.len()) {
        let pieces = cutter.pieces(rt.alloc(), file, number)?;
        if !come_to(rt.alloc(), &pieces, &whole)? {
            print_difference(rt, tally.files, &pieces)?;
            return Ok(false);
        }
        tally.ways = tally.ways.wrapping_add(1);
    }
    tally.files = tally.files.wrapping_add(1);
    tally.faults = tally.faults.wrapping_add(u64::from(whole.is_err()));
    Ok(true)
}

/// Prints the number of a file, from 0, and the lengths of the pieces that have another outcome.
fn print_difference(rt: &HostRuntime, number: u64, pieces: &[&[u8]]) -> io::Result<()> {
    print!(rt; "something else comes of file {number} in pieces of")?;
    for piece in pieces {
        print!(rt; " {}", piece.len())?;
    }
    println!(rt; " bytes")
}

/// Whether the pieces of a file have the outcome of the whole. A fault must be returned with the end of its line, if not before, and
/// again with each further piece.
fn come_to(
    alloc: Global,
    pieces: &[&[u8]],
    whole: &Result<String, Nem12Fault>,
) -> Result<bool, AllocError> {
    let mut reader = Reader::new(alloc)?;
    let mut lines = 0u64;
    let mut is_told = false;
    for piece in pieces {
        lines = lines.wrapping_add(line_feeds(piece));
        let answer = reader.feed(piece);
        if !goes_with(answer, is_told || is_due(whole, lines), whole) {
            return Ok(false);
        }
        is_told = answer.is_err();
    }
    Ok(outcome_of(alloc, reader.finish()) == *whole)
}

/// How many line feeds a piece has.
fn line_feeds(piece: &[u8]) -> u64 {
    let mut count = 0u64;
    for byte in piece {
        if *byte == b'\n' {
            count = count.wrapping_add(1);
        }
    }
    count
}

/// Whether a fault must be returned once this many lines have ended.
fn is_due(whole: &Result<String, Nem12Fault>, lines: u64) -> bool {
    match whole {
        Err(Nem12Fault::File(fault)) => fault.line <= lines,
        _ => false,
    }
}

/// Whether the result for a piece agrees with the outcome of the whole file. Its fault must be returned by now, or may not be known
/// yet.
fn goes_with(
    answer: Result<(), Nem12Fault>,
    has_to_tell: bool,
    whole: &Result<String, Nem12Fault>,
) -> bool {
    match (answer, whole) {
        (Err(told), Err(fault)) => told == *fault,
        (Err(_), Ok(_)) => false,
        (Ok(()), _) => !has_to_tell,
    }
}
