//! What is wrong with the file of a database that the SQL library refuses.

use crate::cause::Cause;
use sqlite_wal::checksum_of;
use std::fs::File;
use std::io::Read;
use std::os::unix::fs::FileExt;
use std::{fs, io};

/// What each database begins with.
const MAGIC: &[u8; 16] = b"SQLite format 3\0";

/// How many bytes of the header are looked at.
const HEADER: usize = 21;

/// Where the header says how many bytes a page has, and how many of them at its end don't belong to it.
const PAGE_BYTES: usize = 16;

const RESERVED: usize = 20;

/// How many bytes a sum has.
const SUM_BYTES: usize = 8;

/// Where a file has a page that is never written, as SQLite locks its bytes.
const LOCKED: u64 = 1 << 30;

/// What the bytes of a file show. `None` if they show nothing.
pub(crate) fn damage_in(rt: &HostRuntime, path: &str) -> io::Result<Option<Cause>> {
    let mut file = fs::open(rt, path)?;
    let mut header = [0; HEADER];
    file.read_exact(&mut header)?;
    if !header.starts_with(MAGIC) {
        return Ok(Some(Cause::NoDatabase));
    }
    if usize::from(header[RESERVED]) != SUM_BYTES {
        return Ok(None);
    }
    let mut page = vec![in rt.alloc(); 0u8; page_bytes(&header)]?;
    Ok(wrong_page(&file, &mut page)?.map(Cause::WrongSum))
}

/// How many bytes a page has. 65,536 is written as 1.
fn page_bytes(header: &[u8; HEADER]) -> usize {
    match u16::from_be_bytes([header[PAGE_BYTES], header[PAGE_BYTES + 1]]) {
        1 => 65_536,
        bytes => usize::from(bytes),
    }
}

/// The number of the first page, from 1, that has another sum than it says. The buffer is as long as a page.
fn wrong_page(file: &File, page: &mut [u8]) -> io::Result<Option<u64>> {
    let bytes = page.len() as u64;
    if bytes == 0 {
        return Ok(None);
    }
    for before in 0..file.metadata()?.len() / bytes {
        file.read_exact_at(page, before.wrapping_mul(bytes))?;
        if before != LOCKED / bytes && !has_its_sum(page) {
            return Ok(Some(before.saturating_add(1)));
        }
    }
    Ok(None)
}

/// Whether a page ends in the sum of its bytes.
fn has_its_sum(page: &[u8]) -> bool {
    let (body, sum) = page.split_at(page.len().saturating_sub(SUM_BYTES));
    let (first, second) = checksum_of(false, (0, 0), body);
    match sum.split_at_checked(4) {
        Some((a, b)) => a == first.to_le_bytes().as_slice() && b == second.to_le_bytes().as_slice(),
        None => false,
    }
}
