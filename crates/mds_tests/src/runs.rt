//! Runs of marks over a day.

use crate::rows::cut;
use mds_export::{RunRow, write_run};
use mds_runs::{Cover, Run, RunFault, gather, gather_some, overlay, spread};
use mds_terms::Mark;
use std::alloc::Global;

/// Puts a run of a quality into a cover.
fn take(alloc: Global, cover: &mut Cover, first: u16, last: u16, quality: &[u8]) -> Option<()> {
    let mark = Mark::read(alloc, quality, b"", b"").ok()??;
    cover.push(Run { first, last, mark }).ok()
}

/// The 400 records of the runs of a cover.
fn written(alloc: Global, cover: &Cover) -> Option<Vec<u8>> {
    let mut out = Vec::new(alloc);
    for run in cover.runs() {
        let (first, last, mark) = (run.first, run.last, &run.mark);
        write_run(&RunRow { first, last, mark }, &mut out).ok()?;
    }
    Some(out)
}

/// The 400 records that are gathered from the marks of a day. It has two runs, and an actual mark in the intervals between them.
fn gathered(alloc: Global) -> Option<Vec<u8>> {
    let mut cover = Cover::new(alloc, 48);
    take(alloc, &mut cover, 1, 20, b"F14")?;
    take(alloc, &mut cover, 47, 48, b"F14")?;
    let default = Mark::read(alloc, b"A", b"", b"").ok()??;
    let marks = spread(alloc, &cover, &default).ok()?;
    if marks.len() > 288 {
        return None;
    }
    written(alloc, &gather(alloc, &marks).ok()?)
}

/// The 400 records that are gathered from a day of gaps with one run laid over them.
fn laid(alloc: Global) -> Option<Vec<u8>> {
    let mut cover = Cover::new(alloc, 48);
    take(alloc, &mut cover, 21, 24, b"A")?;
    let mut gaps = Vec::new(alloc);
    for _ in 0..48 {
        gaps.push(None).ok()?;
    }
    if gaps.len() > 48 {
        return None;
    }
    let marks = overlay(gaps, &cover).ok()?;
    if marks.len() > 48 {
        return None;
    }
    written(alloc, &gather_some(alloc, &marks).ok()?)
}

/// Puts runs into a cover of 48 intervals one by one, each by its first and its last interval. Appends for each whether it is refused,
/// and which runs the cover then has.
pub fn tell_cover(alloc: Global, runs: &str, out: &mut String) -> Option<()> {
    let mut cover = Cover::new(alloc, 48);
    for run in runs.split(' ') {
        let (first, last) = cut(run, '-');
        tell_push(
            alloc,
            &mut cover,
            first.parse().ok()?,
            last.parse().ok()?,
            out,
        )?;
        tell_runs(cover.runs(), out)?;
    }
    Some(())
}

fn tell_push(
    alloc: Global,
    cover: &mut Cover,
    first: u16,
    last: u16,
    out: &mut String,
) -> Option<()> {
    let mark = Mark::read(alloc, b"A", b"", b"").ok()??;
    let word = match cover.push(Run { first, last, mark }) {
        Ok(()) => "taken",
        Err(RunFault::Range) => "Range",
        Err(RunFault::Order) => "Order",
        Err(RunFault::Memory) => return None,
    };
    out.push_str(word).ok()
}

fn tell_runs(runs: &[Run], out: &mut String) -> Option<()> {
    for run in runs {
        write!(out, " {}-{}", run.first, run.last).ok()?;
    }
    out.push(';').ok()
}

#[test]
fn runs_are_spread_and_gathered(rt: HostRuntime) {
    let runs = gathered(rt.alloc());
    let wanted = b"400,1,20,F14,,\r\n400,21,46,A,,\r\n400,47,48,F14,,\r\n";
    assert!(rt; runs.as_deref() == Some(wanted.as_slice()));
    let runs = laid(rt.alloc());
    assert!(rt; runs.as_deref() == Some(b"400,21,24,A,,\r\n".as_slice()));
}
