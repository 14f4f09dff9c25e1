//! The gaps and the finals of a day.

ghost use Rattle.std.specs.Prelude.{◌≤◌, IfOk, OnOk, OnErr, MatchOption};
ghost use Rattle.std.specs.Bool.{MatchBool};
ghost use Rattle.mds_marks.specs.declared.mark.Mark.{Mark};
ghost use Rattle.mds_world.specs.World.{World};
ghost use Rattle.mds_keeper.specs.Books.{IsDay};
ghost use Rattle.mds_registers.specs.Stretches.{AreFinals, AreGaps, HasFinal, IsFinalWith, IsNull, LacksReading};
ghost use Rattle.mds_registers.specs.StretchesSteps.{GoesOn, TakesInFinal, TakesInNull};

use mds_keeper::DayBook;
use mds_marks::flags::{FINAL, NULL};
use mds_terms::Mark;
use std::alloc::{AllocError, Global};

/// Intervals `first` to `last` of a day, counted from 1, that have no reading. They are a longest run of intervals with
/// the current flag N. A day that isn't known has the gap 0 to 0.
#[derive(Clone, Copy)]
pub struct Gap {
    pub first: u16,
    pub last: u16,
}

/// Intervals `first` to `last` of a day, counted from 1, that are final under one mark. They are a longest run of
/// intervals with the current flag F, one method and one reason.
#[derive(Drop)]
pub struct Final {
    pub first: u16,
    pub last: u16,
    pub mark: Mark,
}

/// The gap of a day that isn't known.
const WHOLE_DAY: Gap = Gap { first: 0, last: 0 };

/// The gaps of a day, ascending. Takes memory only if an interval has no reading, or the day isn't known.
pub fn gaps(alloc: Global, book: &DayBook) -> Result<Vec<Gap>, AllocError>
    ensures gaps { (w : World) → IsDay w book.now
        → IfOk result (λ gaps. AreGaps w book.now.stream book.now.day gaps.items) }
    ensures memory { (w : World) → IsDay w book.now
        → OnErr result (LacksReading w book.now.stream book.now.day) }
{
    let mut gaps = Vec::new(alloc);
    // For the proof: a day has one current form.
    book.is_lawful();
    let Some(form) = book.form() else {
        gaps.push(WHOLE_DAY)?;
        return Ok(gaps);
    };
    let (length, _) = form;
    for i in 0..length.count() {
        let interval = i as u16 + 1;
        if !is_null(book, interval) {
            continue;
        }
        take_in_null(&mut gaps, interval)?;
    }
    Ok(gaps)
}

/// The finals of a day, ascending; none if it isn't known. Takes memory only if an interval is final.
pub fn finals(alloc: Global, book: &DayBook) -> Result<Vec<Final>, AllocError>
    ensures finals { (w : World) → IsDay w book.now
        → IfOk result (λ finals. AreFinals w book.now.stream book.now.day finals.items) }
    ensures memory { (w : World) → IsDay w book.now
        → OnErr result (HasFinal w book.now.stream book.now.day) }
{
    let mut finals = Vec::new(alloc);
    let Some(form) = book.form() else {
        return Ok(finals);
    };
    let (length, _) = form;
    // For the proof: each interval has one current reading.
    book.is_lawful();
    for i in 0..length.count() {
        let interval = i as u16 + 1;
        let Some(mark) = final_mark(book, interval) else {
            continue;
        };
        take_in_final(&mut finals, interval, mark)?;
    }
    Ok(finals)
}

/// Whether the current flag of an interval is N.
fn is_null(book: &DayBook, interval: u16) -> bool
    ensures { (w : World) → IsDay w book.now
        → MatchBool result (IsNull w book.now.stream book.now.day interval)
        (IsNull w book.now.stream book.now.day interval → ⊥) }
{
    book.is_lawful();
    // decides: what is a gap, and what a final?
    match book.current(interval) {
        Some(version) => version.mark.quality.flag() == NULL,
        None => true,
    }
}

/// The mark of an interval's current reading, if its flag is F.
fn final_mark(book: &DayBook, interval: u16) -> Option<&Mark>
    ensures { (w : World) → IsDay w book.now → MatchOption result
        ((mark : Mark) → IsFinalWith w book.now.stream book.now.day mark interval → ⊥)
        (λ mark. IsFinalWith w book.now.stream book.now.day mark.now interval) }
{
    book.is_lawful();
    // decides: what is a gap, and what a final?
    let Some(version) = book.current(interval) else {
        return None;
    };
    if version.mark.quality.flag() == FINAL {
        Some(version.mark)
    } else {
        None
    }
}

/// Adds an interval to the last gap if that ends right before it. Otherwise a gap begins with it.
fn take_in_null(gaps: &mut Vec<Gap>, interval: u16) -> Result<(), AllocError>
    requires { 1 ≤ interval }
    ensures { OnOk result (TakesInNull interval gaps.old.items gaps.new.items) }
{
    if let Some(gap) = gaps.last_mut() {
        if gap.last == interval - 1 {
            gap.last = interval;
            return Ok(());
        }
    }
    gaps.push(Gap {
        first: interval,
        last: interval,
    })?;
    Ok(())
}

/// Adds an interval with its mark to the last stretch if that has this mark and ends right before it. Otherwise a
/// stretch begins with it.
fn take_in_final(finals: &mut Vec<Final>, interval: u16, mark: &Mark) -> Result<(), AllocError>
    requires { 1 ≤ interval }
    ensures { OnOk result (TakesInFinal interval mark.now finals.old.items finals.new.items) }
{
    if let Some(stretch) = finals.last_mut() {
        if goes_on(stretch, interval, mark) {
            stretch.last = interval;
            return Ok(());
        }
    }
    finals.push(Final {
        first: interval,
        last: interval,
        mark: mark.try_clone()?,
    })?;
    Ok(())
}

/// Whether a stretch continues with an interval of this mark: it has this mark, and ends right before the interval.
fn goes_on(stretch: &Final, interval: u16, mark: &Mark) -> bool
    requires { 1 ≤ interval }
    ensures { MatchBool result (GoesOn interval mark.now stretch.now)
        (GoesOn interval mark.now stretch.now → ⊥) }
{
    stretch.last == interval - 1 && stretch.mark.is_same(mark)
}
