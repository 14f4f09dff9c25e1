//! The intervals that a job fills in, and what stops it there.

ghost use Rattle.std.specs.Prelude.{◌≡◌, ◌≤◌, ℕ, MatchOption};
ghost use Rattle.std.specs.Bool.{MatchBool};
ghost use Rattle.mds_names.specs.declared.stream.Stream.{Stream};
ghost use Rattle.mds_world.specs.World.{World};
ghost use Rattle.mds_jobs.specs.Jobs.{IsBad, content_of, method_code};
ghost use Rattle.mds_fill.specs.Fills.{IsBookOf, IsFillRefusal, IsFree, IsLeast, IsProtected, IsProtectedTarget, IsStale, IsStaleTarget, IsTooLong};
ghost use Rattle.mds_fill.specs.FillSteps.{IsGood};

use crate::usable::is_actual_or_final;
use mds_jobs::{Job, Method};
use mds_keeper::{DayBook, Refusal, RefusalCode};
use mds_terms::Moment;

/// The most minutes that may be interpolated.
const MOST_MINUTES: i64 = 120;

/// What stops a job on its day, before any value is looked for. A protected target (M5) comes first, then a target
/// with a version that isn't older (M6), then too many minutes to interpolate (M8).
pub(crate) fn blocked(book: &DayBook, job: &Job) -> Option<Refusal>
    requires { IsGood (content_of job.now) }
    ensures { (w : World) → IsBookOf w job.now.stream job.now.day book.now → MatchOption result
        (IsFree w (content_of job.now) × (IsTooLong (content_of job.now) → ⊥)) (IsFillRefusal w (content_of job.now)) }
{
    if let Some(interval) = first_protected(book, job) {
        return Some(Refusal::at_interval(RefusalCode::Protected, interval));
    }
    if let Some(interval) = first_stale(book, job) {
        return Some(Refusal::at_interval(RefusalCode::StaleUpdate, interval));
    }
    if is_too_long(job) {
        return Some(Refusal::of_request(RefusalCode::TooLong));
    }
    None
}

/// The first target whose current reading is A or F.
fn first_protected(book: &DayBook, job: &Job) -> Option<u16>
    requires few { job.now.last ≤ 288 }
    ensures { (w : World) → IsBookOf w job.now.stream job.now.day book.now → MatchOption result
        ((i : ℕ) → IsProtectedTarget w (content_of job.now) i → ⊥) (IsLeast (IsProtectedTarget w (content_of job.now))) }
{
    for interval in job.first..job.last + 1 {
        if is_protected(book, interval) {
            return Some(interval);
        }
    }
    None
}

/// Whether the current reading of an interval is A or F.
fn is_protected(book: &DayBook, interval: u16) -> bool
    ensures { (w : World) (stream : Stream) (day : ℕ) → IsBookOf w stream day book.now
        → MatchBool result (IsProtected w stream day interval) (IsProtected w stream day interval → ⊥) }
{
    // For the proof: a book's day shows one reading of an interval.
    book.is_lawful();
    // decides: check 5 of a job, M5: an interval to fill is A or F
    match book.current(interval) {
        Some(version) => is_actual_or_final(version.mark),
        None => false,
    }
}

/// The first target that has a version whose update isn't before the job's.
fn first_stale(book: &DayBook, job: &Job) -> Option<u16>
    requires few { job.now.last ≤ 288 }
    ensures { (w : World) → IsBookOf w job.now.stream job.now.day book.now → MatchOption result
        ((i : ℕ) → IsStaleTarget w (content_of job.now) i → ⊥) (IsLeast (IsStaleTarget w (content_of job.now))) }
{
    for interval in job.first..job.last + 1 {
        if is_stale(book, interval, job.update) {
            return Some(interval);
        }
    }
    None
}

/// Whether an interval has a version, of its day's current length, whose update isn't before this one.
fn is_stale(book: &DayBook, interval: u16, than: Moment) -> bool
    ensures { (w : World) (stream : Stream) (day : ℕ) → IsBookOf w stream day book.now
        → MatchBool result (IsStale w stream day interval than) (IsStale w stream day interval than → ⊥) }
{
    // For the proof: a book's day has one current length.
    book.is_lawful();
    // The current version has the greatest update of that length. Versions of other lengths don't count.
    let Some(version) = book.current(interval) else {
        return false;
    };
    // decides: check 6 of a job, M6: an interval to fill has a version of the current length that isn't older
    version.update.seconds() >= than.seconds()
}

/// Whether more than two hours would be interpolated.
fn is_too_long(job: &Job) -> bool
    requires good { IsGood (content_of job.now) }
    ensures { MatchBool result (IsTooLong (content_of job.now)) (IsTooLong (content_of job.now) → ⊥) }
{
    match method_of(job) {
        Method::Interpolation => {
            let count = i64::from(job.last + 1 - job.first);
            // decides: check 7 of a job, M8: more than 120 minutes to interpolate
            count * job.length.minutes() > MOST_MINUTES
        }
        Method::LikeDay | Method::MeanOfLikeDays | Method::Zeros => false,
    }
}

/// The method of a job that isn't bad.
pub(crate) fn method_of(job: &Job) -> Method
    requires { IsGood (content_of job.now) }
    ensures { job.now.method ≡ method_code result }
{
    Method::of_code(job.method).unwrap()
}

/// A law: what holds of a job that isn't bad.
pub(crate) fn is_good(job: &Job)
    requires { IsBad (content_of job.now) → ⊥ }
    ensures { IsGood (content_of job.now) }
{
    // For the proof: a length has at most 288 intervals.
    let _ = job.length.minutes();
}
