//! The sources of the values that a job fills in.

ghost use Rattle.std.specs.Prelude.{◌≡◌, ◌+◌, ◌-◌, ◌*◌, ◌^◌, ◌≤◌, ℕ, ℤ, IfOk, IfErr, MatchOption, length, unsigned_abs};
ghost use Rattle.mds_quantity.specs.Quantity.{limit};
ghost use Rattle.mds_quantity.specs.Rounding.{IsRounded, line_times_steps};
ghost use Rattle.mds_world.specs.World.{World};
ghost use Rattle.mds_jobs.specs.Jobs.{content_of};
ghost use Rattle.mds_fill.specs.Fills.{Finds, HasAll, IsBookOf, IsContext, IsFilled, IsLike, IsLikeBook, IsMean, IsNearestLike, IsTarget, IsValueAfter, IsValueBefore, count_some, target_count, total};
ghost use Rattle.mds_fill.specs.FillSteps.{HasNoLikeValue, IsGood, IsLack, IsSource};

use crate::context::Context;
use crate::targets::method_of;
use crate::usable::{candidate_value, has_all, usable_value};
use mds_jobs::{Job, Method};
use mds_keeper::{DayBook, RefusalCode};
use mds_quantity::{Quantity, between, mean};

/// The source of a job's values.
#[derive(Clone, Copy)]
pub(crate) enum Source<'a> {
    /// The nearest like day that has all of them.
    LikeDay(&'a DayBook),
    /// All like days.
    LikeDays,
    /// The values before and after the targets.
    Line(Quantity, Quantity),
    Zeros,
}

/// The source of a job's method, or which rule says that it is missing.
pub(crate) fn source_of<'a>(job: &Job, context: &'a Context) -> Result<Source<'a>, RefusalCode>
    requires { IsGood (content_of job.now) }
    ensures ok { (w : World) → IsContext w (content_of job.now) context.now
        → IfOk result (IsSource w (content_of job.now)) }
    ensures refused { (w : World) → IsContext w (content_of job.now) context.now
        → IfErr result (IsLack w (content_of job.now)) }
{
    match method_of(job) {
        Method::LikeDay => match nearest_like_day(job, context) {
            Some(book) => Ok(Source::LikeDay(book)),
            None => Err(RefusalCode::NoLikeDay),
        },
        Method::MeanOfLikeDays => Ok(Source::LikeDays),
        Method::Interpolation => line(job, context),
        Method::Zeros => Ok(Source::Zeros),
    }
}

/// The value of a target from the source of its job. `None` if no like day has one.
pub(crate) fn value_at(
    job: &Job,
    context: &Context,
    source: &Source,
    interval: u16,
) -> Option<Quantity>
    requires good { IsGood (content_of job.now) }
    requires target { IsTarget (content_of job.now) interval }
    ensures { (w : World) → IsContext w (content_of job.now) context.now → IsSource w (content_of job.now) source.now
        → MatchOption result ((job.now.method ≡ 15) × HasNoLikeValue w (content_of job.now) interval)
        (IsFilled w (content_of job.now) interval) }
{
    match source {
        Source::LikeDay(book) => usable_value(book, job, interval),
        Source::LikeDays => mean_at(job, context, interval),
        Source::Line(before, after) => Some(on_line(job, *before, *after, interval)),
        Source::Zeros => Quantity::from_millionths(0),
    }
}

/// The nearest candidate that has a usable value for every target.
fn nearest_like_day<'a>(job: &Job, context: &'a Context) -> Option<&'a DayBook>
    requires few { job.now.last ≤ 288 }
    ensures { (w : World) → IsContext w (content_of job.now) context.now → MatchOption result
        ((place day : ℕ) → IsLike w (content_of job.now) place day → HasAll w (content_of job.now) day → ⊥)
        (λ book. (day : ℕ) × IsNearestLike w (content_of job.now) day × IsBookOf w job.now.stream day book.now) }
{
    // decides: check 8 of a job, M7: no like day has values
    for slot in &context.candidates {
        if let Some(book) = like_day(slot, job) {
            return Some(book);
        }
    }
    None
}

/// The candidate at a position, if it has a usable value for every target.
fn like_day<'a>(slot: &'a Option<DayBook>, job: &Job) -> Option<&'a DayBook>
    requires few { job.now.last ≤ 288 }
    ensures { (w : World) (place : ℕ) → IsLikeBook w (content_of job.now) place slot.now → MatchOption result
        ((day : ℕ) → IsLike w (content_of job.now) place day → HasAll w (content_of job.now) day → ⊥)
        (λ book. (day : ℕ) × IsLike w (content_of job.now) place day × HasAll w (content_of job.now) day
        × IsBookOf w job.now.stream day book.now) }
{
    let Some(book) = slot else {
        return None;
    };
    if has_all(book, job) { Some(book) } else { None }
}

/// The mean of the candidates' usable values at an interval.
fn mean_at(job: &Job, context: &Context, interval: u16) -> Option<Quantity>
    ensures { (w : World) → IsContext w (content_of job.now) context.now → MatchOption result
        (HasNoLikeValue w (content_of job.now) interval) (IsMean w (content_of job.now) interval) }
{
    let candidates = &context.candidates;
    let values = [
        candidate_value(&candidates[0], job, interval),
        candidate_value(&candidates[1], job, interval),
        candidate_value(&candidates[2], job, interval),
        candidate_value(&candidates[3], job, interval),
    ];
    // decides: how is the mean of method 15 computed?
    let (sum, count) = sum_and_count(&values);
    // decides: check 8 of a job, M7: no like day has values
    if count == 0 {
        return None;
    }
    Some(mean(sum, count))
}

/// The sum, in millionths, of the values that are present, and how many there are.
fn sum_and_count(values: &[Option<Quantity>]) -> (i128, u64)
    requires { length values.now ≤ 4 }
    ensures sum { result.0 ≡ total values.now }
    ensures count { result.1 ≡ count_some values.now }
    ensures bound { unsigned_abs result.0 ≤ (limit - 1) * result.1 }
{
    let mut sum = 0;
    let mut count = 0;
    for slot in values {
        if let Some(value) = slot {
            sum += i128::from(value.millionths());
            count += 1;
        }
    }
    (sum, count)
}

/// The line between the values next to the targets, or the refusal that one of them is missing.
fn line(job: &Job, context: &Context) -> Result<Source<'static>, RefusalCode>
    requires { IsGood (content_of job.now) }
    ensures ok { (w : World) → IsContext w (content_of job.now) context.now → job.now.method ≡ 17
        → IfOk result (IsSource w (content_of job.now)) }
    ensures refused { (w : World) → IsContext w (content_of job.now) context.now → job.now.method ≡ 17
        → IfErr result (IsLack w (content_of job.now)) }
{
    // decides: check 9 of a job, M9: a neighbour of the intervals to fill isn't usable
    let Some(before) = value_before(job, context) else {
        return Err(RefusalCode::NoAnchor);
    };
    let Some(after) = value_after(job, context) else {
        return Err(RefusalCode::NoAnchor);
    };
    Ok(Source::Line(before, after))
}

/// The usable value of the interval before the first target, which may be the last of the day before.
fn value_before(job: &Job, context: &Context) -> Option<Quantity>
    requires { IsGood (content_of job.now) }
    ensures { (w : World) → IsContext w (content_of job.now) context.now
        → Finds (IsValueBefore w (content_of job.now)) result }
{
    if job.first > 1 {
        return usable_value(&context.target, job, job.first - 1);
    }
    match &context.before {
        Some(book) => usable_value(book, job, job.length.count() as u16),
        None => None,
    }
}

/// The usable value of the interval after the last target, which may be the first of the day after.
fn value_after(job: &Job, context: &Context) -> Option<Quantity>
    requires { IsGood (content_of job.now) }
    ensures { (w : World) → IsContext w (content_of job.now) context.now
        → Finds (IsValueAfter w (content_of job.now)) result }
{
    if usize::from(job.last) < job.length.count() {
        return usable_value(&context.target, job, job.last + 1);
    }
    match &context.after {
        Some(book) => usable_value(book, job, 1),
        None => None,
    }
}

/// The value of a target on the line between two values.
fn on_line(job: &Job, before: Quantity, after: Quantity, interval: u16) -> Quantity
    requires good { IsGood (content_of job.now) }
    requires target { IsTarget (content_of job.now) interval }
    ensures { IsRounded (line_times_steps before after (interval + 1 - job.now.first) (target_count (content_of job.now)))
        (target_count (content_of job.now) + 1) result }
{
    let place = u64::from(interval + 1 - job.first);
    let count = u64::from(job.last + 1 - job.first);
    // decides: how is the line of method 17 computed?
    between(before, after, place, count)
}
