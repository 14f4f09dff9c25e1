//! The values of a day that may replace others.

ghost use Rattle.std.specs.Prelude.{◌↔◌, ◌≤◌, ℕ, IsTrue};
ghost use Rattle.std.specs.Bool.{MatchBool};
ghost use Rattle.mds_names.specs.declared.stream.Stream.{Stream};
ghost use Rattle.mds_world.specs.Current.{IsFormOf};
ghost use Rattle.mds_world.specs.World.{World};
ghost use Rattle.mds_keeper.specs.Books.{book_world};
ghost use Rattle.mds_jobs.specs.Jobs.{content_of};
ghost use Rattle.mds_fill.specs.Fills.{Finds, HasAll, IsActualOrFinal, IsBookOf, IsLikeBook, IsLikeValue, IsUsable};

use mds_jobs::Job;
use mds_keeper::DayBook;
use mds_marks::flags::{ACTUAL, FINAL};
use mds_quantity::Quantity;
use mds_terms::Mark;

/// The usable value of an interval of a day.
pub(crate) fn usable_value(book: &DayBook, job: &Job, interval: u16) -> Option<Quantity>
    ensures { (w : World) (day : ℕ) → IsBookOf w job.now.stream day book.now
        → Finds (IsUsable w (content_of job.now) day interval) result }
{
    // For the proof: a book's day shows one reading of an interval.
    book.is_lawful();
    // decides: which values may a job use?
    if !has_form_of(book, job) {
        return None;
    }
    let Some(version) = book.current(interval) else {
        return None;
    };
    if !is_actual_or_final(version.mark) {
        return None;
    }
    version.value
}

/// The usable value of an interval of the candidate at a position.
pub(crate) fn candidate_value(slot: &Option<DayBook>, job: &Job, interval: u16) -> Option<Quantity>
    ensures { (w : World) (place : ℕ) → IsLikeBook w (content_of job.now) place slot.now
        → Finds (IsLikeValue w (content_of job.now) place interval) result }
{
    match slot {
        Some(book) => usable_value(book, job, interval),
        None => None,
    }
}

/// Whether a day has a usable value for every target.
pub(crate) fn has_all(book: &DayBook, job: &Job) -> bool
    requires few { job.now.last ≤ 288 }
    ensures { (w : World) (day : ℕ) → IsBookOf w job.now.stream day book.now
        → MatchBool result (HasAll w (content_of job.now) day) (HasAll w (content_of job.now) day → ⊥) }
{
    for interval in job.first..job.last + 1 {
        if usable_value(book, job, interval).is_none() {
            return false;
        }
    }
    true
}

/// Whether a day is known, and has a job's length and unit as its current ones.
fn has_form_of(book: &DayBook, job: &Job) -> bool
    ensures { IsTrue result ↔ IsFormOf (book_world book.now) book.now.stream book.now.day job.now.length job.now.unit }
{
    // For the proof: a book's day has one current form.
    book.is_lawful();
    match book.form() {
        Some(form) => form.0.minutes() == job.length.minutes() && form.1 == job.unit,
        None => false,
    }
}

/// Whether the flag of a mark is A or F.
pub(crate) fn is_actual_or_final(mark: &Mark) -> bool
    ensures { MatchBool result (IsActualOrFinal mark.now.quality.flag)
        (IsActualOrFinal mark.now.quality.flag → ⊥) }
{
    matches!(mark.quality.flag(), ACTUAL | FINAL)
}
