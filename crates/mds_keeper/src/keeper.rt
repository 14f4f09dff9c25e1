//! The trait of keepers of a World.

ghost use Rattle.std.specs.Prelude.{◌≡◌, ◌↔◌, IsTrue, IfOk};
ghost use Rattle.mds_world.specs.Current.{IsCurrentDetails};
ghost use Rattle.mds_world.specs.Facts.Fact.{EventIs};
ghost use Rattle.mds_world.specs.Sets.{◌∈◌};
ghost use Rattle.mds_world.specs.World.{World, IsLawful, union};
ghost use Rattle.mds_keeper.specs.Books.{IsDay};
ghost use Rattle.mds_keeper.specs.Content.{AreInPlace, AreNew, content};
ghost use Rattle.mds_keeper.specs.Kept.{Adds, Asks, Kept};
ghost use Rattle.mds_keeper.specs.Queries.{AreEventsOf, AreDaysOf, AreDaysWithout, AreDetailsBetween, AreHolidays, AreKnownStreams, ArePeriodsOf, IsContentOf, IsJobOf, IsLastDayOf};

use crate::additions::{Additions, DetailDays};
use crate::day_book::DayBook;
use mds_jobs::{Job, JobId};
use mds_statements::{Period, PeriodContent, PeriodKey};
use mds_terms::{Day, Details, Event, Stream};
use std::alloc::{AllocError, AllocFailed};

/// The store can't answer now.
#[derive(Clone, Copy, Debug)]
pub struct Unavailable;

impl From<AllocError> for Unavailable {
    fn from(_: AllocError) -> Unavailable {
        Unavailable
    }
}

impl<T: Drop> From<AllocFailed<T>> for Unavailable {
    fn from(_: AllocFailed<T>) -> Unavailable {
        Unavailable
    }
}

/// Keeps a World, in whatever way. Any call may return `Unavailable`, and then nothing is changed.
///
/// A keeper is honest while what lies outside of it is: a disk returns what was written to it, and nobody else writes there. It
/// answers only if it is sound: honest, and not shut by a fault. The clauses state something of the World if the keeper is sound.
pub trait Keeper {
    /// What is kept, whether it is honest and sound, and what a crash may leave.
    ghost kept: { Self → Kept };

    /// All that is kept of a day: its heads and its versions.
    fn day(&mut self, stream: Stream, day: Day) -> Result<DayBook, Unavailable>
        ensures of_day { IfOk result (λ book. (book.stream ≡ stream) × (book.day ≡ day)) }
        ensures book { Asks (kept self.old) (kept self.new) result IsDay };

    /// The known days of a stream from `first` to `last`, ascending.
    fn days(&mut self, stream: Stream, first: Day, last: Day) -> Result<Vec<DayBook>, Unavailable>
        ensures { Asks (kept self.old) (kept self.new) result (λ w books. AreDaysOf w stream first last books.items) };

    /// The known streams, in the order of their bytes, each once.
    fn streams(&mut self) -> Result<Vec<Stream>, Unavailable>
        ensures { Asks (kept self.old) (kept self.new) result (λ w streams. AreKnownStreams w streams.items) };

    /// The last known day of a stream. `None` if it has none.
    fn last_day(&mut self, stream: Stream) -> Result<Option<Day>, Unavailable>
        ensures { Asks (kept self.old) (kept self.new) result (λ w. IsLastDayOf w stream) };

    /// The current details of a day of a stream: its own, or those of the nearest earlier day that has some. The day need not be
    /// known.
    fn details(&mut self, stream: Stream, day: Day) -> Result<Details, Unavailable>
        ensures { Asks (kept self.old) (kept self.new) result (λ w. IsCurrentDetails w stream day) };

    /// The current details of days in a range, ascending, each day once. Every day with details of its own is included.
    fn details_between(
        &mut self,
        stream: Stream,
        first: Day,
        last: Day,
    ) -> Result<Vec<(Day, Details)>, Unavailable>
        ensures { Asks (kept self.old) (kept self.new) result (λ w rows. AreDetailsBetween w stream first last rows.items) };

    /// Those of the days that don't have these details yet, current or not. Ascending, each once.
    fn days_without(&mut self, details: &DetailDays) -> Result<Vec<Day>, Unavailable>
        ensures { Asks (kept self.old) (kept self.new) result (λ w days. AreDaysWithout w details.now days.items) };

    /// The events of a day, each once.
    fn events(&mut self, stream: Stream, day: Day) -> Result<Vec<Event>, Unavailable>
        ensures { Asks (kept self.old) (kept self.new) result (λ w events. AreEventsOf w stream day events.items) };

    /// Whether the event is kept.
    fn has_event(&mut self, event: &Event) -> Result<bool, Unavailable>
        ensures { Asks (kept self.old) (kept self.new) result (λ w has. IsTrue has ↔ (EventIs event.now ∈ w)) };

    /// The accumulations of a stream, by register, previous read, current read and update.
    fn period(&mut self, stream: Stream) -> Result<Vec<Period>, Unavailable>
        ensures { Asks (kept self.old) (kept self.new) result (λ w periods. ArePeriodsOf w stream periods.items) };

    /// The content of the accumulation with a key. `None` if it isn't kept.
    fn content(&mut self, key: &PeriodKey) -> Result<Option<PeriodContent>, Unavailable>
        ensures { Asks (kept self.old) (kept self.new) result (λ w. IsContentOf w key.now) };

    /// The listed holidays, ascending, each once.
    fn holidays(&mut self) -> Result<Vec<Day>, Unavailable>
        ensures { Asks (kept self.old) (kept self.new) result (λ w days. AreHolidays w days.items) };

    /// The substitution job with an id, and the count of the readings that it made. `None` if it isn't kept.
    fn job(&mut self, id: JobId) -> Result<Option<(Job, u64)>, Unavailable>
        ensures { Asks (kept self.old) (kept self.new) result (λ w. IsJobOf w id) };

    /// Adds what isn't kept yet: all of it, or nothing if it returns `Unavailable`. Even then a crash may leave all of it.
    fn commit(&mut self, additions: Additions) -> Result<(), Unavailable>
        requires new { (kept self.old).sound → IsLawful (kept self.old).world → AreNew (kept self.old).world additions }
        requires lawful { (kept self.old).sound → IsLawful (kept self.old).world
            → IsLawful (union (kept self.old).world (content additions)) }
        requires placed { (kept self.old).sound → IsLawful (kept self.old).world → AreInPlace (kept self.old).world additions }
        ensures { Adds (kept self.old) (kept self.new) result (content additions) };

    /// A sound keeper is honest.
    ghost sound_honest: { (keeper : Self) → (kept keeper).sound → (kept keeper).honest };

    /// While it is sound, a crash leaves what is kept.
    ghost settled: { (keeper : Self) → (kept keeper).sound → (left : World) → (kept keeper).may_leave left
        → left ≡ (kept keeper).world };
}
