//! `ImportKeeper`: the part of a keeper that an import of interval data needs.

ghost use Rattle.std.specs.Prelude.{◌≡◌, ◌↔◌, ℕ, IsTrue, IfOk};
ghost use Rattle.mds_names.specs.declared.stream.Stream.{Stream as StreamValue};
ghost use Rattle.mds_world.specs.Facts.Fact.{EventIs};
ghost use Rattle.mds_world.specs.Sets.{◌∈◌};
ghost use Rattle.mds_world.specs.World.{World, IsLawful, union};
ghost use Rattle.mds_keeper.specs.Books.{IsDay};
ghost use Rattle.mds_keeper.specs.Content.{AreInPlace, AreNew, content};
ghost use Rattle.mds_keeper.specs.Kept.{Adds, Asks, Kept};
ghost use Rattle.mds_keeper.specs.Queries.{AreDaysOf, AreDaysWithout};

use mds_keeper::{Additions, DayBook, DetailDays, Keeper, Unavailable};
use mds_terms::{Day, Event, Stream};

/// A keeper with just the five calls that an import of interval data needs, and two ghost relations that record them.
///
/// An import is written over this trait, and proved for every pair of relations. So it is proved, too, for a relation that lists the
/// queries. Without the trait a contract couldn't say which days were asked for: a query changes nothing that is kept, so no World
/// shows it.
pub(crate) trait ImportKeeper {
    /// What is kept, as for any keeper.
    ghost kept: { Self → Kept };

    /// `asks old stream first last new`: a query for the days of a stream in a range may lead from the state `old` to `new`.
    /// `AsksOnly` says so of several calls.
    ghost asks: { Self → StreamValue → ℕ → ℕ → Self → Type 0 };

    /// `others old new`: a call that asks for no days may lead from the state `old` to `new`.
    ghost others: { Self → Self → Type 0 };

    /// All that is kept of a day.
    fn day(&mut self, stream: Stream, day: Day) -> Result<DayBook, Unavailable>
        ensures of_day { IfOk result (λ book. (book.stream ≡ stream) × (book.day ≡ day)) }
        ensures book { Asks (kept self.old) (kept self.new) result IsDay }
        ensures asked { asks self.old stream day day self.new };

    /// The known days of a stream from a first to a last one, ascending.
    fn days(&mut self, stream: Stream, first: Day, last: Day) -> Result<Vec<DayBook>, Unavailable>
        ensures books { Asks (kept self.old) (kept self.new) result (λ w books. AreDaysOf w stream first last books.items) }
        ensures asked { asks self.old stream first last self.new };

    /// Those of the days that don't have these details yet, ascending, each once.
    fn days_without(&mut self, details: &DetailDays) -> Result<Vec<Day>, Unavailable>
        ensures days { Asks (kept self.old) (kept self.new) result (λ w days. AreDaysWithout w details.now days.items) }
        ensures asked { others self.old self.new };

    /// Whether the event is kept.
    fn has_event(&mut self, event: &Event) -> Result<bool, Unavailable>
        ensures known { Asks (kept self.old) (kept self.new) result (λ w has. IsTrue has ↔ (EventIs event.now ∈ w)) }
        ensures asked { others self.old self.new };

    /// Adds what isn't there yet: all of it, or nothing if it is unavailable.
    fn commit(&mut self, additions: Additions) -> Result<(), Unavailable>
        requires new { (kept self.old).sound → IsLawful (kept self.old).world → AreNew (kept self.old).world additions }
        requires lawful { (kept self.old).sound → IsLawful (kept self.old).world
            → IsLawful (union (kept self.old).world (content additions)) }
        requires placed { (kept self.old).sound → IsLawful (kept self.old).world → AreInPlace (kept self.old).world additions }
        ensures adds { Adds (kept self.old) (kept self.new) result (content additions) }
        ensures asked { others self.old self.new };

    /// What is sound is honest.
    ghost sound_honest: { (keeper : Self) → (kept keeper).sound → (kept keeper).honest };

    /// While it is sound, a crash leaves what is kept.
    ghost settled: { (keeper : Self) → (kept keeper).sound → (left : World) → (kept keeper).may_leave left
        → left ≡ (kept keeper).world };
}

/// Any `Keeper` is an `ImportKeeper`, by relations that record nothing. What is proved over an `ImportKeeper` holds for it as for any
/// other relation.
impl<K: Keeper> ImportKeeper for K {
    ghost kept = { K.kept };

    ghost asks = { λ _ _ _ _ _. Unit {0} };

    ghost others = { λ _ _. Unit {0} };

    fn day(&mut self, stream: Stream, day: Day) -> Result<DayBook, Unavailable> {
        Keeper::day(self, stream, day)
    }

    fn days(&mut self, stream: Stream, first: Day, last: Day) -> Result<Vec<DayBook>, Unavailable> {
        Keeper::days(self, stream, first, last)
    }

    fn days_without(&mut self, details: &DetailDays) -> Result<Vec<Day>, Unavailable> {
        Keeper::days_without(self, details)
    }

    fn has_event(&mut self, event: &Event) -> Result<bool, Unavailable> {
        Keeper::has_event(self, event)
    }

    fn commit(&mut self, additions: Additions) -> Result<(), Unavailable> {
        Keeper::commit(self, additions)
    }

    ghost sound_honest = { K.sound_honest };

    ghost settled = { K.settled };
}
