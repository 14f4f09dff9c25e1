//! The request to import a file.

ghost use Rattle.std.specs.Prelude.{ℕ, List};
ghost use Rattle.mds_nem12.specs.Reader.{HasRead};
ghost use Rattle.mds_records.specs.declared.file.FileKind.TheVariants as kinds;
ghost use Rattle.mds_statements.specs.Delivered.{delivery_statements};
ghost use Rattle.mds_statements.specs.Statements.{days_of};
ghost use Rattle.mds_service.specs.Asking.{AreStated, AsksOnly};
ghost use Rattle.mds_service.specs.Crashes.{GoesBy};
ghost use Rattle.mds_service.specs.Halts.{answer_of};
ghost use Rattle.mds_service.specs.Machine.{ImportStep, TakesIn};

use crate::accumulating::import_nem13;
use crate::asking::ImportKeeper;
use crate::collecting::{Collected, collect};
use crate::details::new_details;
use crate::halt::{Halt, answer_of};
use crate::news::new_events;
use crate::settling::settle;
use mds_keeper::{Keeper, MergeCounts};
use mds_messages::Answer;
use mds_nem12::{Reader, read_nem12};
use mds_records::FileKind;
use mds_statements::Delivery;
use std::alloc::Global;

/// Imports what a file of a kind states: all of it by one commit, or nothing.
pub(crate) fn import<K: Keeper>(
    alloc: Global,
    keeper: &mut K,
    kind: FileKind,
    text: &[u8],
) -> Result<Answer, Halt>
    // It is a step of the machine. A crash leaves what it left before, or the World after it. If the answer is Unavailable, it may
    // leave the World that another answer would have made.
    ensures { GoesBy (K.kept keeper.old) (K.kept keeper.new) (λ w. ImportStep w kind text.now) (answer_of result) }
{
    match kind {
        FileKind::Nem12 => import_nem12(alloc, keeper, text),
        FileKind::Nem13 => import_nem13(alloc, keeper, text),
    }
}

/// Imports the days, details and events that a NEM12 file states: all of them by one commit, or none.
fn import_nem12<K: Keeper>(alloc: Global, keeper: &mut K, text: &[u8]) -> Result<Answer, Halt>
    ensures { GoesBy (K.kept keeper.old) (K.kept keeper.new) (λ w. ImportStep w kinds.Nem12 text.now) (answer_of result) }
{
    let delivery = read_nem12(alloc, text)?;
    taken_in(alloc, keeper, delivery)
}

/// Ends a NEM12 file that a reader was fed, and imports what it states: all of it by one commit, or nothing. It is the step of an
/// import of the text, in whatever pieces it came.
pub fn import_fed<K: Keeper>(alloc: Global, keeper: &mut K, reader: Reader) -> Answer
    ensures { (text : List ℕ) → HasRead text reader
        → GoesBy (K.kept keeper.old) (K.kept keeper.new) (λ w. ImportStep w kinds.Nem12 text) result }
{
    answer_of(finished(alloc, keeper, reader))
}

/// Ends a NEM12 file that a reader was fed, and imports what it states.
fn finished<K: Keeper>(alloc: Global, keeper: &mut K, reader: Reader) -> Result<Answer, Halt>
    ensures { (text : List ℕ) → HasRead text reader
        → GoesBy (K.kept keeper.old) (K.kept keeper.new) (λ w. ImportStep w kinds.Nem12 text) (answer_of result) }
{
    let delivery = reader.finish()?;
    taken_in(alloc, keeper, delivery)
}

/// Imports a delivery: all that it states by one commit, or nothing. A reader of a NEM12 file in pieces returns a delivery at its
/// end. The answer is that of an import of any file with these statements. The delivery is only borrowed, so its readings are
/// copied. A caller that is done with it uses `import_delivery`.
pub fn apply_delivery<K: Keeper>(alloc: Global, keeper: &mut K, delivery: &Delivery) -> Answer
    ensures { GoesBy (K.kept keeper.old) (K.kept keeper.new) (λ w. TakesIn w (delivery_statements delivery.now)) result }
{
    answer_of(copied_in(alloc, keeper, delivery))
}

/// Imports a copy of a delivery.
fn copied_in<K: Keeper>(alloc: Global, keeper: &mut K, delivery: &Delivery) -> Result<Answer, Halt>
    ensures { GoesBy (K.kept keeper.old) (K.kept keeper.new) (λ w. TakesIn w (delivery_statements delivery.now)) (answer_of result) }
{
    let copy = delivery.try_clone()?;
    taken_in(alloc, keeper, copy)
}

/// Imports a delivery as `apply_delivery` does, and moves its readings.
pub fn import_delivery<K: Keeper>(alloc: Global, keeper: &mut K, delivery: Delivery) -> Answer
    ensures { GoesBy (K.kept keeper.old) (K.kept keeper.new) (λ w. TakesIn w (delivery_statements delivery)) result }
{
    answer_of(taken_in(alloc, keeper, delivery))
}

/// Imports what a delivery states: all of it by one commit, or nothing.
fn taken_in<K: ImportKeeper>(
    alloc: Global,
    keeper: &mut K,
    delivery: Delivery,
) -> Result<Answer, Halt>
    ensures step { GoesBy (K.kept keeper.old) (K.kept keeper.new) (λ w. TakesIn w (delivery_statements delivery)) (answer_of result) }

    // It asks for no other days than those that the file states.
    ensures asked { AsksOnly K.asks K.others (AreStated (days_of (delivery_statements delivery))) keeper.old keeper.new }
{
    let collected = collect(alloc, keeper, delivery)?;
    let Collected {
        merges,
        details,
        events,
    } = collected;
    let details = new_details(alloc, keeper, details)?;
    let events = new_events(alloc, keeper, events)?;
    let settled = settle(alloc, merges)?;
    let (mut additions, counts) = settled;
    let MergeCounts { added, known } = counts;
    additions.details = details;
    additions.events = events;
    // Only what was committed is acknowledged.
    match keeper.commit(additions) {
        Ok(()) => Ok(Answer::Imported { added, known }),
        Err(unavailable) => Err(Halt::from(unavailable)),
    }
}
