//! The book of a day, from its rows of mds_form and of mds_pack. Both tables have one row for each update, in the same order. Rows
//! that don't match in this way are unavailable.

ghost use Rattle.std.specs.Prelude.{◌≡◌, ◌<◌, ◌^◌, ◌++◌, ◌∷◌, [], ℕ, length as list_length, map, IfOk, IfSome, OnOk};
ghost use Rattle.mds_names.specs.declared.stream.Stream.{Stream as StreamValue};
ghost use Rattle.mds_keeper.specs.Books.{row_fact};
ghost use Rattle.mds_keeper.specs.Content.{rows_of};
ghost use Rattle.mds_tables.specs.RowFacts.{natural_at};
ghost use Rattle.mds_pack_rows.specs.PackFacts.{facts_from, minutes_of, readings_facts};
ghost use Rattle.mds_commit.specs.FormRows.{AddsRow, AreUnder, IsBookOf};

use mds_keeper::{DayBook, Unavailable, Version, VersionRows};
use mds_pack_rows::{blob_at, readings_for, unpack_whole};
use mds_quantity::Unit;
use mds_tables::{length_at, moment_at, told};
use mds_terms::{Day, Length, Moment, Reading, Stream};
use sqlite::Row;
use std::alloc::Global;

/// The book of a day with this unit. Rows of mds_form and of mds_pack are taken in pairs: a head, and the versions under it.
/// Unavailable if the versions aren't those of a day.
pub(crate) fn book_of(
    alloc: Global,
    stream: &Stream,
    day: Day,
    unit: Unit,
    forms: &[Row],
    packs: &[Row],
) -> Result<DayBook, Unavailable>
    ensures made { IfOk result (IsBookOf stream.now day unit forms.now packs.now) }
    ensures paired { OnOk result (list_length forms.now ≡ list_length packs.now) }
{
    let versions = versions_in(alloc, forms, packs)?;
    let book = DayBook::of_rows(alloc, *stream, day, Some(unit), versions)?;
    match book {
        Some(book) => Ok(book),
        None => Err(Unavailable),
    }
}

/// The versions that rows of a day hold. Those of a whole day under one update are never spread.
fn versions_in(alloc: Global, forms: &[Row], packs: &[Row]) -> Result<VersionRows, Unavailable>
    ensures under { IfOk result (λ versions. AreUnder forms.now packs.now (rows_of versions)) }
    ensures paired { OnOk result (list_length forms.now ≡ list_length packs.now) }
{
    // decides: what does a row of packed days say? (definition: pack_facts in mds_pack_rows/specs/PackFacts.antt)
    match whole_in(alloc, forms, packs)? {
        Some(versions) => Ok(versions),
        None => Ok(VersionRows::Each(each_in(alloc, forms, packs)?)),
    }
}

/// The versions of the only update, without spreading them, if it has a reading of each interval. Else `None`.
fn whole_in(alloc: Global, forms: &[Row], packs: &[Row]) -> Result<Option<VersionRows>, Unavailable>
    ensures under { IfOk result (λ o. IfSome o (λ versions. AreUnder forms.now packs.now (rows_of versions))) }
    ensures paired { IfOk result (λ o. IfSome o (λ _. list_length forms.now ≡ list_length packs.now)) }
{
    let [form] = forms else {
        return Ok(None);
    };
    let [pack] = packs else {
        return Ok(None);
    };
    let Some(head) = head_in(form, pack) else {
        return Ok(None);
    };
    let (update, length) = head;
    let Some(body) = blob_at(pack, 1) else {
        return Ok(None);
    };
    let Some(readings) = unpack_whole(alloc, length, body)? else {
        return Ok(None);
    };
    // For the proof: a day has at least one interval of this length.
    let _ = length.count();
    Ok(Some(VersionRows::Whole(length, update, readings)))
}

/// The versions that rows of a day hold, one by one. Unavailable if one table has more rows than the other.
fn each_in(alloc: Global, forms: &[Row], packs: &[Row]) -> Result<Vec<(u16, Version)>, Unavailable>
    ensures under { IfOk result (λ versions. AreUnder forms.now packs.now versions.items) }
    ensures paired { OnOk result (list_length forms.now ≡ list_length packs.now) }
{
    // decides: which rows of a day are refused?
    if forms.len() != packs.len() {
        return Err(Unavailable);
    }
    let mut versions = Vec::new(alloc);
    for i in 0..packs.len() {
        add_row(alloc, &forms[i], &packs[i], &mut versions)?;
    }
    Ok(versions)
}

/// Adds the versions of an update. Unavailable if the rows are of two updates, or the body has no reading of this length.
fn add_row(
    alloc: Global,
    form: &Row,
    pack: &Row,
    versions: &mut Vec<(u16, Version)>,
) -> Result<(), Unavailable>
    ensures { OnOk result (AddsRow form.now pack.now versions.old.items versions.new.items) }
{
    let head = told(head_in(form, pack))?;
    let (update, length) = head;
    // decides: which rows of a day are refused?
    let readings = told(readings_for(alloc, length, pack, 1)?)?;
    add_held(length, update, readings, versions)
}

/// The update and the length that a row of mds_form says. `None` if the row of mds_pack is of another update.
fn head_in(form: &Row, pack: &Row) -> Option<(Moment, Length)>
    ensures update { IfSome result (λ head. natural_at form.now 0 ≡ head.0) }
    ensures length { IfSome result (λ head. natural_at form.now 1 ≡ head.1) }
    ensures pack { IfSome result (λ head. natural_at pack.now 0 ≡ head.0) }
{
    let update = moment_at(form, 0)?;
    let length = length_at(form, 1)?;
    let of_pack = moment_at(pack, 0)?;
    // decides: which rows of a day are refused?
    if of_pack == update {
        Some((update, length))
    } else {
        None
    }
}

/// Adds a version with this length for each reading.
fn add_held(
    length: Length,
    update: Moment,
    readings: Vec<Option<Reading>>,
    versions: &mut Vec<(u16, Version)>,
) -> Result<(), Unavailable>
    requires few { list_length readings.items < 2 ^ 16 }
    requires len { minutes_of (list_length readings.items) ≡ length }
    ensures { OnOk result ((s : StreamValue) (day : ℕ) → map (row_fact s day) versions.new.items ≡ map (row_fact s day) versions.old.items ++ readings_facts s day update readings.items) }
{
    let mut interval: u16 = 0;
    for reading in readings {
        interval += 1;
        add_one(interval, length, update, reading, versions)?;
    }
    Ok(())
}

/// Adds the version of an interval with this length, if it has a reading.
fn add_one(
    interval: u16,
    length: Length,
    update: Moment,
    reading: Option<Reading>,
    versions: &mut Vec<(u16, Version)>,
) -> Result<(), Unavailable>
    ensures { OnOk result ((s : StreamValue) (day : ℕ) → map (row_fact s day) versions.new.items ≡ map (row_fact s day) versions.old.items ++ facts_from s day length update interval (reading ∷ [])) }
{
    if let Some(reading) = reading {
        let version = Version {
            update,
            length,
            reading,
        };
        versions.push((interval, version))?;
    }
    Ok(())
}
