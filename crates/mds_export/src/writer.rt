//! The writer of a selection, row by row.

ghost use Rattle.std.specs.Prelude.{◌≡◌, ℕ, List, OnOk, OnErr};
ghost use Rattle.mds_quantity.specs.Append.{Appends};
ghost use Rattle.mds_statements.specs.Delivered.{header_value};
ghost use Rattle.mds_export.specs.Shows.{Shows};

use crate::row::{
    DayRow, DetailsRow, HeaderRow, RunRow, write_day, write_details, write_end, write_header,
    write_run,
};
use mds_runs::Run;
use mds_statements::{Header, SelectedDay, SelectedStream, Selection};
use mds_terms::Mark;
use std::alloc::AllocError;

/// Appends the text of a selection under a header: the lines of a NEM12 file that reads back as what was selected. It takes
/// memory only for the text, and fails only if that is refused. Then nothing is appended.
pub fn write_nem12(
    selection: &Selection,
    header: &Header,
    out: &mut Vec<u8>,
) -> Result<(), AllocError>
    ensures done { OnOk result ((text : List ℕ) × Shows (header_value header.now) selection.now.streams.items text
        × Appends out.old.items out.new.items text) }
    ensures kept { OnErr result (out.new.items ≡ out.old.items) }
{
    let start = out.len();
    let Ok(()) = write_all(&selection.streams, header, out) else {
        out.truncate(start);
        return Err(AllocError);
    };
    Ok(())
}

ghost use Rattle.std.specs.Prelude.{[], ◌∷◌, None, map, option_map};
ghost use Rattle.mds_export.specs.Begun.{Begins};
ghost use Rattle.mds_export.specs.Placed.{is_governed, placed_after, placed_days};
ghost use Rattle.mds_export.specs.Exports.{AreInTurn, day_row, details_rows, run_row};
ghost use Rattle.mds_export.specs.WriterSteps.{AreWritten, HasDayText, IsWritten, IsWrittenExport};

/// Appends the whole text, or after an error a part of it.
fn write_all(
    streams: &[SelectedStream],
    header: &Header,
    out: &mut Vec<u8>,
) -> Result<(), AllocError>
    ensures done { OnOk result ((text : List ℕ) × IsWrittenExport (header_value header.now) streams.now text
        × Appends out.old.items out.new.items text) }
    ensures grown { OnErr result (Begins out.old.items out.new.items) }
{
    let row = HeaderRow {
        moment: header.moment,
        sender: header.sender.borrowed(),
        receiver: header.receiver.borrowed(),
    };
    write_header(&row, out)?;
    write_streams(streams, out)?;
    write_end(out)
}

/// Appends the rows of the days of all streams, or after an error a part of that.
fn write_streams(streams: &[SelectedStream], out: &mut Vec<u8>) -> Result<(), AllocError>
    ensures done { OnOk result ((text : List ℕ) × AreWritten (placed_days streams.now) text
        × Appends out.old.items out.new.items text) }
    ensures grown { OnErr result (Begins out.old.items out.new.items) }
{
    for selected in streams {
        write_stream(selected, out)?;
    }
    Ok(())
}

/// Appends the rows of the days of a stream, or after an error a part of that.
fn write_stream(selected: &SelectedStream, out: &mut Vec<u8>) -> Result<(), AllocError>
    ensures done { OnOk result ((text : List ℕ) × AreWritten (placed_after selected.now None selected.now.days.items) text
        × Appends out.old.items out.new.items text) }
    ensures grown { OnErr result (Begins out.old.items out.new.items) }
{
    let mut before = None;
    for day in &selected.days {
        write_placed(selected, before, day, out)?;
        before = Some(day);
    }
    Ok(())
}

/// Appends the rows of a day after the one before it, or after an error a part of that.
fn write_placed(
    selected: &SelectedStream,
    before: Option<&SelectedDay>,
    day: &SelectedDay,
    out: &mut Vec<u8>,
) -> Result<(), AllocError>
    ensures done { OnOk result ((text : List ℕ) × AreWritten (record {
      selected = selected.now;
      before = option_map (λ before. before.now) before.entry;
      day = day.now;
    } ∷ []) text × Appends out.old.items out.new.items text) }
    ensures grown { OnErr result (Begins out.old.items out.new.items) }
{
    write_new_details(selected, before, day, out)?;
    write_readings(day, out)
}

/// Appends the 200 of a day, unless that of the day before governs it, or after an error a part of it.
fn write_new_details(
    selected: &SelectedStream,
    before: Option<&SelectedDay>,
    day: &SelectedDay,
    out: &mut Vec<u8>,
) -> Result<(), AllocError>
    ensures done { OnOk result ((text : List ℕ) × AreInTurn IsWritten (details_rows (record {
      selected = selected.now;
      before = option_map (λ before. before.now) before.entry;
      day = day.now;
    })) text × Appends out.old.items out.new.items text) }
    ensures grown { OnErr result (Begins out.old.items out.new.items) }
{
    if is_governed(before, day) {
        return Ok(());
    }
    let row = DetailsRow {
        stream: selected.stream,
        details: &day.details,
        unit: day.unit,
        length: day.length,
    };
    write_details(&row, out)
}

/// Whether the 200 of the day before governs this day too: both have the same length, unit and details.
fn is_governed(before: Option<&SelectedDay>, day: &SelectedDay) -> bool
    ensures { result ≡ is_governed (option_map (λ before. before.now) before.entry) day.now }
{
    // For the proof: the laws of their `==`.
    let _ = day.length.minutes();
    let _ = day.unit.text();
    // decides: when does an export write a 200?
    match before {
        Some(before) => {
            before.length == day.length && before.unit == day.unit && before.details == day.details
        }
        None => false,
    }
}

/// Appends the 300 of a day and its 400s, or after an error a part of that.
fn write_readings(day: &SelectedDay, out: &mut Vec<u8>) -> Result<(), AllocError>
    ensures done { OnOk result ((text : List ℕ) × HasDayText day.now text
        × Appends out.old.items out.new.items text) }
    ensures grown { OnErr result (Begins out.old.items out.new.items) }
{
    // decides: when is an exported day V with 400 records?
    let runs = day.readings.runs();
    if runs.len() == 1 {
        return write_interval_data(day, Some(&runs[0].mark), out);
    }
    write_interval_data(day, None, out)?;
    write_runs(runs, out)
}

/// Appends the 300 of a day, with one mark or of variable quality, or after an error a part of it.
fn write_interval_data(
    day: &SelectedDay,
    mark: Option<&Mark>,
    out: &mut Vec<u8>,
) -> Result<(), AllocError>
    ensures done { OnOk result ((text : List ℕ) × IsWritten (day_row day.now (option_map (λ mark. mark.now) mark.entry)) text
        × Appends out.old.items out.new.items text) }
    ensures grown { OnErr result (Begins out.old.items out.new.items) }
{
    let row = DayRow {
        date: day.date,
        readings: &day.readings,
        mark,
        update: day.update,
    };
    write_day(&row, out)
}

/// Appends a 400 for each run, or after an error a part of that.
fn write_runs(runs: &[Run], out: &mut Vec<u8>) -> Result<(), AllocError>
    ensures done { OnOk result ((text : List ℕ) × AreInTurn IsWritten (map run_row runs.now) text
        × Appends out.old.items out.new.items text) }
    ensures grown { OnErr result (Begins out.old.items out.new.items) }
{
    for run in runs {
        let row = RunRow {
            first: run.first,
            last: run.last,
            mark: &run.mark,
        };
        write_run(&row, out)?;
    }
    Ok(())
}
