//! Rows of details of days, as terms. `None` if the store doesn't write such a row.

ghost use Rattle.std.specs.Prelude.{◌≡◌, ◌≢◌, ◌<◌, ◌^◌, ℕ, List, Option, IfNone, IfOk, IfSome, IsTrue, OnErr};
ghost use Rattle.std.specs.Bool.{OnFalse};
ghost use Rattle.sqlite.specs.declared.types.Value.TheVariants.{Text};
ghost use Rattle.sqlite.specs.Order.{column};
ghost use Rattle.mds_terms.specs.BorrowedTexts.{details_in, text_of};
ghost use Rattle.mds_terms.specs.Details.{DetailsValue};
ghost use Rattle.mds_terms.specs.Printable.{is_printable};
ghost use Rattle.mds_tables.specs.Cells.{number_cell, optional_cell};
ghost use Rattle.mds_tables.specs.RowFacts.{natural_at, optional_at};
ghost use Rattle.mds_tables.specs.Written.{IsDay};
ghost use Rattle.mds_commit.specs.Shown.{IsDetailRow, IsRowOf, shown_details, text_length};

use mds_keeper::Unavailable;
use mds_tables::{int_at, text_at, told};
use mds_terms::{Day, Details, DetailsRef, PrintableText};
use sqlite::Row;
use std::alloc::{AllocError, Global};

/// Whether neither number of a row is below the least that the store writes.
pub(crate) fn is_detail_row(row: &Row) -> bool
    ensures yes { IsTrue result → IsDetailRow row.now }
    ensures no { OnFalse result ((moment : ℕ) (details : DetailsValue) → ¬ IsRowOf row.now moment details) }
{
    is_natural_at(row, 0) && is_optional_at(row, 5)
}

/// Whether a column has a number that isn't below 0.
fn is_natural_at(row: &Row, at: usize) -> bool
    ensures yes { IsTrue result → natural_at row.now at < 2 ^ 63 }
    ensures no { OnFalse result ((n : ℕ) → column row.now at ≢ number_cell n) }
{
    match int_at(row, at) {
        Some(number) => number >= 0,
        None => false,
    }
}

/// Whether a column has a number that isn't below -1.
fn is_optional_at(row: &Row, at: usize) -> bool
    ensures yes { IsTrue result → IfSome (optional_at row.now at) (λ n. n < 2 ^ 63) }
    ensures no { OnFalse result ((n : Option ℕ) → column row.now at ≢ optional_cell n) }
{
    match int_at(row, at) {
        Some(number) => number >= -1,
        None => false,
    }
}

/// The details in a row, after its moment. It takes memory only for their texts.
pub fn details_at(alloc: Global, row: &Row) -> Result<Details, Unavailable>
    ensures ok { IfOk result (λ details. shown_details row.now ≡ details) }
    ensures err { OnErr result ((moment : ℕ) (details : DetailsValue) → IsRowOf row.now moment details → 0 < text_length details) }
{
    told(details_read(alloc, row)?)
}

/// The details in a row, if they read.
fn details_read(alloc: Global, row: &Row) -> Result<Option<Details>, AllocError>
    ensures some { IfOk result (λ read. IfSome read (λ details. shown_details row.now ≡ details)) }
    ensures none { IfOk result (λ read. IfNone read ((moment : ℕ) (details : DetailsValue) → ¬ IsRowOf row.now moment details)) }
    ensures err { OnErr result ((moment : ℕ) (details : DetailsValue) → IsRowOf row.now moment details → 0 < text_length details) }
{
    let Some(it) = details_ref_in(row) else {
        return Ok(None);
    };
    let details = it.to_details(alloc)?;
    Ok(Some(details))
}

/// The details of a row, borrowed from it.
fn details_ref_in<'a>(row: &'a Row) -> Option<DetailsRef<'a>>
    ensures some { IfSome result (λ details. shown_details row.now ≡ details_in details) }
    ensures none { IfNone result ((moment : ℕ) (details : DetailsValue) → ¬ IsRowOf row.now moment details) }
{
    Some(DetailsRef {
        configuration: printable_at(row, 1)?,
        register: printable_at(row, 2)?,
        datastream: printable_at(row, 3)?,
        meter: printable_at(row, 4)?,
        next: next_at(row, 5)?,
    })
}

/// The printable text in a column.
fn printable_at<'a>(row: &'a Row, at: usize) -> Option<PrintableText<'a>>
    ensures some { IfSome result (λ text. column row.now at ≡ Text (text_of text)) }
    ensures none { IfNone result ((text : List ℕ) → IsTrue (is_printable text) → column row.now at ≢ Text text) }
{
    PrintableText::read(text_at(row, at)?)
}

/// The day in a column, which is -1 if absent. `None` if the number is neither.
fn next_at(row: &Row, at: usize) -> Option<Option<Day>>
    ensures some { IfSome result (λ day. optional_at row.now at ≡ day) }
    ensures none { IfNone result ((day : Option ℕ) → IfSome day IsDay → column row.now at ≢ optional_cell day) }
{
    match int_at(row, at)? {
        -1 => Some(None),
        number => Some(Some(Day::from_number(number)?)),
    }
}
