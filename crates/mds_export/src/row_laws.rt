//! Laws of the lines of rows. The functions do nothing.

ghost use Rattle.std.specs.Prelude.{ℕ, List};
ghost use Rattle.mds_export.specs.ReadBack.{IsInBounds, IsLawful, ReadsBack};
ghost use Rattle.mds_export.specs.Rows.{IsRowText, RowValue};

/// Each line of a row, read in the way of a file's lines, has no fault, and states exactly the row's parts. The law covers
/// rows whose parts are lawful terms. A day has at most 288 values. A run has intervals of at most four digits, and isn't
/// of variable quality.
pub fn rows_read_back()
    ensures { (row : RowValue) (text : List ℕ)
        → IsLawful row → IsInBounds row → IsRowText row text → ReadsBack row text }
{}
