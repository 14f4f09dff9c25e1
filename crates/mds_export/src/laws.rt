//! Laws of the text of a selection. The functions do nothing.

ghost use Rattle.std.specs.Prelude.{◌≡◌, ℕ, List};
ghost use Rattle.mds_statements.specs.Statements.{HeaderValue};
ghost use Rattle.mds_export.specs.Lawful.{AreLawful};
ghost use Rattle.mds_statements.specs.Selected.{AreOrderly};
ghost use Rattle.mds_export.specs.Exports.{IsExport};
ghost use Rattle.mds_export.specs.Shows.{Shows};
ghost use Rattle.mds_statements.specs.declared.selected.SelectedStream.{SelectedStream};

/// A text in the form of a selection's export has no fault, and states what was selected and
/// nothing else.
pub fn export_reads_back()
    ensures { (header : HeaderValue) (streams : List SelectedStream) (text : List ℕ) → AreLawful header streams
        → AreOrderly streams → IsExport header streams text → Shows header streams text }
{}

/// Only one text has the form of a selection's export under a header.
pub fn one_export_text()
    ensures { (header : HeaderValue) (streams : List SelectedStream) (a b : List ℕ)
        → IsExport header streams a → IsExport header streams b → a ≡ b }
{}
