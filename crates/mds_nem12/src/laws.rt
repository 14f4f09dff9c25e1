//! Laws of the definitions of a NEM12 file. The functions do nothing.

ghost use Rattle.std.specs.Prelude.{◌≡◌, ◌<◌, ◌≤◌, ◌++◌, ◌∷◌, [], ℕ, List, map, length, None, Some, IsTrue, Contains};
ghost use Rattle.std.specs.List.{All, AllPairs};
ghost use Rattle.mds_calendar.specs.Length.{count_of, is_length};
ghost use Rattle.mds_records.specs.declared.file.FileFault.{FileFault};
ghost use Rattle.mds_lines.specs.Lines.{line_feed, line_pieces, line_text, most_lines};
ghost use Rattle.mds_runs.specs.Runs.{holds};
ghost use Rattle.mds_runs.specs.declared.cover.Run.{Run};
ghost use Rattle.mds_walk.specs.SoFar.{fault_so_far, whole_pieces};
ghost use Rattle.mds_nem12.specs.Faults.{fault_at, fault_of, nem12};
ghost use Rattle.mds_nem12.specs.Governing.{runs_of};
ghost use Rattle.mds_statements.specs.Statements.{days_of};
ghost use Rattle.mds_nem12.specs.Statements.{statements_of};

/// In a well formed file at most one run of a day holds an interval.
pub fn one_run_of_a_day()
    ensures { (text : List ℕ) (day interval : ℕ) (run other : Run) → fault_of text ≡ None
        → Contains (runs_of (map line_text (line_pieces text)) day) run
        → Contains (runs_of (map line_text (line_pieces text)) day) other
        → IsTrue (holds interval run) → IsTrue (holds interval other) → run ≡ other }
{}

/// The fault of a line depends only on the lines up to it. A fault found in whole lines is the fault of every text that
/// continues them.
pub fn fault_is_of_every_longer_text()
    ensures line { (before more : List (List ℕ)) (k : ℕ) → k ≤ length before
        → fault_at (before ++ more) k ≡ fault_at before k }
    ensures text { (text more : List ℕ) (fault : FileFault)
        → fault_of (text ++ line_feed ∷ []) ≡ Some fault
        → fault.line ≤ length (line_pieces (text ++ line_feed ∷ []))
        → fault_of (text ++ line_feed ∷ more) ≡ Some fault }
{}

/// A fault of the file so far is the fault of every file that begins with it. Once the line of a file's fault is whole,
/// that fault is the one so far.
pub fn fault_is_fed()
    ensures every { (text more : List ℕ) (fault : FileFault) → fault_so_far nem12 text ≡ Some fault
        → fault_of (text ++ more) ≡ Some fault }
    ensures early { (text : List ℕ) (fault : FileFault) → fault_of text ≡ Some fault
        → fault.line ≤ length (whole_pieces text) → fault_so_far nem12 text ≡ Some fault }
{}

/// The days that a text states are on ascending lines, each with a reading for each interval of its length. In a well
/// formed file they are no more than a file has lines, and each length is that of an interval.
pub fn days_are_orderly()
    ensures lines { (text : List ℕ)
        → AllPairs (λ a b. a.line < b.line) (days_of (statements_of text)) }
    ensures whole { (text : List ℕ)
        → All (λ day. length day.readings ≡ count_of day.length) (days_of (statements_of text)) }
    ensures few { (text : List ℕ) → fault_of text ≡ None
        → length (days_of (statements_of text)) ≤ most_lines }
    ensures lengths { (text : List ℕ) → fault_of text ≡ None
        → All (λ day. IsTrue (is_length day.length)) (days_of (statements_of text)) }
{}
