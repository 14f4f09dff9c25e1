//! What takes the records of a file.

ghost use Rattle.std.specs.Prelude.{◌≡◌, ◌+◌, ℕ, List, [], ◌∷◌, ◌++◌, length, Option, None, Some, Ok, MatchResult};
ghost use Rattle.mds_lines.specs.Kinds.{kind_of};
ghost use Rattle.mds_lines.specs.Numbered.{number_of, text_of};
ghost use Rattle.mds_records.specs.declared.file.FileFault.{FileFault};
ghost use Rattle.mds_walk.specs.Answers.{Takes};
ghost use Rattle.mds_walk.specs.Faults.{Judge};

use crate::fault::TakeFault;
use mds_lines::{Kind, Line};
use mds_records::FaultCode;

/// Takes the records of a file one after the other, and judges them as its kind of file does.
pub trait RecordSink {
    /// What it made of a whole file.
    type Output;

    /// How it judges.
    ghost judge: { Judge };

    /// It has taken these lines of a file, and none of them has a fault.
    ghost taken: { Self → List (List ℕ) → Type 0 };

    /// This was made of these lines, all those of a file.
    ghost made: { Self.Output → List (List ℕ) → Type 0 };

    /// Memory may run out for a line after these lines that has this fault, if it has one.
    ghost may_lack: { List (List ℕ) → List ℕ → Option FileFault → Type 0 };

    /// Takes the next line, which is empty.
    fn take_empty(&mut self)
        ensures { (before : List (List ℕ)) → taken self.old before → taken self.new (before ++ [] ∷ []) };

    /// Takes the next line, a record of a kind, or returns the fault that it has after the lines before it.
    fn take_record(&mut self, line: &Line<'_>, kind: Kind) -> Result<(), TakeFault>
        requires { kind_of (text_of line.now) ≡ Ok kind }
        ensures { (before : List (List ℕ)) → taken self.old before → number_of line.now ≡ length before + 1
            → Takes taken may_lack before (text_of line.now) (judge.of_record before (text_of line.now) kind)
            result self.new };

    /// Ends the file, or returns what is wrong with an end after the last line.
    fn finish(self) -> Result<Self::Output, FaultCode>
        ensures { (before : List (List ℕ)) → taken self before
            → MatchResult result (λ output. (judge.of_end before ≡ None) × made output before)
            (λ code. judge.of_end before ≡ Some code) };
}
