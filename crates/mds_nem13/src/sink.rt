//! What receives the statements of a file.

ghost use Rattle.std.specs.Prelude.{◌≡◌, ℕ, true, List, [], ◌∷◌, ◌++◌, OnOk};
ghost use Rattle.mds_records.specs.Records.{IsAccumulationB2bDetails, IsAccumulationData};
ghost use Rattle.mds_walk.specs.Said.{header_said, is_headed};
ghost use Rattle.mds_statements.specs.Statements.{PeriodStatement, Statement};
ghost use Rattle.mds_statements.specs.Statements.Statement.{HeaderOf, PeriodOf};
ghost use Rattle.mds_nem13.specs.Said.{note_in, period_in, with_notes};

use mds_records::{AccumulationB2bDetailsRecord, AccumulationDataRecord, HeaderRecord};
use mds_terms::Moment;
use std::alloc::AllocError;

/// Receives what a file states, in the order of its lines. A call fails only if memory is refused.
pub trait PeriodSink {
    /// It has received these statements, and no others.
    ghost told: { Self → List Statement → Type 0 };

    /// Receives the header, first of all.
    fn header(&mut self, header: &HeaderRecord<'_>) -> Result<(), AllocError>
        ensures { told self.old [] → OnOk result (told self.new (HeaderOf (header_said header.now) ∷ [])) };

    /// Receives the period that the 250 record on a line states, without notes yet, under a header with this
    /// moment.
    fn period(
        &mut self,
        line: u64,
        moment: Moment,
        period: &AccumulationDataRecord<'_>,
    ) -> Result<(), AllocError>
        ensures { (done : List Statement) (text : List ℕ) → told self.old done → is_headed done ≡ true
            → IsAccumulationData text period.now
            → OnOk result (told self.new (done ++ PeriodOf (period_in moment line text []) ∷ [])) };

    /// Receives another note of the period that it received last.
    fn note(&mut self, note: &AccumulationB2bDetailsRecord<'_>) -> Result<(), AllocError>
        ensures { (done : List Statement) (period : PeriodStatement) (text : List ℕ)
            → told self.old (done ++ PeriodOf period ∷ []) → is_headed done ≡ true
            → IsAccumulationB2bDetails text note.now
            → OnOk result (told self.new (done ++ PeriodOf (with_notes period (note_in text ∷ [])) ∷ [])) };
}
