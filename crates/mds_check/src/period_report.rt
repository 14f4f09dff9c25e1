//! What is printed of a NEM13 file: a line for each of its accumulations.

ghost use Rattle.std.specs.Prelude.{◌≡◌, ℕ, List, [], Some, OnOk, string_bytes};
ghost use Rattle.mds_calendar.specs.Calendar.{moment_of};
ghost use Rattle.mds_quantity.specs.Append.{Appends};
ghost use Rattle.mds_quantity.specs.Quantity.{written};
ghost use Rattle.mds_quantity.specs.Unit.{unit_text};
ghost use Rattle.mds_check.specs.Report.{period_line};

use crate::checking::CheckFault;
use mds_lines::Source;
use mds_nem13::{PeriodSink, ReadFault, read_lines};
use mds_records::{AccumulationB2bDetailsRecord, AccumulationDataRecord, HeaderRecord};
use mds_terms::Moment;
use std::alloc::{AllocError, Global};

/// The lines of the accumulations of a file, as far as it was read.
#[derive(Drop)]
pub(crate) struct PeriodReport {
    text: String,
}

impl PeriodReport {
    /// The state before the first accumulation.
    pub(crate) fn new(alloc: Global) -> PeriodReport
        ensures { string_bytes result.text ≡ [] }
    {
        PeriodReport {
            text: String::new(alloc),
        }
    }

    /// The lines.
    pub(crate) fn into_text(self) -> String
        ensures { result ≡ self.text }
    {
        self.text
    }
}

impl PeriodSink for PeriodReport {
    ghost use Rattle.mds_check.specs.Report.{IsReport};
    ghost use Rattle.std.specs.Prelude.{string_bytes};

    ghost told = { λ report statements. IsReport statements (string_bytes report.text) };

    fn header(&mut self, _: &HeaderRecord<'_>) -> Result<(), AllocError> {
        Ok(())
    }

    fn period(
        &mut self,
        _: u64,
        _: Moment,
        period: &AccumulationDataRecord<'_>,
    ) -> Result<(), AllocError> {
        write_period(period, &mut self.text)
    }

    fn note(&mut self, _: &AccumulationB2bDetailsRecord<'_>) -> Result<(), AllocError> {
        Ok(())
    }
}

/// Appends the line of an accumulation: `NMI suffix previous current quantity unit`.
fn write_period(period: &AccumulationDataRecord<'_>, text: &mut String) -> Result<(), AllocError>
    ensures { OnOk result ((start : List ℕ) × (finish : List ℕ)
        × (moment_of start ≡ Some period.now.previous.moment) × (moment_of finish ≡ Some period.now.current.moment)
        × Appends (string_bytes text.old) (string_bytes text.new) (period_line period.now.stream start finish
        (written period.now.quantity) (unit_text period.now.unit))) }
{
    period.stream.nmi().write_to(text)?;
    text.push(' ')?;
    period.stream.suffix().write_to(text)?;
    text.push(' ')?;
    period.previous.moment.write_to(text)?;
    text.push(' ')?;
    period.current.moment.write_to(text)?;
    text.push(' ')?;
    period.quantity.write_to(text)?;
    text.push(' ')?;
    text.push_str(period.unit.text())?;
    text.push('\n')
}

ghost use Rattle.std.specs.Prelude.{◌+◌, ◌-◌, ◌*◌, ◌^◌, ◌<◌, ◌≤◌, Err, IfOk, IfSome, false, if◌then◌else◌, length};
ghost use Rattle.std.specs.List.{concat};
ghost use Rattle.mds_lines.specs.Lines.{longest_line, most_lines};
ghost use Rattle.mds_lines.specs.Reads.{Reads, block};
ghost use Rattle.mds_records.specs.declared.file.FileFault.{FileFault};
ghost use Rattle.mds_records.specs.declared.file.FileKind.{FileKind};
ghost use Rattle.mds_check.specs.Answer.{IsReportRead, is_read_fault, is_write_fault};
ghost use Rattle.mds_check.specs.Report.{IsFaultOf, IsReportOf, fault_by_now};
ghost use Rattle.mds_nem12.specs.Answers.{AreCallsNeeded};

/// The text to be printed of a NEM13 file.
pub(crate) fn report_of_periods<R: Source>(
    alloc: Global,
    reader: &mut R,
) -> Result<String, CheckFault>
    requires { R.failures reader.old < 2 ^ 64 - 1 }
    ensures done { IfOk result (λ out. IfSome (R.remaining reader.old)
        (λ text. IsReportOf FileKind.Nem13 text (string_bytes out))) }
    ensures fault { (fault : FileFault) → result ≡ Err (CheckFault.File fault)
        → IfSome (R.remaining reader.old) (λ text. IsFaultOf FileKind.Nem13 text fault) }
    ensures reader { R.failures reader.new ≡ R.failures reader.old + (if is_read_fault result then 1 else 0) }
    ensures given { (given : List (List ℕ)) × Reads R.gives reader.old given reader.new
        × (length (concat given) ≤ most_lines * (longest_line + 1) + block)
        × AreCallsNeeded (fault_by_now FileKind.Nem13) [] false given
        × IsReportRead FileKind.Nem13 string_bytes given result }
    ensures nothing { is_write_fault result ≡ false }
{
    match read_lines(alloc, reader, PeriodReport::new(alloc)) {
        Ok(report) => Ok(report.into_text()),
        Err(ReadFault::File(fault)) => Err(CheckFault::File(fault)),
        Err(ReadFault::Read) => Err(CheckFault::Read),
        Err(ReadFault::Memory) => Err(CheckFault::Memory),
    }
}
