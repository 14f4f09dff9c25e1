//! What is printed of a file: a line for each of its days.

ghost use Rattle.std.specs.Prelude.{◌≡◌, ℕ, List, [], Some, OnOk, string_bytes};
ghost use Rattle.mds_calendar.specs.Calendar.{day_of};
ghost use Rattle.mds_quantity.specs.Append.{Appends};
ghost use Rattle.mds_check.specs.Report.{day_line};
ghost use Rattle.mds_nem12.specs.Told.{day_said};

use crate::checking::CheckFault;
use itoa::Buffer;
use mds_lines::Source;
use mds_nem12::{DayData, Governing, ReadFault, StatementSink, read_lines};
use mds_quantity::write_millionths;
use mds_records::{B2bDetailsRecord, HeaderRecord, NmiDataDetailsRecord};
use mds_terms::{Day, Moment};
use std::alloc::{AllocError, Global};

/// The lines of the days of a file, as far as it was read.
#[derive(Drop)]
pub(crate) struct Report {
    text: String,
}

impl Report {
    /// The state before the first day.
    pub(crate) fn new(alloc: Global) -> Report
        ensures { string_bytes result.text ≡ [] }
    {
        Report {
            text: String::new(alloc),
        }
    }

    /// The lines.
    pub(crate) fn into_text(self) -> String
        ensures { result ≡ self.text }
    {
        self.text
    }
}

impl StatementSink for Report {
    ghost use Rattle.mds_check.specs.Report.{IsReport};
    ghost use Rattle.std.specs.Prelude.{string_bytes};

    ghost told = { λ report statements. IsReport statements (string_bytes report.text) };

    fn header(&mut self, _: &HeaderRecord<'_>) -> Result<(), AllocError> {
        Ok(())
    }

    fn details(
        &mut self,
        _: u64,
        _: Moment,
        _: &NmiDataDetailsRecord<'_>,
    ) -> Result<(), AllocError> {
        Ok(())
    }

    fn day(&mut self, governing: &Governing, day: &DayData) -> Result<(), AllocError> {
        write_day(governing, day, &mut self.text)
    }

    fn event(&mut self, _: &Governing, _: Day, _: &B2bDetailsRecord<'_>) -> Result<(), AllocError> {
        Ok(())
    }
}

/// Appends the line of a day: `NMI suffix date count total unit`.
fn write_day(governing: &Governing, day: &DayData, text: &mut String) -> Result<(), AllocError>
    ensures { OnOk result ((date : List ℕ) × (day_of date ≡ Some day.now.date)
        × Appends (string_bytes text.old) (string_bytes text.new) (day_line (day_said governing.now day.now) date)) }
{
    let tally = day.tally();
    governing.stream.nmi().write_to(text)?;
    text.push(' ')?;
    governing.stream.suffix().write_to(text)?;
    text.push(' ')?;
    day.date().write_to(text)?;
    text.push(' ')?;
    text.push_str(Buffer::new().format(tally.count))?;
    text.push(' ')?;
    write_millionths(tally.total, text)?;
    text.push(' ')?;
    text.push_str(governing.unit.text())?;
    text.push('\n')
}

ghost use Rattle.std.specs.Prelude.{◌+◌, ◌-◌, ◌*◌, ◌^◌, ◌<◌, ◌≤◌, Err, IfOk, IfSome, false, if◌then◌else◌, length};
ghost use Rattle.std.specs.List.{concat};
ghost use Rattle.mds_lines.specs.Lines.{longest_line, most_lines};
ghost use Rattle.mds_lines.specs.Reads.{Reads, block};
ghost use Rattle.mds_records.specs.declared.file.FileFault.{FileFault};
ghost use Rattle.mds_records.specs.declared.file.FileKind.{FileKind};
ghost use Rattle.mds_check.specs.Answer.{IsReportRead, is_read_fault, is_write_fault};
ghost use Rattle.mds_check.specs.Report.{IsFaultOf, IsReportOf, fault_by_now};
ghost use Rattle.mds_nem12.specs.Answers.{AreCallsNeeded};

/// The text to be printed of a NEM12 file.
pub(crate) fn report_of_days<R: Source>(alloc: Global, reader: &mut R) -> Result<String, CheckFault>
    requires { R.failures reader.old < 2 ^ 64 - 1 }
    ensures done { IfOk result (λ out. IfSome (R.remaining reader.old)
        (λ text. IsReportOf FileKind.Nem12 text (string_bytes out))) }
    ensures fault { (fault : FileFault) → result ≡ Err (CheckFault.File fault)
        → IfSome (R.remaining reader.old) (λ text. IsFaultOf FileKind.Nem12 text fault) }
    ensures reader { R.failures reader.new ≡ R.failures reader.old + (if is_read_fault result then 1 else 0) }
    ensures given { (given : List (List ℕ)) × Reads R.gives reader.old given reader.new
        × (length (concat given) ≤ most_lines * (longest_line + 1) + block)
        × AreCallsNeeded (fault_by_now FileKind.Nem12) [] false given
        × IsReportRead FileKind.Nem12 string_bytes given result }
    ensures nothing { is_write_fault result ≡ false }
{
    match read_lines(alloc, reader, Report::new(alloc)) {
        Ok(report) => Ok(report.into_text()),
        Err(ReadFault::File(fault)) => Err(CheckFault::File(fault)),
        Err(ReadFault::Read) => Err(CheckFault::Read),
        Err(ReadFault::Memory) => Err(CheckFault::Memory),
    }
}
