//! `check`: the totals of a file's days or accumulations, or its first fault.

ghost use Rattle.std.specs.Prelude.{ℕ, IsTrue, ◌↔◌, ◌≢◌, take, if◌then◌else◌, ◌≡◌, ◌≤◌, ◌+◌, ◌-◌, ◌*◌, ◌^◌, ◌<◌, List, [], length, false, None, Some, Err, IfSome, OnOk, IfOk, IfErr, MatchResult, is_ok, string_bytes};
ghost use Rattle.std.specs.Io.KnownBytes.{Appends as AppendsKnown, Keeps};
ghost use Rattle.mds_records.specs.declared.file.FileFault.{FileFault};
ghost use Rattle.std.specs.List.{concat};
ghost use Rattle.mds_lines.specs.Lines.{longest_line, most_lines};
ghost use Rattle.mds_lines.specs.Reads.{Reads, block};
ghost use Rattle.mds_check.specs.Answer.{IsCheckOf, IsReportRead, is_read_fault, is_write_fault};
ghost use Rattle.mds_check.specs.Report.{IsFaultOf, IsReportOf, fault_by_now};
ghost use Rattle.mds_nem12.specs.Answers.{AreCallsNeeded};

use crate::period_report::report_of_periods;
use crate::report::report_of_days;
use mds_lines::{Sink, Source, write_whole};
use mds_records::{FileFault, FileKind};
use std::alloc::Global;

/// Why nothing, or not everything, was printed.
#[derive(Clone, Copy, Debug, PartialEq, Eq)]
pub enum CheckFault {
    /// The file isn't well formed (L1 to L12).
    File(FileFault),
    /// The reader failed.
    Read,
    /// The writer failed. A prefix of the text was written.
    Write,
    /// Out of memory.
    Memory,
}

impl CheckFault {
    ghost use Rattle.mds_check.specs.declared.checking.CheckFault.{CheckFault as ACheckFault};

    /// A law: `==` says whether two faults are the same.
    pub fn one_equality()
        ensures { (a b : ACheckFault) → IsTrue (⟦<CheckFault as PartialEq>⟧.eq a b) ↔ (a ≡ b) }
    {}
}

/// Reads a file, and writes a line for each day or accumulation. The line of a day is `NMI suffix date count total unit`, that of an
/// accumulation `NMI suffix previous current quantity unit`. It writes only if the whole file is well formed.
pub fn check<R: Source, W: Sink>(
    alloc: Global,
    kind: FileKind,
    reader: &mut R,
    writer: &mut W,
) -> Result<(), CheckFault>
    requires reader { R.failures reader.old < 2 ^ 64 - 1 }
    requires writer { W.failures writer.old < 2 ^ 64 - 1 }

    // The text is well formed. Exactly its lines were written.
    ensures done { OnOk result (IfSome (R.remaining reader.old) (λ text. (report : List ℕ) × IsReportOf kind text report
        × AppendsKnown (W.contents writer.old) (W.contents writer.new) report)) }

    // The fault is that of the text.
    ensures fault { (fault : FileFault) → result ≡ Err (CheckFault.File fault)
        → IfSome (R.remaining reader.old) (λ text. IsFaultOf kind text fault) }

    // A failed write leaves a part of the lines of a well formed text. Any other fault leaves nothing.
    ensures part { result ≡ Err CheckFault.Write → IfSome (R.remaining reader.old) (λ text.
        (report : List ℕ) × (n : ℕ) × IsReportOf kind text report × (n < length report)
        × AppendsKnown (W.contents writer.old) (W.contents writer.new) (take n report)) }
    ensures nothing { IfErr result (λ fault. fault ≢ CheckFault.Write
        → Keeps (W.contents writer.old) (W.contents writer.new)) }

    // `Read` is returned exactly if the reader failed, and `Write` exactly if the writer did, each once.
    ensures reader { R.failures reader.new ≡ R.failures reader.old + (if is_read_fault result then 1 else 0) }
    ensures writer { W.failures writer.new ≡ W.failures writer.old + (if is_write_fault result then 1 else 0) }

    // What was written, or returned, is made of what the reader's calls brought, whatever that is. They brought no more than the
    // lines that a file may have, and a block. Each call was needed: none comes after the end, a failure, or a piece with a fault. It
    // runs out of memory only at a line before which none has a fault.
    ensures given { (given : List (List ℕ)) × Reads R.gives reader.old given reader.new
        × (length (concat given) ≤ most_lines * (longest_line + 1) + block)
        × AreCallsNeeded (fault_by_now kind) [] false given
        × IsCheckOf kind given (AppendsKnown (W.contents writer.old) (W.contents writer.new)) result }
{
    let text = report(alloc, kind, reader)?;
    match write_whole(text.as_bytes(), writer) {
        Ok(()) => Ok(()),
        Err(_) => Err(CheckFault::Write),
    }
}

/// The text to be printed of a file.
fn report<R: Source>(alloc: Global, kind: FileKind, reader: &mut R) -> Result<String, CheckFault>
    requires { R.failures reader.old < 2 ^ 64 - 1 }
    ensures done { IfOk result (λ out. IfSome (R.remaining reader.old) (λ text. IsReportOf kind text (string_bytes out))) }
    ensures fault { (fault : FileFault) → result ≡ Err (CheckFault.File fault)
        → IfSome (R.remaining reader.old) (λ text. IsFaultOf kind text fault) }
    ensures reader { R.failures reader.new ≡ R.failures reader.old + (if is_read_fault result then 1 else 0) }
    ensures given { (given : List (List ℕ)) × Reads R.gives reader.old given reader.new
        × (length (concat given) ≤ most_lines * (longest_line + 1) + block)
        × AreCallsNeeded (fault_by_now kind) [] false given
        × IsReportRead kind string_bytes given result }
    ensures nothing { is_write_fault result ≡ false }
{
    match kind {
        FileKind::Nem12 => report_of_days(alloc, reader),
        FileKind::Nem13 => report_of_periods(alloc, reader),
    }
}
