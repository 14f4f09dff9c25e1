//! A NEM13 file read from a source, or from memory.

ghost use Rattle.std.specs.Prelude.{ℕ, ◌≡◌, ◌≤◌, ◌+◌, ◌-◌, ◌*◌, ◌^◌, ◌<◌, List, [], length, true, false, None, Some, Err, IfSome, IfOk, if◌then◌else◌};
ghost use Rattle.std.specs.List.{concat};
ghost use Rattle.mds_lines.specs.Lines.{longest_line, most_lines};
ghost use Rattle.mds_lines.specs.Reads.{Reads, block};
ghost use Rattle.mds_records.specs.declared.file.FileFault.{FileFault};
ghost use Rattle.mds_walk.specs.Answers.{is_read_fault};
ghost use Rattle.mds_walk.specs.Feeding.{MayLackFor};
ghost use Rattle.mds_walk.specs.Given.{AreCallsNeeded, IsOfGiven, MayLackGiven};
ghost use Rattle.mds_walk.specs.Said.{is_headed};
ghost use Rattle.mds_walk.specs.SoFar.{fault_so_far};
ghost use Rattle.mds_nem13.specs.Accumulations.{AreStatedBy};
ghost use Rattle.mds_nem13.specs.Answers.{MayLackMemory};
ghost use Rattle.mds_nem13.specs.Faults.{fault_of, nem13};
ghost use Rattle.mds_nem13.specs.Statements.{statements_of};

use crate::accumulation::Accumulation;
use crate::builder::AccumulationBuilder;
use crate::file_reader::FileReader;
use crate::sink::PeriodSink;
use mds_lines::Source;
use mds_records::FileFault;
use mds_walk::{LineFeeder, ReadFault, TakeFault, read_file};
use std::alloc::Global;

/// Reads a NEM13 file from a source, and passes what it states to a sink. It holds a line at a time.
#[tactic(auto, unfolding(crate::specs::Faults::fault_of, crate::specs::Statements::statements_of))]
pub fn read_lines<R: Source, T: PeriodSink + Drop>(
    alloc: Global,
    source: &mut R,
    sink: T,
) -> Result<T, ReadFault>
    requires failures { R.failures source.old < 2 ^ 64 - 1 }
    requires nothing { T.told sink [] }

    // The text is well formed, and the sink received what it states, the header first.
    ensures done { IfOk result (λ out. IfSome (R.remaining source.old) (λ text. (fault_of text ≡ None)
        × T.told out (statements_of text) × (is_headed (statements_of text) ≡ true))) }

    // The fault is that of the text.
    ensures fault { (fault : FileFault) → result ≡ Err (ReadFault.File fault)
        → IfSome (R.remaining source.old) (λ text. fault_of text ≡ Some fault) }

    // `Read` is returned exactly if the source failed, once.
    ensures counted { R.failures source.new ≡ R.failures source.old + (if is_read_fault result then 1 else 0) }

    // The output is made of what the source's calls brought, whatever that is. They brought no more than the lines that a file
    // may have, and a block. Each call was needed: none comes after the end, a failure, or a piece with a fault. It runs out of
    // memory only at a line before which none has a fault.
    ensures given { (given : List (List ℕ)) × Reads R.gives source.old given source.new
        × (length (concat given) ≤ most_lines * (longest_line + 1) + block)
        × AreCallsNeeded (fault_so_far nem13) [] false given
        × IsOfGiven (λ out text. T.told out (statements_of text) × (is_headed (statements_of text) ≡ true)) fault_of
        (MayLackGiven MayLackMemory nem13) given result }
{
    read_file(alloc, source, FileReader::new(sink))
}

#[tactic(auto, unfolding(crate::specs::Faults::fault_of, crate::specs::Statements::statements_of))]
/// Reads a whole NEM13 file: the accumulations that it states, in the order of its lines, or its first fault.
pub fn read_nem13(alloc: Global, text: &[u8]) -> Result<Vec<Accumulation>, TakeFault>
    ensures done { IfOk result (λ accumulations. (fault_of text.now ≡ None)
        × AreStatedBy (statements_of text.now) accumulations.items) }
    ensures fault { (fault : FileFault) → result ≡ Err (TakeFault.File fault) → fault_of text.now ≡ Some fault }

    // It runs out of memory only at a line before which none has a fault.
    ensures memory { result ≡ Err TakeFault.Memory → MayLackFor MayLackMemory nem13 [] text.now }
{
    let file = FileReader::new(AccumulationBuilder::new(alloc));
    let mut feeder = LineFeeder::new(alloc, file);
    if let Err(fault) = feeder.feed(text) {
        return Err(fault);
    }
    match feeder.finish() {
        Ok(builder) => Ok(builder.into_accumulations()),
        Err(fault) => Err(fault),
    }
}
