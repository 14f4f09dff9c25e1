//! A NEM12 file read from a source, or from memory.

ghost use Rattle.std.specs.Prelude.{ℕ, ◌≡◌, ◌≤◌, ◌+◌, ◌-◌, ◌*◌, ◌^◌, ◌<◌, List, [], length, true, false, None, Some, Err, IfSome, IfOk, if◌then◌else◌};
ghost use Rattle.std.specs.List.{concat};
ghost use Rattle.mds_lines.specs.Lines.{longest_line, most_lines};
ghost use Rattle.mds_lines.specs.Reads.{Reads, block};
ghost use Rattle.mds_records.specs.declared.file.FileFault.{FileFault};
ghost use Rattle.mds_walk.specs.Feeding.{MayLackFor};
ghost use Rattle.mds_walk.specs.Given.{AreCallsNeeded, IsOfGiven, MayLackGiven};
ghost use Rattle.mds_walk.specs.SoFar.{fault_so_far};
ghost use Rattle.mds_nem12.specs.Answers.{IsReadOf, MayLackMemory, is_read_fault};
ghost use Rattle.mds_statements.specs.Delivered.{delivery_statements};
ghost use Rattle.mds_nem12.specs.Faults.{fault_of, nem12};
ghost use Rattle.mds_nem12.specs.Statements.{statements_of};
ghost use Rattle.mds_nem12.specs.Told.{is_headed};

use crate::delivery::DeliveryBuilder;
use crate::feeding::Reader;
use crate::file_reader::FileReader;
use crate::sink::StatementSink;
use mds_lines::Source;
use mds_records::FileFault;
use mds_statements::Delivery;
use mds_walk::{ReadFault, TakeFault, read_file};
use std::alloc::Global;

#[tactic(auto, unfolding(crate::specs::Faults::fault_of, crate::specs::Statements::statements_of))]
/// Reads a NEM12 file from a source, and passes what it states to a sink. It holds a line and a day at a time.
pub fn read_lines<R: Source, T: StatementSink + Drop>(
    alloc: Global,
    source: &mut R,
    sink: T,
) -> Result<T, ReadFault>
    requires failures { R.failures source.old < 2 ^ 64 - 1 }
    requires nothing { T.told sink [] }

    // The text is well formed, and the sink received what it states, the header first.
    ensures done { IfOk result (λ out. IfSome (R.remaining source.old) (λ text. (fault_of text ≡ None)
        × T.told out (statements_of text) × (is_headed (statements_of text) ≡ true))) }

    // The fault is that of the text.
    ensures fault { (fault : FileFault) → result ≡ Err (ReadFault.File fault)
        → IfSome (R.remaining source.old) (λ text. fault_of text ≡ Some fault) }

    // `Read` is returned exactly if the source failed, once.
    ensures counted { R.failures source.new ≡ R.failures source.old + (if is_read_fault result then 1 else 0) }

    // The output is made of what the source's calls brought, whatever that is. They brought no more than the lines that a file
    // may have, and a block. Each call was needed: none comes after the end, a failure, or a piece with a fault. It runs out of
    // memory only at a line before which none has a fault.
    ensures given { (given : List (List ℕ)) × Reads R.gives source.old given source.new
        × (length (concat given) ≤ most_lines * (longest_line + 1) + block)
        × AreCallsNeeded (fault_so_far nem12) [] false given
        × IsOfGiven (λ out text. T.told out (statements_of text) × (is_headed (statements_of text) ≡ true)) fault_of
        (MayLackGiven MayLackMemory nem12) given result }
{
    read_file(alloc, source, FileReader::new(alloc, sink))
}

/// Reads a NEM12 file from a source: what it states, or its first fault. It holds a line, and what the lines before it state.
pub fn read_delivery<R: Source>(alloc: Global, source: &mut R) -> Result<Delivery, ReadFault>
    requires { R.failures source.old < 2 ^ 64 - 1 }

    // What is read, or its fault, is that of the text.
    ensures read { IfSome (R.remaining source.old) (λ text. IsReadOf text result) }

    // `Read` is returned exactly if the source failed, once.
    ensures counted { R.failures source.new ≡ R.failures source.old + (if is_read_fault result then 1 else 0) }

    // The output is made of what the source's calls brought, whatever that is. They brought no more than the lines that a file
    // may have, and a block. Each call was needed: none comes after the end, a failure, or a piece with a fault. It runs out of
    // memory only at a line before which none has a fault.
    ensures given { (given : List (List ℕ)) × Reads R.gives source.old given source.new
        × (length (concat given) ≤ most_lines * (longest_line + 1) + block)
        × AreCallsNeeded (fault_so_far nem12) [] false given
        × IsOfGiven (λ delivery text. delivery_statements delivery ≡ statements_of text) fault_of
        (MayLackGiven MayLackMemory nem12) given result }
{
    match read_lines(alloc, source, DeliveryBuilder::new(alloc)) {
        Ok(builder) => match builder.into_delivery() {
            Some(delivery) => Ok(delivery),
            None => unreachable!(),
        },
        Err(fault) => Err(fault),
    }
}

/// Reads a whole NEM12 file: what it states, or its first fault.
pub fn read_nem12(alloc: Global, text: &[u8]) -> Result<Delivery, TakeFault>
    ensures done { IfOk result (λ delivery. (fault_of text.now ≡ None)
        × (delivery_statements delivery ≡ statements_of text.now)) }
    ensures fault { (fault : FileFault) → result ≡ Err (TakeFault.File fault) → fault_of text.now ≡ Some fault }

    // It runs out of memory only at a line before which none has a fault.
    ensures memory { result ≡ Err TakeFault.Memory → MayLackFor MayLackMemory nem12 [] text.now }
{
    let mut reader = Reader::begin(alloc);
    if let Err(fault) = reader.feed(text) {
        return Err(fault);
    }
    reader.finish()
}
