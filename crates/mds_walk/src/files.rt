//! A file read from a source, block by block.

ghost use Rattle.std.specs.Prelude.{ℕ, ◌≡◌, ◌≤◌, ◌+◌, ◌-◌, ◌*◌, ◌^◌, ◌<◌, List, [], length, None, Some, Err, IfSome, IfOk, if◌then◌else◌, false};
ghost use Rattle.std.specs.List.{concat};
ghost use Rattle.mds_lines.specs.Lines.{longest_line, most_lines};
ghost use Rattle.mds_lines.specs.Reads.{Reads, block};
ghost use Rattle.mds_records.specs.declared.file.FileFault.{FileFault};
ghost use Rattle.mds_walk.specs.Answers.{is_read_fault};
ghost use Rattle.mds_walk.specs.Faults.{fault_of, lines_of};
ghost use Rattle.mds_walk.specs.FileSteps.{read_fault_of};
ghost use Rattle.mds_walk.specs.Given.{AreCallsNeeded, IsOfGiven, MayLackGiven};
ghost use Rattle.mds_walk.specs.SoFar.{fault_so_far};

use crate::fault::{ReadFault, TakeFault};
use crate::feeder::LineFeeder;
use crate::sink::RecordSink;
use mds_lines::Source;
use std::alloc::Global;

/// How many bytes are read at a time. With a line in hand they are 131,072 at most. They are on the stack, so no memory is taken
/// before a line needs it.
const BLOCK: usize = (1 << 17) - 16_384;

/// Reads a file from a source, and passes its records to a sink, which has taken none yet. It holds a block of bytes at a time, and a
/// line that continues in the next one.
pub fn read_file<R: Source, T: RecordSink + Drop>(
    alloc: Global,
    source: &mut R,
    sink: T,
) -> Result<T::Output, ReadFault>
    requires failures { R.failures source.old < 2 ^ 64 - 1 }
    requires nothing { T.taken sink [] }

    // The text is well formed, and the sink made this of its lines.
    ensures done { IfOk result (λ out. IfSome (R.remaining source.old) (λ text. (fault_of T.judge text ≡ None)
        × T.made out (lines_of text))) }

    // The fault is that of the text.
    ensures fault { (fault : FileFault) → result ≡ Err (ReadFault.File fault)
        → IfSome (R.remaining source.old) (λ text. fault_of T.judge text ≡ Some fault) }

    // `Read` is returned exactly if the source failed, once.
    ensures counted { R.failures source.new ≡ R.failures source.old + (if is_read_fault result then 1 else 0) }

    // The output is made of what the source's calls brought, whatever that is. They brought no more than the lines that a file may
    // have, and a block. Each call was needed: none comes after the end, a failure, or a piece with a fault. Memory may run out only
    // for what the last call brought.
    ensures given { (given : List (List ℕ)) × Reads R.gives source.old given source.new
        × (length (concat given) ≤ most_lines * (longest_line + 1) + block)
        × AreCallsNeeded (fault_so_far T.judge) [] false given
        × IsOfGiven (λ out text. T.made out (lines_of text)) (fault_of T.judge) (MayLackGiven T.may_lack T.judge) given result }
{
    let mut buffer = [0; BLOCK];
    let mut feeder = LineFeeder::new(alloc, sink);
    // For the proof: the number of bytes fed. A file has few enough that the loop ends.
    let mut count = 0;
    loop {
        match source.read(&mut buffer) {
            Ok(0) => {
                return match feeder.finish() {
                    Ok(out) => Ok(out),
                    Err(fault) => Err(read_fault(fault)),
                };
            }
            Ok(size) => {
                if let Err(fault) = feeder.feed(&buffer[..size]) {
                    return Err(read_fault(fault));
                }
                count += size as u64;
            }
            Err(_) => return Err(ReadFault::Read),
        }
    }
}

/// The fault of a file that is refused.
fn read_fault(fault: TakeFault) -> ReadFault
    ensures { result ≡ read_fault_of fault }
{
    match fault {
        TakeFault::File(fault) => ReadFault::File(fault),
        TakeFault::Memory => ReadFault::Memory,
    }
}
