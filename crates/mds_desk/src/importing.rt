//! Imports a NEM12 file as it is read. Only a line, and what the file states, are held.

ghost use Rattle.std.specs.Prelude.{◌≡◌, ◌+◌, ◌-◌, ◌*◌, ◌<◌, ◌≤◌, ◌^◌, ◌≢◌, ℕ, List, [], false, Err, IfErr, IfOk, MatchResult, if◌then◌else◌, is_ok, length, take};
ghost use Rattle.std.specs.Io.KnownBytes.{Appends as AppendsKnown, Keeps};
ghost use Rattle.std.specs.List.{concat};
ghost use Rattle.mds_lines.specs.Lines.{longest_line, most_lines};
ghost use Rattle.mds_lines.specs.Reads.{Reads, block};
ghost use Rattle.mds_messages.specs.declared.answer.Answer.{Answer as AnAnswer};
ghost use Rattle.mds_nem12.specs.Answers.{IsReadOf};
ghost use Rattle.mds_nem12.specs.Faults.{nem12};
ghost use Rattle.mds_walk.specs.Given.{AreCallsNeeded};
ghost use Rattle.mds_walk.specs.SoFar.{fault_so_far};
ghost use Rattle.mds_records.specs.declared.file.FileFault.{FileFault};
ghost use Rattle.mds_desk.specs.Imported.{GoesByRead, GoesByText, IsImportFrom, IsUnread, is_read_failure, is_write_failure};
ghost use Rattle.mds_desk.specs.Performed.{IsAnswerText, IsToldAs, answer_status};

use crate::outcome::Status;
use crate::performing::print_answer;
use mds_keeper::Keeper;
use mds_lines::{Sink, Source};
use mds_messages::Answer;
use mds_nem12::{Delivery, ReadFault, read_delivery};
use mds_service::import_delivery;
use std::alloc::Global;

/// Why a file wasn't imported, or not everything was printed.
#[derive(Clone, Copy)]
pub enum ImportFault {
    /// The reader failed. Nothing was done or written.
    Read,
    /// The writer failed. Some front of the text was written, and the request was done.
    Write,
    /// There was no memory. Nothing was done or written.
    Memory,
}

/// Imports the NEM12 file that a reader brings, writes what a command prints of its answer, and returns the status to end with. It
/// reads no block after the one with the first faulty line.
pub fn import_file<K: Keeper, R: Source, W: Sink>(
    alloc: Global,
    keeper: &mut K,
    reader: &mut R,
    writer: &mut W,
) -> Result<Status, ImportFault>
    requires reader { R.failures reader.old < 2 ^ 64 - 1 }
    requires writer { W.failures writer.old < 2 ^ 64 - 1 }

    // The step of an import of what the reader brought was done, whatever that is. Its answer was printed, whole and nothing else.
    ensures done { IfOk result (λ status. (answer : AnAnswer)
        × IsImportFrom R.remaining R.gives reader.old reader.new (K.kept keeper.old) (K.kept keeper.new) answer
        × (status ≡ answer_status answer) × (text : List ℕ) × IsAnswerText answer text
        × AppendsKnown (W.contents writer.old) (W.contents writer.new) text) }

    // If the writer fails, the step was done all the same, and a part of its answer was printed.
    ensures part { result ≡ Err ImportFault.Write → (answer : AnAnswer)
        × IsImportFrom R.remaining R.gives reader.old reader.new (K.kept keeper.old) (K.kept keeper.new) answer
        × (text : List ℕ) × IsAnswerText answer text × (n : ℕ) × (n < length text)
        × AppendsKnown (W.contents writer.old) (W.contents writer.new) (take n text) }

    // If the reader fails, or without memory, nothing was done or written.
    ensures read { result ≡ Err ImportFault.Read → (keeper.new ≡ keeper.old) × Keeps (W.contents writer.old) (W.contents writer.new) }
    ensures memory { result ≡ Err ImportFault.Memory → (keeper.new ≡ keeper.old) × Keeps (W.contents writer.old) (W.contents writer.new) }

    // `Read` is returned just if the reader failed, and `Write` just if the writer did, each once.
    ensures reader { R.failures reader.new ≡ R.failures reader.old + (if is_read_failure result then 1 else 0) }
    ensures writer { W.failures writer.new ≡ W.failures writer.old + (if is_write_failure result then 1 else 0) }

    // It reads at most the lines that a file may have, and a block, whatever the reader brings. Each call was needed: none comes
    // after the end, a failure, or a piece with a fault.
    ensures bounded { (given : List (List ℕ)) × Reads R.gives reader.old given reader.new
        × (length (concat given) ≤ most_lines * (longest_line + 1) + block)
        × AreCallsNeeded (fault_so_far nem12) [] false given }
{
    let read = read_delivery(alloc, reader);
    import_read(alloc, keeper, read, writer)
}

/// Imports what was read of a NEM12 file, as `import_file` does. So a file may be read before the store is opened. A delivery that
/// no file states is imported, too.
pub fn import_read<K: Keeper, W: Sink>(
    alloc: Global,
    keeper: &mut K,
    read: Result<Delivery, ReadFault>,
    writer: &mut W,
) -> Result<Status, ImportFault>
    requires { W.failures writer.old < 2 ^ 64 - 1 }
    ensures done { IfOk result (λ status. (answer : AnAnswer)
        × ((text : List ℕ) → IsReadOf text read → GoesByText (K.kept keeper.old) (K.kept keeper.new) answer text)
        × GoesByRead (K.kept keeper.old) (K.kept keeper.new) answer read
        × (status ≡ answer_status answer) × (text : List ℕ) × IsAnswerText answer text
        × AppendsKnown (W.contents writer.old) (W.contents writer.new) text) }
    ensures part { result ≡ Err ImportFault.Write → (answer : AnAnswer)
        × ((text : List ℕ) → IsReadOf text read → GoesByText (K.kept keeper.old) (K.kept keeper.new) answer text)
        × GoesByRead (K.kept keeper.old) (K.kept keeper.new) answer read
        × (text : List ℕ) × IsAnswerText answer text × (n : ℕ) × (n < length text)
        × AppendsKnown (W.contents writer.old) (W.contents writer.new) (take n text) }

    // What couldn't be read changes nothing. `Read` and `Memory` are returned in no other case.
    ensures unread { MatchResult read (λ _. (result ≢ Err ImportFault.Read) × (result ≢ Err ImportFault.Memory))
        (λ fault. (keeper.new ≡ keeper.old) × IsUnread fault result (Keeps (W.contents writer.old) (W.contents writer.new))) }
    ensures writer { W.failures writer.new ≡ W.failures writer.old + (if is_write_failure result then 1 else 0) }
{
    match read {
        Ok(delivery) => tell(alloc, &import_delivery(alloc, keeper, delivery), writer),
        Err(fault) => tell_unread(alloc, fault, writer),
    }
}

/// Prints why a file isn't read, if that is a fault of the file. Any other reason is only returned.
fn tell_unread<W: Sink>(
    alloc: Global,
    fault: ReadFault,
    writer: &mut W,
) -> Result<Status, ImportFault>
    requires { W.failures writer.old < 2 ^ 64 - 1 }
    ensures done { IfOk result (λ status. (found : FileFault) × (fault ≡ ReadFault.File found)
        × (text : List ℕ) × IsAnswerText (Answer.File found) text × (status ≡ answer_status (Answer.File found))
        × AppendsKnown (W.contents writer.old) (W.contents writer.new) text) }
    ensures part { result ≡ Err ImportFault.Write → (found : FileFault) × (fault ≡ ReadFault.File found)
        × (text : List ℕ) × IsAnswerText (Answer.File found) text × (n : ℕ) × (n < length text)
        × AppendsKnown (W.contents writer.old) (W.contents writer.new) (take n text) }
    ensures unread { IsUnread fault result (Keeps (W.contents writer.old) (W.contents writer.new)) }
    ensures writer { W.failures writer.new ≡ W.failures writer.old + (if is_write_failure result then 1 else 0) }
{
    match fault {
        ReadFault::File(fault) => tell(alloc, &Answer::File(fault), writer),
        ReadFault::Read => Err(ImportFault::Read),
        ReadFault::Memory => Err(ImportFault::Memory),
    }
}

/// Writes what a command prints of an answer, and returns the status to end with.
fn tell<W: Sink>(alloc: Global, answer: &Answer, writer: &mut W) -> Result<Status, ImportFault>
    requires { W.failures writer.old < 2 ^ 64 - 1 }
    ensures done { IfOk result (λ status. (told : AnAnswer) × (text : List ℕ) × IsToldAs answer.now told
        × IsAnswerText told text × (status ≡ answer_status told)
        × AppendsKnown (W.contents writer.old) (W.contents writer.new) text) }
    ensures part { IfErr result (λ fault. (fault ≡ ImportFault.Write)
        × (told : AnAnswer) × (text : List ℕ) × IsToldAs answer.now told × IsAnswerText told text
        × (n : ℕ) × (n < length text)
        × AppendsKnown (W.contents writer.old) (W.contents writer.new) (take n text)) }
    ensures writer { W.failures writer.new ≡ W.failures writer.old + (if is_ok result then 0 else 1) }
{
    match print_answer(alloc, answer, writer) {
        Ok(status) => Ok(status),
        Err(_) => Err(ImportFault::Write),
    }
}
