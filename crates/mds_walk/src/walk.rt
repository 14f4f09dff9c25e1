//! A walk over the lines of a file.

ghost use Rattle.std.specs.Prelude.{◌≡◌, ◌^◌, ◌-◌, ◌<◌, ◌≤◌, ◌+◌, ℕ, List, [], ◌∷◌, ◌++◌, length, None, Some, Err, IfSome, IfOk, IfErr, MatchResult};
ghost use Rattle.mds_lines.specs.Lines.{line_text, longest_line, most_lines};
ghost use Rattle.mds_lines.specs.Numbered.{number_of, text_of};
ghost use Rattle.mds_walk.specs.Answers.{HasWalked, IsEndFault, IsRefusal, Takes, fault_answered};
ghost use Rattle.mds_walk.specs.Faults.{end_fault, line_fault, text_fault};

use crate::fault::{TakeFault, at_end, at_line};
use crate::sink::RecordSink;
use mds_lines::{KindFault, Line};
use mds_records::FaultCode;

/// The most bytes of a line before its line feed (L10).
pub(crate) const LONGEST_LINE: usize = 16_384;

/// The most lines of a file (L10).
const MOST_LINES: u64 = 1_000_000;

/// A walk over the lines of a file, as far as it has come. Its records go to a sink. After a fault it returns the same fault for
/// every further line.
#[derive(Drop)]
pub struct Walk<T> {
    sink: T,
    fault: Option<TakeFault>,
}

impl<T: RecordSink + Drop> Walk<T> {
    /// The state before the first line of a file.
    pub fn new(sink: T) -> Walk<T>
        requires { T.taken sink [] }
        ensures { HasWalked T.taken result [] }
    {
        Walk { sink, fault: None }
    }

    /// Takes the next line, or returns the fault that it has after the lines before it. After a fault or an allocation error it
    /// returns the same again.
    pub fn take(&mut self, line: &Line<'_>) -> Result<(), TakeFault>
        ensures taken { (before : List (List ℕ)) → HasWalked T.taken self.old before
            → number_of line.now ≡ length before + 1
            → Takes (HasWalked T.taken) T.may_lack before (text_of line.now)
            (text_fault T.judge before (text_of line.now)) result self.new }
        ensures again { IfSome (fault_answered self.old) (λ fault. (result ≡ Err fault)
            × (fault_answered self.new ≡ Some fault)) }
        ensures kept { IfErr result (λ fault. fault_answered self.new ≡ Some fault) }
    {
        // decides: what is a file's first fault? (definition: fault_of in mds_nem12/specs/Faults.antt)
        match self.fault {
            Some(fault) => Err(fault),
            None => match take_line(&mut self.sink, line) {
                Ok(()) => Ok(()),
                Err(fault) => {
                    self.fault = Some(fault);
                    Err(fault)
                }
            },
        }
    }

    /// Takes the next line, by the bytes before its line feed. It comes after `lines` lines. It may be too long, or one too many
    /// (L10).
    pub(crate) fn take_piece(&mut self, lines: u32, piece: &[u8]) -> Result<(), TakeFault>
        ensures taken { (before : List (List ℕ)) → HasWalked T.taken self.old before → lines ≡ length before
            → MatchResult result
            (λ _. (line_fault T.judge before piece.now ≡ None)
            × HasWalked T.taken self.new (before ++ line_text piece.now ∷ []))
            (IsRefusal (line_fault T.judge before piece.now)) }
        ensures few { IfOk result (λ _. lines < most_lines) }
        ensures memory { (before : List (List ℕ)) → HasWalked T.taken self.old before → lines ≡ length before
            → result ≡ Err TakeFault.Memory → (length piece.now ≤ longest_line)
            × T.may_lack before (line_text piece.now) (text_fault T.judge before (line_text piece.now)) }
    {
        // decides: how large may a line, a head or a body be (`LONGEST_LINE`, `LONGEST_HEAD`, `LONGEST_BODY`)?
        let number = u64::from(lines) + 1;
        // decides: L10: the line is too long, or the file has too many
        if piece.len() > LONGEST_LINE || number > MOST_LINES {
            return Err(at_end(FaultCode::TooLarge, u64::from(lines)));
        }
        self.take(&Line::new(number, piece))
    }

    /// The fault that it has returned, if any.
    pub(crate) fn fault(&self) -> Option<TakeFault>
        ensures { result ≡ fault_answered self.now }
    {
        self.fault
    }

    /// Makes it return a fault from now on, as it does after one of its own.
    pub(crate) fn refuse(&mut self, fault: TakeFault)
        ensures { fault_answered self.new ≡ Some fault }
    {
        self.fault = Some(fault);
    }

    /// Ends the file after `lines` lines, and returns what the sink made of them, or the fault of the line after the last. After
    /// a fault it returns the same again.
    pub fn finish(self, lines: u64) -> Result<T::Output, TakeFault>
        requires { lines < 2 ^ 64 - 1 }
        ensures ended { (before : List (List ℕ)) → HasWalked T.taken self before → lines ≡ length before
            → MatchResult result (λ output. (end_fault T.judge before ≡ None) × T.made output before)
            (IsEndFault (end_fault T.judge before)) }
        ensures again { IfSome (fault_answered self) (λ fault. result ≡ Err fault) }
    {
        if let Some(fault) = self.fault {
            return Err(fault);
        }
        // decides: which line has a fault of the end of a file?
        match self.sink.finish() {
            Ok(output) => Ok(output),
            Err(code) => Err(at_end(code, lines)),
        }
    }
}

/// Passes the next line to a sink.
fn take_line<T: RecordSink>(sink: &mut T, line: &Line<'_>) -> Result<(), TakeFault>
    ensures { (before : List (List ℕ)) → T.taken sink.old before → number_of line.now ≡ length before + 1
        → Takes T.taken T.may_lack before (text_of line.now) (text_fault T.judge before (text_of line.now))
        result sink.new }
{
    if line.is_empty() {
        sink.take_empty();
        return Ok(());
    }
    match line.kind() {
        Ok(kind) => sink.take_record(line, kind),
        Err(KindFault::NotText) => Err(at_line(FaultCode::NotText, line)),
        Err(KindFault::Unknown) => Err(at_line(FaultCode::UnknownRecord, line)),
    }
}
