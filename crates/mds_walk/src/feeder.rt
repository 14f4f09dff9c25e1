//! The lines of a text that comes in pieces.

ghost use Rattle.std.specs.Prelude.{◌≡◌, ◌≢◌, ◌≤◌, ◌+◌, ℕ, List, [], ◌∷◌, ◌++◌, None, Some, Err, IfSome, IfOk, IfErr, MatchResult, ◌⊎◌, length};
ghost use Rattle.std.specs.List.{All};
ghost use Rattle.mds_lines.specs.Lines.{line_feed, longest_line, most_lines};
ghost use Rattle.mds_walk.specs.Answers.{IsRefusal};
ghost use Rattle.mds_walk.specs.Faults.{fault_of, lines_of};
ghost use Rattle.mds_walk.specs.SoFar.{fault_so_far, open_piece};

use crate::fault::{TakeFault, at_end};
use crate::sink::RecordSink;
use crate::walk::{LONGEST_LINE, Walk};
use mds_records::FaultCode;
use memchr::memchr;
use std::alloc::Global;

/// A text that is fed in pieces. Its lines go to a walk as soon as they are whole. What follows the last line feed is in hand, and
/// is no longer than a line may be. After a fault it returns the same fault for every further piece.
#[derive(Drop)]
pub struct LineFeeder<T> {
    walk: Walk<T>,
    /// The line that isn't whole yet.
    rest: Vec<u8>,
    /// The number of lines that the walk has taken.
    lines: u32,
}

impl<T: RecordSink + Drop> LineFeeder<T> {
    ghost use Rattle.mds_walk.specs.Feeding.{HasFed, MayLackFor, MayLackHere, WasFed, fault_answered};

    /// The state before the first piece of a text, with a sink for its records that has taken none.
    pub fn new(alloc: Global, sink: T) -> LineFeeder<T>
        requires { T.taken sink [] }
        ensures fed { WasFed T.judge T.taken [] result }
        ensures fresh { fault_answered result ≡ None }
    {
        LineFeeder {
            walk: Walk::new(sink),
            rest: Vec::new(alloc),
            lines: 0,
        }
    }

    /// Takes the next piece, or returns the fault that the text so far has, whatever follows. Pieces may end anywhere. After a
    /// fault or an allocation error it returns the same again.
    pub fn feed(&mut self, piece: &[u8]) -> Result<(), TakeFault>
        ensures fed { (text : List ℕ) → WasFed T.judge T.taken text self.old
            → WasFed T.judge T.taken (text ++ piece.now) self.new }
        ensures answer { (text : List ℕ) → WasFed T.judge T.taken text self.old
            → MatchResult result (λ _. fault_so_far T.judge (text ++ piece.now) ≡ None)
            (IsRefusal (fault_so_far T.judge (text ++ piece.now))) }
        ensures stays { (text : List ℕ) → WasFed T.judge T.taken text self.old
            → IfOk result (λ _. fault_answered self.new ≡ None) }
        ensures again { IfSome (fault_answered self.old) (λ fault. (result ≡ Err fault)
            × (fault_answered self.new ≡ Some fault)) }
        ensures kept { IfErr result (λ fault. fault_answered self.new ≡ Some fault) }

        // Memory first runs out for a line that is copied, or for one for which the sink may lack it.
        ensures memory { (text : List ℕ) → WasFed T.judge T.taken text self.old → fault_answered self.old ≡ None
            → result ≡ Err TakeFault.Memory → MayLackFor T.may_lack T.judge text piece.now }
    {
        // decides: what is a file's first fault? (definition: fault_of in mds_nem12/specs/Faults.antt)
        match self.walk.fault() {
            Some(fault) => Err(fault),
            None => self.feed_next(piece),
        }
    }

    /// Takes the next piece if no fault was returned yet, and keeps its fault.
    fn feed_next(&mut self, piece: &[u8]) -> Result<(), TakeFault>
        ensures fed { (text : List ℕ) → HasFed T.judge T.taken text self.old
            → MatchResult result
            (λ _. HasFed T.judge T.taken (text ++ piece.now) self.new)
            (IsRefusal (fault_so_far T.judge (text ++ piece.now))) }
        ensures kept { IfErr result (λ fault. fault_answered self.new ≡ Some fault) }
        ensures memory { (text : List ℕ) → HasFed T.judge T.taken text self.old
            → result ≡ Err TakeFault.Memory → MayLackFor T.may_lack T.judge text piece.now }
    {
        match self.feed_lines(piece) {
            Ok(()) => Ok(()),
            Err(fault) => {
                self.walk.refuse(fault);
                Err(fault)
            }
        }
    }

    /// Takes the next piece, but doesn't keep a fault.
    fn feed_lines(&mut self, piece: &[u8]) -> Result<(), TakeFault>
        ensures fed { (text : List ℕ) → HasFed T.judge T.taken text self.old
            → MatchResult result
            (λ _. HasFed T.judge T.taken (text ++ piece.now) self.new)
            (IsRefusal (fault_so_far T.judge (text ++ piece.now))) }
        ensures memory { (text : List ℕ) → HasFed T.judge T.taken text self.old
            → result ≡ Err TakeFault.Memory → MayLackFor T.may_lack T.judge text piece.now }
    {
        let mut left = piece;
        while let Some(size) = memchr(b'\n', left) {
            let (front, behind) = left.split_at(size);
            if let Err(fault) = self.end_line(front) {
                return Err(fault);
            }
            left = behind.split_at(1).1;
        }
        self.keep(left)
    }

    /// Ends the line in hand with the bytes before its line feed.
    fn end_line(&mut self, front: &[u8]) -> Result<(), TakeFault>
        ensures fed { (text : List ℕ) → HasFed T.judge T.taken text self.old → All (λ byte. byte ≢ line_feed) front.now
            → MatchResult result
            (λ _. HasFed T.judge T.taken (text ++ (front.now ++ line_feed ∷ [])) self.new)
            (IsRefusal (fault_so_far T.judge (text ++ (front.now ++ line_feed ∷ [])))) }
        ensures memory { (text : List ℕ) → HasFed T.judge T.taken text self.old → All (λ byte. byte ≢ line_feed) front.now
            → result ≡ Err TakeFault.Memory → (open_piece text ≢ []) ⊎ MayLackHere T.may_lack T.judge (text ++ front.now) }
    {
        if self.rest.is_empty() {
            return self.take_front(front);
        }
        match self.keep(front) {
            Ok(()) => self.take_rest(),
            Err(fault) => Err(fault),
        }
    }

    /// Takes a line that is within one piece, with none in hand. It isn't copied.
    fn take_front(&mut self, front: &[u8]) -> Result<(), TakeFault>
        requires { self.old.rest.items ≡ [] }
        ensures fed { (text : List ℕ) → HasFed T.judge T.taken text self.old → All (λ byte. byte ≢ line_feed) front.now
            → MatchResult result
            (λ _. HasFed T.judge T.taken (text ++ (front.now ++ line_feed ∷ [])) self.new)
            (IsRefusal (fault_so_far T.judge (text ++ (front.now ++ line_feed ∷ [])))) }
        ensures memory { (text : List ℕ) → HasFed T.judge T.taken text self.old → All (λ byte. byte ≢ line_feed) front.now
            → result ≡ Err TakeFault.Memory → MayLackHere T.may_lack T.judge (text ++ front.now) }
    {
        match self.walk.take_piece(self.lines, front) {
            Ok(()) => {
                self.lines += 1;
                Ok(())
            }
            Err(fault) => Err(fault),
        }
    }

    /// Takes the line in hand.
    fn take_rest(&mut self) -> Result<(), TakeFault>
        ensures taken { (text : List ℕ) → HasFed T.judge T.taken text self.old
            → MatchResult result
            (λ _. HasFed T.judge T.taken (text ++ line_feed ∷ []) self.new)
            (IsRefusal (fault_so_far T.judge (text ++ line_feed ∷ []))) }
        ensures few { IfOk result (λ _. self.new.lines ≤ most_lines) }
        ensures memory { (text : List ℕ) → HasFed T.judge T.taken text self.old
            → result ≡ Err TakeFault.Memory → MayLackHere T.may_lack T.judge text }
    {
        match self.walk.take_piece(self.lines, &self.rest) {
            Ok(()) => {
                self.rest.clear();
                self.lines += 1;
                Ok(())
            }
            Err(fault) => Err(fault),
        }
    }

    /// Adds bytes without a line feed to those in hand. The line may get too long (L10).
    fn keep(&mut self, front: &[u8]) -> Result<(), TakeFault>
        ensures fed { (text : List ℕ) → HasFed T.judge T.taken text self.old → All (λ byte. byte ≢ line_feed) front.now
            → MatchResult result
            (λ _. HasFed T.judge T.taken (text ++ front.now) self.new)
            (IsRefusal (fault_so_far T.judge (text ++ front.now))) }
        ensures memory { result ≡ Err TakeFault.Memory
            → (front.now ≢ []) × (length self.old.rest.items + length front.now ≤ longest_line) }
    {
        // decides: L10: the line is too long, or the file has too many
        if front.len() > LONGEST_LINE || self.rest.len() > LONGEST_LINE - front.len() {
            return Err(at_end(FaultCode::TooLarge, u64::from(self.lines)));
        }
        self.rest.extend_from_slice(front)?;
        Ok(())
    }

    /// Ends the text: what follows the last line feed is a line, if it isn't empty. Returns what the sink made of all lines, or
    /// the fault of the whole text. After a fault it returns the same again.
    pub fn finish(self) -> Result<T::Output, TakeFault>
        ensures ended { (text : List ℕ) → WasFed T.judge T.taken text self
            → MatchResult result
            (λ out. (fault_of T.judge text ≡ None) × T.made out (lines_of text))
            (IsRefusal (fault_of T.judge text)) }
        ensures again { IfSome (fault_answered self) (λ fault. result ≡ Err fault) }

        // Memory first runs out for a last line without its line feed, for which the sink may lack it.
        ensures memory { (text : List ℕ) → WasFed T.judge T.taken text self → fault_answered self ≡ None
            → result ≡ Err TakeFault.Memory → (open_piece text ≢ []) × MayLackHere T.may_lack T.judge text }
    {
        if let Some(fault) = self.walk.fault() {
            return Err(fault);
        }
        self.end()
    }

    /// Ends the text if no fault was returned yet.
    fn end(mut self) -> Result<T::Output, TakeFault>
        ensures ended { (text : List ℕ) → HasFed T.judge T.taken text self
            → MatchResult result
            (λ out. (fault_of T.judge text ≡ None) × T.made out (lines_of text))
            (IsRefusal (fault_of T.judge text)) }
        ensures memory { (text : List ℕ) → HasFed T.judge T.taken text self
            → result ≡ Err TakeFault.Memory → (open_piece text ≢ []) × MayLackHere T.may_lack T.judge text }
    {
        if self.rest.is_empty() {
            return self.walk.finish(u64::from(self.lines));
        }
        match self.take_rest() {
            Ok(()) => self.walk.finish(u64::from(self.lines)),
            Err(fault) => Err(fault),
        }
    }
}
