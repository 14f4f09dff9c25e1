//! A NEM12 file that is fed in pieces.

ghost use Rattle.std.specs.Prelude.{◌≡◌, ◌≢◌, ℕ, List, [], ◌++◌, map, None, Some, Err, IfSome, IfOk, IfErr, MatchResult, is_ok, true};
ghost use Rattle.std.specs.List.{concat};
ghost use Rattle.mds_walk.specs.Feeding.{MayLackFor, MayLackForAll, MayLackForOne, MayLackHere};
ghost use Rattle.mds_walk.specs.SoFar.{fault_so_far, open_piece};
ghost use Rattle.mds_walk.specs.Answers.{IsRefusal};
ghost use Rattle.mds_statements.specs.Delivered.{delivery_statements};
ghost use Rattle.mds_nem12.specs.Answers.{MayLackMemory};
ghost use Rattle.mds_nem12.specs.Faults.{fault_of, nem12};
ghost use Rattle.mds_nem12.specs.Statements.{statements_of};

use crate::delivery::DeliveryBuilder;
use crate::file_reader::FileReader;
use mds_statements::Delivery;
use mds_walk::{LineFeeder, TakeFault, feed_all};
use std::alloc::{AllocError, Global};
use std::marker::Model;

/// A NEM12 file that comes in pieces, as far as it was fed. It holds the line that isn't whole yet, and the delivery so far.
#[derive(Drop)]
pub struct Reader {
    feeder: LineFeeder<FileReader<DeliveryBuilder>>,
}

impl Model for Reader {
    ghost use Rattle.std.specs.Prelude.{List, ℕ};
    ghost use Rattle.mds_walk.specs.declared.feeder.LineFeeder.{LineFeeder as AFeeder};
    ghost use Rattle.mds_nem12.specs.Reader.{HasRead};
    ghost use Rattle.mds_nem12.specs.declared.delivery.DeliveryBuilder.{DeliveryBuilder as ABuilder};
    ghost use Rattle.mds_nem12.specs.declared.file_reader.FileReader.{FileReader as AReader};

    ghost Value = { AFeeder (AReader ABuilder) };

    ghost view = { λ r. r.feeder };

    // It was fed some text.
    ghost invariant = { λ r. (text : List ℕ) × HasRead text r.feeder };
}

impl Reader {
    ghost use Rattle.mds_nem12.specs.Reader.{HasRead, reader_fault};

    /// The state before the first piece of a file. Takes no memory, and never fails.
    pub fn new(alloc: Global) -> Result<Reader, AllocError>
        ensures read { IfOk result (HasRead []) }
        ensures fresh { IfOk result (λ reader. reader_fault reader ≡ None) }
        ensures made { is_ok result ≡ true }
    {
        Ok(Reader::begin(alloc))
    }

    /// The state before the first piece of a file.
    pub(crate) fn begin(alloc: Global) -> Reader
        ensures read { HasRead [] result }
        ensures fresh { reader_fault result ≡ None }
    {
        let file = FileReader::new(alloc, DeliveryBuilder::new(alloc));
        Reader {
            feeder: LineFeeder::new(alloc, file),
        }
    }

    /// Takes the next piece, or returns the fault that the file so far has, whatever follows. Pieces may end anywhere, also
    /// inside a line. After a fault or an allocation error it returns the same again.
    pub fn feed(&mut self, piece: &[u8]) -> Result<(), TakeFault>
        ensures fed { (text : List ℕ) → HasRead text self.old → HasRead (text ++ piece.now) self.new }
        ensures answer { (text : List ℕ) → HasRead text self.old
            → MatchResult result (λ _. fault_so_far nem12 (text ++ piece.now) ≡ None)
            (IsRefusal (fault_so_far nem12 (text ++ piece.now))) }
        ensures stays { (text : List ℕ) → HasRead text self.old
            → IfOk result (λ _. reader_fault self.new ≡ None) }
        ensures again { IfSome (reader_fault self.old) (λ fault. (result ≡ Err fault)
            × (reader_fault self.new ≡ Some fault)) }
        ensures kept { IfErr result (λ fault. reader_fault self.new ≡ Some fault) }

        // Memory first runs out for a line that is copied, or for one that may need memory (`MayLackMemory`).
        ensures memory { (text : List ℕ) → HasRead text self.old → reader_fault self.old ≡ None
            → result ≡ Err TakeFault.Memory → MayLackFor MayLackMemory nem12 text piece.now }
    {
        self.feeder.feed(piece)
    }

    /// Takes pieces one after the other, as far as there is no fault.
    fn feed_pieces(&mut self, pieces: &[&[u8]]) -> Result<(), TakeFault>
        ensures fed { (text : List ℕ) → HasRead text self.old → HasRead (text ++ concat (map (λ piece. piece.now) pieces.now)) self.new }
        ensures answer { (text : List ℕ) → HasRead text self.old → fault_so_far nem12 text ≡ None
            → MatchResult result (λ _. fault_so_far nem12 (text ++ concat (map (λ piece. piece.now) pieces.now)) ≡ None)
            (IsRefusal (fault_so_far nem12 (text ++ concat (map (λ piece. piece.now) pieces.now)))) }
        ensures stays { (text : List ℕ) → HasRead text self.old → reader_fault self.old ≡ None
            → IfOk result (λ _. reader_fault self.new ≡ None) }
        ensures memory { (text : List ℕ) → HasRead text self.old → reader_fault self.old ≡ None
            → result ≡ Err TakeFault.Memory → MayLackForOne MayLackMemory nem12 text (map (λ piece. piece.now) pieces.now) }
    {
        feed_all(&mut self.feeder, pieces)
    }

    /// Ends the file: what it states, or its first fault. What follows the last line feed is a line, if it isn't empty. After
    /// a fault it returns the same again.
    pub fn finish(self) -> Result<Delivery, TakeFault>
        ensures ended { (text : List ℕ) → HasRead text self
            → MatchResult result
            (λ delivery. (fault_of text ≡ None) × (delivery_statements delivery ≡ statements_of text))
            (IsRefusal (fault_of text)) }
        ensures again { IfSome (reader_fault self) (λ fault. result ≡ Err fault) }

        // Memory first runs out for a last line without its line feed that may need memory (`MayLackMemory`).
        ensures memory { (text : List ℕ) → HasRead text self → reader_fault self ≡ None
            → result ≡ Err TakeFault.Memory → (open_piece text ≢ []) × MayLackHere MayLackMemory nem12 text }
    {
        match self.feeder.finish() {
            Ok(builder) => match builder.into_delivery() {
                Some(delivery) => Ok(delivery),
                None => unreachable!(),
            },
            Err(fault) => Err(fault),
        }
    }
}

/// Reads a NEM12 file from consecutive pieces: what it states, or its first fault. How it is cut has no effect.
pub fn read_pieces(alloc: Global, pieces: &[&[u8]]) -> Result<Delivery, TakeFault>
    ensures answer { MatchResult result
        (λ delivery. (fault_of (concat (map (λ piece. piece.now) pieces.now)) ≡ None)
        × (delivery_statements delivery ≡ statements_of (concat (map (λ piece. piece.now) pieces.now))))
        (IsRefusal (fault_of (concat (map (λ piece. piece.now) pieces.now)))) }

    // It runs out of memory only at a piece before which no line has a fault, or at a last line without its line feed.
    ensures memory { result ≡ Err TakeFault.Memory → MayLackForAll MayLackMemory nem12 (map (λ piece. piece.now) pieces.now) }
{
    let mut reader = Reader::begin(alloc);
    match reader.feed_pieces(pieces) {
        Ok(()) => reader.finish(),
        Err(fault) => Err(fault),
    }
}
