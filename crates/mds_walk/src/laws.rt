//! Laws of the text so far, whatever follows, and of any list of pieces. The first function does nothing.

ghost use Rattle.std.specs.Prelude.{◌≡◌, ◌≢◌, ◌≤◌, ◌++◌, ◌∷◌, [], ℕ, List, length, map, None, Some, Ok, Err, IfSome, IfOk, IfErr, MatchResult};
ghost use Rattle.std.specs.List.{concat};
ghost use Rattle.mds_lines.specs.Lines.{line_pieces};
ghost use Rattle.mds_records.specs.declared.file.FileFault.{FileFault};
ghost use Rattle.mds_walk.specs.Answers.{IsRefusal};
ghost use Rattle.mds_walk.specs.Faults.{Judge, fault_at, fault_of};
ghost use Rattle.mds_walk.specs.Feeding.{MayLackForOne, WasFed, fault_answered};
ghost use Rattle.mds_walk.specs.SoFar.{fault_so_far, open_piece, whole_pieces};

use crate::fault::TakeFault;
use crate::feeder::LineFeeder;
use crate::sink::RecordSink;

/// The fault of a text so far is that of every text that begins with it. No fault is held back: if the text so far has none,
/// no line that is whole has one, whatever follows.
pub fn fault_so_far_is_of_every_longer_text()
    ensures lines { (text more : List ℕ) → line_pieces (text ++ more) ≡ whole_pieces text ++ line_pieces (open_piece text ++ more) }
    ensures stays { (judge : Judge) (text more : List ℕ) (fault : FileFault) → fault_so_far judge text ≡ Some fault
        → fault_so_far judge (text ++ more) ≡ Some fault }
    ensures every { (judge : Judge) (text more : List ℕ) (fault : FileFault) → fault_so_far judge text ≡ Some fault
        → fault_of judge (text ++ more) ≡ Some fault }
    ensures early { (judge : Judge) (text more : List ℕ) → fault_so_far judge text ≡ None → (k : ℕ) → 1 ≤ k
        → k ≤ length (whole_pieces text) → fault_at judge (line_pieces (text ++ more)) k ≡ None }
{}

/// Feeds pieces one after the other, as far as there is no fault. How a text is cut has no effect. After a fault or an
/// allocation error it returns the same again. Without pieces nothing changes.
pub fn feed_all<T: RecordSink + Drop>(
    feeder: &mut LineFeeder<T>,
    pieces: &[&[u8]],
) -> Result<(), TakeFault>
    ensures fed { (text : List ℕ) → WasFed T.judge T.taken text feeder.old
        → WasFed T.judge T.taken (text ++ concat (map (λ piece. piece.now) pieces.now)) feeder.new }
    ensures answer { (text : List ℕ) → WasFed T.judge T.taken text feeder.old
        → fault_so_far T.judge text ≡ None
        → MatchResult result (λ _. fault_so_far T.judge (text ++ concat (map (λ piece. piece.now) pieces.now)) ≡ None)
        (IsRefusal (fault_so_far T.judge (text ++ concat (map (λ piece. piece.now) pieces.now)))) }
    ensures stays { (text : List ℕ) → WasFed T.judge T.taken text feeder.old → fault_answered feeder.old ≡ None
        → IfOk result (λ _. fault_answered feeder.new ≡ None) }
    ensures again { pieces.now ≢ [] → IfSome (fault_answered feeder.old) (λ fault. (result ≡ Err fault)
        × (fault_answered feeder.new ≡ Some fault)) }
    ensures kept { IfErr result (λ fault. fault_answered feeder.new ≡ Some fault) }
    ensures nothing { pieces.now ≡ [] → (result ≡ Ok tt) × (feeder.new ≡ feeder.old) }

    // Memory first runs out for one of the pieces, and the text before that piece has no fault.
    ensures memory { (text : List ℕ) → WasFed T.judge T.taken text feeder.old → fault_answered feeder.old ≡ None
        → result ≡ Err TakeFault.Memory → MayLackForOne T.may_lack T.judge text (map (λ piece. piece.now) pieces.now) }
{
    match pieces {
        [] => Ok(()),
        [first, rest @ ..] => match feeder.feed(first) {
            Ok(()) => feed_all(feeder, rest),
            Err(fault) => Err(fault),
        },
    }
}
