//! A file that comes in pieces.

ghost use Rattle.std.specs.Prelude.{map};
ghost use Rattle.std.specs.List.{concat};
ghost use Rattle.mds_records.specs.declared.file.FileKind.TheVariants.{Nem12};
ghost use Rattle.mds_service.specs.Crashes.{GoesBy};
ghost use Rattle.mds_service.specs.Machine.{ImportStep};

use mds_keeper::Keeper;
use mds_nem12::{Nem12Fault, read_pieces};
use mds_service::{Answer, apply_delivery};
use std::alloc::Global;

/// Reads a NEM12 file that is cut into consecutive pieces, and imports what it states. However it is cut, that is the step of an
/// import of the whole.
pub fn a_file_comes_in_pieces<K: Keeper>(alloc: Global, keeper: &mut K, pieces: &[&[u8]]) -> Answer
    ensures { GoesBy (K.kept keeper.old) (K.kept keeper.new)
        (λ w. ImportStep w Nem12 (concat (map (λ piece. piece.now) pieces.now))) result }
{
    match read_pieces(alloc, pieces) {
        Ok(delivery) => apply_delivery(alloc, keeper, &delivery),
        Err(Nem12Fault::File(fault)) => Answer::File(fault),
        Err(Nem12Fault::Memory) => Answer::Unavailable,
    }
}
