//! What follows from the meaning of bytes to a store.

ghost use Rattle.mds_http.specs.Laws.{ConnectionsRun, NoHeadNoChange, RefusedNoChange, UnaskedNoChange};

use crate::handling::StoreHandler;
use mds_keeper::Keeper;

/// Laws of a store over HTTP. Connections one after the other are a run of the machine. Bytes without a head, or with one that
/// is refused, change nothing. Nor do bytes that ask for no request.
pub fn laws_of<K: Keeper>()
    ensures run { ConnectionsRun K.kept }
    ensures no_head { NoHeadNoChange K.kept }
    ensures refused { RefusedNoChange K.kept }
    ensures unasked { UnaskedNoChange K.kept }
{
    mds_wire::laws_of::<StoreHandler<K>>();
}
