//! One request to a store over HTTP, and the rest of a refused one.

ghost use Rattle.std.specs.Prelude.{◌≡◌, ◌≢◌, ◌+◌, ◌-◌, ◌^◌, ◌<◌, Err};
ghost use Rattle.mds_http.specs.Serving.{HasReadRest, ReadsRest, ServesOver};

use crate::handling::StoreHandler;
use mds_keeper::Keeper;
use mds_lines::{Sink, Source};
use mds_wire::{RouteFinder, Status, WireFault};
use std::alloc::Global;

/// Reads one request, does it by one step of the machine, and writes its answer. Returns the answer's status. See `mds_wire::serve_one`
/// for what is read and written, and when.
///
/// # Errors
///
/// See `WireFault`.
pub fn serve_one<F: RouteFinder, K: Keeper, R: Source, W: Sink>(
    alloc: Global,
    routes: &F,
    handler: &mut StoreHandler<K>,
    reader: &mut R,
    writer: &mut W,
) -> Result<Status, WireFault>
    requires reader { R.failures reader.old < 2 ^ 64 - 1 }
    requires writer { W.failures writer.old < 2 ^ 64 - 1 }
    ensures serves { ServesOver K.kept R.gives reader.old reader.new (R.remaining reader.old)
        (R.remaining reader.new) (W.contents writer.old) (W.contents writer.new) handler.old handler.new result }
    ensures reader { (result ≡ Err WireFault.Read → R.failures reader.new ≡ R.failures reader.old + 1)
        × (result ≢ Err WireFault.Read → R.failures reader.new ≡ R.failures reader.old) }
    ensures writer { (result ≡ Err WireFault.Write → W.failures writer.new ≡ W.failures writer.old + 1)
        × (result ≢ Err WireFault.Write → W.failures writer.new ≡ W.failures writer.old) }
{
    mds_wire::serve_one(alloc, routes, handler, reader, writer)
}

/// Serves the one request of a connection as `serve_one` does. After a refusal it reads what the peer still sends, up to 16 MB. If the
/// connection were closed before, the peer might never see the answer.
///
/// # Errors
///
/// See `WireFault`.
pub fn serve_connection<F: RouteFinder, K: Keeper, R: Source, W: Sink, E: Source>(
    alloc: Global,
    routes: &F,
    handler: &mut StoreHandler<K>,
    reader: &mut R,
    writer: &mut W,
    rest: &mut E,
) -> Result<Status, WireFault>
    requires reader { R.failures reader.old < 2 ^ 64 - 1 }
    requires writer { W.failures writer.old < 2 ^ 64 - 1 }
    requires rest { E.failures rest.old < 2 ^ 64 - 1 }
    ensures serves { ServesOver K.kept R.gives reader.old reader.new (R.remaining reader.old)
        (R.remaining reader.new) (W.contents writer.old) (W.contents writer.new) handler.old handler.new result }
    ensures reader { (result ≡ Err WireFault.Read → R.failures reader.new ≡ R.failures reader.old + 1)
        × (result ≢ Err WireFault.Read → R.failures reader.new ≡ R.failures reader.old) }
    ensures writer { (result ≡ Err WireFault.Write → W.failures writer.new ≡ W.failures writer.old + 1)
        × (result ≢ Err WireFault.Write → W.failures writer.new ≡ W.failures writer.old) }
    ensures rest { ReadsRest E.gives rest.old rest.new (E.remaining rest.old) (E.remaining rest.new) result }
{
    let served = serve_one(alloc, routes, handler, reader, writer);
    match served {
        Ok(Status::Success) | Err(_) => (),
        Ok(_) => read_rest(rest),
    }
    served
}

/// The most bytes of a rest that are read at a time, and the most reads.
const BLOCK: usize = 16_384;

const MOST_READS: usize = 1_024;

/// Reads to the end, until a call fails, or up to a count of calls.
fn read_rest<E: Source>(rest: &mut E)
    requires { E.failures rest.old < 2 ^ 64 - 1 }
    ensures { HasReadRest E.gives rest.old rest.new (E.remaining rest.old) (E.remaining rest.new) }
{
    let mut block = [0; BLOCK];
    for _ in 0..MOST_READS {
        match rest.read(&mut block) {
            Ok(0) => return,
            Ok(_) => (),
            Err(_) => return,
        }
    }
}
