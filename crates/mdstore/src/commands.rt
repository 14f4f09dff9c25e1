//! The commands on a store in a file.

ghost use Rattle.std.specs.Prelude.{◌≡◌};
ghost use Rattle.mdstore.specs.Refusals.{of_serving};

use crate::asking::{ask_keeper, perform_request, read_whole};
use crate::cause::Cause;
use crate::store_file::{Task, in_store};
use crate::why::Why;
use mds_desk::Outcome;
use mds_http::{Ended, Log, StoreHandler, serve_connections};
use mds_keeper::Keeper;
use mds_messages::Request;
use mds_requests::FileCommand;
use mds_wire::Routes;
use std::io::Read;
use std::net::{Ipv4Addr, SocketAddr, TcpListener};

/// Asks the store at a path, which isn't made if it is missing, for what a reader brings. The reader is read before the store is
/// opened, so that its bytes may come from another command on the same store. A fault of the store is printed first all the same.
pub(crate) fn ask<R: Read + Drop>(
    rt: &HostRuntime,
    path: &str,
    command: FileCommand,
    reader: R,
    why: &mut Why,
) -> Outcome {
    let bytes = read_whole(rt, reader, why);
    in_store(rt, path, Asking { command, bytes }, why)
}

/// Asks for what was read.
#[derive(Drop)]
struct Asking {
    command: FileCommand,
    bytes: Result<Vec<u8>, Outcome>,
}

impl Task for Asking {
    fn perform<K: Keeper>(self, rt: &HostRuntime, keeper: K, why: &mut Why) -> (K, Outcome) {
        let Asking { command, bytes } = self;
        let mut keeper = keeper;
        let outcome = ask_keeper(rt, &mut keeper, command, bytes, why);
        (keeper, outcome)
    }
}

/// Passes a request to the store at a path, which isn't made if it is missing.
pub(crate) fn query(rt: &HostRuntime, path: &str, request: &Request, why: &mut Why) -> Outcome {
    in_store(rt, path, Querying { request }, why)
}

/// Passes a request.
#[derive(Drop)]
struct Querying<'a> {
    request: &'a Request,
}

impl<'a> Task for Querying<'a> {
    fn perform<K: Keeper>(self, rt: &HostRuntime, keeper: K, why: &mut Why) -> (K, Outcome) {
        let mut keeper = keeper;
        let outcome = perform_request(rt, &mut keeper, self.request, why);
        (keeper, outcome)
    }
}

/// Serves `count` connections to a port of 127.0.0.1, one after the other, from the store at a path. A line for each is logged, if that
/// is asked for.
pub(crate) fn serve(
    rt: &HostRuntime,
    path: &str,
    port: u16,
    count: u32,
    has_log: bool,
    why: &mut Why,
) -> Outcome {
    let log = if has_log {
        Log::StandardError
    } else {
        Log::Nowhere
    };
    in_store(rt, path, Serving { port, count, log }, why)
}

/// Serves connections.
#[derive(Drop)]
struct Serving {
    port: u16,
    count: u32,
    log: Log,
}

impl Task for Serving {
    fn perform<K: Keeper>(self, rt: &HostRuntime, keeper: K, why: &mut Why) -> (K, Outcome) {
        let Ok(routes) = Routes::new(rt.alloc()) else {
            why.put(Cause::NoMemory);
            return (keeper, Outcome::Unavailable);
        };
        let mut handler = StoreHandler { keeper };
        let ended = serve_connections(rt, &routes, &mut handler, self.port, self.count, self.log);
        put_end(rt, ended, self.port, why);
        (handler.keeper, of_serving(ended))
    }
}

/// Notes why a service ended. The port is tried once more, for the error of that.
fn put_end(rt: &HostRuntime, ended: Ended, port: u16, why: &mut Why) {
    match ended {
        Ended::CannotAccept if why.is_wanted(rt) => {
            let address = SocketAddr::from((Ipv4Addr::LOCALHOST, port));
            if let Err(error) = TcpListener::bind(rt, address) {
                why.put(Cause::Port(port, error));
            }
        }
        Ended::Unavailable => why.put(Cause::NoMemory),
        _ => (),
    }
}

/// The outcome of a service that serves no more connections.
fn of_serving(ended: Ended) -> Outcome
    ensures { result ≡ of_serving ended }
{
    match ended {
        Ended::Counted => Outcome::Done,
        Ended::CannotAccept => Outcome::NoPort,
        Ended::Unavailable => Outcome::Unavailable,
    }
}
